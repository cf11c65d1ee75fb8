// What an input's bytes bring of the reply, read before one of them is stored: a call that needs a 65th row can still be turned back.
ghost use Rattle.std.specs.Prelude.{◌≡◌};
ghost use Rattle.lent.specs.Brought.{brought_by};
ghost use Rattle.lent.specs.Replies.{no_list, chosen_from, peeked_of};

use candidates::{Chosen, Terms};
use initiator::Reply;
use inputs::Heard;

// What was heard; a CONNECT brings targets.
#[derive(Clone, Copy)]
pub struct Peeked {
    pub heard: Heard,
    pub targets: Chosen,
}

// Room for the address list of any message.
type AddressBytes = [u8; wire::MAX_MESSAGE_SIZE];

#[tactic(auto, unfolding(crate::specs::Replies::no_list))]
fn no_list() -> AddressBytes
    ensures { result ≡ no_list }
{
    [0u8; wire::MAX_MESSAGE_SIZE]
}

// The targets among the addresses of a reply; none where its list is broken.
#[tactic(auto, unfolding(crate::specs::Replies::chosen_from))]
fn targets_from(list: &[u8], terms: Terms) -> Chosen
    ensures { result ≡ chosen_from terms list.now }
{
    match candidates::select_punch_candidates(list, terms) {
        Ok(chosen) => chosen,
        Err(_) => Chosen::empty(),
    }
}

// The bytes behind the first `count` of the buffer, which stays as it is.
pub fn peek_data(bytes: &[u8], buffer: &[u8], count: usize, terms: Terms) -> Peeked
    ensures { result ≡ peeked_of terms (brought_by bytes.now buffer.now count) }
{
    let mut list = no_list();
    match initiator::peek_reply(bytes, buffer, count, &mut list) {
        None => Peeked {
            heard: Heard::Failed,
            targets: Chosen::empty(),
        },
        Some(Reply::More { count: n }) => Peeked {
            heard: Heard::More(n),
            targets: Chosen::empty(),
        },
        Some(Reply::Connect { size }) => {
            let chosen = targets_from(&list[..size], terms);
            Peeked {
                heard: Heard::Connect {
                    targets: chosen.len,
                },
                targets: chosen,
            }
        }
    }
}
