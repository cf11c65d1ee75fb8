// Calls of `address` and `candidates`.
ghost use Rattle.std.specs.Prelude.{◌≡◌};
ghost use Rattle.text.specs.Printed.{page, with_text};
ghost use Rattle.address.specs.Multiaddr.{parsed};
ghost use Rattle.call_table.specs.Tables.{among};
ghost use Rattle.library_calls.specs.Choices.{eligible_said, selection_said, choice_said, choices_text, choices_table};

use call_table::Said;
use candidates::{Chosen, Limits, Terms};
use refusal::Refusal;
use text::Printer;

#[tactic(auto, unfolding(address::specs::Multiaddr::parsed))]
fn eligible(private: bool, bytes: &[u8]) -> Said
    ensures { result ≡ eligible_said private (parsed bytes.now) }
{
    match address::parse(bytes) {
        Some((ip, _)) => call_table::yes_said(address::eligible(ip, private)),
        None => call_table::say(3, call_table::NONE),
    }
}

fn selection_said(selection: Result<Chosen, Refusal>) -> Said
    ensures { result ≡ selection_said selection }
{
    match selection {
        Ok(chosen) => {
            let mut bytes = call_table::no_bytes();
            wire::put_bytes(&chosen.bytes, &mut bytes, 0);
            call_table::show(1, [0, chosen.len as u64, 0, 0, 0, 0], bytes)
        }
        Err(why) => call_table::say(2, [why.number(), 0, 0, 0, 0, 0]),
    }
}

#[tactic(auto, unfolding(crate::specs::Choices::choice_said))]
fn respond(row: usize, bytes: &[u8]) -> Said
    ensures { result ≡ choice_said row bytes.now }
{
    match row {
        0 => eligible(false, bytes),
        1 => eligible(true, bytes),
        2 => selection_said(candidates::select_punch_candidates(bytes, Terms::usual(false))),
        3 => selection_said(candidates::select_punch_candidates(bytes, Terms::usual(true))),
        4 => selection_said(candidates::own_punch_candidates(bytes, Limits::usual())),
        _ => selection_said(candidates::bound_punch_candidates(bytes, Limits::usual())),
    }
}

// The forms of the calls and of their answers.
#[tactic(auto, unfolding(crate::specs::Choices::choices_table))]
fn table() -> &'static [u8]
    ensures { result.now ≡ choices_table }
{
    b"do=eligible private=0 address=%|yes|no|none
do=eligible private=1 address=%|yes|no|none
do=select private=0 list=%|kept=%|refused why=#
do=select private=1 list=%|kept=%|refused why=#
do=own list=%|kept=%|refused why=#
do=bound list=%|kept=%|refused why=#"
}

// Answers a line that is one of these calls, and prints nothing of another: whether it is one.
#[tactic(auto, unfolding(call_table::specs::Tables::turn_by), using(text::proofs::Printing::with_none))]
pub fn answer(line: &[u8], printer: &mut Printer<'_>) -> bool
    ensures found { result ≡ among choices_table line.now }
    ensures printed { page printer.new ≡ with_text (page printer.old) (choices_text line.now) }
{
    let table = table();
    let Some(call) = call_table::call_of(table, line) else {
        return false;
    };
    let w = call.words;
    let mut room = call_table::blank();
    let n = call_table::bytes_in(line, w[0], w[1], &mut room);
    call_table::put_said(table, call.row, respond(call.row, &room[..n]), printer);
    true
}
