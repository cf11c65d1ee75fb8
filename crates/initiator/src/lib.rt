// The initiator of an exchange (lib.rs): the reply that is gathered in the lent buffer, read before it is stored.
#![tactic(auto)]

ghost use Rattle.std.specs.Prelude.{◌≡◌, ◌+◌, ◌≤◌, length};
ghost use Rattle.std.proofs.lemmas.List.Edits.{sets};
ghost use Rattle.message.specs.Message.{decode_of, decode_into};
ghost use Rattle.wire.specs.Frame.{max_frame_size};
ghost use Rattle.initiator.specs.Replies.{replied, message_at, reply_of, reply_into};

use message::Kind;
use wire::{Frame, MAX_FRAME_SIZE};

// What the gathered bytes answer: more are needed, or a CONNECT with a list of size bytes.
#[derive(Clone, Copy)]
pub enum Reply {
    More { count: usize },
    Connect { size: usize },
}

// The message of a whole frame, its addresses as a list in out; none where it is no CONNECT.
fn read_message(message: &[u8], out: &mut [u8]) -> Option<Reply>
    ensures answer { result ≡ replied (decode_of message.now (length out.old)) }
    ensures stored { out.new ≡ decode_into message.now out.old }
{
    match message::decode(message, out) {
        Ok((Kind::Connect, size)) => Some(Reply::Connect { size }),
        _ => None,
    }
}

// The same where the frame stands in the buffer once these bytes stand in it from count on.
fn read_ahead(
    bytes: &[u8],
    buffer: &[u8],
    count: usize,
    start: usize,
    len: usize,
    out: &mut [u8],
) -> Option<Reply>
    requires { (start + len ≤ max_frame_size) × (start + len ≤ length buffer.now) }
    ensures answer { result ≡ replied (decode_of (message_at start len (sets buffer.now count bytes.now)) (length out.old)) }
    ensures stored { out.new ≡ decode_into (message_at start len (sets buffer.now count bytes.now)) out.old }
{
    let mut frame = [0u8; MAX_FRAME_SIZE];
    wire::put_bytes(buffer, &mut frame, 0);
    wire::put_bytes(bytes, &mut frame, count);
    let end = start + len;
    read_message(&frame[start..end], out)
}

// What gathering an input would answer, read to the end, with the buffer left as it is: the circuit can still turn the call back. None
// where the exchange has failed.
pub fn peek_reply(input: &[u8], buffer: &[u8], count: usize, out: &mut [u8]) -> Option<Reply>
    ensures answer { result ≡ reply_of input.now buffer.now count (length out.old) }
    ensures stored { out.new ≡ reply_into input.now buffer.now count out.old }
{
    let g = frames::look_ahead(input, buffer, count);
    let end = g.count;
    let f = g.frame;
    match f {
        Frame::More => Some(Reply::More { count: end }),
        Frame::Broken => None,
        Frame::Whole { start, len } => {
            let n = end - count;
            read_ahead(&input[..n], buffer, count, start, len, out)
        }
    }
}
