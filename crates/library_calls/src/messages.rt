// Calls of `wire` and `message`.
ghost use Rattle.std.specs.Prelude.{◌≡◌, length, take};
ghost use Rattle.text.specs.Printed.{page, with_text};
ghost use Rattle.wire.specs.Varint.{varint_of};
ghost use Rattle.wire.specs.Frame.{frame_of};
ghost use Rattle.wire.specs.Lists.{entries};
ghost use Rattle.call_table.specs.Tables.{among};
ghost use Rattle.library_calls.specs.Messages.{varint_said, encode_said, frame_said, list_said, filler, kind_place, decoded_said, read_said, encoded_said, write_said, message_said, messages_text, messages_table};

use call_table::{Said, Shown, Words};
use message::Kind;
use refusal::Refusal;
use text::Printer;
use wire::Frame;

#[tactic(auto, unfolding(wire::specs::Varint::varint_of))]
fn varint(bytes: &[u8]) -> Said
    ensures { result ≡ varint_said (varint_of bytes.now) }
{
    match wire::first_varint(bytes) {
        Some((value, next)) => call_table::say(1, [value, next as u64, 0, 0, 0, 0]),
        None => call_table::say(2, call_table::NONE),
    }
}

fn encode(value: u64) -> Said
    ensures { result ≡ encode_said value }
{
    let mut bytes = call_table::no_bytes();
    wire::put_varint(value, &mut bytes, 0);
    let n = wire::varint_len(value);
    call_table::show(1, [0, n as u64, 0, 0, 0, 0], bytes)
}

fn frame(bytes: &[u8], count: u64) -> Said
    ensures { result ≡ frame_said (frame_of (take count bytes.now)) }
{
    match wire::decode_frame(bytes, count as usize) {
        Frame::Whole { start, len } => call_table::say(1, [start as u64, len as u64, 0, 0, 0, 0]),
        Frame::More => call_table::say(2, call_table::NONE),
        Frame::Broken => call_table::say(3, call_table::NONE),
    }
}

#[tactic(auto, unfolding(crate::specs::Messages::list_said))]
fn list(bytes: &[u8]) -> Said
    ensures { result ≡ list_said bytes.now }
{
    if wire::is_broken(bytes) {
        return call_table::say(2, call_table::NONE);
    }
    let n = wire::entries(bytes).count();
    call_table::say(1, [n as u64, 0, 0, 0, 0, 0])
}

// The longest buffer that a line may ask for.
const ROOM: u64 = call_table::SHOWN as u64;

// Filled so that it shows what a call wrote.
#[tactic(auto, unfolding(crate::specs::Messages::filler))]
fn filled() -> Shown
    ensures { result ≡ filler 8192 }
{
    [0xee; call_table::SHOWN]
}

// The place of a kind's word in the form. By `match`: the form's order is not bound to the enum's.
fn kind_place(kind: Kind) -> u64
    ensures { result ≡ kind_place kind }
{
    match kind {
        Kind::Connect => 0,
        Kind::Sync => 1,
    }
}

fn decoded_said(d: Result<(Kind, usize), Refusal>, room: u64, buffer: Shown) -> Said
    ensures { result ≡ decoded_said d room buffer }
{
    match d {
        Ok((kind, size)) => {
            call_table::show(1, [kind_place(kind), size as u64, 0, room, 0, 0], buffer)
        }
        Err(why) => call_table::show(2, [why.number(), 0, room, 0, 0, 0], buffer),
    }
}

// Reads a message into a buffer, and shows the buffer whole.
fn read(bytes: &[u8], room: u64) -> Said
    ensures { result ≡ read_said bytes.now room }
{
    if ROOM < room {
        return call_table::say(3, call_table::NONE);
    }
    let n = room as usize;
    let mut buffer = filled();
    let d = message::decode(bytes, &mut buffer[..n]);
    decoded_said(d, room, buffer)
}

fn encoded_said(e: Result<usize, Refusal>, room: u64, buffer: Shown) -> Said
    ensures { result ≡ encoded_said e room buffer }
{
    match e {
        Ok(size) => call_table::show(1, [size as u64, 0, room, 0, 0, 0], buffer),
        Err(why) => call_table::show(2, [why.number(), 0, room, 0, 0, 0], buffer),
    }
}

// Writes a message into a buffer, and shows the buffer whole.
fn write(kind: Kind, bytes: &[u8], room: u64) -> Said
    ensures { result ≡ write_said kind bytes.now room }
{
    if ROOM < room {
        return call_table::say(3, call_table::NONE);
    }
    let n = room as usize;
    let mut buffer = filled();
    let e = message::encode(kind, bytes, &mut buffer[..n]);
    encoded_said(e, room, buffer)
}

#[tactic(auto, unfolding(crate::specs::Messages::message_said))]
fn respond(row: usize, w: Words, bytes: &[u8]) -> Said
    ensures { result ≡ message_said row w bytes.now }
{
    match row {
        0 => varint(bytes),
        1 => encode(w[0]),
        2 => frame(bytes, w[2]),
        3 => list(bytes),
        4 => read(bytes, w[2]),
        5 => write(Kind::Connect, bytes, w[2]),
        _ => write(Kind::Sync, bytes, w[2]),
    }
}

// The forms of the calls and of their answers.
#[tactic(auto, unfolding(crate::specs::Messages::messages_table))]
fn table() -> &'static [u8]
    ensures { result.now ≡ messages_table }
{
    b"do=varint in=%|value=# next=#|malformed
do=encode value=#|out=%
do=frame in=% count=#|whole start=# len=#|more|broken
do=list in=%|count=#|broken
do=read in=% room=#|kind=(connect/sync) size=# out=%|refused why=# out=%|bad
do=write kind=connect list=% room=#|size=# out=%|refused why=# out=%|bad
do=write kind=sync list=% room=#|size=# out=%|refused why=# out=%|bad"
}

// Answers a line that is one of these calls, and prints nothing of another: whether it is one.
#[tactic(auto, unfolding(call_table::specs::Tables::turn_by), using(text::proofs::Printing::with_none))]
pub fn answer(line: &[u8], printer: &mut Printer<'_>) -> bool
    ensures found { result ≡ among messages_table line.now }
    ensures printed { page printer.new ≡ with_text (page printer.old) (messages_text line.now) }
{
    let table = table();
    let Some(call) = call_table::call_of(table, line) else {
        return false;
    };
    let w = call.words;
    let mut room = call_table::blank();
    let n = call_table::bytes_in(line, w[0], w[1], &mut room);
    call_table::put_said(table, call.row, respond(call.row, w, &room[..n]), printer);
    true
}
