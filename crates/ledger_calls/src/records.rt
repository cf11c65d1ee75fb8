// Numbers as eight bytes, the first byte first: the live connections of an abort, and the lists that it answers.
ghost use Rattle.std.specs.Prelude.{◌≡◌, ◌+◌, ◌*◌, ◌<◌, ◌≤◌, ◌^◌, length, take};
ghost use Rattle.text.specs.Printed.{page, with_text};
ghost use Rattle.ledger_calls.specs.Records.{half, number, live_at, records, lives_in, lives_over, numbers_bytes};

use ids::{ConnectionId, PeerId};
use live_dials::Live;
use text::Printer;

// ---- read

// A number with a byte more. By bytes: `first_chunk::<8>` would answer an `Option` that is never none here.
fn more(v: u64, b: u8) -> u64
    requires { v < 2 ^ 56 }
    ensures { (result ≡ v * 256 + b) × (result ≤ v * 256 + 255) }
{
    v * 256 + b as u64
}

#[tactic(auto, unfolding(crate::specs::Records::half))]
fn half_at(s: &[u8], at: usize) -> u64
    requires { at + 4 ≤ length s.now }
    ensures { (result ≡ half s.now at) × (result < 2 ^ 32) }
{
    let v = more(0, s[at]);
    let v = more(v, s[at + 1]);
    let v = more(v, s[at + 2]);
    more(v, s[at + 3])
}

fn number_at(s: &[u8], at: usize) -> u64
    requires { at + 8 ≤ length s.now }
    ensures { result ≡ number s.now at }
{
    let high = half_at(s, at);
    let low = half_at(s, at + 4);
    high * 0x100000000 + low
}

// A peer, and a connection of it.
fn live_at(s: &[u8], at: usize) -> Live
    requires { at + 16 ≤ length s.now }
    ensures { result ≡ live_at s.now at }
{
    let peer = number_at(s, at);
    let connection = number_at(s, at + 8);
    Live {
        peer: PeerId(peer),
        connection: ConnectionId(connection),
    }
}

// As many records as a line has room for: each takes 32 of its bytes.
pub const RECORDS: usize = 1024;

// What stands in room for them before they are read.
pub const NONE: Live = Live {
    peer: PeerId(0),
    connection: ConnectionId(0),
};

// The whole records of a text, over the start of lent room, and how many they are.
pub fn read_lives(s: &[u8], room: &mut [Live; RECORDS]) -> usize
    ensures lives { room.new ≡ lives_over room.old s.now }
    ensures count { result ≡ records s.now }
    ensures read { take result room.new ≡ lives_in s.now }
{
    let n = (s.len() / 16).min(RECORDS);
    for k in 0..n {
        room[k] = live_at(s, 16 * k);
    }
    n
}

// ---- written

// One behind the other.
#[tactic(auto, using(text::proofs::Printing::with_texts))]
pub fn put_numbers(numbers: &[u64], printer: &mut Printer<'_>)
    ensures { page printer.new ≡ with_text (page printer.old) (numbers_bytes numbers.now) }
{
    for v in numbers {
        printer.put_text(&v.to_be_bytes());
    }
}
