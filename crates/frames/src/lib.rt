// Frames (lib.rs): CONNECT and SYNC as they go out, the CONNECT of an own address list, and a frame that is gathered in a lent buffer.
#![tactic(auto)]

ghost use Rattle.std.specs.Prelude.{◌≡◌, false, List, [], ℕ, ◌+◌, ◌<◌, ◌≤◌, length, replicate};
ghost use Rattle.message.specs.Encoding.{frame_bytes};
ghost use Rattle.wire.specs.Frame.{max_frame_size};
ghost use Rattle.wire.specs.Lists.{entries, broken, listed};
ghost use Rattle.address.specs.Multiaddr.{longest4, longest6};
ghost use Rattle.prelude.specs.Lists.{count};
ghost use Rattle.candidates.specs.Entries.{longer_than};
ghost use Rattle.candidates.specs.Selection.{usual, most, held, own};
ghost use Rattle.candidates.specs.declared.Limits.{Limits};
ghost use Rattle.frames.specs.Sent.{frame_capacity, packed, connect_frame, sync_frame, chosen_connect, own_connect, longest_own};
ghost use Rattle.frames.specs.Gathering.{gathered, gathered_into, frame_byte};

use candidates::{Chosen, Limits};
use message::Kind;
use wire::{Frame, Packed};

// ---- Frames that go out

// The frame's length, of two bytes at most, and the type's field.
const HEAD_SIZE: usize = 4;

// What stands before an address in its field: the tag and a length of two bytes at most.
const FIELD_HEAD_SIZE: usize = 3;

// The most bytes of a frame that goes out: CONNECT with as many own addresses of each family as it has at most, all the longest.
pub const FRAME_CAPACITY: usize = HEAD_SIZE
    + candidates::MAX_PUNCH_CANDIDATES_PER_FAMILY * (FIELD_HEAD_SIZE + address::LONGEST_V4)
    + candidates::MAX_PUNCH_CANDIDATES_PER_FAMILY * (FIELD_HEAD_SIZE + address::LONGEST_V6);

pub type FrameBytes = [u8; FRAME_CAPACITY];

// A frame's bytes from the first on, and their number.
pub type Framed = Packed<FRAME_CAPACITY>;

pub fn blank() -> FrameBytes
    ensures { result ≡ replicate frame_capacity 0 }
{
    [0u8; FRAME_CAPACITY]
}

// The framed CONNECT with the addresses of a list; empty for a broken list, or for one whose frame has no room.
pub fn connect_frame(own: &[u8]) -> Framed
    ensures { result ≡ connect_frame own.now }
{
    let mut bytes = blank();
    let len = message::encode_frame(Kind::Connect, own, &mut bytes).unwrap_or(0);
    Framed { bytes, len }
}

// The framed SYNC.
pub fn sync_frame() -> Framed
    ensures { result ≡ sync_frame }
{
    let mut bytes = blank();
    bytes[0] = 0x03;
    bytes[1] = 0x08;
    bytes[2] = 0xac;
    bytes[3] = 0x02;
    Framed { bytes, len: 4 }
}

// ---- The CONNECT of an own list

fn connect_of(chosen: Chosen) -> Framed
    requires { chosen.len ≤ length chosen.bytes }
    ensures { result ≡ chosen_connect chosen }
{
    connect_frame(&chosen.bytes[..chosen.len])
}

// The framed CONNECT with the candidates of an own list; empty for a broken list, or where limits above the usual ones leave it no
// room.
pub fn own_connect(list: &[u8], limits: Limits) -> Framed
    ensures { result ≡ own_connect limits list.now }
{
    // A match: what connect_of requires holds of what was chosen, and map_or does not hand that on to it.
    match candidates::own_punch_candidates(list, limits) {
        Err(_) => Framed::empty(),
        Ok(chosen) => connect_of(chosen),
    }
}

// ---- A frame gathered

// How many frame bytes the buffer has, and what frame they are.
#[derive(Clone, Copy)]
pub struct Gathered {
    pub count: usize,
    pub frame: Frame,
}

// The byte at a place of the frame: in the buffer before count, else in the input; 0 where there is none.
fn frame_byte(input: &[u8], buffer: &[u8], count: usize, place: usize) -> u8
    ensures { result ≡ frame_byte input.now buffer.now count place }
{
    let byte = if place < count {
        buffer.get(place)
    } else {
        input.get(place - count)
    };
    byte.copied().unwrap_or(0)
}

// What gathering an input would answer, with the buffer left as it is.
pub fn look_ahead(input: &[u8], buffer: &[u8], count: usize) -> Gathered
    ensures { result ≡ gathered input.now buffer.now count }
{
    let first = frame_byte(input, buffer, count, 0);
    let second = frame_byte(input, buffer, count, 1);
    let mut n = count;
    for _byte in input {
        if buffer.len() <= n {
            return Gathered {
                count: n,
                frame: Frame::Broken,
            };
        }
        n += 1;
        match wire::frame_from(first, second, n) {
            Frame::More => {}
            frame => return Gathered { count: n, frame },
        }
    }
    Gathered {
        count: n,
        frame: Frame::More,
    }
}

// Stores an input behind the count frame bytes of the buffer, up to the byte that completes or breaks the frame.
pub fn gather(input: &[u8], buffer: &mut [u8], count: usize) -> Gathered
    ensures answer { result ≡ gathered input.now buffer.old count }
    ensures stored { buffer.new ≡ gathered_into input.now buffer.old count }
{
    let g = look_ahead(input, buffer, count);
    let end = g.count;
    let n = end - count;
    wire::put_bytes(&input[..n], buffer, count);
    g
}

// ---- Theorems

// The framed CONNECT fits, and is never empty, for as many addresses as a list has room for, of which no more than a family's usual
// limit are longer than the IPv4 ones and none is longer than the IPv6 ones.
pub fn connect_frame_fits()
    ensures { (xs : List (List ℕ)) → length xs ≤ most → count (longer_than longest4) xs ≤ usual.family → count (longer_than longest6) xs ≡ 0 → (length (frame_bytes Kind.Connect xs) ≤ frame_capacity) × (connect_frame (listed xs) ≡ packed (frame_bytes Kind.Connect xs)) }
{}

// An own list that is not broken has its CONNECT, whole, under all limits that allow no more of a family than the usual ones; it has
// at most 1,204 bytes.
pub fn own_connect_fits()
    ensures whole { (l : Limits) (list : List ℕ) → l.family ≤ usual.family → broken list ≡ false → own_connect l list ≡ packed (frame_bytes Kind.Connect (own (held l) (entries list))) }
    ensures most { frame_capacity ≡ 1204 }
{}

// An own list whose CONNECT has as many.
pub fn longest_connect()
    ensures { (own_connect usual longest_own).len ≡ frame_capacity }
{}

// A count that gathering hands on stays below the longest frame: a buffer of that length has room for every next byte.
pub fn count_stays_below()
    ensures { (xs b : List ℕ) (n : ℕ) → n < max_frame_size → (gathered xs b n).frame ≡ Frame.More → (gathered xs b n).count < max_frame_size }
{}
