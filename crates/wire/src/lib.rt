// Bytes on the wire: protobuf's varints, the frame around a message, and lists of addresses as the host hands them over.
#![tactic(auto)]

ghost use Rattle.std.specs.Prelude.{◌≡◌, [], ℕ, ◌+◌, ◌<◌, ◌≤◌, List, length, get_or, take, option_map};
ghost use Rattle.std.specs.Iterator.{YieldsFirstRef, item_count};
ghost use Rattle.std.proofs.lemmas.List.Edits.{sets};
ghost use Rattle.wire.specs.Varint.{span_at, value_of, varint_of, encoded};
ghost use Rattle.wire.specs.Frame.{max_message_size, reached, frame_from, frame_of};
ghost use Rattle.wire.specs.Packed.{packed};
ghost use Rattle.wire.specs.Lists.{first_entry, entries, broken, entry};

use std::marker::Model;

// ---- Varints

// How many bytes the varint has that stands first, at most ten; none where no byte ends it.
fn span(s: &[u8]) -> Option<usize>
    ensures { result ≡ span_at s.now }
{
    Some(s.iter().take(10).position(|b| *b < 128)? + 1)
}

// The number of the first n bytes, from the last group to the first.
fn value(s: &[u8], n: usize) -> u64
    requires { (n ≤ length s.now) × (n ≤ 10) × (9 < n → get_or s.now 9 0 ≤ 1) }
    ensures { result ≡ value_of (take n s.now) }
{
    let mut v: u64 = 0;
    for i in (0..n).rev() {
        v = v * 128 + u64::from(s[i] % 128);
    }
    v
}

// The varint that stands first.
pub fn first_varint(s: &[u8]) -> Option<(u64, usize)>
    ensures { result ≡ varint_of s.now }
{
    let n = span(s)?;
    if n == 10 && 1 < s[9] {
        return None;
    }
    Some((value(s, n), n))
}

// How many bytes the shortest form has: one for each seven bits.
pub fn varint_len(value: u64) -> usize
    ensures { result ≡ length (encoded value) }
{
    value.max(1).ilog2() as usize / 7 + 1
}

// Stores the shortest form at a place; what would stand past the end is left out.
pub fn put_varint(value: u64, out: &mut [u8], at: usize)
    ensures { out.new ≡ sets out.old at (encoded value) }
{
    let mut v = value;
    for p in at..out.len() {
        if v < 128 {
            out[p] = v as u8;
            return;
        }
        out[p] = 128 + (v % 128) as u8;
        v /= 128;
    }
}

// ---- Frames

// The most bytes of a message.
pub const MAX_MESSAGE_SIZE: usize = 4096;

// The most bytes of a frame: two of length, then the message.
pub const MAX_FRAME_SIZE: usize = 4098;

// What the bytes so far are: more are needed, a whole frame, or none that can become whole, of which the Rust's `FrameDecode` tells
// two kinds apart. Three cases side by side, so no `Result` of an `Option`.
#[derive(Clone, Copy)]
pub enum Frame {
    More,
    Whole { start: usize, len: usize },
    Broken,
}

// A message of len bytes behind start bytes of length, of which count bytes are there.
fn message_behind(start: usize, len: usize, count: usize) -> Frame
    requires { (start ≤ 2) × (len ≤ max_message_size) }
    ensures { result ≡ reached start len count }
{
    if start + len <= count {
        Frame::Whole { start, len }
    } else {
        Frame::More
    }
}

// The frame with these first two bytes, of which count bytes are there.
pub fn frame_from(first: u8, second: u8, count: usize) -> Frame
    ensures { result ≡ frame_from first second count }
{
    match (count, first, second) {
        (0, _, _) => Frame::More,
        (_, 0..=127, _) => message_behind(1, usize::from(first), count),
        (1, _, _) => Frame::More,
        (_, _, 1..=127) => {
            let len = usize::from(second) * 128 + usize::from(first % 128);
            if MAX_MESSAGE_SIZE < len {
                return Frame::Broken;
            }
            message_behind(2, len, count)
        }
        _ => Frame::Broken,
    }
}

// The frame whose bytes so far are s.
fn frame_so_far(s: &[u8]) -> Frame
    ensures { result ≡ frame_of s.now }
{
    match s {
        [] => Frame::More,
        [first] => frame_from(*first, 0, 1),
        [first, second, ..] => frame_from(*first, *second, s.len()),
    }
}

// The frame whose first count bytes stand in the buffer.
pub fn decode_frame(buffer: &[u8], count: usize) -> Frame
    ensures { result ≡ frame_of (take count buffer.now) }
{
    frame_so_far(&buffer[..count.min(buffer.len())])
}

// ---- Address lists

// The address that stands first in a list, and what follows it; nothing at the end or a break.
pub fn first_entry(list: &[u8]) -> Option<(&[u8], &[u8])>
    ensures { option_map (λ p. (p.0.now, p.1.now)) result ≡ first_entry list.now }
{
    let (size, rest) = list.split_first_chunk::<2>()?;
    rest.split_at_checked(usize::from(u16::from_be_bytes(*size)))
}

// The addresses of a list, in order, up to its end or break.
#[derive(Drop)]
pub struct EntryIter<'a> {
    rest: &'a [u8],
}

impl<'a> Model for EntryIter<'a> {
    ghost Value = { List (List ℕ) };

    ghost view = { λ s. entries s.rest.now };
}

impl<'a> Iterator for EntryIter<'a> {
    type Item = &'a [u8];

    ghost next_gives = { YieldsFirstRef (λ left. left) };

    ghost remaining = { item_count (λ left. left) };

    fn next(&mut self) -> Option<&'a [u8]> {
        let (address, rest) = first_entry(self.rest)?;
        self.rest = rest;
        Some(address)
    }
}

pub fn entries(list: &[u8]) -> EntryIter<'_>
    ensures { result ≡ entries list.now }
{
    EntryIter { rest: list }
}

// Whether a list stops in the middle of a length or of an address.
pub fn is_broken(list: &[u8]) -> bool
    ensures { result ≡ broken list.now }
{
    // A while let: what is left behind the last address decides.
    let mut rest = list;
    while let Some((_, behind)) = first_entry(rest) {
        rest = behind;
    }
    !rest.is_empty()
}

// ---- Bytes into a buffer

// Stores bytes from a place on; what would stand past the end is left out.
pub fn put_bytes(src: &[u8], out: &mut [u8], at: usize)
    ensures { out.new ≡ sets out.old at src.now }
{
    if at < out.len() {
        let n = src.len().min(out.len() - at);
        out[at..at + n].copy_from_slice(&src[..n]);
    }
}

// Stores an address as an entry of a list; what would stand past the end is left out.
pub fn put_entry(address: &[u8], out: &mut [u8], at: usize)
    ensures { out.new ≡ sets out.old at (entry address.now) }
{
    if at < out.len() {
        let size = (address.len() % 0x1_0000) as u16;
        put_bytes(&size.to_be_bytes(), out, at);
        put_bytes(address, out, at + 2);
    }
}

// ---- Bytes in front of zeros

// Bytes from the first on, zero bytes behind them, and their number.
#[derive(Clone, Copy)]
pub struct Packed<const N: usize> {
    pub bytes: [u8; N],
    pub len: usize,
}

impl<const N: usize> Packed<N> {
    pub fn empty() -> Self
        ensures { result ≡ packed N [] }
    {
        Packed {
            bytes: [0u8; N],
            len: 0,
        }
    }
}
