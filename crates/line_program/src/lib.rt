// What programs that answer standard input line by line share: the next line read, and a text written. No contract can say which bytes
// a read brings, nor whether a text was written; these say what becomes of the bytes that were brought.
#![tactic(auto)]

ghost use Rattle.std.specs.Prelude.{◌≡◌, true, ◌+◌, ◌≤◌, length, [], leb};
ghost use Rattle.line_program.specs.Waits.{is_line, stays, waiting_after, handed_after};
ghost use Rattle.line_program.specs.Reads.{left, has_line, has_feed, has_more, has_failed, refilled, Turned, NextLine};

use std::io::{Read, Stdin, Stdout, Write};

// How many bytes a program's block of input has, and its buffer of output.
pub const BUFFER: usize = 65536;

// Why the reading of a line ended.
#[derive(Clone, Copy)]
pub enum End {
    LineFeed,
    Input,
    Failure,
}

// A line's bytes are the first `used` of its buffer, which a line too long fills. It has no `end` while it goes on. The block's bytes from
// `from` up to `until` are still to be read.
#[derive(Clone, Copy)]
pub struct Reading {
    pub used: usize,
    pub end: Option<End>,
    pub from: usize,
    pub until: usize,
}

impl Reading {
    // Whether a line feed ended the line.
    pub fn has_feed(self) -> bool
        ensures { result ≡ has_feed self.end }
    {
        matches!(self.end, Some(End::LineFeed))
    }

    // Whether the input may have more behind the line.
    pub fn has_more(self) -> bool
        ensures { result ≡ has_more self.end }
    {
        !matches!(self.end, Some(End::Input | End::Failure))
    }

    // Whether reading failed in it.
    pub fn has_failed(self) -> bool
        ensures { result ≡ has_failed self.end }
    {
        matches!(self.end, Some(End::Failure))
    }

    // Whether a line was read, and not the input's end or a failure. An empty line without a line feed is none.
    pub fn is_line(self) -> bool
        ensures { result ≡ is_line self.end self.used }
    {
        match self.end {
            Some(End::LineFeed) => true,
            Some(End::Failure) => false,
            _ => 0 < self.used,
        }
    }
}

// Reads a block; a read that fails brings none.
fn fill(mut input: Stdin, block: &mut [u8], used: usize) -> Reading
    ensures result { result ≡ refilled used result.until (has_failed result.end) }
    ensures block { result.until ≤ length block.old }
    ensures failed { has_failed result.end ≡ true → result.until ≡ 0 }
{
    let (end, until) = match input.read(block) {
        Ok(0) => (Some(End::Input), 0),
        Ok(n) => (None, n),
        Err(_) => (Some(End::Failure), 0),
    };
    Reading {
        used,
        end,
        from: 0,
        until,
    }
}

// Goes on with a line: by what the block has of it, or by a block more.
fn read_on(input: Stdin, block: &mut [u8], line: &mut [u8], s: Reading) -> Reading
    requires { (s.used ≤ length line.old) × (s.until ≤ length block.old) }
    ensures used { result.used ≤ length line.old }
    ensures block { result.until ≤ length block.old }
    ensures read { Turned 1 line.old s.used (left block.old s.from s.until) block.new line.new result }
{
    if s.until <= s.from {
        return fill(input, block, s.used);
    }
    let until = s.until;
    let g = lines::gather(&block[..until], s.from, line, s.used);
    Reading {
        used: g.used,
        end: g.ended.then_some(End::LineFeed),
        from: g.next,
        until,
    }
}

// Reads the next line, up to its line feed or the input's end, where the block's bytes from `from` up to `until` come first. A proved
// loop has to end, so its turns are counted, up to a number that no line of fewer than 2^63 - 1 bytes uses up.
pub fn next_line(
    input: Stdin,
    block: &mut [u8],
    line: &mut [u8],
    from: usize,
    until: usize,
) -> Reading
    ensures used { result.used ≤ length line.old }
    ensures block { result.until ≤ length block.old }
    ensures read { NextLine line.old (left block.old from until) block.new line.new result }
{
    let stop = until.min(block.len());
    let mut s = Reading {
        used: 0,
        end: None,
        from,
        until: stop,
    };
    for _turn in 0..u64::MAX {
        if s.end.is_some() {
            return s;
        }
        s = read_on(input, block, line, s);
    }
    s
}

// Whether a whole line stands in the block from `from` up to `until`: then the next line needs no read.
pub fn has_line(block: &[u8], from: usize, until: usize) -> bool
    ensures { result ≡ has_line (left block.now from until) }
{
    let stop = until.min(block.len());
    if stop <= from {
        return false;
    }
    text::length_before(&block[from..stop], 10) < stop - from
}

// Writes the first n bytes of a text to standard output: whether there are so many and all were written.
pub fn print(mut output: Stdout, text: &[u8], n: usize) -> bool
    ensures { result ≡ true → n ≤ length text.now }
{
    if text.len() < n {
        return false;
    }
    output.write_all(&text[..n]).is_ok()
}

// ---- what waits to be written

// Output that waits, from the buffer's first byte on, and whether all before it was written.
#[derive(Clone, Copy)]
pub struct Waiting {
    pub bytes: usize,
    pub written: bool,
}

fn has_room(size: usize, waiting: usize, room: usize) -> bool
    ensures { result ≡ leb (waiting + room) size }
{
    waiting <= size && room <= size - waiting
}

// Whether what waits may stay: the next line needs no read, and `room` is left for what it prints.
fn may_stay(
    block: &[u8],
    from: usize,
    until: usize,
    size: usize,
    waiting: usize,
    room: usize,
) -> bool
    ensures { result ≡ stays room (has_line (left block.now from until)) size waiting }
{
    has_line(block, from, until) && has_room(size, waiting, room)
}

// Writes what waits unless it may stay. Where nothing waits nothing is written, so that nothing fails.
pub fn hand_over(
    output: Stdout,
    block: &[u8],
    from: usize,
    until: usize,
    out: &[u8],
    waiting: usize,
    room: usize,
) -> Waiting
    ensures bytes { result.bytes ≡ waiting_after room (has_line (left block.now from until)) out.now waiting }
    ensures written { waiting ≤ length out.now → handed_after room (has_line (left block.now from until)) out.now waiting ≡ [] → result.written ≡ true }
{
    if waiting == 0 || may_stay(block, from, until, out.len(), waiting, room) {
        return Waiting {
            bytes: waiting,
            written: true,
        };
    }
    Waiting {
        bytes: 0,
        written: print(output, out, waiting),
    }
}
