// Calls as a table of text: a row for each, its form and the forms of its answers. A line becomes a call's row and words, and an answer a
// line. What a call does stands elsewhere, as a function from words and bytes to words and bytes.
#![tactic(auto)]

ghost use Rattle.std.specs.Prelude.{◌≡◌, ◌≤◌, List, ℕ, length, take};
ghost use Rattle.std.specs.Iterator.{YieldsFirstRef, item_count};
ghost use Rattle.text.specs.Printed.{printed, page, with_text};
ghost use Rattle.lines.specs.Lines.{longest};
ghost use Rattle.call_table.specs.Tables.{parts, part_at, words_by, call_of, blank, bytes_in, no_bytes, says, shows, yes_said, said_text};

use std::marker::Model;
use text::Printer;

// ---- the parts of a text

// The parts of a text, in order; a last separator has none behind it.
#[derive(Drop)]
struct Parts<'a> {
    rest: &'a [u8],
    separator: u8,
}

impl<'a> Model for Parts<'a> {
    ghost Value = { List (List ℕ) };

    ghost view = { λ s. parts s.separator s.rest.now };
}

impl<'a> Iterator for Parts<'a> {
    type Item = &'a [u8];

    ghost next_gives = { YieldsFirstRef (λ left. left) };

    ghost remaining = { item_count (λ left. left) };

    fn next(&mut self) -> Option<&'a [u8]> {
        let rest = self.rest;
        if rest.is_empty() {
            return None;
        }
        let end = text::length_before(rest, self.separator);
        self.rest = &rest[(end + 1).min(rest.len())..];
        Some(&rest[..end])
    }
}

fn cut(s: &[u8], separator: u8) -> Parts<'_>
    ensures { result ≡ parts separator s.now }
{
    Parts { rest: s, separator }
}

// An empty one where there are fewer.
fn part_of(s: &[u8], separator: u8, k: usize) -> &[u8]
    ensures { result.now ≡ part_at separator s.now k }
{
    cut(s, separator).nth(k).unwrap_or(&[])
}

// ---- the call of a line

// As many words as a call has at most.
pub const WORDS: usize = 8;

pub type Words = [u64; WORDS];

// A line's words by a row's form; none where it has another.
fn try_row(row: &[u8], line: &[u8]) -> Option<Words>
    ensures { result ≡ words_by row.now line.now }
{
    let mut words = [0u64; WORDS];
    let form = part_of(row, b'|', 0);
    if forms::read_form(form, line, &mut words) {
        return Some(words);
    }
    None
}

// Which row's form a line has, and its words.
#[derive(Clone, Copy)]
pub struct Call {
    pub row: usize,
    pub words: Words,
}

pub fn call_of(table: &[u8], line: &[u8]) -> Option<Call>
    ensures { result ≡ call_of table.now line.now }
{
    for (row, fields) in cut(table, b'\n').enumerate() {
        if let Some(words) = try_row(fields, line) {
            return Some(Call { row, words });
        }
    }
    None
}

// ---- its bytes

// Room for a line.
pub type Line = [u8; lines::LONGEST];

#[tactic(auto, unfolding(crate::specs::Tables::blank))]
pub fn blank() -> Line
    ensures { result ≡ blank }
{
    [0; lines::LONGEST]
}

// Those that a line's digits stand for, over the start of lent room, and how many they are; none where they are more than a line's.
pub fn bytes_in(line: &[u8], start: u64, end: u64, room: &mut Line) -> usize
    ensures bytes { room.new ≡ printed room.old 0 (bytes_in line.now start end) }
    ensures count { result ≡ length (bytes_in line.now start end) }
    ensures shown { take result room.new ≡ bytes_in line.now start end }
    ensures within { result ≤ longest }
{
    let start = start as usize;
    let end = (end as usize).min(line.len());
    if end <= start || room.len() < end - start {
        return 0;
    }
    text::read_hexadecimal(&line[start..end], room, 0)
}

// ---- an answer

// The bytes that an answer may show.
pub const SHOWN: usize = 8192;

pub type Shown = [u8; SHOWN];

// As many words as an answer has at most.
pub const SAID: usize = 6;

pub type SaidWords = [u64; SAID];

// Those of an answer that has none.
pub const NONE: SaidWords = [0; SAID];

// Which of its row's, its words, and the bytes that it shows.
#[derive(Clone, Copy)]
pub struct Said {
    pub answer: usize,
    pub words: SaidWords,
    pub bytes: Shown,
}

#[tactic(auto, unfolding(crate::specs::Tables::no_bytes))]
pub fn no_bytes() -> Shown
    ensures { result ≡ no_bytes }
{
    [0; SHOWN]
}

pub fn say(answer: usize, words: SaidWords) -> Said
    ensures { result ≡ says answer words }
{
    Said {
        answer,
        words,
        bytes: no_bytes(),
    }
}

pub fn show(answer: usize, words: SaidWords, bytes: Shown) -> Said
    ensures { result ≡ shows answer words bytes }
{
    Said {
        answer,
        words,
        bytes,
    }
}

// That something holds is a row's first answer, and that it does not its second.
pub fn yes_said(holds: bool) -> Said
    ensures { result ≡ yes_said holds }
{
    say(if holds { 1 } else { 2 }, NONE)
}

// Prints its line, by the row of the call.
#[tactic(auto, unfolding(crate::specs::Tables::said_by), using(text::proofs::Printing::with_texts))]
pub fn put_said(table: &[u8], row: usize, said: Said, printer: &mut Printer<'_>)
    ensures { page printer.new ≡ with_text (page printer.old) (said_text table.now row said) }
{
    let fields = part_of(table, b'\n', row);
    let form = part_of(fields, b'|', said.answer);
    forms::put_form(form, &said.words, &said.bytes, printer);
    printer.put_text(b"\n");
}
