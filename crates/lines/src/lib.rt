// Lines out of blocks of input. A line is gathered in a lent buffer as long as the longest line with its line feed, so a line that fills
// the buffer is too long.
#![tactic(auto)]

ghost use Rattle.std.specs.Prelude.{◌≡◌, List, ◌++◌, ℕ, ◌<◌, ◌≤◌, length, take};
ghost use Rattle.text.specs.Printed.{printed, behind};
ghost use Rattle.lines.specs.Lines.{text_from, gathered};

use text::Printer;

// The bytes of the longest line, with its line feed.
pub const LONGEST: usize = 32768;

// How many bytes of the buffer the line has filled and where the block goes on, in both cases; and whether a line feed ended the line.
#[derive(Clone, Copy)]
pub struct Gathered {
    pub used: usize,
    pub next: usize,
    pub ended: bool,
}

// The bytes of a block from a place up to a line feed, or all that are left, stored behind those that the line has so far.
#[tactic(auto, unfolding(text::specs::Printed::with_text))]
pub fn gather(block: &[u8], from: usize, line: &mut [u8], used: usize) -> Gathered
    ensures result { result ≡ gathered block.now from line.old used }
    ensures bytes { line.new ≡ printed line.old used (text_from block.now from) }
{
    if block.len() <= from {
        return Gathered {
            used,
            next: from,
            ended: false,
        };
    }
    let n = text::length_before(&block[from..], b'\n');
    let e = from + n;
    let mut printer = Printer {
        out: line,
        at: used,
    };
    printer.put_text(&block[from..e]);
    if e < block.len() {
        return Gathered {
            used: printer.at,
            next: e + 1,
            ended: true,
        };
    }
    Gathered {
        used: printer.at,
        next: e,
        ended: false,
    }
}

// A line gathered in two parts is the line gathered at once. One that is shorter than the buffer stands whole at its start; any other
// fills the buffer.
#[tactic(auto, unfolding(text::specs::Printed::with_text))]
pub fn gathered_in_parts()
    ensures joined { (b s t : List ℕ) → printed (printed b 0 s) (behind b 0 s) t ≡ printed b 0 (s ++ t) }
    ensures counted { (b s t : List ℕ) → behind (printed b 0 s) (behind b 0 s) t ≡ behind b 0 (s ++ t) }
    ensures whole { (b s : List ℕ) → length s < length b → take (behind b 0 s) (printed b 0 s) ≡ s }
    ensures long { (b s : List ℕ) → length b ≤ length s → behind b 0 s ≡ length b }
{}
