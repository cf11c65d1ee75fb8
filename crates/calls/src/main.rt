// Makes the calls that stand on standard input, a line for a line, and prints what each answers: for the comparison with the Rust. README.md
// has the lines.
#![tactic(auto)]

ghost use Rattle.std.specs.Prelude.{◌≡◌, ◌≤◌, length};
ghost use Rattle.text.specs.Printed.{printed, behind};
ghost use Rattle.line_program.specs.Reads.{left, NextLine};
ghost use Rattle.lines.specs.Lines.{longest};
ghost use Rattle.calls.specs.Steps.{step_of};
ghost use Rattle.calls.specs.Runs.{Ran};

use ledger::Ledger;
use library_calls::Kept;
use line_program::{BUFFER, Reading};
use std::io::{Stdin, Stdout};
use text::Printer;

// Where the input stands behind a line, how many bytes of the buffer were handed over to be written, and whether they were.
#[derive(Clone, Copy)]
pub struct Step {
    pub reading: Reading,
    pub handed: usize,
    pub written: bool,
}

// Reads the next line, answers it and writes its answer.
#[tactic(auto, unfolding(crate::specs::Steps::step_of, text::specs::Printed::with_text), using(crate::proofs::Stepping::unprinted, crate::proofs::Stepping::at_start))]
fn take_step(
    input: Stdin,
    output: Stdout,
    block: &mut [u8],
    line: &mut [u8],
    ledger: &mut Ledger,
    out: &mut [u8],
    from: usize,
    until: usize,
    kept: &mut Kept,
) -> Step
    ensures kept { kept.new ≡ (step_of result.reading line.new kept.old ledger.old).kept }
    ensures words { ledger.new ≡ (step_of result.reading line.new kept.old ledger.old).words }
    ensures out { out.new ≡ printed out.old 0 (step_of result.reading line.new kept.old ledger.old).text }
    ensures handed { result.handed ≡ behind out.old 0 (step_of result.reading line.new kept.old ledger.old).text }
    ensures read { NextLine line.old (left block.old from until) block.new line.new result.reading }
{
    let reading = line_program::next_line(input, block, line, from, until);
    if !reading.is_line() {
        return Step {
            reading,
            handed: 0,
            written: true,
        };
    }
    let mut printer = Printer { out, at: 0 };
    call_lines::answer_line(
        kept,
        ledger,
        &line[..reading.used],
        reading.has_feed(),
        &mut printer,
    );
    let handed = printer.at;
    Step {
        reading,
        handed,
        written: line_program::print(output, out, handed),
    }
}

// Goes on to the input's end, or up to an answer that cannot be written. A proved loop has to end, so its turns are counted, up to a number
// that no run uses up.
fn run(
    input: Stdin,
    output: Stdout,
    block: &mut [u8],
    line: &mut [u8],
    ledger: &mut Ledger,
    out: &mut [u8],
    kept: &mut Kept,
) -> Step
    requires { longest ≤ length line.old }
    ensures { Ran kept.old ledger.old block.new kept.new ledger.new result }
{
    let mut s = take_step(input, output, block, line, ledger, out, 0, 0, kept);
    for _turn in 0..u64::MAX {
        if !s.reading.has_more() || !s.written {
            break;
        }
        s = take_step(
            input,
            output,
            block,
            line,
            ledger,
            out,
            s.reading.from,
            s.reading.until,
            kept,
        );
    }
    s
}

fn main(rt: HostRuntime) {
    let mut block = [0u8; BUFFER];
    let mut line = call_table::blank();
    let mut out = [0u8; BUFFER];
    let mut ledger = ledger::empty();
    let mut kept = library_calls::nothing();
    run(
        rt.stdin(),
        rt.stdout(),
        &mut block,
        &mut line,
        &mut ledger,
        &mut out,
        &mut kept,
    );
}
