// Replays a journal: reads it from standard input, and writes what its lines print to standard output (docs/RULES.md, section 12). Before
// each read that may wait all that was printed is written, so that a host can write line by line and read what each does.
#![tactic(auto)]

ghost use Rattle.std.specs.Prelude.{◌≡◌, true, ◌+◌, ◌*◌, ◌≤◌, length, take, replicate, [], ◌++◌};
ghost use Rattle.wire.specs.Frame.{max_frame_size};
ghost use Rattle.line_program.specs.Reads.{left, NextLine};
ghost use Rattle.journal_prints.specs.Room.{room};
ghost use Rattle.ledger.specs.Ledger.{tables_of, empty_ledger};
ghost use Rattle.journal_calls.specs.declared.State.{State as Numbers};
ghost use Rattle.lines.specs.Lines.{longest};
ghost use Rattle.journal_calls.specs.Calls.{whole, blank_memory};
ghost use Rattle.journal_turns.specs.Turns.{line_turn};
ghost use Rattle.journal_text.specs.Texts.{first_of, state_in, opening_text, line_text};
ghost use Rattle.text.specs.Printed.{printed, behind};
ghost use Rattle.journal.specs.Steps.{state, step_of, step_text};
ghost use Rattle.journal.specs.Runs.{Ran, Replayed};

use journal_calls::{Memory, State};
use line_program::{BUFFER, Reading};
use std::env::{Env, FillError};
use std::io::{Stderr, Stdin, Stdout, Write};
use text::Printer;

// Room for the output lines of one line: there are four at most.
const ROOM: usize = 4 * journal_prints::ROOM;

// A line behind the first, whose output stands in the buffer from a place on: the journal behind it, and where the output ends.
#[tactic(auto, unfolding(text::specs::Printed::with_text))]
fn answer(
    j: State,
    m: &mut Memory,
    reply: &mut [u8],
    line: &[u8],
    ended: bool,
    out: &mut [u8],
    at: usize,
) -> (State, usize)
    ensures journal { whole result.0 m.new ≡ (line_turn (whole j m.old) reply.old line.now ended).turn.journal }
    ensures reply { reply.new ≡ (line_turn (whole j m.old) reply.old line.now ended).reply }
    ensures bytes { out.new ≡ printed out.old at (line_text (whole j m.old) reply.old line.now ended) }
    ensures place { result.1 ≡ behind out.old at (line_text (whole j m.old) reply.old line.now ended) }
    ensures whole { at + 4 * room ≤ length out.old → take result.1 out.new ≡ take at out.old ++ line_text (whole j m.old) reply.old line.now ended }
{
    let mut printer = Printer { out, at };
    let state = journal_text::answer_line(j, m, reply, line, ended, &mut printer);
    (state, printer.at)
}

// Where the input stands behind a line, the journal, and the output that waits.
#[derive(Clone, Copy)]
pub struct Step {
    pub reading: Reading,
    pub state: State,
    pub waiting: usize,
    pub written: bool,
}

// Reads the next line, gathers what it prints, and hands over what waits before the next read.
fn take_step(
    input: Stdin,
    output: Stdout,
    block: &mut [u8],
    line: &mut [u8],
    m: &mut Memory,
    reply: &mut [u8],
    out: &mut [u8],
    from: usize,
    until: usize,
    j: State,
    waiting: usize,
) -> Step
    ensures journal { whole result.state m.new ≡ (step_of result.reading block.new line.new (whole j m.old) reply.old out.old waiting).journal }
    ensures reply { reply.new ≡ (step_of result.reading block.new line.new (whole j m.old) reply.old out.old waiting).reply }
    ensures out { out.new ≡ (step_of result.reading block.new line.new (whole j m.old) reply.old out.old waiting).out }
    ensures waiting { result.waiting ≡ (step_of result.reading block.new line.new (whole j m.old) reply.old out.old waiting).waiting }
    ensures whole { waiting + 4 * room ≤ length out.old → (step_of result.reading block.new line.new (whole j m.old) reply.old out.old waiting).handed ++ take result.waiting out.new ≡ take waiting out.old ++ step_text result.reading line.new (whole j m.old) reply.old }
    ensures written { waiting + 4 * room ≤ length out.old → (step_of result.reading block.new line.new (whole j m.old) reply.old out.old waiting).handed ≡ [] → result.written ≡ true }
    ensures read { NextLine line.old (left block.old from until) block.new line.new result.reading }
{
    let reading = line_program::next_line(input, block, line, from, until);
    if reading.is_line() {
        let (state, end) = answer(
            j,
            m,
            reply,
            &line[..reading.used],
            reading.has_feed(),
            out,
            waiting,
        );
        let w = line_program::hand_over(output, block, reading.from, reading.until, out, end, ROOM);
        return Step {
            reading,
            state,
            waiting: w.bytes,
            written: w.written,
        };
    }
    Step {
        reading,
        state: j,
        waiting,
        written: true,
    }
}

// Where the input stood as the program stopped, and the output that waits.
#[derive(Clone, Copy)]
pub struct Ending {
    pub reading: Reading,
    pub waiting: usize,
    pub written: bool,
}

// Goes through the lines behind the first, up to one that no line feed ended. One step stands before the loop, so that the loop carries
// what a step leaves and no more. A proved loop has to end, so its turns are counted, up to a number that no run uses up.
fn run(
    input: Stdin,
    output: Stdout,
    block: &mut [u8],
    line: &mut [u8],
    m: &mut Memory,
    reply: &mut [u8],
    out: &mut [u8],
    first: Reading,
    opened: State,
) -> Ending
    requires { (longest ≤ length line.old) × (4 * room ≤ length out.old) }
    ensures bound { result.waiting ≤ length out.old }
    ensures ran { Ran (state (whole opened m.old) reply.old out.old 0 []) (left block.old first.from first.until) block.new (λ (s : Numbers). whole s m.new) reply.new out.new result }
{
    let mut s = take_step(
        input,
        output,
        block,
        line,
        m,
        reply,
        out,
        first.from,
        first.until,
        opened,
        0,
    );
    for _turn in 0..u64::MAX {
        if !s.reading.has_feed() || !s.written {
            break;
        }
        s = take_step(
            input,
            output,
            block,
            line,
            m,
            reply,
            out,
            s.reading.from,
            s.reading.until,
            s.state,
            s.waiting,
        );
    }
    Ending {
        reading: s.reading,
        waiting: s.waiting,
        written: s.written,
    }
}

// Writes what waits, but not behind a gap; what failed is told on standard error.
fn finish(output: Stdout, mut errors: Stderr, out: &[u8], e: Ending) {
    if e.reading.has_failed() {
        let _ = errors.write_all(b"journal: standard input cannot be read\n");
    }
    if e.written {
        if line_program::print(output, out, e.waiting) {
            return;
        }
    }
    let _ = errors.write_all(b"journal: standard output cannot be written\n");
}

// The first line, and the others where it is good.
fn replay(
    input: Stdin,
    output: Stdout,
    block: &mut [u8],
    line: &mut [u8],
    m: &mut Memory,
    reply: &mut [u8],
    out: &mut [u8],
) -> Ending
    requires { (longest ≤ length line.old) × (4 * room ≤ length out.old) × (reply.old ≡ replicate max_frame_size 0) × (m.old ≡ blank_memory) × (tables_of m.old.ledger ≡ empty_ledger) }
    ensures bound { result.waiting ≤ length out.old }
    ensures replayed { Replayed reply.old out.old block.new (λ (s : Numbers). whole s m.new) reply.new out.new result }
{
    let reading = line_program::next_line(input, block, line, 0, 0);
    if reading.has_failed() {
        return Ending {
            reading,
            waiting: 0,
            written: true,
        };
    }
    let (opening, end) = journal_text::open_into(&line[..reading.used], reading.has_feed(), out);
    match opening {
        Some(opened) => run(input, output, block, line, m, reply, out, reading, opened),
        None => Ending {
            reading,
            waiting: end,
            written: true,
        },
    }
}

// With an argument, whatever it is, the program only says by which version of the rule it replays.
fn main(rt: HostRuntime) {
    if !matches!(rt.arg(1, &mut [0u8; 1]), Err(FillError::NotPresent)) {
        let _ = rt.stdout().write_all(b"rule version 2\n");
        return;
    }
    let mut block = [0u8; BUFFER];
    let mut line = [0u8; lines::LONGEST];
    let mut reply = [0u8; wire::MAX_FRAME_SIZE];
    let mut out = [0u8; BUFFER];
    let mut memory = Memory::blank();
    let e = replay(
        rt.stdin(),
        rt.stdout(),
        &mut block,
        &mut line,
        &mut memory,
        &mut reply,
        &mut out,
    );
    finish(rt.stdout(), rt.stderr(), &out, e);
}
