// Replays the journal on standard input and prints after each line what the circuit then answers to the questions of docs/RULES.md,
// section 11.9, asked about the connection of its own number, and whether the line's call took a connection. README.md has the lines.
#![tactic(auto)]

ghost use Rattle.std.specs.Prelude.{◌≡◌, true, false, ◌≤◌, length, is_some};
ghost use Rattle.journal_text.specs.Texts.{first_of, state_in, opening_text};
ghost use Rattle.text.specs.Printed.{printed, behind, page, with_text};
ghost use Rattle.lines.specs.Lines.{longest};
ghost use Rattle.line_program.specs.Reads.{left, NextLine};
ghost use Rattle.line_program.specs.Waits.{is_line};
ghost use Rattle.ledger.specs.Ledger.{tables_of, empty_ledger};
ghost use Rattle.journal_calls.specs.Calls.{whole, core_in, blank_memory};
ghost use Rattle.journal_calls.specs.declared.State.{State as Numbers};
ghost use Rattle.journal_turns.specs.Turns.{line_turn};
ghost use Rattle.circuit_questions.specs.Answers.{answers_of, answers_text, line_text};
ghost use Rattle.circuit_questions.specs.Steps.{state, step_of};
ghost use Rattle.circuit_questions.specs.Runs.{Ran, Replayed};

use circuit::state::Core;
use journal_calls::{Memory, State};
use line_program::{BUFFER, Reading};
use std::io::{Stdin, Stdout};
use text::Printer;
use vocabulary::Settings;

// ---- what the circuit answers

#[derive(Clone, Copy)]
pub struct Answers {
    pub next: Option<u64>,
    pub promotes: bool,
    pub claims: bool,
}

// Before a start was accepted no circuit is there to be asked.
#[tactic(auto, unfolding(crate::specs::Answers::answers_of))]
fn ask(core: Option<Core>, settings: Settings) -> Answers
    ensures { result ≡ answers_of (is_some core) (core_in settings core) }
{
    match core {
        Some(c) => Answers {
            next: questions::next_deadline(c),
            promotes: questions::promotes(c, c.circuit),
            claims: questions::circuit_claim(c, c.circuit).is_some(),
        },
        None => Answers {
            next: None,
            promotes: false,
            claims: false,
        },
    }
}

// ---- what is printed of it

fn put_answers(n: u64, a: Answers, took: bool, printer: &mut Printer<'_>)
    ensures { page printer.new ≡ with_text (page printer.old) (answers_text n a took) }
{
    let next = a.next;
    let given = u64::from(next.is_some());
    let end = next.unwrap_or(0);
    let promotes = u64::from(a.promotes);
    let claims = u64::from(a.claims);
    let taken = u64::from(took);
    let words = [n, given, end, promotes, claims, taken];
    forms::put_form(
        b"n=# next=* promotes=(0/1) claims=(0/1) took=(0/1)",
        &words,
        b"",
        printer,
    );
    printer.put_byte(b'\n');
}

// ---- a line

// A line behind the first, without its line feed; `ended` is whether it had one. The answer is the journal behind it, and where the line
// printed of it ends in the buffer.
#[tactic(auto, unfolding(text::specs::Printed::with_text, crate::specs::Answers::line_text))]
fn answer_line(
    j: State,
    m: &mut Memory,
    reply: &mut [u8],
    line: &[u8],
    ended: bool,
    out: &mut [u8],
) -> (State, usize)
    ensures journal { whole result.0 m.new ≡ (line_turn (whole j m.old) reply.old line.now ended).turn.journal }
    ensures reply { reply.new ≡ (line_turn (whole j m.old) reply.old line.now ended).reply }
    ensures bytes { out.new ≡ printed out.old 0 (line_text (whole j m.old) reply.old line.now ended) }
    ensures place { result.1 ≡ behind out.old 0 (line_text (whole j m.old) reply.old line.now ended) }
{
    let t = journal_turns::take_line(j, m, reply, line, ended);
    let state = t.state;
    let effects = t.effects;
    let a = ask(state.core, state.settings);
    let mut printer = Printer { out, at: 0 };
    put_answers(state.n, a, effects.took, &mut printer);
    (state, printer.at)
}

// ---- the program

// Where the input stands behind a line, the journal, how many bytes of the buffer were handed over last, and whether they were written.
#[derive(Clone, Copy)]
pub struct Step {
    pub reading: Reading,
    pub state: State,
    pub handed: usize,
    pub written: bool,
}

// Reads the next line, answers it and writes its answer.
fn take_step(
    input: Stdin,
    output: Stdout,
    block: &mut [u8],
    line: &mut [u8],
    m: &mut Memory,
    reply: &mut [u8],
    out: &mut [u8],
    from: usize,
    until: usize,
    j: State,
    handed: usize,
) -> Step
    ensures made { state (whole result.state m.new) reply.new out.new result.handed ≡ step_of result.reading line.new (state (whole j m.old) reply.old out.old handed) }
    ensures written { is_line result.reading.end result.reading.used ≡ false → result.written ≡ true }
    ensures read { NextLine line.old (left block.old from until) block.new line.new result.reading }
{
    let reading = line_program::next_line(input, block, line, from, until);
    if reading.is_line() {
        let (state, end) = answer_line(j, m, reply, &line[..reading.used], reading.has_feed(), out);
        return Step {
            reading,
            state,
            handed: end,
            written: line_program::print(output, out, end),
        };
    }
    Step {
        reading,
        state: j,
        handed,
        written: true,
    }
}

// Where the input stood as the program stopped, how many bytes of the buffer were handed over last, and whether they were written.
#[derive(Clone, Copy)]
pub struct Ending {
    pub reading: Reading,
    pub handed: usize,
    pub written: bool,
}

// Goes through the lines behind the first, up to one that no line feed ended or whose answer cannot be written. One step stands before the
// loop, so that the loop carries what a step leaves and no more. A proved loop has to end, so its turns are counted, up to a number that no run
// uses up.
fn run(
    input: Stdin,
    output: Stdout,
    block: &mut [u8],
    line: &mut [u8],
    m: &mut Memory,
    reply: &mut [u8],
    out: &mut [u8],
    first: Reading,
    opened: State,
) -> Ending
    requires { longest ≤ length line.old }
    ensures { Ran (state (whole opened m.old) reply.old out.old 0) (left block.old first.from first.until) block.new (λ (s : Numbers). whole s m.new) reply.new out.new result }
{
    let mut s = take_step(
        input,
        output,
        block,
        line,
        m,
        reply,
        out,
        first.from,
        first.until,
        opened,
        0,
    );
    for _turn in 0..u64::MAX {
        if !s.reading.has_feed() || !s.written {
            break;
        }
        s = take_step(
            input,
            output,
            block,
            line,
            m,
            reply,
            out,
            s.reading.from,
            s.reading.until,
            s.state,
            s.handed,
        );
    }
    Ending {
        reading: s.reading,
        handed: s.handed,
        written: s.written,
    }
}

// The first line, and the others where it is good.
fn replay(
    input: Stdin,
    output: Stdout,
    block: &mut [u8],
    line: &mut [u8],
    m: &mut Memory,
    reply: &mut [u8],
    out: &mut [u8],
) -> Ending
    requires { (longest ≤ length line.old) × (m.old ≡ blank_memory) × (tables_of m.old.ledger ≡ empty_ledger) }
    ensures { Replayed reply.old out.old block.new (λ (s : Numbers). whole s m.new) reply.new out.new result }
{
    let reading = line_program::next_line(input, block, line, 0, 0);
    if reading.has_failed() {
        return Ending {
            reading,
            handed: 0,
            written: true,
        };
    }
    let (opening, end) = journal_text::open_into(&line[..reading.used], reading.has_feed(), out);
    match opening {
        Some(opened) => run(input, output, block, line, m, reply, out, reading, opened),
        None => Ending {
            reading,
            handed: end,
            written: line_program::print(output, out, end),
        },
    }
}

fn main(rt: HostRuntime) {
    let mut block = [0u8; BUFFER];
    let mut line = [0u8; lines::LONGEST];
    let mut reply = [0u8; wire::MAX_FRAME_SIZE];
    let mut out = [0u8; BUFFER];
    let mut memory = Memory::blank();
    replay(
        rt.stdin(),
        rt.stdout(),
        &mut block,
        &mut line,
        &mut memory,
        &mut reply,
        &mut out,
    );
}
