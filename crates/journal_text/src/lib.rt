// What a journal prints, line by line: each line in, its output lines behind what a printer's buffer holds already. What the buffer has no
// room for is left out.
#![tactic(auto)]

ghost use Rattle.std.specs.Prelude.{◌≡◌, ◌++◌, ◌+◌, ◌*◌, ◌≤◌, length, take};
ghost use Rattle.text.specs.Printed.{printed, behind, page, with_text};
ghost use Rattle.journal_prints.specs.Outputs.{attributed_text};
ghost use Rattle.journal_prints.specs.Room.{room, OwnerFits};
ghost use Rattle.journal_calls.specs.Calls.{whole};
ghost use Rattle.journal_turns.specs.Turns.{line_turn};
ghost use Rattle.journal_text.specs.Texts.{first_of, state_in, opening_text, said_text, line_text};

use frames::FrameBytes;
use journal_calls::{Memory, Said, State};
use journal_effects::Effects;
use lent::TargetBytes;
use path::{Attribution, Owner};
use refusal::Refusal;
use text::Printer;
use vocabulary::Settings;

// ---- the first line

#[tactic(auto, unfolding(crate::specs::Texts::first_of))]
fn read_first(line: &[u8], ended: bool) -> Option<Settings>
    ensures { result ≡ first_of line.now ended }
{
    if ended && line.len() < lines::LONGEST {
        return journal_lines::read_settings(line);
    }
    None
}

// The first line of the input, without its line feed; `ended` is whether it had one. An input without a line is one of no bytes and no
// line feed. The answer is the journal that a good first line opens.
#[tactic(auto, using(text::proofs::Printing::with_none))]
pub fn open_journal(line: &[u8], ended: bool, printer: &mut Printer<'_>) -> Option<State>
    ensures state { result ≡ state_in (first_of line.now ended) }
    ensures bytes { page printer.new ≡ with_text (page printer.old) (opening_text (first_of line.now ended)) }
{
    match read_first(line, ended) {
        Some(settings) => Some(journal_turns::new_journal(settings)),
        None => {
            journal_prints::put_refused(0, Refusal::UnknownLine, printer);
            None
        }
    }
}

// The same into a buffer, from its first byte on: what it prints ends at the place.
#[tactic(auto, unfolding(text::specs::Printed::with_text))]
pub fn open_into(line: &[u8], ended: bool, out: &mut [u8]) -> (Option<State>, usize)
    ensures state { result.0 ≡ state_in (first_of line.now ended) }
    ensures bytes { out.new ≡ printed out.old 0 (opening_text (first_of line.now ended)) }
    ensures place { result.1 ≡ behind out.old 0 (opening_text (first_of line.now ended)) }
{
    let mut printer = Printer { out, at: 0 };
    let opening = open_journal(line, ended, &mut printer);
    (opening, printer.at)
}

// ---- the lines behind it

fn owner_in_range(owner: Option<Owner>)
    ensures { OwnerFits owner }
{
    match owner {
        Some(Owner::Attempt(id)) => text::in_range(id.0, id.0, id.0),
        Some(Owner::Inbound) => {}
        None => {}
    }
}

fn found_is_short(n: u64, found: Option<Attribution>)
    ensures { length (attributed_text n found) ≤ 4 * room }
{
    match found {
        Some(attribution) => owner_in_range(attribution.owner),
        None => {}
    }
}

fn put_said(
    n: u64,
    said: Said,
    effects: Effects,
    sent: &FrameBytes,
    aims: &TargetBytes,
    printer: &mut Printer<'_>,
)
    ensures bytes { page printer.new ≡ with_text (page printer.old) (said_text n effects sent.now aims.now said) }
    ensures short { length (said_text n effects sent.now aims.now said) ≤ 4 * room }
{
    match said {
        Said::Effects => journal_effects::put_effects(n, effects, sent, aims, printer),
        Said::Attributed(found) => {
            found_is_short(n, found);
            journal_prints::put_attributed(n, found, printer)
        }
        Said::Refused(why) => journal_prints::put_refused(n, why, printer),
    }
}

// A line behind the first, without its line feed; `ended` is whether it had one. The reply buffer is the journal's, of 4,098 bytes. Where
// there is room for four output lines nothing is cut.
#[tactic(auto, unfolding(crate::specs::Texts::line_text))]
pub fn answer_line(
    j: State,
    m: &mut Memory,
    reply: &mut [u8],
    line: &[u8],
    ended: bool,
    printer: &mut Printer<'_>,
) -> State
    ensures journal { whole result m.new ≡ (line_turn (whole j m.old) reply.old line.now ended).turn.journal }
    ensures reply { reply.new ≡ (line_turn (whole j m.old) reply.old line.now ended).reply }
    ensures bytes { page printer.new ≡ with_text (page printer.old) (line_text (whole j m.old) reply.old line.now ended) }
    ensures whole { printer.old.at + 4 * room ≤ length printer.old.out.now → take printer.new.at printer.new.out.now ≡ take printer.old.at printer.old.out.now ++ line_text (whole j m.old) reply.old line.now ended }
{
    let t = journal_turns::take_line(j, m, reply, line, ended);
    put_said(t.state.n, t.said, t.effects, &m.sent, &m.targets, printer);
    t.state
}
