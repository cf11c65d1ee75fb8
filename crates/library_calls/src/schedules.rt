// Calls of `schedule`, on one schedule.
ghost use Rattle.std.specs.Prelude.{◌≡◌};
ghost use Rattle.text.specs.Printed.{page, with_text};
ghost use Rattle.call_table.specs.Tables.{among};
ghost use Rattle.library_calls.specs.Schedules.{next, end_of, opened_turn, replied_turn, due_turn, schedule_turn, schedule_after, schedules_text, schedules_table};

use crate::Turn;
use call_table::{Said, Words};
use schedule::{BlastSchedule, NewlyDue};
use text::Printer;

// The next instant, where there is one.
fn next(s: BlastSchedule) -> Option<u64>
    ensures { result ≡ next s }
{
    match s {
        BlastSchedule::Next { at, .. } => Some(at),
        BlastSchedule::Over => None,
    }
}

#[tactic(auto, unfolding(crate::specs::Schedules::end_of))]
fn window_end(start: u64, punch: u64, deadline: u64) -> u64
    ensures { result ≡ end_of start punch deadline }
{
    time::saturating_add(start, punch).min(deadline)
}

fn opened(start: u64, end: u64, d: NewlyDue) -> Turn<BlastSchedule>
    ensures { result ≡ opened_turn start end d }
{
    let kept = d.schedule;
    let next = next(kept);
    let given = u64::from(next.is_some());
    let at = next.unwrap_or(0);
    let said = call_table::say(1, [d.times, start, end, given, at, 0]);
    Turn { kept, said }
}

#[tactic(auto, unfolding(crate::specs::Schedules::replied_turn))]
fn replied(at: u64, rtt: u64, deadline: u64, punch: u64, interval: u64) -> Turn<BlastSchedule>
    ensures { result ≡ replied_turn at rtt deadline punch interval }
{
    let start = schedule::blast_start(at, rtt);
    let end = window_end(start, punch, deadline);
    let d = BlastSchedule::open(start, end, interval, rtt);
    opened(start, end, d)
}

fn due(d: NewlyDue) -> Turn<BlastSchedule>
    ensures { result ≡ due_turn d }
{
    let kept = d.schedule;
    let next = next(kept);
    let given = u64::from(next.is_some());
    let at = next.unwrap_or(0);
    let said = call_table::say(1, [d.times, given, at, 0, 0, 0]);
    Turn { kept, said }
}

#[tactic(auto, unfolding(crate::specs::Schedules::schedule_turn))]
fn respond(s: BlastSchedule, row: usize, w: Words) -> Turn<BlastSchedule>
    ensures { result ≡ schedule_turn s row w }
{
    match row {
        0 => replied(w[0], w[1], w[2], w[3], w[4]),
        _ => due(s.newly_due(w[1], w[0])),
    }
}

// The forms of the calls and of their answers.
#[tactic(auto, unfolding(crate::specs::Schedules::schedules_table))]
fn table() -> &'static [u8]
    ensures { result.now ≡ schedules_table }
{
    b"do=reply at=# rtt=# deadline=# punch=# interval=#|times=# start=# end=# next=*
do=tick at=# interval=#|times=# next=*"
}

// Answers a line that is one of these calls; another prints nothing and leaves the schedule: whether it is one.
#[tactic(auto, unfolding(call_table::specs::Tables::turn_by), using(text::proofs::Printing::with_none))]
pub fn answer(s: &mut BlastSchedule, line: &[u8], printer: &mut Printer<'_>) -> bool
    ensures found { result ≡ among schedules_table line.now }
    ensures schedule { s.new ≡ schedule_after s.old line.now }
    ensures printed { page printer.new ≡ with_text (page printer.old) (schedules_text s.old line.now) }
{
    let table = table();
    let Some(call) = call_table::call_of(table, line) else {
        return false;
    };
    let turn = respond(*s, call.row, call.words);
    *s = turn.kept;
    call_table::put_said(table, call.row, turn.said, printer);
    true
}
