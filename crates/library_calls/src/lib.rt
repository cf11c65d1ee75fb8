// Calls of `wire`, `message`, `address`, `candidates`, `budget` and `schedule`, a table for each library, for the test program.
#![tactic(auto)]

ghost use Rattle.std.specs.Prelude.{◌≡◌};
ghost use Rattle.text.specs.Printed.{page, with_text};
ghost use Rattle.library_calls.specs.Lines.{nothing, turn_of};

use budget::UpgradeBudget;
use call_table::Said;
use schedule::BlastSchedule;
use text::Printer;

// Each has an `answer` of its own, whose clauses equate what is kept with a definition; one with a closure would only relate them.
pub mod budgets;
pub mod choices;
pub mod messages;
pub mod schedules;

// What is kept after a call of one library, and what is said of it.
#[derive(Clone, Copy)]
pub struct Turn<T> {
    pub kept: T,
    pub said: Said,
}

// What is kept from line to line.
#[derive(Clone, Copy)]
pub struct Kept {
    pub budget: Option<UpgradeBudget>,
    pub schedule: BlastSchedule,
}

// At first there is no budget, and no window is open.
pub fn nothing() -> Kept
    ensures { result ≡ nothing }
{
    Kept {
        budget: None,
        schedule: BlastSchedule::Over,
    }
}

// Answers a line without its line feed, by the first table that has its form: whether one has.
#[tactic(auto, unfolding(crate::specs::Lines::turn_of), using(call_table::proofs::Calling::not_made, text::proofs::Printing::with_none))]
pub fn answer(kept: &mut Kept, line: &[u8], printer: &mut Printer<'_>) -> bool
    ensures found { result ≡ (turn_of kept.old line.now).found }
    ensures kept { kept.new ≡ (turn_of kept.old line.now).kept }
    ensures printed { page printer.new ≡ with_text (page printer.old) (turn_of kept.old line.now).text }
{
    messages::answer(line, printer)
        || choices::answer(line, printer)
        || budgets::answer(&mut kept.budget, line, printer)
        || schedules::answer(&mut kept.schedule, line, printer)
}
