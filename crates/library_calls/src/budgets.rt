// Calls of `budget`, on one budget.
ghost use Rattle.std.specs.Prelude.{◌≡◌};
ghost use Rattle.text.specs.Printed.{page, with_text};
ghost use Rattle.call_table.specs.Tables.{among};
ghost use Rattle.library_calls.specs.Budgets.{turned, armed_turn, begun_turn, due_said, state_said, kept_turn, budget_turn, budget_after, budgets_text, budgets_table};

use crate::Turn;
use budget::{UpgradeBudget, UpgradeStop};
use call_table::{Said, Words};
use text::Printer;

#[tactic(auto, unfolding(crate::specs::Budgets::state_said))]
fn state_said(b: UpgradeBudget) -> Said
    ensures { result ≡ state_said b }
{
    let rounds = b.rounds();
    let left = u64::from(b.rounds_left());
    let deadline = b.deadline();
    let next = b.next_deadline();
    call_table::say(2, [rounds as u64, left, deadline, next, 0, 0])
}

fn turned(b: UpgradeBudget, said: Said) -> Turn<Option<UpgradeBudget>>
    ensures { result ≡ turned b said }
{
    Turn {
        kept: Some(b),
        said,
    }
}

#[tactic(auto, unfolding(crate::specs::Budgets::begun_turn))]
fn begun(b: UpgradeBudget, at: u64) -> Turn<Option<UpgradeBudget>>
    ensures { result ≡ begun_turn b at }
{
    let began = u64::from(b.may_begin(at));
    let next = b.begin_round(at);
    let rounds = next.rounds();
    let left = u64::from(next.rounds_left());
    let deadline = next.deadline();
    let end = next.next_deadline();
    turned(
        next,
        call_table::say(2, [began, rounds as u64, left, deadline, end, 0]),
    )
}

fn due_said(stop: Option<UpgradeStop>) -> Said
    ensures { result ≡ due_said stop }
{
    match stop {
        None => call_table::say(2, call_table::NONE),
        Some(UpgradeStop::ExchangeTimeout { round, budget_ms }) => {
            call_table::say(3, [round as u64, budget_ms, 0, 0, 0, 0])
        }
        Some(UpgradeStop::UpgradeTimeout { budget_ms }) => {
            call_table::say(4, [budget_ms, 0, 0, 0, 0, 0])
        }
    }
}

// The calls but for an arm, on a budget.
#[tactic(auto, unfolding(crate::specs::Budgets::armed_turn))]
fn armed(b: UpgradeBudget, row: usize, at: u64) -> Turn<Option<UpgradeBudget>>
    ensures { result ≡ armed_turn b row at }
{
    match row {
        1 => begun(b, at),
        2 => {
            let next = b.end_exchange();
            turned(next, state_said(next))
        }
        3 => {
            let end = b.punch_window_end(at);
            turned(b, call_table::say(2, [end, 0, 0, 0, 0, 0]))
        }
        _ => turned(b, due_said(b.due(at))),
    }
}

fn kept_turn(kept: Option<UpgradeBudget>, row: usize, at: u64) -> Turn<Option<UpgradeBudget>>
    ensures { result ≡ kept_turn kept row at }
{
    match kept {
        None => Turn {
            kept: None,
            said: call_table::say(1, call_table::NONE),
        },
        Some(b) => armed(b, row, at),
    }
}

#[tactic(auto, unfolding(crate::specs::Budgets::budget_turn))]
fn respond(kept: Option<UpgradeBudget>, row: usize, w: Words) -> Turn<Option<UpgradeBudget>>
    ensures { result ≡ budget_turn kept row w }
{
    match row {
        0 => {
            let b = UpgradeBudget::arm(w[0], w[1], w[2], w[3]);
            turned(b, state_said(b))
        }
        _ => kept_turn(kept, row, w[0]),
    }
}

// The forms of the calls and of their answers.
#[tactic(auto, unfolding(crate::specs::Budgets::budgets_table))]
fn table() -> &'static [u8]
    ensures { result.now ≡ budgets_table }
{
    b"do=arm at=# upgrade=# exchange=# punch=#|bad|rounds=# left=# deadline=# next=#
do=begin at=#|bad|began=# rounds=# left=# deadline=# next=#
do=end|bad|rounds=# left=# deadline=# next=#
do=window start=#|bad|end=#
do=due at=#|bad|due=none|due=exchange round=# ms=#|due=upgrade ms=#"
}

// Answers a line that is one of these calls; another prints nothing and leaves what is kept: whether it is one.
#[tactic(auto, unfolding(call_table::specs::Tables::turn_by), using(text::proofs::Printing::with_none))]
pub fn answer(kept: &mut Option<UpgradeBudget>, line: &[u8], printer: &mut Printer<'_>) -> bool
    ensures found { result ≡ among budgets_table line.now }
    ensures kept { kept.new ≡ budget_after kept.old line.now }
    ensures printed { page printer.new ≡ with_text (page printer.old) (budgets_text kept.old line.now) }
{
    let table = table();
    let Some(call) = call_table::call_of(table, line) else {
        return false;
    };
    let turn = respond(*kept, call.row, call.words);
    *kept = turn.kept;
    call_table::put_said(table, call.row, turn.said, printer);
    true
}
