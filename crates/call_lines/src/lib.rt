// A line of the test program: its call made, on what is kept and the ledger, and its answer printed.
#![tactic(auto)]

ghost use Rattle.std.specs.Prelude.{◌≡◌};
ghost use Rattle.text.specs.Printed.{page, with_text};
ghost use Rattle.forms.specs.Tables.{ShareNoLine};
ghost use Rattle.call_lines.specs.Shared.{row_forms};
ghost use Rattle.call_lines.specs.Turns.{turn_of, is_whole, line_turn};

use ledger::Ledger;
use library_calls::Kept;
use text::Printer;

// What is printed of a line that is no call.
const BAD: &[u8] = b"bad\n";

// A line without its line feed, by the first table that has its form; the ledger's is the last. One that has none is bad.
#[tactic(auto, unfolding(crate::specs::Turns::turn_of), using(call_table::proofs::Calling::not_made, library_calls::proofs::Lining::unanswered, text::proofs::Printing::with_none))]
fn answer(kept: &mut Kept, ledger: &mut Ledger, line: &[u8], printer: &mut Printer<'_>)
    ensures kept { kept.new ≡ (turn_of kept.old ledger.old line.now).kept }
    ensures words { ledger.new ≡ (turn_of kept.old ledger.old line.now).words }
    ensures printed { page printer.new ≡ with_text (page printer.old) (turn_of kept.old ledger.old line.now).text }
{
    if !library_calls::answer(kept, line, printer) && !ledger_calls::answer(ledger, line, printer) {
        printer.put_text(BAD);
    }
}

// Whether a line feed ended a line that is not too long with it.
fn is_whole(size: usize, ended: bool) -> bool
    ensures { result ≡ is_whole size ended }
{
    ended && size < lines::LONGEST
}

// Another is bad.
#[tactic(auto, unfolding(crate::specs::Turns::line_turn))]
pub fn answer_line(
    kept: &mut Kept,
    ledger: &mut Ledger,
    line: &[u8],
    ended: bool,
    printer: &mut Printer<'_>,
)
    ensures kept { kept.new ≡ (line_turn kept.old ledger.old line.now ended).kept }
    ensures words { ledger.new ≡ (line_turn kept.old ledger.old line.now ended).words }
    ensures printed { page printer.new ≡ with_text (page printer.old) (line_turn kept.old ledger.old line.now ended).text }
{
    if is_whole(line.len(), ended) {
        answer(kept, ledger, line, printer);
    } else {
        printer.put_text(BAD);
    }
}

// A line that two rows of these tables read shows them to be the same.
pub fn no_two_rows_share_a_line()
    ensures { ShareNoLine row_forms }
{}
