// Calls of `ledger`, on a lent ledger, for the test program: a table of forms, and what each of its calls does and answers.
#![tactic(auto)]

ghost use Rattle.std.specs.Prelude.{◌≡◌, ℕ, min, Option};
ghost use Rattle.text.specs.Printed.{page, with_text};
ghost use Rattle.rows.specs.Rows.{capacity};
ghost use Rattle.rows.specs.Words.{rows_of};
ghost use Rattle.ledger.specs.Ledger.{tables_of};
ghost use Rattle.call_table.specs.Tables.{among};
ghost use Rattle.path.specs.declared.DialPurpose.{DialPurpose};
ghost use Rattle.path.specs.declared.Path.{Path};
ghost use Rattle.path.specs.declared.Owner.{Owner};
ghost use Rattle.ledger_calls.specs.Values.{purpose_of, purpose_words, path_of, path_words, owner_of, owner_words};
ghost use Rattle.ledger_calls.specs.Records.{number, octets};
ghost use Rattle.ledger_calls.specs.Calls.{outcome_said, dial_said, name_said, answer_said, path_said, upgrade_said, deadline_said, entry_said, row_said, dropped_said, abort_turn, change_turn, look_said, turn_of, ledger_table, ledger_turn, ledger_text};

use call_table::{Said, Words};
use dials::Column;
use ids::{ConnectId, ConnectionId, NatToken, PeerId};
use kinds::Entry;
use ledger::Ledger;
use path::{Attribution, Dial, Replaced};
use records::RECORDS;
use refusal::Refusal;
use rows::{ROWS, Table};
use text::Printer;

pub mod records;
pub mod values;

// ---- what is said of an answer

fn outcome_said(outcome: Result<(), Refusal>) -> Said
    ensures { result ≡ outcome_said outcome }
{
    match outcome {
        Ok(()) => call_table::say(1, call_table::NONE),
        Err(why) => call_table::say(2, [why.number(), 0, 0, 0, 0, 0]),
    }
}

fn dial_said(found: Option<Dial>) -> Said
    ensures { result ≡ dial_said found }
{
    match found {
        None => call_table::say(1, call_table::NONE),
        Some(dial) => {
            let p = values::purpose_words(dial.purpose);
            call_table::say(2, [dial.token.0, p.word, p.of, p.relay, 0, 0])
        }
    }
}

fn name_said(name: Attribution) -> Said
    ensures { result ≡ name_said name }
{
    let p = values::path_words(name.path);
    let o = values::owner_words(name.owner);
    call_table::say(2, [p.word, p.relay, o.word, o.id, 0, 0])
}

fn path_said(found: Option<Attribution>) -> Said
    ensures { result ≡ path_said found }
{
    match found {
        None => call_table::say(1, call_table::NONE),
        Some(name) => name_said(name),
    }
}

fn answer_said(answer: Result<Option<Attribution>, Refusal>) -> Said
    ensures { result ≡ answer_said answer }
{
    match answer {
        Ok(found) => path_said(found),
        Err(why) => call_table::say(3, [why.number(), 0, 0, 0, 0, 0]),
    }
}

fn upgrade_said(replaced: Option<Replaced>) -> Said
    ensures { result ≡ upgrade_said replaced }
{
    match replaced {
        None => call_table::say(1, call_table::NONE),
        Some(Replaced { owner, from, to }) => {
            let o = values::owner_words(owner);
            let f = values::path_words(from);
            let t = values::path_words(to);
            call_table::say(2, [o.word, o.id, f.word, f.relay, t.word, t.relay])
        }
    }
}

fn deadline_said(deadline: Option<u64>) -> Said
    ensures { result ≡ deadline_said deadline }
{
    match deadline {
        None => call_table::say(1, call_table::NONE),
        Some(end) => call_table::say(2, [end, 0, 0, 0, 0, 0]),
    }
}

fn entry_said(key: u64, entry: Entry) -> Said
    ensures { result ≡ entry_said key entry }
{
    match entry {
        Entry::Dialed(dial) => {
            let p = values::purpose_words(dial.purpose);
            call_table::say(2, [key, dial.token.0, p.word, p.of, p.relay, 0])
        }
        Entry::Window(end) => call_table::say(3, [key, end, 0, 0, 0, 0]),
        Entry::Path(name) => {
            let p = values::path_words(name.path);
            let o = values::owner_words(name.owner);
            call_table::say(4, [key, p.word, p.relay, o.word, o.id, 0])
        }
        Entry::Other => call_table::say(5, [key, 0, 0, 0, 0, 0]),
    }
}

#[tactic(auto, unfolding(crate::specs::Calls::row_said))]
fn row_said(l: &Ledger, table: Table, place: u64) -> Said
    ensures { result ≡ row_said (rows_of table l.now) place }
{
    let n = rows::used(l, table);
    if n as u64 <= place {
        return call_table::say(1, call_table::NONE);
    }
    let row = rows::row_at(l, table, place as usize);
    entry_said(row.key, kinds::entry_of(row))
}

// ---- an abort

fn in_use(count: u64) -> usize
    ensures { result ≡ min count capacity }
{
    (count as usize).min(ROWS)
}

// What is retired stands before what is to be closed.
fn dropped_said(retired: Column<NatToken>, close: Column<ConnectionId>) -> Said
    ensures { result ≡ dropped_said retired close }
{
    let tokens = retired.values.map(|token| token.0);
    let connections = close.values.map(|connection| connection.0);
    let mut bytes = call_table::no_bytes();
    let mut printer = Printer {
        out: &mut bytes,
        at: 0,
    };
    records::put_numbers(&tokens[..in_use(retired.count)], &mut printer);
    let middle = printer.at as u64;
    records::put_numbers(&connections[..in_use(close.count)], &mut printer);
    let end = printer.at as u64;
    call_table::show(1, [0, middle, middle, end, 0, 0], bytes)
}

#[tactic(auto, unfolding(crate::specs::Calls::abort_turn))]
fn abort(l: &mut Ledger, id: ConnectId, target: PeerId, bytes: &[u8]) -> Said
    ensures said { result ≡ (abort_turn l.old id target bytes.now).said }
    ensures tables { tables_of l.new ≡ (abort_turn l.old id target bytes.now).ledger }
    ensures words { l.new ≡ (abort_turn l.old id target bytes.now).words }
{
    let mut room = [records::NONE; RECORDS];
    let n = records::read_lives(bytes, &mut room);
    let dropped = live_dials::abort_attempt_dials(l, id, target, &room[..n]);
    dropped_said(dropped.retired, dropped.close)
}

// ---- the calls

// The rows that change the ledger, but for the abort's.
#[tactic(auto, unfolding(crate::specs::Calls::change_turn))]
fn change(l: &mut Ledger, row: usize, w: Words) -> Said
    ensures said { result ≡ (change_turn l.old row w).said }
    ensures tables { tables_of l.new ≡ (change_turn l.old row w).ledger }
    ensures words { l.new ≡ (change_turn l.old row w).words }
{
    match row {
        0 => {
            *l = ledger::empty();
            call_table::say(1, call_table::NONE)
        }
        1 => {
            let purpose = values::purpose_of(w[2], w[3], w[4]);
            outcome_said(ledger::dial_started(l, ConnectionId(w[0]), NatToken(w[1]), purpose))
        }
        2 => dial_said(ledger::finish_dial(l, ConnectionId(w[0]))),
        3 => outcome_said(ledger::expect_punches(l, PeerId(w[0]), w[1])),
        4 => {
            ledger::end_punches(l, PeerId(w[0]));
            call_table::say(1, call_table::NONE)
        }
        5 => {
            let claim = values::claim_of(w[4], w[5], w[6]);
            answer_said(ledger::attribute(
                l,
                ConnectionId(w[2]),
                PeerId(w[1]),
                w[3] == 1,
                claim,
                w[0],
            ))
        }
        6 => path_said(ledger::forget(l, ConnectionId(w[0]))),
        _ => {
            ledger::on_tick(l, w[0]);
            call_table::say(1, call_table::NONE)
        }
    }
}

// The rows behind the abort's, which change nothing.
#[tactic(auto, unfolding(crate::specs::Calls::look_said))]
fn look(l: &Ledger, row: usize, w: Words) -> Said
    ensures { result ≡ look_said l.now row w }
{
    match row {
        9 => {
            let path = values::path_of(w[0], w[1]);
            let owner = values::owner_of(w[2], w[3]);
            upgrade_said(ledger::replaced(l, Attribution { path, owner }, ConnectionId(w[4])))
        }
        10 => call_table::yes_said(ledger::is_punched(l, ConnectionId(w[0]))),
        11 => deadline_said(ledger::next_deadline(l)),
        12 => call_table::yes_said(ledger::is_quiet(l)),
        _ => row_said(l, values::table_of(w[0]), w[1]),
    }
}

#[tactic(auto, unfolding(crate::specs::Calls::turn_of))]
fn respond(l: &mut Ledger, row: usize, w: Words, bytes: &[u8]) -> Said
    ensures said { result ≡ (turn_of l.old row w bytes.now).said }
    ensures tables { tables_of l.new ≡ (turn_of l.old row w bytes.now).ledger }
    ensures words { l.new ≡ (turn_of l.old row w bytes.now).words }
{
    match row {
        0..8 => change(l, row, w),
        8 => abort(l, ConnectId(w[2]), PeerId(w[3]), bytes),
        _ => look(l, row, w),
    }
}

// The forms of the calls and of their answers.
#[tactic(auto, unfolding(crate::specs::Calls::ledger_table))]
fn table() -> &'static [u8]
    ensures { result.now ≡ ledger_table }
{
    b"do=empty|ok
do=dial conn=# token=# purpose=(relay/punch/probe/reserve) of=# relay=#|ok|refused why=#
do=finish conn=#|none|token=# purpose=(relay/punch/probe/reserve) of=# relay=#
do=expect peer=# until=#|ok|refused why=#
do=close peer=#|ok
do=attribute at=# peer=# conn=# via=(direct/circuit) claim=(none/direct/inbound/attempt) relay=# id=#|path=none|path=(relayed/punched/direct) relay=# owner=(none/inbound/attempt) id=#|refused why=#
do=forget conn=#|none|path=(relayed/punched/direct) relay=# owner=(none/inbound/attempt) id=#
do=expire at=#|ok
do=abort live=% id=# target=#|retired=% close=%
do=replaced path=(relayed/punched/direct) relay=# owner=(none/inbound/attempt) id=# new=#|none|owner=(none/inbound/attempt) id=# from=(relayed/punched/direct) relay=# to=(relayed/punched/direct) by=#
do=punched conn=#|yes|no
do=next|none|at=#
do=quiet|yes|no
do=row table=(dials/windows/paths) place=#|none|conn=# token=# purpose=(relay/punch/probe/reserve) of=# relay=#|peer=# until=#|conn=# path=(relayed/punched/direct) relay=# owner=(none/inbound/attempt) id=#|key=#"
}

// Answers a line that is one of these calls; another prints nothing and leaves the ledger: whether it is one.
// A body of its own, as each of `library_calls` has: its clauses equate the ledger after with a definition, where a closure's would relate them.
#[tactic(auto, unfolding(call_table::specs::Tables::turn_by), using(text::proofs::Printing::with_none))]
pub fn answer(l: &mut Ledger, line: &[u8], printer: &mut Printer<'_>) -> bool
    ensures found { result ≡ among ledger_table line.now }
    ensures tables { tables_of l.new ≡ (ledger_turn l.old line.now).ledger }
    ensures words { l.new ≡ (ledger_turn l.old line.now).words }
    ensures printed { page printer.new ≡ with_text (page printer.old) (ledger_text l.old line.now) }
{
    let table = table();
    let Some(call) = call_table::call_of(table, line) else {
        return false;
    };
    let w = call.words;
    let mut room = call_table::blank();
    let n = call_table::bytes_in(line, w[0], w[1], &mut room);
    call_table::put_said(
        table,
        call.row,
        respond(l, call.row, w, &room[..n]),
        printer,
    );
    true
}

// The words of a purpose, a path and an owner stand for it; a number's eight bytes are that number.
pub fn read_back()
    ensures purposes { (p : DialPurpose) → purpose_of (purpose_words p).word (purpose_words p).of (purpose_words p).relay ≡ p }
    ensures paths { (p : Path) → path_of (path_words p).word (path_words p).relay ≡ p }
    ensures owners { (o : Option Owner) → owner_of (owner_words o).word (owner_words o).id ≡ o }
    ensures numbers { (v : ℕ) → number (octets v) 0 ≡ v }
{}
