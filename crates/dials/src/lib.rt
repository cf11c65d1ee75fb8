// Dropping the dials of a connect attempt (`abort_attempt_dials` of ledger.rs), over the table of dials.
#![tactic(auto)]

ghost use Rattle.std.specs.Prelude.{◌≡◌, ◌<◌, []};
ghost use Rattle.rows.specs.declared.Table.TheVariants.{Dials};
ghost use Rattle.rows.specs.Rows.{capacity};
ghost use Rattle.rows.specs.Words.{rows_of, laid};
ghost use Rattle.dials.specs.Dials.{no_firsts, column_of, pushed, no_token, no_connection, asked_by, asked_of, is_first, fate_of, fate_at, stays, staying, each, pairs, left_of, retired_of, closed_of, abort_with};

use ids::{ConnectId, ConnectionId, NatToken, PeerId};
use kinds::{Entry, Row};
use path::{Dial, DialPurpose};
use rows::{Ledger, Marks, ROWS, Table};
use std::array;

// The first live connection of the peer to ask for, for each row of the table.
pub type Firsts = [Option<ConnectionId>; ROWS];

// What rows of the table give, at most one value each, in the order of the rows; fill behind it.
#[derive(Clone, Copy)]
pub struct Column<T> {
    pub values: [T; ROWS],
    pub count: u64,
}

// The tokens that were retired and the connections to close.
#[derive(Clone, Copy)]
pub struct Dropped {
    pub retired: Column<NatToken>,
    pub close: Column<ConnectionId>,
}

// What becomes of a dial of the attempt.
#[derive(Clone, Copy)]
pub enum Fate {
    // A punch dial whose connection is live: its row stays.
    Stays(NatToken),
    // A relay dial whose connection is live: its row goes.
    Goes(NatToken),
    // Its connection is not the peer's first live one: the row goes, and the connection is closed.
    Closes(NatToken),
}

#[tactic(auto, unfolding(crate::specs::Dials::column_of))]
fn empty_column<T: Copy>(fill: T) -> Column<T>
    ensures { result ≡ column_of fill [] }
{
    Column {
        values: [fill; ROWS],
        count: 0,
    }
}

fn push<T: Copy>(column: &mut Column<T>, value: T)
    requires { column.old.count < capacity }
    ensures { column.new ≡ pushed column.old value }
{
    column.values[column.count as usize] = value;
    column.count += 1;
}

// Nothing found for any row.
pub fn no_firsts() -> Firsts
    ensures { result ≡ no_firsts }
{
    [None; ROWS]
}

// The peer to ask for: the relay of a relay dial, else the attempt's target.
#[tactic(auto, unfolding(crate::specs::Dials::asked_by))]
fn asked_by(purpose: DialPurpose, target: PeerId) -> PeerId
    ensures { result ≡ asked_by purpose target }
{
    match purpose {
        DialPurpose::Relay(_, relay) => relay,
        DialPurpose::Punch(_) | DialPurpose::Probe(_) | DialPurpose::Reserve(_) => target,
    }
}

#[tactic(auto, unfolding(crate::specs::Dials::asked_of))]
pub fn asked_of(row: Row, target: PeerId) -> PeerId
    ensures { result ≡ asked_of target row }
{
    match kinds::entry_of(row) {
        Entry::Dialed(dial) => asked_by(dial.purpose, target),
        Entry::Other | Entry::Window(_) | Entry::Path(_) => target,
    }
}

#[tactic(auto, unfolding(crate::specs::Dials::is_first))]
fn is_first(live: Option<ConnectionId>, conn: u64) -> bool
    ensures { result ≡ is_first live conn }
{
    live == Some(ConnectionId(conn))
}

// None for a dial of another attempt, or of none.
#[tactic(auto, unfolding(crate::specs::Dials::fate_of))]
fn fate_of(dial: Dial, id: ConnectId, live: bool) -> Option<Fate>
    ensures { result ≡ fate_of id live dial }
{
    let token = dial.token;
    match dial.purpose {
        DialPurpose::Relay(attempt, _) if attempt == id => Some(if live {
            Fate::Goes(token)
        } else {
            Fate::Closes(token)
        }),
        DialPurpose::Punch(attempt) if attempt == id => Some(if live {
            Fate::Stays(token)
        } else {
            Fate::Closes(token)
        }),
        _ => None,
    }
}

#[tactic(auto, unfolding(crate::specs::Dials::fate_at))]
fn fate_at(row: Row, id: ConnectId, first: Option<ConnectionId>) -> Option<Fate>
    ensures { result ≡ fate_at id row first }
{
    match kinds::entry_of(row) {
        Entry::Dialed(dial) => fate_of(dial, id, is_first(first, row.key)),
        Entry::Other | Entry::Window(_) | Entry::Path(_) => None,
    }
}

#[tactic(auto, unfolding(crate::specs::Dials::stays))]
fn stays_with(fate: Option<Fate>) -> bool
    ensures { result ≡ stays fate }
{
    matches!(fate, None | Some(Fate::Stays(_)))
}

// The rows that stay.
fn staying_of(l: &Ledger, id: ConnectId, firsts: Firsts) -> Marks
    ensures { result ≡ staying id (pairs (rows_of Dials l.now) firsts) }
{
    let n = rows::used(l, Table::Dials);
    array::from_fn(|i| {
        i < n && stays_with(fate_at(rows::row_at(l, Table::Dials, i), id, firsts[i]))
    })
}

// The tokens of the attempt's dials, and the connections to close.
fn dropped_of(l: &Ledger, id: ConnectId, firsts: Firsts) -> Dropped
    ensures { result ≡ abort_with id (pairs (rows_of Dials l.now) firsts) }
{
    let mut retired = empty_column(NatToken(0));
    let mut close = empty_column(ConnectionId(0));
    for i in 0..rows::used(l, Table::Dials) {
        let row = rows::row_at(l, Table::Dials, i);
        let Some(fate) = fate_at(row, id, firsts[i]) else {
            continue;
        };
        match fate {
            Fate::Stays(token) | Fate::Goes(token) => push(&mut retired, token),
            Fate::Closes(token) => {
                push(&mut retired, token);
                push(&mut close, ConnectionId(row.key));
            }
        }
    }
    Dropped { retired, close }
}

// Drops the dials of the attempt, where the first live connection is known for each row.
pub fn abort_with(l: &mut Ledger, id: ConnectId, firsts: Firsts) -> Dropped
    ensures answer { result ≡ abort_with id (pairs (rows_of Dials l.old) firsts) }
    ensures words { l.new ≡ laid Dials (each (left_of id) (pairs (rows_of Dials l.old) firsts)) l.old }
{
    let dropped = dropped_of(l, id, firsts);
    let marks = staying_of(l, id, firsts);
    rows::retain_marked(l, Table::Dials, marks);
    dropped
}
