// What a table's row for a key says, read as a dial, a path or the end of a punch window. A row of another kind counts as none.
#![tactic(auto)]

ghost use Rattle.std.specs.Prelude.{◌≡◌};
ghost use Rattle.rows.specs.Words.{rows_of};
ghost use Rattle.rows.specs.declared.Table.TheVariants.{Dials, Windows, Paths};
ghost use Rattle.entries.specs.Entries.{dial_of, path_of, end_of, dial_at, path_at, end_at, window_open, punch_end, sooner, soonest};

use ids::{ConnectionId, PeerId};
use kinds::Entry;
use path::{Attribution, Dial};
use rows::{Ledger, Table};

#[tactic(auto, unfolding(crate::specs::Entries::dial_of))]
fn dial_of(entry: Entry) -> Option<Dial>
    ensures { result ≡ dial_of entry }
{
    match entry {
        Entry::Dialed(dial) => Some(dial),
        Entry::Other | Entry::Window(_) | Entry::Path(_) => None,
    }
}

#[tactic(auto, unfolding(crate::specs::Entries::path_of))]
fn path_of(entry: Entry) -> Option<Attribution>
    ensures { result ≡ path_of entry }
{
    match entry {
        Entry::Path(attribution) => Some(attribution),
        Entry::Other | Entry::Dialed(_) | Entry::Window(_) => None,
    }
}

#[tactic(auto, unfolding(crate::specs::Entries::end_of))]
fn end_of(entry: Entry) -> Option<u64>
    ensures { result ≡ end_of entry }
{
    match entry {
        Entry::Window(end) => Some(end),
        Entry::Other | Entry::Dialed(_) | Entry::Path(_) => None,
    }
}

#[tactic(auto, unfolding(crate::specs::Entries::dial_at))]
pub fn dial_at(l: &Ledger, conn: ConnectionId) -> Option<Dial>
    ensures { result ≡ dial_at conn (rows_of Dials l.now) }
{
    dial_of(rows::find(l, Table::Dials, conn.0)?)
}

#[tactic(auto, unfolding(crate::specs::Entries::path_at))]
pub fn path_at(l: &Ledger, conn: ConnectionId) -> Option<Attribution>
    ensures { result ≡ path_at conn (rows_of Paths l.now) }
{
    path_of(rows::find(l, Table::Paths, conn.0)?)
}

#[tactic(auto, unfolding(crate::specs::Entries::end_at))]
fn end_at(l: &Ledger, peer: PeerId) -> Option<u64>
    ensures { result ≡ end_at peer (rows_of Windows l.now) }
{
    end_of(rows::find(l, Table::Windows, peer.0)?)
}

// A window lasts while the reading is below its end.
#[tactic(auto, unfolding(crate::specs::Entries::window_open))]
pub fn window_open(l: &Ledger, peer: PeerId, reading: u64) -> bool
    ensures { result ≡ window_open peer reading (rows_of Windows l.now) }
{
    end_at(l, peer).is_some_and(|until| reading < until)
}

// The later of the end of the peer's window and the end that is asked for.
#[tactic(auto, unfolding(crate::specs::Entries::punch_end))]
pub fn punch_end(l: &Ledger, peer: PeerId, until: u64) -> u64
    ensures { result ≡ punch_end peer until (rows_of Windows l.now) }
{
    end_at(l, peer).map_or(until, |old| old.max(until))
}

#[tactic(auto, unfolding(crate::specs::Entries::sooner))]
fn sooner_of(a: Option<u64>, b: Option<u64>) -> Option<u64>
    ensures { result ≡ sooner a b }
{
    let Some(x) = a else {
        return b;
    };
    let Some(y) = b else {
        return a;
    };
    if y < x { b } else { a }
}

// The smallest end of a window.
pub fn soonest_end(l: &Ledger) -> Option<u64>
    ensures { result ≡ soonest (rows_of Windows l.now) }
{
    let mut end = None;
    for i in 0..rows::used(l, Table::Windows) {
        let entry = kinds::entry_of(rows::row_at(l, Table::Windows, i));
        end = sooner_of(end, end_of(entry));
    }
    end
}
