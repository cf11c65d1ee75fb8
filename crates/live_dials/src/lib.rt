// Dropping the dials of a connect attempt (`abort_attempt_dials` of ledger.rs), over the live connections as a lent slice of records.
#![tactic(auto)]

ghost use Rattle.std.specs.Prelude.{◌≡◌, ◌<◌, get_or, set};
ghost use Rattle.rows.specs.declared.Table.TheVariants.{Dials};
ghost use Rattle.rows.specs.Rows.{capacity};
ghost use Rattle.rows.specs.Words.{rows_of};
ghost use Rattle.ledger.specs.Ledger.{tables_of, laid, aborted_dials};
ghost use Rattle.live_dials.specs.First.{is_peer, first_live, firsts_of};
ghost use Rattle.live_dials.specs.Asking.{asked_rows};

use dials::{Dropped, Firsts};
use ids::{ConnectId, ConnectionId, PeerId};
use rows::{Ledger, ROWS, Table};

// A live connection of a peer.
#[derive(Clone, Copy)]
pub struct Live {
    pub peer: PeerId,
    pub connection: ConnectionId,
}

// The connection of the first record that has the peer.
pub fn first_live(live: &[Live], peer: PeerId) -> Option<ConnectionId>
    ensures { result ≡ first_live live.now peer }
{
    let first = live.iter().find(|l| l.peer == peer)?;
    Some(first.connection)
}

// The peers to ask for, one for each row.
pub type Asked = [PeerId; ROWS];

// The first live connection of each peer.
pub fn first_lives(live: &[Live], asked: Asked) -> Firsts
    ensures { result ≡ firsts_of live.now asked }
{
    asked.map(|peer| first_live(live, peer))
}

// The peer that each row of the dials asks for.
pub fn asked_rows(l: &Ledger, target: PeerId) -> Asked
    ensures { result ≡ asked_rows (rows_of Dials l.now) target }
{
    let mut asked = [target; ROWS];
    for k in 0..rows::used(l, Table::Dials) {
        asked[k] = dials::asked_of(rows::row_at(l, Table::Dials, k), target);
    }
    asked
}

// Drops the dials of the attempt that connects to the target. A dial whose connection is its peer's first live one is not closed; a
// punch dial then keeps its row.
pub fn abort_attempt_dials(l: &mut Ledger, id: ConnectId, target: PeerId, live: &[Live]) -> Dropped
    ensures retired { result.retired ≡ (aborted_dials (tables_of l.old) id target (first_live live.now)).retired }
    ensures close { result.close ≡ (aborted_dials (tables_of l.old) id target (first_live live.now)).close }
    ensures tables { tables_of l.new ≡ (aborted_dials (tables_of l.old) id target (first_live live.now)).ledger }
    ensures words { l.new ≡ laid (aborted_dials (tables_of l.old) id target (first_live live.now)).ledger l.old }
{
    let asked = asked_rows(l, target);
    let firsts = first_lives(live, asked);
    ledger::abort_with(l, id, firsts)
}
