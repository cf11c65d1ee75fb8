// The path ledger (ledger.rs): the one place that decides by which path a connection came, and that knows why it was dialed. The host
// lends it as words; any words are a ledger.
#![tactic(auto)]

ghost use Rattle.std.specs.Prelude.{◌≡◌, replicate};
ghost use Rattle.rows.specs.Rows.{crowded};
ghost use Rattle.rows.specs.Words.{ledger_words, rows_of, entered, laid as rows_laid};
ghost use Rattle.ledger.specs.Ledger.{empty_ledger, tables_of, full_refused, laid, dial_started, finish_dial, aborted_with, refuses_punches, expect_punches, end_punches, judged_by, attributed, replaced_by, forgotten, is_punched, ticked, next_deadline, is_quiet};

use dials::{Dropped, Firsts};
use ids::{ConnectId, ConnectionId, NatToken, PeerId};
use kinds::{Entry, Row};
use path::{Attribution, Claim, Dial, DialPurpose, Replaced};
use refusal::Refusal;
use rows::{Keep, Table};

pub type Ledger = rows::Ledger;

// No row in any table.
pub fn empty() -> Ledger
    ensures tables { tables_of result ≡ empty_ledger }
    ensures words { result ≡ replicate ledger_words 0 }
{
    rows::empty()
}

// The row in its place; refused, and no change, where it would be the 65th.
fn insert(l: &mut Ledger, table: Table, row: Row) -> Result<(), Refusal>
    ensures answer { result ≡ full_refused (crowded row.key (rows_of table l.old)) }
    ensures words { l.new ≡ rows_laid table (entered row (rows_of table l.old)) l.old }
{
    if rows::insert(l, table, row) {
        return Ok(());
    }
    Err(Refusal::LedgerFull)
}

// Records why a connection is dialed.
pub fn dial_started(
    l: &mut Ledger,
    conn: ConnectionId,
    token: NatToken,
    purpose: DialPurpose,
) -> Result<(), Refusal>
    ensures answer { result ≡ (dial_started (tables_of l.old) conn token purpose).outcome }
    ensures tables { tables_of l.new ≡ (dial_started (tables_of l.old) conn token purpose).ledger }
    ensures words { l.new ≡ laid (dial_started (tables_of l.old) conn token purpose).ledger l.old }
{
    rows::known(l);
    let dial = Dial { token, purpose };
    insert(l, Table::Dials, kinds::row_of(conn.0, Entry::Dialed(dial)))
}

// Ends the dial of a connection (it was established or failed) and hands out its token and purpose.
pub fn finish_dial(l: &mut Ledger, conn: ConnectionId) -> Option<Dial>
    ensures answer { result ≡ (finish_dial (tables_of l.old) conn).dial }
    ensures tables { tables_of l.new ≡ (finish_dial (tables_of l.old) conn).ledger }
    ensures words { l.new ≡ laid (finish_dial (tables_of l.old) conn).ledger l.old }
{
    rows::known(l);
    let dial = entries::dial_at(l, conn);
    rows::remove(l, Table::Dials, conn.0);
    dial
}

// Drops the dials of the attempt, where the first live connection is known for each row.
pub fn abort_with(l: &mut Ledger, id: ConnectId, firsts: Firsts) -> Dropped
    ensures retired { result.retired ≡ (aborted_with (tables_of l.old) id firsts).retired }
    ensures close { result.close ≡ (aborted_with (tables_of l.old) id firsts).close }
    ensures tables { tables_of l.new ≡ (aborted_with (tables_of l.old) id firsts).ledger }
    ensures words { l.new ≡ laid (aborted_with (tables_of l.old) id firsts).ledger l.old }
{
    rows::known(l);
    dials::abort_with(l, id, firsts)
}

// Whether `expect_punches` for the peer would be refused.
pub fn refuses_punches(l: &Ledger, peer: PeerId) -> bool
    ensures { result ≡ refuses_punches (tables_of l.now) peer }
{
    rows::is_crowded(l, Table::Windows, peer.0)
}

// Opens or extends the window in which direct connections of the peer are its punches, until `until` (exclusive).
pub fn expect_punches(l: &mut Ledger, peer: PeerId, until: u64) -> Result<(), Refusal>
    ensures answer { result ≡ (expect_punches (tables_of l.old) peer until).outcome }
    ensures tables { tables_of l.new ≡ (expect_punches (tables_of l.old) peer until).ledger }
    ensures words { l.new ≡ laid (expect_punches (tables_of l.old) peer until).ledger l.old }
{
    rows::known(l);
    let end = entries::punch_end(l, peer, until);
    insert(l, Table::Windows, kinds::row_of(peer.0, Entry::Window(end)))
}

// Closes the peer's window before its end.
pub fn end_punches(l: &mut Ledger, peer: PeerId)
    ensures tables { tables_of l.new ≡ end_punches (tables_of l.old) peer }
    ensures words { l.new ≡ laid (end_punches (tables_of l.old) peer) l.old }
{
    rows::known(l);
    rows::remove(l, Table::Windows, peer.0);
}

// How a connection came, by its dial, the claim and the peer's window.
fn judge(
    l: &Ledger,
    conn: ConnectionId,
    peer: PeerId,
    circuit: bool,
    claim: Option<Claim>,
    reading: u64,
) -> Option<Attribution>
    ensures { result ≡ judged_by (tables_of l.now) conn peer circuit claim reading }
{
    let dial = entries::dial_at(l, conn);
    let lasting = entries::window_open(l, peer, reading);
    path::judge(circuit, dial, claim, lasting)
}

// Decides how the connection that was just established came, and records that.
pub fn attribute(
    l: &mut Ledger,
    conn: ConnectionId,
    peer: PeerId,
    circuit: bool,
    claim: Option<Claim>,
    reading: u64,
) -> Result<Option<Attribution>, Refusal>
    ensures answer { result ≡ (attributed (tables_of l.old) conn peer circuit claim reading).answer }
    ensures tables { tables_of l.new ≡ (attributed (tables_of l.old) conn peer circuit claim reading).ledger }
    ensures words { l.new ≡ laid (attributed (tables_of l.old) conn peer circuit claim reading).ledger l.old }
{
    rows::known(l);
    let judgement = judge(l, conn, peer, circuit, claim, reading);
    let Some(attribution) = judgement else {
        return Ok(None);
    };
    let row = kinds::row_of(conn.0, Entry::Path(attribution));
    insert(l, Table::Paths, row).map(|()| Some(attribution))
}

// The upgrade, if any, that a connection is which takes the place of one that came as `old`.
pub fn replaced(l: &Ledger, old: Attribution, new: ConnectionId) -> Option<Replaced>
    ensures { result ≡ replaced_by (tables_of l.now) old new }
{
    path::upgrade(old, entries::path_at(l, new))
}

// Forgets a connection (closed or replaced) and its dial, and hands out how it came.
pub fn forget(l: &mut Ledger, conn: ConnectionId) -> Option<Attribution>
    ensures answer { result ≡ (forgotten (tables_of l.old) conn).path }
    ensures tables { tables_of l.new ≡ (forgotten (tables_of l.old) conn).ledger }
    ensures words { l.new ≡ laid (forgotten (tables_of l.old) conn).ledger l.old }
{
    rows::known(l);
    let path = entries::path_at(l, conn);
    rows::remove(l, Table::Paths, conn.0);
    rows::remove(l, Table::Dials, conn.0);
    path
}

// Whether the connection was attributed to a hole punch.
pub fn is_punched(l: &Ledger, conn: ConnectionId) -> bool
    ensures { result ≡ is_punched (tables_of l.now) conn }
{
    path::is_punched(entries::path_at(l, conn))
}

// Closes the windows that ended by the reading.
pub fn on_tick(l: &mut Ledger, reading: u64)
    ensures tables { tables_of l.new ≡ ticked (tables_of l.old) reading }
    ensures words { l.new ≡ laid (ticked (tables_of l.old) reading) l.old }
{
    rows::known(l);
    rows::retain(l, Table::Windows, Keep::Lasting(reading));
}

// When the next window ends.
pub fn next_deadline(l: &Ledger) -> Option<u64>
    ensures { result ≡ next_deadline (tables_of l.now) }
{
    entries::soonest_end(l)
}

// The table of windows has no row. Dials and paths are no work: they end with their dial or connection.
pub fn is_quiet(l: &Ledger) -> bool
    ensures { result ≡ is_quiet (tables_of l.now) }
{
    rows::used(l, Table::Windows) == 0
}
