// What a row of the path ledger says: a row's five words, and the entry that they are, each from the other.
#![tactic(auto)]

ghost use Rattle.std.specs.Prelude.{◌≡◌, ℕ};
ghost use Rattle.kinds.specs.declared.Entry.{Entry};
ghost use Rattle.kinds.specs.Kinds.{entry_of, row_of, keyed, dial_numbers, owned_numbers, path_numbers, dialed as dialedEntry, owned as ownedEntry};

use ids::{ConnectId, NatToken, PeerId};
use path::{Attribution, Dial, DialPurpose, Owner, Path};

// A row's five words.
#[derive(Clone, Copy)]
pub struct Row {
    pub key: u64,
    pub kind: u64,
    pub a: u64,
    pub b: u64,
    pub c: u64,
}

// The kinds of rows, and of a path's owner.
const RELAY: u64 = 1;

const PUNCH: u64 = 2;

const PROBE: u64 = 3;

const RESERVE: u64 = 4;

pub const WINDOW: u64 = 5;

const RELAYED: u64 = 6;

const PUNCHED: u64 = 7;

const DIRECT: u64 = 8;

const UNOWNED: u64 = 0;

const INBOUND: u64 = 1;

const ATTEMPT: u64 = 2;

// What a row says of its key: a dial or a path of a connection, or the end of a peer's punch window. `Other` and no `Option`: such a row
// stands in its table all the same, and is found.
#[derive(Clone, Copy)]
pub enum Entry {
    Other,
    Dialed(Dial),
    Window(u64),
    Path(Attribution),
}

fn owned(path: Path, kind: u64, id: u64) -> Entry
    ensures { result ≡ ownedEntry path kind id }
{
    let owner = match kind {
        UNOWNED => None,
        INBOUND => Some(Owner::Inbound),
        ATTEMPT => Some(Owner::Attempt(ConnectId(id))),
        _ => return Entry::Other,
    };
    Entry::Path(Attribution { path, owner })
}

fn dialed(token: u64, purpose: DialPurpose) -> Entry
    ensures { result ≡ dialedEntry token purpose }
{
    Entry::Dialed(Dial {
        token: NatToken(token),
        purpose,
    })
}

// What a row says.
#[tactic(auto, unfolding(crate::specs::Kinds::entry_of))]
pub fn entry_of(row: Row) -> Entry
    ensures { result ≡ entry_of row }
{
    match row.kind {
        RELAY => dialed(row.a, DialPurpose::Relay(ConnectId(row.b), PeerId(row.c))),
        PUNCH => dialed(row.a, DialPurpose::Punch(ConnectId(row.b))),
        PROBE => dialed(row.a, DialPurpose::Probe(PeerId(row.b))),
        RESERVE => dialed(row.a, DialPurpose::Reserve(PeerId(row.b))),
        WINDOW => Entry::Window(row.a),
        RELAYED => {
            let relay = PeerId(row.a);
            owned(Path::Relayed { relay }, row.b, row.c)
        }
        PUNCHED => owned(Path::Punched, row.b, row.c),
        DIRECT => owned(Path::Direct, row.b, row.c),
        _ => Entry::Other,
    }
}

fn dial_row(key: u64, token: u64, purpose: DialPurpose) -> Row
    ensures { result ≡ keyed key (dial_numbers token purpose) }
{
    match purpose {
        DialPurpose::Relay(attempt, relay) => Row {
            key,
            kind: RELAY,
            a: token,
            b: attempt.0,
            c: relay.0,
        },
        DialPurpose::Punch(attempt) => Row {
            key,
            kind: PUNCH,
            a: token,
            b: attempt.0,
            c: 0,
        },
        DialPurpose::Probe(peer) => Row {
            key,
            kind: PROBE,
            a: token,
            b: peer.0,
            c: 0,
        },
        DialPurpose::Reserve(peer) => Row {
            key,
            kind: RESERVE,
            a: token,
            b: peer.0,
            c: 0,
        },
    }
}

fn owned_row(key: u64, kind: u64, relay: u64, owner: Option<Owner>) -> Row
    ensures { result ≡ keyed key (owned_numbers kind relay owner) }
{
    match owner {
        None => Row {
            key,
            kind,
            a: relay,
            b: UNOWNED,
            c: 0,
        },
        Some(Owner::Inbound) => Row {
            key,
            kind,
            a: relay,
            b: INBOUND,
            c: 0,
        },
        Some(Owner::Attempt(id)) => Row {
            key,
            kind,
            a: relay,
            b: ATTEMPT,
            c: id.0,
        },
    }
}

fn path_row(key: u64, path: Path, owner: Option<Owner>) -> Row
    ensures { result ≡ keyed key (path_numbers path owner) }
{
    match path {
        Path::Relayed { relay } => owned_row(key, RELAYED, relay.0, owner),
        Path::Punched => owned_row(key, PUNCHED, 0, owner),
        Path::Direct => owned_row(key, DIRECT, 0, owner),
    }
}

// The row that says the entry of the key.
#[tactic(auto, unfolding(crate::specs::Kinds::numbers_of))]
pub fn row_of(key: u64, entry: Entry) -> Row
    ensures { result ≡ row_of key entry }
{
    match entry {
        Entry::Dialed(dial) => dial_row(key, dial.token.0, dial.purpose),
        Entry::Window(until) => Row {
            key,
            kind: WINDOW,
            a: until,
            b: 0,
            c: 0,
        },
        Entry::Path(name) => path_row(key, name.path, name.owner),
        Entry::Other => Row {
            key,
            kind: 0,
            a: 0,
            b: 0,
            c: 0,
        },
    }
}

// A row that says an entry is read as that entry.
pub fn read_back()
    ensures { (key : ℕ) (entry : Entry) → entry_of (row_of key entry) ≡ entry }
{}
