// What the words of the ledger's lines stand for, and the words of its values. A word of a choice is its place there, in the form's order and
// not in the enum's, so numbers are read and made by `match`.
ghost use Rattle.std.specs.Prelude.{◌≡◌};
ghost use Rattle.ledger_calls.specs.Values.{purpose_of, purpose_words, path_of, path_words, owner_of, owner_words, claim_of, table_of};

use ids::{ConnectId, PeerId};
use path::{Claim, DialPurpose, Owner, Path};
use rows::Table;

// ---- why a connection is dialed

#[tactic(auto, unfolding(crate::specs::Values::purpose_of))]
pub fn purpose_of(word: u64, of: u64, relay: u64) -> DialPurpose
    ensures { result ≡ purpose_of word of relay }
{
    match word {
        0 => DialPurpose::Relay(ConnectId(of), PeerId(relay)),
        1 => DialPurpose::Punch(ConnectId(of)),
        2 => DialPurpose::Probe(PeerId(of)),
        _ => DialPurpose::Reserve(PeerId(of)),
    }
}

#[derive(Clone, Copy)]
pub struct PurposeWords {
    pub word: u64,
    pub of: u64,
    pub relay: u64,
}

#[tactic(auto, unfolding(crate::specs::Values::purpose_words))]
pub fn purpose_words(purpose: DialPurpose) -> PurposeWords
    ensures { result ≡ purpose_words purpose }
{
    match purpose {
        DialPurpose::Relay(id, relay) => PurposeWords {
            word: 0,
            of: id.0,
            relay: relay.0,
        },
        DialPurpose::Punch(id) => PurposeWords {
            word: 1,
            of: id.0,
            relay: 0,
        },
        DialPurpose::Probe(peer) => PurposeWords {
            word: 2,
            of: peer.0,
            relay: 0,
        },
        DialPurpose::Reserve(peer) => PurposeWords {
            word: 3,
            of: peer.0,
            relay: 0,
        },
    }
}

// ---- by which path a connection came

#[tactic(auto, unfolding(crate::specs::Values::path_of))]
pub fn path_of(word: u64, relay: u64) -> Path
    ensures { result ≡ path_of word relay }
{
    match word {
        0 => Path::Relayed {
            relay: PeerId(relay),
        },
        1 => Path::Punched,
        _ => Path::Direct,
    }
}

#[derive(Clone, Copy)]
pub struct PathWords {
    pub word: u64,
    pub relay: u64,
}

#[tactic(auto, unfolding(crate::specs::Values::path_words))]
pub fn path_words(path: Path) -> PathWords
    ensures { result ≡ path_words path }
{
    match path {
        Path::Relayed { relay } => PathWords {
            word: 0,
            relay: relay.0,
        },
        Path::Punched => PathWords { word: 1, relay: 0 },
        Path::Direct => PathWords { word: 2, relay: 0 },
    }
}

// ---- whose it is

#[tactic(auto, unfolding(crate::specs::Values::owner_of))]
pub fn owner_of(word: u64, id: u64) -> Option<Owner>
    ensures { result ≡ owner_of word id }
{
    match word {
        0 => None,
        1 => Some(Owner::Inbound),
        _ => Some(Owner::Attempt(ConnectId(id))),
    }
}

#[derive(Clone, Copy)]
pub struct OwnerWords {
    pub word: u64,
    pub id: u64,
}

#[tactic(auto, unfolding(crate::specs::Values::owner_words))]
pub fn owner_words(owner: Option<Owner>) -> OwnerWords
    ensures { result ≡ owner_words owner }
{
    match owner {
        None => OwnerWords { word: 0, id: 0 },
        Some(Owner::Inbound) => OwnerWords { word: 1, id: 0 },
        Some(Owner::Attempt(id)) => OwnerWords { word: 2, id: id.0 },
    }
}

// ---- what a machine claims: nothing, a direct connection, or a circuit, as inbound or as an attempt

#[tactic(auto, unfolding(crate::specs::Values::claim_of))]
pub fn claim_of(word: u64, relay: u64, id: u64) -> Option<Claim>
    ensures { result ≡ claim_of word relay id }
{
    match word {
        0 => None,
        1 => Some(Claim::Direct(ConnectId(id))),
        2 => Some(Claim::Circuit {
            relay: PeerId(relay),
            owner: Some(Owner::Inbound),
        }),
        _ => Some(Claim::Circuit {
            relay: PeerId(relay),
            owner: Some(Owner::Attempt(ConnectId(id))),
        }),
    }
}

// ---- tables

#[tactic(auto, unfolding(crate::specs::Values::table_of))]
pub fn table_of(word: u64) -> Table
    ensures { result ≡ table_of word }
{
    match word {
        0 => Table::Dials,
        1 => Table::Windows,
        _ => Table::Paths,
    }
}
