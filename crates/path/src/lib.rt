// How a connection came, whose it is, and why it was dialed (ledger.rs and types.rs); the order in which that is judged.
#![tactic(auto)]

ghost use Rattle.std.specs.Prelude.{◌≡◌};
ghost use Rattle.path.specs.Judged.{circuit_path, by_window, by_claim, by_dial, direct_path, judged, is_relayed, punched_at, is_owned, upgrade_of};

use ids::{ConnectId, NatToken, PeerId};

// By which path a connection reached its peer.
#[derive(Clone, Copy)]
pub enum Path {
    Relayed { relay: PeerId },
    Punched,
    Direct,
}

// The machine that a path belongs to: a connect attempt, or an inbound circuit.
#[derive(Clone, Copy)]
pub enum Owner {
    Attempt(ConnectId),
    Inbound,
}

#[derive(Clone, Copy)]
pub struct Attribution {
    pub path: Path,
    // No one's, if none.
    pub owner: Option<Owner>,
}

// Why a connection was dialed. Of a relay its handle is known, not its address.
#[derive(Clone, Copy)]
pub enum DialPurpose {
    Relay(ConnectId, PeerId),
    Punch(ConnectId),
    Probe(PeerId),
    Reserve(PeerId),
}

#[derive(Clone, Copy)]
pub struct Dial {
    pub token: NatToken,
    pub purpose: DialPurpose,
}

// What a machine claims about a connection as it is established.
#[derive(Clone, Copy)]
pub enum Claim {
    // The circuit that its owner promoted through the relay.
    Circuit { relay: PeerId, owner: Option<Owner> },
    // A direct connection that the attempt takes as its own.
    Direct(ConnectId),
}

// Leaving a relay for a direct connection: reported against the owner of the relayed path.
#[derive(Clone, Copy)]
pub struct Replaced {
    pub owner: Option<Owner>,
    pub from: Path,
    pub to: Path,
}

// How a circuit came: relayed if it is claimed.
#[tactic(auto, unfolding(crate::specs::Judged::circuit_path))]
fn circuit_path(claim: Option<Claim>) -> Option<Attribution>
    ensures { result ≡ circuit_path claim }
{
    match claim {
        Some(Claim::Circuit { relay, owner }) => Some(Attribution {
            path: Path::Relayed { relay },
            owner,
        }),
        _ => None,
    }
}

// A window of the peer says: punched, and the inbound side is the owner.
#[tactic(auto, unfolding(crate::specs::Judged::by_window))]
fn by_window(lasting: bool, other: Attribution) -> Attribution
    ensures { result ≡ by_window lasting other }
{
    if lasting {
        return Attribution {
            path: Path::Punched,
            owner: Some(Owner::Inbound),
        };
    }
    other
}

// Direct for the attempt that claims it.
#[tactic(auto, unfolding(crate::specs::Judged::by_claim))]
fn by_claim(claim: Option<Claim>, other: Attribution) -> Attribution
    ensures { result ≡ by_claim claim other }
{
    match claim {
        Some(Claim::Direct(id)) => Attribution {
            path: Path::Direct,
            owner: Some(Owner::Attempt(id)),
        },
        _ => other,
    }
}

// A punch dial says: punched, and its attempt is the owner.
#[tactic(auto, unfolding(crate::specs::Judged::by_dial))]
fn by_dial(dial: Option<Dial>, other: Attribution) -> Attribution
    ensures { result ≡ by_dial dial other }
{
    match dial {
        Some(
            Dial {
                purpose: DialPurpose::Punch(id),
                ..
            },
        ) => Attribution {
            path: Path::Punched,
            owner: Some(Owner::Attempt(id)),
        },
        _ => other,
    }
}

// How a direct connection came: the punch dial counts before the claim, and the claim before the window.
#[tactic(auto, unfolding(crate::specs::Judged::direct_path))]
fn direct_path(dial: Option<Dial>, claim: Option<Claim>, lasting: bool) -> Attribution
    ensures { result ≡ direct_path dial claim lasting }
{
    let unowned = Attribution {
        path: Path::Direct,
        owner: None,
    };
    by_dial(dial, by_claim(claim, by_window(lasting, unowned)))
}

// How a connection came, by its dial, the claim and whether the peer's window lasts; a circuit that no one claims has no path.
#[tactic(auto, unfolding(crate::specs::Judged::judged))]
pub fn judge(
    circuit: bool,
    dial: Option<Dial>,
    claim: Option<Claim>,
    lasting: bool,
) -> Option<Attribution>
    ensures { result ≡ judged circuit dial claim lasting }
{
    if circuit {
        return circuit_path(claim);
    }
    Some(direct_path(dial, claim, lasting))
}

#[tactic(auto, unfolding(crate::specs::Judged::is_relayed))]
fn is_relayed(path: Path) -> bool
    ensures { result ≡ is_relayed path }
{
    matches!(path, Path::Relayed { .. })
}

#[tactic(auto, unfolding(crate::specs::Judged::punched_at))]
pub fn is_punched(found: Option<Attribution>) -> bool
    ensures { result ≡ punched_at found }
{
    matches!(
        found,
        Some(Attribution {
            path: Path::Punched,
            ..
        })
    )
}

// The upgrade, if any, where the new path takes the place of the old: an owned relayed path gives way to one that is not.
#[tactic(auto, unfolding(crate::specs::Judged::upgrade_of, crate::specs::Judged::is_owned))]
pub fn upgrade(old: Attribution, new: Option<Attribution>) -> Option<Replaced>
    ensures { result ≡ upgrade_of old new }
{
    let new = new?;
    let left = old.owner.is_some() && is_relayed(old.path) && !is_relayed(new.path);
    left.then_some(Replaced {
        owner: old.owner,
        from: old.path,
        to: new.path,
    })
}
