// What a circuit is asked (inbound.rs: `is_done`, `promotes`, `circuit_claim`, `next_deadline`).
#![tactic(auto)]

ghost use Rattle.std.specs.Prelude.{◌≡◌};
ghost use Rattle.circuit.specs.State.{is_done};
ghost use Rattle.questions.specs.Questions.{promoted, promotes_of, claim_of, next_deadline_at};

use circuit::state::{Core, Phase};
use ids::ConnectionId;
use path::{Claim, Owner};

fn promoted_in(phase: Phase) -> bool
    ensures { result ≡ promoted phase }
{
    match phase {
        Phase::Done { promoted } => promoted,
        _ => true,
    }
}

pub fn is_done(c: Core) -> bool
    ensures { result ≡ is_done c.phase }
{
    c.phase.is_done()
}

// Whether the connection is the circuit that this machine promoted.
#[tactic(auto, unfolding(crate::specs::Questions::promotes_of))]
pub fn promotes(c: Core, conn: ConnectionId) -> bool
    ensures { result ≡ promotes_of c conn }
{
    conn == c.circuit && promoted_in(c.phase)
}

// What this machine claims about a connection: that it is the circuit it promoted.
#[tactic(auto, unfolding(crate::specs::Questions::claim_of))]
pub fn circuit_claim(c: Core, conn: ConnectionId) -> Option<Claim>
    ensures { result ≡ claim_of c conn }
{
    let claimed = conn == c.circuit && !is_done(c);
    claimed.then_some(Claim::Circuit {
        relay: c.relay,
        owner: Some(Owner::Inbound),
    })
}

pub fn next_deadline(c: Core) -> Option<u64>
    ensures { result ≡ next_deadline_at c c.phase }
{
    match c.phase {
        Phase::Handshaking { deadline } => Some(deadline),
        Phase::Exchange { .. } => Some(c.budget.next_deadline()),
        Phase::Punching { until, blast } => {
            // Without a target no instant counts.
            let next = if c.targets == 0 {
                until
            } else {
                blast.next_deadline(until)
            };
            Some(next.min(c.budget.next_deadline()))
        }
        Phase::Done { .. } => None,
    }
}
