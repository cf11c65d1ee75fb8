// What up, tick and input are refused with before they do anything.
#![tactic(auto)]

ghost use Rattle.std.specs.Prelude.{◌≡◌};
ghost use Rattle.checks.specs.Refusals.{in_use, check_of};

use circuit::state::Phase;
use ids::{ConnectionId, StreamId};
use refusal::Refusal;

// Whether the offered stream is the one that an exchange runs on.
#[tactic(auto, unfolding(crate::specs::Refusals::in_use))]
fn offer_in_use(phase: Phase, offer: Option<(ConnectionId, StreamId)>) -> bool
    ensures { result ≡ in_use phase offer }
{
    matches!(phase, Phase::Exchange { conn, stream, .. } if offer == Some((conn, stream)))
}

// A broken own list comes before a stream in use.
#[tactic(auto, unfolding(crate::specs::Refusals::check_of))]
pub fn checked(
    phase: Phase,
    offer: Option<(ConnectionId, StreamId)>,
    own: &[u8],
) -> Result<(), Refusal>
    ensures { result ≡ check_of phase offer own.now }
{
    if wire::is_broken(own) {
        return Err(Refusal::BrokenList);
    }
    if offer_in_use(phase, offer) {
        return Err(Refusal::OfferInUse);
    }
    Ok(())
}
