// The next round, or the upgrade's end (inbound.rs, `open_round` and `fail_round`).
#![tactic(auto)]

ghost use Rattle.std.specs.Prelude.{◌≡◌};
ghost use Rattle.rounds.specs.Rounds.{no_round, open_stream, is_live, open_round, fail_round};

use budget::UpgradeBudget;
use circuit::decision::{Decision, Fate, Said};
use circuit::state::Core;
use ids::ConnectionId;
use vocabulary::{Effect, Host};

// No round is to be had: direct connections from the source are no longer this side's punches.
#[tactic(auto, unfolding(crate::specs::Rounds::no_round))]
fn no_round(c: Core, said: Said) -> Decision
    ensures { result ≡ no_round c said }
{
    Decision::decided(c.finish(), Fate::Removed, said, None)
}

// The round begins on the offered stream.
fn open_stream(c: Core, budget: UpgradeBudget, host: Host, said: Said) -> Decision
    ensures { result ≡ open_stream c budget host.at said host.offer }
{
    match host.offer {
        Some((conn, stream)) => Decision::decided(
            c.exchanging(budget.begin_round(host.at), conn, stream),
            Fate::Kept,
            said,
            Some(Effect::Open { conn, stream }),
        ),
        None => no_round(c, said),
    }
}

// Whether the source's connection is still the circuit.
#[tactic(auto, unfolding(crate::specs::Rounds::is_live))]
fn is_live(circuit: ConnectionId, live: Option<ConnectionId>) -> bool
    ensures { result ≡ is_live circuit live }
{
    live == Some(circuit)
}

// Opens the next round, or ends the upgrade.
#[tactic(auto, unfolding(crate::specs::Rounds::open_round))]
pub fn open_round(c: Core, budget: UpgradeBudget, host: Host, said: Said) -> Decision
    ensures { result ≡ open_round c budget host said }
{
    if is_live(c.circuit, host.live) && budget.may_begin(host.at) {
        return open_stream(c, budget, host, said);
    }
    no_round(c, said)
}

// The round's exchange failed: the next round starts at once.
#[tactic(auto, unfolding(crate::specs::Rounds::fail_round))]
pub fn fail_round(c: Core, host: Host, said: Said) -> Decision
    ensures { result ≡ fail_round c host said }
{
    open_round(c, c.budget.end_exchange(), host, said)
}
