// The clock's part (inbound.rs, `on_tick`).
ghost use Rattle.std.specs.Prelude.{◌≡◌};
ghost use Rattle.upgrade.specs.Ticks.{tick_handshaking, tick_exchange, tick_punching, tick_at};

use budget::UpgradeStop;
use circuit::decision::{Decision, Fate, Said};
use circuit::state::{Core, Phase};
use ids::{ConnectionId, StreamId};
use schedule::BlastSchedule;
use vocabulary::{Effect, Host};

#[tactic(auto, unfolding(crate::specs::Ticks::tick_handshaking))]
fn tick_handshaking(c: Core, at: u64, deadline: u64) -> Decision
    ensures { result ≡ tick_handshaking c at deadline }
{
    if at < deadline {
        return Decision::quiet(c);
    }
    Decision::decided(
        c.with_phase(Phase::Done { promoted: false }),
        Fate::Kept,
        Said::event(Some(Effect::Close { conn: c.circuit }), None),
        None,
    )
}

#[tactic(auto, unfolding(crate::specs::Ticks::tick_exchange))]
pub fn tick_exchange(c: Core, host: Host, conn: ConnectionId, stream: StreamId) -> Decision
    ensures { result ≡ tick_exchange c host conn stream }
{
    match c.budget.due(host.at) {
        None => Decision::quiet(c),
        Some(UpgradeStop::ExchangeTimeout { .. }) if host.at < c.budget.deadline => {
            rounds::fail_round(c, host, Said::reset(conn, stream))
        }
        Some(_) => { Decision::decided(c.finish(), Fate::Kept, Said::reset(conn, stream), None) }
    }
}

// The deadline comes first; else the instants newly due go out, and the round is over at the window's end.
#[tactic(auto, unfolding(crate::specs::Ticks::tick_punching))]
fn tick_punching(c: Core, host: Host, until: u64, blast: BlastSchedule) -> Decision
    ensures { result ≡ tick_punching c host until blast }
{
    if c.budget.deadline <= host.at {
        return Decision::quiet(c.finish());
    }
    let due = blast.newly_due(c.settings.interval, host.at);
    let said = Said::burst(due.times, c.settings.payload, c.targets);
    if host.at < until {
        let phase = Phase::Punching {
            until,
            blast: due.schedule,
        };
        return Decision::decided(c.with_phase(phase), Fate::Kept, said, None);
    }
    rounds::open_round(c, c.budget, host, said)
}

pub fn tick(c: Core, host: Host) -> Decision
    ensures { result ≡ tick_at c host c.phase }
{
    match c.phase {
        Phase::Handshaking { deadline } => tick_handshaking(c, host.at, deadline),
        Phase::Exchange { conn, stream, .. } => tick_exchange(c, host, conn, stream),
        Phase::Punching { until, blast } => tick_punching(c, host, until, blast),
        Phase::Done { .. } => Decision::quiet(c),
    }
}
