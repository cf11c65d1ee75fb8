// A connection is established (inbound.rs, `on_connection_established`).
ghost use Rattle.std.specs.Prelude.{◌≡◌};
ghost use Rattle.upgrade.specs.Ups.{upgraded_of, announced, established_at, took_of, connected_of, up_at};

use budget::UpgradeBudget;
use circuit::decision::{Decision, Fate, Said};
use circuit::state::{Core, Phase};
use ids::{ConnectionId, PeerId};
use vocabulary::{Effect, Host};

// A direct connection from the source ends the hole punch.
#[tactic(auto, unfolding(crate::specs::Ups::upgraded_of))]
fn upgraded(c: Core, new: ConnectionId, third: Option<Effect>) -> Decision
    ensures { result ≡ upgraded_of c new third }
{
    let first = Effect::Upgrade {
        peer: c.source,
        old: c.circuit,
        new,
    };
    Decision::decided(
        c.finish(),
        Fate::Kept,
        Said::event(Some(first), third),
        None,
    )
}

// The circuit carries the relayed path: announce it and, when upgrades are on, start the first round.
#[tactic(auto, unfolding(crate::specs::Ups::announced))]
fn announce_path(c: Core, host: Host) -> Decision
    ensures { result ≡ announced c host }
{
    let path = Effect::Path {
        peer: c.source,
        relay: c.relay,
        conn: c.circuit,
    };
    let said = Said::event(Some(path), None);
    let settings = c.settings;
    if settings.upgrades {
        let budget = UpgradeBudget::arm(
            host.at,
            settings.upgrade,
            settings.exchange,
            settings.punch,
        );
        return rounds::open_round(c, budget, host, said);
    }
    Decision::decided(c.finish(), Fate::Kept, said, None)
}

// A connection from the source.
fn established(c: Core, host: Host, conn: ConnectionId, relayed: bool) -> Decision
    ensures { result ≡ established_at c host conn relayed c.phase }
{
    match c.phase {
        Phase::Handshaking { .. } if relayed && conn == c.circuit => announce_path(c, host),
        Phase::Handshaking { .. } if !relayed => upgraded(c, conn, None),
        Phase::Exchange {
            conn: on,
            stream,
            ..
        } if !relayed => upgraded(c, conn, Some(Effect::Reset { conn: on, stream })),
        Phase::Punching { .. } if !relayed => upgraded(c, conn, None),
        _ => Decision::quiet(c),
    }
}

#[tactic(auto, unfolding(crate::specs::Ups::took_of))]
fn takes(c: Core, peer: PeerId, conn: ConnectionId, relayed: bool) -> bool
    ensures { result ≡ took_of c peer conn relayed }
{
    !c.phase.is_done() && peer == c.source && (!relayed || conn == c.circuit)
}

#[tactic(auto, unfolding(crate::specs::Ups::connected_of))]
fn connected(c: Core, host: Host, peer: PeerId, conn: ConnectionId, relayed: bool) -> Decision
    ensures { result ≡ connected_of c host peer conn relayed }
{
    if peer == c.source {
        return established(c, host, conn, relayed);
    }
    Decision::quiet(c)
}

#[tactic(auto, unfolding(crate::specs::Ups::up_at))]
pub fn up(c: Core, host: Host, peer: PeerId, conn: ConnectionId, relayed: bool) -> Decision
    ensures { result ≡ up_at c host peer conn relayed }
{
    let took = takes(c, peer, conn, relayed);
    Decision {
        took,
        ..connected(c, host, peer, conn, relayed)
    }
}
