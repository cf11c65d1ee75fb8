// The calls of a circuit that touch no bytes: start, write completed, connection closed.
ghost use Rattle.std.specs.Prelude.{◌≡◌};
ghost use Rattle.circuit.specs.Calls.{begun_of, started_of, wrote_at, wrote_of, down_of};

use crate::decision::Decision;
use crate::state::{ConnectWrite, Core, Phase};
use budget::UpgradeBudget;
use ids::{ConnectionId, PeerId, StreamId};
use refusal::Refusal;
use vocabulary::Settings;

#[tactic(auto, unfolding(crate::specs::Calls::begun_of))]
fn begun(
    source: PeerId,
    relay: PeerId,
    circuit: ConnectionId,
    settings: Settings,
    phase: Phase,
) -> Core
    ensures { result ≡ begun_of source relay circuit settings phase }
{
    Core {
        source,
        relay,
        circuit,
        settings,
        phase,
        budget: UpgradeBudget::arm(0, settings.upgrade, settings.exchange, settings.punch),
        connect: 0,
        targets: 0,
    }
}

// The host finished writing what it held: a CONNECT that waited for it is sent now.
fn written(c: Core, at: u64, conn: ConnectionId, stream: StreamId) -> Core
    ensures { result ≡ wrote_at c at conn stream c.phase }
{
    match c.phase {
        Phase::Exchange {
            conn: on,
            stream: running,
            count,
            connect: ConnectWrite::Held,
        } if on == conn && running == stream => c.with_phase(Phase::Exchange {
            conn,
            stream,
            count,
            connect: ConnectWrite::Sent { at },
        }),
        _ => c,
    }
}

impl Core {
    // A circuit that begins, or why it does not; a refused one is Done.
    #[tactic(auto, unfolding(crate::specs::Calls::started_of))]
    pub fn new(
        source: PeerId,
        relay: PeerId,
        circuit: ConnectionId,
        settings: Settings,
        at: u64,
    ) -> Decision
        ensures { result ≡ started_of source relay circuit settings at }
    {
        match at.checked_add(settings.handshake) {
            Some(deadline) => {
                let phase = Phase::Handshaking { deadline };
                Decision::quiet(begun(source, relay, circuit, settings, phase))
            }
            None => {
                let done = Phase::Done { promoted: false };
                Decision::refused(
                    begun(source, relay, circuit, settings, done),
                    Refusal::HandshakeTooLate,
                )
            }
        }
    }

    #[tactic(auto, unfolding(crate::specs::Calls::wrote_of))]
    pub fn on_write_completed(self, at: u64, conn: ConnectionId, stream: StreamId) -> Decision
        ensures { result ≡ wrote_of self at conn stream }
    {
        Decision::quiet(written(self, at, conn, stream))
    }

    // The circuit's connection is gone; whose it was plays no part.
    #[tactic(auto, unfolding(crate::specs::Calls::down_of))]
    pub fn on_connection_closed(self, conn: ConnectionId) -> Decision
        ensures { result ≡ down_of self conn }
    {
        if conn == self.circuit && !self.phase.is_done() {
            return Decision::quiet(self.finish());
        }
        Decision::quiet(self)
    }
}
