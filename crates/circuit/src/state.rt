// What a circuit keeps, but for its bytes: numbers and enums, handed on by value.
ghost use Rattle.std.specs.Prelude.{◌≡◌};
ghost use Rattle.circuit.specs.State.{terms_of, in_phase, done_of, exchanging_of, punching_of, is_done};

use budget::UpgradeBudget;
use candidates::Terms;
use ids::{ConnectionId, PeerId, StreamId};
use schedule::BlastSchedule;
use vocabulary::Settings;

// How far the round's CONNECT got.
#[derive(Clone, Copy)]
pub enum ConnectWrite {
    Unsent,
    // The host still holds a part of it.
    Held,
    Sent { at: u64 },
}

#[derive(Clone, Copy)]
pub enum Phase {
    Handshaking {
        deadline: u64,
    },
    // The round's exchange, on a stream that this peer opened; so many frame bytes are in the reply buffer.
    Exchange {
        conn: ConnectionId,
        stream: StreamId,
        count: usize,
        connect: ConnectWrite,
    },
    // SYNC was sent: the source punches while this side blasts.
    Punching {
        until: u64,
        blast: BlastSchedule,
    },
    // `promoted` is false where the handshake ran out or the start was refused: such a circuit was never this machine's own.
    Done {
        promoted: bool,
    },
}

// The round's CONNECT and the window's targets are bytes that stand beside it; their numbers are here.
#[derive(Clone, Copy)]
pub struct Core {
    pub source: PeerId,
    pub relay: PeerId,
    pub circuit: ConnectionId,
    pub settings: Settings,
    pub phase: Phase,
    pub budget: UpgradeBudget,
    pub connect: usize,
    pub targets: usize,
}

// What the circuit chooses candidates by.
pub fn terms(settings: Settings) -> Terms
    ensures { result ≡ terms_of settings }
{
    Terms::usual(settings.private)
}

impl Phase {
    pub fn is_done(self) -> bool
        ensures { result ≡ is_done self }
    {
        matches!(self, Phase::Done { .. })
    }
}

impl Core {
    #[tactic(auto, unfolding(crate::specs::State::in_phase))]
    pub fn with_phase(self, phase: Phase) -> Self
        ensures { result ≡ in_phase self phase }
    {
        Core { phase, ..self }
    }

    #[tactic(auto, unfolding(crate::specs::State::done_of))]
    pub fn finish(self) -> Self
        ensures { result ≡ done_of self }
    {
        self.with_phase(Phase::Done { promoted: true })
    }

    // The exchange of a round that began; its CONNECT is written by the call that opens it.
    #[tactic(auto, unfolding(crate::specs::State::exchanging_of))]
    pub fn exchanging(self, budget: UpgradeBudget, conn: ConnectionId, stream: StreamId) -> Self
        ensures { result ≡ exchanging_of self budget conn stream }
    {
        let phase = Phase::Exchange {
            conn,
            stream,
            count: 0,
            connect: ConnectWrite::Unsent,
        };
        Core {
            phase,
            budget,
            ..self
        }
    }

    #[tactic(auto, unfolding(crate::specs::State::punching_of))]
    pub fn punching(
        self,
        budget: UpgradeBudget,
        until: u64,
        blast: BlastSchedule,
        targets: usize,
    ) -> Self
        ensures { result ≡ punching_of self budget until blast targets }
    {
        Core {
            phase: Phase::Punching { until, blast },
            budget,
            targets,
            ..self
        }
    }
}
