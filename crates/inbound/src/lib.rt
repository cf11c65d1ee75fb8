// A circuit by value, with its bytes (inbound.rs, `InboundCircuit`): each call lends them to the call of `lent` on its core.
#![tactic(auto)]

ghost use Rattle.std.specs.Prelude.{◌≡◌};
ghost use Rattle.ledger.specs.Ledger.{tables_of, laid};
ghost use Rattle.circuit.specs.State.{is_done};
ghost use Rattle.inbound.specs.Circuits.{made_of, new_answer, up_answer, tick_answer, input_answer, input_buffer, wrote_answer, down_answer, ledger_behind};
ghost use Rattle.questions.specs.Questions.{promotes_of, claim_of, next_deadline_at};

use candidates::Chosen;
use circuit::decision;
use circuit::decision::{Decision, Fate};
use circuit::state::Core;
use frames::{FrameBytes, Framed};
use ids::{ConnectionId, PeerId, StreamId};
use ledger::Ledger;
use lent::{TargetBytes, calls};
use path::Claim;
use refusal::Refusal;
use vocabulary::{Effect, Host, Settings, StreamInput};

#[derive(Clone, Copy)]
pub struct InboundCircuit {
    pub core: Core,
    pub connect: FrameBytes,
    pub targets: TargetBytes,
}

// The targets of a burst are those of the circuit that is answered.
#[derive(Clone, Copy)]
pub struct Answer {
    pub circuit: InboundCircuit,
    pub outcome: Result<(), Refusal>,
    pub took: bool,
    pub window: Fate,
    pub first: Option<Effect>,
    pub second: Option<Effect>,
    pub third: Option<Effect>,
    pub fourth: Option<Effect>,
    pub message: Framed,
}

#[tactic(auto, unfolding(circuit::specs::Decisions::length_of))]
fn made(d: Decision, connect: FrameBytes, targets: TargetBytes, sent: FrameBytes) -> Answer
    ensures { result ≡ made_of d connect targets sent }
{
    Answer {
        circuit: InboundCircuit {
            core: d.core,
            connect,
            targets,
        },
        outcome: d.outcome,
        took: d.took,
        window: d.window,
        first: d.first,
        second: d.second,
        third: d.third,
        fourth: d.fourth,
        message: Framed {
            bytes: sent,
            len: decision::message_size(d.message),
        },
    }
}

impl InboundCircuit {
    pub fn new(
        source: PeerId,
        relay: PeerId,
        circuit: ConnectionId,
        settings: Settings,
        at: u64,
    ) -> Answer
        ensures { result ≡ new_answer source relay circuit settings at }
    {
        let d = Core::new(source, relay, circuit, settings, at);
        let none = Chosen::empty();
        let targets = none.bytes;
        let connect = frames::blank();
        let sent = frames::blank();
        made(d, connect, targets, sent)
    }

    pub fn on_connection_established(
        self,
        ledger: &mut Ledger,
        host: Host,
        own: &[u8],
        peer: PeerId,
        conn: ConnectionId,
        relayed: bool,
    ) -> Answer
        ensures answer { result ≡ up_answer self host own.now peer conn relayed }
        ensures tables { tables_of ledger.new ≡ ledger_behind self (tables_of ledger.old) (up_answer self host own.now peer conn relayed) }
        ensures words { ledger.new ≡ laid (ledger_behind self (tables_of ledger.old) (up_answer self host own.now peer conn relayed)) ledger.old }
    {
        let mut connect = self.connect;
        let mut sent = frames::blank();
        let d = calls::on_connection_established(
            self.core,
            &mut connect,
            &mut sent,
            ledger,
            host,
            own,
            peer,
            conn,
            relayed,
        );
        let targets = self.targets;
        made(d, connect, targets, sent)
    }

    pub fn on_tick(self, ledger: &mut Ledger, host: Host, own: &[u8]) -> Answer
        ensures answer { result ≡ tick_answer self host own.now }
        ensures tables { tables_of ledger.new ≡ ledger_behind self (tables_of ledger.old) (tick_answer self host own.now) }
        ensures words { ledger.new ≡ laid (ledger_behind self (tables_of ledger.old) (tick_answer self host own.now)) ledger.old }
    {
        let mut connect = self.connect;
        let mut sent = frames::blank();
        let d = calls::on_tick(self.core, &mut connect, &mut sent, ledger, host, own);
        let targets = self.targets;
        made(d, connect, targets, sent)
    }

    pub fn on_dcutr_stream_input(
        self,
        ledger: &mut Ledger,
        buffer: &mut [u8],
        host: Host,
        own: &[u8],
        stream: StreamId,
        input: StreamInput,
        bytes: &[u8],
        pending: bool,
    ) -> Answer
        ensures answer { result ≡ input_answer self (tables_of ledger.old) host own.now buffer.old stream input bytes.now pending }
        ensures tables { tables_of ledger.new ≡ ledger_behind self (tables_of ledger.old) (input_answer self (tables_of ledger.old) host own.now buffer.old stream input bytes.now pending) }
        ensures words { ledger.new ≡ laid (ledger_behind self (tables_of ledger.old) (input_answer self (tables_of ledger.old) host own.now buffer.old stream input bytes.now pending)) ledger.old }
        ensures buffer { buffer.new ≡ input_buffer self (tables_of ledger.old) host own.now buffer.old stream input bytes.now pending }
    {
        let mut targets = self.targets;
        let mut connect = self.connect;
        let mut sent = frames::blank();
        let d = calls::on_dcutr_stream_input(
            self.core,
            &mut connect,
            &mut targets,
            &mut sent,
            ledger,
            buffer,
            host,
            own,
            stream,
            input,
            bytes,
            pending,
        );
        made(d, connect, targets, sent)
    }

    pub fn on_write_completed(self, at: u64, conn: ConnectionId, stream: StreamId) -> Answer
        ensures { result ≡ wrote_answer self at conn stream }
    {
        let connect = self.connect;
        let targets = self.targets;
        let sent = frames::blank();
        made(
            self.core.on_write_completed(at, conn, stream),
            connect,
            targets,
            sent,
        )
    }

    pub fn on_connection_closed(self, conn: ConnectionId) -> Answer
        ensures { result ≡ down_answer self conn }
    {
        let connect = self.connect;
        let targets = self.targets;
        let sent = frames::blank();
        made(self.core.on_connection_closed(conn), connect, targets, sent)
    }

    pub fn is_done(self) -> bool
        ensures { result ≡ is_done self.core.phase }
    {
        questions::is_done(self.core)
    }

    pub fn promotes(self, conn: ConnectionId) -> bool
        ensures { result ≡ promotes_of self.core conn }
    {
        questions::promotes(self.core, conn)
    }

    pub fn circuit_claim(self, conn: ConnectionId) -> Option<Claim>
        ensures { result ≡ claim_of self.core conn }
    {
        questions::circuit_claim(self.core, conn)
    }

    pub fn next_deadline(self) -> Option<u64>
        ensures { result ≡ next_deadline_at self.core self.core.phase }
    {
        questions::next_deadline(self.core)
    }
}
