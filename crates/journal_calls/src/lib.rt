// What the calls of a journal's lines do. The journal's numbers go in by value and come back with what is to be said; what a call touches of
// its memory is lent, and so is the reply buffer.
#![tactic(auto)]

ghost use Rattle.std.specs.Prelude.{◌≡◌, ℕ, List};
ghost use Rattle.ledger.specs.Ledger.{tables_of, laid, empty_ledger};
ghost use Rattle.circuit.specs.Calls.{wrote_of, down_of};
ghost use Rattle.journal_calls.specs.Calls.{whole, turned, memory_of, blank_memory, running, with_core, no_effects, saying, effects_of, settled_in, start_turn, up_turn, input_turn, tick_turn, dial_turn, forget_turn, attribute_turn, expired, claim_for};

use candidates::Chosen;
use circuit::decision;
use circuit::decision::Decision;
use circuit::state::Core;
use frames::FrameBytes;
use ids::{ConnectId, ConnectionId, NatToken, PeerId, StreamId};
use journal_effects::Effects;
use ledger::Ledger;
use lent::TargetBytes;
use path::{Attribution, Claim, DialPurpose};
use refusal::Refusal;
use vocabulary::{Host, Settings, StreamInput};

// ---- the state

// The journal, but for its memory.
#[derive(Clone, Copy)]
pub struct State {
    // The lines so far, without the first.
    pub n: u64,
    pub settings: Settings,
    // None before a start was accepted.
    pub core: Option<Core>,
}

// The journal's numbers while it has a circuit, which all calls but start, dial and forget need.
#[derive(Clone, Copy)]
pub struct Running {
    pub n: u64,
    pub settings: Settings,
    pub core: Core,
}

impl Running {
    fn state(self) -> State
        ensures { result ≡ running self }
    {
        State {
            n: self.n,
            settings: self.settings,
            core: Some(self.core),
        }
    }
}

// What the journal keeps in place: the bytes of the circuit's CONNECT and of its targets, the message that goes out, and the ledger.
#[derive(Drop)]
pub struct Memory {
    pub connect: FrameBytes,
    pub targets: TargetBytes,
    pub sent: FrameBytes,
    pub ledger: Ledger,
}

impl Memory {
    // Zeros, and an empty ledger.
    pub fn blank() -> Self
        ensures bytes { result ≡ blank_memory }
        ensures tables { tables_of result.ledger ≡ empty_ledger }
    {
        let connect = frames::blank();
        let none = Chosen::empty();
        let targets = none.bytes;
        let sent = frames::blank();
        let ledger = ledger::empty();
        Memory {
            connect,
            targets,
            sent,
            ledger,
        }
    }
}

// An accepted call says its effects, or how a connection was named.
#[derive(Clone, Copy)]
pub enum Said {
    Effects,
    Attributed(Option<Attribution>),
    Refused(Refusal),
}

// The journal after a line, and what is said of the line.
#[derive(Clone, Copy)]
pub struct Turn {
    pub state: State,
    pub said: Said,
    pub effects: Effects,
}

// ---- what is said

#[tactic(auto, unfolding(crate::specs::Calls::no_effects))]
fn no_effects() -> Effects
    ensures { result ≡ no_effects }
{
    Effects {
        first: None,
        second: None,
        third: None,
        fourth: None,
        message: 0,
        targets: 0,
        took: false,
    }
}

#[tactic(auto, unfolding(crate::specs::Calls::saying))]
pub fn say(j: State, said: Said) -> Turn
    ensures { result ≡ saying j said }
{
    Turn {
        state: j,
        said,
        effects: no_effects(),
    }
}

#[tactic(auto, unfolding(crate::specs::Calls::effects_of))]
fn effects_of(d: Decision) -> Effects
    ensures { result ≡ effects_of d }
{
    Effects {
        first: d.first,
        second: d.second,
        third: d.third,
        fourth: d.fourth,
        message: decision::message_size(d.message),
        targets: d.core.targets,
        took: d.took,
    }
}

fn with_core(j: State, core: Core) -> State
    ensures { result ≡ with_core j core }
{
    State {
        core: Some(core),
        ..j
    }
}

// What the circuit decided.
#[tactic(auto, unfolding(crate::specs::Calls::saying))]
fn settle(j: State, d: Decision) -> Turn
    ensures { result ≡ settled_in j d d.outcome }
{
    match d.outcome {
        Err(why) => say(j, Said::Refused(why)),
        Ok(()) => Turn {
            state: with_core(j, d.core),
            said: Said::Effects,
            effects: effects_of(d),
        },
    }
}

// ---- the calls

// An accepted start puts a circuit in place of the one before; the ledger stays.
#[tactic(auto, unfolding(crate::specs::Calls::start_turn, crate::specs::Calls::started, crate::specs::Calls::silent, crate::specs::Calls::refused, crate::specs::Calls::saying))]
pub fn start_turn(
    j: State,
    connect: &mut FrameBytes,
    targets: &mut TargetBytes,
    at: u64,
    source: PeerId,
    relay: PeerId,
    circuit: ConnectionId,
) -> Turn
    ensures { (sent words : List ℕ) → turned result (memory_of connect.new targets.new sent words) ≡ start_turn (whole j (memory_of connect.old targets.old sent words)) at source relay circuit }
{
    let d = Core::new(source, relay, circuit, j.settings, at);
    match d.outcome {
        Err(why) => say(j, Said::Refused(why)),
        Ok(()) => {
            lent::calls::clear(connect, targets);
            say(with_core(j, d.core), Said::Effects)
        }
    }
}

pub fn up_turn(
    j: Running,
    connect: &mut FrameBytes,
    sent: &mut FrameBytes,
    ledger: &mut Ledger,
    host: Host,
    own: &[u8],
    peer: PeerId,
    conn: ConnectionId,
    circuit: bool,
) -> Turn
    ensures { (targets : List ℕ) → turned result (memory_of connect.new targets sent.new ledger.new) ≡ up_turn (whole (running j) (memory_of connect.old targets sent.old ledger.old)) host own.now peer conn circuit }
{
    rows::known(ledger);
    let d = lent::calls::on_connection_established(
        j.core, connect, sent, ledger, host, own, peer, conn, circuit,
    );
    settle(j.state(), d)
}

#[tactic(auto, unfolding(crate::specs::Calls::input_turn))]
pub fn input_turn(
    j: Running,
    connect: &mut FrameBytes,
    targets: &mut TargetBytes,
    sent: &mut FrameBytes,
    ledger: &mut Ledger,
    reply: &mut [u8],
    host: Host,
    own: &[u8],
    stream: StreamId,
    kind: StreamInput,
    bytes: &[u8],
    pending: bool,
) -> Turn
    ensures turn { turned result (memory_of connect.new targets.new sent.new ledger.new) ≡ (input_turn (whole (running j) (memory_of connect.old targets.old sent.old ledger.old)) host own.now reply.old stream kind bytes.now pending).turn }
    ensures reply { reply.new ≡ (input_turn (whole (running j) (memory_of connect.old targets.old sent.old ledger.old)) host own.now reply.old stream kind bytes.now pending).reply }
{
    rows::known(ledger);
    let d = lent::calls::on_dcutr_stream_input(
        j.core, connect, targets, sent, ledger, reply, host, own, stream, kind, bytes, pending,
    );
    settle(j.state(), d)
}

// The ledger ticks behind the circuit, where the circuit's tick is accepted.
#[tactic(auto, using(ledger::proofs::Laws::laid_same))]
fn expire(outcome: Result<(), Refusal>, ledger: &mut Ledger, at: u64)
    ensures tables { tables_of ledger.new ≡ expired outcome (tables_of ledger.old) at }
    ensures words { ledger.new ≡ laid (expired outcome (tables_of ledger.old) at) ledger.old }
{
    match outcome {
        Ok(()) => ledger::on_tick(ledger, at),
        Err(_) => rows::known(ledger),
    }
}

pub fn tick_turn(
    j: Running,
    connect: &mut FrameBytes,
    sent: &mut FrameBytes,
    ledger: &mut Ledger,
    host: Host,
    own: &[u8],
) -> Turn
    ensures { (targets : List ℕ) → turned result (memory_of connect.new targets sent.new ledger.new) ≡ tick_turn (whole (running j) (memory_of connect.old targets sent.old ledger.old)) host own.now }
{
    rows::known(ledger);
    let d = lent::calls::on_tick(j.core, connect, sent, ledger, host, own);
    expire(d.outcome, ledger, host.at);
    settle(j.state(), d)
}

// A write and a lost connection leave the memory as it is.
pub fn wrote_turn(j: Running, at: u64, conn: ConnectionId, stream: StreamId) -> Turn
    ensures { result ≡ settled_in (running j) (wrote_of j.core at conn stream) (wrote_of j.core at conn stream).outcome }
{
    settle(j.state(), j.core.on_write_completed(at, conn, stream))
}

pub fn down_turn(j: Running, conn: ConnectionId) -> Turn
    ensures { result ≡ settled_in (running j) (down_of j.core conn) (down_of j.core conn).outcome }
{
    settle(j.state(), j.core.on_connection_closed(conn))
}

#[tactic(auto, unfolding(crate::specs::Calls::dial_turn, crate::specs::Calls::silent, crate::specs::Calls::refused, crate::specs::Calls::saying), using(crate::proofs::Turning::undialed, ledger::proofs::Laws::laid_same))]
pub fn dial_turn(
    j: State,
    ledger: &mut Ledger,
    conn: ConnectionId,
    token: NatToken,
    id: ConnectId,
) -> Turn
    ensures { (connect targets sent : List ℕ) → turned result (memory_of connect targets sent ledger.new) ≡ dial_turn (whole j (memory_of connect targets sent ledger.old)) conn token id }
{
    rows::known(ledger);
    match ledger::dial_started(ledger, conn, token, DialPurpose::Punch(id)) {
        Err(why) => say(j, Said::Refused(why)),
        Ok(()) => say(j, Said::Effects),
    }
}

#[tactic(auto, unfolding(crate::specs::Calls::forget_turn, crate::specs::Calls::silent, crate::specs::Calls::saying))]
pub fn forget_turn(j: State, ledger: &mut Ledger, conn: ConnectionId) -> Turn
    ensures { (connect targets sent : List ℕ) → turned result (memory_of connect targets sent ledger.new) ≡ forget_turn (whole j (memory_of connect targets sent ledger.old)) conn }
{
    ledger::forget(ledger, conn);
    say(j, Said::Effects)
}

// Only a circuit carries the circuit's claim.
#[tactic(auto, unfolding(crate::specs::Calls::claim_for))]
fn claim_for(c: Core, conn: ConnectionId, circuit: bool) -> Option<Claim>
    ensures { result ≡ claim_for c conn circuit }
{
    if circuit {
        return questions::circuit_claim(c, conn);
    }
    None
}

#[tactic(auto, unfolding(crate::specs::Calls::attribute_turn, crate::specs::Calls::naming, crate::specs::Calls::refused, crate::specs::Calls::saying), using(crate::proofs::Turning::unnamed, ledger::proofs::Laws::laid_same))]
pub fn attribute_turn(
    j: Running,
    ledger: &mut Ledger,
    at: u64,
    peer: PeerId,
    conn: ConnectionId,
    circuit: bool,
) -> Turn
    ensures { (connect targets sent : List ℕ) → turned result (memory_of connect targets sent ledger.new) ≡ attribute_turn (whole (running j) (memory_of connect targets sent ledger.old)) at peer conn circuit }
{
    rows::known(ledger);
    let state = j.state();
    let claim = claim_for(j.core, conn, circuit);
    match ledger::attribute(ledger, conn, peer, circuit, claim, at) {
        Ok(found) => say(state, Said::Attributed(found)),
        Err(why) => say(state, Said::Refused(why)),
    }
}
