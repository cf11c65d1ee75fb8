// The calls of a circuit whose bytes are lent: `connect`, the round's CONNECT; `targets`, those of the punch window; `sent`, where the message
// that goes out is put; and the path ledger. Each answers the core that it leaves.
ghost use Rattle.std.specs.Prelude.{◌≡◌, is_ok};
ghost use Rattle.prelude.specs.Choice.{pick};
ghost use Rattle.frames.specs.Gathering.{gathered_into};
ghost use Rattle.ledger.specs.Ledger.{tables_of, laid, refuses_punches};
ghost use Rattle.circuit.specs.State.{terms_of};
ghost use Rattle.inputs.specs.Inputs.{frame_bytes};
ghost use Rattle.carried.specs.Carried.{sent_after, ledger_after, connect_after, targets_after, no_frame, no_aims};
ghost use Rattle.lent.specs.Calls.{up_in, up_of, tick_in, tick_of, peeked, hearing, input_in, input_of, buffer_after};

use crate::{TargetBytes, reply};
use candidates::Chosen;
use circuit::decision::Decision;
use circuit::state;
use circuit::state::Core;
use frames::FrameBytes;
use ids::{ConnectionId, PeerId, StreamId};
use ledger::Ledger;
use refusal::Refusal;
use upgrade::{tick, up};
use vocabulary::{Host, StreamInput};

// ---- input

// The bytes of an accepted call are stored.
fn store(accepted: bool, bytes: &[u8], buffer: &mut [u8], count: usize)
    ensures { buffer.new ≡ pick accepted (gathered_into bytes.now buffer.old count) buffer.old }
{
    if accepted {
        frames::gather(bytes, buffer, count);
    }
}

// Bytes of the reply: what they bring decides, and then they are stored.
fn hear(
    c: Core,
    targets: &mut TargetBytes,
    ledger: &Ledger,
    buffer: &mut [u8],
    host: Host,
    stream: StreamId,
    input: StreamInput,
    bytes: &[u8],
    pending: bool,
) -> Decision
    ensures answer { result ≡ hearing c (refuses_punches (tables_of ledger.now) c.source) host buffer.old stream input bytes.now pending }
    ensures targets { targets.new ≡ targets_after targets.old (peeked c buffer.old bytes.now).targets (hearing c (refuses_punches (tables_of ledger.now) c.source) host buffer.old stream input bytes.now pending).window }
    ensures buffer { buffer.new ≡ pick (is_ok (hearing c (refuses_punches (tables_of ledger.now) c.source) host buffer.old stream input bytes.now pending).outcome) (gathered_into bytes.now buffer.old (frame_bytes c.phase)) buffer.old }
{
    let count = inputs::frame_bytes(c.phase);
    let peeked = reply::peek_data(bytes, buffer, count, state::terms(c.settings));
    let chosen = peeked.targets;
    let full = ledger::refuses_punches(ledger, c.source);
    let d = inputs::input(c, host, stream, input, pending, Some(peeked.heard), full);
    store(d.outcome.is_ok(), bytes, buffer, count);
    carried::take_targets(d.window, chosen, targets);
    d
}

fn input_in(
    c: Core,
    targets: &mut TargetBytes,
    ledger: &Ledger,
    buffer: &mut [u8],
    host: Host,
    own: &[u8],
    stream: StreamId,
    input: StreamInput,
    bytes: &[u8],
    pending: bool,
) -> Decision
    ensures answer { result ≡ input_in c (refuses_punches (tables_of ledger.now) c.source) host own.now buffer.old stream input bytes.now pending }
    ensures targets { targets.new ≡ targets_after targets.old (peeked c buffer.old bytes.now).targets (input_in c (refuses_punches (tables_of ledger.now) c.source) host own.now buffer.old stream input bytes.now pending).window }
    ensures buffer { buffer.new ≡ buffer_after c host.at buffer.old stream input bytes.now (input_in c (refuses_punches (tables_of ledger.now) c.source) host own.now buffer.old stream input bytes.now pending).outcome }
{
    if buffer.len() < wire::MAX_FRAME_SIZE {
        return Decision::refused(c, Refusal::ReplyBufferTooShort);
    }
    match checks::checked(c.phase, host.offer, own) {
        Err(why) => Decision::refused(c, why),
        Ok(()) if inputs::awaits_reply(c, host.at, stream, input) => {
            hear(
                c, targets, ledger, buffer, host, stream, input, bytes, pending,
            )
        }
        Ok(()) => inputs::input(c, host, stream, input, pending, None, false),
    }
}

// ---- up and tick

#[tactic(auto, unfolding(crate::specs::Calls::up_in))]
fn up_in(
    c: Core,
    host: Host,
    own: &[u8],
    peer: PeerId,
    conn: ConnectionId,
    relayed: bool,
) -> Decision
    ensures { result ≡ up_in c host own.now peer conn relayed }
{
    match checks::checked(c.phase, host.offer, own) {
        Err(why) => Decision::refused(c, why),
        Ok(()) => up::up(c, host, peer, conn, relayed),
    }
}

#[tactic(auto, unfolding(crate::specs::Calls::tick_in))]
fn tick_in(c: Core, host: Host, own: &[u8]) -> Decision
    ensures { result ≡ tick_in c host own.now }
{
    match checks::checked(c.phase, host.offer, own) {
        Err(why) => Decision::refused(c, why),
        Ok(()) => tick::tick(c, host),
    }
}

// ---- the calls

// The bytes that a circuit begins with.
pub fn clear(connect: &mut FrameBytes, targets: &mut TargetBytes)
    ensures connect { connect.new ≡ no_frame }
    ensures targets { targets.new ≡ no_aims }
{
    let frame = frames::blank();
    *connect = frame;
    let none = Chosen::empty();
    let aims = none.bytes;
    *targets = aims;
}

pub fn on_connection_established(
    c: Core,
    connect: &mut FrameBytes,
    sent: &mut FrameBytes,
    ledger: &mut Ledger,
    host: Host,
    own: &[u8],
    peer: PeerId,
    conn: ConnectionId,
    relayed: bool,
) -> Decision
    ensures answer { result ≡ up_of c host own.now peer conn relayed }
    ensures connect { connect.new ≡ connect_after (terms_of c.settings) own.now connect.old (up_of c host own.now peer conn relayed).fourth }
    ensures sent { sent.new ≡ sent_after connect.old sent.old (up_of c host own.now peer conn relayed).message }
    ensures tables { tables_of ledger.new ≡ ledger_after c.source (tables_of ledger.old) (up_of c host own.now peer conn relayed).window }
    ensures words { ledger.new ≡ laid (ledger_after c.source (tables_of ledger.old) (up_of c host own.now peer conn relayed).window) ledger.old }
{
    let d = up_in(c, host, own, peer, conn, relayed);
    let terms = state::terms(c.settings);
    carried::carry_out(d, c.source, terms, own, connect, sent, ledger)
}

pub fn on_tick(
    c: Core,
    connect: &mut FrameBytes,
    sent: &mut FrameBytes,
    ledger: &mut Ledger,
    host: Host,
    own: &[u8],
) -> Decision
    ensures answer { result ≡ tick_of c host own.now }
    ensures connect { connect.new ≡ connect_after (terms_of c.settings) own.now connect.old (tick_of c host own.now).fourth }
    ensures sent { sent.new ≡ sent_after connect.old sent.old (tick_of c host own.now).message }
    ensures tables { tables_of ledger.new ≡ ledger_after c.source (tables_of ledger.old) (tick_of c host own.now).window }
    ensures words { ledger.new ≡ laid (ledger_after c.source (tables_of ledger.old) (tick_of c host own.now).window) ledger.old }
{
    let d = tick_in(c, host, own);
    let terms = state::terms(c.settings);
    carried::carry_out(d, c.source, terms, own, connect, sent, ledger)
}

pub fn on_dcutr_stream_input(
    c: Core,
    connect: &mut FrameBytes,
    targets: &mut TargetBytes,
    sent: &mut FrameBytes,
    ledger: &mut Ledger,
    buffer: &mut [u8],
    host: Host,
    own: &[u8],
    stream: StreamId,
    input: StreamInput,
    bytes: &[u8],
    pending: bool,
) -> Decision
    ensures answer { result ≡ input_of c (refuses_punches (tables_of ledger.old) c.source) host own.now buffer.old stream input bytes.now pending }
    ensures connect { connect.new ≡ connect_after (terms_of c.settings) own.now connect.old (input_of c (refuses_punches (tables_of ledger.old) c.source) host own.now buffer.old stream input bytes.now pending).fourth }
    ensures targets { targets.new ≡ targets_after targets.old (peeked c buffer.old bytes.now).targets (input_of c (refuses_punches (tables_of ledger.old) c.source) host own.now buffer.old stream input bytes.now pending).window }
    ensures sent { sent.new ≡ sent_after connect.old sent.old (input_of c (refuses_punches (tables_of ledger.old) c.source) host own.now buffer.old stream input bytes.now pending).message }
    ensures tables { tables_of ledger.new ≡ ledger_after c.source (tables_of ledger.old) (input_of c (refuses_punches (tables_of ledger.old) c.source) host own.now buffer.old stream input bytes.now pending).window }
    ensures words { ledger.new ≡ laid (ledger_after c.source (tables_of ledger.old) (input_of c (refuses_punches (tables_of ledger.old) c.source) host own.now buffer.old stream input bytes.now pending).window) ledger.old }
    ensures buffer { buffer.new ≡ buffer_after c host.at buffer.old stream input bytes.now (input_of c (refuses_punches (tables_of ledger.old) c.source) host own.now buffer.old stream input bytes.now pending).outcome }
{
    let d = input_in(
        c, targets, ledger, buffer, host, own, stream, input, bytes, pending,
    );
    let terms = state::terms(c.settings);
    carried::carry_out(d, c.source, terms, own, connect, sent, ledger)
}
