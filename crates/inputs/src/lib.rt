// What the exchange's stream brings (inbound.rs, `on_dcutr_stream_input`).
#![tactic(auto)]

ghost use Rattle.std.specs.Prelude.{◌≡◌};
ghost use Rattle.inputs.specs.Inputs.{closing, in_exchange, write_of, first_input, round_trip, window_of, open_window, replied, later_input, timely_input, exchange_input, input_at, went_out, is_data, awaits, frame_bytes};

use budget::UpgradeBudget;
use circuit::decision::{Decision, Fate, Message, Said};
use circuit::state::{ConnectWrite, Core, Phase};
use ids::{ConnectionId, StreamId};
use refusal::Refusal;
use schedule::{BlastSchedule, NewlyDue};
use upgrade::tick;
use vocabulary::{Host, StreamInput};

// What an input's bytes bring of the reply: so many frame bytes and no whole frame; a failure; or a CONNECT, with so many bytes of targets
// chosen from its addresses.
#[derive(Clone, Copy)]
pub enum Heard {
    More(usize),
    Failed,
    Connect { targets: usize },
}

#[tactic(auto, unfolding(crate::specs::Inputs::closing))]
fn is_closing(input: StreamInput) -> bool
    ensures { result ≡ closing input }
{
    matches!(input, StreamInput::RemoteWriteClosed | StreamInput::Closed)
}

// The running exchange.
#[derive(Clone, Copy)]
pub struct Running {
    pub conn: ConnectionId,
    pub stream: StreamId,
    pub count: usize,
    pub connect: ConnectWrite,
}

#[tactic(auto, unfolding(crate::specs::Inputs::in_exchange))]
fn in_exchange(c: Core, x: Running, count: usize, connect: ConnectWrite) -> Core
    ensures { result ≡ in_exchange c x count connect }
{
    c.with_phase(Phase::Exchange {
        conn: x.conn,
        stream: x.stream,
        count,
        connect,
    })
}

#[tactic(auto, unfolding(crate::specs::Inputs::write_of))]
fn write_of(pending: bool, at: u64) -> ConnectWrite
    ensures { result ≡ write_of pending at }
{
    if pending {
        ConnectWrite::Held
    } else {
        ConnectWrite::Sent { at }
    }
}

// CONNECT goes out with the first input, whatever that is; where it closes the stream the round has failed.
#[tactic(auto, unfolding(crate::specs::Inputs::first_input, crate::specs::Inputs::closing))]
fn first_input(c: Core, host: Host, x: Running, closing: bool, pending: bool) -> Decision
    ensures { result ≡ first_input c host x closing pending }
{
    let message = Some(Message::Connect(c.connect));
    let said = Said::silent().sending(x.conn, x.stream, message, closing);
    if closing {
        return rounds::fail_round(c, host, said);
    }
    let sent = in_exchange(c, x, x.count, write_of(pending, host.at));
    Decision::decided(sent, Fate::Kept, said, None)
}

#[tactic(auto, unfolding(crate::specs::Inputs::round_trip))]
fn round_trip(connect: ConnectWrite, now: u64) -> u64
    ensures { result ≡ round_trip connect now }
{
    match connect {
        ConnectWrite::Sent { at } => time::saturating_sub(now, at),
        _ => 0,
    }
}

// A window's end, the instants due with the reply, and the schedule of the others.
#[derive(Clone, Copy)]
pub struct Window {
    pub until: u64,
    pub due: NewlyDue,
}

#[tactic(auto, unfolding(crate::specs::Inputs::window_of))]
fn window_of(budget: UpgradeBudget, interval: u64, connect: ConnectWrite, at: u64) -> Window
    ensures { result ≡ window_of budget interval connect at }
{
    let rtt = round_trip(connect, at);
    let start = schedule::blast_start(at, rtt);
    let until = budget.punch_window_end(start);
    Window {
        until,
        due: BlastSchedule::open(start, until, interval, rtt),
    }
}

// SYNC goes out and the punch window opens; an instant that is due with the reply goes out before SYNC.
#[tactic(auto, unfolding(crate::specs::Inputs::open_window))]
fn open_window(c: Core, at: u64, x: Running, targets: usize) -> Decision
    ensures { result ≡ open_window c at x targets }
{
    let window = window_of(c.budget, c.settings.interval, x.connect, at);
    let due = window.due;
    let said = Said::burst(due.times, c.settings.payload, targets).sending(
        x.conn,
        x.stream,
        Some(Message::Sync),
        true,
    );
    let ended = c.budget.end_exchange();
    let d = c.punching(ended, window.until, due.schedule, targets);
    Decision::decided(d, Fate::Opened(c.budget.deadline), said, None)
}

// The reply, as far as it was heard.
fn reply(c: Core, host: Host, x: Running, heard: Option<Heard>, full: bool) -> Decision
    ensures { result ≡ replied c host x full heard }
{
    match heard {
        None => Decision::quiet(c),
        Some(Heard::More(n)) => Decision::quiet(in_exchange(c, x, n, x.connect)),
        Some(Heard::Failed) => rounds::fail_round(c, host, Said::reset(x.conn, x.stream)),
        Some(Heard::Connect { .. }) if full => Decision::refused(c, Refusal::LedgerFull),
        Some(Heard::Connect { targets }) => open_window(c, host.at, x, targets),
    }
}

// CONNECT has gone out: the stream brings the reply, or it closes.
fn later_input(
    c: Core,
    host: Host,
    x: Running,
    input: StreamInput,
    heard: Option<Heard>,
    full: bool,
) -> Decision
    ensures { result ≡ later_input c host x heard full input }
{
    match input {
        StreamInput::Ready => Decision::quiet(c),
        StreamInput::Data => reply(c, host, x, heard, full),
        StreamInput::RemoteWriteClosed | StreamInput::Closed => {
            rounds::fail_round(c, host, Said::reset(x.conn, x.stream))
        }
    }
}

// An input on the running exchange's stream before the exchange's end.
fn timely_input(
    c: Core,
    host: Host,
    x: Running,
    input: StreamInput,
    pending: bool,
    heard: Option<Heard>,
    full: bool,
) -> Decision
    ensures { result ≡ timely_input c host x input pending heard full x.connect }
{
    match x.connect {
        ConnectWrite::Unsent => first_input(c, host, x, is_closing(input), pending),
        _ => later_input(c, host, x, input, heard, full),
    }
}

// An input can come before the tick that would have ended the exchange or the upgrade: then it does that tick.
#[tactic(auto, unfolding(crate::specs::Inputs::exchange_input, budget::specs::Budget::due_at))]
fn exchange_input(
    c: Core,
    host: Host,
    x: Running,
    input: StreamInput,
    pending: bool,
    heard: Option<Heard>,
    full: bool,
) -> Decision
    ensures { result ≡ exchange_input c host x input pending heard full }
{
    match c.budget.due(host.at) {
        None => timely_input(c, host, x, input, pending, heard, full),
        Some(_) => tick::tick_exchange(c, host, x.conn, x.stream),
    }
}

// An input on any stream. `heard` is what its bytes bring of the reply, nothing where they are not the reply's, and `full` says that the
// source has no ledger window and there is no room for one.
pub fn input(
    c: Core,
    host: Host,
    stream: StreamId,
    input: StreamInput,
    pending: bool,
    heard: Option<Heard>,
    full: bool,
) -> Decision
    ensures { result ≡ input_at c host stream input pending heard full c.phase }
{
    match c.phase {
        Phase::Exchange {
            conn,
            stream: on,
            count,
            connect,
        } if on == stream => {
            let x = Running {
                conn,
                stream,
                count,
                connect,
            };
            exchange_input(c, host, x, input, pending, heard, full)
        }
        _ => Decision::quiet(c),
    }
}

// ---- whether bytes are the reply's

fn went_out(connect: ConnectWrite) -> bool
    ensures { result ≡ went_out connect }
{
    !matches!(connect, ConnectWrite::Unsent)
}

fn is_data(input: StreamInput) -> bool
    ensures { result ≡ is_data input }
{
    matches!(input, StreamInput::Data)
}

// Data on the exchange's stream that comes in time, once CONNECT has gone out.
#[tactic(auto, unfolding(crate::specs::Inputs::awaits_in))]
pub fn awaits_reply(c: Core, at: u64, stream: StreamId, input: StreamInput) -> bool
    ensures { result ≡ awaits c at stream input c.phase }
{
    match c.phase {
        Phase::Exchange {
            stream: on,
            connect,
            ..
        } => {
            on == stream && at < c.budget.next_deadline() && went_out(connect) && is_data(input)
        }
        _ => false,
    }
}

// How many bytes of the reply's frame are in the buffer.
pub fn frame_bytes(phase: Phase) -> usize
    ensures { result ≡ frame_bytes phase }
{
    match phase {
        Phase::Exchange { count, .. } => count,
        _ => 0,
    }
}
