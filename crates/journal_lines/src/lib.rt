// One line of a journal, without its line feed: the settings, or a call. Each is read by its form (RULES.md, sections 12.4 and 12.5).
#![tactic(auto)]

ghost use Rattle.std.specs.Prelude.{◌≡◌};
ghost use Rattle.forms.specs.Tables.{ShareNoLine};
ghost use Rattle.journal_lines.specs.Forms.{forms};
ghost use Rattle.journal_lines.specs.Lines.{live_of, offer_of, kind_of, settings_in, start_of, up_of, input_of, tick_of, wrote_of, down_of, dial_of, forget_of, attribute_of, settings_of, line_of};
ghost use Rattle.journal_lines.specs.Texts.{SettingsAreRead, StartIsRead, UpIsRead, InputIsRead, TickIsRead, WroteIsRead, DownIsRead, DialIsRead, ForgetIsRead, AttributeIsRead};

use ids::{ConnectId, ConnectionId, NatToken, PeerId, StreamId};
use vocabulary::{Settings, StreamInput};

// Where hexadecimal digits stand in the line; none for `-`.
#[derive(Clone, Copy)]
pub struct Digits {
    pub start: usize,
    pub end: usize,
}

// `circuit` of an up and an attribute: whether `via` is circuit. `live`, `offer`, `pending` and `own` are the host's answers.
#[derive(Clone, Copy)]
pub enum Line {
    Start {
        at: u64,
        source: PeerId,
        relay: PeerId,
        circuit: ConnectionId,
    },
    Up {
        at: u64,
        peer: PeerId,
        conn: ConnectionId,
        circuit: bool,
        live: Option<ConnectionId>,
        offer: Option<(ConnectionId, StreamId)>,
        pending: bool,
        own: Digits,
    },
    Input {
        at: u64,
        stream: StreamId,
        kind: StreamInput,
        bytes: Digits,
        live: Option<ConnectionId>,
        offer: Option<(ConnectionId, StreamId)>,
        pending: bool,
        own: Digits,
    },
    Tick {
        at: u64,
        live: Option<ConnectionId>,
        offer: Option<(ConnectionId, StreamId)>,
        own: Digits,
    },
    Wrote {
        at: u64,
        conn: ConnectionId,
        stream: StreamId,
    },
    Down {
        at: u64,
        peer: PeerId,
        conn: ConnectionId,
    },
    Dial {
        at: u64,
        conn: ConnectionId,
        token: NatToken,
        id: ConnectId,
    },
    Forget {
        at: u64,
        conn: ConnectionId,
    },
    Attribute {
        at: u64,
        peer: PeerId,
        conn: ConnectionId,
        circuit: bool,
    },
}

// ---- values, from the words that a form hands out

// Room for the words of any of the forms: an input has 13.
type Words = [u64; 16];

fn digits_at(start: u64, end: u64) -> Digits
    ensures { result ≡ record { start = start; end = end } }
{
    Digits {
        start: start as usize,
        end: end as usize,
    }
}

// A value that may be none, by whether it was given.
fn live(given: u64, conn: u64) -> Option<ConnectionId>
    ensures { result ≡ live_of given conn }
{
    (given != 0).then_some(ConnectionId(conn))
}

fn offer(given: u64, conn: u64, stream: u64) -> Option<(ConnectionId, StreamId)>
    ensures { result ≡ offer_of given conn stream }
{
    (given != 0).then_some((ConnectionId(conn), StreamId(stream)))
}

// A form hands a word out as its place in the choice: of an input's `kind`, ready, data, end, closed.
fn kind(k: u64) -> StreamInput
    ensures { result ≡ kind_of k }
{
    match k {
        0 => StreamInput::Ready,
        1 => StreamInput::Data,
        2 => StreamInput::RemoteWriteClosed,
        _ => StreamInput::Closed,
    }
}

// ---- the first line

fn settings(w: &Words) -> Settings
    ensures { result ≡ settings_in w.now }
{
    let &[
        handshake,
        upgrade,
        exchange,
        punch,
        interval,
        payload,
        private,
        upgrades,
        ..
    ] = w;
    Settings {
        handshake,
        upgrade,
        exchange,
        punch,
        interval,
        payload,
        private: private == 1,
        upgrades: upgrades == 1,
    }
}

pub fn read_settings(line: &[u8]) -> Option<Settings>
    ensures { result ≡ settings_of line.now }
{
    let mut w = [0; 16];
    if forms::read_form(
        b"handshake=# upgrade=# exchange=# punch=# interval=# payload=# private=(0/1) upgrades=(0/1)",
        line,
        &mut w,
    ) {
        Some(settings(&w))
    } else {
        None
    }
}

// ---- the calls: a function for each form, since read_call with all their fields would be too long to read

fn start(w: &Words) -> Line
    ensures { result ≡ start_of w.now }
{
    let &[at, source, relay, circuit, ..] = w;
    Line::Start {
        at,
        source: PeerId(source),
        relay: PeerId(relay),
        circuit: ConnectionId(circuit),
    }
}

fn up(w: &Words) -> Line
    ensures { result ≡ up_of w.now }
{
    let &[
        at,
        peer,
        conn,
        via,
        has_live,
        live_conn,
        has_offer,
        offer_conn,
        offer_stream,
        pending,
        from,
        to,
        ..
    ] = w;
    Line::Up {
        at,
        peer: PeerId(peer),
        conn: ConnectionId(conn),
        circuit: via == 1,
        live: live(has_live, live_conn),
        offer: offer(has_offer, offer_conn, offer_stream),
        pending: pending == 1,
        own: digits_at(from, to),
    }
}

// Only the kind data may have bytes: of another with bytes it is no line.
fn input(w: &Words) -> Option<Line>
    ensures { result ≡ input_of w.now }
{
    let &[
        at,
        stream,
        k,
        start,
        end,
        has_live,
        live_conn,
        has_offer,
        offer_conn,
        offer_stream,
        pending,
        from,
        to,
        ..
    ] = w;
    let kind = kind(k);
    if start != end && !matches!(kind, StreamInput::Data) {
        return None;
    }
    Some(Line::Input {
        at,
        stream: StreamId(stream),
        kind,
        bytes: digits_at(start, end),
        live: live(has_live, live_conn),
        offer: offer(has_offer, offer_conn, offer_stream),
        pending: pending == 1,
        own: digits_at(from, to),
    })
}

fn tick(w: &Words) -> Line
    ensures { result ≡ tick_of w.now }
{
    let &[
        at,
        has_live,
        live_conn,
        has_offer,
        offer_conn,
        offer_stream,
        from,
        to,
        ..
    ] = w;
    Line::Tick {
        at,
        live: live(has_live, live_conn),
        offer: offer(has_offer, offer_conn, offer_stream),
        own: digits_at(from, to),
    }
}

fn wrote(w: &Words) -> Line
    ensures { result ≡ wrote_of w.now }
{
    let &[at, conn, stream, ..] = w;
    Line::Wrote {
        at,
        conn: ConnectionId(conn),
        stream: StreamId(stream),
    }
}

fn down(w: &Words) -> Line
    ensures { result ≡ down_of w.now }
{
    let &[at, peer, conn, ..] = w;
    Line::Down {
        at,
        peer: PeerId(peer),
        conn: ConnectionId(conn),
    }
}

fn dial(w: &Words) -> Line
    ensures { result ≡ dial_of w.now }
{
    let &[at, conn, token, id, ..] = w;
    Line::Dial {
        at,
        conn: ConnectionId(conn),
        token: NatToken(token),
        id: ConnectId(id),
    }
}

fn forget(w: &Words) -> Line
    ensures { result ≡ forget_of w.now }
{
    let &[at, conn, ..] = w;
    Line::Forget {
        at,
        conn: ConnectionId(conn),
    }
}

fn attribute(w: &Words) -> Line
    ensures { result ≡ attribute_of w.now }
{
    let &[at, peer, conn, via, ..] = w;
    Line::Attribute {
        at,
        peer: PeerId(peer),
        conn: ConnectionId(conn),
        circuit: via == 1,
    }
}

// A line behind the first. The forms share no line; those that most lines have are tried first.
pub fn read_call(line: &[u8]) -> Option<Line>
    ensures { result ≡ line_of line.now }
{
    let mut w = [0; 16];
    if forms::read_form(b"do=tick at=# live=* offer=: own=%", line, &mut w) {
        Some(tick(&w))
    } else if forms::read_form(
        b"do=input at=# stream=# kind=(ready/data/end/closed) data=% live=* offer=: pending=(0/1) own=%",
        line,
        &mut w,
    ) {
        input(&w)
    } else if forms::read_form(
        b"do=up at=# peer=# conn=# via=(direct/circuit) live=* offer=: pending=(0/1) own=%",
        line,
        &mut w,
    ) {
        Some(up(&w))
    } else if forms::read_form(
        b"do=attribute at=# peer=# conn=# via=(direct/circuit)",
        line,
        &mut w,
    ) {
        Some(attribute(&w))
    } else if forms::read_form(b"do=dial at=# conn=# token=# id=#", line, &mut w) {
        Some(dial(&w))
    } else if forms::read_form(b"do=forget at=# conn=#", line, &mut w) {
        Some(forget(&w))
    } else if forms::read_form(b"do=down at=# peer=# conn=#", line, &mut w) {
        Some(down(&w))
    } else if forms::read_form(b"do=start at=# source=# relay=# circuit=#", line, &mut w) {
        Some(start(&w))
    } else if forms::read_form(b"do=wrote at=# conn=# stream=#", line, &mut w) {
        Some(wrote(&w))
    } else {
        None
    }
}

// ---- laws of the forms

// Each line is read from its text.
pub fn calls_read_back()
    ensures settings { SettingsAreRead }
    ensures start { StartIsRead }
    ensures up { UpIsRead }
    ensures input { InputIsRead }
    ensures tick { TickIsRead }
    ensures wrote { WroteIsRead }
    ensures down { DownIsRead }
    ensures dial { DialIsRead }
    ensures forget { ForgetIsRead }
    ensures attribute { AttributeIsRead }
{}

// A line that two of the ten forms read shows them to be the same.
pub fn no_two_forms_share_a_line()
    ensures { ShareNoLine forms }
{}
