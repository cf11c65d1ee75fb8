// What a journal's lines do, one after the other. The journal's numbers go in by value and come back with what is to be said; its memory is
// lent, and so is the reply buffer.
#![tactic(auto)]

ghost use Rattle.std.specs.Prelude.{◌≡◌, ◌<◌, ◌*◌, ◌≤◌, length, take, Some};
ghost use Rattle.text.specs.Printed.{printed, behind};
ghost use Rattle.lines.specs.Lines.{longest};
ghost use Rattle.journal_calls.specs.Calls.{whole, running, state_of, turned, new_journal, up_turn, input_turn, tick_turn};
ghost use Rattle.journal_turns.specs.Turns.{digits_bytes, IsRoom, running_in, turn_of, line_turn};

use circuit::state::Core;
use ids::{ConnectionId, PeerId, StreamId};
use journal_calls::{Memory, Running, Said, State, Turn};
use journal_lines::{Digits, Line};
use refusal::Refusal;
use vocabulary::{Host, Settings, StreamInput};

// ---- the state

// No circuit, and its memory is blank.
#[tactic(auto, unfolding(journal_calls::specs::Calls::new_journal))]
pub fn new_journal(settings: Settings) -> State
    ensures { result ≡ state_of (new_journal settings) }
{
    State {
        n: 0,
        settings,
        core: None,
    }
}

fn running_in(j: State, core: Core) -> Running
    ensures { result ≡ running_in j core }
{
    Running {
        n: j.n,
        settings: j.settings,
        core,
    }
}

// ---- what a line hands to its call

// The bytes that hexadecimal digits of the line stand for, from the first of `out` on; the answer is how many there are. Two digits make a
// byte, so half a line's length is room for all.
fn read_digits(line: &[u8], digits: Digits, out: &mut [u8]) -> usize
    ensures bytes { out.new ≡ printed out.old 0 (digits_bytes line.now digits) }
    ensures place { result ≡ behind out.old 0 (digits_bytes line.now digits) }
    ensures bound { result ≤ length out.old }
    ensures whole { length line.now < 2 * length out.old → take result out.new ≡ digits_bytes line.now digits }
{
    let start = digits.start;
    let end = digits.end.min(line.len());
    if end <= start {
        return 0;
    }
    text::read_hexadecimal(&line[start..end], out, 0)
}

// ---- the calls, with room for N bytes of a line
// That N is room ties a line, which no type knows, to a constant parameter: so it is asked of these private functions. take_call picks the N.

fn up_line<const N: usize>(
    line: &[u8],
    j: Running,
    m: &mut Memory,
    host: Host,
    own: Digits,
    peer: PeerId,
    conn: ConnectionId,
    circuit: bool,
) -> Turn
    requires { IsRoom N line.now }
    ensures { turned result m.new ≡ up_turn (whole (running j) m.old) host (digits_bytes line.now own) peer conn circuit }
{
    let mut list = [0u8; N];
    let n = read_digits(line, own, &mut list);
    journal_calls::up_turn(
        j,
        &mut m.connect,
        &mut m.sent,
        &mut m.ledger,
        host,
        &list[..n],
        peer,
        conn,
        circuit,
    )
}

fn input_line<const N: usize>(
    line: &[u8],
    j: Running,
    m: &mut Memory,
    reply: &mut [u8],
    host: Host,
    own: Digits,
    stream: StreamId,
    kind: StreamInput,
    bytes: Digits,
    pending: bool,
) -> Turn
    requires { IsRoom N line.now }
    ensures turn { turned result m.new ≡ (input_turn (whole (running j) m.old) host (digits_bytes line.now own) reply.old stream kind (digits_bytes line.now bytes) pending).turn }
    ensures reply { reply.new ≡ (input_turn (whole (running j) m.old) host (digits_bytes line.now own) reply.old stream kind (digits_bytes line.now bytes) pending).reply }
{
    let mut list = [0u8; N];
    let n = read_digits(line, own, &mut list);
    let mut heard = [0u8; N];
    let k = read_digits(line, bytes, &mut heard);
    journal_calls::input_turn(
        j,
        &mut m.connect,
        &mut m.targets,
        &mut m.sent,
        &mut m.ledger,
        reply,
        host,
        &list[..n],
        stream,
        kind,
        &heard[..k],
        pending,
    )
}

fn tick_line<const N: usize>(
    line: &[u8],
    j: Running,
    m: &mut Memory,
    host: Host,
    own: Digits,
) -> Turn
    requires { IsRoom N line.now }
    ensures { turned result m.new ≡ tick_turn (whole (running j) m.old) host (digits_bytes line.now own) }
{
    let mut list = [0u8; N];
    let n = read_digits(line, own, &mut list);
    journal_calls::tick_turn(
        j,
        &mut m.connect,
        &mut m.sent,
        &mut m.ledger,
        host,
        &list[..n],
    )
}

// ---- a line

// Any call but start is refused until a start was accepted. It is long for the fields alone, one call to an arm; a part of it would have to
// rule out the lines of the other parts.
#[tactic(auto, unfolding(crate::specs::Turns::turn_of, crate::specs::Turns::host_of, journal_calls::specs::Calls::refused, journal_calls::specs::Calls::saying), using(journal_calls::proofs::Plain::wrote_left, journal_calls::proofs::Plain::down_left))]
fn make_call<const N: usize>(
    line: &[u8],
    j: State,
    m: &mut Memory,
    reply: &mut [u8],
    call: Line,
) -> Turn
    requires { IsRoom N line.now }
    ensures turn { turned result m.new ≡ (turn_of line.now (whole j m.old) reply.old (Some call)).turn }
    ensures reply { reply.new ≡ (turn_of line.now (whole j m.old) reply.old (Some call)).reply }
{
    match (call, j.core) {
        (
            Line::Start {
                at,
                source,
                relay,
                circuit,
            },
            _,
        ) => journal_calls::start_turn(
            j,
            &mut m.connect,
            &mut m.targets,
            at,
            source,
            relay,
            circuit,
        ),
        (_, None) => journal_calls::say(j, Said::Refused(Refusal::NotStarted)),
        (
            Line::Up {
                at,
                peer,
                conn,
                circuit,
                live,
                offer,
                own,
                ..
            },
            Some(core),
        ) => up_line::<N>(
            line,
            running_in(j, core),
            m,
            Host { at, live, offer },
            own,
            peer,
            conn,
            circuit,
        ),
        (
            Line::Input {
                at,
                stream,
                kind,
                bytes,
                live,
                offer,
                pending,
                own,
            },
            Some(core),
        ) => input_line::<N>(
            line,
            running_in(j, core),
            m,
            reply,
            Host { at, live, offer },
            own,
            stream,
            kind,
            bytes,
            pending,
        ),
        (
            Line::Tick {
                at,
                live,
                offer,
                own,
            },
            Some(core),
        ) => tick_line::<N>(line, running_in(j, core), m, Host { at, live, offer }, own),
        (Line::Wrote { at, conn, stream }, Some(core)) => {
            journal_calls::wrote_turn(running_in(j, core), at, conn, stream)
        }
        (Line::Down { conn, .. }, Some(core)) => {
            journal_calls::down_turn(running_in(j, core), conn)
        }
        (
            Line::Dial {
                conn,
                token,
                id,
                ..
            },
            Some(_),
        ) => journal_calls::dial_turn(j, &mut m.ledger, conn, token, id),
        (Line::Forget { conn, .. }, Some(_)) => {
            journal_calls::forget_turn(j, &mut m.ledger, conn)
        }
        (
            Line::Attribute {
                at,
                peer,
                conn,
                circuit,
            },
            Some(core),
        ) => journal_calls::attribute_turn(
            running_in(j, core),
            &mut m.ledger,
            at,
            peer,
            conn,
            circuit,
        ),
    }
}

// Few lines are longer than this. The bytes of the others need less room, and to clear the room for any line takes as long as all else.
const SHORT: usize = 1024;

const FEW: usize = SHORT / 2;

const MANY: usize = lines::LONGEST / 2;

#[tactic(auto, unfolding(crate::specs::Turns::turn_of, journal_calls::specs::Calls::refused, journal_calls::specs::Calls::saying))]
fn take_call(line: &[u8], j: State, m: &mut Memory, reply: &mut [u8], call: Option<Line>) -> Turn
    requires { length line.now < longest }
    ensures turn { turned result m.new ≡ (turn_of line.now (whole j m.old) reply.old call).turn }
    ensures reply { reply.new ≡ (turn_of line.now (whole j m.old) reply.old call).reply }
{
    match call {
        None => journal_calls::say(j, Said::Refused(Refusal::UnknownLine)),
        Some(call) if line.len() < SHORT => make_call::<FEW>(line, j, m, reply, call),
        Some(call) => make_call::<MANY>(line, j, m, reply, call),
    }
}

// A line behind the first, without its line feed; `ended` is whether it had one.
#[tactic(auto, unfolding(crate::specs::Turns::line_turn, crate::specs::Turns::turn_of, crate::specs::Turns::read, crate::specs::Turns::counted, journal_calls::specs::Calls::refused, journal_calls::specs::Calls::saying))]
pub fn take_line(j: State, m: &mut Memory, reply: &mut [u8], line: &[u8], ended: bool) -> Turn
    ensures turn { turned result m.new ≡ (line_turn (whole j m.old) reply.old line.now ended).turn }
    ensures reply { reply.new ≡ (line_turn (whole j m.old) reply.old line.now ended).reply }
{
    let next = State {
        n: time::saturating_add(j.n, 1),
        ..j
    };
    if ended && line.len() < lines::LONGEST {
        let call = journal_lines::read_call(line);
        return take_call(line, next, m, reply, call);
    }
    journal_calls::say(next, Said::Refused(Refusal::UnknownLine))
}
