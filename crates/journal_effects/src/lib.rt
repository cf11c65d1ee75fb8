// What the journal prints of a circuit's answer: an output line for each effect, in order, or the line `none`.
#![tactic(auto)]

ghost use Rattle.std.specs.Prelude.{◌≡◌, ◌*◌, ◌≤◌, length, Some};
ghost use Rattle.text.specs.Printed.{page, with_text};
ghost use Rattle.frames.specs.Sent.{frame_capacity};
ghost use Rattle.candidates.specs.Selection.{capacity};
ghost use Rattle.journal_prints.specs.Room.{room};
ghost use Rattle.journal_effects.specs.Effects.{first, effect_text, no_effect, lines_text, effects_text};

use frames::FrameBytes;
use lent::TargetBytes;
use text::Printer;
use vocabulary::Effect;

// `message` is how many bytes are sent, `targets` how many are those of the burst's targets; the bytes are lent. `took` is whether the circuit
// took an established connection: an answer that no line is printed of.
#[derive(Clone, Copy)]
pub struct Effects {
    pub first: Option<Effect>,
    pub second: Option<Effect>,
    pub third: Option<Effect>,
    pub fourth: Option<Effect>,
    pub message: usize,
    pub targets: usize,
    pub took: bool,
}

// The bytes of a message that goes out, or of a target list. A circuit may say that there are more than the room has.
fn first<const N: usize>(len: usize, bytes: &[u8; N]) -> &[u8]
    ensures bytes { result.now ≡ first N len bytes.now }
    ensures short { length result.now ≤ N }
{
    &bytes[..len.min(N)]
}

fn put_effect(n: u64, effect: Effect, message: &[u8], targets: &[u8], printer: &mut Printer<'_>)
    requires { (length message.now ≤ frame_capacity) × (length targets.now ≤ capacity) }
    ensures bytes { page printer.new ≡ with_text (page printer.old) (effect_text n message.now targets.now (Some effect)) }
    ensures short { length (effect_text n message.now targets.now (Some effect)) ≤ room }
{
    match effect {
        Effect::Path { peer, relay, conn } => {
            text::in_range(peer.0, relay.0, conn.0);
            journal_prints::put_path(n, peer, relay, conn, printer);
        }
        Effect::Burst { times, payload } => {
            text::in_range(n, times, payload);
            journal_prints::put_burst(n, times, payload, targets, printer);
        }
        Effect::Upgrade { peer, old, new } => {
            text::in_range(peer.0, old.0, new.0);
            journal_prints::put_upgrade(n, peer, old, new, printer);
        }
        Effect::Close { conn } => {
            text::in_range(n, n, conn.0);
            journal_prints::put_close(n, conn, printer);
        }
        Effect::Send { conn, stream } => {
            text::in_range(n, conn.0, stream.0);
            journal_prints::put_send(n, conn, stream, message, printer);
        }
        Effect::Reset { conn, stream } => {
            text::in_range(n, conn.0, stream.0);
            journal_prints::put_reset(n, conn, stream, printer);
        }
        Effect::Open { conn, stream } => {
            text::in_range(n, conn.0, stream.0);
            journal_prints::put_open(n, conn, stream, printer);
        }
    }
}

// The line of an effect; none of one that is missing.
#[tactic(auto, using(text::proofs::Printing::with_none))]
fn put_line(
    n: u64,
    effect: Option<Effect>,
    message: &[u8],
    targets: &[u8],
    printer: &mut Printer<'_>,
)
    requires { (length message.now ≤ frame_capacity) × (length targets.now ≤ capacity) }
    ensures bytes { page printer.new ≡ with_text (page printer.old) (effect_text n message.now targets.now effect) }
    ensures short { length (effect_text n message.now targets.now effect) ≤ room }
{
    if let Some(effect) = effect {
        put_effect(n, effect, message, targets, printer);
    }
}

#[tactic(auto, unfolding(crate::specs::Effects::no_effect))]
fn is_empty(effects: Effects) -> bool
    ensures { result ≡ no_effect effects }
{
    effects.first.is_none()
        && effects.second.is_none()
        && effects.third.is_none()
        && effects.fourth.is_none()
}

#[tactic(auto, using(text::proofs::Printing::with_texts), unfolding(crate::specs::Effects::lines_text))]
fn put_lines(
    n: u64,
    effects: Effects,
    sent: &FrameBytes,
    aims: &TargetBytes,
    printer: &mut Printer<'_>,
)
    ensures bytes { page printer.new ≡ with_text (page printer.old) (lines_text n effects sent.now aims.now) }
    ensures short { length (lines_text n effects sent.now aims.now) ≤ 4 * room }
{
    let message = first(effects.message, sent);
    let targets = first(effects.targets, aims);
    put_line(n, effects.first, message, targets, printer);
    put_line(n, effects.second, message, targets, printer);
    put_line(n, effects.third, message, targets, printer);
    put_line(n, effects.fourth, message, targets, printer);
}

// `sent` has the message's bytes, `aims` those of the targets.
#[tactic(auto, unfolding(crate::specs::Effects::effects_text))]
pub fn put_effects(
    n: u64,
    effects: Effects,
    sent: &FrameBytes,
    aims: &TargetBytes,
    printer: &mut Printer<'_>,
)
    ensures bytes { page printer.new ≡ with_text (page printer.old) (effects_text n effects sent.now aims.now) }
    ensures short { length (effects_text n effects sent.now aims.now) ≤ 4 * room }
{
    if is_empty(effects) {
        journal_prints::put_none(n, printer);
    } else {
        put_lines(n, effects, sent, aims, printer);
    }
}
