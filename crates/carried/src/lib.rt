// A decision carried out on what was lent: the message for the host, the source's ledger window, the CONNECT of a round that opens, and
// the targets of a window that opens (inbound.rs).
#![tactic(auto)]

ghost use Rattle.std.specs.Prelude.{◌≡◌, length};
ghost use Rattle.frames.specs.Sent.{frame_capacity};
ghost use Rattle.candidates.specs.Selection.{capacity};
ghost use Rattle.ledger.specs.Ledger.{tables_of, laid};
ghost use Rattle.carried.specs.Carried.{sent_after, ledger_after, opens, connect_after, framed_by, targets_after};

use candidates::{Chosen, Terms};
use circuit::decision::{Decision, Fate, Message};
use circuit::state::Core;
use frames::FrameBytes;
use ids::PeerId;
use ledger::Ledger;
use vocabulary::Effect;

// The bytes of the punch window's targets.
pub type TargetBytes = [u8; candidates::CAPACITY];

// The message, as bytes for the host.
#[tactic(auto, unfolding(crate::specs::Carried::sent_after))]
fn send(message: Option<Message>, connect: &FrameBytes, sent: &mut FrameBytes)
    ensures { sent.new ≡ sent_after connect.now sent.old message }
{
    match message {
        None => {}
        Some(Message::Connect(_)) => *sent = *connect,
        Some(Message::Sync) => {
            let sync = frames::sync_frame();
            let bytes = sync.bytes;
            *sent = bytes;
        }
    }
}

fn settle_window(ledger: &mut Ledger, source: PeerId, window: Fate)
    ensures tables { tables_of ledger.new ≡ ledger_after source (tables_of ledger.old) window }
    ensures words { ledger.new ≡ laid (ledger_after source (tables_of ledger.old) window) ledger.old }
{
    match window {
        Fate::Kept => rows::known(ledger),
        Fate::Removed => ledger::end_punches(ledger, source),
        Fate::Opened(until) => {
            // The call was refused before, where the ledger has no room.
            let _ = ledger::expect_punches(ledger, source, until);
        }
    }
}

#[tactic(auto, unfolding(crate::specs::Carried::opens))]
fn is_open(effect: Option<Effect>) -> bool
    ensures { result ≡ opens effect }
{
    matches!(effect, Some(Effect::Open { .. }))
}

// Where a round opens its CONNECT is written: the candidates of the own list.
fn write_connect(d: Decision, terms: Terms, own: &[u8], connect: &mut FrameBytes) -> Decision
    ensures answer { result ≡ framed_by terms own.now d }
    ensures connect { connect.new ≡ connect_after terms own.now connect.old d.fourth }
{
    if is_open(d.fourth) {
        let framed = frames::own_connect(own, terms.limits);
        let bytes = framed.bytes;
        *connect = bytes;
        let core = Core {
            connect: framed.len,
            ..d.core
        };
        return Decision { core, ..d };
    }
    d
}

// The message goes out before a round that opens writes its own CONNECT.
#[tactic(auto, unfolding(crate::specs::Carried::framed_by, crate::specs::Carried::connect_after, crate::specs::Carried::sent_after, crate::specs::Carried::ledger_after, ledger::specs::Ledger::laid))]
pub fn carry_out(
    d: Decision,
    source: PeerId,
    terms: Terms,
    own: &[u8],
    connect: &mut FrameBytes,
    sent: &mut FrameBytes,
    ledger: &mut Ledger,
) -> Decision
    ensures answer { result ≡ framed_by terms own.now d }
    ensures connect { connect.new ≡ connect_after terms own.now connect.old d.fourth }
    ensures sent { sent.new ≡ sent_after connect.old sent.old d.message }
    ensures tables { tables_of ledger.new ≡ ledger_after source (tables_of ledger.old) d.window }
    ensures words { ledger.new ≡ laid (ledger_after source (tables_of ledger.old) d.window) ledger.old }
{
    send(d.message, connect, sent);
    settle_window(ledger, source, d.window);
    write_connect(d, terms, own, connect)
}

// Where a window opens the reply's targets are its own.
#[tactic(auto, unfolding(crate::specs::Carried::targets_after))]
pub fn take_targets(window: Fate, chosen: Chosen, targets: &mut TargetBytes)
    ensures { targets.new ≡ targets_after targets.old chosen window }
{
    if let Fate::Opened(_) = window {
        let bytes = chosen.bytes;
        *targets = bytes;
    }
}
