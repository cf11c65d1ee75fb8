// What a call decides, before any byte is written: the core behind it, its effects, and what becomes of the source's ledger window.
ghost use Rattle.std.specs.Prelude.{◌≡◌};
ghost use Rattle.circuit.specs.Decisions.{silence, event_of, reset_of, burst_of, sending_of, decided_of, quiet_of, refused_of};
ghost use Rattle.circuit.specs.Decisions.{length_of};

use crate::state::Core;
use ids::{ConnectionId, StreamId};
use refusal::Refusal;
use vocabulary::Effect;

// The source's ledger window is as it was, is removed, or is opened or extended to a time.
#[derive(Clone, Copy)]
pub enum Fate {
    Kept,
    Removed,
    Opened(u64),
}

// The message that goes out, if one does: CONNECT has so many bytes.
#[derive(Clone, Copy)]
pub enum Message {
    Connect(usize),
    Sync,
}

// What a call says before it is known whether a round opens: the first three effects, and the message.
#[derive(Clone, Copy)]
pub struct Said {
    pub first: Option<Effect>,
    pub second: Option<Effect>,
    pub third: Option<Effect>,
    pub message: Option<Message>,
}

// The effects in order: a path, burst, upgrade or close; then a send, a reset, an open. `took` is whether the circuit took an established
// connection as its own: the circuit itself, or a direct one from the source.
#[derive(Clone, Copy)]
pub struct Decision {
    pub core: Core,
    pub outcome: Result<(), Refusal>,
    pub took: bool,
    pub window: Fate,
    pub first: Option<Effect>,
    pub second: Option<Effect>,
    pub third: Option<Effect>,
    pub fourth: Option<Effect>,
    pub message: Option<Message>,
}

impl Said {
    // No message: an effect in the first place, and a reset.
    #[tactic(auto, unfolding(crate::specs::Decisions::event_of))]
    pub fn event(first: Option<Effect>, third: Option<Effect>) -> Self
        ensures { result ≡ event_of first third }
    {
        Said {
            first,
            second: None,
            third,
            message: None,
        }
    }

    #[tactic(auto, unfolding(crate::specs::Decisions::silence))]
    pub fn silent() -> Self
        ensures { result ≡ silence }
    {
        Said::event(None, None)
    }

    #[tactic(auto, unfolding(crate::specs::Decisions::reset_of))]
    pub fn reset(conn: ConnectionId, stream: StreamId) -> Self
        ensures { result ≡ reset_of conn stream }
    {
        Said::event(None, Some(Effect::Reset { conn, stream }))
    }

    // The targets once for each of so many instants; nothing where either is empty.
    #[tactic(auto, unfolding(crate::specs::Decisions::burst_of))]
    pub fn burst(times: u64, payload: u64, targets: usize) -> Self
        ensures { result ≡ burst_of times payload targets }
    {
        if times == 0 || targets == 0 {
            return Said::silent();
        }
        Said::event(Some(Effect::Burst { times, payload }), None)
    }

    // A message goes out on the stream behind what was said; the stream is reset where the exchange is over.
    #[tactic(auto, unfolding(crate::specs::Decisions::sending_of))]
    pub fn sending(
        self,
        conn: ConnectionId,
        stream: StreamId,
        message: Option<Message>,
        over: bool,
    ) -> Self
        ensures { result ≡ sending_of self conn stream message over }
    {
        let reset = Effect::Reset { conn, stream };
        Said {
            first: self.first,
            second: Some(Effect::Send { conn, stream }),
            third: over.then_some(reset),
            message,
        }
    }
}

impl Decision {
    #[tactic(auto, unfolding(crate::specs::Decisions::decided_of))]
    pub fn decided(core: Core, window: Fate, said: Said, fourth: Option<Effect>) -> Self
        ensures { result ≡ decided_of core window said fourth }
    {
        Decision {
            core,
            outcome: Ok(()),
            took: false,
            window,
            first: said.first,
            second: said.second,
            third: said.third,
            fourth,
            message: said.message,
        }
    }

    #[tactic(auto, unfolding(crate::specs::Decisions::quiet_of))]
    pub fn quiet(core: Core) -> Self
        ensures { result ≡ quiet_of core }
    {
        Decision::decided(core, Fate::Kept, Said::silent(), None)
    }

    #[tactic(auto, unfolding(crate::specs::Decisions::refused_of, crate::specs::Decisions::quiet_of, crate::specs::Decisions::decided_of, crate::specs::Decisions::silence, crate::specs::Decisions::event_of))]
    pub fn refused(core: Core, why: Refusal) -> Self
        ensures { result ≡ refused_of core why }
    {
        Decision {
            outcome: Err(why),
            ..Decision::quiet(core)
        }
    }
}

// How many bytes go out.
#[tactic(auto, unfolding(crate::specs::Decisions::length_of))]
pub fn message_size(message: Option<Message>) -> usize
    ensures { result ≡ length_of message }
{
    match message {
        None => 0,
        Some(Message::Connect(n)) => n,
        Some(Message::Sync) => frames::sync_frame().len,
    }
}
