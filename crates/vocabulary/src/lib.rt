// The words of calls and answers (config.rs, types.rs, events.rs and swarm.rs of nat, as far as a circuit uses them).
#![tactic(auto)]

use ids::{ConnectionId, PeerId, StreamId};

#[derive(Clone, Copy)]
pub struct Settings {
    pub handshake: u64,
    pub upgrade: u64,
    pub exchange: u64,
    pub punch: u64,
    pub interval: u64,
    pub payload: u64,
    pub private: bool,
    pub upgrades: bool,
}

// ---- what the host answers within a call

#[derive(Clone, Copy)]
pub struct Host {
    pub at: u64,
    // The source's current connection.
    pub live: Option<ConnectionId>,
    // The stream that an opening would get, and its connection.
    pub offer: Option<(ConnectionId, StreamId)>,
}

// What a stream brings; an end of either kind closes it.
#[derive(Clone, Copy)]
pub enum StreamInput {
    Ready,
    Data,
    RemoteWriteClosed,
    Closed,
}

// ---- what is answered

#[derive(Clone, Copy)]
pub enum Effect {
    Path {
        peer: PeerId,
        relay: PeerId,
        conn: ConnectionId,
    },
    Burst {
        times: u64,
        payload: u64,
    },
    Upgrade {
        peer: PeerId,
        old: ConnectionId,
        new: ConnectionId,
    },
    Close {
        conn: ConnectionId,
    },
    Send {
        conn: ConnectionId,
        stream: StreamId,
    },
    Reset {
        conn: ConnectionId,
        stream: StreamId,
    },
    Open {
        conn: ConnectionId,
        stream: StreamId,
    },
}
