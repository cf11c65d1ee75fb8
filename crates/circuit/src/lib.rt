// What a circuit keeps but for its bytes (inbound.rs, `InboundCircuit`). `state` has its numbers, `decision` what a call decides of it;
// `calls` are those that touch no bytes.
#![tactic(auto)]

pub mod calls;
pub mod decision;
pub mod state;
