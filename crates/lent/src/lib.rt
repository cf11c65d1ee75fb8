// The calls of a circuit over what the host lends (inbound.rs, `InboundCircuit`): the bytes of its CONNECT and targets, the message that goes
// out, the reply buffer and the path ledger. `reply` reads what an input brings, `calls` are the calls; what they decide is carried out by
// the crate `carried`.
#![tactic(auto)]

pub mod calls;
mod reply;

// The bytes of the punch window's targets.
pub type TargetBytes = carried::TargetBytes;
