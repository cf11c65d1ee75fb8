// What the calls of a circuit decide that come without bytes (inbound.rs): `up` of a connection, `tick` of a reading.
#![tactic(auto)]

pub mod tick;
pub mod up;
