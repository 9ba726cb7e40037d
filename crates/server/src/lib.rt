// What one call of the gateway is, and what is promised of it and of every run of calls; the decisions of a call that need no state. The call itself is
// crate engine's.
#![tactic(auto)]

pub mod call;
pub mod first;
