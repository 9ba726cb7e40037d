// The client's side: request writers.
#![tactic(auto)]

pub mod writers;
