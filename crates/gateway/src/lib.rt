// The gateway's face: what C and Rust link.
#![tactic(auto)]

pub mod exports;
