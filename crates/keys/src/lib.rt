// What an add request carries: key fields, comment and constraints.
#![tactic(auto)]

pub mod addition;
pub mod constraints;
pub mod fields;
pub mod kinds;
