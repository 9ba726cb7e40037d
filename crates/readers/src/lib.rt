// The two replies that the client reads: the list of keys, and a signature.
#![tactic(auto)]

pub mod identities;
pub mod signature;
