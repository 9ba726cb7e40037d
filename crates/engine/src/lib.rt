// The core: a call, and the first call of a request, over a state whose parts are lent. `call_lent` and `first_lent` require nothing;
// `inner_lent` and `inner_first_lent` require a sound state and store.
// Columns, passphrase and store are lent each by itself, so that a contract says by its parameters what a request leaves as it was.
#![tactic(auto)]

pub mod call;
pub mod first;
