// The requests by which keys come and go: 17 and 25, 18, 19. They require what a call's refusals 1 to 3 have tested; only the call comes here.
#![tactic(auto)]

pub mod add;
pub mod remove;
