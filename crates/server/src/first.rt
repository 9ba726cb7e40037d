// Derived from keys/agent/server.rs of russh 0.65.0 (Apache-2.0), and changed: see NOTICE.
// The first call of a request, from the connection's bytes: what it comes to, and what is lent to it.
ghost use Rattle.std.specs.Prelude.{◌≡◌};
ghost use Rattle.server.specs.First.{first_in, nothing_lent};

use requests::{Answers, Outcome, Said, Signed};

// More bytes are needed; the frame is too long; a refusal and its number, as an outcome has it; or the request has begun: the bytes that its
// frame takes, its length in front included, and the outcome, whose parts are places in the payload.
#[derive(Clone, Copy)]
pub enum First {
    MoreNeeded,
    TooLong,
    Refused { number: u8 },
    Began { used: usize, outcome: Outcome },
}

// No answer is lent yet.
pub fn nothing_lent() -> Answers
    ensures { result ≡ nothing_lent }
{
    Answers {
        gate: Said::Missing,
        check: Said::Missing,
        confirmation: None,
        signature: Signed::Missing,
    }
}

// A refusal uses no bytes.
#[tactic(auto, unfolding(crate::specs::First::first_in))]
pub fn first_in(used: usize, outcome: Outcome) -> First
    ensures { result ≡ first_in used outcome }
{
    match outcome {
        Outcome::Refused { number } => First::Refused { number },
        _ => First::Began { used, outcome },
    }
}
