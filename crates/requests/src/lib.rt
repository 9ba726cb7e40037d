// Each request once it is past the gate, over lent columns and store: an outcome comes out, and columns, store and reply buffer hold what the rule says.
// Its functions require what a call's refusals 1, 2, 3 and 5 have tested: room for the reply, a sound state and store, a signature that is not too
// long. Only the call, in crate engine, comes here.
#![tactic(auto)]

pub mod list;
pub mod lock;
pub mod replies;
pub mod sign;

use rule::{Hash, Millis};
use table::{Kept, State};

// An answer to a question that is yes or no: three words of 01, which each match names.
#[derive(Clone, Copy)]
pub enum Said {
    Missing,
    No,
    Yes,
}

// The confirmation's answer; it counts for its insertion number alone.
#[derive(Clone, Copy)]
pub struct Confirmation {
    pub number: u64,
    pub granted: bool,
}

// The signer's answer; it counts for its insertion number alone. The bytes of a given signature are lent beside it, as they cross
// from C.
#[derive(Clone, Copy)]
pub enum Signed {
    Missing,
    Nothing { number: u64 },
    Given { number: u64 },
}

// The outside answers so far, at most one of each kind.
#[derive(Clone, Copy)]
pub struct Answers {
    pub gate: Said,
    pub check: Said,
    pub confirmation: Option<Confirmation>,
    pub signature: Signed,
}

// What a call is asked, and what is lent to it: the payload, the clock's reading, the answers, and the bytes of a signature that is given.
#[derive(Clone, Copy)]
pub struct Asked<'a> {
    pub payload: &'a [u8],
    pub reading: Millis,
    pub answers: Answers,
    pub signature: &'a [u8],
}

// A refusal and its number; a question; a reply and its length in the reply buffer; or the connection is closed.
// Refusals and classes are 01's numbers: `OutcomesTold` and `OutcomesRead` speak of every number.
#[derive(Clone, Copy)]
pub enum Outcome {
    Refused {
        number: u8,
    },
    Gate {
        class: u8,
    },
    Check {
        from: usize,
        to: usize,
    },
    Confirm {
        number: u64,
    },
    Sign {
        number: u64,
        from: usize,
        to: usize,
        hash: Hash,
    },
    Reply {
        len: usize,
    },
    Close,
}

#[derive(Clone, Copy)]
pub struct Called {
    pub outcome: Outcome,
    pub state: State,
}

// Where the rest of the state is lent.
#[derive(Clone, Copy)]
pub struct Landed {
    pub outcome: Outcome,
    pub kept: Kept,
}
