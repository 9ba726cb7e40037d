// What crosses to C and Rust in place of the enums, as 01's numbers and values: answers on the way in, an outcome, a split or what a first call came to
// on the way out.
#![tactic(auto)]

ghost use Rattle.std.specs.Prelude.{◌≡◌};
ghost use Rattle.requests.specs.Outcomes.{hash_bits};
ghost use Rattle.flat.specs.Flat.{said_of, confirmed_of, signed_of, answers_of, flat_of, flat_split, unbegun_first, flat_first};

use requests::{Answers, Confirmation, Outcome, Said, Signed};
use rule::Hash;
use server::first::First;
use wire::frame::{Split, read_frame};

// Each answer is 1 no (of the signature: nothing given), 2 yes (of the signature: given, its bytes beside it); any other number is no answer.
// The numbers are the insertion numbers that confirmation and signature count for.
#[repr(C)]
#[derive(Clone, Copy)]
pub struct FlatAnswers {
    pub gate: u8,
    pub check: u8,
    pub confirmation: u8,
    pub signature: u8,
    pub confirmation_number: u64,
    pub signature_number: u64,
}

// The kind of an outcome and its values; a field without meaning is 0.
#[repr(C)]
#[derive(Clone, Copy)]
pub struct FlatOutcome {
    pub kind: u8,
    pub hash: u16,
    pub number: u64,
    pub from: usize,
    pub to: usize,
}

// 0 more needed; 1 too long; 2 a whole frame, whose payload lies at from..to. Else both are 0.
#[repr(C)]
#[derive(Clone, Copy)]
pub struct FlatSplit {
    pub kind: u8,
    pub from: usize,
    pub to: usize,
}

// 0 more needed; 1 too long; 2 refused, as the outcome says; 3 begun, the bytes used, and the outcome. A field without meaning is 0.
#[repr(C)]
#[derive(Clone, Copy)]
pub struct FlatFirst {
    pub kind: u8,
    pub used: usize,
    pub outcome: FlatOutcome,
}

#[tactic(auto, unfolding(crate::specs::Flat::said_of))]
fn said_of(word: u8) -> Said
    ensures { result ≡ said_of word }
{
    match word {
        1 => Said::No,
        2 => Said::Yes,
        _ => Said::Missing,
    }
}

#[tactic(auto, unfolding(crate::specs::Flat::confirmed_of))]
fn confirmed_of(word: u8, number: u64) -> Option<Confirmation>
    ensures { result ≡ confirmed_of word number }
{
    match word {
        1 => Some(Confirmation {
            number,
            granted: false,
        }),
        2 => Some(Confirmation {
            number,
            granted: true,
        }),
        _ => None,
    }
}

#[tactic(auto, unfolding(crate::specs::Flat::signed_of))]
fn signed_of(word: u8, number: u64) -> Signed
    ensures { result ≡ signed_of word number }
{
    match word {
        1 => Signed::Nothing { number },
        2 => Signed::Given { number },
        _ => Signed::Missing,
    }
}

#[tactic(auto, unfolding(crate::specs::Flat::answers_of))]
pub fn answers_of(flat: FlatAnswers) -> Answers
    ensures { result ≡ answers_of flat }
{
    Answers {
        gate: said_of(flat.gate),
        check: said_of(flat.check),
        confirmation: confirmed_of(flat.confirmation, flat.confirmation_number),
        signature: signed_of(flat.signature, flat.signature_number),
    }
}

fn hash_bits(hash: Hash) -> u16
    ensures { result ≡ hash_bits hash }
{
    match hash {
        Hash::Plain => 0,
        Hash::Sha256 => 256,
        Hash::Sha512 => 512,
    }
}

fn numbered(kind: u8, number: u64) -> FlatOutcome
    ensures { result ≡ record { kind = kind; hash = 0; number = number; from = 0; to = 0 } }
{
    FlatOutcome {
        kind,
        hash: 0,
        number,
        from: 0,
        to: 0,
    }
}

fn part(kind: u8, from: usize, to: usize) -> FlatOutcome
    ensures { result ≡ record { kind = kind; hash = 0; number = 0; from = from; to = to } }
{
    FlatOutcome {
        kind,
        hash: 0,
        number: 0,
        from,
        to,
    }
}

#[tactic(auto, unfolding(crate::specs::Flat::flat_of))]
pub fn flat_of(outcome: Outcome) -> FlatOutcome
    ensures { result ≡ flat_of outcome }
{
    match outcome {
        Outcome::Refused { number } => numbered(0, number as u64),
        Outcome::Gate { class } => numbered(1, class as u64),
        Outcome::Check { from, to } => part(2, from, to),
        Outcome::Confirm { number } => numbered(3, number),
        Outcome::Sign {
            number,
            from,
            to,
            hash,
        } => FlatOutcome {
            kind: 4,
            hash: hash_bits(hash),
            number,
            from,
            to,
        },
        Outcome::Reply { len } => part(5, 0, len),
        Outcome::Close => part(6, 0, 0),
    }
}

#[tactic(auto, unfolding(crate::specs::Flat::flat_split, crate::specs::Flat::split_as))]
pub fn split(bytes: &[u8]) -> FlatSplit
    ensures { result ≡ flat_split bytes.now }
{
    match read_frame(bytes) {
        Split::MoreNeeded => FlatSplit {
            kind: 0,
            from: 0,
            to: 0,
        },
        Split::TooLong => FlatSplit {
            kind: 1,
            from: 0,
            to: 0,
        },
        Split::Frame { from, to } => FlatSplit { kind: 2, from, to },
    }
}

fn unbegun(kind: u8, number: u64) -> FlatFirst
    ensures { result ≡ unbegun_first kind number }
{
    FlatFirst {
        kind,
        used: 0,
        outcome: numbered(0, number),
    }
}

#[tactic(auto, unfolding(crate::specs::Flat::flat_first))]
pub fn first_of(first: First) -> FlatFirst
    ensures { result ≡ flat_first first }
{
    match first {
        First::MoreNeeded => unbegun(0, 0),
        First::TooLong => unbegun(1, 0),
        First::Refused { number } => unbegun(2, number as u64),
        First::Began { used, outcome } => FlatFirst {
            kind: 3,
            used,
            outcome: flat_of(outcome),
        },
    }
}
