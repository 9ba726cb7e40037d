// What a host is told of the held keys: by insertion number, and in order of insertion. So it keeps no table of keys and names no offset.
#![tactic(auto)]

pub mod held;
pub mod order;

use rule::Millis;
use wire::limits;

// A comment and its length; the rest is zero.
#[repr(C)]
#[derive(Clone, Copy)]
pub struct Comment {
    pub bytes: [u8; limits::COMMENT_LIMIT],
    pub len: usize,
}

// A held key. Blob and key fields are parts of the store; `confirm` and `limited` (has it a lifetime?) are 0 or 1; `left` is what is left of the
// lifetime at the kept clock, 0 without one. Where the number is 0, nothing is told and all is zero.
#[repr(C)]
#[derive(Clone, Copy)]
pub struct HeldKey {
    pub number: u64,
    pub confirm: u8,
    pub limited: u8,
    pub left: Millis,
    pub blob_from: usize,
    pub blob_to: usize,
    pub fields_from: usize,
    pub fields_to: usize,
    pub comment: Comment,
}
