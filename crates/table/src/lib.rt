// The gateway's state and its key store: the figures of up to 24 entries in columns, the lock record, the kept clock, the next number; in the store for each
// entry blob, key fields and comment, behind each other and without gaps. Columns and store are lent to what works on them.
#![tactic(auto)]

pub mod bytes;
pub mod clock;
pub mod entries;
pub mod locks;

ghost use Rattle.std.specs.Prelude.{◌≡◌};
ghost use Rattle.rule.specs.Gateway.{fresh as fresh_gateway};
ghost use Rattle.table.specs.Entries.{shown};
ghost use Rattle.table.specs.Meaning.{is_set, state_of, held, kept_in};

use rule::Millis;
use wire::{Seconds, limits};

// What the columns have at one index, also where they are not sound: `limited` and `confirm` are 0 or 1 there, and seconds stand with a lifetime alone.
#[derive(Clone, Copy)]
pub struct Figures {
    pub number: u64,
    pub reading: Millis,
    pub blob_len: usize,
    pub fields_len: usize,
    pub comment_len: usize,
    pub seconds: Seconds,
    pub limited: u8,
    pub confirm: u8,
}

// What is kept of each entry beside its bytes, in list order. Readings count milliseconds. Behind the last entry all is zero. C reads it: an array
// for each thing.
#[repr(C)]
#[derive(Clone, Copy)]
pub struct Columns {
    pub numbers: [u64; limits::ENTRIES_LIMIT],
    pub readings: [u64; limits::ENTRIES_LIMIT],
    pub blob_lens: [usize; limits::ENTRIES_LIMIT],
    pub fields_lens: [usize; limits::ENTRIES_LIMIT],
    pub comment_lens: [usize; limits::ENTRIES_LIMIT],
    pub seconds: [u32; limits::ENTRIES_LIMIT],
    pub limited: [u8; limits::ENTRIES_LIMIT],
    pub confirm: [u8; limits::ENTRIES_LIMIT],
}

// Columns that are read where they lie; those of a state have 24 numbers, others as many as they have.
#[derive(Clone, Copy)]
pub struct Shown<'a> {
    pub numbers: &'a [u64],
    pub readings: &'a [u64],
    pub blob_lens: &'a [usize],
    pub fields_lens: &'a [usize],
    pub comment_lens: &'a [usize],
    pub seconds: &'a [u32],
    pub limited: &'a [u8],
    pub confirm: &'a [u8],
}

impl Columns {
    pub fn show(&self) -> Shown<'_>
        ensures { shown result ≡ self.now }
    {
        Shown {
            numbers: &self.numbers,
            readings: &self.readings,
            blob_lens: &self.blob_lens,
            fields_lens: &self.fields_lens,
            comment_lens: &self.comment_lens,
            seconds: &self.seconds,
            limited: &self.limited,
            confirm: &self.confirm,
        }
    }
}

// The form that 01 names: the passphrase and its length; the rest is zero. A length of 0 is open.
#[repr(C)]
#[derive(Clone, Copy)]
pub struct LockRecord {
    pub bytes: [u8; limits::PASSPHRASE_LIMIT],
    pub len: usize,
}

#[repr(C)]
#[derive(Clone, Copy)]
pub struct State {
    pub columns: Columns,
    pub lock: LockRecord,
    pub clock: Millis,
    pub next: u64,
}

// What goes by value where the arrays of a state are lent: the kept clock, the next number, the passphrase's length.
#[derive(Clone, Copy)]
pub struct Kept {
    pub clock: Millis,
    pub next: u64,
    pub locked: usize,
}

impl State {
    pub fn kept(&self) -> Kept
        ensures { result ≡ kept_in self.now }
    {
        Kept {
            clock: self.clock,
            next: self.next,
            locked: self.lock.len,
        }
    }

    // Its arrays stay.
    pub fn keep(&mut self, kept: Kept)
        ensures { self.new ≡ held self.old.columns self.old.lock.bytes kept }
    {
        self.clock = kept.clock;
        self.next = kept.next;
        self.lock.len = kept.locked;
    }
}

// What a flag says.
pub fn is_set(flag: u8) -> bool
    ensures { result ≡ is_set flag }
{
    flag == 1
}

// All zero, next insertion number 1.
#[tactic(auto, unfolding(crate::specs::Meaning::state_of, crate::specs::Entries::columns_of, crate::specs::Meaning::lock_of, crate::specs::Bytes::padded))]
pub fn fresh() -> State
    ensures { result ≡ state_of fresh_gateway }
{
    State {
        columns: Columns {
            numbers: [0u64; limits::ENTRIES_LIMIT],
            readings: [0u64; limits::ENTRIES_LIMIT],
            blob_lens: [0usize; limits::ENTRIES_LIMIT],
            fields_lens: [0usize; limits::ENTRIES_LIMIT],
            comment_lens: [0usize; limits::ENTRIES_LIMIT],
            seconds: [0u32; limits::ENTRIES_LIMIT],
            limited: [0u8; limits::ENTRIES_LIMIT],
            confirm: [0u8; limits::ENTRIES_LIMIT],
        },
        lock: LockRecord {
            bytes: [0u8; limits::PASSPHRASE_LIMIT],
            len: 0,
        },
        clock: Millis { count: 0 },
        next: 1,
    }
}
