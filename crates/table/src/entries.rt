// Reading the entries: how many there are, where their bytes lie, and the search for a blob. Only a call that has tested soundness comes here, and the
// test itself, once lengths are right.
ghost use Rattle.std.specs.Prelude.{◌≡◌, cond, List, ℕ, ◌+◌, ◌≤◌, ◌<◌, leb, length, drop, get_or};
ghost use Rattle.wire.specs.Limits.{entries_limit, store_size};
ghost use Rattle.std.specs.Prelude.{Some, None};
ghost use Rattle.rule.specs.Gateway.{Entry as Key, lengths_of, seek, holds, place_for};
ghost use Rattle.table.specs.declared.State.{State};
ghost use Rattle.table.specs.Bytes.{sum_of};
ghost use Rattle.table.specs.Entries.{Long, shown, figures_at, count_of, start_in};
ghost use Rattle.table.specs.Meaning.{gateway_of};
ghost use Rattle.table.specs.Soundness.{Sound, HousedIn};
ghost use Rattle.table.specs.Shown.{SoundOf, PartsOf};

use crate::bytes::is_equal;
use crate::{Columns, Figures, Shown};
use rule::Millis;
use wire::{Seconds, limits};

// How many entries there are: the numbers before the first 0.
pub fn count(numbers: &[u64]) -> usize
    ensures { result ≡ count_of numbers.now }
{
    for n in 0..numbers.len() {
        if numbers[n] == 0 {
            return n;
        }
    }
    numbers.len()
}

fn sum(lens: &[usize]) -> usize
    requires { sum_of lens.now ≤ store_size }
    ensures { result ≡ sum_of lens.now }
{
    let mut total = 0;
    for len in lens {
        total += *len;
    }
    total
}

// Where the bytes of entry i begin; those of the last end where one more would begin. Behind the last entry nothing is added.
#[tactic(auto, unfolding(crate::specs::Entries::start_in))]
pub fn start_of(
    blob_lens: &[usize],
    fields_lens: &[usize],
    comment_lens: &[usize],
    i: usize,
) -> usize
    requires { (i ≤ length blob_lens.now) × (i ≤ length fields_lens.now) × (i ≤ length comment_lens.now) × (start_in blob_lens.now fields_lens.now comment_lens.now i ≤ store_size) }
    ensures { result ≡ start_in blob_lens.now fields_lens.now comment_lens.now i }
{
    sum(&blob_lens[..i]) + (sum(&fields_lens[..i]) + sum(&comment_lens[..i]))
}

// How many bytes entry i has.
pub fn size_at(
    blob_lens: &[usize],
    fields_lens: &[usize],
    comment_lens: &[usize],
    i: usize,
) -> usize
    requires { (i < length blob_lens.now) × (i < length fields_lens.now) × (i < length comment_lens.now) × (get_or blob_lens.now i 0 + (get_or fields_lens.now i 0 + get_or comment_lens.now i 0) ≤ store_size) }
    ensures { result ≡ get_or blob_lens.now i 0 + (get_or fields_lens.now i 0 + get_or comment_lens.now i 0) }
{
    blob_lens[i] + (fields_lens[i] + comment_lens[i])
}

// Position i, if so many bytes fit beside the others'.
fn fitting(i: usize, others: usize, size: usize) -> Option<usize>
    requires { (others ≤ store_size) × (size ≤ store_size) }
    ensures { result ≡ cond (leb (others + size) store_size) (Some i) None }
{
    if limits::STORE_SIZE < others + size {
        return None;
    }
    Some(i)
}

impl Shown<'_> {
    // The figures at index i, in the number types that 01 keeps apart.
    pub fn figures_at(self, i: usize) -> Figures
        requires { (i < entries_limit) × Long (shown self) }
        ensures { result ≡ figures_at (shown self.entry) i }
    {
        Figures {
            number: self.numbers[i],
            reading: Millis {
                count: self.readings[i],
            },
            blob_len: self.blob_lens[i],
            fields_len: self.fields_lens[i],
            comment_len: self.comment_lens[i],
            seconds: Seconds {
                count: self.seconds[i],
            },
            limited: self.limited[i],
            confirm: self.confirm[i],
        }
    }

    // The first entry from `from` on that has the blob; the bytes of entry `from` begin at `start`.
    pub fn find_from(self, store: &[u8], from: usize, start: usize, blob: &[u8]) -> Option<usize>
        requires { HousedIn (shown self) store.now × (from ≤ count_of self.numbers.now) × (start ≡ start_in self.blob_lens.now self.fields_lens.now self.comment_lens.now from) }
        ensures { (s : State) → PartsOf (shown self.entry) s → result ≡ seek (holds blob.now) from (drop from (gateway_of s store.now).entries) }
    {
        let n = count(self.numbers);
        let mut at = start;
        for i in from..n {
            let end = at + self.blob_lens[i];
            if is_equal(&store[at..end], blob) {
                return Some(i);
            }
            at = end + (self.fields_lens[i] + self.comment_lens[i]);
        }
        None
    }

    // The entry that has the blob.
    pub fn find(self, store: &[u8], blob: &[u8]) -> Option<usize>
        requires { HousedIn (shown self) store.now }
        ensures { (s : State) → PartsOf (shown self.entry) s → result ≡ seek (holds blob.now) 0 (gateway_of s store.now).entries }
    {
        self.find_from(store, 0, 0, blob)
    }

    // The place for a key with this blob, whose blob, fields and comment are of this size: that of the entry that has the blob, else behind the last one; if
    // there is room.
    pub fn place_for(self, store: &[u8], blob: &[u8], size: usize) -> Option<usize>
        requires { SoundOf (PartsOf (shown self)) store.now × (size ≤ store_size) × (length blob.now ≤ size) }
        ensures { (s : State) (e : Key) → PartsOf (shown self.entry) s → Sound s store.now → e.blob ≡ blob.now → lengths_of e ≡ size → result ≡ place_for e (gateway_of s store.now).entries }
    {
        let end = start_of(
            self.blob_lens,
            self.fields_lens,
            self.comment_lens,
            limits::ENTRIES_LIMIT,
        );
        match self.find(store, blob) {
            Some(i) => {
                let own = size_at(self.blob_lens, self.fields_lens, self.comment_lens, i);
                fitting(i, end - own, size)
            }
            None => {
                let n = count(self.numbers);
                if n == limits::ENTRIES_LIMIT {
                    return None;
                }
                fitting(n, end, size)
            }
        }
    }
}

// The two searches of a state's own columns.
impl Columns {
    pub fn find(&self, store: &[u8], blob: &[u8]) -> Option<usize>
        requires { HousedIn self.now store.now }
        ensures { (s : State) → PartsOf self.now s → result ≡ seek (holds blob.now) 0 (gateway_of s store.now).entries }
    {
        self.show().find(store, blob)
    }

    pub fn place_for(&self, store: &[u8], blob: &[u8], size: usize) -> Option<usize>
        requires { SoundOf (PartsOf self.now) store.now × (size ≤ store_size) × (length blob.now ≤ size) }
        ensures { (s : State) (e : Key) → PartsOf self.now s → Sound s store.now → e.blob ≡ blob.now → lengths_of e ≡ size → result ≡ place_for e (gateway_of s store.now).entries }
    {
        self.show().place_for(store, blob, size)
    }
}
