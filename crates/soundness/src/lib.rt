// The soundness test: any columns, any store, read where they lie. The bytes behind the entries are read, and of each blob its last ones.
#![tactic(auto)]

pub mod apart;
pub mod unused;

ghost use Rattle.std.specs.Prelude.{◌≡◌, ℕ, ◌≤◌, ◌<◌, length, get_or, drop};
ghost use Rattle.wire.specs.Limits.{entries_limit, store_size, blob_limit, fields_limit, comment_limit};
ghost use Rattle.table.specs.Bytes.{all_zero};
ghost use Rattle.table.specs.Entries.{Long, shown, count_of, entries_in, start_in};
ghost use Rattle.table.specs.Meaning.{held};
ghost use Rattle.table.specs.Soundness.{is_flag, long_columns, sound_lengths, sound_figures, sound_entries, sound_flags, sound_lifetime, sound_lock, sound_keys, sound_state};

use apart::is_distinct;
use rule::Millis;
use table::bytes::is_zero;
use table::entries::count;
use table::{Figures, Kept, Shown, State, is_set};
use unused::is_unused_zero;
use wire::{Seconds, limits};

// Has each column 24 numbers?
#[tactic(auto, unfolding(table::specs::Soundness::long_columns))]
fn are_long(t: Shown<'_>) -> bool
    ensures { result ≡ long_columns (shown t.entry) }
{
    t.numbers.len() == limits::ENTRIES_LIMIT
        && t.readings.len() == limits::ENTRIES_LIMIT
        && t.blob_lens.len() == limits::ENTRIES_LIMIT
        && t.fields_lens.len() == limits::ENTRIES_LIMIT
        && t.comment_lens.len() == limits::ENTRIES_LIMIT
        && t.seconds.len() == limits::ENTRIES_LIMIT
        && t.limited.len() == limits::ENTRIES_LIMIT
        && t.confirm.len() == limits::ENTRIES_LIMIT
}

// A flag is 0 or 1.
fn is_flag(b: u8) -> bool
    ensures { result ≡ is_flag b }
{
    b <= 1
}

#[tactic(auto, unfolding(table::specs::Soundness::sound_flags))]
fn are_flags_sound(limited: u8, confirm: u8) -> bool
    ensures { result ≡ sound_flags limited confirm }
{
    is_flag(limited) && is_flag(confirm)
}

// Seconds are there only with a lifetime; an Option could not say that they are there without one.
#[tactic(auto, unfolding(table::specs::Soundness::sound_lifetime))]
fn is_lifetime_sound(limited: u8, seconds: Seconds) -> bool
    ensures { result ≡ sound_lifetime limited seconds }
{
    is_set(limited) || seconds.count == 0
}

// The lengths are within limits.
#[tactic(auto, unfolding(table::specs::Soundness::sound_lengths))]
fn are_lengths_sound(f: Figures) -> bool
    ensures { result ≡ sound_lengths f }
{
    1 <= f.blob_len
        && f.blob_len <= limits::BLOB_LIMIT
        && 1 <= f.fields_len
        && f.fields_len <= limits::FIELDS_LIMIT
        && f.comment_len <= limits::COMMENT_LIMIT
}

#[tactic(auto, unfolding(table::specs::Soundness::sound_figures))]
fn are_figures_sound(f: Figures, clock: Millis, next: u64) -> bool
    ensures { result ≡ sound_figures clock next f }
{
    f.number < next
        && f.reading.count <= clock.count
        && are_flags_sound(f.limited, f.confirm)
        && is_lifetime_sound(f.limited, f.seconds)
        && are_lengths_sound(f)
}

fn are_entries_sound(t: Shown<'_>, clock: Millis, next: u64) -> bool
    requires { Long (shown t) }
    ensures { result ≡ sound_entries clock next (entries_in (shown t.entry)) }
{
    let n = count(t.numbers);
    for i in 0..n {
        if !are_figures_sound(t.figures_at(i), clock, next) {
            return false;
        }
    }
    true
}

// Where the bytes of n entries end whose lengths are within limits; so the sum does not overflow.
fn end_of(t: Shown<'_>, n: usize) -> usize
    requires { (n ≤ entries_limit) × Long (shown t) × ((i : ℕ) → i < n → (get_or t.blob_lens.now i 0 ≤ blob_limit) × (get_or t.fields_lens.now i 0 ≤ fields_limit) × (get_or t.comment_lens.now i 0 ≤ comment_limit)) }
    ensures { result ≡ start_in t.entry.blob_lens.now t.entry.fields_lens.now t.entry.comment_lens.now n }
{
    let mut end = 0;
    for i in 0..n {
        end += t.blob_lens[i] + (t.fields_lens[i] + t.comment_lens[i]);
    }
    end
}

// Are all bytes from `end` on zero? Those from the next multiple of 16 on are looked at by themselves: blocks that lie as the store does are read
// faster.
fn is_rest_zero(store: &[u8], end: usize) -> bool
    requires { (end ≤ store_size) × (length store.now ≡ store_size) }
    ensures { result ≡ all_zero (drop end store.now) }
{
    let next = (end + 15) / 16 * 16;
    is_zero(&store[end..next]) && is_zero(&store[next..])
}

#[tactic(auto, unfolding(table::specs::Soundness::sound_lock))]
fn is_lock_sound(bytes: &[u8], len: usize) -> bool
    ensures { result ≡ sound_lock (record { bytes = bytes.now; len = len }) }
{
    bytes.len() == limits::PASSPHRASE_LIMIT
        && len <= limits::PASSPHRASE_LIMIT
        && is_zero(&bytes[len..])
}

// Columns and store of their sizes: unused entries, each entry by itself, the store's end, the entries side by side.
fn are_keys_sound(t: Shown<'_>, clock: Millis, next: u64, store: &[u8]) -> bool
    requires { Long (shown t) × (length store.now ≡ store_size) }
    ensures { result ≡ sound_keys clock next (shown t.entry) store.now }
{
    let n = count(t.numbers);
    if !is_unused_zero(t, n) {
        return false;
    }
    if !are_entries_sound(t, clock, next) {
        return false;
    }
    let end = end_of(t, n);
    if limits::STORE_SIZE < end {
        return false;
    }
    is_rest_zero(store, end) && is_distinct(t, store)
}

#[tactic(auto, unfolding(table::specs::Soundness::sound_state))]
pub fn is_sound(t: Shown<'_>, passphrase: &[u8], kept: Kept, store: &[u8]) -> bool
    ensures { result ≡ sound_state (held (shown t.entry) passphrase.now kept) store.now }
{
    if store.len() != limits::STORE_SIZE {
        return false;
    }
    if !are_long(t) {
        return false;
    }
    1 <= kept.next
        && is_lock_sound(passphrase, kept.locked)
        && are_keys_sound(t, kept.clock, kept.next, store)
}

pub fn is_state_sound(state: &State, store: &[u8]) -> bool
    ensures { result ≡ sound_state state.now store.now }
{
    is_sound(state.columns.show(), &state.lock.bytes, state.kept(), store)
}
