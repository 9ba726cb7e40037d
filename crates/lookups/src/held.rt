// The key with an insertion number. What is told is tested first: any state, any store.
ghost use Rattle.std.specs.Prelude.{◌≡◌, ℕ, ◌+◌, ◌≤◌, ◌<◌, eqb, length, take, drop};
ghost use Rattle.std.specs.List.{position};
ghost use Rattle.wire.specs.Limits.{store_size, comment_limit};
ghost use Rattle.rule.specs.Gateway.{Entry as Key};
ghost use Rattle.rule.specs.Words.{HeldAt};
ghost use Rattle.table.specs.declared.State.{State};
ghost use Rattle.table.specs.Entries.{count_of};
ghost use Rattle.table.specs.Meaning.{limited_lifetime, entries_of, gateway_of, start_of, figures_for};
ghost use Rattle.table.specs.Soundness.{Sound};
ghost use Rattle.lookups.specs.Told.{left_at, kept, nothing, told_of, key_told};

use crate::{Comment, HeldKey};
use rule::Millis;
use soundness::is_state_sound;
use table::bytes::pad;
use table::clock::{millis_of, past};
use table::entries::{count, start_of};
use table::{Figures, State, is_set};
use wire::{Seconds, limits};

// The position of the key with this number, of those that are held.
fn find_number(numbers: &[u64], number: u64) -> Option<usize>
    ensures { result ≡ position (λ held. eqb held number) numbers.now }
{
    numbers.iter().position(|held| *held == number)
}

// What is left of a lifetime at the clock.
#[tactic(auto, unfolding(crate::specs::Told::left_at))]
fn left_at(reading: Millis, limited: u8, seconds: Seconds, clock: Millis) -> Millis
    ensures { result ≡ left_at clock reading (limited_lifetime limited seconds) }
{
    if !is_set(limited) {
        return Millis { count: 0 };
    }
    let gone = past(clock, reading);
    Millis {
        count: millis_of(seconds).count.saturating_sub(gone),
    }
}

// A comment out of the store.
#[tactic(auto, unfolding(crate::specs::Told::kept, table::specs::Meaning::kept_comment))]
fn copied(part: &[u8]) -> Comment
    requires { length part.now ≤ comment_limit }
    ensures { result ≡ kept part.now }
{
    let mut out = [0u8; limits::COMMENT_LIMIT];
    pad(&mut out, part);
    Comment {
        bytes: out,
        len: part.len(),
    }
}

// The comment of an entry whose bytes begin at `from`: behind blob and fields.
fn comment_in(f: Figures, store: &[u8], from: usize) -> Comment
    requires { (from + (f.blob_len + (f.fields_len + f.comment_len)) ≤ length store.now) × (f.comment_len ≤ comment_limit) }
    ensures { result ≡ kept (take f.comment_len (drop (from + (f.blob_len + f.fields_len)) store.now)) }
{
    let at = from + (f.blob_len + f.fields_len);
    let end = at + f.comment_len;
    copied(&store[at..end])
}

// What is told of a key with these figures and this comment, whose bytes begin at `from`.
fn told(f: Figures, comment: Comment, clock: Millis, from: usize) -> HeldKey
    requires { from + (f.blob_len + (f.fields_len + f.comment_len)) ≤ store_size }
    ensures { (s : State) (i : ℕ) (k : Key) → s.clock ≡ clock → f ≡ figures_for k → comment ≡ kept k.comment → from ≡ start_of (entries_of s) i → result ≡ told_of s i k }
{
    let fields_from = from + f.blob_len;
    HeldKey {
        number: f.number,
        confirm: f.confirm,
        limited: f.limited,
        left: left_at(f.reading, f.limited, f.seconds, clock),
        blob_from: from,
        blob_to: fields_from,
        fields_from,
        fields_to: fields_from + f.fields_len,
        comment,
    }
}

// What is told of the key at position i.
fn told_at(state: &State, store: &[u8], i: usize) -> HeldKey
    requires { (i < count_of state.now.columns.numbers) × Sound state.now store.now }
    ensures { (k : Key) → HeldAt (gateway_of state.now store.now) i k → result ≡ told_of state.now i k }
{
    let t = &state.columns;
    let f = t.show().figures_at(i);
    let from = start_of(&t.blob_lens, &t.fields_lens, &t.comment_lens, i);
    told(f, comment_in(f, store, from), state.clock, from)
}

// All zero.
#[tactic(auto, unfolding(crate::specs::Told::nothing, crate::specs::Told::kept, table::specs::Meaning::kept_comment, table::specs::Bytes::padded))]
fn untold() -> HeldKey
    ensures { result ≡ nothing }
{
    HeldKey {
        number: 0,
        confirm: 0,
        limited: 0,
        left: Millis { count: 0 },
        blob_from: 0,
        blob_to: 0,
        fields_from: 0,
        fields_to: 0,
        comment: Comment {
            bytes: [0u8; limits::COMMENT_LIMIT],
            len: 0,
        },
    }
}

pub fn key_of(state: State, store: &[u8], number: u64) -> HeldKey
    ensures { result ≡ key_told state store.now number }
{
    if !is_state_sound(&state, store) {
        return untold();
    }
    let numbers = &state.columns.numbers;
    let n = count(numbers);
    match find_number(&numbers[..n], number) {
        Some(i) => told_at(&state, store, i),
        None => untold(),
    }
}
