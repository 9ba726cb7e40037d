// Changing the entries of a sound state: keys go on time or on request, and new ones come. Only a call that has tested soundness comes here.
#![tactic(auto)]

ghost use Rattle.std.specs.Prelude.{◌≡◌, List, ℕ, ◌<◌, length};
ghost use Rattle.wire.specs.Limits.{entries_limit};
ghost use Rattle.rule.specs.Gateway.{lasting, advance, with_entries, without, without_all, new_entry, with_entry};
ghost use Rattle.rule.specs.Rule.{brought, entry_of};
ghost use Rattle.table.specs.declared.State.{State};
ghost use Rattle.table.specs.Entries.{figures_set};
ghost use Rattle.table.specs.Meaning.{flag_of, gateway_of, limited_flag, kept_seconds, figures_for, held, with_table};
ghost use Rattle.table.specs.Soundness.{Sound, Means};
ghost use Rattle.table.specs.Changes.{due_marks, MayPut, MayPutWith};
ghost use Rattle.table.specs.Shown.{SoundOf, ShowsTable, SoundWith};

use gaps::closing::close;
use gaps::opening::put_bytes;
use keys::addition::Carried;
use rule::Millis;
use table::bytes::is_zero;
use table::clock::{is_due, later};
use table::{Columns, Figures, Kept};
use wire::read::cut;
use wire::{Seconds, limits};

fn flag_of(yes: bool) -> u8
    ensures { result ≡ flag_of yes }
{
    u8::from(yes)
}

// Entry i goes. A search has found it.
pub fn remove(t: &mut Columns, store: &mut [u8], i: usize)
    requires { (i < entries_limit) × SoundOf (ShowsTable t.old) store.old }
    ensures { (s : State) → s.columns ≡ t.old → Sound s store.old → Means (with_table t.new s) store.new (without i (gateway_of s store.old)) }
{
    let mut marks = [0u8; limits::ENTRIES_LIMIT];
    marks[i] = 1;
    close(t, store, &marks);
}

// All entries go.
pub fn remove_all(t: &mut Columns, store: &mut [u8])
    requires { SoundOf (ShowsTable t.old) store.old }
    ensures { (s : State) → s.columns ≡ t.old → Sound s store.old → Means (with_table t.new s) store.new (without_all (gateway_of s store.old)) }
{
    let marks = [1u8; limits::ENTRIES_LIMIT];
    close(t, store, &marks);
}

// A mark for each entry that is due at the clock.
fn mark_due(marks: &mut [u8], t: &Columns, clock: Millis)
    requires { length marks.old ≡ entries_limit }
    ensures { marks.new ≡ due_marks clock t.now.readings t.now.seconds t.now.limited }
{
    for i in 0..limits::ENTRIES_LIMIT {
        let reading = Millis {
            count: t.readings[i],
        };
        let lifetime = Seconds {
            count: t.seconds[i],
        };
        marks[i] = flag_of(is_due(reading, lifetime, t.limited[i], clock));
    }
}

// What is due at the clock goes. Where nothing is, nothing is written; where no entry has a lifetime, none is asked.
fn expire(t: &mut Columns, store: &mut [u8], clock: Millis)
    requires { SoundOf (ShowsTable t.old) store.old }
    ensures { (s : State) → s.columns ≡ t.old → Sound s store.old → Means (with_table t.new s) store.new (with_entries (lasting clock (gateway_of s store.old).entries) (gateway_of s store.old)) }
{
    if is_zero(&t.limited) {
        return;
    }
    let mut marks = [0u8; limits::ENTRIES_LIMIT];
    mark_due(&mut marks, t, clock);
    if is_zero(&marks) {
        return;
    }
    close(t, store, &marks);
}

// The kept clock is raised to the reading, and what is due goes.
pub fn advance(t: &mut Columns, kept: Kept, store: &mut [u8], reading: Millis) -> Kept
    requires { SoundWith t.old kept store.old }
    ensures { (b : List ℕ) → Sound (held t.old b kept) store.old → Means (held t.new b result) store.new (advance reading (gateway_of (held t.old b kept) store.old)) }
{
    let clock = later(kept.clock, reading);
    expire(t, store, clock);
    Kept { clock, ..kept }
}

// What is kept of a lifetime: a flag, and seconds.
fn limited_flag(lifetime: Option<Seconds>) -> u8
    ensures { result ≡ limited_flag lifetime }
{
    u8::from(lifetime.is_some())
}

fn kept_seconds(lifetime: Option<Seconds>) -> Seconds
    ensures { result ≡ kept_seconds lifetime }
{
    lifetime.unwrap_or(Seconds { count: 0 })
}

// The figures of a new key.
#[tactic(auto, unfolding(table::specs::Meaning::figures_for))]
fn held_figures(
    number: u64,
    reading: Millis,
    payload: &[u8],
    carried: Carried,
    blob: &[u8],
) -> Figures
    ensures { result ≡ figures_for (new_entry number reading (brought payload.now carried blob.now)) }
{
    let lifetime = carried.lifetime;
    let fields = cut(payload, 1, carried.places.end);
    let comment = cut(payload, carried.comment.from, carried.comment.to);
    Figures {
        number,
        reading,
        blob_len: blob.len(),
        fields_len: fields.len(),
        comment_len: comment.len(),
        seconds: kept_seconds(lifetime),
        limited: limited_flag(lifetime),
        confirm: flag_of(carried.confirm),
    }
}

// Entry i has these figures.
fn set_figures(t: &mut Columns, i: usize, f: Figures)
    requires { i < entries_limit }
    ensures { t.new ≡ figures_set i f t.old }
{
    t.numbers[i] = f.number;
    t.readings[i] = f.reading.count;
    t.blob_lens[i] = f.blob_len;
    t.fields_lens[i] = f.fields_len;
    t.comment_lens[i] = f.comment_len;
    t.seconds[i] = f.seconds.count;
    t.limited[i] = f.limited;
    t.confirm[i] = f.confirm;
}

// A key stands at position i, with the next number and the kept clock; what lies behind it moves once. Who adds has tested lengths and number, and has i
// from `Columns::place_for`.
pub fn put(
    t: &mut Columns,
    kept: Kept,
    store: &mut [u8],
    i: usize,
    payload: &[u8],
    carried: Carried,
    blob: &[u8],
) -> Kept
    requires { MayPutWith t.old kept store.old i (brought payload.now carried blob.now) }
    ensures { (b : List ℕ) → MayPut (held t.old b kept) store.old i (brought payload.now carried blob.now) → Means (held t.new b result) store.new (with_entry i (entry_of (gateway_of (held t.old b kept) store.old) payload.now carried blob.now) (gateway_of (held t.old b kept) store.old)) }
{
    put_bytes(
        t.show(),
        store,
        i,
        blob,
        cut(payload, 1, carried.places.end),
        cut(payload, carried.comment.from, carried.comment.to),
    );
    set_figures(
        t,
        i,
        held_figures(kept.next, kept.clock, payload, carried, blob),
    );
    Kept {
        next: kept.next + 1,
        ..kept
    }
}
