// Keys that go: their figures leave the columns and their bytes the store, the gaps are closed, and the freed ends are zero. A mark for each entry says
// whether it goes.
ghost use Rattle.std.specs.Prelude.{◌≡◌, cond, ◌+◌, ◌≤◌, length, take, drop, replicate};
ghost use Rattle.wire.specs.Limits.{entries_limit, store_size};
ghost use Rattle.wire.specs.Write.{write};
ghost use Rattle.table.specs.Bytes.{Zeros};
ghost use Rattle.table.specs.Entries.{start_in};
ghost use Rattle.table.specs.Meaning.{is_set};
ghost use Rattle.table.specs.Changes.{sizes_in, closed, closed_parts, closed_columns};

use table::bytes::wipe;
use table::{Columns, is_set};
use wire::limits;

// How far the one that stays moves the next.
fn step(mark: u8) -> usize
    ensures { result ≡ cond (is_set mark) 0 1 }
{
    usize::from(!is_set(mark))
}

// All places of the part hold this. (`fill` would ask for a clone that cannot fail.)
fn fill<T: Copy>(part: &mut [T], value: T)
    ensures { part.new ≡ replicate (length part.old) value }
{
    for i in 0..part.len() {
        part[i] = value;
    }
}

// What stays of a column moves to its front, and the freed end is zero, of the column's own type.
fn close_column<T: Copy>(column: &mut [T], marks: &[u8], zero: T)
    requires { length marks.now ≡ length column.old }
    ensures { column.new ≡ closed zero marks.now column.old }
{
    let mut to = 0;
    for i in 0..column.len() {
        column[to] = column[i];
        to += step(marks[i]);
    }
    fill(&mut column[to..], zero);
}

// The n bytes at `from` move to `to`, either way.
pub(crate) fn move_bytes(store: &mut [u8], from: usize, to: usize, n: usize)
    requires { (from + n ≤ length store.old) × (to + n ≤ length store.old) }
    ensures { store.new ≡ write store.old to (take n (drop from store.old)) }
{
    store.copy_within(from..from + n, to);
}

// The n bytes at `from` move down to `to`.
pub fn move_down(store: &mut [u8], from: usize, to: usize, n: usize)
    requires { (to ≤ from) × (from + n ≤ length store.old) }
    ensures { store.new ≡ write store.old to (take n (drop from store.old)) }
{
    move_bytes(store, from, to, n);
}

// The part of n bytes at `from` moves down to `to`, unless it is marked or lies there; where the next one goes.
fn close_part(store: &mut [u8], mark: u8, from: usize, to: usize, n: usize) -> usize
    requires { (to ≤ from) × (from + n ≤ length store.old) }
    ensures { (result ≡ cond (is_set mark) to (to + n)) × (store.new ≡ cond (is_set mark) store.old (write store.old to (take n (drop from store.old)))) }
{
    if is_set(mark) {
        return to;
    }
    if to < from {
        move_down(store, from, to, n);
    }
    to + n
}

// Each part that stays moves once, in list order.
fn close_store(t: &Columns, store: &mut [u8], marks: &[u8; limits::ENTRIES_LIMIT])
    requires { (length store.old ≡ store_size) × (start_in t.now.blob_lens t.now.fields_lens t.now.comment_lens entries_limit ≤ store_size) × Zeros (drop (start_in t.now.blob_lens t.now.fields_lens t.now.comment_lens entries_limit) store.old) }
    ensures { store.new ≡ closed_parts marks.now (sizes_in t.now.blob_lens t.now.fields_lens t.now.comment_lens) store.old }
{
    let mut from = 0;
    let mut to = 0;
    for i in 0..limits::ENTRIES_LIMIT {
        let n = t.blob_lens[i] + (t.fields_lens[i] + t.comment_lens[i]);
        to = close_part(store, marks[i], from, to, n);
        from += n;
    }
    wipe(&mut store[to..from]);
}

fn close_columns(t: &mut Columns, marks: &[u8; limits::ENTRIES_LIMIT])
    ensures { t.new ≡ closed_columns marks.now t.old }
{
    close_column(&mut t.numbers, marks, 0);
    close_column(&mut t.readings, marks, 0);
    close_column(&mut t.blob_lens, marks, 0);
    close_column(&mut t.fields_lens, marks, 0);
    close_column(&mut t.comment_lens, marks, 0);
    close_column(&mut t.seconds, marks, 0);
    close_column(&mut t.limited, marks, 0);
    close_column(&mut t.confirm, marks, 0);
}

// The marked entries go.
pub fn close(t: &mut Columns, store: &mut [u8], marks: &[u8])
    requires { (length marks.now ≡ entries_limit) × (length store.old ≡ store_size) × (start_in t.old.blob_lens t.old.fields_lens t.old.comment_lens entries_limit ≤ store_size) × Zeros (drop (start_in t.old.blob_lens t.old.fields_lens t.old.comment_lens entries_limit) store.old) }
    ensures { (t.new ≡ closed_columns marks.now t.old) × (store.new ≡ closed_parts marks.now (sizes_in t.old.blob_lens t.old.fields_lens t.old.comment_lens) store.old) }
{
    let marks = marks.as_array().unwrap();
    close_store(t, store, marks);
    close_columns(t, marks);
}
