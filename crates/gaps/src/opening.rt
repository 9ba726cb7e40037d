// A key that comes: its bytes go between those of the others, and what lies behind it moves once.
ghost use Rattle.std.specs.Prelude.{◌≡◌, ◌++◌, ◌+◌, ◌≤◌, length, take, drop};
ghost use Rattle.wire.specs.Write.{write};
ghost use Rattle.table.specs.Bytes.{Zeros};
ghost use Rattle.table.specs.Changes.{resized, bytes_put, PutRoom};

use crate::closing::move_bytes;
use table::Shown;
use table::bytes::{copy_in, wipe};
use table::entries::{size_at, start_of};
use wire::limits;

// The part of `old` bytes at `at` gets `new` bytes: what lies behind it, up to `end`, moves once, and what is freed is zero.
fn resize(store: &mut [u8], at: usize, old: usize, new: usize, end: usize)
    requires { (at + old ≤ end) × (end ≤ length store.old) × (end + new ≤ length store.old + old) × Zeros (drop end store.old) }
    ensures { store.new ≡ resized at old new end store.old }
{
    let from = at + old;
    let to = at + new;
    let n = end - from;
    move_bytes(store, from, to, n);
    if to < from {
        wipe(&mut store[to + n..end]);
    }
}

// Blob, fields and comment, behind each other.
fn fill(store: &mut [u8], at: usize, blob: &[u8], fields: &[u8], comment: &[u8])
    requires { at + (length blob.now + (length fields.now + length comment.now)) ≤ length store.old }
    ensures { store.new ≡ write store.old at (blob.now ++ (fields.now ++ comment.now)) }
{
    let behind = at + blob.len();
    let last = behind + fields.len();
    let end = last + comment.len();
    copy_in(&mut store[at..behind], blob);
    copy_in(&mut store[behind..last], fields);
    copy_in(&mut store[last..end], comment);
}

// The bytes of entry i are these; behind the last entry it has none before.
pub fn put_bytes(
    t: Shown<'_>,
    store: &mut [u8],
    i: usize,
    blob: &[u8],
    fields: &[u8],
    comment: &[u8],
)
    requires { PutRoom t.blob_lens.now t.fields_lens.now t.comment_lens.now store.old i (length blob.now + (length fields.now + length comment.now)) }
    ensures { store.new ≡ bytes_put t.entry.blob_lens.now t.entry.fields_lens.now t.entry.comment_lens.now i (blob.now ++ (fields.now ++ comment.now)) store.old }
{
    let at = start_of(t.blob_lens, t.fields_lens, t.comment_lens, i);
    let old = size_at(t.blob_lens, t.fields_lens, t.comment_lens, i);
    let end = start_of(
        t.blob_lens,
        t.fields_lens,
        t.comment_lens,
        limits::ENTRIES_LIMIT,
    );
    let new = blob.len() + (fields.len() + comment.len());
    resize(store, at, old, new, end);
    fill(store, at, blob, fields, comment);
}
