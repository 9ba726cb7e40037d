// What is asked of a state and its store, sound or not. Where there is nothing to answer it is 99.
use table::bytes::is_zero;
use table::locks::is_passphrase;
use table::{Columns, LockRecord};
use wire::limits;

// What the columns have at one index, by the number of the part.
pub(crate) fn part_of(t: &Columns, part: u8, i: usize) -> u64 {
    if limits::ENTRIES_LIMIT <= i {
        return 99;
    }
    match part {
        1 => t.numbers[i],
        2 => t.readings[i],
        3 => t.limited[i].into(),
        4 => t.seconds[i].into(),
        5 => t.confirm[i].into(),
        6 => t.blob_lens[i] as u64,
        7 => t.fields_lens[i] as u64,
        8 => t.comment_lens[i] as u64,
        _ => 99,
    }
}

// Does the store begin with these bytes, and is all behind them zero?
pub(crate) fn is_stored(store: &[u8], bytes: &[u8]) -> bool {
    store.starts_with(bytes) && is_zero(&store[bytes.len()..])
}

pub(crate) fn is_locked_with(lock: &LockRecord, passphrase: &[u8]) -> bool {
    lock.len <= lock.bytes.len() && is_passphrase(&lock.bytes, lock.len, passphrase)
}
