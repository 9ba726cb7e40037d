// What the records of this program are read as: a value and the place behind it, or none where it is malformed.
use readers::identities::Blob;
use report::parts::{read_flag, read_place};
use wire::read::{Cursor, Span};
use wire::{Constraint, Seconds};

// Bytes, and as many letters behind them.
#[derive(Clone, Copy)]
pub struct Piece {
    pub bytes: Span,
    pub letters: usize,
}

// A request's message number and parts; those that it does not have are empty.
#[derive(Clone, Copy)]
pub struct Request {
    pub message: u8,
    pub first: Piece,
    pub second: Piece,
    pub flags: u32,
}

// The number of a refusal, and the place of its fault, 0 where it has none. No `Refusal`: a record may say what none has, and is then to differ.
#[derive(Clone, Copy, PartialEq, Eq)]
pub struct Why {
    pub number: u8,
    pub place: usize,
}

// The room that a writer is lent, and what it is to do: its refusal, or what it writes.
#[derive(Clone, Copy)]
pub struct Writing {
    pub room: usize,
    pub refusal: Option<Why>,
    pub front: Piece,
    pub tail: Span,
}

// What is expected of an item: its refusal, or its blob.
#[derive(Clone, Copy)]
pub struct Entry {
    pub refusal: Option<Why>,
    pub blob: Blob,
}

// What is expected of a list, and of the item with an index.
#[derive(Clone, Copy)]
pub struct Items {
    pub refusal: Option<Why>,
    pub count: usize,
    pub index: usize,
    pub item: Entry,
}

pub(crate) fn read_piece(s: &[u8], c: Cursor) -> Option<(Piece, Cursor)> {
    let bytes = c.string(s).ok()?;
    let (letters, next) = read_place(s, bytes.next)?;
    let piece = Piece {
        bytes: Span::from(bytes),
        letters,
    };
    Some((piece, next))
}

pub(crate) fn read_request(s: &[u8], c: Cursor) -> Option<(Request, Cursor)> {
    let (message, a) = c.byte(s).ok()?;
    let (first, b) = read_piece(s, a)?;
    let (second, d) = read_piece(s, b)?;
    let (flags, next) = d.number(s).ok()?;
    let request = Request {
        message,
        first,
        second,
        flags,
    };
    Some((request, next))
}

// Whether there is a lifetime, and its seconds.
pub(crate) fn read_limit(s: &[u8], c: Cursor) -> Option<(Constraint, Cursor)> {
    let (limited, a) = read_flag(s, c)?;
    let (count, next) = a.number(s).ok()?;
    if !limited {
        return Some((Constraint::Confirm, next));
    }
    let seconds = Seconds { count };
    Some((Constraint::KeyLifetime { seconds }, next))
}

// A number of 0 is no refusal.
fn read_reason(s: &[u8], c: Cursor) -> Option<(Option<Why>, Cursor)> {
    let (number, a) = c.byte(s).ok()?;
    let (place, next) = read_place(s, a)?;
    if number == 0 {
        return Some((None, next));
    }
    Some((Some(Why { number, place }), next))
}

pub(crate) fn read_writing(s: &[u8], c: Cursor) -> Option<(Writing, Cursor)> {
    let (room, a) = read_place(s, c)?;
    let (refusal, b) = read_reason(s, a)?;
    let (front, d) = read_piece(s, b)?;
    let tail = d.string(s).ok()?;
    let writing = Writing {
        room,
        refusal,
        front,
        tail: Span::from(tail),
    };
    Some((writing, tail.next))
}

fn read_entry(s: &[u8], c: Cursor) -> Option<(Entry, Cursor)> {
    let (refusal, a) = read_reason(s, c)?;
    let (from, b) = read_place(s, a)?;
    let (to, d) = read_place(s, b)?;
    let (certificate, next) = read_flag(s, d)?;
    let blob = Blob {
        from,
        to,
        certificate,
    };
    Some((Entry { refusal, blob }, next))
}

pub(crate) fn read_items(s: &[u8], c: Cursor) -> Option<(Items, Cursor)> {
    let (refusal, a) = read_reason(s, c)?;
    let (count, b) = read_place(s, a)?;
    let (index, d) = read_place(s, b)?;
    let (item, next) = read_entry(s, d)?;
    let items = Items {
        refusal,
        count,
        index,
        item,
    };
    Some((items, next))
}
