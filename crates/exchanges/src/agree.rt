// Whether client and readers answer what is expected, each over plain bytes.
ghost use Rattle.std.specs.Prelude.{◌≡◌, length};
ghost use Rattle.wire.specs.Refusals.{refusal_number};

use crate::parts::{Entry, Piece, Request, Why, Writing};
use client::writers::{
    add_smartcard_key, lock, prepare_sign_request, remove_smartcard_key, request_identities, unlock,
};
use readers::identities::{Blob, identities, identity, identity_blob};
use readers::signature::write_signature;
use wire::Constraint;
use wire::frame::{Split, frame_payload, read_frame};
use wire::read::cut;
use wire::refusal::Refusal;

// Longer than any frame.
const ROOM: usize = 262400;

const LETTER: u8 = b'a';

// What an output holds before it is written to.
const BLANK: u8 = 165;

fn number_of(refusal: Refusal) -> u8
    ensures { result ≡ refusal_number refusal }
{
    match refusal {
        Refusal::OutputTooShort => 11,
        Refusal::Malformed(_) => 12,
        Refusal::UnfitType => 13,
        Refusal::AgentFailure => 14,
        Refusal::OtherReply => 15,
        Refusal::NoSuchItem => 16,
        Refusal::PayloadTooLong => 17,
        Refusal::TooManyConstraints => 18,
    }
}

// The place of a fault, 0 where there is none.
fn place_of(refusal: Refusal) -> usize {
    let Refusal::Malformed(at) = refusal else {
        return 0;
    };
    at
}

fn is_why(refusal: Refusal, want: Why) -> bool {
    let why = Why {
        number: number_of(refusal),
        place: place_of(refusal),
    };
    why == want
}

// The first bytes of a room, all of them where it is shorter.
fn front(room: &mut [u8], n: usize) -> &mut [u8] {
    if room.len() < n {
        return room;
    }
    &mut room[..n]
}

fn is_all(v: &[u8], b: u8) -> bool {
    v.iter().all(|x| *x == b)
}

// A room full of one byte: a function of its own, so that no proof writes out so many.
fn full_of(b: u8) -> [u8; ROOM] {
    [b; ROOM]
}

pub(crate) fn letters() -> [u8; ROOM] {
    full_of(LETTER)
}

// The piece, put to the front of a room of letters; none where it has no room.
pub(crate) fn put_piece<'a>(s: &[u8], p: Piece, room: &'a mut [u8]) -> &'a [u8] {
    let bytes = p.bytes.of(s);
    let n = bytes.len();
    if room.len() < n || room.len() - n < p.letters {
        return &room[..0];
    }
    room[..n].copy_from_slice(bytes);
    &room[..n + p.letters]
}

fn is_piece(s: &[u8], p: Piece, v: &[u8]) -> bool {
    match v.strip_prefix(p.bytes.of(s)) {
        Some(more) => more.len() == p.letters && is_all(more, LETTER),
        None => false,
    }
}

fn is_written(s: &[u8], want: Writing, v: &[u8]) -> bool {
    match v.strip_suffix(want.tail.of(s)) {
        Some(first) => is_piece(s, want.front, first),
        None => false,
    }
}

// The writer wrote what it is to write, or refused as it is to; all other bytes of the output are as they were.
fn is_done(s: &[u8], want: Writing, wrote: Result<usize, Refusal>, out: &[u8]) -> bool {
    match (wrote, want.refusal) {
        (Err(refusal), Some(why)) => is_why(refusal, why) && is_all(out, BLANK),
        (Ok(n), None) => {
            is_written(s, want, cut(out, 0, n)) && is_all(cut(out, n, out.len()), BLANK)
        }
        _ => false,
    }
}

// Lends a writer its room.
fn does<W: FnOnce(&mut [u8]) -> Result<usize, Refusal>>(s: &[u8], want: Writing, write: W) -> bool
    requires { W.IsAlwaysCallable write }
{
    let mut all = full_of(BLANK);
    let out = front(&mut all, want.room);
    let wrote = write(out);
    is_done(s, want, wrote, out)
}

// The kind of what the bytes hold: 0 more needed, 1 too long, 2 a frame.
fn kind_of(split: Split) -> u8 {
    match split {
        Split::MoreNeeded => 0,
        Split::TooLong => 1,
        Split::Frame { from: _, to: _ } => 2,
    }
}

pub(crate) fn has_frame(s: &[u8], bytes: &[u8], kind: u8, payload: Piece) -> bool {
    kind_of(read_frame(bytes)) == kind && is_piece(s, payload, frame_payload(bytes))
}

// By the message number. A number that no writer has gives what no writer is to do.
fn write_request(
    message: u8,
    first: &[u8],
    second: &[u8],
    flags: u32,
    out: &mut [u8],
) -> Result<usize, Refusal> {
    match message {
        11 => request_identities(out),
        13 => prepare_sign_request(first, second, flags, out),
        21 => remove_smartcard_key(first, second, out),
        22 => lock(first, out),
        23 => unlock(first, out),
        _ => Err(Refusal::OtherReply),
    }
}

pub(crate) fn has_request(s: &[u8], r: Request, want: Writing) -> bool {
    let mut a = letters();
    let mut b = letters();
    let first = put_piece(s, r.first, &mut a);
    let second = put_piece(s, r.second, &mut b);
    does(s, want, |out| {
        write_request(r.message, first, second, r.flags, out)
    })
}

// The request's flags are the number of constraints.
pub(crate) fn has_card(s: &[u8], r: Request, cs: [Constraint; 4], want: Writing) -> bool {
    let mut a = letters();
    let mut b = letters();
    let id = put_piece(s, r.first, &mut a);
    let pin = put_piece(s, r.second, &mut b);
    let count = r.flags as usize;
    does(s, want, |out| add_smartcard_key(id, pin, cs, count, out))
}

pub(crate) fn has_count(payload: &[u8], want: Option<Why>, count: usize) -> bool {
    match (identities(payload), want) {
        (Ok(n), None) => n == count,
        (Err(refusal), Some(why)) => is_why(refusal, why),
        _ => false,
    }
}

fn is_entry(item: Result<Blob, Refusal>, want: Entry) -> bool {
    match (item, want.refusal) {
        (Ok(blob), None) => blob == want.blob,
        (Err(refusal), Some(why)) => is_why(refusal, why),
        _ => false,
    }
}

pub(crate) fn has_item(payload: &[u8], index: usize, want: Entry) -> bool {
    let blob = cut(payload, want.blob.from, want.blob.to);
    is_entry(identity(payload, index), want) && identity_blob(payload, index) == blob
}

pub(crate) fn has_signature(s: &[u8], payload: &[u8], hash: u32, want: Writing) -> bool {
    does(s, want, |out| write_signature(payload, hash, out))
}
