// Each kind of record: reads it, and compares; none where it is malformed.
use crate::agree::{
    has_card, has_count, has_frame, has_item, has_request, has_signature, letters, put_piece,
};
use crate::parts::{read_items, read_limit, read_piece, read_request, read_writing};
use report::parts::read_changed;
use wire::read::{Cursor, cut};

// A request, and what its writer is to do.
fn request(s: &[u8], c: Cursor) -> Option<(bool, Cursor)> {
    let (r, a) = read_request(s, c)?;
    let (want, next) = read_writing(s, a)?;
    Some((has_request(s, r, want), next))
}

// A request to add a smartcard, whose flags are the number of constraints, then four of these, and what its writer is to do.
fn card(s: &[u8], c: Cursor) -> Option<(bool, Cursor)> {
    let (r, a) = read_request(s, c)?;
    let (w, b) = read_limit(s, a)?;
    let (x, d) = read_limit(s, b)?;
    let (y, e) = read_limit(s, d)?;
    let (z, f) = read_limit(s, e)?;
    let (want, next) = read_writing(s, f)?;
    Some((has_card(s, r, [w, x, y, z], want), next))
}

// What the splitter is to find in bytes, and the payload.
fn frame(s: &[u8], c: Cursor, bytes: &[u8]) -> Option<(bool, Cursor)> {
    let (kind, a) = c.byte(s).ok()?;
    let (payload, next) = read_piece(s, a)?;
    Some((has_frame(s, bytes, kind, payload), next))
}

// What is expected of a list reply.
fn list(s: &[u8], c: Cursor, payload: &[u8]) -> Option<(bool, Cursor)> {
    let (want, next) = read_items(s, c)?;
    let agrees = has_count(payload, want.refusal, want.count)
        && has_item(payload, want.index, want.item);
    Some((agrees, next))
}

// A hash, and what the signature reader is to do with a sign reply.
fn signature(s: &[u8], c: Cursor, payload: &[u8]) -> Option<(bool, Cursor)> {
    let (hash, a) = c.number(s).ok()?;
    let (want, next) = read_writing(s, a)?;
    Some((has_signature(s, payload, hash, want), next))
}

// Bytes, and what is expected of them.
fn given<F: FnOnce(&[u8], Cursor, &[u8]) -> Option<(bool, Cursor)>>(
    s: &[u8],
    c: Cursor,
    expected: F,
) -> Option<(bool, Cursor)>
    requires { F.IsAlwaysCallable expected }
{
    let (piece, next) = read_piece(s, c)?;
    let mut room = letters();
    expected(s, next, put_piece(s, piece, &mut room))
}

// A change of the section's base, and what is expected of it then.
fn changed<F: FnOnce(&[u8], Cursor, &[u8]) -> Option<(bool, Cursor)>>(
    s: &[u8],
    c: Cursor,
    base: &[u8],
    expected: F,
) -> Option<(bool, Cursor)>
    requires { F.IsAlwaysCallable expected }
{
    let mut room = [0u8; 4096];
    let (n, next) = read_changed(s, c, base, &mut room)?;
    expected(s, next, cut(&room, 0, n))
}

pub(crate) fn judge(s: &[u8], c: Cursor, kind: u8, base: &[u8]) -> Option<(bool, Cursor)> {
    match kind {
        1 => request(s, c),
        2 => card(s, c),
        3 => given(s, c, frame),
        4 => changed(s, c, base, frame),
        5 => given(s, c, list),
        6 => changed(s, c, base, list),
        7 => given(s, c, signature),
        8 => changed(s, c, base, signature),
        _ => None,
    }
}
