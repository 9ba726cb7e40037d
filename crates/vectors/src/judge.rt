// Each kind of record: reads it, and compares; none where it is malformed.
use crate::agree::{has_addition, has_constraints, has_key, has_mpint};
use crate::parts::{read_fields, read_limits};
use report::parts::{read_changed, read_flag, read_place};
use wire::read::{Cursor, Span, cut, is_mpint};
use wire::utf8::utf8_end;

// Contents, and whether they are a positive mpint in its shortest form.
fn mpint(s: &[u8], c: Cursor) -> Option<(bool, Cursor)> {
    let v = c.string(s).ok()?;
    let (yes, next) = read_flag(s, v.next)?;
    Some((is_mpint(Span::from(v).of(s)) == yes, next))
}

// Bytes, a place in them, and where the contents of the mpint there lie.
fn mpint_string(s: &[u8], c: Cursor) -> Option<(bool, Cursor)> {
    let bytes = c.string(s).ok()?;
    let (at, a) = read_place(s, bytes.next)?;
    let (from, b) = read_place(s, a)?;
    let (to, next) = read_place(s, b)?;
    Some((has_mpint(Span::from(bytes).of(s), at, from, to), next))
}

// Bytes, and where their longest part of UTF-8 ends.
fn utf8(s: &[u8], c: Cursor) -> Option<(bool, Cursor)> {
    let bytes = c.string(s).ok()?;
    let (end, next) = read_place(s, bytes.next)?;
    Some((utf8_end(Span::from(bytes).of(s)) == end, next))
}

// What is expected of the key fields of a payload.
fn key(s: &[u8], c: Cursor, payload: &[u8]) -> Option<(bool, Cursor)> {
    let (want, next) = read_fields(s, c)?;
    Some((has_key(s, payload, want), next))
}

// Whether a payload has constraints, and what is expected of it as an addition.
fn addition(s: &[u8], c: Cursor, payload: &[u8]) -> Option<(bool, Cursor)> {
    let (constrained, a) = read_flag(s, c)?;
    let (want, next) = read_limits(s, a)?;
    Some((has_addition(payload, constrained, want), next))
}

// A payload, and what is expected of it.
fn given<F: FnOnce(&[u8], Cursor, &[u8]) -> Option<(bool, Cursor)>>(
    s: &[u8],
    c: Cursor,
    expected: F,
) -> Option<(bool, Cursor)>
    requires { F.IsAlwaysCallable expected }
{
    let payload = c.string(s).ok()?;
    expected(s, payload.next, Span::from(payload).of(s))
}

// A change of the section's payload, and what is expected of it then.
fn changed<F: FnOnce(&[u8], Cursor, &[u8]) -> Option<(bool, Cursor)>>(
    s: &[u8],
    c: Cursor,
    base: &[u8],
    expected: F,
) -> Option<(bool, Cursor)>
    requires { F.IsAlwaysCallable expected }
{
    let mut room = [0u8; 4096];
    let (n, next) = read_changed(s, c, base, &mut room)?;
    expected(s, next, cut(&room, 0, n))
}

// Bytes, where in them the constraints start, and what is expected of these.
fn constraints(s: &[u8], c: Cursor) -> Option<(bool, Cursor)> {
    let bytes = c.string(s).ok()?;
    let (from, a) = read_place(s, bytes.next)?;
    let (want, next) = read_limits(s, a)?;
    Some((has_constraints(Span::from(bytes).of(s), from, want), next))
}

pub(crate) fn judge(s: &[u8], c: Cursor, kind: u8, base: &[u8]) -> Option<(bool, Cursor)> {
    match kind {
        1 => mpint(s, c),
        2 => mpint_string(s, c),
        3 => utf8(s, c),
        4 => given(s, c, key),
        5 => given(s, c, addition),
        6 => changed(s, c, base, key),
        7 => changed(s, c, base, addition),
        8 => constraints(s, c),
        _ => None,
    }
}
