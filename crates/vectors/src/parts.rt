// What the records of this program are read as: a value and the place behind it, or none where it is malformed.
use report::parts::{read_flag, read_place};
use wire::read::{Cursor, Fault, Span};

// Key fields that are whole: where they end, and their blob.
#[derive(Clone, Copy)]
pub struct Fields {
    pub end: usize,
    pub blob: Span,
}

// How constraints end: 0 at the end, 1 a second lifetime, 2 an unknown byte, 3 cut seconds; of an addition any fault is 1. What they say, or
// where the fault is; what has no meaning is 0. No Option: a record that says otherwise is to differ.
#[derive(Clone, Copy, Default, PartialEq, Eq)]
pub struct Limits {
    pub ending: u8,
    pub limited: bool,
    pub seconds: u32,
    pub confirm: bool,
    pub place: usize,
}

// A flag; if it is set the end of the fields and their blob, else the place of their fault.
pub(crate) fn read_fields(s: &[u8], c: Cursor) -> Option<(Result<Fields, Fault>, Cursor)> {
    let (whole, a) = read_flag(s, c)?;
    let (end, b) = read_place(s, a)?;
    if !whole {
        return Some((Err(Fault { at: end }), b));
    }
    let blob = b.string(s).ok()?;
    let fields = Fields {
        end,
        blob: Span::from(blob),
    };
    Some((Ok(fields), blob.next))
}

pub(crate) fn read_limits(s: &[u8], c: Cursor) -> Option<(Limits, Cursor)> {
    let (ending, a) = c.byte(s).ok()?;
    let (limited, b) = read_flag(s, a)?;
    let (seconds, d) = b.number(s).ok()?;
    let (confirm, e) = read_flag(s, d)?;
    let (place, next) = read_place(s, e)?;
    let limits = Limits {
        ending,
        limited,
        seconds,
        confirm,
        place,
    };
    Some((limits, next))
}
