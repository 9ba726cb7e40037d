// What a record is read as: a step, and the answer that is expected of it.
use keys::addition::Carried;
use keys::kinds::Places;
use report::parts::{read_flag, read_place};
use wire::Seconds;
use wire::read::{Cursor, Span, cut};

// What a step does not need is zero. `bytes` is a blob or a passphrase; `payload` has fields and comment as in an add request, behind a first byte.
#[derive(Clone, Copy)]
pub struct Task<'a> {
    pub op: u8,
    pub part: u8,
    pub place: usize,
    pub value: u32,
    pub bytes: &'a [u8],
    pub payload: &'a [u8],
    pub carried: Carried,
    pub want: u32,
}

pub(crate) fn read_task(s: &[u8], c: Cursor) -> Option<(Task<'_>, Cursor)> {
    let (op, c) = c.byte(s).ok()?;
    let (part, c) = c.byte(s).ok()?;
    let (place, c) = read_place(s, c)?;
    let (value, c) = c.number(s).ok()?;
    let (limited, c) = read_flag(s, c)?;
    let (confirm, c) = read_flag(s, c)?;
    let bytes = c.string(s).ok()?;
    let fields = bytes.next.string(s).ok()?;
    let comment = fields.next.string(s).ok()?;
    let (want, next) = comment.next.number(s).ok()?;
    let start = fields.from.saturating_sub(1);
    let carried = Carried {
        places: Places {
            front: 0,
            swap: 0,
            back: 0,
            end: fields.to.saturating_sub(start),
        },
        comment: Span {
            from: comment.from.saturating_sub(start),
            to: comment.to.saturating_sub(start),
        },
        lifetime: limited.then_some(Seconds { count: value }),
        confirm,
    };
    let task = Task {
        op,
        part,
        place,
        value,
        bytes: cut(s, bytes.from, bytes.to),
        payload: cut(s, start, comment.to),
        carried,
        want,
    };
    Some((task, next))
}
