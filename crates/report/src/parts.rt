// What records are read as: a value and the place behind it, or none where it is malformed. Numbers and strings are those of the wire.
ghost use Rattle.std.specs.Prelude.{◌≡◌};
ghost use Rattle.report.specs.Parts.{flag_at, place_at, change_at, changed_at, changed_left};

use wire::read::Cursor;
use wire::write::put_bytes;

// The first `length` bytes of a base, with `value` at `place`.
#[derive(Clone, Copy)]
pub struct Change {
    pub length: usize,
    pub place: usize,
    pub value: u8,
}

// A byte that is 0 or 1.
pub fn read_flag(s: &[u8], c: Cursor) -> Option<(bool, Cursor)>
    ensures { result ≡ flag_at s.now c.at }
{
    let (b, next) = c.byte(s).ok()?;
    match b {
        0 => Some((false, next)),
        1 => Some((true, next)),
        _ => None,
    }
}

pub fn read_place(s: &[u8], c: Cursor) -> Option<(usize, Cursor)>
    ensures { result ≡ place_at s.now c.at }
{
    let (n, next) = c.number(s).ok()?;
    Some((n as usize, next))
}

fn read_change(s: &[u8], c: Cursor) -> Option<(Change, Cursor)>
    ensures { result ≡ change_at s.now c.at }
{
    let (length, a) = read_place(s, c)?;
    let (place, b) = read_place(s, a)?;
    let (value, next) = b.byte(s).ok()?;
    let change = Change {
        length,
        place,
        value,
    };
    Some((change, next))
}

// Puts the base, changed as the record says, to the front of the room; how much of it counts.
pub fn read_changed(s: &[u8], c: Cursor, base: &[u8], room: &mut [u8]) -> Option<(usize, Cursor)>
    ensures { (result ≡ changed_at s.now c.at base.now room.old)
        × (room.new ≡ changed_left s.now c.at base.now room.old) }
{
    let (change, next) = read_change(s, c)?;
    if room.len() < base.len() || base.len() <= change.place {
        return None;
    }
    put_bytes(room, 0, base);
    room[change.place] = change.value;
    Some((change.length, next))
}
