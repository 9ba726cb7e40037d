// Whether the libraries answer what is expected, each over plain bytes; a fault with its place.
use crate::parts::{Fields, Limits};
use keys::addition::addition_at;
use keys::constraints::{Walk, constraints};
use keys::kinds::{Places, key_at, put_blob};
use wire::Seconds;
use wire::read::{Cursor, Fault, cut};

// The mpint at a place has its contents from `from` up to `to`; both are 0 where a fault is expected.
pub(crate) fn has_mpint(s: &[u8], at: usize, from: usize, to: usize) -> bool {
    match (Cursor { at }).mpint(s) {
        Ok(found) => found.from == from && found.to == to && found.next.at == to,
        Err(fault) => to == 0 && fault.at == at,
    }
}

fn has_blob(payload: &[u8], places: Places, blob: &[u8]) -> bool {
    let mut out = [0u8; 4096];
    match put_blob(payload, 1, places, &mut out) {
        Some(n) => cut(&out, 0, n) == blob,
        None => false,
    }
}

// The key fields of a payload; their blob is a part of `s`.
pub(crate) fn has_key(s: &[u8], payload: &[u8], want: Result<Fields, Fault>) -> bool {
    match (key_at(payload, 1), want) {
        (Ok(places), Ok(fields)) => {
            places.end == fields.end && has_blob(payload, places, fields.blob.of(s))
        }
        (Err(fault), Err(place)) => fault == place,
        _ => false,
    }
}

fn faulty(ending: u8, place: usize) -> Limits {
    Limits {
        ending,
        place,
        ..Limits::default()
    }
}

fn limits_of(lifetime: Option<Seconds>, confirm: bool) -> Limits {
    match lifetime {
        Some(seconds) => Limits {
            limited: true,
            seconds: seconds.count,
            confirm,
            ..Limits::default()
        },
        None => Limits {
            confirm,
            ..Limits::default()
        },
    }
}

pub(crate) fn has_addition(payload: &[u8], constrained: bool, want: Limits) -> bool {
    let found = match addition_at(payload, 1, constrained) {
        Ok(carried) => limits_of(carried.lifetime, carried.confirm),
        Err(fault) => faulty(1, fault.at),
    };
    found == want
}

pub(crate) fn has_constraints(s: &[u8], from: usize, want: Limits) -> bool {
    let found = match constraints(s, from) {
        Walk::Done { lifetime, confirm } => limits_of(lifetime, confirm),
        Walk::Duplicate(place) => faulty(1, place),
        Walk::Unknown(place) => faulty(2, place),
        Walk::Cut(place) => faulty(3, place),
    };
    found == want
}
