// Derived from keys/agent/server.rs of russh 0.65.0 (Apache-2.0), and changed: see NOTICE.
// The splitter: what the first bytes of a connection hold, and the payload as a part of them.
ghost use Rattle.std.specs.Prelude.{◌≡◌};
ghost use Rattle.wire.specs.Parts.{PartOf};
ghost use Rattle.wire.specs.Frames.{split_of, frame_payload, payload_from};

use crate::limits;
use crate::read::{Cursor, cut};

// A whole frame's payload lies from `from` up to `to`.
#[derive(Clone, Copy)]
pub enum Split {
    MoreNeeded,
    TooLong,
    Frame { from: usize, to: usize },
}

// The greatest length of a payload.
const LIMIT: u32 = limits::PAYLOAD_LIMIT as u32;

pub fn read_frame(s: &[u8]) -> Split
    ensures { result ≡ split_of s.now }
{
    let start = Cursor { at: 0 };
    let Ok((n, next)) = start.number(s) else {
        return Split::MoreNeeded;
    };
    if LIMIT < n {
        return Split::TooLong;
    }
    let from = next.at;
    let to = from + (n as usize);
    if s.len() < to {
        return Split::MoreNeeded;
    }
    Split::Frame { from, to }
}

// Empty unless a frame is whole.
pub fn frame_payload(s: &[u8]) -> &[u8]
    ensures { PartOf s.entry (payload_from s.now) (frame_payload s.now) result }
{
    match read_frame(s) {
        Split::Frame { from, to } => cut(s, from, to),
        Split::MoreNeeded | Split::TooLong => cut(s, 0, 0),
    }
}
