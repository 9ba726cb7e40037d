// Derived from keys/agent/server.rs of russh 0.65.0 (Apache-2.0), and changed: see NOTICE.
// The first call of a request over lent columns: the splitter, and once a frame is whole the call on its payload with nothing lent.
ghost use Rattle.table.specs.Meaning.{held};
ghost use Rattle.table.specs.Soundness.{Sound};
ghost use Rattle.server.specs.First.{FirstMeets};
ghost use Rattle.server.specs.Inner.{InnerFirstMeets};

use crate::call::{call_lent, inner_lent};
use requests::Asked;
use rule::Millis;
use server::first::{First, first_in, nothing_lent};
use table::{Columns, Kept};
use wire::frame::{Split, frame_payload, read_frame};
use wire::limits;
use wire::read::cut;

// What a first call came to, where the rest of the state is lent.
#[derive(Clone, Copy)]
pub struct Heard {
    pub first: First,
    pub kept: Kept,
}

// What the bytes that no request has used come to, over the lent arrays of a state; state, store and reply buffer as `first_of` says.
pub fn first_lent(
    t: &mut Columns,
    passphrase: &mut [u8; limits::PASSPHRASE_LIMIT],
    kept: Kept,
    store: &mut [u8],
    bytes: &[u8],
    reading: Millis,
    reply: &mut [u8],
) -> Heard
    ensures { FirstMeets (held t.old passphrase.old kept) store.old bytes.now reading reply.old result.first (held t.new passphrase.new result.kept) store.new reply.new }
{
    match read_frame(bytes) {
        Split::MoreNeeded => Heard {
            first: First::MoreNeeded,
            kept,
        },
        Split::TooLong => Heard {
            first: First::TooLong,
            kept,
        },
        Split::Frame { from: _, to } => {
            let asked = Asked {
                payload: frame_payload(bytes),
                reading,
                answers: nothing_lent(),
                signature: cut(bytes, 0, 0),
            };
            let landed = call_lent(t, passphrase, kept, store, asked, reply);
            Heard {
                first: first_in(to, landed.outcome),
                kept: landed.kept,
            }
        }
    }
}

// The same on the inner path (#113), over the lent arrays of a sound state. Its `requires` is met by the Rust crate's Gateway, whose state
// only ever comes from the core. One function over either call would have to say what that call requires and ensures of six arguments.
pub fn inner_first_lent(
    t: &mut Columns,
    passphrase: &mut [u8; limits::PASSPHRASE_LIMIT],
    kept: Kept,
    store: &mut [u8],
    bytes: &[u8],
    reading: Millis,
    reply: &mut [u8],
) -> Heard
    requires { Sound (held t.old passphrase.old kept) store.old }
    ensures { InnerFirstMeets (held t.old passphrase.old kept) store.old bytes.now reading reply.old result.first (held t.new passphrase.new result.kept) store.new reply.new }
{
    match read_frame(bytes) {
        Split::MoreNeeded => Heard {
            first: First::MoreNeeded,
            kept,
        },
        Split::TooLong => Heard {
            first: First::TooLong,
            kept,
        },
        Split::Frame { from: _, to } => {
            let asked = Asked {
                payload: frame_payload(bytes),
                reading,
                answers: nothing_lent(),
                signature: cut(bytes, 0, 0),
            };
            let landed = inner_lent(t, passphrase, kept, store, asked, reply);
            Heard {
                first: first_in(to, landed.outcome),
                kept: landed.kept,
            }
        }
    }
}
