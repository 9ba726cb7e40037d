// The inner forms (#113): as crate `lending`, but the state that is lent is sound, and no call tests it. Nothing is copied but clock, next number and
// the lock's length.
// A trait over both crates' callees, with a value for each, would be longer than the four functions.
#![tactic(auto)]

ghost use Rattle.table.specs.Soundness.{Sound};
ghost use Rattle.server.specs.Inner.{InnerMeets, InnerFirstMeets};
ghost use Rattle.lending.specs.Lent.{beside};
ghost use Rattle.inner.specs.Lent.{InnerLands, InnerHears};

use engine::call::inner_lent;
use engine::first::{Heard, inner_first_lent};
use requests::{Asked, Landed, Outcome};
use rule::Millis;
use server::first::First;
use table::{Kept, State};

// Lends the arrays of the state where they lie to the covered step. Clock, next number and the lock's length in the state stay.
fn land_inner(
    state: &mut State,
    kept: Kept,
    store: &mut [u8],
    asked: Asked<'_>,
    reply: &mut [u8],
) -> Landed
    requires { Sound (beside state.old kept) store.old }
    ensures { InnerLands state.old kept store.old asked.entry.payload.now asked.entry.reading asked.entry.answers asked.entry.signature.now reply.old result state.new store.new reply.new }
{
    inner_lent(
        &mut state.columns,
        &mut state.lock.bytes,
        kept,
        store,
        asked,
        reply,
    )
}

// Calls the covered step, and stores the new state: what came back by value. Who calls the exported inner call meets the `requires`: the Rust crate's
// Gateway, whose state only ever comes from the core.
pub fn serve_inner(
    state: &mut State,
    store: &mut [u8],
    asked: Asked<'_>,
    reply: &mut [u8],
) -> Outcome
    requires { Sound state.old store.old }
    ensures { InnerMeets state.old store.old asked.entry.payload.now asked.entry.reading asked.entry.answers asked.entry.signature.now reply.old result state.new store.new reply.new }
{
    let kept = state.kept();
    let r = land_inner(state, kept, store, asked, reply);
    state.keep(r.kept);
    r.outcome
}

// As `land_inner`, of the first call of a request.
fn hear_inner(
    state: &mut State,
    kept: Kept,
    store: &mut [u8],
    bytes: &[u8],
    reading: Millis,
    reply: &mut [u8],
) -> Heard
    requires { Sound (beside state.old kept) store.old }
    ensures { InnerHears state.old kept store.old bytes.now reading reply.old result state.new store.new reply.new }
{
    inner_first_lent(
        &mut state.columns,
        &mut state.lock.bytes,
        kept,
        store,
        bytes,
        reading,
        reply,
    )
}

// As `serve_inner`, of the first call of a request; its `requires` is met as there.
pub fn serve_first_inner(
    state: &mut State,
    store: &mut [u8],
    bytes: &[u8],
    reading: Millis,
    reply: &mut [u8],
) -> First
    requires { Sound state.old store.old }
    ensures { InnerFirstMeets state.old store.old bytes.now reading reply.old result state.new store.new reply.new }
{
    let kept = state.kept();
    let r = hear_inner(state, kept, store, bytes, reading, reply);
    state.keep(r.kept);
    r.first
}
