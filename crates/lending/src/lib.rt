// The thin forms: the state is lent by the gateway's loop, and altered there. Nothing is copied but clock, next number and the lock's length.
#![tactic(auto)]

ghost use Rattle.server.specs.Calls.{Meets};
ghost use Rattle.server.specs.First.{FirstMeets};
ghost use Rattle.lending.specs.Lent.{Lands, Hears};

use engine::call::call_lent;
use engine::first::{Heard, first_lent};
use requests::{Asked, Landed, Outcome};
use rule::Millis;
use server::first::First;
use table::{Kept, State};

// Lends the arrays of the state where they lie to the covered step. Clock, next number and the lock's length in the state stay.
fn land(
    state: &mut State,
    kept: Kept,
    store: &mut [u8],
    asked: Asked<'_>,
    reply: &mut [u8],
) -> Landed
    ensures { Lands state.old kept store.old asked.entry.payload.now asked.entry.reading asked.entry.answers asked.entry.signature.now reply.old result state.new store.new reply.new }
{
    call_lent(
        &mut state.columns,
        &mut state.lock.bytes,
        kept,
        store,
        asked,
        reply,
    )
}

// Calls the covered step, and stores the new state: what came back by value.
pub fn serve(state: &mut State, store: &mut [u8], asked: Asked<'_>, reply: &mut [u8]) -> Outcome
    ensures { Meets state.old store.old asked.entry.payload.now asked.entry.reading asked.entry.answers asked.entry.signature.now reply.old result state.new store.new reply.new }
{
    let kept = state.kept();
    let r = land(state, kept, store, asked, reply);
    state.keep(r.kept);
    r.outcome
}

// As `land`, of the first call of a request.
fn hear(
    state: &mut State,
    kept: Kept,
    store: &mut [u8],
    bytes: &[u8],
    reading: Millis,
    reply: &mut [u8],
) -> Heard
    ensures { Hears state.old kept store.old bytes.now reading reply.old result state.new store.new reply.new }
{
    first_lent(
        &mut state.columns,
        &mut state.lock.bytes,
        kept,
        store,
        bytes,
        reading,
        reply,
    )
}

// As `serve`, of the first call of a request.
pub fn serve_first(
    state: &mut State,
    store: &mut [u8],
    bytes: &[u8],
    reading: Millis,
    reply: &mut [u8],
) -> First
    ensures { FirstMeets state.old store.old bytes.now reading reply.old result state.new store.new reply.new }
{
    let kept = state.kept();
    let r = hear(state, kept, store, bytes, reading, reply);
    state.keep(r.kept);
    r.first
}
