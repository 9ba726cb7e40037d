// A call, and the first call of a request, on a state by value; and the inner ones, which require a sound state and store.
#![tactic(auto)]

ghost use Rattle.table.specs.Soundness.{Sound};
ghost use Rattle.server.specs.Calls.{Meets};
ghost use Rattle.server.specs.First.{FirstMeets};
ghost use Rattle.server.specs.Inner.{InnerMeets, InnerFirstMeets};

use inner::{serve_first_inner, serve_inner};
use lending::{serve, serve_first};
use requests::{Asked, Called};
use rule::Millis;
use server::first::First;
use table::State;

#[derive(Clone, Copy)]
pub struct FirstCalled {
    pub first: First,
    pub state: State,
}

// The state is lent from a local, which is the new state then.
pub fn call(state: State, store: &mut [u8], asked: Asked<'_>, reply: &mut [u8]) -> Called
    ensures { Meets state store.old asked.entry.payload.now asked.entry.reading asked.entry.answers asked.entry.signature.now reply.old result.outcome result.state store.new reply.new }
{
    let mut state = state;
    let outcome = serve(&mut state, store, asked, reply);
    Called { outcome, state }
}

// As `call`, of the first call of a request.
pub fn first_call(
    state: State,
    store: &mut [u8],
    bytes: &[u8],
    reading: Millis,
    reply: &mut [u8],
) -> FirstCalled
    ensures { FirstMeets state store.old bytes.now reading reply.old result.first result.state store.new reply.new }
{
    let mut state = state;
    let first = serve_first(&mut state, store, bytes, reading, reply);
    FirstCalled { first, state }
}

// The inner call (#113), by value: `call` on a state and store that are known to be sound.
// For a Rattle program that owns its state, from `fresh` on or once a call has tested it; none here does.
pub fn inner_call(state: State, store: &mut [u8], asked: Asked<'_>, reply: &mut [u8]) -> Called
    requires { Sound state store.old }
    ensures { InnerMeets state store.old asked.entry.payload.now asked.entry.reading asked.entry.answers asked.entry.signature.now reply.old result.outcome result.state store.new reply.new }
{
    let mut sound = state;
    let outcome = serve_inner(&mut sound, store, asked, reply);
    Called {
        outcome,
        state: sound,
    }
}

// The inner first call (#113), by value: `first_call` on a state and store that are known to be sound.
// For a Rattle program that owns its state, from `fresh` on or once a call has tested it; none here does.
pub fn inner_first_call(
    state: State,
    store: &mut [u8],
    bytes: &[u8],
    reading: Millis,
    reply: &mut [u8],
) -> FirstCalled
    requires { Sound state store.old }
    ensures { InnerFirstMeets state store.old bytes.now reading reply.old result.first result.state store.new reply.new }
{
    let mut sound = state;
    let first = serve_first_inner(&mut sound, store, bytes, reading, reply);
    FirstCalled {
        first,
        state: sound,
    }
}
