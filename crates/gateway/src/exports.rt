// What C and Rust link, by crate `gateway_c`, which exports each of these. include/key_agent.h says what the other side must keep; of the inner
// calls, their `requires`.
ghost use Rattle.std.specs.Prelude.{◌≡◌};
ghost use Rattle.rule.specs.Gateway.{fresh as fresh_gateway};
ghost use Rattle.table.specs.Meaning.{state_of};
ghost use Rattle.table.specs.Soundness.{sound_state, Sound};
ghost use Rattle.lookups.specs.Told.{key_told, next_told};
ghost use Rattle.flat.specs.Flat.{flat_split};
ghost use Rattle.gateway.specs.Exports.{FlatMeets, FlatFirstMeets, FlatInnerMeets, FlatInnerFirstMeets};

use flat::{FlatAnswers, FlatFirst, FlatOutcome, FlatSplit, answers_of, first_of, flat_of, split};
use inner::{serve_first_inner, serve_inner};
use lending::{serve, serve_first};
use lookups::HeldKey;
use lookups::held::key_of;
use lookups::order::next_of;
use requests::Asked;
use rule::Millis;
use soundness::is_state_sound;
use table::{State, fresh};

#[unsafe(no_mangle)]
pub extern "C" fn key_agent_fresh() -> State
    ensures { result ≡ state_of fresh_gateway }
{
    fresh()
}

// For a host that restores a state and its store: what refusal 3 tests, and no call is made.
#[unsafe(no_mangle)]
pub extern "C" fn key_agent_is_sound(state: State, store: &[u8]) -> bool
    ensures { result ≡ sound_state state store.now }
{
    is_state_sound(&state, store)
}

#[unsafe(no_mangle)]
pub extern "C" fn key_agent_call(
    state: &mut State,
    store: &mut [u8],
    payload: &[u8],
    reading: Millis,
    answers: FlatAnswers,
    signature: &[u8],
    reply: &mut [u8],
) -> FlatOutcome
    ensures { FlatMeets state.old store.old payload.now reading answers signature.now reply.old result state.new store.new reply.new }
{
    let asked = Asked {
        payload,
        reading,
        answers: answers_of(answers),
        signature,
    };
    let outcome = serve(state, store, asked, reply);
    flat_of(outcome)
}

// The first call of a request, from the connection's bytes: no payload is handed in, so no length can stand in front of it.
#[unsafe(no_mangle)]
pub extern "C" fn key_agent_first(
    state: &mut State,
    store: &mut [u8],
    bytes: &[u8],
    reading: Millis,
    reply: &mut [u8],
) -> FlatFirst
    ensures { FlatFirstMeets state.old store.old bytes.now reading reply.old result state.new store.new reply.new }
{
    let first = serve_first(state, store, bytes, reading, reply);
    first_of(first)
}

// The inner calls (#113) test neither state nor store, and are not in the C header: of what is published the Rust crate alone declares them, behind a
// type whose state and store only ever come from the core.
#[unsafe(no_mangle)]
pub extern "C" fn key_agent_inner_call(
    state: &mut State,
    store: &mut [u8],
    payload: &[u8],
    reading: Millis,
    answers: FlatAnswers,
    signature: &[u8],
    reply: &mut [u8],
) -> FlatOutcome
    requires { Sound state.old store.old }
    ensures { FlatInnerMeets state.old store.old payload.now reading answers signature.now reply.old result state.new store.new reply.new }
{
    let asked = Asked {
        payload,
        reading,
        answers: answers_of(answers),
        signature,
    };
    let outcome = serve_inner(state, store, asked, reply);
    flat_of(outcome)
}

#[unsafe(no_mangle)]
pub extern "C" fn key_agent_inner_first(
    state: &mut State,
    store: &mut [u8],
    bytes: &[u8],
    reading: Millis,
    reply: &mut [u8],
) -> FlatFirst
    requires { Sound state.old store.old }
    ensures { FlatInnerFirstMeets state.old store.old bytes.now reading reply.old result state.new store.new reply.new }
{
    let first = serve_first_inner(state, store, bytes, reading, reply);
    first_of(first)
}

#[unsafe(no_mangle)]
pub extern "C" fn key_agent_split(bytes: &[u8]) -> FlatSplit
    ensures { result ≡ flat_split bytes.now }
{
    split(bytes)
}

// What a host needs of the key that a question named; number 0 where none is held, and where state and store are not sound.
#[unsafe(no_mangle)]
pub extern "C" fn key_agent_key(state: State, store: &[u8], number: u64) -> HeldKey
    ensures { result ≡ key_told state store.now number }
{
    key_of(state, store, number)
}

// The least held number above `after`, 0 where there is none or state and store are not sound: from 0 on, all held keys in order of insertion.
#[unsafe(no_mangle)]
pub extern "C" fn key_agent_next(state: State, store: &[u8], after: u64) -> u64
    ensures { result ≡ next_told state store.now after }
{
    next_of(state, store, after)
}
