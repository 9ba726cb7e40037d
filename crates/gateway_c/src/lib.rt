// What C and Rust link: the functions of `gateway`, under the same clauses. A library exports nothing, and a static library is none to other crates, so
// these stand above it. include/key_agent.h says what the other side must keep; of the inner calls, their `requires`.
#![tactic(auto)]

ghost use Rattle.std.specs.Prelude.{◌≡◌};
ghost use Rattle.rule.specs.Gateway.{fresh as fresh_gateway};
ghost use Rattle.table.specs.Meaning.{state_of};
ghost use Rattle.table.specs.Soundness.{sound_state, Sound};
ghost use Rattle.lookups.specs.Told.{key_told, next_told};
ghost use Rattle.flat.specs.Flat.{flat_split};
ghost use Rattle.gateway.specs.Exports.{FlatMeets, FlatFirstMeets, FlatInnerMeets, FlatInnerFirstMeets};

use flat::{FlatAnswers, FlatFirst, FlatOutcome, FlatSplit};
use gateway::exports;
use lookups::HeldKey;
use rule::Millis;
use table::State;

#[unsafe(no_mangle)]
pub extern "C" fn key_agent_fresh() -> State
    ensures { result ≡ state_of fresh_gateway }
{
    exports::key_agent_fresh()
}

#[unsafe(no_mangle)]
pub extern "C" fn key_agent_is_sound(state: State, store: &[u8]) -> bool
    ensures { result ≡ sound_state state store.now }
{
    exports::key_agent_is_sound(state, store)
}

#[unsafe(no_mangle)]
pub extern "C" fn key_agent_call(
    state: &mut State,
    store: &mut [u8],
    payload: &[u8],
    reading: Millis,
    answers: FlatAnswers,
    signature: &[u8],
    reply: &mut [u8],
) -> FlatOutcome
    ensures { FlatMeets state.old store.old payload.now reading answers signature.now reply.old result state.new store.new reply.new }
{
    exports::key_agent_call(state, store, payload, reading, answers, signature, reply)
}

#[unsafe(no_mangle)]
pub extern "C" fn key_agent_first(
    state: &mut State,
    store: &mut [u8],
    bytes: &[u8],
    reading: Millis,
    reply: &mut [u8],
) -> FlatFirst
    ensures { FlatFirstMeets state.old store.old bytes.now reading reply.old result state.new store.new reply.new }
{
    exports::key_agent_first(state, store, bytes, reading, reply)
}

#[unsafe(no_mangle)]
pub extern "C" fn key_agent_inner_call(
    state: &mut State,
    store: &mut [u8],
    payload: &[u8],
    reading: Millis,
    answers: FlatAnswers,
    signature: &[u8],
    reply: &mut [u8],
) -> FlatOutcome
    requires { Sound state.old store.old }
    ensures { FlatInnerMeets state.old store.old payload.now reading answers signature.now reply.old result state.new store.new reply.new }
{
    exports::key_agent_inner_call(state, store, payload, reading, answers, signature, reply)
}

#[unsafe(no_mangle)]
pub extern "C" fn key_agent_inner_first(
    state: &mut State,
    store: &mut [u8],
    bytes: &[u8],
    reading: Millis,
    reply: &mut [u8],
) -> FlatFirst
    requires { Sound state.old store.old }
    ensures { FlatInnerFirstMeets state.old store.old bytes.now reading reply.old result state.new store.new reply.new }
{
    exports::key_agent_inner_first(state, store, bytes, reading, reply)
}

#[unsafe(no_mangle)]
pub extern "C" fn key_agent_split(bytes: &[u8]) -> FlatSplit
    ensures { result ≡ flat_split bytes.now }
{
    exports::key_agent_split(bytes)
}

#[unsafe(no_mangle)]
pub extern "C" fn key_agent_key(state: State, store: &[u8], number: u64) -> HeldKey
    ensures { result ≡ key_told state store.now number }
{
    exports::key_agent_key(state, store, number)
}

#[unsafe(no_mangle)]
pub extern "C" fn key_agent_next(state: State, store: &[u8], after: u64) -> u64
    ensures { result ≡ next_told state store.now after }
{
    exports::key_agent_next(state, store, after)
}
