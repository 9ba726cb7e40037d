// A step is taken on a state, and its answer compared. Nothing is done with a state that is not sound.
ghost use Rattle.table.specs.Soundness.{Sound};

use crate::acts::Agent;
use crate::asks::{is_locked_with, is_stored, part_of};
use crate::steps::{Task, read_task};
use table::entries::count;
use wire::limits;
use wire::read::Cursor;

// Answers the position that the key went to, 24 where there is none for it.
fn put(t: Task<'_>, agent: &mut Agent) -> u64
    requires { Sound agent.old.state agent.old.store }
{
    match agent.place_of(t.payload, t.carried, t.bytes) {
        None => 24,
        Some(i) => {
            agent.put(t.payload, t.carried, t.bytes, i);
            i as u64
        }
    }
}

fn change(t: Task<'_>, agent: &mut Agent)
    requires { Sound agent.old.state agent.old.store }
{
    match t.op {
        1 => agent.advance(t.value),
        3 if t.place < limits::ENTRIES_LIMIT => agent.remove(t.place),
        3 => {}
        4 => agent.remove_all(),
        _ => agent.lock(t.bytes),
    }
}

fn act(t: Task<'_>, agent: &mut Agent) -> u64 {
    if !agent.is_sound() {
        return 99;
    }
    if t.op == 2 {
        return put(t, agent);
    }
    change(t, agent);
    0
}

fn ask(t: Task<'_>, agent: &Agent) -> u64 {
    let state = &agent.state;
    match t.op {
        11 => count(&state.columns.numbers) as u64,
        12 => part_of(&state.columns, t.part, t.place),
        13 => is_stored(&agent.store, t.bytes).into(),
        14 => is_locked_with(&state.lock, t.bytes).into(),
        15 => state.lock.len as u64,
        16 => agent.is_sound().into(),
        _ => 99,
    }
}

// Whether a state is sound with one value set.
fn is_sound_with(t: Task<'_>, agent: &mut Agent) -> bool {
    match t.op {
        21 => agent.is_damaged_sound(t.part, t.place, t.value),
        22 => agent.is_store_sound(t.place, t.value),
        _ => agent.is_length_sound(t.place),
    }
}

fn take(t: Task<'_>, agent: &mut Agent) -> u64 {
    match t.op {
        0..=10 => act(t, agent),
        11..=20 => ask(t, agent),
        _ => is_sound_with(t, agent).into(),
    }
}

pub(crate) fn judge(s: &[u8], c: Cursor, agent: &mut Agent) -> Option<(bool, Cursor)> {
    let (t, next) = read_task(s, c)?;
    Some((take(t, agent) == t.want.into(), next))
}
