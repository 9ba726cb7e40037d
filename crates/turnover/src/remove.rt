// Derived from keys/agent/server.rs of russh 0.65.0 (Apache-2.0), and changed: see NOTICE.
// The requests that take keys out: 18, 19. What they require, the call has tested.
ghost use Rattle.std.specs.Prelude.{◌≤◌, length};
ghost use Rattle.rule.specs.Rule.{removing, removing_all};
ghost use Rattle.rule.specs.Calls as rule;
ghost use Rattle.rule.specs.Calls.{lent, follow};
ghost use Rattle.table.specs.declared.State.{State};
ghost use Rattle.table.specs.Meaning.{gateway_of, with_table};
ghost use Rattle.table.specs.Soundness.{Sound};
ghost use Rattle.table.specs.Shown.{SoundOf, ShowsTable};
ghost use Rattle.requests.specs.Ends.{Ends};

use requests::Outcome;
use requests::replies::{failure, success};
use table::Columns;
use wire::read::{Cursor, Part, cut};

// 18
pub fn remove_identity(
    t: &mut Columns,
    store: &mut [u8],
    payload: &[u8],
    reply: &mut [u8],
) -> Outcome
    requires { (5 ≤ length reply.old) × (SoundOf (ShowsTable t.old) store.old) }
    ensures { (s : State) → ShowsTable t.old s → Sound s store.old → (a : rule.Answers) → Ends reply.old (record { outcome = result; state = with_table t.new s }) store.new reply.new (follow (lent a) (gateway_of s store.old) (removing (gateway_of s store.old) payload.now)) }
{
    let start = Cursor { at: 1 };
    let Ok(Part { from, to, next: _ }) = start.string(payload) else {
        return failure(reply);
    };
    match t.find(store, cut(payload, from, to)) {
        Some(i) => {
            changes::remove(t, store, i);
            success(reply)
        }
        None => failure(reply),
    }
}

// 19
pub fn remove_all_identities(t: &mut Columns, store: &mut [u8], reply: &mut [u8]) -> Outcome
    requires { (5 ≤ length reply.old) × (SoundOf (ShowsTable t.old) store.old) }
    ensures { (s : State) → ShowsTable t.old s → Sound s store.old → (a : rule.Answers) → Ends reply.old (record { outcome = result; state = with_table t.new s }) store.new reply.new (follow (lent a) (gateway_of s store.old) (removing_all (gateway_of s store.old))) }
{
    changes::remove_all(t, store);
    success(reply)
}
