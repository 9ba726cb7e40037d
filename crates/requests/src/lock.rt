// Derived from keys/agent/server.rs of russh 0.65.0 (Apache-2.0), and changed: see NOTICE.
// The requests that set and clear the lock: 22, 23. What they require, the call has tested.
ghost use Rattle.std.specs.Prelude.{◌≡◌, List, ℕ, ◌≤◌, length};
ghost use Rattle.wire.specs.Limits.{passphrase_limit};
ghost use Rattle.rule.specs.Gateway.{with_lock};
ghost use Rattle.rule.specs.Rule.{locking, unlocking};
ghost use Rattle.rule.specs.Calls as rule;
ghost use Rattle.rule.specs.Calls.{lent, follow};
ghost use Rattle.table.specs.declared.Columns.{Columns};
ghost use Rattle.table.specs.Meaning.{gateway_of, held};
ghost use Rattle.table.specs.Soundness.{Sound, Means};
ghost use Rattle.table.specs.Shown.{SoundKept};
ghost use Rattle.requests.specs.Ends.{Ends, Answered};

use crate::Landed;
use crate::replies::{failure, success};
use table::{Kept, locks};
use wire::limits;
use wire::read::{Cursor, Part, cut};

// The lock is this passphrase; an empty one opens.
fn set_lock(passphrase: &mut [u8], kept: Kept, p: &[u8], reply: &mut [u8]) -> Landed
    requires { (5 ≤ length reply.old) × (length passphrase.old ≡ passphrase_limit) × (length p.now ≤ passphrase_limit) }
    ensures { Answered 6 reply.old result.outcome reply.new × ((t : Columns) (x : List ℕ) → Sound (held t passphrase.old kept) x → Means (held t passphrase.new result.kept) x (with_lock p.now (gateway_of (held t passphrase.old kept) x))) }
{
    let locked = locks::keep_passphrase(passphrase, p);
    Landed {
        outcome: success(reply),
        kept: Kept { locked, ..kept },
    }
}

// 22
pub fn lock(passphrase: &mut [u8], kept: Kept, payload: &[u8], reply: &mut [u8]) -> Landed
    requires { (5 ≤ length reply.old) × SoundKept passphrase.old kept }
    ensures { (t : Columns) (x : List ℕ) → Sound (held t passphrase.old kept) x → (a : rule.Answers) → Ends reply.old (record { outcome = result.outcome; state = held t passphrase.new result.kept }) x reply.new (follow (lent a) (gateway_of (held t passphrase.old kept) x) (locking (gateway_of (held t passphrase.old kept) x) payload.now)) }
{
    let start = Cursor { at: 1 };
    let Ok(Part { from, to, next: _ }) = start.string(payload) else {
        return Landed {
            outcome: failure(reply),
            kept,
        };
    };
    if limits::PASSPHRASE_LIMIT < to - from {
        return Landed {
            outcome: failure(reply),
            kept,
        };
    }
    set_lock(passphrase, kept, cut(payload, from, to), reply)
}

// 23
pub fn unlock(passphrase: &mut [u8], kept: Kept, payload: &[u8], reply: &mut [u8]) -> Landed
    requires { (5 ≤ length reply.old) × SoundKept passphrase.old kept }
    ensures { (t : Columns) (x : List ℕ) → Sound (held t passphrase.old kept) x → (a : rule.Answers) → Ends reply.old (record { outcome = result.outcome; state = held t passphrase.new result.kept }) x reply.new (follow (lent a) (gateway_of (held t passphrase.old kept) x) (unlocking (gateway_of (held t passphrase.old kept) x) payload.now)) }
{
    let start = Cursor { at: 1 };
    let Ok(Part { from, to, next: _ }) = start.string(payload) else {
        return Landed {
            outcome: failure(reply),
            kept,
        };
    };
    if locks::is_passphrase(passphrase, kept.locked, cut(payload, from, to)) {
        return set_lock(passphrase, kept, cut(payload, 0, 0), reply);
    }
    Landed {
        outcome: failure(reply),
        kept,
    }
}
