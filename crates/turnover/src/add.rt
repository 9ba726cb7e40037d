// Derived from keys/agent/server.rs of russh 0.65.0 (Apache-2.0), and changed: see NOTICE.
// The add requests (17, 25). Any error in them is FAILURE. What they require, the call has tested.
ghost use Rattle.std.specs.Prelude.{◌≡◌, ◌&&◌, List, ℕ, ◌≤◌, eqb, length};
ghost use Rattle.keys.specs.Kinds.{blob_of};
ghost use Rattle.rule.specs.Soundness.{fit};
ghost use Rattle.rule.specs.Rule.{entry_of, storing, adding};
ghost use Rattle.rule.specs.Calls as rule;
ghost use Rattle.rule.specs.Calls.{lent, follow};
ghost use Rattle.table.specs.Meaning.{gateway_of, held};
ghost use Rattle.table.specs.Soundness.{Sound};
ghost use Rattle.table.specs.Shown.{SoundWith};
ghost use Rattle.requests.specs.Outcomes.{grant_of};
ghost use Rattle.requests.specs.Ends.{Ends};

use keys::addition::{Carried, addition_at};
use keys::kinds::{Places, put_blob};
use requests::replies::{failure, success};
use requests::{Landed, Outcome, Said};
use table::{Columns, Kept};
use wire::limits;
use wire::read::cut;

// Are the lengths within 01's limits?
#[tactic(auto, unfolding(rule::specs::Soundness::fit))]
fn fits(blob: &[u8], fields: &[u8], comment: &[u8]) -> bool
    ensures { result ≡ fit blob.now fields.now comment.now }
{
    1 <= blob.len()
        && blob.len() <= limits::BLOB_LIMIT
        && 1 <= fields.len()
        && fields.len() <= limits::FIELDS_LIMIT
        && comment.len() <= limits::COMMENT_LIMIT
}

// The key with this blob is stored, if its lengths, the numbers, the room and the key check allow it.
fn store_key(
    t: &mut Columns,
    kept: Kept,
    store: &mut [u8],
    payload: &[u8],
    carried: Carried,
    blob: &[u8],
    check: Said,
    reply: &mut [u8],
) -> Landed
    requires { (5 ≤ length reply.old) × SoundWith t.old kept store.old }
    ensures { (b : List ℕ) → Sound (held t.old b kept) store.old → (a : rule.Answers) → a.check ≡ grant_of check → Ends reply.old (record { outcome = result.outcome; state = held t.new b result.kept }) store.new reply.new (follow (lent a) (gateway_of (held t.old b kept) store.old) (storing (gateway_of (held t.old b kept) store.old) (entry_of (gateway_of (held t.old b kept) store.old) payload.now carried blob.now) carried.places.end)) }
{
    let to = carried.places.end;
    let comment = carried.comment;
    let fields = cut(payload, 1, to);
    let text = cut(payload, comment.from, comment.to);
    if !fits(blob, fields, text) {
        return Landed {
            outcome: failure(reply),
            kept,
        };
    }
    if kept.next == limits::LAST_NUMBER {
        return Landed {
            outcome: failure(reply),
            kept,
        };
    }
    let size = blob.len() + (fields.len() + text.len());
    match t.place_for(store, blob, size) {
        None => Landed {
            outcome: failure(reply),
            kept,
        },
        Some(i) => match check {
            Said::Missing => Landed {
                outcome: Outcome::Check { from: 1, to },
                kept,
            },
            Said::No => Landed {
                outcome: failure(reply),
                kept,
            },
            Said::Yes => {
                let after = changes::put(t, kept, store, i, payload, carried, blob);
                Landed {
                    outcome: success(reply),
                    kept: after,
                }
            }
        },
    }
}

// The blob is derived beside the table, in as many bytes as the limit is.
fn store_derived(
    t: &mut Columns,
    kept: Kept,
    store: &mut [u8],
    payload: &[u8],
    carried: Carried,
    check: Said,
    reply: &mut [u8],
) -> Landed
    requires { (5 ≤ length reply.old) × SoundWith t.old kept store.old }
    ensures { (b : List ℕ) → Sound (held t.old b kept) store.old → (a : rule.Answers) → a.check ≡ grant_of check → Ends reply.old (record { outcome = result.outcome; state = held t.new b result.kept }) store.new reply.new (follow (lent a) (gateway_of (held t.old b kept) store.old) (storing (gateway_of (held t.old b kept) store.old) (entry_of (gateway_of (held t.old b kept) store.old) payload.now carried (blob_of payload.now 1 carried.places)) carried.places.end)) }
{
    let mut room = [0u8; limits::BLOB_LIMIT];
    match put_blob(payload, 1, carried.places, &mut room) {
        None => Landed {
            outcome: failure(reply),
            kept,
        },
        Some(n) => store_key(t, kept, store, payload, carried, &room[..n], check, reply),
    }
}

// Does the blob stand in the payload as it is? That of an RSA key does not.
fn is_in_one(at: Places) -> bool
    ensures { result ≡ eqb at.swap at.front && eqb at.back at.front }
{
    at.swap == at.front && at.back == at.front
}

// The blob where it stands, or derived.
fn store_fields(
    t: &mut Columns,
    kept: Kept,
    store: &mut [u8],
    payload: &[u8],
    carried: Carried,
    check: Said,
    reply: &mut [u8],
) -> Landed
    requires { (5 ≤ length reply.old) × SoundWith t.old kept store.old }
    ensures { (b : List ℕ) → Sound (held t.old b kept) store.old → (a : rule.Answers) → a.check ≡ grant_of check → Ends reply.old (record { outcome = result.outcome; state = held t.new b result.kept }) store.new reply.new (follow (lent a) (gateway_of (held t.old b kept) store.old) (storing (gateway_of (held t.old b kept) store.old) (entry_of (gateway_of (held t.old b kept) store.old) payload.now carried (blob_of payload.now 1 carried.places)) carried.places.end)) }
{
    if is_in_one(carried.places) {
        return store_key(
            t,
            kept,
            store,
            payload,
            carried,
            cut(payload, 1, carried.places.front),
            check,
            reply,
        );
    }
    store_derived(t, kept, store, payload, carried, check, reply)
}

// 17, and 25 with constraints
pub fn add_key(
    t: &mut Columns,
    kept: Kept,
    store: &mut [u8],
    payload: &[u8],
    constrained: bool,
    check: Said,
    reply: &mut [u8],
) -> Landed
    requires { (5 ≤ length reply.old) × SoundWith t.old kept store.old }
    ensures { (b : List ℕ) → Sound (held t.old b kept) store.old → (a : rule.Answers) → a.check ≡ grant_of check → Ends reply.old (record { outcome = result.outcome; state = held t.new b result.kept }) store.new reply.new (follow (lent a) (gateway_of (held t.old b kept) store.old) (adding constrained (gateway_of (held t.old b kept) store.old) payload.now)) }
{
    match addition_at(payload, 1, constrained) {
        Err(_) => Landed {
            outcome: failure(reply),
            kept,
        },
        Ok(carried) => store_fields(t, kept, store, payload, carried, check, reply),
    }
}
