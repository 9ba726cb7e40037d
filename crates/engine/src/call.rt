// Derived from keys/agent/server.rs of russh 0.65.0 (Apache-2.0), and changed: see NOTICE.
// One call over lent columns: its refusals, the clock, the row of its first byte, and the request's function.
ghost use Rattle.std.specs.Prelude.{◌≡◌, ◌≤◌, length};
ghost use Rattle.wire.specs.Limits.{signature_limit, reply_room};
ghost use Rattle.rule.specs.Calls.{lent_length, served};
ghost use Rattle.table.specs.Meaning.{gateway_of, held};
ghost use Rattle.table.specs.Soundness.{Sound};
ghost use Rattle.requests.specs.Outcomes.{lent_of};
ghost use Rattle.requests.specs.Ends.{Ends};
ghost use Rattle.server.specs.Calls.{Meets};
ghost use Rattle.server.specs.Inner.{InnerMeets};

use changes::advance;
use requests::list::request_identities;
use requests::lock::{lock, unlock};
use requests::replies::failure;
use requests::sign::try_sign;
use requests::{Asked, Landed, Outcome};
use server::call::{Row, lent_length, row_in};
use soundness::is_sound;
use table::locks::is_locked;
use table::{Columns, Kept};
use turnover::add::add_key;
use turnover::remove::{remove_all_identities, remove_identity};
use wire::limits;

// The request served on the present state, its clock raised.
fn respond(
    t: &mut Columns,
    passphrase: &mut [u8; limits::PASSPHRASE_LIMIT],
    kept: Kept,
    store: &mut [u8],
    asked: Asked<'_>,
    reply: &mut [u8],
) -> Landed
    requires { (reply_room ≤ length reply.old) × (lent_length (lent_of asked.answers asked.signature.now).signature ≤ signature_limit) × Sound (held t.old passphrase.old kept) store.old }
    ensures { Ends reply.old (record { outcome = result.outcome; state = (held t.new passphrase.new result.kept) }) store.new reply.new (served (gateway_of (held t.old passphrase.old kept) store.old) (record { payload = asked.entry.payload.now }) (lent_of asked.entry.answers asked.entry.signature.now)) }
{
    let locked = is_locked(kept.locked);
    let gate = asked.answers.gate;
    let check = asked.answers.check;
    match row_in(asked.payload, locked, gate) {
        Row::Fails => Landed {
            outcome: failure(reply),
            kept,
        },
        Row::Asks(class) => Landed {
            outcome: Outcome::Gate { class },
            kept,
        },
        Row::List => Landed {
            outcome: request_identities(t.show(), store, reply),
            kept,
        },
        Row::Add(constrained) => add_key(t, kept, store, asked.payload, constrained, check, reply),
        Row::Remove => Landed {
            outcome: remove_identity(t, store, asked.payload, reply),
            kept,
        },
        Row::RemoveAll => Landed {
            outcome: remove_all_identities(t, store, reply),
            kept,
        },
        Row::Sign => Landed {
            outcome: try_sign(t.show(), store, asked, reply),
            kept,
        },
        Row::Lock => lock(passphrase, kept, asked.payload, reply),
        Row::Unlock => unlock(passphrase, kept, asked.payload, reply),
    }
}

// By 01's number, as an outcome has it.
fn refused(number: u8, kept: Kept) -> Landed
    ensures { result ≡ record { outcome = Outcome.Refused number; kept = kept } }
{
    Landed {
        outcome: Outcome::Refused { number },
        kept,
    }
}

// The inner call (#113), over the lent arrays of a sound state: nothing is tested that a sound state has. Its `requires` is met by
// `call_lent`, which has tested, and by the Rust crate's Gateway, whose state only ever comes from the core.
pub fn inner_lent(
    t: &mut Columns,
    passphrase: &mut [u8; limits::PASSPHRASE_LIMIT],
    kept: Kept,
    store: &mut [u8],
    asked: Asked<'_>,
    reply: &mut [u8],
) -> Landed
    requires { Sound (held t.old passphrase.old kept) store.old }
    ensures { InnerMeets (held t.old passphrase.old kept) store.old asked.entry.payload.now asked.entry.reading asked.entry.answers asked.entry.signature.now reply.old result.outcome (held t.new passphrase.new result.kept) store.new reply.new }
{
    if reply.len() < limits::REPLY_ROOM {
        return refused(1, kept);
    }
    if limits::PAYLOAD_LIMIT < asked.payload.len() {
        return refused(4, kept);
    }
    if limits::SIGNATURE_LIMIT < lent_length(asked.answers.signature, asked.signature) {
        return refused(5, kept);
    }
    let raised = advance(t, kept, store, asked.reading);
    respond(t, passphrase, raised, store, asked, reply)
}

// One call over the lent arrays of a state; what is no array goes by value and comes back. Outcome, state, store and reply buffer are what `call_of` says.
pub fn call_lent(
    t: &mut Columns,
    passphrase: &mut [u8; limits::PASSPHRASE_LIMIT],
    kept: Kept,
    store: &mut [u8],
    asked: Asked<'_>,
    reply: &mut [u8],
) -> Landed
    ensures { Meets (held t.old passphrase.old kept) store.old asked.entry.payload.now asked.entry.reading asked.entry.answers asked.entry.signature.now reply.old result.outcome (held t.new passphrase.new result.kept) store.new reply.new }
{
    if reply.len() < limits::REPLY_ROOM {
        return refused(1, kept);
    }
    if store.len() != limits::STORE_SIZE {
        return refused(2, kept);
    }
    if !is_sound(t.show(), passphrase, kept, store) {
        return refused(3, kept);
    }
    inner_lent(t, passphrase, kept, store, asked, reply)
}
