// Derived from keys/agent/server.rs of russh 0.65.0 (Apache-2.0), and changed: see NOTICE.
// The sign request (13). An error in it closes the connection; an absent key or a no is FAILURE. What it requires, the call has
// tested.
ghost use Rattle.std.specs.Prelude.{◌≡◌, List, ℕ, ◌≤◌, length};
ghost use Rattle.std.proofs.Math.Option.{some};
ghost use Rattle.wire.specs.Limits.{signature_limit, reply_room};
ghost use Rattle.wire.specs.Write.{write};
ghost use Rattle.rule.specs.Gateway.{Entry as Key};
ghost use Rattle.rule.specs.Rule.{hash_of, signature_reply, signing_data, confirming, signing};
ghost use Rattle.rule.specs.Calls.{lent, for_number, lent_length, follow};
ghost use Rattle.table.specs.declared.State.{State};
ghost use Rattle.table.specs.Entries.{shown};
ghost use Rattle.table.specs.Meaning.{is_set, gateway_of};
ghost use Rattle.table.specs.Soundness.{Sound};
ghost use Rattle.table.specs.Shown.{SoundOf, KeysOf};
ghost use Rattle.requests.specs.Outcomes.{confirmation_of, agreed, signature_of, grant_of, handed, lent_of};
ghost use Rattle.requests.specs.Ends.{Ends};

use crate::replies::failure;
use crate::{Asked, Confirmation, Outcome, Said, Signed};
use rule::Hash;
use table::{Shown, is_set};
use wire::msg;
use wire::read::{Cursor, Part, cut};
use wire::write::{put_byte, put_number, put_string};

// Flag 2 set: SHA-256; else flag 4: SHA-512; else none.
fn hash_of(flags: u32) -> Hash
    ensures { result ≡ hash_of flags }
{
    if flags / msg::SSH_AGENT_RSA_SHA2_256 % 2 == 1 {
        return Hash::Sha256;
    }
    if flags / msg::SSH_AGENT_RSA_SHA2_512 % 2 == 1 {
        return Hash::Sha512;
    }
    Hash::Plain
}

// The confirmation that counts for this insertion number.
#[tactic(auto, unfolding(rule::specs::Calls::for_number))]
fn confirmed_for(c: Option<Confirmation>, number: u64) -> Said
    ensures { for_number number (confirmation_of c) ≡ grant_of result }
{
    match c {
        Some(c) if c.number == number && c.granted => Said::Yes,
        Some(c) if c.number == number => Said::No,
        _ => Said::Missing,
    }
}

// What is said of a signature with a key of this number and this flag for Confirm: yes where it has no Confirm.
fn consent(number: u64, confirm: u8, c: Option<Confirmation>) -> Said
    ensures { agreed number (is_set confirm) (confirmation_of c) ≡ grant_of result }
{
    if !is_set(confirm) {
        return Said::Yes;
    }
    confirmed_for(c, number)
}

// The signer's answer that counts for this insertion number: none, nothing given, or the bytes beside it.
#[tactic(auto, unfolding(rule::specs::Calls::for_number))]
fn signed_for(s: Signed, number: u64) -> Said
    ensures { (bytes : List ℕ) → for_number number (signature_of s bytes) ≡ handed result bytes }
{
    match s {
        Signed::Nothing { number: n } if n == number => Said::No,
        Signed::Given { number: n } if n == number => Said::Yes,
        _ => Said::Missing,
    }
}

// The reply: length, 14, the signature blob as a string. Refusals 1 and 5 have left room.
fn put_reply(blob: &[u8], reply: &mut [u8]) -> usize
    requires { (reply_room ≤ length reply.old) × (length blob.now ≤ signature_limit) }
    ensures { (result ≡ length (signature_reply blob.now)) × (reply.new ≡ write reply.old 0 (signature_reply blob.now)) }
{
    let kind = put_number(reply, 0, (blob.len() + 5) as u32);
    let at = put_byte(reply, kind, msg::SIGN_RESPONSE);
    put_string(reply, at, blob)
}

// Past the confirmation: data and flags, then the signer.
fn sign_data(asked: Asked<'_>, at: Cursor, number: u64, reply: &mut [u8]) -> Outcome
    requires { (reply_room ≤ length reply.old) × (lent_length (lent_of asked.answers asked.signature.now).signature ≤ signature_limit) }
    ensures { (s : State) (x : List ℕ) → Sound s x → Ends reply.old (record { outcome = result; state = s }) x reply.new (follow (lent (lent_of asked.entry.answers asked.entry.signature.now)) (gateway_of s x) (signing_data (gateway_of s x) asked.entry.payload.now number at.at)) }
{
    let Ok(Part { from, to, next }) = at.string(asked.payload) else {
        return Outcome::Close;
    };
    let Ok((flags, _)) = next.number(asked.payload) else {
        return Outcome::Close;
    };
    let hash = hash_of(flags);
    match signed_for(asked.answers.signature, number) {
        Said::Missing => Outcome::Sign {
            number,
            from,
            to,
            hash,
        },
        Said::No => Outcome::Close,
        Said::Yes => {
            let len = put_reply(asked.signature, reply);
            Outcome::Reply { len }
        }
    }
}

// A key of this number and this flag for Confirm was found: its Confirm, then the rest.
fn sign_with(number: u64, confirm: u8, asked: Asked<'_>, at: Cursor, reply: &mut [u8]) -> Outcome
    requires { (reply_room ≤ length reply.old) × (lent_length (lent_of asked.answers asked.signature.now).signature ≤ signature_limit) }
    ensures { (s : State) (x : List ℕ) → Sound s x → (k : Key) → k.number ≡ number → k.confirm ≡ is_set confirm → Ends reply.old (record { outcome = result; state = s }) x reply.new (follow (lent (lent_of asked.entry.answers asked.entry.signature.now)) (gateway_of s x) (confirming (gateway_of s x) asked.entry.payload.now (some k) at.at)) }
{
    match consent(number, confirm, asked.answers.confirmation) {
        Said::Missing => Outcome::Confirm { number },
        Said::No => failure(reply),
        Said::Yes => sign_data(asked, at, number, reply),
    }
}

// 13
pub fn try_sign(t: Shown<'_>, store: &[u8], asked: Asked<'_>, reply: &mut [u8]) -> Outcome
    requires { (reply_room ≤ length reply.old) × (lent_length (lent_of asked.answers asked.signature.now).signature ≤ signature_limit) × SoundOf (KeysOf (shown t)) store.now }
    ensures { (s : State) → KeysOf (shown t.entry) s → Sound s store.now → Ends reply.old (record { outcome = result; state = s }) store.now reply.new (follow (lent (lent_of asked.entry.answers asked.entry.signature.now)) (gateway_of s store.now) (signing (gateway_of s store.now) asked.entry.payload.now)) }
{
    let start = Cursor { at: 1 };
    let Ok(Part { from, to, next }) = start.string(asked.payload) else {
        return Outcome::Close;
    };
    match t.find(store, cut(asked.payload, from, to)) {
        None => failure(reply),
        Some(i) => sign_with(t.numbers[i], t.confirm[i], asked, next, reply),
    }
}
