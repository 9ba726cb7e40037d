// Derived from keys/agent/client.rs of russh 0.65.0 (Apache-2.0), and changed: see NOTICE.
// Request writers. Each writes its frame to the front of the output, or refuses and leaves the output as it was.
ghost use Rattle.std.specs.Prelude.{◌≡◌, [], ◌∷◌, ◌++◌, ◌+◌, ◌≤◌, ◌<◌, ◌^◌, length, take};
ghost use Rattle.wire.specs.Write.{write, string};
ghost use Rattle.wire.specs.Constraints.{constraint_form, constraint_forms};
ghost use Rattle.client.specs.Requests.{head_answer, head_left, answered, filled, request_identities, sign_request, lock_request, unlock_request, constrained_smartcard, remove_smartcard_answer, remove_smartcard_left, add_smartcard_answer, add_smartcard_left};

use wire::refusal::Refusal;
use wire::utf8::utf8_end;
use wire::write::{put_byte, put_number, put_string};
use wire::{Constraint, limits, msg};

// Tests the room for a payload of n bytes whose first is `kind`, and writes its length and that byte. Each caller counts n from its parts.
fn begin(out: &mut [u8], n: usize, kind: u8) -> Result<usize, Refusal>
    requires { (1 ≤ n) × (n < 2 ^ 60) }
    ensures { (result ≡ head_answer n (kind ∷ []) out.old) × (out.new ≡ head_left n (kind ∷ []) out.old) }
{
    if limits::PAYLOAD_LIMIT < n {
        return Err(Refusal::PayloadTooLong);
    }
    if out.len() < 4 + n {
        return Err(Refusal::OutputTooShort);
    }
    let at = put_number(out, 0, n as u32);
    Ok(put_byte(out, at, kind))
}

// 11
pub fn request_identities(out: &mut [u8]) -> Result<usize, Refusal>
    ensures { (result ≡ answered request_identities out.old) × (out.new ≡ filled request_identities out.old) }
{
    begin(out, 1, msg::REQUEST_IDENTITIES)
}

// A request that is one string.
fn one_string(out: &mut [u8], kind: u8, v: &[u8]) -> Result<usize, Refusal>
    ensures { (result ≡ answered (kind ∷ string v.now) out.old) × (out.new ≡ filled (kind ∷ string v.now) out.old) }
{
    if limits::PAYLOAD_LIMIT < v.len() {
        return Err(Refusal::PayloadTooLong);
    }
    let at = begin(out, 5 + v.len(), kind)?;
    Ok(put_string(out, at, v))
}

// 22
pub fn lock(passphrase: &[u8], out: &mut [u8]) -> Result<usize, Refusal>
    ensures { (result ≡ answered (lock_request passphrase.now) out.old) × (out.new ≡ filled (lock_request passphrase.now) out.old) }
{
    one_string(out, msg::LOCK, passphrase)
}

// 23
pub fn unlock(passphrase: &[u8], out: &mut [u8]) -> Result<usize, Refusal>
    ensures { (result ≡ answered (unlock_request passphrase.now) out.old) × (out.new ≡ filled (unlock_request passphrase.now) out.old) }
{
    one_string(out, msg::UNLOCK, passphrase)
}

// The beginning of a request: two strings, behind which its caller writes `extra` bytes more.
fn two_strings(out: &mut [u8], kind: u8, a: &[u8], b: &[u8], extra: usize) -> Result<usize, Refusal>
    requires { extra ≤ 1024 }
    ensures { (result ≡ head_answer (9 + length a.now + length b.now + extra) (kind ∷ (string a.now ++ string b.now)) out.old)
        × (out.new ≡ head_left (9 + length a.now + length b.now + extra) (kind ∷ (string a.now ++ string b.now)) out.old) }
{
    if limits::PAYLOAD_LIMIT < a.len() {
        return Err(Refusal::PayloadTooLong);
    }
    if limits::PAYLOAD_LIMIT < b.len() {
        return Err(Refusal::PayloadTooLong);
    }
    let at = begin(out, 9 + a.len() + b.len() + extra, kind)?;
    let second = put_string(out, at, a);
    Ok(put_string(out, second, b))
}

// 13: the key's blob, the data, and the flags that choose a hash.
pub fn prepare_sign_request(
    blob: &[u8],
    bytes: &[u8],
    flags: u32,
    out: &mut [u8],
) -> Result<usize, Refusal>
    ensures { (result ≡ answered (sign_request blob.now bytes.now flags) out.old)
        × (out.new ≡ filled (sign_request blob.now bytes.now flags) out.old) }
{
    let at = two_strings(out, msg::SIGN_REQUEST, blob, bytes, 4)?;
    Ok(put_number(out, at, flags))
}

// 21; an id that is not UTF-8 is refused.
pub fn remove_smartcard_key(id: &[u8], pin: &[u8], out: &mut [u8]) -> Result<usize, Refusal>
    ensures { (result ≡ remove_smartcard_answer id.now pin.now out.old)
        × (out.new ≡ remove_smartcard_left id.now pin.now out.old) }
{
    let end = utf8_end(id);
    if end != id.len() {
        return Err(Refusal::Malformed(end));
    }
    two_strings(out, msg::REMOVE_SMARTCARD_KEY, id, pin, 0)
}

fn constraint_len(c: Constraint) -> usize
    ensures { result ≡ length (constraint_form c) }
{
    match c {
        Constraint::KeyLifetime { seconds: _ } => 5,
        Constraint::Confirm => 1,
    }
}

// The length of constraints as they are written.
fn constraints_len(cs: &[Constraint]) -> usize
    requires { length cs.now ≤ 4 }
    ensures { (result ≡ length (constraint_forms cs.now)) × (result ≤ 20) }
{
    let mut n = 0;
    for c in cs {
        n += constraint_len(*c);
    }
    n
}

fn put_constraint(out: &mut [u8], at: usize, c: Constraint) -> usize
    requires { at + length (constraint_form c) ≤ length out.old }
    ensures { (result ≡ at + length (constraint_form c)) × (out.new ≡ write out.old at (constraint_form c)) }
{
    match c {
        Constraint::KeyLifetime { seconds } => {
            let next = put_byte(out, at, msg::CONSTRAIN_LIFETIME);
            put_number(out, next, seconds.count)
        }
        Constraint::Confirm => put_byte(out, at, msg::CONSTRAIN_CONFIRM),
    }
}

// Writes constraints one behind the other.
fn put_constraints(out: &mut [u8], at: usize, cs: &[Constraint]) -> usize
    requires { at + length (constraint_forms cs.now) ≤ length out.old }
    ensures { (result ≡ at + length (constraint_forms cs.now)) × (out.new ≡ write out.old at (constraint_forms cs.now)) }
{
    let mut place = at;
    for c in cs {
        place = put_constraint(out, place, *c);
    }
    place
}

// 26: id, PIN, and straight behind it the constraints. `add_smartcard_key` tests their number.
fn add_constrained(
    id: &[u8],
    pin: &[u8],
    cs: &[Constraint],
    out: &mut [u8],
) -> Result<usize, Refusal>
    requires { length cs.now ≤ 4 }
    ensures { (result ≡ answered (constrained_smartcard id.now pin.now cs.now) out.old)
        × (out.new ≡ filled (constrained_smartcard id.now pin.now cs.now) out.old) }
{
    let extra = constraints_len(cs);
    let at = two_strings(out, msg::ADD_SMARTCARD_KEY_CONSTRAINED, id, pin, extra)?;
    Ok(put_constraints(out, at, cs))
}

// 20, or 26 where there are constraints: the first `count` of the four. No slice: a count above four is refused by its number.
pub fn add_smartcard_key(
    id: &[u8],
    pin: &[u8],
    cs: [Constraint; 4],
    count: usize,
    out: &mut [u8],
) -> Result<usize, Refusal>
    ensures { (result ≡ add_smartcard_answer id.now pin.now cs count out.old)
        × (out.new ≡ add_smartcard_left id.now pin.now cs count out.old) }
{
    if 4 < count {
        return Err(Refusal::TooManyConstraints);
    }
    let valid = utf8_end(id);
    if valid != id.len() {
        return Err(Refusal::Malformed(valid));
    }
    if count == 0 {
        return two_strings(out, msg::ADD_SMARTCARD_KEY, id, pin, 0);
    }
    add_constrained(id, pin, &cs[..count], out)
}
