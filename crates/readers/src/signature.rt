// Derived from keys/agent/client.rs of russh 0.65.0 (Apache-2.0), and changed: see NOTICE.
// The signature reader: takes the signature out of a sign reply, where its type fits the hash that was asked for.
ghost use Rattle.std.specs.Prelude.{◌≡◌, ◌<◌, ◌^◌, length};
ghost use Rattle.readers.specs.Signatures.{fits, touched_end, signature_end, signature_at, reply_at, string_answer, string_left, signature_answer, signature_left};

use wire::msg;
use wire::read::{Cursor, Fault, Span, cut, is_same};
use wire::refusal::Refusal;
use wire::write::put_string;

// A hash of 2 needs `rsa-sha2-256`, 4 needs `rsa-sha2-512`, 0 takes any type, and no other is ever fit.
fn is_fit(hash: u32, kind: &[u8]) -> bool
    ensures { result ≡ fits hash kind.now }
{
    match hash {
        0 => true,
        msg::SSH_AGENT_RSA_SHA2_256 => is_same(kind, b"rsa-sha2-256"),
        msg::SSH_AGENT_RSA_SHA2_512 => is_same(kind, b"rsa-sha2-512"),
        _ => false,
    }
}

// Behind the signature of a touch key: a byte of flags and a counter. The place behind them.
fn touched_end(s: &[u8], at: usize) -> Result<usize, Fault>
    ensures { result ≡ touched_end s.now at }
{
    let (_, counter) = Cursor { at }.byte(s)?;
    let (_, end) = counter.number(s)?;
    Ok(end.at)
}

// Behind the type: the signature's bytes, and what a touch key adds. The place behind them.
fn signature_end(s: &[u8], at: usize, touched: bool) -> Result<usize, Fault>
    ensures { result ≡ signature_end s.now at touched }
{
    let bytes = Cursor { at }.string(s)?;
    if touched {
        return touched_end(s, bytes.to);
    }
    Ok(bytes.to)
}

// Where the signature at a place lies: its type, its bytes, and what a touch key adds.
fn signature_at(s: &[u8], at: usize, hash: u32) -> Result<Span, Refusal>
    ensures { result ≡ signature_at s.now at hash }
{
    let text = Cursor { at }.text(s)?;
    let kind = cut(s, text.from, text.to);
    if !is_fit(hash, kind) {
        return Err(Refusal::UnfitType);
    }
    let to = signature_end(s, text.next.at, kind.starts_with(b"sk-"))?;
    Ok(Span { from: at, to })
}

// The signature of a reply. It is read in the bytes up to its string's end, so that its places are the payload's.
fn reply_at(payload: &[u8], hash: u32) -> Result<Span, Refusal>
    ensures { result ≡ reply_at payload.now hash }
{
    match payload {
        [msg::SIGN_RESPONSE, ..] => {
            let whole = Cursor { at: 1 }.string(payload)?;
            signature_at(cut(payload, 0, whole.to), whole.from, hash)
        }
        [msg::FAILURE, ..] => Err(Refusal::AgentFailure),
        _ => Err(Refusal::OtherReply),
    }
}

// Writes a signature as a string to the front of the output. `write_signature` cuts it out of a string, whose length has four bytes.
fn put_signature(v: &[u8], out: &mut [u8]) -> Result<usize, Refusal>
    requires { length v.now < 2 ^ 32 }
    ensures { (result ≡ string_answer v.now out.old) × (out.new ≡ string_left v.now out.old) }
{
    if out.len() < 4 || out.len() - 4 < v.len() {
        return Err(Refusal::OutputTooShort);
    }
    Ok(put_string(out, 0, v))
}

// Writes the signature of a reply, with its length, to the front of the output.
pub fn write_signature(payload: &[u8], hash: u32, out: &mut [u8]) -> Result<usize, Refusal>
    ensures { (result ≡ signature_answer payload.now hash out.old) × (out.new ≡ signature_left payload.now hash out.old) }
{
    let found = reply_at(payload, hash)?;
    put_signature(found.of(payload), out)
}
