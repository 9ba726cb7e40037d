// Derived from keys/agent/client.rs of russh 0.65.0 (Apache-2.0), and changed: see NOTICE.
// The identities reader: how many items a reply holds, then each item's blob as a part of the payload.
ghost use Rattle.std.specs.Prelude.{◌≡◌};
ghost use Rattle.wire.specs.Parts.{PartOf};
ghost use Rattle.readers.specs.Identities.{items_at, count_of, certificate, item_at, item_of, blob_of_item, blob_from};

use wire::msg;
use wire::read::{Cursor, Fault, cut};
use wire::refusal::Refusal;

// Where the blob of an item lies.
#[derive(Clone, Copy, PartialEq, Eq)]
pub struct Blob {
    pub from: usize,
    pub to: usize,
    pub certificate: bool,
}

// One item: a blob, and a comment that is UTF-8. The place behind it.
fn item_end(s: &[u8], at: usize) -> Result<usize, Fault>
    ensures { result ≡ items_at 1 s.now at }
{
    let blob = Cursor { at }.string(s)?;
    let comment = blob.next.text(s)?;
    Ok(comment.next.at)
}

// Goes over as many items as are announced, and stops at the first that is not whole.
fn items_end(s: &[u8], at: usize, count: usize) -> Result<usize, Fault>
    ensures { result ≡ items_at count s.now at }
{
    let mut place = at;
    for _ in 0..count {
        place = item_end(s, place)?;
    }
    Ok(place)
}

// The number of items of a reply whose items are all whole; 0 where it is no list.
pub fn identities(payload: &[u8]) -> Result<usize, Refusal>
    ensures { result ≡ count_of payload.now }
{
    let [msg::IDENTITIES_ANSWER, ..] = payload else {
        return Ok(0);
    };
    let (n, next) = Cursor { at: 1 }.number(payload)?;
    let count = n as usize;
    items_end(payload, next.at, count)?;
    Ok(count)
}

// The blob's first string is a text that ends as the type of a certificate does.
pub fn is_certificate_blob(blob: &[u8]) -> bool
    ensures { result ≡ certificate blob.now }
{
    match (Cursor { at: 0 }).text(blob) {
        Ok(first) => cut(blob, first.from, first.to).ends_with(b"-cert-v01@openssh.com"),
        Err(_) => false,
    }
}

// The item whose blob stands at a place.
fn item_at(payload: &[u8], at: usize) -> Result<Blob, Refusal>
    ensures { result ≡ item_at payload.now at }
{
    let blob = Cursor { at }.string(payload)?;
    Ok(Blob {
        from: blob.from,
        to: blob.to,
        certificate: is_certificate_blob(cut(payload, blob.from, blob.to)),
    })
}

// Item number `index` of a reply whose items are all whole.
pub fn identity(payload: &[u8], index: usize) -> Result<Blob, Refusal>
    ensures { result ≡ item_of payload.now index }
{
    let count = identities(payload)?;
    if count <= index {
        return Err(Refusal::NoSuchItem);
    }
    let at = items_end(payload, 5, index)?;
    item_at(payload, at)
}

// That item's blob; empty unless the item is granted.
pub fn identity_blob(payload: &[u8], index: usize) -> &[u8]
    ensures { PartOf payload.entry (blob_from payload.now index) (blob_of_item payload.now index) result }
{
    match identity(payload, index) {
        Ok(blob) => cut(payload, blob.from, blob.to),
        Err(_) => cut(payload, 0, 0),
    }
}
