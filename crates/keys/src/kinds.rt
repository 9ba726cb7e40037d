// The key fields of each kind, from the type string on, and the public blob that they determine.
ghost use Rattle.std.specs.Prelude.{◌≡◌};
ghost use Rattle.keys.specs.Kinds.{kind_of, ed25519_at, ecdsa_at, rsa_secrets_at, rsa_at, key_at, blob_answer, blob_left};

use crate::fields::{named, point_at, scalar_at, sized};
use wire::read::{Cursor, Fault, Part, cut, is_same};
use wire::write::put_bytes;

#[derive(Clone, Copy)]
pub enum Kind {
    Ed25519,
    Nistp256,
    Nistp384,
    Nistp521,
    Rsa,
    Other,
}

// Places in key fields. Their blob is what lies before `front`, then from `swap` to `back`, then from `front` to `swap`.
#[derive(Clone, Copy)]
pub struct Places {
    pub front: usize,
    pub swap: usize,
    pub back: usize,
    pub end: usize,
}

// The kind that a type string names.
pub(crate) fn kind_of(name: &[u8]) -> Kind
    ensures { result ≡ kind_of name.now }
{
    // A match on byte strings is checked byte by byte, one goal for each: too many to prove.
    if is_same(name, b"ssh-ed25519") {
        return Kind::Ed25519;
    }
    if is_same(name, b"ecdsa-sha2-nistp256") {
        return Kind::Nistp256;
    }
    if is_same(name, b"ecdsa-sha2-nistp384") {
        return Kind::Nistp384;
    }
    if is_same(name, b"ecdsa-sha2-nistp521") {
        return Kind::Nistp521;
    }
    if is_same(name, b"ssh-rsa") {
        return Kind::Rsa;
    }
    Kind::Other
}

// Behind the type: A of 32 bytes, and 64 bytes whose last 32 are A.
fn ed25519(c: Cursor, s: &[u8]) -> Result<Places, Fault>
    ensures { result ≡ ed25519_at s.now c.at }
{
    let a = sized(c, s, 32)?;
    let pair = sized(a.next, s, 64)?;
    if is_same(cut(s, pair.from + 32, pair.to), cut(s, a.from, a.to)) {
        return Ok(Places {
            front: a.to,
            swap: a.to,
            back: a.to,
            end: pair.to,
        });
    }
    Err(Fault { at: a.to })
}

// Behind the type: the curve, Q of n bytes and d of at most m.
fn ecdsa(c: Cursor, s: &[u8], curve: &[u8], n: usize, m: usize) -> Result<Places, Fault>
    ensures { result ≡ ecdsa_at s.now c.at curve.now n m }
{
    let name = named(c, s, curve)?;
    let q = point_at(name.next, s, n)?;
    let d = scalar_at(q.next, s, m)?;
    Ok(Places {
        front: q.to,
        swap: q.to,
        back: q.to,
        end: d.to,
    })
}

// d, iqmp, p and q of an RSA key: where the last one lies.
fn rsa_secrets(c: Cursor, s: &[u8]) -> Result<Part, Fault>
    ensures { result ≡ rsa_secrets_at s.now c.at }
{
    let d = c.mpint(s)?;
    let iqmp = d.next.mpint(s)?;
    let p = iqmp.next.mpint(s)?;
    p.next.mpint(s)
}

// Behind the type: n, e, and then d, iqmp, p, q. The blob has e before n.
fn rsa(c: Cursor, s: &[u8]) -> Result<Places, Fault>
    ensures { result ≡ rsa_at s.now c.at }
{
    let n = c.mpint(s)?;
    let e = n.next.mpint(s)?;
    let q = rsa_secrets(e.next, s)?;
    Ok(Places {
        front: c.at,
        swap: n.to,
        back: e.to,
        end: q.to,
    })
}

// The key fields at a place; a type that is none of the five is a fault at its length.
pub fn key_at(s: &[u8], at: usize) -> Result<Places, Fault>
    ensures { result ≡ key_at s.now at }
{
    let start = Cursor { at };
    let name = start.string(s)?;
    let next = name.next;
    match kind_of(cut(s, name.from, name.to)) {
        Kind::Ed25519 => ed25519(next, s),
        Kind::Nistp256 => ecdsa(next, s, b"nistp256", 65, 32),
        Kind::Nistp384 => ecdsa(next, s, b"nistp384", 97, 48),
        Kind::Nistp521 => ecdsa(next, s, b"nistp521", 133, 66),
        Kind::Rsa => rsa(next, s),
        Kind::Other => Err(Fault { at }),
    }
}

// Writes the blob of the key fields at a place to the front of the output, and answers its length; where it does not fit, writes nothing.
pub fn put_blob(s: &[u8], at: usize, p: Places, out: &mut [u8]) -> Option<usize>
    ensures { (result ≡ blob_answer s.now at p out.old) × (out.new ≡ blob_left s.now at p out.old) }
{
    let first = cut(s, at, p.front);
    let second = cut(s, p.swap, p.back);
    let third = cut(s, p.front, p.swap);
    let size = out.len();
    if size < first.len()
        || size - first.len() < second.len()
        || size - first.len() - second.len() < third.len()
    {
        return None;
    }
    let a = put_bytes(out, 0, first);
    let b = put_bytes(out, a, second);
    Some(put_bytes(out, b, third))
}
