// Single fields of a key. A field that is there and is not what it should be is a fault at its length.
ghost use Rattle.std.specs.Prelude.{◌≡◌, List, Bool, ℕ};
ghost use Rattle.std.specs.Fn.{FnReturnsAt};
ghost use Rattle.keys.specs.Fields.{passing_at, sized_at, named_at, uncompressed, point_at, scalar, scalar_at};

use wire::read::{Cursor, Fault, Part, cut, is_mpint, is_same};

// A string whose bytes pass a test.
fn passing<F: Fn(&[u8]) -> bool>(c: Cursor, s: &[u8], test: F) -> Result<Part, Fault>
    requires { F.IsAlwaysCallable test }
    ensures { (p : List ℕ → Bool) → ((x : List ℕ) (r : Bool) → FnReturnsAt F.Fn test x r → r ≡ p x) → result ≡ passing_at s.now c.at p }
{
    let p = c.string(s)?;
    if test(cut(s, p.from, p.to)) {
        return Ok(p);
    }
    Err(Fault { at: c.at })
}

// A string of n bytes.
pub(crate) fn sized(c: Cursor, s: &[u8], n: usize) -> Result<Part, Fault>
    ensures { result ≡ sized_at s.now c.at n }
{
    let p = c.string(s)?;
    if p.to - p.from == n {
        return Ok(p);
    }
    Err(Fault { at: c.at })
}

// A string that is the given one.
pub(crate) fn named(c: Cursor, s: &[u8], name: &[u8]) -> Result<Part, Fault>
    ensures { result ≡ named_at s.now c.at name.now }
{
    passing(c, s, |v| is_same(v, name))
}

// A point of n bytes that is not compressed: it starts with 04.
pub(crate) fn is_uncompressed(v: &[u8], n: usize) -> bool
    ensures { result ≡ uncompressed v.now n }
{
    v.len() == n && v.starts_with(&[4])
}

pub(crate) fn point_at(c: Cursor, s: &[u8], n: usize) -> Result<Part, Fault>
    ensures { result ≡ point_at s.now c.at n }
{
    passing(c, s, |v| is_uncompressed(v, n))
}

// A positive mpint of at most n bytes without its sign byte.
pub(crate) fn is_scalar(v: &[u8], n: usize) -> bool
    ensures { result ≡ scalar v.now n }
{
    is_mpint(v) && (v.len() <= n || (v.len() - 1 <= n && v[0] == 0))
}

pub(crate) fn scalar_at(c: Cursor, s: &[u8], n: usize) -> Result<Part, Fault>
    ensures { result ≡ scalar_at s.now c.at n }
{
    passing(c, s, |v| is_scalar(v, n))
}
