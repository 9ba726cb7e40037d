// Reading: a cursor goes by value over the bytes; each method answers what it read with the moved cursor, or the place of its fault.
ghost use Rattle.std.specs.Prelude.{◌≡◌};
ghost use Rattle.wire.specs.Numbers.{be};
ghost use Rattle.wire.specs.Mpint.{mpint};
ghost use Rattle.wire.specs.Read.{byte_at, number_at, string_at, text_at, mpint_at, cut_of, cut_from, same, span_of};
ghost use Rattle.wire.specs.Parts.{PartOf};

use crate::utf8;

#[derive(Clone, Copy)]
pub struct Cursor {
    pub at: usize,
}

// Where a reader stopped: the place of what is not as it should be.
#[derive(Clone, Copy, PartialEq, Eq)]
pub struct Fault {
    pub at: usize,
}

// A string's contents lie from `from` up to `to`; `next` is behind them.
#[derive(Clone, Copy)]
pub struct Part {
    pub from: usize,
    pub to: usize,
    pub next: Cursor,
}

// A string's contents.
#[derive(Clone, Copy)]
pub struct Span {
    pub from: usize,
    pub to: usize,
}

// The number that four bytes spell, the highest first.
pub fn join(a: u8, b: u8, c: u8, d: u8) -> u32
    ensures { result ≡ be a b c d }
{
    u32::from_be_bytes([a, b, c, d])
}

// The bytes from `from` up to `to`; where they are not all there, none, at the start.
pub fn cut(s: &[u8], from: usize, to: usize) -> &[u8]
    ensures { PartOf s.entry (cut_from s.now from to) (cut_of s.now from to) result }
{
    if from <= to && to <= s.len() {
        &s[from..to]
    } else {
        &s[..0]
    }
}

// Leaves at the first byte that differs. (The library's `==` would be a call in the compiled exports: it is never inlined whole.)
pub fn is_same(a: &[u8], b: &[u8]) -> bool
    ensures { result ≡ same a.now b.now }
{
    if a.len() != b.len() {
        return false;
    }
    for i in 0..a.len() {
        if a[i] != b[i] {
            return false;
        }
    }
    true
}

// A positive mpint in its shortest form.
pub fn is_mpint(v: &[u8]) -> bool
    ensures { result ≡ mpint v.now }
{
    match v {
        [a, ..] if 0 < *a => *a < 128,
        [_, b, ..] => 128 <= *b,
        _ => false,
    }
}

impl Span {
    // The bytes that it names; where they are not all there, none.
    pub fn of(self, s: &[u8]) -> &[u8]
        ensures { PartOf s.entry (cut_from s.now self.from self.to) (cut_of s.now self.from self.to) result }
    {
        cut(s, self.from, self.to)
    }
}

impl From<Part> for Span {
    ghost from_gives = { λ p x. x ≡ span_of p };

    fn from(p: Part) -> Span {
        Span {
            from: p.from,
            to: p.to,
        }
    }
}

impl Cursor {
    pub fn byte(self, s: &[u8]) -> Result<(u8, Cursor), Fault>
        ensures { result ≡ byte_at s.now self.at }
    {
        let at = self.at;
        if s.len() <= at {
            return Err(Fault { at });
        }
        Ok((s[at], Cursor { at: at + 1 }))
    }

    pub fn number(self, s: &[u8]) -> Result<(u32, Cursor), Fault>
        ensures { result ≡ number_at s.now self.at }
    {
        let at = self.at;
        if s.len() < at || s.len() - at < 4 {
            return Err(Fault { at });
        }
        let n = join(s[at], s[at + 1], s[at + 2], s[at + 3]);
        Ok((n, Cursor { at: at + 4 }))
    }

    // A string that is cut, or whose length is too great, is a fault at its length.
    pub fn string(self, s: &[u8]) -> Result<Part, Fault>
        ensures { result ≡ string_at s.now self.at }
    {
        let (n, next) = self.number(s)?;
        let from = next.at;
        let len = n as usize;
        if s.len() - from < len {
            return Err(Fault { at: self.at });
        }
        let to = from + len;
        Ok(Part {
            from,
            to,
            next: Cursor { at: to },
        })
    }

    // A string of UTF-8; else a fault where its longest part of UTF-8 ends.
    pub fn text(self, s: &[u8]) -> Result<Part, Fault>
        ensures { result ≡ text_at s.now self.at }
    {
        let p = self.string(s)?;
        let end = utf8::utf8_end(cut(s, p.from, p.to));
        if end == p.to - p.from {
            return Ok(p);
        }
        Err(Fault { at: p.from + end })
    }

    // A string that is a positive mpint in its shortest form; else a fault at its length.
    pub fn mpint(self, s: &[u8]) -> Result<Part, Fault>
        ensures { result ≡ mpint_at s.now self.at }
    {
        let p = self.string(s)?;
        if is_mpint(cut(s, p.from, p.to)) {
            return Ok(p);
        }
        Err(Fault { at: self.at })
    }
}
