// UTF-8 by RFC 3629: a first byte says how many bytes follow and what the first of these may be.
ghost use Rattle.std.specs.Prelude.{◌≡◌, cond};
ghost use Rattle.wire.specs.Utf8.{wants, lead_of, step_of, ended, utf8_end, ascii_end};

// How many bytes must follow, and what the next one may be.
#[derive(Clone, Copy)]
pub(crate) struct Tails {
    pub left: u8,
    pub low: u8,
    pub high: u8,
}

fn wants(left: u8, low: u8, high: u8) -> Option<Tails>
    ensures { result ≡ wants left low high }
{
    Some(Tails { left, low, high })
}

fn lead(b: u8) -> Option<Tails>
    ensures { result ≡ lead_of b }
{
    match b {
        0..=0x7f => wants(0, 0x80, 0xbf),
        0xc2..=0xdf => wants(1, 0x80, 0xbf),
        0xe0 => wants(2, 0xa0, 0xbf),
        0xe1..=0xec => wants(2, 0x80, 0xbf),
        0xed => wants(2, 0x80, 0x9f),
        0xee..=0xef => wants(2, 0x80, 0xbf),
        0xf0 => wants(3, 0x90, 0xbf),
        0xf1..=0xf3 => wants(3, 0x80, 0xbf),
        0xf4 => wants(3, 0x80, 0x8f),
        _ => None,
    }
}

fn step(u: Option<Tails>, b: u8) -> Option<Tails>
    ensures { result ≡ step_of u b }
{
    let t = u?;
    if t.left == 0 {
        return lead(b);
    }
    if b < t.low || t.high < b {
        return None;
    }
    wants(t.left - 1, 0x80, 0xbf)
}

// `here` where a character ends there, else `before`.
fn end_at(u: Option<Tails>, here: usize, before: usize) -> usize
    ensures { result ≡ cond (ended u) here before }
{
    match u {
        Some(t) if t.left == 0 => here,
        _ => before,
    }
}

// How many bytes at the start are characters of their own.
fn ascii_end(s: &[u8]) -> usize
    ensures { result ≡ ascii_end s.now }
{
    for (i, b) in s.iter().enumerate() {
        if 0x7f < *b {
            return i;
        }
    }
    s.len()
}

// The length of the longest part from the start that is UTF-8.
pub fn utf8_end(s: &[u8]) -> usize
    ensures { result ≡ utf8_end s.now }
{
    let mut u = wants(0, 0x80, 0xbf);
    let ascii = ascii_end(s);
    let mut end = ascii;
    for i in ascii..s.len() {
        u = step(u, s[i]);
        end = end_at(u, i + 1, end);
    }
    end
}
