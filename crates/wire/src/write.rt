// Writing into a lent buffer at a place; all other bytes stay. Each function answers the place behind what it wrote. None refuses, since
// a refusal halfway would leave a frame half written: whoever writes a frame tests its room, once, before its first byte. A string's length has
// four bytes, so `put_string` also wants fewer than 2^32 of them: whoever calls it has a limit far below, or cut them out of a string.
ghost use Rattle.std.specs.Prelude.{◌≡◌, [], ◌∷◌, ◌+◌, ◌≤◌, ◌<◌, ◌^◌, length, take, drop};
ghost use Rattle.wire.specs.Numbers.{be32};
ghost use Rattle.wire.specs.Write.{string, write};

pub fn put_byte(out: &mut [u8], at: usize, b: u8) -> usize
    requires { at < length out.old }
    ensures { (result ≡ at + 1) × (out.new ≡ write out.old at (b ∷ [])) }
{
    out[at] = b;
    at + 1
}

pub fn put_number(out: &mut [u8], at: usize, n: u32) -> usize
    requires { at + 4 ≤ length out.old }
    ensures { (result ≡ at + 4) × (out.new ≡ write out.old at (be32 n)) }
{
    out[at..at + 4].copy_from_slice(&n.to_be_bytes());
    at + 4
}

// Half of n or more; where there is room a multiple of 32, so that vectors leave no byte over.
pub fn window(n: usize) -> usize
    ensures { (result ≤ n) × (n ≤ result + result) }
{
    let h = (n / 64 + 1) * 32;
    if n < h {
        return n;
    }
    h
}

// A block on its way through a local array: the array cannot overlap what is written, so the block moves whole, with no test.
fn block<const N: usize>(v: &[u8], at: usize) -> [u8; N]
    requires { at + N ≤ length v.now }
    ensures { result ≡ take N (drop at v.now) }
{
    let mut b = [0u8; N];
    b.copy_from_slice(&v[at..at + N]);
    b
}

// Block by block, and the last bytes as a block that overlaps the one before, so that none is moved alone.
fn put_by<const N: usize>(out: &mut [u8], at: usize, v: &[u8]) -> usize
    requires { (0 < N) × (N ≤ length v.now) × (at + length v.now ≤ length out.old) }
    ensures { (result ≡ at + length v.now) × (out.new ≡ write out.old at v.now) }
{
    let n = v.len();
    for i in (0..n - N).step_by(N) {
        out[at + i..at + i + N].copy_from_slice(&block::<N>(v, i));
    }
    out[at + n - N..at + n].copy_from_slice(&block::<N>(v, n - N));
    at + n
}

// A call of the C library's copy costs more than a few blocks, and less than many.
pub fn put_bytes(out: &mut [u8], at: usize, v: &[u8]) -> usize
    requires { at + length v.now ≤ length out.old }
    ensures { (result ≡ at + length v.now) × (out.new ≡ write out.old at v.now) }
{
    let n = v.len();
    match n {
        0..8 => {
            for (i, b) in v.iter().enumerate() {
                out[at + i] = *b;
            }
            at + n
        }
        8..32 => put_by::<8>(out, at, v),
        32..384 => put_by::<32>(out, at, v),
        _ => {
            out[at..at + n].copy_from_slice(v);
            at + n
        }
    }
}

pub fn put_string(out: &mut [u8], at: usize, v: &[u8]) -> usize
    requires { (at + 4 + length v.now ≤ length out.old) × (length v.now < 2 ^ 32) }
    ensures { (result ≡ at + 4 + length v.now) × (out.new ≡ write out.old at (string v.now)) }
{
    let n = v.len() as u32;
    let from = put_number(out, at, n);
    put_bytes(out, from, v)
}
