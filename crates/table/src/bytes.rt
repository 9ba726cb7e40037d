// Whole parts: zeroed, copied, padded, tested for zero, compared.
ghost use Rattle.std.specs.Prelude.{◌≡◌, ◌&&◌, ◌+◌, ◌≤◌, max, length, replicate};
ghost use Rattle.wire.specs.Read.{same};
ghost use Rattle.table.specs.Bytes.{all_zero, greatest_byte, padded};

use wire::write::window;

// All bytes of the part become zero.
pub fn wipe(p: &mut [u8])
    ensures { p.new ≡ replicate (length p.old) 0 }
{
    p.fill(0);
}

// The bytes of `src` go into a part of the same length; whoever cuts the part cuts it so.
pub fn copy_in(p: &mut [u8], src: &[u8])
    requires { length p.old ≡ length src.now }
    ensures { p.new ≡ src.now }
{
    p.copy_from_slice(src);
}

// The bytes of `src`, and zeros behind them; whoever cuts the part cuts it long enough.
#[tactic(auto, unfolding(crate::specs::Bytes::padded))]
pub fn pad(p: &mut [u8], src: &[u8])
    requires { length src.now ≤ length p.old }
    ensures { p.new ≡ padded (length p.old) src.now }
{
    let n = src.len();
    copy_in(&mut p[..n], src);
    wipe(&mut p[n..]);
}

// Goes over all bytes with no early exit, so that it is compiled to vector code; two parts in one loop take half the turns.
fn greatest_byte(a: &[u8], b: &[u8]) -> u8
    requires { length a.now ≡ length b.now }
    ensures { result ≡ max (greatest_byte a.now) (greatest_byte b.now) }
{
    let mut most: u8 = 0;
    for i in 0..a.len() {
        most = most.max(a[i].max(b[i]));
    }
    most
}

// The first h bytes and the last h: the windows overlap, and leave no byte out.
pub fn is_zero(p: &[u8]) -> bool
    ensures { result ≡ all_zero p.now }
{
    let n = p.len();
    let h = window(n);
    let from = n - h;
    greatest_byte(&p[..h], &p[from..]) == 0
}

// Goes over all bytes with no early exit, as above: parts that differ late cost no more than others.
fn is_all_equal(a: &[u8], b: &[u8]) -> bool
    requires { length a.now ≡ length b.now }
    ensures { result ≡ same a.now b.now }
{
    let mut equal = true;
    for i in 0..a.len() {
        equal &= a[i] == b[i];
    }
    equal
}

// The last bytes first: the blobs of two keys of one length differ there, but for one pair in 256. Else it goes over all bytes.
pub fn is_equal(a: &[u8], b: &[u8]) -> bool
    ensures { result ≡ same a.now b.now }
{
    let n = a.len();
    if n != b.len() {
        return false;
    }
    if n == 0 {
        return true;
    }
    if a[n - 1] != b[n - 1] {
        return false;
    }
    is_all_equal(a, b)
}
