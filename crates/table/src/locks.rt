// The lock record: open or with a passphrase.
ghost use Rattle.std.specs.Prelude.{◌≡◌, ◌≤◌, ltb, length, take};
ghost use Rattle.wire.specs.Limits.{passphrase_limit};
ghost use Rattle.wire.specs.Read.{same};
ghost use Rattle.table.specs.Meaning.{lock_of};

use crate::bytes::pad;

// Of the length that is kept with the passphrase.
pub fn is_locked(len: usize) -> bool
    ensures { result ≡ ltb 0 len }
{
    0 < len
}

// Is this the passphrase that is kept? Its length is a sound state's, or tested.
pub fn is_passphrase(bytes: &[u8], len: usize, p: &[u8]) -> bool
    requires { len ≤ length bytes.now }
    ensures { result ≡ same (take len bytes.now) p.now }
{
    if len != p.len() {
        return false;
    }
    // No way out of this loop before its end: what it executes does not tell where the first unequal byte is.
    let mut differences = 0;
    for i in 0..len {
        differences |= bytes[i] ^ p[i];
    }
    differences == 0
}

// The record keeps this passphrase, whose length comes back; an empty one opens. Who locks has tested the length.
pub fn keep_passphrase(bytes: &mut [u8], p: &[u8]) -> usize
    requires { (length bytes.old ≡ passphrase_limit) × (length p.now ≤ passphrase_limit) }
    ensures { record { bytes = bytes.new; len = result } ≡ lock_of p.now }
{
    pad(bytes, p);
    p.len()
}
