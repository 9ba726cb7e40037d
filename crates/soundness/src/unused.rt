// Unused entries: behind the last one every column is zero.
ghost use Rattle.std.specs.Prelude.{◌≡◌, ◌≤◌, length};
ghost use Rattle.std.specs.List.{list_all};
ghost use Rattle.wire.specs.Limits.{entries_limit};
ghost use Rattle.table.specs.Entries.{Long, shown};
ghost use Rattle.table.specs.Soundness.{zero_behind};

use table::Shown;
use table::bytes::is_zero;

// Are all of them this one? Goes over all with no early exit, so that it is compiled to vector code.
fn are_all<T: Copy + PartialEq>(column: &[T], one: T) -> bool
    ensures { result ≡ list_all (λ x. T.eq x one) column.now }
{
    let mut all = true;
    for x in column {
        all &= *x == one;
    }
    all
}

// The test comes here once columns have their lengths; n is the count of the entries.
pub fn is_unused_zero(t: Shown<'_>, n: usize) -> bool
    requires { (n ≤ entries_limit) × Long (shown t) }
    ensures { result ≡ zero_behind n (shown t.entry) }
{
    if !are_all(&t.numbers[n..], 0) {
        return false;
    }
    if !are_all(&t.readings[n..], 0) {
        return false;
    }
    if !are_all(&t.blob_lens[n..], 0) {
        return false;
    }
    if !are_all(&t.fields_lens[n..], 0) {
        return false;
    }
    if !are_all(&t.comment_lens[n..], 0) {
        return false;
    }
    if !are_all(&t.seconds[n..], 0) {
        return false;
    }
    if !is_zero(&t.limited[n..]) {
        return false;
    }
    is_zero(&t.confirm[n..])
}
