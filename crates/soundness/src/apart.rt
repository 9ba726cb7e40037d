// No two entries have a number or a blob in common. Numbers are compared where they do not rise; blobs are told apart by a short number of each, and
// where two of these are the same, by their bytes.
ghost use Rattle.std.specs.Prelude.{◌≡◌, ◌+◌, ◌<◌, length, take, drop, get_or};
ghost use Rattle.std.specs.List.{list_any};
ghost use Rattle.std.proofs.Math.Option.{some};
ghost use Rattle.wire.specs.Limits.{entries_limit, store_size};
ghost use Rattle.rule.specs.Gateway.{Entry as Key, entry_at};
ghost use Rattle.rule.specs.Soundness.{every_entry, apart, distinct};
ghost use Rattle.table.specs.declared.State.{State};
ghost use Rattle.table.specs.Bytes.{among};
ghost use Rattle.table.specs.Entries.{shown, count_of, start_in};
ghost use Rattle.table.specs.Meaning.{gateway_of};
ghost use Rattle.table.specs.Soundness.{short_of, shorts_in, HousedIn};
ghost use Rattle.table.specs.Shown.{PartsOf};
ghost use Rattle.soundness.specs.Rising.{rising};
ghost use Rattle.soundness.specs.Shortened.{Shortened};

use table::Shown;
use table::entries::count;
use wire::limits;
use wire::read::join;

// What four of the last twelve bytes spell: keys differ there, also those whose blob ends in a text that all have.
#[tactic(auto, unfolding(table::specs::Soundness::short_of, wire::specs::Numbers::be_at))]
fn short_of(blob: &[u8]) -> u32
    ensures { result ≡ short_of blob.now }
{
    let n = blob.len();
    if n < 12 {
        return 0;
    }
    let at = n - 12;
    join(blob[at], blob[at + 1], blob[at + 2], blob[at + 3])
}

// The short number of each of n blobs.
fn shorts_of(t: Shown<'_>, store: &[u8], n: usize) -> [u32; limits::ENTRIES_LIMIT]
    requires { HousedIn (shown t) store.now × (length store.now ≡ store_size) × (n ≡ count_of t.numbers.now) }
    ensures { take n result ≡ shorts_in t.entry.blob_lens.now t.entry.fields_lens.now t.entry.comment_lens.now n store.now }
{
    let mut shorts = [0u32; limits::ENTRIES_LIMIT];
    let mut at = 0;
    for i in 0..n {
        let end = at + t.blob_lens[i];
        shorts[i] = short_of(&store[at..end]);
        at = end + (t.fields_lens[i] + t.comment_lens[i]);
    }
    shorts
}

// Is this one among them? Goes over all with no early exit, so that it is compiled to vector code.
fn is_among<T: Copy + PartialEq>(all: &[T], one: T) -> bool
    ensures { result ≡ list_any (λ x. T.eq x one) all.now }
{
    let mut found = false;
    for x in all {
        found |= *x == one;
    }
    found
}

// Is each number above the one before it? Then no two are the same: so stand keys that were never added again.
fn is_rising(numbers: &[u64]) -> bool
    ensures { result ≡ rising numbers.now }
{
    numbers.is_sorted_by(|a, b| *a < *b)
}

// The first n entries, whose bytes lie in the store; the short number of each blob; and do the numbers rise?
#[derive(Clone, Copy)]
struct Entries<'a> {
    t: Shown<'a>,
    store: &'a [u8],
    n: usize,
    shorts: &'a [u32],
    rises: bool,
}

impl Entries<'_> {
    // Does the number of entry i stand behind it? Where they rise, none is looked at.
    fn is_number_again(self, i: usize) -> bool
        requires { Shortened self × (i < self.n) }
        ensures { result ≡ among (get_or self.entry.t.numbers.now i 0) (drop (i + 1) (take self.entry.n self.entry.t.numbers.now)) }
    {
        !self.rises && is_among(&self.t.numbers[i + 1..self.n], self.t.numbers[i])
    }

    // Entry i, whose bytes begin at `at`, is unlike all entries behind it.
    fn is_unlike(self, i: usize, at: usize) -> bool
        requires { Shortened self × (i < self.n) × (at ≡ start_in self.t.blob_lens.now self.t.fields_lens.now self.t.comment_lens.now i) }
        ensures { (s : State) (k : Key) → PartsOf (shown self.entry.t) s → entry_at (gateway_of s self.entry.store.now).entries i ≡ some k → result ≡ every_entry (apart k) (drop (i + 1) (gateway_of s self.entry.store.now).entries) }
    {
        if self.is_number_again(i) {
            return false;
        }
        let next = i + 1;
        if !is_among(&self.shorts[next..self.n], self.shorts[i]) {
            return true;
        }
        let t = self.t;
        let end = at + t.blob_lens[i];
        let start = end + (t.fields_lens[i] + t.comment_lens[i]);
        match t.find_from(self.store, next, start, &self.store[at..end]) {
            // (`is_none()` leaves the two cases joined, which the search does not part.)
            Some(_) => false,
            None => true,
        }
    }

    // All entries are unlike those behind them.
    fn are_unlike(self) -> bool
        requires { Shortened self }
        ensures { (s : State) → PartsOf (shown self.entry.t) s → result ≡ distinct (gateway_of s self.entry.store.now).entries }
    {
        let t = self.t;
        let mut at = 0;
        for i in 0..self.n {
            if !self.is_unlike(i, at) {
                return false;
            }
            at += t.blob_lens[i] + (t.fields_lens[i] + t.comment_lens[i]);
        }
        true
    }
}

// Are the entries apart? The test comes here last: columns and store have their sizes, and each entry stands by itself and within the store.
pub fn is_distinct(t: Shown<'_>, store: &[u8]) -> bool
    requires { HousedIn (shown t) store.now × (length store.now ≡ store_size) }
    ensures { (s : State) → PartsOf (shown t.entry) s → result ≡ distinct (gateway_of s store.now).entries }
{
    let n = count(t.numbers);
    let shorts = shorts_of(t, store, n);
    let entries = Entries {
        t,
        store,
        n,
        shorts: &shorts,
        rises: is_rising(&t.numbers[..n]),
    };
    entries.are_unlike()
}
