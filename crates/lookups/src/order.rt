// The held numbers in order of insertion. What is told is tested first: any state, any store.
ghost use Rattle.std.specs.Prelude.{◌≡◌, ltb, min};
ghost use Rattle.std.specs.List.{filter, reduce};
ghost use Rattle.lookups.specs.Told.{next_told};

use soundness::is_state_sound;
use table::State;
use table::entries::count;

// The least of the numbers above `after`.
fn least_above(numbers: &[u64], after: u64) -> Option<u64>
    ensures { result ≡ reduce min (filter (λ number. ltb after number) numbers.now) }
{
    numbers
        .iter()
        .copied()
        .filter(|number| after < *number)
        .min()
}

pub fn next_of(state: State, store: &[u8], after: u64) -> u64
    ensures { result ≡ next_told state store.now after }
{
    if !is_state_sound(&state, store) {
        return 0;
    }
    let numbers = &state.columns.numbers;
    let n = count(numbers);
    least_above(&numbers[..n], after).unwrap_or(0)
}
