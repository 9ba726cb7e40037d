// Readings and lifetimes.
ghost use Rattle.std.specs.Prelude.{◌≡◌, ◌-◌};
ghost use Rattle.rule.specs.Gateway.{millis_of, due_at, later};
ghost use Rattle.table.specs.Meaning.{limited_lifetime};

use crate::is_set;
use rule::Millis;
use wire::Seconds;

// Lifetimes count seconds and the clock counts milliseconds.
pub fn millis_of(seconds: Seconds) -> Millis
    ensures { result ≡ millis_of seconds }
{
    Millis {
        count: (seconds.count as u64) * 1000,
    }
}

// How far a clock is past a reading; 0 where it is not.
pub fn past(clock: Millis, reading: Millis) -> u64
    ensures { result ≡ clock.count - reading.count }
{
    clock.count.saturating_sub(reading.count)
}

// Is an entry with this reading and lifetime, as the columns have it, due at the clock?
#[tactic(auto, unfolding(rule::specs::Gateway::due_at))]
pub fn is_due(reading: Millis, seconds: Seconds, limited: u8, clock: Millis) -> bool
    ensures { result ≡ due_at clock reading (limited_lifetime limited seconds) }
{
    if !is_set(limited) {
        return false;
    }
    let lifetime = millis_of(seconds);
    lifetime.count <= past(clock, reading)
}

// The later of two readings.
pub fn later(a: Millis, b: Millis) -> Millis
    ensures { result ≡ later a b }
{
    Millis {
        count: a.count.max(b.count),
    }
}
