// The places of a word, and the tests at them.
ghost use Rattle.std.specs.Prelude.{◌≡◌, ℕ, ◌-◌, ◌^◌, ◌<◌, min, ◌&&◌, length};
ghost use Rattle.std.specs.List.{slice_get};
ghost use Rattle.rows.specs.Bits.{bit};
ghost use Rattle.rows.specs.Matches.{is_some_and};

use kinds::kind::Kind;
use members::Members;

// the bits of a word
pub(crate) const PLACES: usize = 64;

// The word whose lowest `count` bits are set.
pub(crate) fn low_bits(count: usize) -> u64
    ensures { result ≡ 2 ^ min count 64 - 1 }
{
    if count < PLACES {
        (1u64 << count) - 1
    } else {
        u64::MAX
    }
}

// The places in `begun` whose tests the reading passes. No other test is tried.
pub(crate) fn passing_places<K: Kind>(
    kind: K,
    tests: &[K::Test],
    begun: u64,
    reading: &K::Reading,
) -> u64
    requires { begun < 2 ^ length tests.now }
    ensures { (i : ℕ) → bit i result ≡ (bit i begun && is_some_and (λ t. K.facts.passes t reading.now) (slice_get tests.now i)) }
{
    let mut next: u64 = 0;
    for i in Members::of(begun) {
        if kind.passes(&tests[i], reading) {
            next |= 1 << i;
        }
    }
    next
}
