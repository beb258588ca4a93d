// The begun matches of one track on one head, as the bits of a word.
#![tactic(auto)]

ghost use Rattle.std.specs.Prelude.{◌≡◌, ◌≤◌, List, [], ◌∷◌, length};
ghost use Rattle.rows.specs.Matches.{passed_last, Tells};

use kinds::kind::Kind;
use places::{PLACES, low_bits, passing_places};

mod places;

// Which matches are begun: bit i is set where the first i + 1 tests pass the latest i + 1 readings.
// A row serves up to 64 tests; of more, only the first 64 count.
// `new` and `fits` take the kind only because their contracts speak of its passing rule.
#[derive(Clone, Copy)]
pub struct Row {
    word: u64,
}

impl Row {
    // No match is begun, as before any reading.
    pub fn new<K: Kind>(_kind: K) -> Row
        ensures { (tests : List K.Test) → Tells K.facts.passes tests [] result.word }
    {
        Row { word: 0 }
    }

    // One reading more. It tries the first test, and those that begun matches have come to.
    pub fn step<K: Kind>(&mut self, kind: K, tests: &[K::Test], reading: &K::Reading)
        ensures { length tests.now ≤ 64 → (history : List K.Reading) → Tells K.facts.passes tests.now history self.old.word → Tells K.facts.passes tests.now (reading.now ∷ history) self.new.word }
    {
        let begun = ((self.word << 1) | 1) & low_bits(tests.len());
        self.word = passing_places(kind, tests, begun, reading);
    }

    // Whether the match of `frames` tests is complete at the latest reading; never of no tests or more than 64.
    pub fn fits<K: Kind>(&self, _kind: K, frames: usize) -> bool
        ensures { (tests : List K.Test) (history : List K.Reading) → 1 ≤ length tests → length tests ≤ 64 → frames ≡ length tests → Tells K.facts.passes tests history self.now.word → result ≡ passed_last K.facts.passes tests history }
    {
        if frames == 0 || frames > PLACES {
            return false;
        }
        (self.word >> (frames - 1)) & 1 == 1
    }
}
