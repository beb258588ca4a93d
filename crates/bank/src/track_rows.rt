// The rows of one track.
ghost use Rattle.std.specs.Prelude.{◌≡◌, replicate};
ghost use Rattle.bank.specs.Steps.{TrackStepped};

use kinds::kind::Kind;
use rows::Row;
use sheetfile::limits::MOST_HEADS;

// A row for each head.
#[derive(Clone, Copy)]
pub(crate) struct TrackRows {
    pub(crate) heads: [Row; MOST_HEADS],
}

impl TrackRows {
    // The same row for each head.
    pub(crate) fn of(row: Row) -> TrackRows
        ensures { result.heads ≡ replicate 8 row }
    {
        TrackRows {
            heads: [row; MOST_HEADS],
        }
    }

    // One frame more. No `zip`, as in `Bank::step`.
    pub(crate) fn step<K: Kind>(&mut self, kind: K, tests: &[K::Test], frame: &[K::Reading])
        ensures { TrackStepped K.facts.passes tests.now frame.now self.old self.new }
    {
        for (h, row) in self.heads.iter_mut().enumerate() {
            let Some(reading) = frame.get(h) else {
                return;
            };
            row.step(kind, tests, reading);
        }
    }
}
