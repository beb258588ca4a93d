// The rows of one signature.
ghost use Rattle.std.specs.Prelude.{◌≡◌, replicate, MatchOption};
ghost use Rattle.bank.specs.Steps.{SignatureStepped};
ghost use Rattle.bank.specs.Words.{word_of};

use crate::track_rows::TrackRows;
use kinds::kind::Kind;
use rows::Row;
use sheet::entry::Entry;
use sheetfile::limits::MOST_HEADS;

// The rows of each track: there are at most as many tracks as heads.
#[derive(Clone, Copy)]
pub(crate) struct SignatureRows {
    tracks: [TrackRows; MOST_HEADS],
}

impl SignatureRows {
    // The same row for each track and head.
    pub(crate) fn of(row: Row) -> SignatureRows
        ensures { result.tracks ≡ replicate 8 (record { heads = replicate 8 row }) }
    {
        SignatureRows {
            tracks: [TrackRows::of(row); MOST_HEADS],
        }
    }

    // The row of a track and head, where there is one.
    pub(crate) fn row(&self, track: usize, head: usize) -> Option<&Row>
        ensures { MatchOption result (word_of self.now track head ≡ 0) (λ row. row.now.word ≡ word_of self.now track head) }
    {
        self.tracks.get(track)?.heads.get(head)
    }

    // One frame more. No `zip`, as in `Bank::step`. Where the store is too short for the entry's tests, nothing is done.
    pub(crate) fn step<K: Kind>(
        &mut self,
        kind: K,
        entry: &Entry,
        store: &[K::Test],
        frame: &[K::Reading],
    )
        ensures { SignatureStepped K.facts.passes store.now entry.now frame.now self.old self.new }
    {
        for (t, track) in self.tracks.iter_mut().enumerate() {
            let Some(tests) = entry.track_tests(t, store) else {
                return;
            };
            track.step(kind, tests, frame);
        }
    }
}
