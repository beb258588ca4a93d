// The fits of a signature, worked out from the tail alone.
ghost use Rattle.sheet.specs.TrackParts.{track_of};
ghost use Rattle.station.specs.Rechecks.{Passed, ToldFit};

use crate::tail::Tail;
use kinds::kind::Kind;
use matching::Witness;
use sheet::entry::Entry;

// Whether the tests, in order, pass the latest readings of a head: each looks as far back as tests stand behind it. In
// their order, as the definition goes over them, and so by a place that is worked out.
fn passes_back<K: Kind>(
    kind: K,
    tests: &[K::Test],
    tail: &Tail<'_, K::Reading>,
    head: usize,
) -> bool
    ensures { Passed K.facts.passes tail.now tests.now head result }
{
    for (i, test) in tests.iter().enumerate() {
        let q = tests.len() - 1 - i;
        let Some(reading) = tail.reading(q, head) else {
            return false;
        };
        if !kind.passes(test, &reading) {
            return false;
        }
    }
    true
}

// The latest readings of the tail, beside the tests of a signature.
#[derive(Clone, Copy)]
pub(crate) struct LatestReadings<'a, 't, K: Kind> {
    pub(crate) kind: K,
    pub(crate) entry: &'a Entry,
    pub(crate) store: &'a [K::Test],
    pub(crate) tail: &'a Tail<'t, K::Reading>,
}

impl<K: Kind> Witness for LatestReadings<'_, '_, K> {
    ghost Says = { λ w t h flag. ToldFit K.facts.passes w.tail.now (track_of w.entry.now t w.store.now) h flag };

    fn fits(&self, track: usize, head: usize) -> bool {
        match self.entry.track_tests(track, self.store) {
            Some(tests) => passes_back(self.kind, tests, self.tail, head),
            None => false,
        }
    }
}
