// The tests of one track in a store.
ghost use Rattle.std.specs.Prelude.{◌≡◌, option_copied};
ghost use Rattle.sheet.specs.TrackParts.{track_of};

use crate::entry::Entry;

impl Entry {
    // The tests of a track of the signature, or none where there is no such track or the store is too short for the signature.
    pub fn track_tests<'a, T>(&self, track: usize, store: &'a [T]) -> Option<&'a [T]>
        ensures { option_copied result ≡ track_of self.now track store.now }
    {
        if track >= self.tracks as usize {
            return None;
        }
        let tests = self.tests_in(store)?;
        let frames = self.frames as usize;
        let first = track * frames;
        Some(&tests[first..first + frames])
    }
}
