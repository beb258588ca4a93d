ghost use Rattle.std.specs.Prelude.{◌≡◌, ◌<◌, ◌↔◌, ℕ, IsTrue, slice_index};
ghost use Rattle.matching.specs.Limits.{most_tracks};
ghost use Rattle.matching.specs.Meaning.{fitting};

use super::{Fits, MOST_TRACKS};
use crate::set::HeadSet;

impl Fits {
    /// How many tracks there are.
    pub fn tracks(&self) -> usize
        ensures { result ≡ self.now.tracks }
    {
        self.tracks
    }

    /// How many heads there are.
    pub fn heads(&self) -> usize
        ensures { result ≡ self.now.heads }
    {
        self.heads
    }

    /// Does the head fit the track? A track or a head that is not there fits nothing.
    pub fn contains(&self, track: usize, head: usize) -> bool
        ensures { result ≡ fitting self.now track head }
    {
        track < MOST_TRACKS && self.row(track).contains(head)
    }

    // The heads that fit the track.
    pub(crate) fn row(&self, track: usize) -> HeadSet
        requires { track < most_tracks }
        ensures { result.number ≡ slice_index self.now.rows track }
    {
        HeadSet::of(self.rows[track])
    }

    // Is there a track that fits no head?
    pub(crate) fn has_idle_track(&self) -> bool
        ensures { IsTrue result ↔ ((t : ℕ) × (t < self.now.tracks) × (slice_index self.now.rows t ≡ 0)) }
    {
        self.rows[..self.tracks].contains(&0)
    }
}
