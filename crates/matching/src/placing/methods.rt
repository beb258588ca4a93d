ghost use Rattle.std.specs.Prelude.{◌≡◌, if◌then◌else◌, Some, None, nat_lt, slice_index};
ghost use Rattle.matching.specs.Meaning.{heads_of};

use super::Placing;

impl Placing {
    /// How many tracks are placed.
    pub fn tracks(&self) -> usize
        ensures { result ≡ self.now.tracks }
    {
        self.tracks
    }

    /// The heads, in the order of their tracks.
    pub fn heads(&self) -> &[u8]
        ensures { result.now ≡ heads_of self.now }
    {
        &self.heads[..self.tracks]
    }

    /// The head under the track, if there is such a track.
    pub fn head(&self, track: usize) -> Option<u8>
        ensures { result ≡ (if nat_lt track self.now.tracks then Some (slice_index (heads_of self.now) track) else None) }
    {
        self.heads().get(track).copied()
    }
}
