// The least set of tracks that has too few heads.
ghost use Rattle.std.specs.Prelude.{◌≡◌, ℕ, ◌^◌, None};
ghost use Rattle.matching.specs.Limits.{most_tracks, most_heads};
ghost use Rattle.matching.specs.Count.{least};
ghost use Rattle.matching.specs.Sets.{has};
ghost use Rattle.matching.specs.Short.{usable, is_short_set};
ghost use Rattle.matching.specs.Search.{first_placing_of};
ghost use Rattle.matching.specs.Meaning.{fitting};

use crate::fits::{Fits, MOST_TRACKS};
use crate::set::{HeadSet, TrackSet};

impl Fits {
    // The heads that fit at least one track of the set.
    fn heads_for(&self, set: TrackSet) -> HeadSet
        ensures { (h : ℕ) → has result.number h ≡ usable (fitting self.now) (has set.number) most_tracks h }
    {
        let mut heads = HeadSet::EMPTY;
        for track in set.members() {
            heads |= self.row(track);
        }
        heads
    }

    // Are the heads that fit at least one track of the set fewer than its tracks?
    fn is_short(&self, set: TrackSet) -> bool
        ensures { result ≡ is_short_set (fitting self.now) most_tracks most_heads (has set.number) }
    {
        self.heads_for(set).len() < set.len()
    }

    // The short set of least number, where there is no placing: by Hall's theorem some set is short.
    pub(crate) fn least_short(&self) -> TrackSet
        requires { first_placing_of (fitting self.now) self.now.tracks 8 ≡ None }
        ensures { result.number ≡ least (λ s. is_short_set (fitting self.now) self.now.tracks 8 (has s)) (2 ^ self.now.tracks) }
    {
        (0..1u32 << MOST_TRACKS)
            .map(|number| TrackSet::of(number as u8))
            .find(|set| self.is_short(*set))
            .unwrap()
    }
}
