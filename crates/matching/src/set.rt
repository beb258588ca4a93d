// Sets of tracks, and of heads.
ghost use Rattle.std.specs.Prelude.{◌≡◌};
ghost use Rattle.matching.specs.Sets.{has};

mod operations;

// The members of a set are below this number.
const MOST_MEMBERS: usize = 8;

/// A set of numbers below eight, as the tracks or the heads of a table are.
#[derive(Clone, Copy, Debug, PartialEq, Eq)]
pub struct SmallSet {
    // the sum of 2^x over the members x
    number: u8,
}

/// A set of tracks.
pub type TrackSet = SmallSet;

// A set of heads.
pub(crate) type HeadSet = SmallSet;

impl SmallSet {
    /// The set's number: the sum of 2^x over its members x.
    pub fn number(self) -> u8
        ensures { result ≡ self.number }
    {
        self.number
    }

    /// Is the track, or the head, in the set?
    pub fn contains(self, member: usize) -> bool
        ensures { result ≡ has self.number member }
    {
        member < MOST_MEMBERS && (self.number >> member) & 1 == 1
    }
}
