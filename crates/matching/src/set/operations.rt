// What is made of sets.
ghost use Rattle.std.specs.Prelude.{◌≡◌, ℕ, ◌<◌, ◌&&◌, ◌||◌, ◌==◌};
ghost use Rattle.matching.specs.Count.{count};
ghost use Rattle.matching.specs.Sets.{has};
ghost use Rattle.matching.specs.Search.{without};
ghost use Rattle.matching.specs.Limits.{most_members};

use super::SmallSet;
use members::Members;
use std::ops::{BitAnd, BitOrAssign};

impl SmallSet {
    pub(crate) const EMPTY: SmallSet = SmallSet { number: 0 };

    pub(crate) const ALL: SmallSet = SmallSet { number: 0xff };

    // The set with this number.
    pub(crate) fn of(number: u8) -> SmallSet
        ensures { result.number ≡ number }
    {
        SmallSet { number }
    }

    // The set's number, as an index of a table of all sets.
    pub(crate) fn index(self) -> usize
        ensures { result ≡ self.number }
    {
        self.number.into()
    }

    // How many members there are.
    pub(crate) fn len(self) -> u32
        ensures { result ≡ count (has self.number) most_members }
    {
        self.number.count_ones()
    }

    // The members, the least first.
    pub(crate) fn members(self) -> Members
        ensures { result.left ≡ self.number }
    {
        Members::of(self.number.into())
    }

    // Takes one member more into the set.
    #[tactic(auto, using(crate::proofs::Words::has_with))]
    pub(crate) fn insert(&mut self, member: usize)
        requires { member < most_members }
        ensures { (x : ℕ) → has self.new.number x ≡ (has self.old.number x || x == member) }
    {
        self.number |= 1 << member;
    }

    // The set without one of its members.
    #[tactic(auto, using(crate::proofs::Words::has_without))]
    pub(crate) fn without(self, member: usize) -> SmallSet
        requires { member < most_members }
        ensures { (x : ℕ) → has result.number x ≡ without (has self.number) member x }
    {
        SmallSet {
            number: self.number & !(1 << member),
        }
    }
}

#[tactic(auto, using(crate::proofs::Words::has_and))]
impl BitAnd for SmallSet {
    type Output = SmallSet;

    ghost bitand_gives = { λ a b r. (x : ℕ) → has r.number x ≡ (has a.number x && has b.number x) };

    fn bitand(self, other: SmallSet) -> SmallSet {
        SmallSet {
            number: self.number & other.number,
        }
    }
}

#[tactic(auto, using(crate::proofs::Words::has_or))]
impl BitOrAssign for SmallSet {
    ghost bitor_assign_gives = { λ a b r. (x : ℕ) → has r.number x ≡ (has a.number x || has b.number x) };

    fn bitor_assign(&mut self, other: SmallSet) {
        self.number |= other.number;
    }
}
