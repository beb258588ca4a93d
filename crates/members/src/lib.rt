//! The members of a set of numbers below 64 that a word holds: bit x is set where x is a member.
//!
//! Other crates go over a set by `for x in Members::of(set)`.
#![tactic(auto)]

ghost use Rattle.std.specs.Prelude.{◌≡◌, MatchOption};
ghost use Rattle.std.specs.Iterator.{at_most};
ghost use Rattle.members.specs.Takes.{TakesLeast};

/// Goes over the members of a set, the least first.
#[derive(Clone, Copy, Debug)]
pub struct Members {
    left: u64,
}

impl Members {
    /// The members of the set whose bits are set in the word.
    pub fn of(set: u64) -> Members
        ensures { result.left ≡ set }
    {
        Members { left: set }
    }
}

impl Iterator for Members {
    type Item = usize;

    ghost next_gives = { λ s r t. MatchOption r (s.left ≡ 0) (λ x. TakesLeast s.left x t.left) };

    ghost remaining = { λ s. at_most s.left };

    fn next(&mut self) -> Option<usize> {
        if self.left == 0 {
            return None;
        }
        let least = self.left.trailing_zeros() as usize;
        self.left &= self.left - 1;
        Some(least)
    }
}
