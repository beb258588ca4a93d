// The outcome: seen or short.
ghost use Rattle.std.specs.Prelude.{◌≡◌, Some};
ghost use Rattle.matching.specs.Meaning.{answer_of};
ghost use Rattle.matching.specs.Texts.{spaced, answer_text};
ghost use Rattle.matching.specs.Promises.{answer_for, RightFor, OnlyRight, SameRenamed, Local};

use crate::fits::Fits;
use crate::placing::Placing;
use crate::set::TrackSet;
use std::fmt;

/// Whether the tracks can stand on different heads: printed as `seen 1 0` or `short 6`.
// This is no `Result`: a set that is short is an answer as good as a placing, and neither is a failure.
#[derive(Clone, Copy, Debug, PartialEq, Eq)]
pub enum Outcome {
    /// They can, and this is the first placing.
    Seen(Placing),
    /// They cannot, and this is the short set of least number.
    Short(TrackSet),
}

impl Fits {
    /// Seen with the first placing if there is a placing, else short with the short set of least number.
    ///
    /// This is the answer as defined (`is`), and right in words (`right`); nothing else is right (`only`). Other names for
    /// the heads change neither the word nor the set (`unmoved`), and only the fits of the table's own tracks on its own
    /// heads matter (`local`).
    pub fn outcome(&self) -> Outcome
        ensures is { answer_of result ≡ answer_for self.now }
        ensures right { RightFor self.now (answer_of result) }
        ensures only { OnlyRight self.now (answer_of result) }
        ensures unmoved { SameRenamed self.now (answer_of result) }
        ensures local { Local self.now (answer_of result) }
    {
        match self.first_placing() {
            Some(placing) => Outcome::Seen(placing),
            None => Outcome::Short(self.least_short()),
        }
    }
}

// Heads, with a blank before each.
#[derive(Clone, Copy)]
struct Spaced<'a>(&'a [u8]);

impl fmt::Display for Spaced<'_> {
    ghost output = { λ heads. Some (spaced heads.0.now) };

    fn fmt<W: fmt::Write>(&self, f: &mut fmt::Formatter<W>) -> fmt::Result {
        for head in self.0 {
            write!(f, " {head}")?;
        }
        Ok(())
    }
}

impl fmt::Display for Outcome {
    ghost output = { λ outcome. Some (answer_text (answer_of outcome)) };

    fn fmt<W: fmt::Write>(&self, f: &mut fmt::Formatter<W>) -> fmt::Result {
        match self {
            Outcome::Seen(placing) => {
                let heads = Spaced(placing.heads());
                write!(f, "seen{heads}")
            }
            Outcome::Short(set) => {
                let number = set.number();
                write!(f, "short {number}")
            }
        }
    }
}
