// What a look tells.
ghost use Rattle.std.specs.Prelude.{◌≡◌, Some};
ghost use Rattle.matching.specs.Meaning.{answer_of};
ghost use Rattle.runs.specs.Verdicts.{judged};
ghost use Rattle.station.specs.Answers.{verdict_of};
ghost use Rattle.station.specs.Texts.{verdict_text};

use matching::{Outcome, Placing, TrackSet};
use std::fmt;

// Three words of the subject, and no outcome in an `Option`.
#[derive(Clone, Copy, PartialEq, Eq, Debug)]
pub enum Verdict {
    // the run has fewer frames than the signature
    Young,
    // the tracks sit on different heads, first on these
    Seen(Placing),
    // these tracks together fit fewer heads than they number
    Short(TrackSet),
}

// The verdict on tracks that have enough frames.
impl From<Outcome> for Verdict {
    ghost from_gives = { λ outcome verdict. verdict_of verdict ≡ judged (answer_of outcome) };

    fn from(outcome: Outcome) -> Verdict {
        match outcome {
            Outcome::Seen(placing) => Verdict::Seen(placing),
            Outcome::Short(set) => Verdict::Short(set),
        }
    }
}

// As `young`, `seen 1 0` or `short 6`.
impl fmt::Display for Verdict {
    ghost output = { λ verdict. Some (verdict_text (verdict_of verdict)) };

    fn fmt<W: fmt::Write>(&self, f: &mut fmt::Formatter<W>) -> fmt::Result {
        match *self {
            Verdict::Young => write!(f, "young"),
            Verdict::Seen(placing) => {
                let outcome = Outcome::Seen(placing);
                write!(f, "{outcome}")
            }
            Verdict::Short(set) => {
                let outcome = Outcome::Short(set);
                write!(f, "{outcome}")
            }
        }
    }
}
