ghost use Rattle.std.specs.Prelude.{ℕ};
ghost use Rattle.matching.specs.Sets.{Numbered};
ghost use Rattle.matching.specs.Fitting.{Fitting};
ghost use Rattle.matching.specs.Theorems.{Hall, AnswerRight, AnswerOnly, AnswerUnmoved, AnswerLocal, Most};

/// The theorems for every relation of fits and every number of tracks and heads: each is proved, or the crate fails.
pub fn theorems_hold()
    ensures hall { (fits : Fitting) (M N : ℕ) → Hall fits M N }
    ensures right { AnswerRight }
    ensures only { AnswerOnly }
    ensures unmoved { AnswerUnmoved }
    ensures local { AnswerLocal }
    ensures most { (fits : Fitting) (M N : ℕ) → Most fits M N }
    ensures numbered { Numbered }
{}
