// Which signature is due for judging.
ghost use Rattle.std.specs.Prelude.{◌≡◌, MatchOption};
ghost use Rattle.std.specs.Option.{option_copied};
ghost use Rattle.matching.specs.Promises.{answer_for};
ghost use Rattle.runs.specs.Verdicts.{young, judged};
ghost use Rattle.station.specs.Answers.{in_figures, verdict_of};
ghost use Rattle.station.specs.Due.{Due};

use super::Station;
use crate::refusal::Refusal;
use crate::verdict::Verdict;
use kinds::kind::Kind;
use matching::Fits;
use sheet::entry::Entry;

impl<'p, K: Kind> Station<'p, '_, '_, K> {
    // The entry in a position, or none where the run is younger than its signature.
    pub(super) fn due(&self, position: usize) -> Result<Option<&'p Entry>, Refusal>
        ensures { Due self.now.entries.now self.now.tail.run position (in_figures option_copied result) }
    {
        let entry = self.entries.get(position).ok_or(Refusal::Signature)?;
        if self.tail.run() < entry.frames as usize {
            Ok(None)
        } else {
            Ok(Some(entry))
        }
    }
}

// The verdict of a table of fits. What no station has, no table, is told as young.
pub(super) fn verdict(fits: Option<Fits>) -> Verdict
    ensures { MatchOption fits (verdict_of result ≡ young) (λ f. verdict_of result ≡ judged (answer_for f)) }
{
    match fits {
        Some(fits) => Verdict::from(fits.outcome()),
        None => Verdict::Young,
    }
}
