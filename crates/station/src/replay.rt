// Replaying a list of calls.
ghost use Rattle.std.specs.Prelude.{◌≡◌, map, length};
ghost use Rattle.sheet.specs.Said.{said};
ghost use Rattle.station.specs.Answers.{in_figures, verdict_of};
ghost use Rattle.station.specs.Making.{making};
ghost use Rattle.station.specs.Working.{called, replayed};

use crate::call::Call;
use crate::making::check_making;
use crate::refusal::Refusal;
use crate::station::Station;
use crate::verdict::Verdict;
use kinds::kind::Kind;
use sheet::plan::Plan;

// The verdict on the signature in a position after any list of calls of a new station: that on the run which the list
// leaves, however the calls and their refusals went. What a station is made from is lent for times of its own, as in
// `Station::new`, and a struct of it would only be taken apart again.
pub fn replay<K: Kind>(
    kind: K,
    plan: &Plan,
    tests: &[K::Test],
    memory: &mut [K::Reading],
    calls: &[Call<'_, K::Reading>],
    position: usize,
) -> Result<Verdict, Refusal>
    ensures { in_figures verdict_of result ≡ replayed K.facts.readings.proper K.facts.passes (making K.facts.code plan.now (length tests.now) (length memory.old)) (said plan.now tests.now) (map called calls.now) position }
{
    check_making(kind, plan, tests, memory)?;
    let mut station = Station::new(kind, plan, tests, memory);
    station.work(calls);
    station.look(position)
}
