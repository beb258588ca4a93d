// Making a station: what is checked first.
ghost use Rattle.std.specs.Prelude.{◌≡◌, ◌*◌, ◌≤◌, length};
ghost use Rattle.station.specs.Answers.{in_figures};
ghost use Rattle.station.specs.Making.{making, tests_in_entries};

use crate::refusal::Refusal;
use kinds::kind::Kind;
use sheet::entry::Entry;
use sheet::plan::Plan;
use sheetfile::limits::MOST_FRAMES;

// How many tests the entries have. With `Entry::tests` in the closure the bound of the sum is not proved.
fn tests_in(entries: &[Entry]) -> usize
    requires { length entries.now ≤ 12 }
    ensures { result ≡ tests_in_entries entries.now }
{
    entries
        .iter()
        .map(|entry| entry.tracks as usize * entry.frames as usize)
        .sum()
}

// Whether a station can be made of these: the empty plan, another kind's plan, a store shorter than the plan's tests
// and tail memory for under 64 frames are refused, in this order. Nothing is written. The four stay apart, as in
// `Station::new`: they are lent for times of their own.
pub fn check_making<K: Kind>(
    kind: K,
    plan: &Plan,
    tests: &[K::Test],
    memory: &[K::Reading],
) -> Result<(), Refusal>
    ensures { in_figures (λ u. u) result ≡ making K.facts.code plan.now (length tests.now) (length memory.now) }
{
    if plan.is_empty() {
        return Err(Refusal::Plan);
    }
    if plan.code() != K::CODE {
        return Err(Refusal::Kind);
    }
    if tests.len() < tests_in(plan.entries()) {
        return Err(Refusal::Tests);
    }
    if memory.len() < MOST_FRAMES * plan.heads() {
        return Err(Refusal::Tail);
    }
    Ok(())
}
