// The customer's worked lines: two tables to be proved, of sheets and kinds and of a station; the others compared by the tests.
#![tactic(auto)]

ghost use Rattle.bench.specs.Bench.{WorkedLines};
ghost use Rattle.bench.specs.StationLines.{StationLines};

#[cfg(test)]
mod station_tests;
#[cfg(test)]
mod tests;

// The worked lines hold of the definitions that the contracts use.
pub fn worked_lines() -> bool
    ensures sheets { WorkedLines }
    ensures stations { StationLines }
{
    true
}
