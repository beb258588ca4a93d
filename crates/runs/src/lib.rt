// Runs of frames: the verdict on them, and what lists of calls leave of them.
#![tactic(auto)]

ghost use Rattle.runs.specs.Theorems.{RunLaws};

use kinds::kind::Kind;

// The laws of verdicts and runs, for the tests and readings of every kind: the verdict is right in words and nothing
// else is; the latest frames are enough; another plug order changes neither the word nor the set; and after the same
// calls, settled verdicts agree. Without their proof the crate fails.
pub fn run_laws<K: Kind>(_kind: K)
    ensures { RunLaws K.Test K.Reading }
{}
