// Making a plan, and asking it.
ghost use Rattle.std.specs.Prelude.{◌≡◌, take, ◌==◌};
ghost use Rattle.sheet.specs.Plans.{Kept};
ghost use Rattle.sheet.specs.Filled.{SaysNothing};

use crate::entry::Entry;
use crate::plan::Plan;
use sheetfile::limits::MOST_SIGNATURES;

impl Plan {
    // The plan of no sheet.
    pub fn empty() -> Plan
        ensures { SaysNothing result }
    {
        Plan {
            code: 0,
            heads: 0,
            count: 0,
            entries: [Entry::default(); MOST_SIGNATURES],
        }
    }

    // The plan with these figures, which keep all limits.
    pub(crate) fn with(code: u8, heads: u8, count: usize, entries: [Entry; MOST_SIGNATURES]) -> Plan
        requires { Kept code heads count entries }
        ensures code { result.code ≡ code }
        ensures heads { result.heads ≡ heads }
        ensures count { result.count ≡ count }
        ensures entries { result.entries ≡ entries }
    {
        Plan {
            code,
            heads,
            count,
            entries,
        }
    }

    // Whether it is the empty plan.
    pub fn is_empty(&self) -> bool
        ensures { result ≡ (self.now.count == 0) }
    {
        self.count == 0
    }

    // The code of the sheet's kind; 0 for the empty plan.
    pub fn code(&self) -> u8
        ensures { result ≡ self.now.code }
    {
        self.code
    }

    // The number of heads; 0 for the empty plan.
    pub fn heads(&self) -> usize
        ensures { result ≡ self.now.heads }
    {
        self.heads as usize
    }

    // The signatures, in the order of the sheet.
    pub fn entries(&self) -> &[Entry]
        ensures { result.now ≡ take self.now.count self.now.entries }
    {
        &self.entries[..self.count]
    }
}
