// A plan: what reading leaves of a sheet besides its tests.
ghost use Rattle.sheet.specs.Plans.{Kept};

use crate::entry::Entry;
use sheetfile::limits::MOST_SIGNATURES;

mod calls;

// The empty plan, or the figures of a sheet within all limits: code of the kind, number of heads,
// and for each signature its entry. The entries past `count` are blank.
// It is in fixed memory and copied: an array with a count, since the kit's vectors are not `Copy`.
#[derive(Clone, Copy)]
pub struct Plan {
    code: u8,
    heads: u8,
    count: usize,
    entries: [Entry; MOST_SIGNATURES],
    ghost kept: { Kept code heads count entries },
}
