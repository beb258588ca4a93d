// A station over a sheet: what it holds.
use crate::tail::Tail;
use bank::Bank;
use kinds::kind::Kind;
use sheet::entry::Entry;

mod calls;
mod due;
mod work;

// The plan's entries and the tests are lent; so is the memory of the tail, which keeps the latest 64 frames.
// For each signature, track and head the bank has the begun matches of the run.
#[derive(Drop)]
pub struct Station<'p, 's, 't, K: Kind> {
    kind: K,
    entries: &'p [Entry],
    tests: &'s [K::Test],
    tail: Tail<'t, K::Reading>,
    bank: Bank,
}
