// Reading a sheet file.
ghost use Rattle.std.specs.Prelude.{length};
ghost use Rattle.sheetfile.specs.Reading.{rule};
ghost use Rattle.sheet.specs.Filled.{PlanLeft, SheetLeft};
ghost use Rattle.sheet.specs.Said.{Verdict};

use crate::entry::Entry;
use crate::plan::Plan;
use crate::signatures::{HEAD_SIZE, read_signatures};
use kinds::kind::Kind;
use sheetfile::fault::{Cause, Fault};
use sheetfile::field::{Tag, body_of};
use sheetfile::limits::{MOST_HEADS, MOST_SIGNATURES};

// The plan of the sheet in `bytes`; its tests go into the store.
#[tactic(auto, unfolding(sheetfile::specs::Reading::rule))]
fn read_plan<K: Kind>(kind: K, bytes: &[u8], store: &mut [K::Test]) -> Result<Plan, Fault>
    ensures { PlanLeft (rule K.facts.code K.facts.tests (length store.old) bytes.now) store.old result store.new }
{
    let head = body_of(Tag::Head, bytes, 0)?;
    let [code, heads] = head else {
        return Err(Cause::Length.at(0));
    };
    if *code != K::CODE {
        return Err(Cause::Kind.at(3));
    }
    if !(1..=MOST_HEADS).contains(&(*heads as usize)) {
        return Err(Cause::Heads.at(4));
    }
    if bytes.len() == HEAD_SIZE {
        return Err(Cause::Bare.at(HEAD_SIZE));
    }
    let mut entries = [Entry::default(); MOST_SIGNATURES];
    let count = read_signatures(kind, bytes, *heads as usize, &mut entries, store)?;
    Ok(Plan::with(*code, *heads, count, entries))
}

// Reads the sheet file `bytes` into `plan` and `store`.
// After a fault the plan is the empty one, and the tests before the fault stand in the store.
pub fn read_sheet<K: Kind>(
    kind: K,
    bytes: &[u8],
    plan: &mut Plan,
    store: &mut [K::Test],
) -> Result<(), Fault>
    ensures whole { Verdict K.facts.code K.facts.tests bytes.now store.old result plan.new store.new }
    ensures fixed { SheetLeft (rule K.facts.code K.facts.tests (length store.old) bytes.now) store.old result plan.new store.new }
{
    *plan = Plan::empty();
    *plan = read_plan(kind, bytes, store)?;
    Ok(())
}
