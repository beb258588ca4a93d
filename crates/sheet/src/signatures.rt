// Reading the signatures of a sheet, one after another.
ghost use Rattle.std.specs.Prelude.{◌≤◌, length, drop};
ghost use Rattle.sheetfile.specs.Outcomes.{into};
ghost use Rattle.sheetfile.specs.Reading.{signatures_read};
ghost use Rattle.sheet.specs.Entries.{entries_of, EntriesLeft};

use crate::entry::Entry;
use crate::part::Part;
use crate::signature::{Next, read_signature};
use kinds::kind::Kind;
use sheetfile::fault::{Cause, Fault};
use sheetfile::field::{FIELD_START, Tag, body_of};

// bytes of the head field: code and number of heads
pub(crate) const HEAD_SIZE: usize = FIELD_START + 2;

// Reads all signatures of the file `bytes`, behind its head: as many as there are entries, at most.
// Says how many entries it filled.
// An iterator over fields would have to hand on the place and the fault beside each body, and is no shorter; the count
// of entries is what is answered.
pub(crate) fn read_signatures<K: Kind>(
    kind: K,
    bytes: &[u8],
    heads: usize,
    entries: &mut [Entry],
    store: &mut [K::Test],
) -> Result<usize, Fault>
    requires headed { HEAD_SIZE ≤ length bytes.now }
    ensures { EntriesLeft (into (entries_of 0) (signatures_read K.facts.tests (length store.old) heads (length entries.old) 0 0 HEAD_SIZE (drop HEAD_SIZE bytes.now))) store.old entries.old result store.new entries.new }
{
    let mut rest = Part { bytes, at: 0 }.behind(HEAD_SIZE);
    let mut next = Next { least: 0, first: 0 };
    let mut count = 0;
    while !rest.bytes.is_empty() {
        let body = body_of(Tag::Signature, rest.bytes, rest.at)?;
        if count == entries.len() {
            return Err(Cause::Thirteenth.at(rest.at));
        }
        let field = rest.front(FIELD_START + body.len());
        let entry = read_signature(kind, field, heads, next, &mut store[next.first..])?;
        next = Next {
            least: entry.name as usize + 1,
            first: entry.first + entry.tests(),
        };
        entries[count] = entry;
        count += 1;
    }
    Ok(count)
}
