// Reading one signature.
ghost use Rattle.std.specs.Prelude.{◌≡◌, ◌+◌, ◌*◌, length, drop};
ghost use Rattle.sheetfile.specs.Outcomes.{into};
ghost use Rattle.sheetfile.specs.Reading.{signature_read};
ghost use Rattle.sheet.specs.Entries.{entry};
ghost use Rattle.sheet.specs.Stored.{Left};

use crate::entry::Entry;
use crate::part::Part;
use crate::track::read_tracks;
use kinds::kind::Kind;
use sheetfile::fault::{Cause, Fault};
use sheetfile::field::FIELD_START;
use sheetfile::limits::{LEAST_FRAMES, MOST_FRAMES};

// Where the next signature begins: its least name, and its first test in the store.
#[derive(Clone, Copy)]
pub(crate) struct Next {
    pub(crate) least: usize,
    pub(crate) first: usize,
}

// Reads the signature of this field; its tests go to the front of `free`, which is left of the store.
pub(crate) fn read_signature<K: Kind>(
    kind: K,
    field: Part<'_>,
    heads: usize,
    next: Next,
    free: &mut [K::Test],
) -> Result<Entry, Fault>
    ensures { Left (into (entry next.first) (signature_read K.facts.tests (next.first + length free.old) heads next.least next.first field.entry.at (drop 3 field.entry.bytes.now))) 0 free.old result free.new }
{
    let [_, _, _, high, low, tracks, frames, ..] = field.bytes else {
        return Err(Cause::Length.at(field.at));
    };
    let name = u16::from_be_bytes([*high, *low]);
    if (name as usize) < next.least {
        return Err(Cause::Name.at(field.at + 3));
    }
    let n = *tracks as usize;
    if !(1..=heads).contains(&n) {
        return Err(Cause::Tracks.at(field.at + 5));
    }
    let m = *frames as usize;
    if !(LEAST_FRAMES..=MOST_FRAMES).contains(&m) {
        return Err(Cause::Frames.at(field.at + 6));
    }
    let size = FIELD_START + m * K::W;
    if field.bytes.len() != FIELD_START + 4 + n * size {
        return Err(Cause::Length.at(field.at));
    }
    if free.len() < n * m {
        return Err(Cause::Store.at(field.at));
    }
    let rest = field.behind(FIELD_START + 4);
    read_tracks(kind, rest, n, m, &mut free[..n * m])?;
    Ok(Entry {
        name,
        tracks: *tracks,
        frames: *frames,
        first: next.first,
    })
}
