// Reading the tracks of a signature: each its tests, one after another.
ghost use Rattle.std.specs.Prelude.{◌≡◌, ◌*◌, ◌≤◌, length};
ghost use Rattle.sheetfile.specs.Outcomes.{bare};
ghost use Rattle.sheetfile.specs.Reading.{tests_read, track_read, track_size, tracks_read};
ghost use Rattle.sheet.specs.Stored.{Left};

use crate::part::Part;
use kinds::kind::Kind;
use sheetfile::fault::{Cause, Fault};
use sheetfile::field::{FIELD_START, track_body};

// Reads a test for each place of `out` from the front of `tests`.
// Chunks zipped with `iter_mut` would leave a proof no more of `out` than its length.
fn read_tests<K: Kind>(kind: K, mut tests: Part<'_>, out: &mut [K::Test]) -> Result<(), Fault>
    requires long { length out.old * K.facts.tests.width ≤ length tests.bytes.now }
    ensures { Left (bare (tests_read K.facts.tests (length out.old) tests.entry.at tests.entry.bytes.now)) 0 out.old result out.new }
{
    for slot in out.iter_mut() {
        let next = tests.front(K::W);
        let Some(test) = kind.read_test(next.bytes) else {
            return Err(Cause::Test.at(next.at));
        };
        *slot = test;
    }
    Ok(())
}

// Reads a track, with a test for each place of `out`.
fn read_track<K: Kind>(kind: K, track: Part<'_>, out: &mut [K::Test]) -> Result<(), Fault>
    requires whole { length track.bytes.now ≡ track_size K.facts.tests (length out.old) }
    ensures { Left (bare (track_read K.facts.tests (length out.old) track.entry.at track.entry.bytes.now)) 0 out.old result out.new }
{
    let bytes = track_body(track.bytes, track.at, track.bytes.len() - FIELD_START)?;
    let at = track.at + FIELD_START;
    read_tests(kind, Part { bytes, at }, out)
}

// Reads `count` tracks of `frames` tests, one after another; `out` has a place for each test.
// `chunks_exact_mut` would leave a proof no more of `out` than its length.
pub(crate) fn read_tracks<K: Kind>(
    kind: K,
    mut tracks: Part<'_>,
    count: usize,
    frames: usize,
    out: &mut [K::Test],
) -> Result<(), Fault>
    requires whole { length tracks.bytes.now ≡ count * track_size K.facts.tests frames }
    requires room { length out.old ≡ count * frames }
    ensures { Left (bare (tracks_read K.facts.tests frames count tracks.entry.at tracks.entry.bytes.now)) 0 out.old result out.new }
{
    for i in 0..count {
        let track = tracks.front(FIELD_START + frames * K::W);
        read_track(kind, track, &mut out[i * frames..(i + 1) * frames])?;
    }
    Ok(())
}
