// The text of a sheet file.
ghost use Rattle.std.specs.Prelude.{IfOk, length, string_bytes};
ghost use Rattle.kinds.specs.Known.{picked};
ghost use Rattle.sheetfile.specs.Reading.{rule};
ghost use Rattle.describe.specs.Texts.{RefusedText, Tells, TellsFile};

use kinds::band::{Band, BandSet};
use kinds::climate::{Climate, ClimateTest};
use kinds::kind::Kind;
use kinds::known::KnownKind;
use kinds::span::{MoistureSpan, Span};
use sheet::entry::Entry;
use sheet::plan::Plan;
use sheet::read_sheet;
use sheetfile::fault::Fault;
use sheetfile::limits::MOST_TESTS;
use std::alloc::{AllocError, Global};
use std::fmt;
use std::fmt::{Display, Write};

// A line for each test of a track: frames from 1, the oldest first.
fn put_track<T: Display>(out: &mut String, track: usize, tests: &[T]) -> fmt::Result {
    for (i, test) in tests.iter().enumerate() {
        let frame = i.saturating_add(1);
        writeln!(out, "  track {track}, frame {frame}: {test}")?;
    }
    Ok(())
}

// The signature's figures, and the lines of its tracks, from 0.
fn put_signature<T: Display>(out: &mut String, entry: &Entry, store: &[T]) -> fmt::Result {
    let Entry {
        name,
        tracks,
        frames,
        ..
    } = *entry;
    writeln!(out, "signature {name}: tracks {tracks}, frames {frames}")?;
    for track in 0..tracks as usize {
        if let Some(tests) = entry.track_tests(track, store) {
            put_track(out, track, tests)?;
        }
    }
    Ok(())
}

// What a sheet that was read says.
fn sheet_words<T: Display>(
    heap: Global,
    known: KnownKind,
    plan: &Plan,
    store: &[T],
) -> Result<String, fmt::Error> {
    let mut out = String::new(heap);
    let heads = plan.heads();
    writeln!(out, "kind {known}")?;
    writeln!(out, "heads {heads}")?;
    for entry in plan.entries() {
        put_signature(&mut out, entry, store)?;
    }
    Ok(out)
}

// What is wrong: a line of figures, and a line of words.
fn fault_words(heap: Global, fault: &Fault) -> Result<String, AllocError>
    ensures { IfOk result (λ t. RefusedText fault.now (string_bytes t)) }
{
    let cause = fault.cause;
    let place = fault.place;
    format!(in heap; "{fault}\n{cause} at byte {place}\n")
}

// What the file says when it is read as this kind's, or what is wrong with it. The store is lent: reading asks for no memory.
fn file_words<K: Kind>(
    heap: Global,
    kind: K,
    known: KnownKind,
    bytes: &[u8],
    store: &mut [K::Test],
) -> Result<String, fmt::Error>
where
    K::Test: Display,
    ensures { IfOk result (λ t. Tells (rule K.facts.code K.facts.tests (length store.old) bytes.now).end (string_bytes t)) }
{
    let mut plan = Plan::empty();
    match read_sheet(kind, bytes, &mut plan, store) {
        Ok(()) => sheet_words(heap, known, &plan, store),
        Err(fault) => Ok(fault_words(heap, &fault)?),
    }
}

// The text of the sheet file `bytes`, for people: what it says, or the fault and what it means.
pub fn sheet_text(heap: Global, bytes: &[u8]) -> Result<String, fmt::Error>
    ensures { IfOk result (λ t. TellsFile (picked bytes.now) bytes.now (string_bytes t)) }
{
    let known = KnownKind::of_sheet(bytes);
    match known {
        KnownKind::Band => {
            file_words(
                heap,
                Band,
                known,
                bytes,
                &mut [BandSet::default(); MOST_TESTS],
            )
        }
        KnownKind::Span => {
            file_words(
                heap,
                Span,
                known,
                bytes,
                &mut [MoistureSpan::default(); MOST_TESTS],
            )
        }
        KnownKind::Climate => {
            file_words(
                heap,
                Climate,
                known,
                bytes,
                &mut [ClimateTest::default(); MOST_TESTS],
            )
        }
    }
}
