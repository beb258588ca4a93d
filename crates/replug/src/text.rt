// All plug orders of a sheet's line over a recorded run, as text.
ghost use Rattle.std.specs.Prelude.{length};
ghost use Rattle.kinds.specs.Known.{picked};
ghost use Rattle.sheetfile.specs.Reading.{rule};
ghost use Rattle.replug.specs.Refusing.{Refuses, RefusesFile};

use crate::showing::show_orders;
use crate::trouble::Trouble;
use kinds::band::{Band, BandSet};
use kinds::climate::{Climate, ClimateReading, ClimateTest};
use kinds::kind::Kind;
use kinds::known::KnownKind;
use kinds::span::{MoistureSpan, Span};
use sheet::plan::Plan;
use sheet::read_sheet;
use sheetfile::limits::{MOST_FRAMES, MOST_HEADS, MOST_TESTS};
use std::alloc::Global;
use std::fmt::Write;

// readings that the longest tail keeps
const MOST_KEPT: usize = MOST_FRAMES * MOST_HEADS;

// The text of a sheet of this kind. Memory for tests, two tails and two frames is lent: until a line of text is written,
// none is asked for.
fn kind_text<K: Kind>(
    heap: Global,
    kind: K,
    sheet: &[u8],
    run: &[u8],
    tests: &mut [K::Test],
    home: &mut [K::Reading],
    away: &mut [K::Reading],
    frame: &mut [K::Reading],
    plugged: &mut [K::Reading],
) -> Result<String, Trouble>
    ensures { Refuses (rule K.facts.code K.facts.tests (length tests.old) sheet.now).end result }
{
    let mut plan = Plan::empty();
    read_sheet(kind, sheet, &mut plan, tests)?;
    let heads = plan.heads().min(frame.len()).min(plugged.len());
    let mut text = String::new(heap);
    let tally = show_orders(
        kind,
        &plan,
        tests,
        run,
        home,
        away,
        &mut frame[..heads],
        &mut plugged[..heads],
        &mut text,
    )?;
    writeln!(text, "{tally}")?;
    Ok(text)
}

// The same with memory for readings and tests of these types in fixed places.
macro_rules! in_fixed_memory {
    ($heap:expr, $kind:expr, $sheet:expr, $run:expr, $test:ty, $reading:ty) => {
        kind_text(
            $heap,
            $kind,
            $sheet,
            $run,
            &mut [<$test>::default(); MOST_TESTS],
            &mut [<$reading>::default(); MOST_KEPT],
            &mut [<$reading>::default(); MOST_KEPT],
            &mut [<$reading>::default(); MOST_HEADS],
            &mut [<$reading>::default(); MOST_HEADS],
        )
    };
}

// A line for each plug order of the sheet's heads, and what the line plugged so sees over the run; last, whether every
// verdict agrees with that of the line as it is.
pub fn replug_text(heap: Global, sheet: &[u8], run: &[u8]) -> Result<String, Trouble>
    ensures { RefusesFile (picked sheet.now) sheet.now result }
{
    match KnownKind::of_sheet(sheet) {
        KnownKind::Band => in_fixed_memory!(heap, Band, sheet, run, BandSet, u8),
        KnownKind::Span => in_fixed_memory!(heap, Span, sheet, run, MoistureSpan, u16),
        KnownKind::Climate => {
            in_fixed_memory!(heap, Climate, sheet, run, ClimateTest, ClimateReading)
        }
    }
}
