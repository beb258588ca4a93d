// The answers to the lines of a case.
use crate::hex::Hex;
use crate::readings::{Raw, frame};
use crate::script::{Case, Step};
use anyhow::Context;
use kinds::band::{Band, BandSet};
use kinds::climate::{Climate, ClimateReading, ClimateTest};
use kinds::kind::Kind;
use kinds::known::KnownKind;
use kinds::span::{MoistureSpan, Span};
use sheet::plan::Plan;
use sheet::read_sheet;
use sheetfile::fault::Fault;
use sheetfile::limits::{MOST_FRAMES, MOST_HEADS, MOST_TESTS};
use station::refusal::Refusal;
use station::station::Station;
use station::verdict::Verdict;
use std::alloc::Global;
use std::fmt;
use std::fmt::Write;

// readings in the tail of a line of as many heads as there may be
const MOST_MEMORY: usize = MOST_FRAMES * MOST_HEADS;

// bytes of a reading, at most
const MOST_WIDTH: usize = 4;

// The answer to a line; a reading by its bytes.
#[derive(Clone, Copy)]
enum Answer<'a> {
    Made,
    Fault(Fault),
    Done,
    Refused(Refusal),
    Verdict(Verdict),
    Reading(&'a [u8]),
    Absent,
}

impl From<Result<(), Fault>> for Answer<'_> {
    fn from(made: Result<(), Fault>) -> Self {
        match made {
            Ok(()) => Answer::Made,
            Err(fault) => Answer::Fault(fault),
        }
    }
}

impl From<Result<(), Refusal>> for Answer<'_> {
    fn from(fed: Result<(), Refusal>) -> Self {
        match fed {
            Ok(()) => Answer::Done,
            Err(refusal) => Answer::Refused(refusal),
        }
    }
}

impl From<Result<Verdict, Refusal>> for Answer<'_> {
    fn from(look: Result<Verdict, Refusal>) -> Self {
        match look {
            Ok(verdict) => Answer::Verdict(verdict),
            Err(refusal) => Answer::Refused(refusal),
        }
    }
}

impl fmt::Display for Answer<'_> {
    fn fmt<W: fmt::Write>(&self, f: &mut fmt::Formatter<W>) -> fmt::Result {
        match self {
            Answer::Made => write!(f, "made"),
            Answer::Fault(fault) => write!(f, "{fault}"),
            Answer::Done => write!(f, "ok"),
            Answer::Refused(refusal) => write!(f, "refused {refusal}"),
            Answer::Verdict(verdict) => write!(f, "{verdict}"),
            Answer::Reading(bytes) => {
                let hex = Hex(bytes);
                write!(f, "{hex}")
            }
            Answer::Absent => write!(f, "absent"),
        }
    }
}

// The answer to a look-back; the bytes of a reading are written into the buffer.
fn back_answer<'a, K: Kind>(
    kind: K,
    back: Result<Option<K::Reading>, Refusal>,
    buffer: &'a mut [u8],
) -> anyhow::Result<Answer<'a>> {
    match back {
        Ok(Some(reading)) => {
            kind.write_reading(&reading, buffer)?;
            let bytes = buffer.get(..K::R).context("a reading has more bytes")?;
            Ok(Answer::Reading(bytes))
        }
        Ok(None) => Ok(Answer::Absent),
        Err(refusal) => Ok(Answer::Refused(refusal)),
    }
}

// Makes one call; what the station answers. A step is a value, since a line of the script says which it is.
fn step_answer<'a, K: Kind>(
    heap: Global,
    kind: K,
    station: &mut Station<'_, '_, '_, K>,
    step: &Step,
    buffer: &'a mut [u8],
) -> anyhow::Result<Answer<'a>>
where
    K::Reading: Raw,
{
    match step {
        Step::Feed(bytes) => {
            let frame = frame(heap, K::R, bytes.as_slice())?;
            Ok(Answer::from(station.feed(frame.as_slice())))
        }
        Step::Gap => {
            station.gap();
            Ok(Answer::Done)
        }
        Step::Look(position) => Ok(Answer::from(station.look(*position))),
        Step::Recheck(position) => Ok(Answer::from(station.recheck(*position))),
        Step::Back { q, head } => back_answer(kind, station.look_back(*q, *head), buffer),
    }
}

// The answers to a case of this kind. Memory for its tests and for a tail is lent.
fn case_answers<K: Kind>(
    heap: Global,
    kind: K,
    case: &Case,
    store: &mut [K::Test],
    memory: &mut [K::Reading],
) -> anyhow::Result<String>
where
    K::Reading: Raw,
{
    let mut out = String::new(heap);
    let mut plan = Plan::empty();
    let made = read_sheet(kind, case.sheet.as_slice(), &mut plan, store);
    let answer = Answer::from(made);
    writeln!(out, "{answer}")?;
    let mut station = Station::new(kind, &plan, store, memory);
    for step in case.steps.iter() {
        let mut buffer = [0; MOST_WIDTH];
        let answer = step_answer(heap, kind, &mut station, step, &mut buffer)?;
        writeln!(out, "{answer}")?;
    }
    Ok(out)
}

// The same with memory for readings and tests of these types in fixed places.
macro_rules! in_fixed_memory {
    ($heap:expr, $kind:expr, $case:expr, $test:ty, $reading:ty) => {
        case_answers(
            $heap,
            $kind,
            $case,
            &mut [<$test>::default(); MOST_TESTS],
            &mut [<$reading>::default(); MOST_MEMORY],
        )
    };
}

// The answers to a case, a line for each of its lines.
pub(crate) fn to_case(heap: Global, case: &Case) -> anyhow::Result<String> {
    match KnownKind::of_sheet(case.sheet.as_slice()) {
        KnownKind::Band => in_fixed_memory!(heap, Band, case, BandSet, u8),
        KnownKind::Span => in_fixed_memory!(heap, Span, case, MoistureSpan, u16),
        KnownKind::Climate => in_fixed_memory!(heap, Climate, case, ClimateTest, ClimateReading),
    }
}
