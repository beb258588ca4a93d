// The worked lines of a station.
use crate::tests::GOOD;
use kinds::band::{Band, BandSet};
use kinds::span::{MoistureSpan, Span};
use sheet::plan::Plan;
use sheet::read_sheet;
use station::making::check_making;
use station::refusal::Refusal;
use station::station::Station;
use station::verdict::Verdict;
use std::process::Abort;
use std::test::Fail;

// What a look says in one word, with the heads or the set.
fn said(
    rt: &impl Abort,
    answer: Result<Verdict, Refusal>,
    word: &str,
    number: u8,
) -> Result<(), Fail> {
    let Ok(verdict) = answer else {
        return Err(Fail::new("refused"));
    };
    match verdict {
        Verdict::Young => {
            assert_eq!(rt; "young", word);
            Ok(())
        },
        Verdict::Seen(placing) => {
            assert_eq!(rt; "seen", word);
            assert_eq!(rt; placing.head(0), Some(number));
            Ok(())
        }
        Verdict::Short(set) => {
            assert_eq!(rt; "short", word);
            assert_eq!(rt; set.number(), number);
            Ok(())
        }
    }
}

// The demo run: seen after frames 2 and 4, across a gap; after frame 5 short, set 1. Looks and rechecks say the same.
#[test]
fn demo_run(rt: HostRuntime) -> Result<(), Fail> {
    let mut tests = [BandSet { bits: 0 }; 4];
    let mut plan = Plan::empty();
    assert!(rt; read_sheet(Band, &GOOD, &mut plan, &mut tests).is_ok());
    let mut memory = [0u8; 128];
    let mut line = Station::new(Band, &plan, &tests, &mut memory);
    said(&rt, line.recheck(0), "young", 0)?;
    said(&rt, line.look(0), "young", 0)?;
    assert!(rt; line.feed(&[0, 1]).is_ok());
    said(&rt, line.recheck(0), "young", 0)?;
    said(&rt, line.look(0), "young", 0)?;
    assert!(rt; line.feed(&[1, 2]).is_ok());
    said(&rt, line.recheck(0), "seen", 1)?;
    said(&rt, line.look(0), "seen", 1)?;
    line.gap();
    said(&rt, line.recheck(0), "young", 0)?;
    said(&rt, line.look(0), "young", 0)?;
    assert!(rt; line.feed(&[1, 0]).is_ok());
    assert!(rt; line.feed(&[2, 0]).is_ok());
    said(&rt, line.recheck(0), "seen", 0)?;
    said(&rt, line.look(0), "seen", 0)?;
    assert!(rt; line.feed(&[2, 1]).is_ok());
    said(&rt, line.recheck(0), "short", 1)?;
    said(&rt, line.look(0), "short", 1)
}

// Two heads: a frame of one reading is 30; (16, 16) is 31 at head 0; a look past the last signature is 32, a head past
// the last is 34 for every q.
#[test]
fn refusals(rt: HostRuntime) {
    let mut tests = [BandSet { bits: 0 }; 4];
    let mut plan = Plan::empty();
    assert!(rt; read_sheet(Band, &GOOD, &mut plan, &mut tests).is_ok());
    let mut memory = [0u8; 128];
    let mut line = Station::new(Band, &plan, &tests, &mut memory);
    assert_eq!(rt; line.feed(&[0]), Err(Refusal::Frame));
    assert_eq!(rt; line.feed(&[16, 16]), Err(Refusal::Reading(0)));
    assert_eq!(rt; line.feed(&[3, 16]), Err(Refusal::Reading(1)));
    assert!(rt; line.look(1).is_err());
    assert!(rt; line.recheck(1).is_err());
    assert_eq!(rt; line.look_back(0, 2), Err(Refusal::Head));
    assert_eq!(rt; line.look_back(999, 2), Err(Refusal::Head));
    assert_eq!(rt; line.look_back(0, 1), Ok(None));
    assert_eq!(rt; Refusal::Frame.number(), 30);
    assert_eq!(rt; Refusal::Reading(0).number(), 31);
    assert_eq!(rt; Refusal::Signature.number(), 32);
    assert_eq!(rt; Refusal::Head.number(), 34);
}

// A span sheet of one head with one signature of one frame, 600 to 750.
const ONE: [u8; 19] = [
    0x01, 0x00, 0x02, 0x02, 0x01, 0x02, 0x00, 0x0B, 0x00, 0x01, 0x01, 0x01, 0x03, 0x00, 0x04, 0x02,
    0x58, 0x02, 0xEE,
];

// One head, one track, one frame: young, then seen after one frame that passes.
#[test]
fn one_of_each(rt: HostRuntime) -> Result<(), Fail> {
    let mut tests = [MoistureSpan { low: 0, high: 0 }; 1];
    let mut plan = Plan::empty();
    assert!(rt; read_sheet(Span, &ONE, &mut plan, &mut tests).is_ok());
    let mut memory = [0u16; 64];
    let mut line = Station::new(Span, &plan, &tests, &mut memory);
    said(&rt, line.recheck(0), "young", 0)?;
    said(&rt, line.look(0), "young", 0)?;
    assert!(rt; line.feed(&[600]).is_ok());
    said(&rt, line.recheck(0), "seen", 0)?;
    said(&rt, line.look(0), "seen", 0)?;
    assert!(rt; line.feed(&[599]).is_ok());
    said(&rt, line.recheck(0), "short", 1)?;
    said(&rt, line.look(0), "short", 1)
}

// Frames 1 to 70, each with its own number as its reading.
fn feed_seventy(rt: &impl Abort, line: &mut Station<'_, '_, '_, Span>) {
    for n in 0..70u16 {
        assert!(rt; line.feed(&[n + 1]).is_ok());
    }
}

// After 70 frames look-back 63 gives frame 7, and look-back 64 is absent.
#[test]
fn seventy_frames(rt: HostRuntime) {
    let mut tests = [MoistureSpan { low: 0, high: 0 }; 1];
    let mut plan = Plan::empty();
    assert!(rt; read_sheet(Span, &ONE, &mut plan, &mut tests).is_ok());
    let mut memory = [9u16; 70];
    let mut line = Station::new(Span, &plan, &tests, &mut memory);
    feed_seventy(&rt, &mut line);
    assert_eq!(rt; line.look_back(0, 0), Ok(Some(70)));
    assert_eq!(rt; line.look_back(63, 0), Ok(Some(7)));
    assert_eq!(rt; line.look_back(64, 0), Ok(None));
    line.gap();
    assert_eq!(rt; line.look_back(0, 0), Ok(None));
}

// What making refuses, in order: 35 the empty plan, 13 another kind's, 36 a store too short, 33 memory too small.
#[test]
fn making(rt: HostRuntime) {
    let mut tests = [MoistureSpan { low: 0, high: 0 }; 1];
    let memory = [0u16; 64];
    let mut plan = Plan::empty();
    assert_eq!(rt;
        check_making(Span, &plan, &tests, &memory),
        Err(Refusal::Plan)
    );
    assert!(rt; read_sheet(Span, &ONE, &mut plan, &mut tests).is_ok());
    assert_eq!(rt; check_making(Span, &plan, &tests, &memory), Ok(()));
    assert_eq!(rt; check_making(Band, &plan, &[], &[]), Err(Refusal::Kind));
    assert_eq!(rt;
        check_making(Span, &plan, &tests[0..0], &memory),
        Err(Refusal::Tests)
    );
    assert_eq!(rt;
        check_making(Span, &plan, &tests, &memory[0..63]),
        Err(Refusal::Tail)
    );
}
