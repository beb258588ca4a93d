// The worked lines that are compared, each fault of a sheet, and the longest sheet.
use describe::sheet_text;
use kinds::band::{Band, BandSet};
use kinds::climate::{Climate, ClimateReading, ClimateTest, TemperatureSpan};
use kinds::kind::Kind;
use kinds::span::{MoistureSpan, Span};
use sheet::plan::Plan;
use sheet::read_sheet;
use std::alloc::{AllocError, Global};
use std::process::Abort;
use std::test::Fail;

// One signature, 301, of two tracks and two frames, on two heads.
pub(crate) const GOOD: [u8; 26] = [
    0x01, 0x00, 0x02, 0x01, 0x02, 0x02, 0x00, 0x12, 0x01, 0x2D, 0x02, 0x02, 0x03, 0x00, 0x04, 0x00,
    0x02, 0x00, 0x04, 0x03, 0x00, 0x04, 0x00, 0x01, 0x00, 0x03,
];

const MARK: BandSet = BandSet { bits: 0x7777 };

// Reads the band sheet into a store with this much room, and checks the fault.
fn refuses(
    rt: &impl Abort,
    bytes: &[u8],
    room: usize,
    number: u8,
    layer: u8,
    place: usize,
) -> Result<(), Fail> {
    let mut store = [MARK; 16];
    let mut plan = Plan::empty();
    let Err(fault) = read_sheet(Band, bytes, &mut plan, &mut store[0..room.min(16)]) else {
        return Err(Fail::new("a faulty sheet was read"));
    };
    assert_eq!(rt; fault.cause.number(), number);
    assert_eq!(rt; fault.cause.layer().number(), layer);
    assert_eq!(rt; fault.place, place);
    assert_eq!(rt; plan.heads(), 0);
    assert_eq!(rt; plan.entries().len(), 0);
    Ok(())
}

// The good sheet with one byte changed.
fn changed(at: usize, byte: u8) -> [u8; 26] {
    let mut bytes = GOOD;
    if at < 26 {
        bytes[at] = byte;
    }
    bytes
}

fn changed_refuses(
    rt: &impl Abort,
    at: usize,
    byte: u8,
    number: u8,
    layer: u8,
    place: usize,
) -> Result<(), Fail> {
    refuses(rt, &changed(at, byte), 16, number, layer, place)
}

// 10, 11, 12, 13, 14 and 19 of the head field.
#[test]
fn head_faults(rt: HostRuntime) -> Result<(), Fail> {
    refuses(&rt, &[], 16, 10, 1, 0)?;
    refuses(&rt, &[0x01, 0x00], 16, 10, 1, 0)?;
    refuses(&rt, &[0x01, 0x00, 0x02, 0x01], 16, 10, 1, 0)?;
    refuses(&rt, &[0x01, 0x00, 0x03, 0x01, 0x02, 0x00], 16, 12, 2, 0)?;
    refuses(&rt, &[0x01, 0x00, 0x02, 0x01, 0x08], 16, 19, 3, 5)?;
    refuses(&rt, &[0x01, 0x00, 0x02, 0x01, 0x09], 16, 14, 3, 4)?;
    changed_refuses(&rt, 0, 0x02, 11, 2, 0)?;
    changed_refuses(&rt, 0, 0x07, 11, 2, 0)?;
    changed_refuses(&rt, 3, 0x02, 13, 3, 3)?;
    changed_refuses(&rt, 4, 0x00, 14, 3, 4)
}

// 10, 11, 12, 15, 16 and 21 of a signature field.
#[test]
fn signature_faults(rt: HostRuntime) -> Result<(), Fail> {
    refuses(&rt, &GOOD[0..25], 16, 10, 1, 5)?;
    refuses(
        &rt,
        &[0x01, 0x00, 0x02, 0x01, 0x02, 0x02, 0x00],
        16,
        10,
        1,
        5,
    )?;
    refuses(
        &rt,
        &[
            0x01, 0x00, 0x02, 0x01, 0x02, 0x02, 0x00, 0x03, 0x00, 0x01, 0x01,
        ],
        16,
        12,
        2,
        5,
    )?;
    changed_refuses(&rt, 5, 0x03, 11, 2, 5)?;
    changed_refuses(&rt, 10, 0x00, 15, 3, 10)?;
    changed_refuses(&rt, 10, 0x03, 15, 3, 10)?;
    changed_refuses(&rt, 11, 0x00, 16, 3, 11)?;
    changed_refuses(&rt, 11, 0x41, 16, 3, 11)?;
    changed_refuses(&rt, 11, 0x03, 12, 2, 5)?;
    refuses(&rt, &GOOD, 3, 21, 3, 5)
}

// 11, 12 and 17 of a track field.
#[test]
fn track_faults(rt: HostRuntime) -> Result<(), Fail> {
    changed_refuses(&rt, 12, 0x02, 11, 2, 12)?;
    changed_refuses(&rt, 14, 0x05, 12, 2, 12)?;
    changed_refuses(&rt, 19, 0x04, 11, 2, 19)?;
    changed_refuses(&rt, 25, 0x00, 17, 2, 24)
}

// One signature of one track and one frame, on one head; 12 bytes.
fn push_small(bytes: &mut Vec<u8>, name: u8) -> Result<(), AllocError> {
    bytes.extend_from_slice(&[
        0x02, 0x00, 0x09, 0x00, name, 0x01, 0x01, 0x03, 0x00, 0x02, 0x00, 0x01,
    ])?;
    Ok(())
}

// So many small signatures with names from 1 on.
fn small_sheet(heap: Global, count: u8) -> Result<Vec<u8>, AllocError> {
    let mut bytes = Vec::new(heap);
    bytes.extend_from_slice(&[0x01, 0x00, 0x02, 0x01, 0x01])?;
    for i in 0..count {
        push_small(&mut bytes, i + 1)?;
    }
    Ok(bytes)
}

// 18: twelve signatures read, the thirteenth is one too many, at its field start.
#[test]
fn thirteenth(rt: HostRuntime) -> Result<(), Fail> {
    let twelve = small_sheet(rt.alloc(), 12)?;
    let mut store = [MARK; 16];
    let mut plan = Plan::empty();
    assert!(rt; read_sheet(Band, twelve.as_slice(), &mut plan, &mut store).is_ok());
    assert_eq!(rt; plan.entries().len(), 12);
    assert_eq!(rt; store[11], BandSet { bits: 1 });
    assert_eq!(rt; store[12], MARK);
    let thirteen = small_sheet(rt.alloc(), 13)?;
    refuses(&rt, thirteen.as_slice(), 16, 18, 3, 149)
}

// 20: a name that is not above the one before, at the name.
#[test]
fn names_rise(rt: HostRuntime) -> Result<(), Fail> {
    let mut bytes = small_sheet(rt.alloc(), 1)?;
    push_small(&mut bytes, 1)?;
    refuses(&rt, bytes.as_slice(), 16, 20, 3, 20)
}

// A sheet that reads: its figures, and its tests from the store's start on.
#[test]
fn reads_301(rt: HostRuntime) -> Result<(), Fail> {
    let mut store = [MARK; 6];
    let mut plan = Plan::empty();
    assert!(rt; read_sheet(Band, &GOOD, &mut plan, &mut store).is_ok());
    assert_eq!(rt; plan.code(), 1);
    assert_eq!(rt; plan.heads(), 2);
    let Some(entry) = plan.entries().first() else {
        return Err(Fail::new("no signature"));
    };
    assert_eq!(rt; entry.name, 301);
    assert_eq!(rt; entry.tracks, 2);
    assert_eq!(rt; entry.frames, 2);
    assert_eq!(rt; entry.first, 0);
    assert_eq!(rt;
        store,
        [
            BandSet { bits: 2 },
            BandSet { bits: 4 },
            BandSet { bits: 1 },
            BandSet { bits: 3 },
            MARK,
            MARK,
        ]
    );
    Ok(())
}

// A refusal leaves the tests before it in the store, and every later place as it was.
#[test]
fn refusal_leaves(rt: HostRuntime) {
    let mut store = [MARK; 6];
    let mut plan = Plan::empty();
    assert!(rt; read_sheet(Band, &changed(25, 0x00), &mut plan, &mut store).is_err());
    assert_eq!(rt; plan.heads(), 0);
    assert_eq!(rt;
        store,
        [
            BandSet { bits: 2 },
            BandSet { bits: 4 },
            BandSet { bits: 1 },
            MARK,
            MARK,
            MARK,
        ]
    );
}

// A climate test whose low moisture is n.
fn push_test(bytes: &mut Vec<u8>, n: u8) -> Result<(), AllocError> {
    bytes.extend_from_slice(&[0x00, n, 0x27, 0x10, 0xFE, 0x70, 0x09, 0xC4])?;
    Ok(())
}

// A track field of 64 tests.
fn push_track(bytes: &mut Vec<u8>) -> Result<(), AllocError> {
    bytes.extend_from_slice(&[0x03, 0x02, 0x00])?;
    for n in 0..64 {
        push_test(bytes, n)?;
    }
    Ok(())
}

// A signature field of 8 tracks and 64 frames; 4,127 bytes.
fn push_signature(bytes: &mut Vec<u8>, name: u8) -> Result<(), AllocError> {
    bytes.extend_from_slice(&[0x02, 0x10, 0x1C, 0x00, name, 0x08, 0x40])?;
    for _ in 0..8 {
        push_track(bytes)?;
    }
    Ok(())
}

// The longest sheet: 12 signatures of 8 tracks and 64 frames, of the kind with the widest tests.
fn longest(heap: Global) -> Result<Vec<u8>, AllocError> {
    let mut bytes = Vec::new(heap);
    bytes.extend_from_slice(&[0x01, 0x00, 0x02, 0x03, 0x08])?;
    for name in 0..12 {
        push_signature(&mut bytes, name)?;
    }
    Ok(bytes)
}

// A climate test with these moisture ends, over all temperatures.
fn humid(low: u16, high: u16) -> ClimateTest {
    let moisture = MoistureSpan { low, high };
    let temperature = TemperatureSpan {
        low: -400,
        high: 2500,
    };
    ClimateTest {
        moisture,
        temperature,
    }
}

// It has 49,529 bytes and 6,144 tests, and is read whole.
#[test]
fn longest_sheet(rt: HostRuntime) -> Result<(), Fail> {
    let bytes = longest(rt.alloc())?;
    assert_eq!(rt; bytes.len(), 49_529);
    let mut store = [humid(1, 1); 6144];
    let mut plan = Plan::empty();
    assert!(rt; read_sheet(Climate, bytes.as_slice(), &mut plan, &mut store).is_ok());
    assert_eq!(rt; plan.entries().len(), 12);
    assert_eq!(rt; store[0], humid(0, 10_000));
    assert_eq!(rt; store[6143], humid(63, 10_000));
    Ok(())
}

// With a store one test too small it is refused at its last signature.
#[test]
fn store_too_small(rt: HostRuntime) -> Result<(), Fail> {
    let bytes = longest(rt.alloc())?;
    let mut store = [humid(1, 1); 6143];
    let mut plan = Plan::empty();
    let Err(fault) = read_sheet(Climate, bytes.as_slice(), &mut plan, &mut store) else {
        return Err(Fail::new("a sheet with more tests than the store was read"));
    };
    assert_eq!(rt; fault.cause.number(), 21);
    assert_eq!(rt; fault.cause.layer().number(), 3);
    assert_eq!(rt; fault.place, 45_402);
    assert_eq!(rt; store[5631], humid(63, 10_000));
    assert_eq!(rt; store[5632], humid(1, 1));
    Ok(())
}

// Span 600 to 750 passes its ends and nothing beyond them.
#[test]
fn spans(rt: HostRuntime) {
    let span = MoistureSpan {
        low: 600,
        high: 750,
    };
    assert!(rt; Span.passes(&span, &600));
    assert!(rt; Span.passes(&span, &750));
    assert!(rt; !Span.passes(&span, &599));
    assert!(rt; !Span.passes(&span, &751));
    assert!(rt; Span.read_test(&[0x02, 0xEE, 0x02, 0x58]).is_none());
    assert!(rt; Span.is_lawful(&10_000));
    assert!(rt; !Span.is_lawful(&10_001));
}

// Temperature -400 is 0xFE70 and lawful, -401 is not; 2,500 is, 2,501 is not.
#[test]
fn temperatures(rt: HostRuntime) {
    let coldest = ClimateReading {
        moisture: 0,
        temperature: -400,
    };
    assert_eq!(rt;
        Climate.read_reading(&[0x00, 0x00, 0xFE, 0x70]),
        Some(coldest)
    );
    assert!(rt; Climate.read_reading(&[0x00, 0x00, 0xFE, 0x6F]).is_none());
    assert!(rt; Climate.read_reading(&[0x00, 0x00, 0x09, 0xC4]).is_some());
    assert!(rt; Climate.read_reading(&[0x00, 0x00, 0x09, 0xC5]).is_none());
    let mut bytes = [0u8; 4];
    assert!(rt; Climate.write_reading(&coldest, &mut bytes).is_ok());
    assert_eq!(rt; bytes, [0x00, 0x00, 0xFE, 0x70]);
}

// Bands 0 to 15 are lawful; a set passes the bands whose bits are set, and no set is empty.
#[test]
fn band_sets(rt: HostRuntime) {
    let set = BandSet { bits: 0x8002 };
    assert!(rt; Band.passes(&set, &1));
    assert!(rt; Band.passes(&set, &15));
    assert!(rt; !Band.passes(&set, &0));
    assert!(rt; !Band.passes(&set, &16));
    assert!(rt; Band.is_lawful(&15));
    assert!(rt; !Band.is_lawful(&16));
    assert!(rt; Band.read_test(&[0x00, 0x00]).is_none());
}

// What ginsheet prints of a band sheet, of a span sheet, and of another code, which is read as band.
#[test]
fn texts(rt: HostRuntime) -> Result<(), Fail> {
    let band = sheet_text(rt.alloc(), &GOOD)?;
    assert_eq!(rt;
        band.as_str(),
        "kind band\nheads 2\nsignature 301: tracks 2, frames 2\n  track 0, frame 1: bands 1\n  track 0, frame 2: bands 2\n  track 1, frame 1: bands 0\n  track 1, frame 2: bands 0, 1\n"
    );
    let span = [
        0x01, 0x00, 0x02, 0x02, 0x01, 0x02, 0x00, 0x0B, 0x00, 0x01, 0x01, 0x01, 0x03, 0x00, 0x04,
        0x02, 0x58, 0x02, 0xEE,
    ];
    let moist = sheet_text(rt.alloc(), &span)?;
    assert_eq!(rt;
        moist.as_str(),
        "kind span\nheads 1\nsignature 1: tracks 1, frames 1\n  track 0, frame 1: moisture 6.00 % to 7.50 %\n"
    );
    let other = sheet_text(rt.alloc(), &changed(3, 0x09))?;
    assert_eq!(rt;
        other.as_str(),
        "fault 13 3 3\nkind: the code of another kind; it stands at byte 3\n"
    );
    Ok(())
}
