// The span kind: a head tells moisture in hundredths of a percent, and a test is a range of it.
ghost use Rattle.std.specs.Prelude.{◌≡◌, refl, Some};
ghost use Rattle.kinds.specs.Spans.{moistures, span_facts, percent_text};
ghost use Rattle.kinds.specs.SpansLemmas.{spans_lawful, moistures_lawful};
ghost use Rattle.std.proofs.Common.{rules};

use crate::buffer::{NoRoom, write_front};
use crate::kind::Kind;
use crate::scale::{Interval, Scale};
use std::fmt;

// 100.00 percent
pub const MOST_MOISTURE: u16 = 10_000;

#[derive(Clone, Copy)]
pub struct Span;

// Hundredths of a percent.
#[derive(Clone, Copy)]
pub struct Percent(u16);

// As `6.05 %`.
impl fmt::Display for Percent {
    ghost output = { λ p. Some (percent_text p.0) };

    fn fmt<W: fmt::Write>(&self, f: &mut fmt::Formatter<W>) -> fmt::Result {
        let whole = self.0 / 100;
        let tenths = self.0 / 10 % 10;
        let hundredths = self.0 % 10;
        write!(f, "{whole}.{tenths}{hundredths} %")
    }
}

// Moisture in hundredths of a percent.
impl Scale for u16 {
    type Figures = Percent;

    const LEAST: u16 = 0;

    const MOST: u16 = MOST_MOISTURE;

    ghost LEAST = { 0 };

    ghost MOST = { 10000 };

    ghost scale = { moistures };

    ghost least_is = { refl };

    ghost most_is = { refl };

    ghost ordered = { Prim.search rules };

    fn name() -> &'static str {
        "moisture"
    }

    fn figures(self) -> Percent {
        Percent(self)
    }

    fn of_bytes(bytes: [u8; 2]) -> u16 {
        u16::from_be_bytes(bytes)
    }

    fn to_bytes(self) -> [u8; 2] {
        self.to_be_bytes()
    }
}

// Moisture from low to high, both ends within.
pub type MoistureSpan = Interval<u16>;

impl Kind for Span {
    type Reading = u16;

    type Test = MoistureSpan;

    const CODE: u8 = 2;

    const W: usize = 4;

    const R: usize = 2;

    ghost CODE = { 2 };

    ghost W = { 4 };

    ghost R = { 2 };

    ghost facts = { span_facts };

    ghost code_is = { refl };

    ghost test_width_is = { refl };

    ghost reading_width_is = { refl };

    ghost coded = { Prim.search rules };

    ghost tests = { spans_lawful };

    ghost readings = { moistures_lawful };

    fn is_lawful(self, reading: &u16) -> bool {
        reading.is_lawful()
    }

    fn is_sound(self, test: &MoistureSpan) -> bool {
        test.is_sound()
    }

    fn passes(self, test: &MoistureSpan, reading: &u16) -> bool {
        test.holds(*reading)
    }

    fn read_test(self, bytes: &[u8]) -> Option<MoistureSpan> {
        let [a, b, c, d] = bytes else {
            return None;
        };
        let test = MoistureSpan::of_bytes([*a, *b, *c, *d]);
        test.is_sound().then_some(test)
    }

    fn write_test(self, test: &MoistureSpan, buffer: &mut [u8]) -> Result<(), NoRoom> {
        write_front(&test.to_bytes(), buffer)
    }

    fn read_reading(self, bytes: &[u8]) -> Option<u16> {
        let [high, low] = bytes else {
            return None;
        };
        let moisture = u16::of_bytes([*high, *low]);
        moisture.is_lawful().then_some(moisture)
    }

    fn write_reading(self, reading: &u16, buffer: &mut [u8]) -> Result<(), NoRoom> {
        write_front(&reading.to_bytes(), buffer)
    }
}
