// The climate kind: a head tells moisture and air temperature, and a test is a range of each.
ghost use Rattle.std.specs.Prelude.{◌≡◌, refl, Some};
ghost use Rattle.kinds.specs.Climates.{degrees_text, climate_text, climate_facts, temperatures, least_temperature, most_temperature};
ghost use Rattle.kinds.specs.ClimatesLemmas.{climate_tests_lawful, climate_readings_lawful};
ghost use Rattle.std.proofs.Common.{rules};

use crate::buffer::{NoRoom, write_front};
use crate::kind::Kind;
use crate::scale::{Interval, Scale};
use crate::span::MoistureSpan;
use std::fmt;

// temperature in tenths of a degree Celsius: −40.0 to 250.0 degrees
pub const LEAST_TEMPERATURE: i16 = -400;

pub const MOST_TEMPERATURE: i16 = 2_500;

#[derive(Clone, Copy)]
pub struct Climate;

// Moisture in hundredths of a percent, and air temperature in tenths of a degree Celsius.
#[derive(Clone, Copy, Default, PartialEq, Eq, Debug)]
pub struct ClimateReading {
    pub moisture: u16,
    pub temperature: i16,
}

// Tenths of a degree Celsius.
#[derive(Clone, Copy)]
pub struct Degrees(i16);

// As `-40.0 C`.
impl fmt::Display for Degrees {
    ghost output = { λ d. Some (degrees_text d.0) };

    fn fmt<W: fmt::Write>(&self, f: &mut fmt::Formatter<W>) -> fmt::Result {
        let sign = if self.0 < 0 { "-" } else { "" };
        let size = self.0.unsigned_abs();
        let whole = size / 10;
        let tenths = size % 10;
        write!(f, "{sign}{whole}.{tenths} C")
    }
}

// Temperature in tenths of a degree Celsius.
impl Scale for i16 {
    type Figures = Degrees;

    const LEAST: i16 = LEAST_TEMPERATURE;

    const MOST: i16 = MOST_TEMPERATURE;

    ghost LEAST = { least_temperature };

    ghost MOST = { most_temperature };

    ghost scale = { temperatures };

    ghost least_is = { refl };

    ghost most_is = { refl };

    ghost ordered = { Prim.search rules };

    fn name() -> &'static str {
        "temperature"
    }

    fn figures(self) -> Degrees {
        Degrees(self)
    }

    fn of_bytes(bytes: [u8; 2]) -> i16 {
        i16::from_be_bytes(bytes)
    }

    fn to_bytes(self) -> [u8; 2] {
        self.to_be_bytes()
    }
}

// Temperature from low to high, both ends within.
pub type TemperatureSpan = Interval<i16>;

#[derive(Clone, Copy, Default, PartialEq, Eq, Debug)]
pub struct ClimateTest {
    pub moisture: MoistureSpan,
    pub temperature: TemperatureSpan,
}

impl fmt::Display for ClimateTest {
    ghost output = { λ t. Some (climate_text t) };

    fn fmt<W: fmt::Write>(&self, f: &mut fmt::Formatter<W>) -> fmt::Result {
        let ClimateTest {
            moisture,
            temperature,
        } = *self;
        write!(f, "{moisture}, {temperature}")
    }
}

impl Kind for Climate {
    type Reading = ClimateReading;

    type Test = ClimateTest;

    const CODE: u8 = 3;

    const W: usize = 8;

    const R: usize = 4;

    ghost CODE = { 3 };

    ghost W = { 8 };

    ghost R = { 4 };

    ghost facts = { climate_facts };

    ghost code_is = { refl };

    ghost test_width_is = { refl };

    ghost reading_width_is = { refl };

    ghost coded = { Prim.search rules };

    ghost tests = { climate_tests_lawful };

    ghost readings = { climate_readings_lawful };

    fn is_lawful(self, reading: &ClimateReading) -> bool {
        reading.moisture.is_lawful() && reading.temperature.is_lawful()
    }

    fn is_sound(self, test: &ClimateTest) -> bool {
        test.moisture.is_sound() && test.temperature.is_sound()
    }

    fn passes(self, test: &ClimateTest, reading: &ClimateReading) -> bool {
        test.moisture.holds(reading.moisture) && test.temperature.holds(reading.temperature)
    }

    #[tactic(auto, using(crate::specs::CodingsLemmas::fixed_answer, crate::specs::BytesLemmas::sized_of))]
    fn read_test(self, bytes: &[u8]) -> Option<ClimateTest> {
        let [a, b, c, d, e, f, g, h] = bytes else {
            return None;
        };
        let test = ClimateTest {
            moisture: Interval::of_bytes([*a, *b, *c, *d]),
            temperature: Interval::of_bytes([*e, *f, *g, *h]),
        };
        self.is_sound(&test).then_some(test)
    }

    fn write_test(self, test: &ClimateTest, buffer: &mut [u8]) -> Result<(), NoRoom> {
        let [a, b, c, d] = test.moisture.to_bytes();
        let [e, f, g, h] = test.temperature.to_bytes();
        write_front(&[a, b, c, d, e, f, g, h], buffer)
    }

    fn read_reading(self, bytes: &[u8]) -> Option<ClimateReading> {
        let [a, b, c, d] = bytes else {
            return None;
        };
        let reading = ClimateReading {
            moisture: u16::of_bytes([*a, *b]),
            temperature: i16::of_bytes([*c, *d]),
        };
        self.is_lawful(&reading).then_some(reading)
    }

    fn write_reading(self, reading: &ClimateReading, buffer: &mut [u8]) -> Result<(), NoRoom> {
        let [a, b] = reading.moisture.to_bytes();
        let [c, d] = reading.temperature.to_bytes();
        write_front(&[a, b, c, d], buffer)
    }
}
