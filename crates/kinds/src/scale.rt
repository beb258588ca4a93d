// Scales of numbers, and intervals on them.
ghost use Rattle.std.specs.Prelude.{◌≡◌, Some};
ghost use Rattle.std.specs.Ordering.{partial_le};
ghost use Rattle.kinds.specs.Bytes.{pair, word};
ghost use Rattle.kinds.specs.Scales.{Scaled, lawful, sound, within, interval_bytes, interval_at, interval_text};

use std::fmt;

// The numbers that a head reads on one scale, each in two bytes; the lawful ones reach from the least to the most.
pub trait Scale: Copy + PartialOrd {
    // a number in plain figures, with its unit
    type Figures: fmt::Display + Drop;

    const LEAST: Self;

    const MOST: Self;

    ghost LEAST: { Self };

    ghost MOST: { Self };

    ghost scale: { Scaled Self };

    // what is read
    fn name() -> &'static str
        ensures { result.now ≡ scale.name };

    fn figures(self) -> Self::Figures
        ensures { Self.Figures.output result ≡ Some (scale.figures self) };

    // The number that these bytes are.
    fn of_bytes(bytes: [u8; 2]) -> Self
        ensures { result ≡ scale.value (word bytes 0) };

    fn to_bytes(self) -> [u8; 2]
        ensures { result ≡ pair (scale.bits self) };

    final fn is_lawful(self) -> bool
        ensures { result ≡ lawful scale self }
    {
        Self::LEAST <= self && self <= Self::MOST
    }

    // the bounds are those of the scale, and `<=` is its order
    ghost least_is: { LEAST ≡ scale.least };

    ghost most_is: { MOST ≡ scale.most };

    ghost ordered: { (a b : Self) → partial_le Self.partial_cmp a b ≡ scale.le a b };
}

// Numbers from low to high, both ends within.
#[derive(Clone, Copy, Default, PartialEq, Eq, Debug)]
pub struct Interval<T> {
    pub low: T,
    pub high: T,
}

impl<T: Scale> Interval<T> {
    pub fn is_sound(self) -> bool
        ensures { result ≡ sound T.scale self }
    {
        T::LEAST <= self.low && self.low <= self.high && self.high <= T::MOST
    }

    pub fn holds(self, number: T) -> bool
        ensures { result ≡ within T.scale self number }
    {
        self.low <= number && number <= self.high
    }

    // The interval that these bytes are, sound or not.
    pub fn of_bytes(bytes: [u8; 4]) -> Self
        ensures { result ≡ interval_at T.scale bytes 0 }
    {
        let [a, b, c, d] = bytes;
        Interval {
            low: T::of_bytes([a, b]),
            high: T::of_bytes([c, d]),
        }
    }

    pub fn to_bytes(self) -> [u8; 4]
        ensures { result ≡ interval_bytes T.scale self }
    {
        let [a, b] = self.low.to_bytes();
        let [c, d] = self.high.to_bytes();
        [a, b, c, d]
    }
}

// As `moisture 6.05 % to 7.50 %`.
impl<T: Scale> fmt::Display for Interval<T> {
    ghost output = { λ t. Some (interval_text T.scale t) };

    fn fmt<W: fmt::Write>(&self, f: &mut fmt::Formatter<W>) -> fmt::Result {
        let name = T::name();
        let low = self.low.figures();
        let high = self.high.figures();
        write!(f, "{name} {low} to {high}")
    }
}
