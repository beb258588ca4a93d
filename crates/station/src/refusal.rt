// Why a call of a station is refused.
ghost use Rattle.std.specs.Prelude.{◌≡◌, Some};
ghost use Rattle.station.specs.Refusals.{number, told};
ghost use Rattle.station.specs.Texts.{refusal_text};

use std::fmt;

#[derive(Clone, Copy, PartialEq, Eq, Debug)]
pub enum Refusal {
    // the plan is another kind's
    Kind,
    // not as many readings as heads
    Frame,
    // an unlawful reading, at the lowest head that has one
    Reading(usize),
    // no signature in that position
    Signature,
    // tail memory for under 64 frames
    Tail,
    // no such head
    Head,
    // the empty plan
    Plan,
    // the store is shorter than the plan's tests
    Tests,
}

impl Refusal {
    // The number on the fault card. A match stays: a case that holds a head can have no number in the enum itself.
    pub fn number(self) -> u8
        ensures { result ≡ number self }
    {
        match self {
            Refusal::Kind => 13,
            Refusal::Frame => 30,
            Refusal::Reading(_) => 31,
            Refusal::Signature => 32,
            Refusal::Tail => 33,
            Refusal::Head => 34,
            Refusal::Plan => 35,
            Refusal::Tests => 36,
        }
    }
}

// The number, and the head that 31 adds.
impl fmt::Display for Refusal {
    ghost output = { λ refusal. Some (refusal_text (told refusal)) };

    fn fmt<W: fmt::Write>(&self, f: &mut fmt::Formatter<W>) -> fmt::Result {
        let number = self.number();
        match *self {
            Refusal::Reading(head) => write!(f, "{number} {head}"),
            _ => write!(f, "{number}"),
        }
    }
}
