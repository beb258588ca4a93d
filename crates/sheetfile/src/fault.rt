// What is wrong with a file, and where.
ghost use Rattle.std.specs.Prelude.{◌≡◌, Some};
ghost use Rattle.sheetfile.specs.Card.{number, layer, layer_number, told};
ghost use Rattle.sheetfile.specs.Texts.{cause_text, fault_text};

use std::fmt;

// What is wrong, and its number on the fault card.
#[derive(Clone, Copy, PartialEq, Eq, Debug)]
pub enum Cause {
    // under three bytes are left, or the body goes past the end
    Cut = 10,
    // not the tag that is due
    Tag = 11,
    // not the length that is due
    Length = 12,
    // another kind's code
    Kind = 13,
    // heads not 1 to 8
    Heads = 14,
    // tracks not 1 to the number of heads
    Tracks = 15,
    // frames not 1 to 64
    Frames = 16,
    // no sound test
    Test = 17,
    // a signature too many
    Thirteenth = 18,
    // no signature
    Bare = 19,
    // a name not above the one before
    Name = 20,
    // more tests than the store holds
    Store = 21,
    // a frame or a gap too many in a run
    LongRun = 22,
    // an unlawful reading in a run
    Reading = 31,
}

// The layer of the file at which a fault is found, and its number.
#[derive(Clone, Copy, PartialEq, Eq, Debug)]
pub enum Layer {
    Bytes = 1,
    Fields = 2,
    Sheet = 3,
}

// What is wrong, and the place of the byte that shows it, from 0.
#[derive(Clone, Copy, PartialEq, Eq, Debug)]
pub struct Fault {
    pub cause: Cause,
    pub place: usize,
}

impl Cause {
    // The number on the fault card.
    pub fn number(self) -> u8
        ensures { result ≡ number self }
    {
        self as u8 // the number beside its case
    }

    pub fn layer(self) -> Layer
        ensures { layer_number result ≡ layer self }
    {
        match self {
            Cause::Cut => Layer::Bytes,
            Cause::Tag | Cause::Length | Cause::Test => Layer::Fields,
            Cause::Kind
            | Cause::Heads
            | Cause::Tracks
            | Cause::Frames
            | Cause::Thirteenth
            | Cause::Bare
            | Cause::Name
            | Cause::Store
            | Cause::LongRun
            | Cause::Reading => Layer::Sheet,
        }
    }

    // This fault, found at a place.
    pub fn at(self, place: usize) -> Fault
        ensures { result ≡ record { cause = self; place = place } }
    {
        Fault { cause: self, place }
    }
}

impl Layer {
    pub fn number(self) -> u8
        ensures { result ≡ layer_number self }
    {
        self as u8 // here too
    }
}

// What is wrong, in words that the place can follow.
impl fmt::Display for Cause {
    ghost output = { λ cause. Some (cause_text cause) };

    fn fmt<W: fmt::Write>(&self, f: &mut fmt::Formatter<W>) -> fmt::Result {
        f.write_str(match self {
            Cause::Cut =>
                "cut: a field has under 3 bytes, or its body goes past the end; the field starts",
            Cause::Tag => "tag: not the tag that is due; it stands",
            Cause::Length => "length: not the length that is due; the field starts",
            Cause::Kind => "kind: the code of another kind; it stands",
            Cause::Heads => "heads: the number of heads is not 1 to 8; it stands",
            Cause::Tracks => "tracks: the number of tracks is not 1 to that of heads; it stands",
            Cause::Frames => "frames: the length in frames is not 1 to 64; it stands",
            Cause::Test => "test: no sound test; it begins",
            Cause::Thirteenth =>
                "thirteenth: a sheet has at most 12 signatures; the next one starts",
            Cause::Bare => "bare: the sheet has no signature; it ends",
            Cause::Name => "name: not above the name before it; it stands",
            Cause::Store =>
                "store: the sheet has more tests than the store holds; the signature starts",
            Cause::LongRun => "long run: frame or gap 1,000,000; the field starts",
            Cause::Reading => "reading: an unlawful reading; it begins",
        })
    }
}

// The figures of the fault: `fault NUMBER LAYER PLACE`.
impl fmt::Display for Fault {
    ghost output = { λ fault. Some (fault_text (told fault)) };

    fn fmt<W: fmt::Write>(&self, f: &mut fmt::Formatter<W>) -> fmt::Result {
        let number = self.cause.number();
        let layer = self.cause.layer().number();
        let place = self.place;
        write!(f, "fault {number} {layer} {place}")
    }
}
