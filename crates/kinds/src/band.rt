// The band kind: a head tells one of sixteen moisture bands, and a test is the set of bands that pass.
ghost use Rattle.std.specs.Prelude.{◌≡◌, refl, Some};
ghost use Rattle.kinds.specs.Bands.{bands_text, band_facts, set_sound, in_set, band_lawful};
ghost use Rattle.kinds.specs.BandsLemmas.{sets_lawful, bands_lawful};
ghost use Rattle.std.proofs.Common.{rules};

use crate::buffer::{NoRoom, write_front};
use crate::kind::Kind;
use std::fmt;

// bands are numbered 0 to 15
pub const MOST_BAND: u8 = 15;

#[derive(Clone, Copy)]
pub struct Band;

// A set of bands: band b is in it if the bit of weight 2^b is set.
#[derive(Clone, Copy, Default, PartialEq, Eq, Debug)]
pub struct BandSet {
    pub bits: u16,
}

// As `bands 1, 4`. Bands are tried one by one: with `filter` and `enumerate` the text was not proved.
impl fmt::Display for BandSet {
    ghost output = { λ t. Some (bands_text t 16) };

    fn fmt<W: fmt::Write>(&self, f: &mut fmt::Formatter<W>) -> fmt::Result {
        let mut first = true;
        for band in 0..MOST_BAND + 1 {
            if (self.bits >> band) % 2 == 1 {
                let gap = if first { "bands " } else { ", " };
                write!(f, "{gap}{band}")?;
                first = false;
            }
        }
        Ok(())
    }
}

impl Kind for Band {
    type Reading = u8;

    type Test = BandSet;

    const CODE: u8 = 1;

    const W: usize = 2;

    const R: usize = 1;

    ghost CODE = { 1 };

    ghost W = { 2 };

    ghost R = { 1 };

    ghost facts = { band_facts };

    ghost code_is = { refl };

    ghost test_width_is = { refl };

    ghost reading_width_is = { refl };

    ghost coded = { Prim.search rules };

    ghost tests = { sets_lawful };

    ghost readings = { bands_lawful };

    fn is_lawful(self, reading: &u8) -> bool {
        *reading <= MOST_BAND
    }

    fn is_sound(self, test: &BandSet) -> bool {
        test.bits != 0
    }

    #[tactic(auto, using(crate::specs::BytesLemmas::no_bit))]
    fn passes(self, test: &BandSet, reading: &u8) -> bool {
        let bits = test.bits;
        *reading < 16 && (bits >> *reading) % 2 == 1
    }

    fn read_test(self, bytes: &[u8]) -> Option<BandSet> {
        let [high, low] = bytes else {
            return None;
        };
        let test = BandSet {
            bits: u16::from_be_bytes([*high, *low]),
        };
        self.is_sound(&test).then_some(test)
    }

    fn write_test(self, test: &BandSet, buffer: &mut [u8]) -> Result<(), NoRoom> {
        let bytes = test.bits.to_be_bytes();
        write_front(&bytes, buffer)
    }

    fn read_reading(self, bytes: &[u8]) -> Option<u8> {
        let [band] = bytes else {
            return None;
        };
        self.is_lawful(band).then_some(*band)
    }

    fn write_reading(self, reading: &u8, buffer: &mut [u8]) -> Result<(), NoRoom> {
        let bytes = [*reading];
        write_front(&bytes, buffer)
    }
}
