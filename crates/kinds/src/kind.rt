// What every kind of reading has to bring.
ghost use Rattle.std.specs.Prelude.{◌≡◌, ℕ};
ghost use Rattle.kinds.specs.Codings.{Lawful, Written};
ghost use Rattle.kinds.specs.Kinds.{Facts, Coded, most_test_width, most_reading_width};

use crate::buffer::NoRoom;

// A kind of reading. Its facts say what every answer is, from the arguments alone;
// code that is generic over a kind is proved from the facts and the laws.
pub trait Kind: Copy {
    // what one head reads in one frame
    type Reading: Copy;

    // what a sheet asks of one reading
    type Test: Copy;

    // the code by which a sheet names the kind
    const CODE: u8;

    // bytes of a test
    const W: usize;

    // bytes of a reading
    const R: usize;

    // the three constants, as clauses and laws name them
    ghost CODE: { ℕ };

    ghost W: { ℕ };

    ghost R: { ℕ };

    ghost facts: { Facts Self.Reading Self.Test };

    fn is_lawful(self, reading: &Self::Reading) -> bool
        ensures { result ≡ facts.readings.proper reading.now };

    fn is_sound(self, test: &Self::Test) -> bool
        ensures { result ≡ facts.tests.proper test.now };

    // Whether the reading passes the test, sound or not.
    fn passes(self, test: &Self::Test, reading: &Self::Reading) -> bool
        ensures { result ≡ facts.passes test.now reading.now };

    // The sound test that these bytes are, or none.
    fn read_test(self, bytes: &[u8]) -> Option<Self::Test>
        ensures { result ≡ facts.tests.reads bytes.now };

    // Writes the test at the front of the buffer, or nothing where it does not fit.
    fn write_test(self, test: &Self::Test, buffer: &mut [u8]) -> Result<(), NoRoom>
        ensures { Written facts.tests test.now buffer.old result buffer.new };

    // The lawful reading that these bytes are, or none.
    fn read_reading(self, bytes: &[u8]) -> Option<Self::Reading>
        ensures { result ≡ facts.readings.reads bytes.now };

    // Writes the reading at the front of the buffer, or nothing where it does not fit.
    fn write_reading(self, reading: &Self::Reading, buffer: &mut [u8]) -> Result<(), NoRoom>
        ensures { Written facts.readings reading.now buffer.old result buffer.new };

    // the constants are those of the facts
    ghost code_is: { CODE ≡ facts.code };

    ghost test_width_is: { W ≡ facts.tests.width };

    ghost reading_width_is: { R ≡ facts.readings.width };

    // the code is 1 to 255
    ghost coded: { Coded facts.code };

    // tests are 1 to 8 bytes; a sound test reads back the same, and from its own bytes alone
    ghost tests: { Lawful most_test_width facts.tests };

    // readings are 1 to 4 bytes; a lawful reading reads back the same, and from its own bytes alone
    ghost readings: { Lawful most_reading_width facts.readings };
}
