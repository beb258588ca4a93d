// What a plan holds of one signature.
ghost use Rattle.std.specs.Prelude.{◌≡◌, ◌*◌};
ghost use Rattle.std.specs.Option.{option_copied};
ghost use Rattle.sheet.specs.Parts.{part_of};

// A signature's figures, and where its tests begin in the store, which is the caller's memory:
// track t has its `frames` tests from `first + t * frames` on.
#[derive(Clone, Copy, PartialEq, Eq, Debug, Default)]
pub struct Entry {
    pub name: u16,
    pub tracks: u8,
    pub frames: u8,
    pub first: usize,
}

impl Entry {
    // How many tests the signature has.
    pub fn tests(&self) -> usize
        ensures { result ≡ self.now.tracks * self.now.frames }
    {
        self.tracks as usize * self.frames as usize
    }

    // The part of the store that holds the signature's tests, or none where the store is too short.
    pub fn tests_in<'a, T>(&self, store: &'a [T]) -> Option<&'a [T]>
        ensures { option_copied result ≡ part_of self.now store.now }
    {
        store.get(self.first..)?.get(..self.tests())
    }
}
