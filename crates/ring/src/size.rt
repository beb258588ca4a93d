// How much a ring holds.
ghost use Rattle.std.specs.Prelude.{◌≡◌, length};
ghost use Rattle.ring.specs.Rings.{holds};

use crate::Ring;

impl<'a, T: Copy> Ring<'a, T> {
    // How many items are held.
    pub fn len(&self) -> usize
        ensures { result ≡ length (holds self.now) }
    {
        self.count
    }

    // How many items can be held.
    pub fn capacity(&self) -> usize
        ensures { result ≡ self.now.capacity }
    {
        self.capacity
    }
}
