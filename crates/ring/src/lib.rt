// A ring of the latest items, over slots that its owner lends.
#![tactic(auto)]

ghost use Rattle.ring.specs.Latest.{Sound};

use place::{place_after, place_back};

mod place;
mod size;

// The latest items, at most `capacity` of them, in the first `capacity` slots, which its owner lends: a rule of the project.
// The next item goes to slot `next`; `count` items are held. Later slots are never written.
#[derive(Drop)]
pub struct Ring<'a, T> {
    slots: &'a mut [T],
    capacity: usize,
    next: usize,
    count: usize,
    ghost sound: { Sound slots.now capacity next count },
}

impl<'a, T: Copy> Ring<'a, T> {
    ghost use Rattle.std.specs.Prelude.{◌≡◌, min, [], ◌∷◌, ◌++◌, reverse, length, take};
    ghost use Rattle.std.specs.List.{slice_get};
    ghost use Rattle.ring.specs.Rings.{holds, unused};

    // An empty ring. It holds at most as many items as there are slots.
    pub fn new(slots: &'a mut [T], capacity: usize) -> Ring<'a, T>
        ensures holds { holds result ≡ [] }
        ensures capacity { result.capacity ≡ min capacity (length slots.old) }
        ensures slots { result.slots.now ≡ slots.old }
        ensures lent { result.slots.ghost_name ≡ slots.entry.ghost_name }
    {
        let capacity = capacity.min(slots.len());
        Ring {
            slots,
            capacity,
            next: 0,
            count: 0,
        }
    }

    // Lets go of every item.
    pub fn clear(&mut self)
        ensures holds { holds self.new ≡ [] }
        ensures unused { unused self.new ≡ unused self.old }
        ensures capacity { self.new.capacity ≡ self.old.capacity }
        ensures slots { self.new.slots.now ≡ self.old.slots.now }
        ensures lent { self.new.slots.ghost_name ≡ self.old.slots.ghost_name }
    {
        self.next = 0;
        self.count = 0;
    }

    // Adds an item; a full ring lets go of the oldest one.
    pub fn push(&mut self, item: T)
        ensures holds { holds self.new ≡ take self.old.capacity (item ∷ holds self.old) }
        ensures unused { unused self.new ≡ unused self.old }
        ensures capacity { self.new.capacity ≡ self.old.capacity }
        ensures lent { self.new.slots.ghost_name ≡ self.old.slots.ghost_name }
    {
        if self.capacity == 0 {
            return;
        }
        let i = self.next;
        self.slots[i] = item;
        self.next = place_after(i, self.capacity);
        self.count = self.count.saturating_add(1).min(self.capacity);
    }

    // Adds the items in their order, so that the last one is the newest.
    pub fn push_all(&mut self, items: &[T])
        ensures holds { holds self.new ≡ take self.old.capacity (reverse items.now ++ holds self.old) }
        ensures unused { unused self.new ≡ unused self.old }
        ensures capacity { self.new.capacity ≡ self.old.capacity }
        ensures lent { self.new.slots.ghost_name ≡ self.old.slots.ghost_name }
    {
        for item in items {
            self.push(*item);
        }
    }

    // The item q back from the newest, which is at 0; none where fewer are held.
    pub fn get(&self, q: usize) -> Option<T>
        ensures { result ≡ slice_get (holds self.now) q }
    {
        if q < self.count {
            Some(self.slots[place_back(self.next, self.capacity, q)])
        } else {
            None
        }
    }
}
