// The search for the first placing.
ghost use Rattle.std.specs.Prelude.{◌≡◌, ◌+◌, ◌≤◌, drop, None};
ghost use Rattle.std.specs.Option.{option_map};
ghost use Rattle.matching.specs.Search.{first_placing_of};
ghost use Rattle.matching.specs.Meaning.{fitting, heads_of};
ghost use Rattle.matching.specs.Onward.{onward, size, Honest};

use super::Placing;
use crate::fits::{Fits, MOST_TRACKS};
use crate::set::HeadSet;

// A search for placings, and what it has found out.
#[derive(Drop)]
struct Search<'a> {
    fits: &'a Fits,
    // the tracks that are placed so far, counted from the last one, stand on these heads
    placing: Placing,
    // whether a set of free heads, by its number, is known to leave no placing: which tracks are left then
    // follows from its size, since each track before took one of the eight heads
    hopeless: [bool; 256],
    ghost honest: { Honest fits.now hopeless },
    ghost whole: { placing.tracks ≡ fits.now.tracks },
}

impl Search<'_> {
    // Places the tracks from `track` on, on free heads: each on the least head that leaves a placing of the tracks after it.
    // No set of free heads is searched twice. The placing stays in the search: handed up by value from track to track it
    // cost small tables more than twice the time.
    fn place(&mut self, track: usize, free: HeadSet) -> Option<()>
        requires left { track ≤ self.old.fits.now.tracks }
        requires taken { track + size free.number ≡ 8 }
        ensures found { option_map (λ _. drop track (heads_of self.new.placing)) result ≡ onward self.old.fits.now track free.number }
        ensures same_fits { self.new.fits ≡ self.old.fits }
    {
        if track == self.fits.tracks() {
            return Some(());
        }
        for head in (self.fits.row(track) & free).members() {
            let rest = free.without(head);
            if !self.hopeless[rest.index()] && self.place(track + 1, rest).is_some() {
                self.placing.heads[track] = head as u8;
                return Some(());
            }
        }
        self.hopeless[free.index()] = true;
        None
    }
}

impl Fits {
    // The first placing, if there is one. A track that fits no head is answered at once.
    pub(crate) fn first_placing(&self) -> Option<Placing>
        ensures { option_map heads_of result ≡ first_placing_of (fitting self.now) self.now.tracks 8 }
    {
        if self.has_idle_track() {
            return None;
        }
        let mut search = Search {
            fits: self,
            placing: Placing {
                tracks: self.tracks(),
                heads: [0; MOST_TRACKS],
            },
            hopeless: [false; 256],
        };
        search.place(0, HeadSet::ALL)?;
        Some(search.placing)
    }
}
