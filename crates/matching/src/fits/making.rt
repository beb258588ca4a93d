// Tables of fits, made of rows or as a witness says.
ghost use Rattle.std.specs.Prelude.{length, ◌≤◌, MatchBool, MatchOption};
ghost use Rattle.matching.specs.Limits.{most_tracks, most_heads};
ghost use Rattle.matching.specs.Members.{Members};
ghost use Rattle.matching.specs.Meaning.{Within, Made, AsSaid};

use super::{Fits, MOST_HEADS, MOST_TRACKS, Witness};
use crate::set::HeadSet;

impl Fits {
    /// The fits of `rows.len()` tracks on `heads` heads: bit h of `rows[t]` is set if head h fits track t.
    /// `None` if there are more than eight of either, or a row names a head that is not there.
    pub fn new(heads: usize, rows: &[u8]) -> Option<Fits>
        ensures { MatchOption result (Within heads rows.now → ⊥) (Made heads rows.now) }
    {
        if !is_table(heads, rows) {
            return None;
        }
        let mut own = [0; MOST_TRACKS];
        own[..rows.len()].copy_from_slice(rows);
        Some(Fits {
            tracks: rows.len(),
            heads,
            rows: own,
        })
    }

    /// The fits of `tracks` tracks on `heads` heads: a head fits a track where the witness says so.
    /// `None` if there are more than eight of either.
    pub fn of<W: Witness>(tracks: usize, heads: usize, witness: &W) -> Option<Fits>
        ensures { MatchOption result (tracks ≤ most_tracks → heads ≤ most_heads → ⊥) (AsSaid (W.Says witness.now) tracks heads) }
    {
        if tracks > MOST_TRACKS || heads > MOST_HEADS {
            return None;
        }
        let mut rows = [0; MOST_TRACKS];
        for (track, row) in rows[..tracks].iter_mut().enumerate() {
            *row = heads_said(track, heads, witness).number();
        }
        Some(Fits {
            tracks,
            heads,
            rows,
        })
    }
}

// Are there at most eight of either, and no row that names a head that is not there?
fn is_table(heads: usize, rows: &[u8]) -> bool
    ensures { MatchBool result (Within heads rows.now) (Within heads rows.now → ⊥) }
{
    heads <= MOST_HEADS
        && rows.len() <= MOST_TRACKS
        && rows.iter().all(|row| u32::from(*row) < 1 << heads)
}

// The set of the heads that fit the track. The bound on the heads is asked by the one caller, which has tried it.
// A loop, since a filter's items are named by a test, and what a witness says is told head by head.
fn heads_said<W: Witness>(track: usize, heads: usize, witness: &W) -> HeadSet
    requires { heads ≤ most_heads }
    ensures { Members (W.Says witness.now track) heads result.number }
{
    let mut set = HeadSet::EMPTY;
    for head in 0..heads {
        if witness.fits(track, head) {
            set.insert(head);
        }
    }
    set
}
