// Placings of tracks on heads.
ghost use Rattle.std.specs.Prelude.{◌≡◌, ℕ, ◌≤◌, slice_index};
ghost use Rattle.matching.specs.Limits.{most_tracks};

mod methods;
mod search;

use crate::fits::MOST_TRACKS;

/// A head for each of the tracks 0 to M - 1.
// In fixed memory and `Copy`: an array with a number beside it, since the library has no heap.
#[derive(Clone, Copy, Debug, PartialEq, Eq)]
pub struct Placing {
    tracks: usize,
    heads: [u8; MOST_TRACKS],
    ghost few_tracks: { tracks ≤ most_tracks },
    ghost unused: { (t : ℕ) → tracks ≤ t → slice_index heads t ≡ 0 },
}
