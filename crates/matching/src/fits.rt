// The table of fits.
ghost use Rattle.std.specs.Prelude.{◌≡◌, ℕ, ◌^◌, ◌<◌, ◌≤◌, slice_index};
ghost use Rattle.matching.specs.Limits.{most_tracks, most_heads};

mod making;
mod methods;
mod witness;

pub use witness::Witness;

/// The most tracks that a table can have.
pub const MOST_TRACKS: usize = 8;

/// The most heads that a table can have.
pub const MOST_HEADS: usize = 8;

/// Which of the heads 0 to N - 1 fit which of the tracks 0 to M - 1.
// In fixed memory and `Copy`: arrays with a number beside them, since the library has no heap.
#[derive(Clone, Copy, Debug, PartialEq, Eq)]
pub struct Fits {
    tracks: usize,
    heads: usize,
    // for each track the number of the set of the heads that fit it
    rows: [u8; MOST_TRACKS],
    ghost few_tracks: { tracks ≤ most_tracks },
    ghost few_heads: { heads ≤ most_heads },
    ghost within: { (t : ℕ) → slice_index rows t < 2 ^ heads },
    ghost unused: { (t : ℕ) → tracks ≤ t → slice_index rows t ≡ 0 },
}
