// A plug order: which socket each head of a line goes into.
ghost use Rattle.std.specs.Prelude.{◌≡◌, ℕ, ◌<◌, ◌≤◌, slice_index};
ghost use Rattle.sheetfile.specs.Limits.{most_heads};

use sheetfile::limits::MOST_HEADS;

mod plugging;

pub use plugging::NotFull;

// Head h goes into the socket of head `to[h]`, no two into one; `from` takes it back. Arrays and not `Vec`s: one is tried
// for each of up to 8 ^ 8 lists, and `new` has no memory to ask for.
#[derive(Clone, Copy)]
pub struct Order {
    heads: usize,
    to: [usize; MOST_HEADS],
    from: [usize; MOST_HEADS],
    ghost few: { heads ≤ most_heads },
    ghost to_below: { (h : ℕ) → h < heads → slice_index to h < heads },
    ghost from_below: { (h : ℕ) → h < heads → slice_index from h < heads },
    ghost back: { (h : ℕ) → h < heads → slice_index from (slice_index to h) ≡ h },
    ghost forth: { (h : ℕ) → h < heads → slice_index to (slice_index from h) ≡ h },
}
