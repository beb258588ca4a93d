// What a table of fits is made from.
ghost use Rattle.std.specs.Prelude.{ℕ, Bool};

/// Says of a track and a head whether the head fits the track.
pub trait Witness {
    // what holds of a track, a head and the answer about them
    ghost Says: { Self → ℕ → ℕ → Bool → Type 0 };

    /// Does the head fit the track?
    fn fits(&self, track: usize, head: usize) -> bool
        ensures { Says self.now track head result };
}
