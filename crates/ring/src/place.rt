// Places in a round of `capacity` slots.
ghost use Rattle.std.specs.Prelude.{◌≡◌, ◌+◌, ◌-◌, ◌<◌, ◌≤◌};

// The place after a place.
pub(crate) fn place_after(at: usize, capacity: usize) -> usize
    requires { at < capacity }
    ensures on { at + 1 < capacity → result ≡ at + 1 }
    ensures round { at + 1 ≡ capacity → result ≡ 0 }
{
    if at + 1 == capacity { 0 } else { at + 1 }
}

// The place q back from the one before `next`.
pub(crate) fn place_back(next: usize, capacity: usize, q: usize) -> usize
    requires { q < capacity }
    ensures near { q < next → result ≡ next - 1 - q }
    ensures far { next ≤ q → result ≡ capacity - 1 - (q - next) }
{
    if q < next {
        next - 1 - q
    } else {
        capacity - 1 - (q - next)
    }
}
