// Making plug orders, and moving frames by them.
ghost use Rattle.std.specs.Prelude.{◌≡◌, ℕ, ◌<◌, ◌≤◌, length, Some, MatchOption, codes, slice_index};
ghost use Rattle.std.specs.List.{slice_get};
ghost use Rattle.matching.specs.Renaming.{Permutes};
ghost use Rattle.sheetfile.specs.Limits.{most_heads};
ghost use Rattle.replug.specs.Orders.{socket, Inverts, SomeFree, TakenBack, Plugged};

use super::Order;
use sheetfile::limits::MOST_HEADS;
use std::error::Error;
use std::fmt;

// A frame, or the place for it, is not as long as the line has heads.
#[derive(Clone, Copy, PartialEq, Eq, Debug)]
pub struct NotFull;

impl fmt::Display for NotFull {
    ghost output = { λ _. Some (codes "not as many readings as heads") };

    fn fmt<W: fmt::Write>(&self, f: &mut fmt::Formatter<W>) -> fmt::Result {
        write!(f, "not as many readings as heads")
    }
}

impl Error for NotFull {}

// For each socket the first head that goes into it; none where some socket stays free.
fn inverse(to: &[usize]) -> Option<[usize; MOST_HEADS]>
    requires { length to.now ≤ most_heads }
    ensures { MatchOption result (SomeFree to.now) (λ from. Inverts to.now from) }
{
    let mut from = [0; MOST_HEADS];
    for (socket, head) in from[..to.len()].iter_mut().enumerate() {
        *head = to.iter().position(|plug| *plug == socket)?;
    }
    Some(from)
}

// Whether each head goes into a socket for which `from` has just that head.
fn is_inverse(to: &[usize], from: &[usize]) -> bool
    requires { length to.now ≤ length from.now }
    ensures { TakenBack to.now from.now result }
{
    to.iter().enumerate().all(|(head, plug)| *plug < to.len()
        && from.get(*plug).copied() == Some(head))
}

// The list, with places for all heads that a line may have.
fn padded(list: &[usize]) -> [usize; MOST_HEADS]
    requires { length list.now ≤ most_heads }
    ensures { (h : ℕ) → h < length list.now → slice_index result h ≡ slice_index list.now h }
{
    let mut places = [0; MOST_HEADS];
    places[..list.len()].copy_from_slice(list);
    places
}

// Writes at each socket the reading of the head that goes into it. No `zip`: after one with `iter_mut` a proof knows no
// more of `plugged` than its length.
fn move_readings<R: Copy>(from: &[usize], frame: &[R], plugged: &mut [R])
    requires long { length plugged.old ≤ length from.now }
    requires below { (x : ℕ) → x < length plugged.old → slice_index from.now x < length frame.now }
    ensures { (x : ℕ) → x < length plugged.old → slice_get plugged.new x ≡ slice_get frame.now (socket from.now x) }
{
    for (socket, place) in plugged.iter_mut().enumerate() {
        *place = frame[from[socket]];
    }
}

impl Order {
    // The order in which head h goes into socket `plugs[h]`; none where a head or a socket is left out, or for more heads
    // than a line may have.
    pub fn new(plugs: &[usize]) -> Option<Order>
        ensures { MatchOption result (length plugs.now ≤ most_heads → (from : ℕ → ℕ) → Permutes (length plugs.now) (socket plugs.now) from → ⊥) (λ o. (o.heads ≡ length plugs.now) × ((h : ℕ) → h < o.heads → socket o.to h ≡ socket plugs.now h)) }
    {
        if plugs.len() > MOST_HEADS {
            return None;
        }
        let from = inverse(plugs)?;
        if !is_inverse(plugs, &from) {
            return None;
        }
        Some(Order {
            heads: plugs.len(),
            to: padded(plugs),
            from,
        })
    }

    pub fn heads(&self) -> usize
        ensures { result ≡ self.now.heads }
    {
        self.heads
    }

    // Moves a full frame: the reading of each head is written at its socket, or nothing where frame and place for it are
    // not as long as the line has heads.
    pub fn plug<R: Copy>(&self, frame: &[R], plugged: &mut [R]) -> Result<(), NotFull>
        ensures { Plugged self.now frame.now plugged.old result plugged.new }
    {
        if frame.len() != self.heads || plugged.len() != self.heads {
            return Err(NotFull);
        }
        move_readings(&self.from, frame, plugged);
        Ok(())
    }
}
