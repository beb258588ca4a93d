//! Can these tracks stand on different heads? With the first placing if so, and with the least short set of tracks if not.
//!
//! `Fits` says which head fits which track, and `Fits::outcome` answers. There is no allocation, and no call asks anything of its caller.
#![tactic(auto)]

mod fits;
mod outcome;
mod placing;
mod set;
mod short;
mod theorems;

pub use fits::{Fits, MOST_HEADS, MOST_TRACKS, Witness};
pub use outcome::Outcome;
pub use placing::Placing;
pub use set::TrackSet;
pub use theorems::theorems_hold;
