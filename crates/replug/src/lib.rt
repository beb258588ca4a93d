// The same line plugged in another order.
#![tactic(auto)]

pub mod order;
mod plugs;
pub mod showing;
pub mod text;
pub mod trouble;
pub mod twins;
