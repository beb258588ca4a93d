// Kinds of reading: what a head reads, how a sheet tests it, and how both are written as bytes.
#![tactic(auto)]

pub mod band;
pub mod buffer;
pub mod climate;
pub mod kind;
pub mod known;
pub mod scale;
pub mod span;
