// The run file: frames and gaps, one field after another.
#![tactic(auto)]

pub mod field;
pub mod frame;
