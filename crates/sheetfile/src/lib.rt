// The sheet file: its fields, its limits, and what can be wrong with it.
#![tactic(auto)]

pub mod fault;
pub mod field;
pub mod limits;
