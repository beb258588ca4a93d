// The station: it watches a line for the signatures of a sheet, however the heads are plugged in.
#![tactic(auto)]

pub mod call;
pub mod making;
mod recheck;
pub mod refusal;
pub mod replay;
pub mod station;
mod tail;
pub mod verdict;
