// The listing of a recorded run against a sheet.
#![tactic(auto)]

pub mod report;
mod reporting;
