// A sheet file in words: what it says, or what is wrong with it and where.
#![tactic(auto)]

mod file;
mod text;

pub use file::print_sheet;
pub use text::sheet_text;
