// The limits of a sheet, each named once; specs/Limits.antt has the same.

// heads of a line
pub const MOST_HEADS: usize = 8;

// signatures of a sheet
pub const MOST_SIGNATURES: usize = 12;

// frames of a signature
pub const LEAST_FRAMES: usize = 1;

pub const MOST_FRAMES: usize = 64;

// tests of a sheet: each signature with as many tracks and frames as there may be
pub const MOST_TESTS: usize = MOST_SIGNATURES * MOST_HEADS * MOST_FRAMES;
