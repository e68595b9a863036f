// Limits of listings and of calls on them. What a diagram is stands in specs/.
#![tactic(auto)]

// Rows of a listing at most.
pub const ROWS: usize = 1024;
// Rows of a working space.
pub const SPACE_ROWS: usize = 2048;
// Pairs of one combination at most.
pub const PAIRS: usize = 4096;
// A leaf's value at most.
pub const VALUE: u64 = 1000000000000000000;
// Words of a result buffer and of a working space at least.
pub const RESULT_WORDS: usize = 3072;

pub const SPACE_WORDS: usize = 6144;
