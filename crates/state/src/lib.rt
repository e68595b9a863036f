// States and the value of a diagram in one. What they are stands in specs/.
#![tactic(auto)]

use label::Label;

// Valuations of one value call at most.
pub const VALUATIONS: u64 = 1000000;
// Words of a row of facts: its predicate, and an object for each place.
pub const FACT_WORDS: usize = (Label::PLACES as usize) + 1;
