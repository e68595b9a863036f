// A model in lent words: its numbers, its listings one after another, and a table of where they stand. Crate restoring tests words for one.
#![tactic(auto)]

// A model's numbers. The reward's listing has `reward_words` words from `reward_start` on; `words` is how many words the listings have in all.
#[derive(Clone, Copy)]
pub struct Head {
    pub total: u64,
    pub numerator: u64,
    pub denominator: u64,
    pub reward_start: usize,
    pub reward_words: usize,
    pub actions: usize,
    pub words: usize,
}

// W and D, at most.
pub const TOTAL: u64 = 1000000;

pub const DENOMINATOR: u64 = 1000000;

// Actions of a model, and variants of an action, at most.
pub const ACTIONS: usize = 8;

pub const VARIANTS: usize = 8;

// Words of all listings of a model: 2,048 rows.
pub const LISTING_WORDS: usize = 6144;

// Words of a variant in the table: where its weight begins, the weight's words, then for each predicate the same of its truth diagram.
pub const VARIANT_WORDS: usize = 66;

// Words of an action in the table: its parameters, its variants, then room for its variants.
pub const ACTION_WORDS: usize = 530;

// Words of the table.
pub const TABLE_WORDS: usize = 4240;
