// The kinds of lines and their shapes. What a line is stands in specs/.
#![tactic(auto)]

use forms::Sort;

// The kinds of lines, and a line that is none.
#[derive(Clone, Copy)]
pub enum Kind {
    Constant,
    Predicate,
    Total,
    Discount,
    Reward,
    Action,
    Variant,
    Becomes,
    Start,
    Objects,
    Is,
    True,
    Value,
    Backup,
    Cut,
    Show,
    Reduce,
    Text,
    Best,
    Count,
    Did,
    Bad,
}

// The shapes of what stands behind a key word: nothing, one word, two words, a name and words, two names and words,
// a diagram, a name and a diagram, (p ?a ..) and a diagram; and the shape of no line.
#[derive(Clone, Copy)]
pub enum Shape {
    Nothing,
    One(Sort),
    Two(Sort, Sort),
    Listed(Sort),
    Paired(Sort),
    Drawn,
    Named,
    Headed,
    Never,
}
