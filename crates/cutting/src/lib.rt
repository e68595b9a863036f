// Cuts: an edge whose paths are all covered elsewhere goes to leaf 0. What they are stands in specs/.
#![tactic(auto)]

use refusal::Refusal;

// The side of a row on which an edge leaves it.
#[derive(Clone, Copy)]
pub enum Edge {
    True,
    False,
}

// What a cut answers: the row and edge that went and how many rows are left, or why none did.
#[derive(Clone, Copy)]
pub enum Cut {
    Done(usize, Edge, usize),
    Refused(Refusal),
}
