// Combination of two diagrams: sum, product and max, with names apart or shared. What it is stands in specs/.
#![tactic(auto)]

use refusal::Refusal;

#[derive(Clone, Copy)]
pub enum Operation {
    Sum,
    Product,
    Max,
}

// Whether the operands' variables are kept apart. A max asked for with shared names is done apart where an operand has a minimum variable.
#[derive(Clone, Copy)]
pub enum Names {
    Apart,
    Shared,
}

// What a call answers: the result's rows and the pairs that the walk reached, or why it is refused.
#[derive(Clone, Copy)]
pub enum Combined {
    Done(usize, usize),
    Refused(Refusal),
}
