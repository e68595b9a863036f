// The answers of a text. What they are as bytes stands in specs/.
#![tactic(auto)]

use cutting::Edge;
use refusal::Refusal;
use words::Key;

// The bytes of any answer at most: a line for each of 1,024 rows.
pub const MOST_BYTES: usize = 92160;

// What a line of a text is answered: value, k and S^k; k and rows; the cut row, its edge and the rows left; the rows a reduction leaves; the refusal and
// the line's number; the rows of the value's listing to be shown; the bytes of the value's form; the action of the best move, how many objects it has, and
// these; the objects of the states that were counted, and the lines of their spread; how many moves were done, and the total of their rewards; or nothing.
#[derive(Clone, Copy)]
pub enum Answer {
    Value(u64, u64, u64),
    Backup(u64, usize),
    Cut(usize, Edge, usize),
    Reduce(usize),
    Refused(Refusal, u64),
    Show(usize),
    Text(usize),
    Best(Key, usize, u8, u8, u8, u8),
    Count(u64, usize),
    Did(u64, u64),
    Nothing,
}
