// Combination of two diagrams in a working space: their pairs walked, the plan's ends checked, its rows formed.
#![tactic(auto)]

ghost use Rattle.std.specs.Prelude.{◌≡◌, ℕ, ◌+◌, ◌*◌, ◌<◌, ◌≤◌, length, ltb};
ghost use Rattle.diagram.specs.Sizes.{highest_value};
ghost use Rattle.apply.specs.Combination.{operate};
ghost use Rattle.combine.specs.Results.{exceeds_at, exceeds, results, Sound, SoundAt};
ghost use Rattle.diagram.specs.Validity.{tree};
ghost use Rattle.apply.specs.Formed.{add};
ghost use Rattle.combine.specs.Paired.{Pairable, PairedUp};
ghost use Rattle.combine.specs.Joining.{Joint, FormedAll};
ghost use Rattle.plan.specs.Plan.{pair_label_at, first_at, second_at};
ghost use Rattle.store.specs.Space.{diagrams_of, Holds, Formation, add_all};
ghost use Rattle.combine.specs.Callers.{Values, Calm, EntryOf};
ghost use Rattle.combine.specs.Forming.{entry_at, FormableAt, Formable, last_of};

use apply::Operation;
use label::Label;

// Pairs that a call first makes room for, which suffices for most: clearing room for all costs more than the walk of few. The words of a plan of so many pairs,
// and of one with room for all.
pub const FEW: usize = 320;

pub const FEW_WORDS: usize = FEW * plan::ENTRY_WORDS;

pub const PLAN_WORDS: usize = diagram::PAIRS * plan::ENTRY_WORDS;

// Both factors up to this have a product of at most 10^18.
const SMALL: u64 = 1000000000;

// Whether the product of two values is above 10^18.
fn product_too_high(v: u64, w: u64) -> bool
    requires { Values v w }
    ensures { result ≡ ltb highest_value (v * w) }
{
    if v <= SMALL && w <= SMALL {
        return false;
    }
    v != 0 && w > diagram::VALUE / v
}

// Whether the result of two leaves is above 10^18.
fn too_high(op: Operation, v: u64, w: u64) -> bool
    requires { Values v w }
    ensures { result ≡ ltb highest_value (operate op v w) }
{
    match op {
        Operation::Sum => v + w > diagram::VALUE,
        Operation::Product => product_too_high(v, w),
        Operation::Max => false,
    }
}

// The result of two leaves, which is not above 10^18.
fn result(op: Operation, v: u64, w: u64) -> u64
    requires { Calm op v w }
    ensures { result ≡ operate op v w }
{
    match op {
        Operation::Sum => v + w,
        Operation::Product => v * w,
        Operation::Max => v.max(w),
    }
}

// Whether entry k of the plan is an end whose result is above 10^18.
fn too_high_at(plan: &[u64], n: usize, k: usize, op: Operation) -> bool
    requires { SoundAt plan.now n k }
    ensures { result ≡ exceeds_at (operate op) plan.now k }
{
    plan[k * 5 + 2] == Label::LEAF && too_high(op, plan[k * 5 + 3], plan[k * 5 + 4])
}

// Whether an end among the first n pairs of the plan has a result above 10^18.
fn overflow(plan: &[u64], n: usize, op: Operation) -> bool
    requires { Sound plan.now n }
    ensures { result ≡ exceeds (operate op) plan.now n }
{
    for k in 0..n {
        if too_high_at(plan, n, k, op) {
            return true;
        }
    }
    false
}

// The words of entry k of a plan of n entries: its label; its first and its second successor or value.
fn label_at(plan: &[u64], n: usize, k: usize) -> u64
    requires { EntryOf plan.now n k }
    ensures { result ≡ pair_label_at plan.now k }
{
    plan[k * 5 + 2]
}

fn first_at(plan: &[u64], n: usize, k: usize) -> u64
    requires { EntryOf plan.now n k }
    ensures { result ≡ first_at plan.now k }
{
    plan[k * 5 + 3]
}

fn second_at(plan: &[u64], n: usize, k: usize) -> u64
    requires { EntryOf plan.now n k }
    ensures { result ≡ second_at plan.now k }
{
    plan[k * 5 + 4]
}

// Forms the row of entry k of the plan; the last word of each earlier entry is the number of its row.
fn form_at(
    plan: &[u64],
    n: usize,
    k: usize,
    op: Operation,
    space: &mut [u64],
    heads: &mut [u16],
    links: &mut [u16],
    count: usize,
) -> Option<(usize, usize)>
    requires formable_at { FormableAt op plan.now n k count }
    requires holds { Holds space.old heads.old links.old count }
    ensures { Formation (entry_at op plan.now space.old k) (add (entry_at op plan.now space.old k) (diagrams_of space.old count)) result space.new heads.new links.new }
{
    let label = label_at(plan, n, k);
    let first = first_at(plan, n, k);
    let second = second_at(plan, n, k);
    if label == Label::LEAF {
        return store::leaf(space, heads, links, count, result(op, first, second));
    }
    let high = second_at(plan, n, first as usize) as usize;
    let low = second_at(plan, n, second as usize) as usize;
    store::branch(space, heads, links, count, label, high, low)
}

// Forms the rows of the first n entries of the plan, one after another: the last one's row, and the rows in the space then. The plan's last words are overwritten.
fn form(
    plan: &mut [u64],
    n: usize,
    op: Operation,
    space: &mut [u64],
    heads: &mut [u16],
    links: &mut [u16],
    count: usize,
) -> Option<(usize, usize)>
    requires formable { Formable op plan.old n }
    requires holds { Holds space.old heads.old links.old count }
    ensures { Formation (last_of (results (operate op) plan.old n)) (add_all (diagrams_of space.old count) (results (operate op) plan.old n)) result space.new heads.new links.new }
{
    let mut rows = count;
    let mut last = 0;
    for k in 0..n {
        let (row, then) = form_at(plan, n, k, op, space, heads, links, rows)?;
        plan[k * 5 + 4] = row as u64;
        (last, rows) = (row, then);
    }
    Some((last, rows))
}

// What pairing up answers: the pairs of the plan, that they are too many, or that a pair of leaves has a result above 10^18.
#[derive(Clone, Copy)]
pub enum Paired {
    Pairs(usize),
    TooMany,
    TooHigh,
}

// Walks the pairs of row i of x and row j of y, writes their plan, and checks its leaves. The index is clean before and after.
fn pair_up(
    x: &[u64],
    y: &[u64],
    plan: &mut [u64],
    index: &mut [u16],
    limit: usize,
    i: usize,
    j: usize,
    op: Operation,
) -> Paired
    requires { Pairable x.now y.now plan.old index.old limit i j }
    ensures { PairedUp op limit (tree x.now i) (tree y.now j) result plan.new index.new }
{
    let Some((_, n)) = plan::walk(x, y, plan, index, limit, i, j, op) else {
        plan::clear(plan, index, limit);
        return Paired::TooMany;
    };
    plan::clear(plan, index, n);
    if overflow(plan, n, op) {
        Paired::TooHigh
    } else {
        Paired::Pairs(n)
    }
}

// What one combination in a working space answers: the result's row, the rows in the space then and the pairs; or why there is none.
#[derive(Clone, Copy)]
pub enum Joined {
    At(usize, usize, usize),
    TooManyPairs,
    TooHighValue,
    NoRoom,
}

// Combines the last rows of two listings; the rows formed go behind those of the working space.
pub fn join_listings(
    x: &[u64],
    y: &[u64],
    plan: &mut [u64],
    index: &mut [u16],
    limit: usize,
    i: usize,
    j: usize,
    op: Operation,
    space: &mut [u64],
    heads: &mut [u16],
    links: &mut [u16],
    count: usize,
) -> Joined
    requires pairable { Pairable x.now y.now plan.old index.old limit i j }
    requires holds { Holds space.old heads.old links.old count }
    ensures { Joint op limit (tree x.now i) (tree y.now j) space.old count result space.new heads.new links.new index.new }
{
    match pair_up(x, y, plan, index, limit, i, j, op) {
        Paired::Pairs(n) => formed(plan, n, op, space, heads, links, count),
        Paired::TooMany => Joined::TooManyPairs,
        Paired::TooHigh => Joined::TooHighValue,
    }
}

// Combines two rows of the working space.
pub fn join_rows(
    plan: &mut [u64],
    index: &mut [u16],
    limit: usize,
    i: usize,
    j: usize,
    op: Operation,
    space: &mut [u64],
    heads: &mut [u16],
    links: &mut [u16],
    count: usize,
) -> Joined
    requires pairable { Pairable space.old space.old plan.old index.old limit i j }
    requires holds { Holds space.old heads.old links.old count }
    ensures { Joint op limit (tree space.old i) (tree space.old j) space.old count result space.new heads.new links.new index.new }
{
    match pair_up(space, space, plan, index, limit, i, j, op) {
        Paired::Pairs(n) => formed(plan, n, op, space, heads, links, count),
        Paired::TooMany => Joined::TooManyPairs,
        Paired::TooHigh => Joined::TooHighValue,
    }
}

// Forms the rows of a plan of n pairs.
fn formed(
    plan: &mut [u64],
    n: usize,
    op: Operation,
    space: &mut [u64],
    heads: &mut [u16],
    links: &mut [u16],
    count: usize,
) -> Joined
    requires formable { Formable op plan.old n }
    requires holds { Holds space.old heads.old links.old count }
    ensures { FormedAll op plan.old n space.old count result space.new heads.new links.new }
{
    match form(plan, n, op, space, heads, links, count) {
        Some((row, rows)) => Joined::At(row, rows, n),
        None => Joined::NoRoom,
    }
}
