// The row step in a working space. What it is stands in regression.
// A step answers the result's row and the rows then; or why it is refused, and the rows then.
#![tactic(auto)]

ghost use Rattle.std.specs.Prelude.{◌≡◌, ◌-◌, ◌<◌};
ghost use Rattle.label.specs.Limits.{leaf_mark};
ghost use Rattle.diagram.specs.Diagram.{leaf, branch};
ghost use Rattle.diagram.specs.Rows.{onto};
ghost use Rattle.diagram.specs.Validity.{tree};
ghost use Rattle.store.specs.Space.{diagrams_of, Holds, Formation};
ghost use Rattle.regression.specs.Calls.{combine};
ghost use Rattle.regression.specs.Step.{test_diagram, row_step, exchanged};
ghost use Rattle.row_steps.specs.Running.{Ready, Two, Three, Four, split_step, told_as, Ran, is_crowded, Notable, noted_for, Exchangeable, Exchanged, Testable, test_leaves};

use apply::Operation;
use combine::Joined;
use label::{Label, Test};
use refusal::Refusal;
use table::Row;

// Whether a step was refused for pairs.
pub fn is_crowded(r: Result<(usize, usize), (Refusal, usize)>) -> bool
    ensures { result ≡ is_crowded r }
{
    matches!(r, Err((Refusal::Pairs, _)))
}

// What a combination in a space of `count` rows says as a step.
fn told(r: Joined, count: usize) -> Result<(usize, usize), (Refusal, usize)>
    ensures { result ≡ told_as count r }
{
    match r {
        Joined::At(row, rows, _) => Ok((row, rows)),
        Joined::TooManyPairs => Err((Refusal::Pairs, count)),
        Joined::TooHighValue => Err((Refusal::Value, count)),
        Joined::NoRoom => Err((Refusal::Space, diagram::SPACE_ROWS)),
    }
}

// Combines two rows, names shared.
fn join(
    plan: &mut [u64],
    index: &mut [u16],
    limit: usize,
    i: usize,
    j: usize,
    op: Operation,
    space: &mut [u64],
    heads: &mut [u16],
    links: &mut [u16],
    count: usize,
) -> Result<(usize, usize), (Refusal, usize)>
    requires ready { Ready plan.old index.old limit space.old heads.old links.old count }
    requires two { Two count i j }
    ensures { Ran limit (combine op (tree space.old i) (tree space.old j)) space.old count result space.new heads.new links.new index.new }
{
    told(
        combine::join_rows(plan, index, limit, i, j, op, space, heads, links, count),
        count,
    )
}

// Forms a branch of two leaves.
fn form_pair(
    space: &mut [u64],
    heads: &mut [u16],
    links: &mut [u16],
    count: usize,
    label: u64,
    high: u64,
    low: u64,
) -> Option<(usize, usize)>
    requires holds { Holds space.old heads.old links.old count }
    requires label_lt_leaf_mark { label < leaf_mark }
    ensures { Formation (branch label (leaf high) (leaf low)) (onto (branch label (leaf high) (leaf low)) (diagrams_of space.old count)) result space.new heads.new links.new }
{
    let (t, n) = store::leaf(space, heads, links, count, high)?;
    let (f, m) = store::leaf(space, heads, links, n, low)?;
    store::form(
        space,
        heads,
        links,
        m,
        Row {
            label,
            high: t as u64,
            low: f as u64,
        },
    )
}

// 1 - v.
fn flipped(v: u64) -> u64
    ensures { result ≡ 1 - v }
{
    u64::from(v == 0)
}

// Notes the row that was formed for row i.
fn note(memo: &mut [u16], i: usize, r: Option<(usize, usize)>) -> Option<(usize, usize)>
    requires { Notable memo.old i r }
    ensures value { result ≡ r }
    ensures memo_after { memo.new ≡ noted_for i r memo.old }
{
    if let Some((j, _)) = r {
        memo[i] = (j + 1) as u16;
    }
    r
}

// Forms the rows of 1 - T for row i, and notes the row of each.
fn exchange(
    space: &mut [u64],
    heads: &mut [u16],
    links: &mut [u16],
    memo: &mut [u16],
    count: usize,
    i: usize,
) -> Option<(usize, usize)>
    requires { Exchangeable space.old heads.old links.old memo.old count i }
    ensures { Exchanged space.old count i result space.new heads.new links.new memo.new }
{
    let known = basics::wide(memo[i]);
    if known != 0 {
        return Some((known - 1, count));
    }
    let row = table::row_at(space, i);
    if row.label == Label::LEAF {
        let r = store::leaf(space, heads, links, count, flipped(row.high));
        return note(memo, i, r);
    }
    let (high, n) = exchange(space, heads, links, memo, count, row.high as usize)?;
    let (low, m) = exchange(space, heads, links, memo, n, row.low as usize)?;
    let r = store::form(
        space,
        heads,
        links,
        m,
        Row {
            label: row.label,
            high: high as u64,
            low: low as u64,
        },
    );
    note(memo, i, r)
}

// Forms 1 - T for the row `test`.
fn one_minus(
    space: &mut [u64],
    heads: &mut [u16],
    links: &mut [u16],
    count: usize,
    test: usize,
) -> Option<(usize, usize)>
    requires holds { Holds space.old heads.old links.old count }
    requires test_lt_count { test < count }
    ensures { Formation (exchanged (tree space.old test)) (onto (exchanged (tree space.old test)) (diagrams_of space.old count)) result space.new heads.new links.new }
{
    let mut memo = [0u16; diagram::SPACE_ROWS];
    exchange(space, heads, links, &mut memo, count, test)
}

// The rest of a row step, T being the row `test` and 1 - T the row `other`: left product, right product, then sum.
fn split_step(
    plan: &mut [u64],
    index: &mut [u16],
    limit: usize,
    space: &mut [u64],
    heads: &mut [u16],
    links: &mut [u16],
    count: usize,
    test: usize,
    other: usize,
    high: usize,
    low: usize,
) -> Result<(usize, usize), (Refusal, usize)>
    requires ready { Ready plan.old index.old limit space.old heads.old links.old count }
    requires four { Four count test other high low }
    ensures { Ran limit (split_step (tree space.old test) (tree space.old other) (tree space.old high) (tree space.old low)) space.old count result space.new heads.new links.new index.new }
{
    let (left, m) = join(
        plan,
        index,
        limit,
        test,
        high,
        Operation::Product,
        space,
        heads,
        links,
        count,
    )?;
    let (right, k) = join(
        plan,
        index,
        limit,
        other,
        low,
        Operation::Product,
        space,
        heads,
        links,
        m,
    )?;
    join(
        plan,
        index,
        limit,
        left,
        right,
        Operation::Sum,
        space,
        heads,
        links,
        k,
    )
}

// The row step, T being the row `test`: 1 - T, left product, right product, then sum.
pub fn row_step(
    plan: &mut [u64],
    index: &mut [u16],
    limit: usize,
    space: &mut [u64],
    heads: &mut [u16],
    links: &mut [u16],
    count: usize,
    test: usize,
    high: usize,
    low: usize,
) -> Result<(usize, usize), (Refusal, usize)>
    requires ready { Ready plan.old index.old limit space.old heads.old links.old count }
    requires three { Three count test high low }
    ensures { Ran limit (row_step (tree space.old test) (tree space.old high) (tree space.old low)) space.old count result space.new heads.new links.new index.new }
{
    let (other, n) = one_minus(space, heads, links, count, test).ok_or((
        Refusal::Space,
        diagram::SPACE_ROWS,
    ))?;
    split_step(
        plan, index, limit, space, heads, links, n, test, other, high, low,
    )
}

// Forms the row of what is asked with two leaves, or the first of them where it is t = t.
fn form_leaves(
    space: &mut [u64],
    heads: &mut [u16],
    links: &mut [u16],
    count: usize,
    test: Test,
    high: u64,
    low: u64,
) -> Option<(usize, usize)>
    requires holds { Holds space.old heads.old links.old count }
    requires testable { Testable test }
    ensures { Formation (test_leaves test high low) (onto (test_leaves test high low) (diagrams_of space.old count)) result space.new heads.new links.new }
{
    match test {
        Test::Always => store::leaf(space, heads, links, count, high),
        Test::Is(l) => form_pair(space, heads, links, count, l.packed, high, low),
    }
}

// Forms the one-row test of what is asked, or leaf 1 where it is t = t.
pub fn form_test(
    space: &mut [u64],
    heads: &mut [u16],
    links: &mut [u16],
    count: usize,
    test: Test,
) -> Option<(usize, usize)>
    requires holds { Holds space.old heads.old links.old count }
    requires testable { Testable test }
    ensures { Formation (test_diagram test) (onto (test_diagram test) (diagrams_of space.old count)) result space.new heads.new links.new }
{
    form_leaves(space, heads, links, count, test, 1, 0)
}

// Forms 1 - T for the test of what is asked.
fn form_other(
    space: &mut [u64],
    heads: &mut [u16],
    links: &mut [u16],
    count: usize,
    test: Test,
) -> Option<(usize, usize)>
    requires holds { Holds space.old heads.old links.old count }
    requires testable { Testable test }
    ensures { Formation (exchanged (test_diagram test)) (onto (exchanged (test_diagram test)) (diagrams_of space.old count)) result space.new heads.new links.new }
{
    form_leaves(space, heads, links, count, test, 0, 1)
}

// The row step, T being the test of what is asked.
pub fn test_step(
    plan: &mut [u64],
    index: &mut [u16],
    limit: usize,
    space: &mut [u64],
    heads: &mut [u16],
    links: &mut [u16],
    count: usize,
    test: Test,
    high: usize,
    low: usize,
) -> Result<(usize, usize), (Refusal, usize)>
    requires ready { Ready plan.old index.old limit space.old heads.old links.old count }
    requires testable { Testable test }
    requires two { Two count high low }
    ensures { Ran limit (row_step (test_diagram test) (tree space.old high) (tree space.old low)) space.old count result space.new heads.new links.new index.new }
{
    let (t, n) = form_test(space, heads, links, count, test).ok_or((
        Refusal::Space,
        diagram::SPACE_ROWS,
    ))?;
    let (other, m) = form_other(space, heads, links, n, test).ok_or((
        Refusal::Space,
        diagram::SPACE_ROWS,
    ))?;
    split_step(
        plan, index, limit, space, heads, links, m, t, other, high, low,
    )
}
