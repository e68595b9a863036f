// The diagram that stands on a line: its words read into operations, and these built in one working space. What it is stands in specs/.
// An operation answers the tests and results on the stacks and the rows in the space then; or why it is refused, and the rows then.
#![tactic(auto)]

ghost use Rattle.std.specs.Prelude.{◌≡◌, ◌+◌, ◌*◌, ◌≤◌, length, drop};
ghost use Rattle.names.specs.Keys.{keys_at};
ghost use Rattle.events.specs.Front.{events_of};
ghost use Rattle.diagram.specs.Sizes.{space_words, most_pairs};
ghost use Rattle.diagram.specs.Validity.{tree};
ghost use Rattle.diagram.specs.Variables.{closed};
ghost use Rattle.combine.specs.Calls.{few};
ghost use Rattle.apart.specs.Results.{Writable};
ghost use Rattle.row_steps.specs.Running.{Ready, Ran};
ghost use Rattle.reading.specs.Operations.Op.{step};
ghost use Rattle.reading.specs.declared.Binding.TheVariants.{Any};
ghost use Rattle.reading.specs.Reading.{reading};
ghost use Rattle.reader.specs.OperationWords.{op_at, ops_in};
ghost use Rattle.reader.specs.Callers.{names_of, argument_count, Readable, Reads};
ghost use Rattle.build.specs.Build.{held};
ghost use Rattle.build.specs.Machine.{build, built, built_closed};
ghost use Rattle.drawing.specs.Stacks.{Ops, test_at, whole_ops, Stacked, machine_of, Moves};
ghost use Rattle.drawing.specs.Writing.{RowWritable, BuildAnswered, Callable, Under, Buildable, Labelled, Roomy, Builds};
ghost use Rattle.drawing.specs.Drawing.{drawn, drawn_closed, Drawable, Draws};
ghost use Rattle.drawing.specs.Endings.{built_to, known_to, Allows, drawn_to};

use apply::Combined;
use label::{Label, Test};
use reader::{Known, Scope};
use refusal::Refusal;

// Tests that are asked and not stepped yet, at most: a bracket is open for each.
const TESTS: usize = 64;

// Results that no step has taken yet, at most.
const RESULTS: usize = 65;

// Words of the stack of tests, and of the stack of results behind it.
const STACK_WORDS: usize = 129;

// The bytes of a short line, at most, and words for the operations of one: two for each byte.
const SHORT_LINE: usize = 255;

const SHORT_WORDS: usize = 510;

// Words for the operations of the longest line, of 4,095 bytes.
const LINE_WORDS: usize = 8190;

// How a diagram that is built ends: as it is, or closed up.
#[derive(Clone, Copy)]
enum Ending {
    Plain,
    Closed,
}

// What the operation k asks.
fn test_at(ops: &[u64], k: usize) -> Test
    requires { k * 2 + 2 ≤ length ops.now }
    ensures { result ≡ test_at ops.now k }
{
    if ops[k * 2] == 1 {
        return Test::Is(Label {
            packed: ops[k * 2 + 1],
        });
    }
    Test::Always
}

// Closes an (if ..): the row step of the latest test and the two latest results.
fn close(
    ops: &[u64],
    stack: &mut [u64],
    plan: &mut [u64],
    index: &mut [u16],
    limit: usize,
    space: &mut [u64],
    heads: &mut [u16],
    links: &mut [u16],
    tests: usize,
    results: usize,
    count: usize,
) -> Result<(usize, usize, usize), (Refusal, usize)>
    requires ops { Ops ops.now }
    requires stacked { Stacked ops.now stack.old tests results count }
    requires ready { Ready plan.old index.old limit space.old heads.old links.old count }
    ensures { Moves limit step (machine_of ops.now stack.old space.old tests results count) ops.now result stack.new space.new heads.new links.new index.new }
{
    if tests == 0 {
        return Err((Refusal::Form, count));
    }
    if results < 2 {
        return Err((Refusal::Form, count));
    }
    let test = test_at(ops, stack[tests - 1] as usize);
    let at = TESTS + (results - 2);
    let high = stack[at] as usize;
    let low = stack[at + 1] as usize;
    let (i, n) = row_steps::test_step(
        plan, index, limit, space, heads, links, count, test, high, low,
    )?;
    stack[at] = i as u64;
    Ok((tests - 1, results - 1, n))
}

// Runs the operation k.
fn run_op(
    ops: &[u64],
    k: usize,
    stack: &mut [u64],
    plan: &mut [u64],
    index: &mut [u16],
    limit: usize,
    space: &mut [u64],
    heads: &mut [u16],
    links: &mut [u16],
    tests: usize,
    results: usize,
    count: usize,
) -> Result<(usize, usize, usize), (Refusal, usize)>
    requires ops { Ops ops.now }
    requires k_in_bounds { k * 2 + 2 ≤ length ops.now }
    requires stacked { Stacked ops.now stack.old tests results count }
    requires ready { Ready plan.old index.old limit space.old heads.old links.old count }
    ensures { Moves limit (op_at ops.now k) (machine_of ops.now stack.old space.old tests results count) ops.now result stack.new space.new heads.new links.new index.new }
{
    let kind = ops[k * 2];
    if kind == 0 {
        if results >= RESULTS {
            return Err((Refusal::Form, count));
        }
        let (i, n) = store::leaf(space, heads, links, count, ops[k * 2 + 1]).ok_or((
            Refusal::Space,
            diagram::SPACE_ROWS,
        ))?;
        stack[TESTS + results] = i as u64;
        return Ok((tests, results + 1, n));
    }
    if kind >= 3 {
        return close(
            ops, stack, plan, index, limit, space, heads, links, tests, results, count,
        );
    }
    if tests >= TESTS {
        return Err((Refusal::Form, count));
    }
    stack[tests] = k as u64;
    Ok((tests + 1, results, count))
}

// Builds the diagram of the operations in an empty working space.
fn build_rows(
    ops: &[u64],
    plan: &mut [u64],
    index: &mut [u16],
    limit: usize,
    space: &mut [u64],
    heads: &mut [u16],
    links: &mut [u16],
) -> Result<(usize, usize), (Refusal, usize)>
    requires ops { Ops ops.now }
    requires ready { Ready plan.old index.old limit space.old heads.old links.old 0 }
    ensures { Ran limit (build (whole_ops ops.now)) space.old 0 result space.new heads.new links.new index.new }
{
    let mut stack = [0u64; STACK_WORDS];
    let mut tests = 0;
    let mut results = 0;
    let mut count = 0;
    for k in 0..ops.len() / 2 {
        (tests, results, count) = run_op(
            ops, k, &mut stack, plan, index, limit, space, heads, links, tests, results, count,
        )?;
    }
    if tests != 0 {
        return Err((Refusal::Form, count));
    }
    if results != 1 {
        return Err((Refusal::Form, count));
    }
    Ok((stack[TESTS] as usize, count))
}

// Writes the listing of the row `root`, unless it has too many rows.
fn write_row(space: &[u64], count: usize, root: usize, out: &mut [u64]) -> Result<usize, Refusal>
    requires { RowWritable space.now count root out.old }
    ensures { BuildAnswered (held (tree space.now root)) out.old result out.new }
{
    let mut marks = [0u16; diagram::SPACE_ROWS];
    let mut order = [0u16; diagram::SPACE_ROWS];
    write::write(space, count, root, &mut marks, &mut order, out).ok_or(Refusal::Space)
}

// Builds the diagram of the operations in an empty working space, with a plan that has room for `limit` pairs.
fn build_in(
    ops: &[u64],
    plan: &mut [u64],
    limit: usize,
    work: &mut [u64],
) -> Result<(usize, usize), (Refusal, usize)>
    requires ops { Ops ops.now }
    requires roomy { Roomy plan.old limit work.old }
    ensures { Builds limit (whole_ops ops.now) result work.new }
{
    let mut index = [0u16; plan::BUCKETS];
    let mut heads = [0u16; table::BUCKETS];
    let mut links = [0u16; diagram::SPACE_ROWS];
    build_rows(ops, plan, &mut index, limit, work, &mut heads, &mut links)
}

// The same, with a plan of so many words.
fn build_with<const WORDS: usize>(
    ops: &[u64],
    limit: usize,
    work: &mut [u64],
) -> Result<(usize, usize), (Refusal, usize)>
    requires room { limit * 5 ≤ WORDS }
    requires words_le_most { WORDS ≤ most_pairs * 5 }
    requires ops { Ops ops.now }
    requires space_words_in_bounds { space_words ≤ length work.old }
    ensures { Builds limit (whole_ops ops.now) result work.new }
{
    let mut plan = [0u64; WORDS];
    build_in(ops, &mut plan, limit, work)
}

// Builds the diagram of the operations in the working space: with room for few pairs first, and where a step has more, all again with room for all.
fn build_space(ops: &[u64], work: &mut [u64]) -> Result<(usize, usize), (Refusal, usize)>
    requires ops { Ops ops.now }
    requires space_words_in_bounds { space_words ≤ length work.old }
    ensures { Builds most_pairs (whole_ops ops.now) result work.new }
{
    let r = build_with::<{ combine::FEW_WORDS }>(ops, combine::FEW, work);
    if row_steps::is_crowded(r) {
        return build_with::<{ combine::PLAN_WORDS }>(ops, diagram::PAIRS, work);
    }
    r
}

// Builds the diagram of the operations that the words hold and writes its listing.
fn build_words(ops: &[u64], out: &mut [u64], work: &mut [u64]) -> Result<usize, Refusal>
    requires { Callable ops.now out.old work.old }
    ensures { BuildAnswered (built (whole_ops ops.now)) out.old result out.new }
{
    match build_space(ops, work) {
        Ok((root, rows)) => write_row(work, rows, root, out),
        Err((why, _)) => Err(why),
    }
}

// Writes the listing of the row `root`, closed up, unless it has too many rows.
fn write_closed(
    arities: &[u64],
    space: &[u64],
    count: usize,
    root: usize,
    out: &mut [u64],
) -> Result<usize, Refusal>
    requires { Writable arities.now space.now count root out.old }
    ensures { BuildAnswered (held (closed arities.now (tree space.now root))) out.old result out.new }
{
    match apart::write_result(arities, space, count, root, 0, out) {
        Combined::Done(m, _) => Ok(m),
        Combined::Refused(why) => Err(why),
    }
}

// The same, closed up.
fn build_closed_words(
    arities: &[u64],
    ops: &[u64],
    out: &mut [u64],
    work: &mut [u64],
) -> Result<usize, Refusal>
    requires under { Under arities.now ops.now }
    requires callable { Callable ops.now out.old work.old }
    ensures { BuildAnswered (built_closed arities.now (whole_ops ops.now)) out.old result out.new }
{
    match build_space(ops, work) {
        Ok((root, rows)) => write_closed(arities, work, rows, root, out),
        Err((why, _)) => Err(why),
    }
}

// Builds the diagram of a line from its first n operations and writes its listing; `work` is the working space.
pub fn build(ops: &[u64], n: usize, out: &mut [u64], work: &mut [u64]) -> Result<usize, Refusal>
    requires { Buildable ops.now n out.old work.old }
    ensures { BuildAnswered (built (ops_in ops.now n)) out.old result out.new }
{
    build_words(&ops[..n * 2], out, work)
}

// Builds a reward's diagram from its first n operations and writes its listing, closed up; `work` is the working space.
pub fn build_closed(
    arities: &[u64],
    ops: &[u64],
    n: usize,
    out: &mut [u64],
    work: &mut [u64],
) -> Result<usize, Refusal>
    requires labelled { Labelled arities.now ops.now n }
    requires buildable { Buildable ops.now n out.old work.old }
    ensures { BuildAnswered (built_closed arities.now (ops_in ops.now n)) out.old result out.new }
{
    build_closed_words(arities, &ops[..n * 2], out, work)
}

// Builds the diagram of the first n operations and writes its listing.
fn build_to(
    ending: Ending,
    arities: &[u64],
    operations: &[u64],
    n: usize,
    out: &mut [u64],
    work: &mut [u64],
) -> Result<usize, Refusal>
    requires labelled { Labelled arities.now operations.now n }
    requires buildable { Buildable operations.now n out.old work.old }
    ensures { BuildAnswered (built_to ending arities.now (ops_in operations.now n)) out.old result out.new }
{
    match ending {
        Ending::Plain => build(operations, n, out, work),
        Ending::Closed => build_closed(arities, operations, n, out, work),
    }
}

// Reads the words of the line into the lent operations: those of a reward where the diagram is closed up.
fn read_to(
    ending: Ending,
    line: &[u8],
    at: usize,
    names: &[u64],
    arities: &[u64],
    scope: Scope,
    variables: &mut [u64],
    known: usize,
    operations: &mut [u64],
) -> Result<(usize, Known), Refusal>
    requires readable { Readable line.now at names.now arities.now variables.old operations.old scope (argument_count known) }
    requires allows { Allows ending scope }
    ensures { Reads (reading (names_of names.now arities.now scope) (events_of (drop at line.now)) (known_to ending (events_of (drop at line.now)) (keys_at variables.old 0 known))) result variables.new operations.new }
{
    match ending {
        Ending::Plain => reader::read_words(
            line, at, names, arities, variables, operations, scope, known,
        ),
        Ending::Closed => reader::read_reward(
            line, at, names, arities, variables, operations, scope,
        ),
    }
}

// Reads the words of the line into the lent operations, and builds its diagram.
fn draw_in(
    ending: Ending,
    line: &[u8],
    at: usize,
    names: &[u64],
    arities: &[u64],
    scope: Scope,
    variables: &mut [u64],
    known: usize,
    operations: &mut [u64],
    out: &mut [u64],
    work: &mut [u64],
) -> Result<usize, Refusal>
    requires drawable { Drawable line.now at names.now arities.now scope variables.old known out.old work.old }
    requires line_in_bounds { length line.now * 2 ≤ length operations.old }
    requires allows { Allows ending scope }
    ensures { Draws arities.now (drawn_to ending (names_of names.now arities.now scope) (events_of (drop at line.now)) (keys_at variables.old 0 known)) result out.new }
{
    let (n, _) = read_to(
        ending, line, at, names, arities, scope, variables, known, operations,
    )?;
    build_to(ending, arities, operations, n, out, work)
}

// A line whose operations take so many words at most; a longest line's take 8,190.
fn draw_with<const WORDS: usize>(
    ending: Ending,
    line: &[u8],
    at: usize,
    names: &[u64],
    arities: &[u64],
    scope: Scope,
    variables: &mut [u64],
    known: usize,
    out: &mut [u64],
    work: &mut [u64],
) -> Result<usize, Refusal>
    requires drawable { Drawable line.now at names.now arities.now scope variables.old known out.old work.old }
    requires line_in_bounds { length line.now * 2 ≤ WORDS }
    requires words_le_most { WORDS ≤ 8190 }
    requires allows { Allows ending scope }
    ensures { Draws arities.now (drawn_to ending (names_of names.now arities.now scope) (events_of (drop at line.now)) (keys_at variables.old 0 known)) result out.new }
{
    let mut operations = [0u64; WORDS];
    draw_in(
        ending,
        line,
        at,
        names,
        arities,
        scope,
        variables,
        known,
        &mut operations,
        out,
        work,
    )
}

// The diagram of a line, with room by its length.
fn draw_to(
    ending: Ending,
    line: &[u8],
    at: usize,
    names: &[u64],
    arities: &[u64],
    scope: Scope,
    variables: &mut [u64],
    known: usize,
    out: &mut [u64],
    work: &mut [u64],
) -> Result<usize, Refusal>
    requires drawable { Drawable line.now at names.now arities.now scope variables.old known out.old work.old }
    requires allows { Allows ending scope }
    ensures { Draws arities.now (drawn_to ending (names_of names.now arities.now scope) (events_of (drop at line.now)) (keys_at variables.old 0 known)) result out.new }
{
    if line.len() <= SHORT_LINE {
        return draw_with::<SHORT_WORDS>(
            ending, line, at, names, arities, scope, variables, known, out, work,
        );
    }
    draw_with::<LINE_WORDS>(
        ending, line, at, names, arities, scope, variables, known, out, work,
    )
}

// Reads the diagram that stands on a line from the place `at` on, `known` arguments in the table before it, and writes its listing; `work` is the
// working space.
pub fn draw(
    line: &[u8],
    at: usize,
    names: &[u64],
    arities: &[u64],
    scope: Scope,
    variables: &mut [u64],
    known: usize,
    out: &mut [u64],
    work: &mut [u64],
) -> Result<usize, Refusal>
    requires { Drawable line.now at names.now arities.now scope variables.old known out.old work.old }
    ensures { Draws arities.now (drawn (names_of names.now arities.now scope) (events_of (drop at line.now)) (keys_at variables.old 0 known)) result out.new }
{
    draw_to(
        Ending::Plain,
        line,
        at,
        names,
        arities,
        scope,
        variables,
        known,
        out,
        work,
    )
}

// The diagram of a reward, closed up: its variables, kind by kind, by ascending N where each is written so.
pub fn draw_closed(
    line: &[u8],
    at: usize,
    names: &[u64],
    arities: &[u64],
    scope: Scope,
    variables: &mut [u64],
    out: &mut [u64],
    work: &mut [u64],
) -> Result<usize, Refusal>
    requires drawable { Drawable line.now at names.now arities.now scope variables.old 0 out.old work.old }
    requires binding_value { scope.binding ≡ Any }
    ensures { Draws arities.now (drawn_closed (names_of names.now arities.now scope) (events_of (drop at line.now))) result out.new }
{
    draw_to(
        Ending::Closed,
        line,
        at,
        names,
        arities,
        scope,
        variables,
        0,
        out,
        work,
    )
}
