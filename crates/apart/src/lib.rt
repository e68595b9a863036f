// Combination of two lent listings with names apart: the operands' rows are formed with their variables moved aside, combined, and the result is written closed up.
#![tactic(auto)]

ghost use Rattle.std.specs.Prelude.{◌≡◌, ◌++◌, ◌*◌, length, drop};
ghost use Rattle.diagram.specs.Rows.{onto};
ghost use Rattle.diagram.specs.Listing.{listing, diagram_of};
ghost use Rattle.diagram.specs.Validity.{tree};
ghost use Rattle.diagram.specs.Variables.{closed_from, closed};
ghost use Rattle.apply.specs.declared.Names.TheVariants.{Apart};
ghost use Rattle.store.specs.Space.{diagrams_of, Formation};
ghost use Rattle.write.specs.Renaming.{listed_in};
ghost use Rattle.combine.specs.Calls.{Callable, CombineAnswered};
ghost use Rattle.label.specs.Limits.{term_end};
ghost use Rattle.apart.specs.Operands.{Enterable, aside_of, Separable};
ghost use Rattle.apart.specs.Results.{Closable, Writable, ResultWritten, Joinable, JoinedUp};

use apply::{Combined, Operation};
use combine::Joined;
use label::Term;
use refusal::Refusal;

// A word for each term.
const TERMS: usize = Term::END as usize;

// Forms the rows of a listing with its used variables renamed to `first`, first + 1, .. and its used minimum variables to `minimum`, minimum + 1, ..,
// each kind in its order; used[t] marks the terms that occur in it.
fn enter(
    arities: &[u64],
    words: &[u64],
    used: &[u64],
    first: u64,
    minimum: u64,
    space: &mut [u64],
    heads: &mut [u16],
    links: &mut [u16],
    count: usize,
    numbers: &mut [u16],
) -> Option<(usize, usize)>
    requires { Enterable arities.now words.now used.now first minimum space.old heads.old links.old count numbers.old }
    ensures { Formation (closed_from arities.now first minimum (diagram_of words.now)) (onto (closed_from arities.now first minimum (diagram_of words.now)) (diagrams_of space.old count)) result space.new heads.new links.new }
{
    let mut map = [0u64; TERMS];
    rename::close_map(used, first, minimum, &mut map);
    store::load(arities, words, &map, space, heads, links, count, numbers)
}

// Closes up the listing that the first m rows of the buffer are. The words behind stay.
pub fn close_up(arities: &[u64], out: &mut [u64], m: usize)
    requires { Closable arities.now out.old m }
    ensures { out.new ≡ listing (closed arities.now (listed_in out.old m)) ++ drop (m * 3) out.old }
{
    let mut marks = [0u64; TERMS];
    let mut map = [0u64; TERMS];
    listing::used(arities, &out[..m * 3], &mut marks);
    rename::close_map(&marks, Term::FIRST_VARIABLE, Term::FIRST_MINIMUM, &mut map);
    write::rename(arities, &map, out, m);
}

// Writes the listing of the row `root`, closed up, and answers its rows and the pairs, unless it has too many rows.
pub fn write_result(
    arities: &[u64],
    space: &[u64],
    count: usize,
    root: usize,
    pairs: usize,
    out: &mut [u64],
) -> Combined
    requires { Writable arities.now space.now count root out.old }
    ensures { ResultWritten arities.now (tree space.now root) pairs out.old result out.new }
{
    let mut marks = [0u16; diagram::SPACE_ROWS];
    let mut order = [0u16; diagram::SPACE_ROWS];
    let Some(m) = write::write(space, count, root, &mut marks, &mut order, out) else {
        return Combined::Refused(Refusal::Space);
    };
    close_up(arities, out, m);
    Combined::Done(m, pairs)
}

// Combines rows i and j of the working space, with room for all pairs that a call may have, and writes the result, closed up.
fn join_many(
    op: Operation,
    arities: &[u64],
    i: usize,
    j: usize,
    space: &mut [u64],
    heads: &mut [u16],
    links: &mut [u16],
    count: usize,
    out: &mut [u64],
) -> Combined
    requires { Joinable arities.now space.old heads.old links.old count i j out.old }
    ensures { JoinedUp op arities.now (tree space.old i) (tree space.old j) (diagrams_of space.old count) out.old result out.new }
{
    let mut plan = [0u64; combine::PLAN_WORDS];
    let mut index = [0u16; plan::BUCKETS];
    let joined = combine::join_rows(
        &mut plan,
        &mut index,
        diagram::PAIRS,
        i,
        j,
        op,
        space,
        heads,
        links,
        count,
    );
    match joined {
        Joined::At(root, rows, pairs) => write_result(arities, space, rows, root, pairs, out),
        Joined::TooManyPairs => Combined::Refused(Refusal::Pairs),
        Joined::TooHighValue => Combined::Refused(Refusal::Value),
        Joined::NoRoom => Combined::Refused(Refusal::Space),
    }
}

// The same, with room for few pairs first, which suffices for most calls: clearing room for all costs more than their walk. Each row of an operand is met in a
// pair, but under a zero of a product, so that rows enough for two listings of few rows mostly mean more pairs.
fn join(
    op: Operation,
    arities: &[u64],
    i: usize,
    j: usize,
    space: &mut [u64],
    heads: &mut [u16],
    links: &mut [u16],
    count: usize,
    out: &mut [u64],
) -> Combined
    requires { Joinable arities.now space.old heads.old links.old count i j out.old }
    ensures { JoinedUp op arities.now (tree space.old i) (tree space.old j) (diagrams_of space.old count) out.old result out.new }
{
    if count > 2 * combine::FEW {
        return join_many(op, arities, i, j, space, heads, links, count, out);
    }
    let mut plan = [0u64; combine::FEW_WORDS];
    let mut index = [0u16; plan::BUCKETS];
    let joined = combine::join_rows(
        &mut plan,
        &mut index,
        combine::FEW,
        i,
        j,
        op,
        space,
        heads,
        links,
        count,
    );
    match joined {
        Joined::At(root, rows, pairs) => write_result(arities, space, rows, root, pairs, out),
        Joined::TooManyPairs => { join_many(op, arities, i, j, space, heads, links, count, out) }
        Joined::TooHighValue => Combined::Refused(Refusal::Value),
        Joined::NoRoom => Combined::Refused(Refusal::Space),
    }
}

// Combines two listings of at most 64 variables of each kind together: the first closed up, the second's variables from `first` on and its minimum variables
// from `minimum` on. Marked terms occur.
fn combine_moved(
    op: Operation,
    arities: &[u64],
    x: &[u64],
    y: &[u64],
    usedx: &[u64],
    usedy: &[u64],
    first: u64,
    minimum: u64,
    out: &mut [u64],
    work: &mut [u64],
) -> Combined
    requires { Separable arities.now x.now y.now usedx.now usedy.now first minimum out.old work.old }
    ensures { CombineAnswered op Apart arities.now x.now y.now out.old result out.new }
{
    let mut heads = [0u16; table::BUCKETS];
    let mut links = [0u16; diagram::SPACE_ROWS];
    let mut numbers = [0u16; diagram::ROWS];
    let Some((i, n)) = enter(
        arities,
        x,
        usedx,
        Term::FIRST_VARIABLE,
        Term::FIRST_MINIMUM,
        work,
        &mut heads,
        &mut links,
        0,
        &mut numbers,
    ) else {
        return Combined::Refused(Refusal::Space);
    };
    let Some((j, m)) = enter(
        arities,
        y,
        usedy,
        first,
        minimum,
        work,
        &mut heads,
        &mut links,
        n,
        &mut numbers,
    ) else {
        return Combined::Refused(Refusal::Space);
    };
    join(op, arities, i, j, work, &mut heads, &mut links, m, out)
}

// The first numbers of the second operand's variables: those of each kind follow after the first operand's. Marked terms occur. None where a kind
// has more than 64 of both operands.
fn set_aside(usedx: &[u64], usedy: &[u64]) -> Option<(u64, u64)>
    requires usedx_len { length usedx.now ≡ term_end }
    requires usedy_len { length usedy.now ≡ term_end }
    ensures { result ≡ aside_of usedx.now usedy.now }
{
    let n = listing::count_variables(usedx) as u64;
    let k = listing::count_minimums(usedx) as u64;
    if n + (listing::count_variables(usedy) as u64) > Term::VARIABLES {
        return None;
    }
    if k + (listing::count_minimums(usedy) as u64) > Term::MINIMUMS {
        return None;
    }
    Some((Term::FIRST_VARIABLE + n, Term::FIRST_MINIMUM + k))
}

// Combines two listings with names apart.
pub fn combine_apart(
    op: Operation,
    arities: &[u64],
    x: &[u64],
    y: &[u64],
    out: &mut [u64],
    work: &mut [u64],
) -> Combined
    requires { Callable arities.now x.now y.now out.old work.old }
    ensures { CombineAnswered op Apart arities.now x.now y.now out.old result out.new }
{
    let mut usedx = [0u64; TERMS];
    let mut usedy = [0u64; TERMS];
    listing::used(arities, x, &mut usedx);
    listing::used(arities, y, &mut usedy);
    let Some((first, minimum)) = set_aside(&usedx, &usedy) else {
        return Combined::Refused(Refusal::Variables);
    };
    combine_moved(op, arities, x, y, &usedx, &usedy, first, minimum, out, work)
}
