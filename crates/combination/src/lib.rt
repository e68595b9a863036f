// Public calls: sum, product and max of two lent listings, with names apart or shared.
#![tactic(auto)]

ghost use Rattle.std.specs.Prelude.{◌≡◌, ◌*◌, ◌≤◌, length};
ghost use Rattle.diagram.specs.Listing.{diagram_of};
ghost use Rattle.diagram.specs.Validity.{Valid};
ghost use Rattle.diagram.specs.Variables.{is_plain};
ghost use Rattle.apply.specs.Combination.{done_as, combine_answer, combine_result};
ghost use Rattle.apply.specs.declared.Operation.TheVariants.{Max};
ghost use Rattle.apply.specs.declared.Names.TheVariants.{Shared};
ghost use Rattle.combine.specs.declared.Joined.TheVariants.{At};
ghost use Rattle.combine.specs.Calls.{Callable, CombineAnswered};
ghost use Rattle.combination.specs.Finishing.{Finishable, Finished};
ghost use Rattle.combination.specs.Sharing.{Operands, SharedIn};
ghost use Rattle.diagram.specs.Sizes.{most_pairs};

use apply::{Combined, Names, Operation};
use combine::Joined;
use label::Term;
use refusal::Refusal;

// Writes the result that the first rows of the space are, unless they are too many.
fn finish_rows(rows: usize, pairs: usize, space: &[u64], out: &mut [u64]) -> Combined
    requires { Finishable (At 0 rows pairs) space.now out.old }
    ensures { Finished (At 0 rows pairs) space.now out.old result out.new }
{
    if rows > diagram::ROWS {
        return Combined::Refused(Refusal::Space);
    }
    write::copy(space, rows, out);
    Combined::Done(rows, pairs)
}

// Writes the result of a combination in an empty space, or says why there is none.
fn finish(r: Joined, space: &[u64], out: &mut [u64]) -> Combined
    requires { Finishable r space.now out.old }
    ensures { Finished r space.now out.old result out.new }
{
    match r {
        Joined::At(_, rows, pairs) => finish_rows(rows, pairs, space, out),
        Joined::TooManyPairs => Combined::Refused(Refusal::Pairs),
        Joined::TooHighValue => Combined::Refused(Refusal::Value),
        Joined::NoRoom => Combined::Refused(Refusal::Space),
    }
}

// Combines the roots of two listings in an empty working space, with room for `limit` pairs in a plan of that many words.
fn shared_with<const WORDS: usize>(
    op: Operation,
    arities: &[u64],
    x: &[u64],
    y: &[u64],
    limit: usize,
    work: &mut [u64],
) -> Joined
    requires operands { Operands arities.now x.now y.now work.old }
    requires room { limit * 5 ≤ WORDS }
    requires words_le_most { WORDS ≤ most_pairs * 5 }
    ensures { SharedIn op limit x.now y.now work.old result work.new }
{
    let mut plan = [0u64; WORDS];
    let mut index = [0u16; plan::BUCKETS];
    let mut heads = [0u16; table::BUCKETS];
    let mut links = [0u16; diagram::SPACE_ROWS];
    let i = x.len() / 3 - 1;
    let j = y.len() / 3 - 1;
    combine::join_listings(
        x, y, &mut plan, &mut index, limit, i, j, op, work, &mut heads, &mut links, 0,
    )
}

// Combines two listings with names shared, with room for all pairs.
fn combine_many(
    op: Operation,
    arities: &[u64],
    x: &[u64],
    y: &[u64],
    out: &mut [u64],
    work: &mut [u64],
) -> Combined
    requires { Callable arities.now x.now y.now out.old work.old }
    ensures { CombineAnswered op Shared arities.now x.now y.now out.old result out.new }
{
    let r = shared_with::<{ combine::PLAN_WORDS }>(op, arities, x, y, diagram::PAIRS, work);
    finish(r, work, out)
}

// The same, with room for few pairs first, which suffices for most calls: clearing room for all costs more than their walk. Each row of an operand is met in a
// pair, but under a zero of a product, so that a listing of more rows mostly has more pairs.
pub fn combine_shared(
    op: Operation,
    arities: &[u64],
    x: &[u64],
    y: &[u64],
    out: &mut [u64],
    work: &mut [u64],
) -> Combined
    requires { Callable arities.now x.now y.now out.old work.old }
    ensures { CombineAnswered op Shared arities.now x.now y.now out.old result out.new }
{
    if x.len() / 3 > combine::FEW {
        return combine_many(op, arities, x, y, out, work);
    }
    if y.len() / 3 > combine::FEW {
        return combine_many(op, arities, x, y, out, work);
    }
    let r = shared_with::<{ combine::FEW_WORDS }>(op, arities, x, y, combine::FEW, work);
    match r {
        Joined::TooManyPairs => combine_many(op, arities, x, y, out, work),
        _ => finish(r, work, out),
    }
}

// Whether a listing has no minimum variable.
fn is_plain(arities: &[u64], words: &[u64]) -> bool
    requires { Valid arities.now words.now }
    ensures { result ≡ is_plain arities.now (diagram_of words.now) }
{
    let mut marks = [0u64; Term::END as usize];
    listing::used(arities, words, &mut marks);
    listing::is_plain(&marks)
}

// The names that a max is done with: apart if it is asked for with shared names and either operand has a minimum variable.
fn max_as(names: Names, arities: &[u64], x: &[u64], y: &[u64]) -> Names
    requires valid { Valid arities.now x.now }
    requires valid_2 { Valid arities.now y.now }
    ensures { result ≡ done_as Max names arities.now (diagram_of x.now) (diagram_of y.now) }
{
    let Names::Shared = names else {
        return Names::Apart;
    };
    if !is_plain(arities, x) {
        return Names::Apart;
    }
    if !is_plain(arities, y) {
        return Names::Apart;
    }
    Names::Shared
}

// The names that a call is done with. A sum or product looks for no minimum variable.
fn done_as(op: Operation, names: Names, arities: &[u64], x: &[u64], y: &[u64]) -> Names
    requires valid { Valid arities.now x.now }
    requires valid_2 { Valid arities.now y.now }
    ensures { result ≡ done_as op names arities.now (diagram_of x.now) (diagram_of y.now) }
{
    match op {
        Operation::Sum | Operation::Product => names,
        Operation::Max => max_as(names, arities, x, y),
    }
}

// Combines two listings, with the names that such a call is done with.
pub fn combine_named(
    op: Operation,
    names: Names,
    arities: &[u64],
    x: &[u64],
    y: &[u64],
    out: &mut [u64],
    work: &mut [u64],
) -> Combined
    requires { Callable arities.now x.now y.now out.old work.old }
    ensures { CombineAnswered op (done_as op names arities.now (diagram_of x.now) (diagram_of y.now)) arities.now x.now y.now out.old result out.new }
{
    match done_as(op, names, arities, x, y) {
        Names::Apart => apart::combine_apart(op, arities, x, y, out, work),
        Names::Shared => combine_shared(op, arities, x, y, out, work),
    }
}

// The sum, product or max of two lent listings, written to `out`; `work` is the working space. A max asked for with shared names is done apart where an operand has a
// minimum variable. Refused: 14 by operand, 18, then 8, 10, 11, 9.
pub fn combine(
    op: Operation,
    names: Names,
    arities: &[u64],
    x: &[u64],
    y: &[u64],
    out: &mut [u64],
    work: &mut [u64],
) -> Combined
    ensures value { result ≡ combine_answer op names arities.now x.now y.now (length out.old) (length work.old) }
    ensures out_after { out.new ≡ combine_result op names arities.now x.now y.now (length work.old) out.old }
{
    if !listing::check(arities, x) {
        return Combined::Refused(Refusal::Listing);
    }
    if !listing::check(arities, y) {
        return Combined::Refused(Refusal::Listing);
    }
    if out.len() < diagram::RESULT_WORDS {
        return Combined::Refused(Refusal::Buffer);
    }
    if work.len() < diagram::SPACE_WORDS {
        return Combined::Refused(Refusal::Buffer);
    }
    combine_named(op, names, arities, x, y, out, work)
}
