// The calls that backups and sums of weights are made of, each with its result in a buffer.
#![tactic(auto)]

ghost use Rattle.std.specs.Prelude.{◌≡◌, ◌*◌, ◌≤◌, length, take};
ghost use Rattle.diagram.specs.Sizes.{result_words};
ghost use Rattle.diagram.specs.Diagram.{leaf};
ghost use Rattle.diagram.specs.Listing.{diagram_of};
ghost use Rattle.apply.specs.declared.Operation.TheVariants.{Sum, Product};
ghost use Rattle.apply.specs.declared.Names.TheVariants.{Apart, Shared};
ghost use Rattle.mdp.specs.Backup.{combined};
ghost use Rattle.steps.specs.Steps.{told_as, Begun, Given, Wrote, Operands, Scalable, Folding};

use apply::{Combined, Names, Operation};
use label::Label;
use refusal::Refusal;

// The answer of a combination, as that of a step.
fn told(r: Combined) -> Result<usize, Refusal>
    ensures { result ≡ told_as r }
{
    match r {
        Combined::Done(n, _) => Ok(n),
        Combined::Refused(e) => Err(e),
    }
}

// Combines two listings, names shared; a max is done apart if either has a minimum variable.
pub fn shared(
    op: Operation,
    arities: &[u64],
    x: &[u64],
    y: &[u64],
    out: &mut [u64],
    work: &mut [u64],
) -> Result<usize, Refusal>
    requires { Operands arities.now x.now y.now out.old work.old }
    ensures { Wrote arities.now (combined op Shared arities.now (diagram_of x.now) (diagram_of y.now)) result out.old out.new }
{
    told(combination::combine_named(op, Names::Shared, arities, x, y, out, work))
}

// Adds two listings, names apart.
pub fn sum_apart(
    arities: &[u64],
    x: &[u64],
    y: &[u64],
    out: &mut [u64],
    work: &mut [u64],
) -> Result<usize, Refusal>
    requires { Operands arities.now x.now y.now out.old work.old }
    ensures { Wrote arities.now (combined Sum Apart arities.now (diagram_of x.now) (diagram_of y.now)) result out.old out.new }
{
    told(apart::combine_apart(Operation::Sum, arities, x, y, out, work))
}

// A listing times the leaf v, names shared.
pub fn times_leaf(
    arities: &[u64],
    x: &[u64],
    v: u64,
    out: &mut [u64],
    work: &mut [u64],
) -> Result<usize, Refusal>
    requires { Scalable arities.now x.now v out.old work.old }
    ensures { Wrote arities.now (combined Product Shared arities.now (diagram_of x.now) (leaf v)) result out.old out.new }
{
    let one = [Label::LEAF, v, 0];
    shared(Operation::Product, arities, x, &one, out, work)
}

// Adds y to the listing that the first n rows of the buffer are, names apart.
pub fn add_apart(
    arities: &[u64],
    buffer: &mut [u64],
    n: usize,
    y: &[u64],
    work: &mut [u64],
) -> Result<usize, Refusal>
    requires { Folding arities.now buffer.old n y.now work.old }
    ensures { Given arities.now (combined Sum Apart arities.now (diagram_of (take (n * 3) buffer.old)) (diagram_of y.now)) result buffer.new }
{
    let mut sum = [0u64; diagram::RESULT_WORDS];
    let r = sum_apart(arities, &buffer[..n * 3], y, &mut sum, work);
    let Ok(m) = r else {
        return r;
    };
    write::copy(&sum, m, buffer);
    r
}

// Combines the listing that the first n rows of the buffer are with y, names shared; the result replaces it.
pub fn fold_shared(
    op: Operation,
    arities: &[u64],
    buffer: &mut [u64],
    n: usize,
    y: &[u64],
    work: &mut [u64],
) -> Result<usize, Refusal>
    requires { Folding arities.now buffer.old n y.now work.old }
    ensures { Given arities.now (combined op Shared arities.now (diagram_of (take (n * 3) buffer.old)) (diagram_of y.now)) result buffer.new }
{
    let mut result = [0u64; diagram::RESULT_WORDS];
    let r = shared(op, arities, &buffer[..n * 3], y, &mut result, work);
    let Ok(m) = r else {
        return r;
    };
    write::copy(&result, m, buffer);
    r
}

// Writes leaf 0: one row.
pub fn begin(out: &mut [u64]) -> usize
    requires { result_words ≤ length out.old }
    ensures { Begun result out.new }
{
    out[0] = Label::LEAF;
    out[1] = 0;
    out[2] = 0;
    1
}
