// The weights of a model in lent words, as (start) checks them. What is checked stands in crate session, specs/ModelLines.
#![tactic(auto)]

ghost use Rattle.std.specs.Prelude.{◌≡◌, [], ◌∷◌, ◌*◌, take};
ghost use Rattle.diagram.specs.Diagram.{leaf};
ghost use Rattle.diagram.specs.Listing.{diagram_of};
ghost use Rattle.apply.specs.declared.Operation.TheVariants.{Sum};
ghost use Rattle.apply.specs.declared.Names.TheVariants.{Shared};
ghost use Rattle.mdp.specs.Backup.{combined};
ghost use Rattle.model.specs.Layout.{variant_at, action_at, model_of};
ghost use Rattle.steps.specs.Steps.{Given};
ghost use Rattle.session.specs.ModelLines.{weights_sum, weighed};
ghost use Rattle.weights.specs.Weighing.{weighed_as, judged_as, AddTask, SumTask, ActionTask, Weighable};

use apply::Operation;
use contradict::Led;
use model::Head;
use refusal::Refusal;

// Adds the weight of the variant at a place of the table to the sum that the first n rows of the buffer are, names shared.
fn add_weight(
    arities: &[u64],
    listings: &[u64],
    table: &[u64],
    place: usize,
    sum: &mut [u64],
    n: usize,
    work: &mut [u64],
) -> Result<usize, Refusal>
    requires { AddTask arities.now listings.now table.now place sum.old n work.old }
    ensures { Given arities.now (combined Sum Shared arities.now (diagram_of (take (n * 3) sum.old)) (variant_at listings.now table.now place).weight) result sum.new }
{
    let start = table[place] as usize;
    let end = start + table[place + 1] as usize;
    steps::fold_shared(Operation::Sum, arities, sum, n, &listings[start..end], work)
}

// The sum of the weights of an action, begun at leaf 0, each added in order with names shared.
fn weights_sum(
    arities: &[u64],
    listings: &[u64],
    table: &[u64],
    action: usize,
    out: &mut [u64],
    work: &mut [u64],
) -> Result<usize, Refusal>
    requires { SumTask arities.now listings.now table.now action out.old work.old }
    ensures { Given arities.now (weights_sum arities.now (leaf 0) (action_at listings.now table.now action).variants) result out.new }
{
    let variants = table[action * model::ACTION_WORDS + 1] as usize;
    let mut n = steps::begin(out);
    for v in 0..variants {
        let place = action * model::ACTION_WORDS + 2 + v * model::VARIANT_WORDS;
        n = add_weight(arities, listings, table, place, out, n, work)?;
    }
    Ok(n)
}

// What is said of a sum by where its paths lead: 17, 13, or nothing.
fn judge(led: Led) -> Result<(), Refusal>
    ensures { result ≡ judged_as led }
{
    match led {
        Led::Many => Err(Refusal::Paths),
        Led::Others => Err(Refusal::Weights),
        Led::Only => Ok(()),
    }
}

// An action: its sum has at most 256 paths, or 17; each of them has the leaf W or contradicts itself by equality, or 13.
fn weigh_action(
    arities: &[u64],
    listings: &[u64],
    table: &[u64],
    action: usize,
    total: u64,
    work: &mut [u64],
) -> Result<(), Refusal>
    requires { ActionTask arities.now listings.now table.now action work.old }
    ensures { result ≡ weighed_as (weighed arities.now total (action_at listings.now table.now action ∷ [])) }
{
    let mut sum = [0u64; diagram::RESULT_WORDS];
    let n = weights_sum(arities, listings, table, action, &mut sum, work)?;
    judge(contradict::leads_to(arities, &sum[..n * 3], total))
}

// The check of the weights, action by action: the sum of an action's weights, with its own 10, 11, 9, then 17, then 13.
pub fn weigh(
    arities: &[u64],
    listings: &[u64],
    table: &[u64],
    head: Head,
    work: &mut [u64],
) -> Result<(), Refusal>
    requires { Weighable arities.now listings.now table.now head work.old }
    ensures { result ≡ weighed_as (weighed arities.now head.total (model_of arities.now listings.now table.now head).actions) }
{
    let actions = head.actions;
    let total = head.total;
    for a in 0..actions {
        weigh_action(arities, listings, table, a, total, work)?;
    }
    Ok(())
}
