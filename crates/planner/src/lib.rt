// Backups on models in lent words. What they are stands in crate mdp and in specs/.
#![tactic(auto)]

ghost use Rattle.std.specs.Prelude.{◌≡◌, ◌*◌, ◌≤◌, take};
ghost use Rattle.diagram.specs.Sizes.{highest_value};
ghost use Rattle.diagram.specs.Diagram.{leaf};
ghost use Rattle.diagram.specs.Listing.{diagram_of};
ghost use Rattle.apply.specs.declared.Operation.TheVariants.{Product};
ghost use Rattle.apply.specs.declared.Names.TheVariants.{Shared};
ghost use Rattle.regression.specs.Regression.{regressed};
ghost use Rattle.mdp.specs.Backup.{combined, variants_sum, actions_best, row_of_calls};
ghost use Rattle.model.specs.Inner.{Laid};
ghost use Rattle.model.specs.Layout.{variant_at, action_at, reward_words, model_of};
ghost use Rattle.planner.specs.Inner.{Takeable, Taken};
ghost use Rattle.planner.specs.Parts.{variant_product, variant_added, freed_up, action_value, action_tried};
ghost use Rattle.planner.specs.Backed.{scale_of, power_as, Numbers, Powered, BackedUp, backed_step};
ghost use Rattle.steps.specs.Steps.{BufferListing, Given, Wrote};
ghost use Rattle.planner.specs.Tasks.{VariantTask, WeightTask, ActionTask, ValueTask, FreeUp, RewardTask, Standing};

use apply::Operation;
use model::Head;
use refusal::Refusal;

// The value regressed by the variant at a place of the table.
fn regress_variant(
    arities: &[u64],
    listings: &[u64],
    table: &[u64],
    place: usize,
    value: &[u64],
    out: &mut [u64],
    work: &mut [u64],
) -> Result<usize, Refusal>
    requires { VariantTask arities.now listings.now table.now place value.now out.old work.old }
    ensures { Given arities.now (regressed arities.now (variant_at listings.now table.now place).truths (diagram_of value.now)) result out.new }
{
    let r = regress::regress_checked(
        arities,
        value,
        listings,
        &table[place + 2..place + model::VARIANT_WORDS],
        out,
        work,
    );
    let Ok(n) = r else {
        return r;
    };
    Ok(n)
}

// The weight of the variant at a place of the table times leaf G, names shared.
fn weigh(
    arities: &[u64],
    listings: &[u64],
    table: &[u64],
    place: usize,
    g: u64,
    out: &mut [u64],
    work: &mut [u64],
) -> Result<usize, Refusal>
    requires { WeightTask arities.now listings.now table.now place g out.old work.old }
    ensures { Given arities.now (combined Product Shared arities.now (variant_at listings.now table.now place).weight (leaf g)) result out.new }
{
    let start = table[place] as usize;
    let end = start + table[place + 1] as usize;
    steps::times_leaf(arities, &listings[start..end], g, out, work)
}

// The product of these two, names shared.
fn variant_product(
    arities: &[u64],
    listings: &[u64],
    table: &[u64],
    place: usize,
    g: u64,
    value: &[u64],
    out: &mut [u64],
    work: &mut [u64],
) -> Result<usize, Refusal>
    requires variant_task { VariantTask arities.now listings.now table.now place value.now out.old work.old }
    requires g_le_highest_value { g ≤ highest_value }
    ensures { Given arities.now (variant_product arities.now g (diagram_of value.now) (variant_at listings.now table.now place)) result out.new }
{
    let mut regressed = [0u64; diagram::RESULT_WORDS];
    let mut weighted = [0u64; diagram::RESULT_WORDS];
    let a = regress_variant(arities, listings, table, place, value, &mut regressed, work);
    let Ok(n) = a else {
        return a;
    };
    let b = weigh(arities, listings, table, place, g, &mut weighted, work);
    let Ok(m) = b else {
        return b;
    };
    steps::shared(
        Operation::Product,
        arities,
        &regressed[..n * 3],
        &weighted[..m * 3],
        out,
        work,
    )
}

// Adds a variant's product to the sum that the first n rows of the buffer are, apart.
fn add_variant(
    arities: &[u64],
    listings: &[u64],
    table: &[u64],
    place: usize,
    g: u64,
    value: &[u64],
    sum: &mut [u64],
    n: usize,
    work: &mut [u64],
) -> Result<usize, Refusal>
    requires variant_task { VariantTask arities.now listings.now table.now place value.now sum.old work.old }
    requires g_le_highest_value { g ≤ highest_value }
    requires buffer_listing { BufferListing arities.now n sum.old }
    ensures { Given arities.now (variant_added arities.now g (diagram_of value.now) (diagram_of (take (n * 3) sum.old)) (variant_at listings.now table.now place)) result sum.new }
{
    let mut product = [0u64; diagram::RESULT_WORDS];
    let a = variant_product(
        arities,
        listings,
        table,
        place,
        g,
        value,
        &mut product,
        work,
    );
    let Ok(m) = a else {
        return a;
    };
    steps::add_apart(arities, sum, n, &product[..m * 3], work)
}

// The sum over the variants of an action, begun at leaf 0.
pub fn variants_sum(
    arities: &[u64],
    listings: &[u64],
    table: &[u64],
    action: usize,
    g: u64,
    value: &[u64],
    out: &mut [u64],
    work: &mut [u64],
) -> Result<usize, Refusal>
    requires action_task { ActionTask arities.now listings.now table.now action }
    requires value_task { ValueTask arities.now value.now g out.old work.old }
    ensures { Given arities.now (variants_sum arities.now g (diagram_of value.now) (leaf 0) (action_at listings.now table.now action).variants) result out.new }
{
    let variants = table[action * model::ACTION_WORDS + 1] as usize;
    let mut n = steps::begin(out);
    for v in 0..variants {
        let place = action * model::ACTION_WORDS + 2 + v * model::VARIANT_WORDS;
        let r = add_variant(arities, listings, table, place, g, value, out, n, work);
        let Ok(m) = r else {
            return r;
        };
        n = m;
    }
    Ok(n)
}

// Frees the parameters of an action that has `count` of them, and closes up.
fn free_up(arities: &[u64], words: &[u64], count: u64, out: &mut [u64]) -> Result<usize, Refusal>
    requires { FreeUp arities.now words.now count out.old }
    ensures { Given arities.now (freed_up arities.now count (diagram_of words.now)) result out.new }
{
    let r = freeing::free_checked(arities, words, count, out);
    let Ok(n) = r else {
        return r;
    };
    apart::close_up(arities, out, n);
    Ok(n)
}

// The sum over the variants of an action, freed and closed up.
fn action_value(
    arities: &[u64],
    listings: &[u64],
    table: &[u64],
    action: usize,
    g: u64,
    value: &[u64],
    out: &mut [u64],
    work: &mut [u64],
) -> Result<usize, Refusal>
    requires action_task { ActionTask arities.now listings.now table.now action }
    requires value_task { ValueTask arities.now value.now g out.old work.old }
    ensures { Given arities.now (action_value arities.now g (diagram_of value.now) (action_at listings.now table.now action)) result out.new }
{
    let mut sum = [0u64; diagram::RESULT_WORDS];
    let a = variants_sum(arities, listings, table, action, g, value, &mut sum, work);
    let Ok(n) = a else {
        return a;
    };
    let count = table[action * model::ACTION_WORDS];
    free_up(arities, &sum[..n * 3], count, out)
}

// Takes the max of the best so far, which the first n rows of the buffer are, and an action's value, names shared.
fn try_action(
    arities: &[u64],
    listings: &[u64],
    table: &[u64],
    action: usize,
    g: u64,
    value: &[u64],
    best: &mut [u64],
    n: usize,
    work: &mut [u64],
) -> Result<usize, Refusal>
    requires action_task { ActionTask arities.now listings.now table.now action }
    requires value_task { ValueTask arities.now value.now g best.old work.old }
    requires buffer_listing { BufferListing arities.now n best.old }
    ensures { Given arities.now (action_tried arities.now g (diagram_of value.now) (diagram_of (take (n * 3) best.old)) (action_at listings.now table.now action)) result best.new }
{
    let mut gain = [0u64; diagram::RESULT_WORDS];
    let a = action_value(arities, listings, table, action, g, value, &mut gain, work);
    let Ok(m) = a else {
        return a;
    };
    steps::fold_shared(Operation::Max, arities, best, n, &gain[..m * 3], work)
}

// The best over the actions, begun at leaf 0.
fn actions_best(
    arities: &[u64],
    listings: &[u64],
    table: &[u64],
    head: Head,
    value: &[u64],
    out: &mut [u64],
    work: &mut [u64],
) -> Result<usize, Refusal>
    requires laid { Laid arities.now listings.now table.now head }
    requires value_task { ValueTask arities.now value.now head.numerator out.old work.old }
    ensures { Given arities.now (actions_best arities.now head.numerator (diagram_of value.now) (leaf 0) (model_of arities.now listings.now table.now head).actions) result out.new }
{
    let actions = head.actions;
    let g = head.numerator;
    let mut n = steps::begin(out);
    for a in 0..actions {
        let r = try_action(arities, listings, table, a, g, value, out, n, work);
        let Ok(m) = r else {
            return r;
        };
        n = m;
    }
    Ok(n)
}

// The reward times leaf S^(k+1), names shared.
fn scale_reward(
    arities: &[u64],
    listings: &[u64],
    head: Head,
    scale: u64,
    out: &mut [u64],
    work: &mut [u64],
) -> Result<usize, Refusal>
    requires { RewardTask arities.now listings.now head scale out.old work.old }
    ensures { Given arities.now (combined Product Shared arities.now (diagram_of (reward_words listings.now head)) (leaf scale)) result out.new }
{
    let start = head.reward_start;
    let end = start + head.reward_words;
    steps::times_leaf(arities, &listings[start..end], scale, out, work)
}

// The calls of a backup, once 12 is judged: the best over the actions, then the reward times leaf S^(k+1), then the best plus that, apart.
fn replace_value(
    arities: &[u64],
    listings: &[u64],
    table: &[u64],
    head: Head,
    scale: u64,
    value: &mut [u64],
    rows: usize,
    work: &mut [u64],
) -> Result<usize, Refusal>
    requires laid { Laid arities.now listings.now table.now head }
    requires standing { Standing arities.now value.old rows work.old }
    requires scale_le_highest_value { scale ≤ highest_value }
    ensures { Wrote arities.now (row_of_calls (model_of arities.now listings.now table.now head) scale (diagram_of (take (rows * 3) value.old))) result value.old value.new }
{
    let mut best = [0u64; diagram::RESULT_WORDS];
    let mut reward = [0u64; diagram::RESULT_WORDS];
    let a = actions_best(
        arities,
        listings,
        table,
        head,
        &value[..rows * 3],
        &mut best,
        work,
    );
    let Ok(n) = a else {
        return a;
    };
    let b = scale_reward(arities, listings, head, scale, &mut reward, work);
    let Ok(m) = b else {
        return b;
    };
    steps::sum_apart(arities, &best[..n * 3], &reward[..m * 3], value, work)
}

// k, at most.
const STEPS: u64 = 1000000000000000000;

// S^(k+1), at most.
const SCALE: u64 = 1000000000000000000;

// S^(k+1) from S^k, or 12: it is above 10^18, or k is 10^18.
fn next_power(head: Head, k: u64, power: u64) -> Option<u64>
    requires numbers { Numbers head }
    requires powered { Powered head k power }
    ensures { result ≡ power_as (scale_of head) k }
{
    let scale = head.total * head.denominator;
    if k == STEPS {
        return None;
    }
    if power > SCALE / scale {
        return None;
    }
    Some(power * scale)
}

// The answer of the calls of a backup, with S^(k+1), as that of the backup.
fn backed_step(r: Result<usize, Refusal>, scale: u64) -> Result<(usize, u64), Refusal>
    ensures { result ≡ backed_step scale r }
{
    match r {
        Ok(n) => Ok((n, scale)),
        Err(e) => Err(e),
    }
}

// A backup of the value, whose listing is the first rows of the buffer; `power` is S^k. A refusal changes nothing. Answers the rows of the new value and S^(k+1).
pub fn backup(
    arities: &[u64],
    listings: &[u64],
    table: &[u64],
    head: Head,
    k: u64,
    power: u64,
    value: &mut [u64],
    rows: usize,
    work: &mut [u64],
) -> Result<(usize, u64), Refusal>
    requires laid { Laid arities.now listings.now table.now head }
    requires standing { Standing arities.now value.old rows work.old }
    requires powered { Powered head k power }
    ensures { BackedUp arities.now (model_of arities.now listings.now table.now head) k (diagram_of (take (rows * 3) value.old)) result value.old value.new }
{
    let p = next_power(head, k, power);
    let Some(scale) = p else {
        return Err(Refusal::Scale);
    };
    let r = replace_value(arities, listings, table, head, scale, value, rows, work);
    let Ok(n) = r else {
        return backed_step(r, scale);
    };
    Ok((n, scale))
}

// What a run holds beside the value's listing: its rows, k and S^k.
#[derive(Clone, Copy)]
pub struct RunNumbers {
    pub rows: usize,
    pub steps: u64,
    pub power: u64,
}

// Writes the reward's listing to the value's buffer; its rows.
pub fn take_reward(listings: &[u64], head: Head, value: &mut [u64]) -> usize
    requires { Takeable listings.now head value.old }
    ensures { Taken listings.now head result value.new }
{
    let start = head.reward_start;
    let words = head.reward_words;
    let rows = words / 3;
    write::copy(&listings[start..start + words], rows, value);
    rows
}
