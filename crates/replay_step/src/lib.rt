// The code of one (did ..) line behind its names and counts: 21, the facts of the next state, the rewards met, count and total. What it is stands in crate replay.
// A line answers how many facts the next state has, the count and the total; or the first refusal met.
#![tactic(auto)]

ghost use Rattle.std.specs.Prelude.{◌≡◌, true, ◌+◌, ◌≤◌, eqb};
ghost use Rattle.diagram.specs.Sizes.{highest_value};
ghost use Rattle.diagram.specs.Words.{is_listing};
ghost use Rattle.state.specs.Lent.{is_state};
ghost use Rattle.fact_index.specs.Inner.{indexed_count, Indexed};
ghost use Rattle.model.specs.Layout.{weight_words};
ghost use Rattle.replay.specs.Replay.{facts_of};
ghost use Rattle.next_facts.specs.NextCall.{after_at, Moving};
ghost use Rattle.valuing.specs.Walks.{bound_number};
ghost use Rattle.replay_step.specs.Stepped.{lent_step, StepTask, Steps};
ghost use Rattle.replay_step.specs.Inside.{Weighing, WeighingAt, reward_before, rewards_met, Rewarding, tallied_as, Moves};

use model::Head;
use refusal::Refusal;
use state::FACT_WORDS;

// Whether a weight is 0 in the state, with objects for the parameters. It has no variable of either kind: 15 is not met.
fn is_weightless(
    arities: &[u64],
    words: &[u64],
    n: u64,
    constants: &[u64],
    facts: &[u64],
    index: &[u64],
    objects: &[u64],
) -> bool
    requires { Weighing arities.now words.now n constants.now facts.now index.now objects.now }
    ensures { result ≡ eqb (bound_number arities.now words.now n constants.now facts.now objects.now) 0 }
{
    let mut high = [0u64; diagram::ROWS];
    valuing::tops(words, &mut high);
    let v = valuing::climb(
        arities, words, &high, n, constants, facts, index, objects, true, true, 0,
    );
    let Ok(b) = v else {
        return true;
    };
    b == 1
}

// The same of the variant at a place of the table.
fn has_no_weight(
    arities: &[u64],
    listings: &[u64],
    table: &[u64],
    place: usize,
    n: u64,
    constants: &[u64],
    facts: &[u64],
    index: &[u64],
    objects: &[u64],
) -> bool
    requires { WeighingAt arities.now listings.now table.now place n constants.now facts.now index.now objects.now }
    ensures { result ≡ eqb (bound_number arities.now (weight_words listings.now table.now place) n constants.now facts.now
        objects.now) 0 }
{
    let start = table[place] as usize;
    let end = start + table[place + 1] as usize;
    is_weightless(
        arities,
        &listings[start..end],
        n,
        constants,
        facts,
        index,
        objects,
    )
}

// The reward before the move: it counts on the first line only.
fn reward_before(
    arities: &[u64],
    words: &[u64],
    n: u64,
    constants: &[u64],
    facts: &[u64],
    index: &[u64],
    count: u64,
) -> Result<u64, Refusal>
    requires words_value { is_listing arities.now words.now ≡ true }
    requires facts_value { is_state arities.now n constants.now facts.now ≡ true }
    requires indexed { Indexed arities.now facts.now index.now (indexed_count facts.now index.now) }
    ensures { result ≡ reward_before arities.now words.now n constants.now facts.now count }
{
    if count != 0 {
        return Ok(0);
    }
    let mut high = [0u64; diagram::ROWS];
    valuing::value_indexed(arities, words, n, constants, facts, index, &mut high)
}

// The rewards met by a move from the facts to the next ones, or 15.
fn rewards_met(
    arities: &[u64],
    words: &[u64],
    n: u64,
    constants: &[u64],
    facts: &[u64],
    index: &[u64],
    next: &[u64],
    count: u64,
) -> Result<u64, Refusal>
    requires { Rewarding arities.now words.now n constants.now facts.now index.now next.now }
    ensures { result ≡ rewards_met arities.now words.now n constants.now facts.now next.now count }
{
    let before = reward_before(arities, words, n, constants, facts, index, count)?;
    let after = valuing::value_listed(arities, words, n, constants, next)?;
    Ok(before + after)
}

// One line more, or 23.
fn tallied(facts: usize, count: u64, total: u64, met: u64) -> Result<(usize, u64, u64), Refusal>
    requires count_le_highest_value { count ≤ highest_value }
    requires total_le_highest_value { total ≤ highest_value }
    requires met_bound { met ≤ highest_value + highest_value }
    ensures { result ≡ tallied_as facts count total met }
{
    let lines = count + 1;
    let sum = total + met;
    if lines > diagram::VALUE || sum > diagram::VALUE {
        return Err(Refusal::Tally);
    }
    Ok((facts, lines, sum))
}

// A move that has weight: the facts of the next state are written; then the rewards, by the reward's words, the count and the total.
fn moved(
    arities: &[u64],
    listings: &[u64],
    table: &[u64],
    place: usize,
    words: &[u64],
    n: u64,
    constants: &[u64],
    facts: &[u64],
    index: &[u64],
    count: u64,
    total: u64,
    objects: &[u64],
    out: &mut [u64],
) -> Result<(usize, u64, u64), Refusal>
    requires moving { Moving arities.now listings.now table.now place n constants.now facts.now objects.now out.old }
    requires words_value { is_listing arities.now words.now ≡ true }
    requires indexed { Indexed arities.now facts.now index.now (indexed_count facts.now index.now) }
    requires count_le_highest_value { count ≤ highest_value }
    requires total_le_highest_value { total ≤ highest_value }
    ensures { Moves arities.now words.now n constants.now facts.now
        (facts_of arities.now (after_at arities.now listings.now table.now place n constants.now facts.now
        objects.now)) count total result out.new }
{
    let rows = next_facts::next_facts(
        arities, listings, table, place, n, constants, facts, objects, out,
    )
    .ok_or(Refusal::Crowded)?;
    let met = rewards_met(
        arities,
        words,
        n,
        constants,
        facts,
        index,
        &out[..rows * FACT_WORDS],
        count,
    )?;
    tallied(rows, count, total, met)
}

// One line: the facts of the next state are written; behind them, and after a refusal, words are free.
pub fn step(
    arities: &[u64],
    listings: &[u64],
    table: &[u64],
    head: Head,
    action: usize,
    variant: usize,
    n: u64,
    constants: &[u64],
    facts: &[u64],
    index: &[u64],
    count: u64,
    total: u64,
    objects: &[u64],
    out: &mut [u64],
) -> Result<(usize, u64, u64), Refusal>
    requires { StepTask arities.now listings.now table.now head action variant n constants.now facts.now index.now count total objects.now out.old }
    ensures { Steps (lent_step arities.now listings.now table.now head action variant n constants.now facts.now count total
        objects.now) n constants.now result out.new }
{
    let place = action * model::ACTION_WORDS + 2 + variant * model::VARIANT_WORDS;
    if has_no_weight(
        arities, listings, table, place, n, constants, facts, index, objects,
    ) {
        return Err(Refusal::Weightless);
    }
    let first = head.reward_start;
    let end = first + head.reward_words;
    moved(
        arities,
        listings,
        table,
        place,
        &listings[first..end],
        n,
        constants,
        facts,
        index,
        count,
        total,
        objects,
        out,
    )
}
