// Whether words are a session's, as opening or a line left them. What the test says is in specs/.
#![tactic(auto)]

ghost use Rattle.std.specs.Prelude.{◌≡◌, true, ◌||◌, ◌+◌, ◌*◌, ◌^◌, ◌≤◌, eqb, leb, length, get_or};
ghost use Rattle.label.specs.Limits.{predicate_count};
ghost use Rattle.diagram.specs.Words.{every_below};
ghost use Rattle.mdp.specs.Model.{most_actions};
ghost use Rattle.facts.specs.Words.{state_words};
ghost use Rattle.model.specs.Layout.{listing_words, table_words};
ghost use Rattle.model_entry.specs.Inner.{FewVariants};
ghost use Rattle.memory.specs.Memory.{memory_of};
ghost use Rattle.restoring.specs.Restoring.{rooms_fit, counts_fit, arities_fit, head_fits, reward_fits, last_named, last_fits, model_fits, log_fits, state_fits, run_fits, part_fits, is_session};

use declare::Counts;
use facts::Live;
use label::{Label, Term};
use memory::Numbers;
use model::Head;
use planner::RunNumbers;
use session::Part;

// k, at most.
const STEPS: u64 = 1000000000000000000;

// Names of variants, of all actions together.
const VARIANT_NAMES: usize = model::ACTIONS * model::VARIANTS;

// Whether tables of these lengths have their room.
pub fn rooms_fit(
    names: usize,
    arities: usize,
    listings: usize,
    table: usize,
    state: usize,
    value: usize,
) -> bool
    ensures { result ≡ rooms_fit names arities listings table state value }
{
    if names < names::WORDS {
        return false;
    }
    if arities != Label::PREDICATES {
        return false;
    }
    if listings < model::LISTING_WORDS {
        return false;
    }
    if table < model::TABLE_WORDS {
        return false;
    }
    if state < facts::WORDS {
        return false;
    }
    diagram::RESULT_WORDS <= value
}

// Whether counts of names are within their limits.
fn counts_fit(n: Counts) -> bool
    ensures { result ≡ counts_fit n }
{
    if n.constants > (Term::CONSTANTS as usize) {
        return false;
    }
    if n.predicates >= Label::PREDICATES {
        return false;
    }
    if n.actions > model::ACTIONS {
        return false;
    }
    if n.parameters > (Term::PARAMETERS as usize) {
        return false;
    }
    if n.variants > model::VARIANTS {
        return false;
    }
    if n.earlier > VARIANT_NAMES {
        return false;
    }
    n.earlier + n.variants <= VARIANT_NAMES
}

// Whether the predicate p is one of the first n, or has arity 0.
fn arity_fits(arities: &[u64], n: usize, p: usize) -> bool
    ensures { result ≡ (leb p n || eqb (get_or arities.now p 0) 0) }
{
    if p <= n {
        return true;
    }
    truths::word_at(arities, p) == 0
}

// Whether each predicate is.
fn undeclared_fit(arities: &[u64], n: usize) -> bool
    ensures { result ≡ every_below predicate_count (λ p. leb p n || eqb (get_or arities.now p 0) 0) }
{
    for p in 0..Label::PREDICATES {
        if !arity_fits(arities, n, p) {
            return false;
        }
    }
    true
}

// Whether words are an arity list of n declared predicates.
fn arities_fit(arities: &[u64], n: usize) -> bool
    ensures { result ≡ arities_fit arities.now n }
{
    if !label::are_arities(arities) {
        return false;
    }
    undeclared_fit(arities, n)
}

// Whether a model's numbers are within their limits.
fn head_fits(h: Head) -> bool
    ensures { result ≡ head_fits h }
{
    if h.total < 1 {
        return false;
    }
    if h.total > model::TOTAL {
        return false;
    }
    if h.denominator < 1 {
        return false;
    }
    if h.denominator > model::DENOMINATOR {
        return false;
    }
    if h.numerator > h.denominator {
        return false;
    }
    if h.actions > model::ACTIONS {
        return false;
    }
    if h.words > model::LISTING_WORDS {
        return false;
    }
    if h.words / 3 * 3 != h.words {
        return false;
    }
    checking::is_inside(h.reward_start, h.reward_words, h.words)
}

// Whether the reward is a value diagram, if one was accepted, and has no words if not.
fn reward_fits(arities: &[u64], listings: &[u64], h: Head, accepted: bool) -> bool
    requires { h.reward_start + h.reward_words ≤ length listings.now }
    ensures { result ≡ reward_fits arities.now listings.now h accepted }
{
    let start = h.reward_start;
    let count = h.reward_words;
    if !accepted {
        return count == 0;
    }
    if count == 0 {
        return false;
    }
    checking::is_value(arities, &listings[start..start + count])
}

// Whether the last of the actions is the one whose names are kept.
fn last_named(table: &[u64], n: Counts, actions: usize) -> bool
    requires table_words_in_bounds { table_words ≤ length table.now }
    requires actions_le_most_actions { actions ≤ most_actions }
    ensures { result ≡ last_named table.now n actions }
{
    let parameters = n.parameters;
    let variants = n.variants;
    if actions == 0 {
        return variants == 0;
    }
    if (table[(actions - 1) * model::ACTION_WORDS] as usize) != parameters {
        return false;
    }
    (table[(actions - 1) * model::ACTION_WORDS + 1] as usize) == variants
}

// Whether names and actions agree: as many of them, the last one, and the variants of all.
fn last_fits(table: &[u64], n: Counts, actions: usize) -> bool
    requires n_value { counts_fit n ≡ true }
    requires few_variants { FewVariants table.now actions }
    ensures { result ≡ last_fits table.now n actions }
{
    if n.actions != actions {
        return false;
    }
    if !last_named(table, n, actions) {
        return false;
    }
    n.earlier + n.variants == model_entry::variants_before(table, actions)
}

// Whether words are a model while its lines are read, and all of it in the run.
fn model_fits(n: Numbers, arities: &[u64], listings: &[u64], table: &[u64]) -> bool
    requires listing_words_in_bounds { listing_words ≤ length listings.now }
    requires table_words_in_bounds { table_words ≤ length table.now }
    ensures { result ≡ model_fits n arities.now listings.now table.now }
{
    let counts = n.counts;
    let head = n.head;
    let actions = head.actions;
    if !counts_fit(counts) {
        return false;
    }
    if !arities_fit(arities, counts.predicates) {
        return false;
    }
    if !head_fits(head) {
        return false;
    }
    if !reward_fits(arities, listings, head, n.reward) {
        return false;
    }
    if !checking::actions_fit(arities, listings, table, head.words, actions) {
        return false;
    }
    last_fits(table, counts, actions)
}

// Whether count and total of (did ..) lines are at most 10^18, with no total before the first.
fn log_fits(live: Live) -> bool
    ensures { result ≡ log_fits live }
{
    if live.count > diagram::VALUE {
        return false;
    }
    if live.total > diagram::VALUE {
        return false;
    }
    if live.count != 0 {
        return true;
    }
    live.total == 0
}

// Whether words are a state, if one is given.
fn state_fits(arities: &[u64], state: &[u64], live: Live) -> bool
    requires { state_words ≤ length state.now }
    ensures { result ≡ state_fits arities.now state.now live }
{
    let objects = live.objects;
    let rows = live.facts;
    if objects > facts::OBJECTS {
        return false;
    }
    if rows > facts::FACTS {
        return false;
    }
    if !log_fits(live) {
        return false;
    }
    if objects == 0 {
        return true;
    }
    let end = facts::FACTS_BASE + rows * facts::FACT_WORDS;
    valuing::state_fits(
        arities,
        objects,
        &state[..facts::PLACED],
        &state[facts::FACTS_BASE..end],
    )
}

// Whether a number is the k-th power of another.
fn is_power(scale: u64, k: u64, power: u64) -> bool
    requires { 1 ≤ scale }
    ensures { result ≡ eqb power (scale ^ k) }
{
    if scale == 1 {
        return power == 1;
    }
    let mut x = power;
    for i in 0..k {
        if x < scale {
            return false;
        }
        if x % scale != 0 {
            return false;
        }
        x = x / scale;
    }
    x == 1
}

// Whether words are a value diagram, and k and S^k beside it are numbers of a run.
fn run_fits(arities: &[u64], value: &[u64], h: Head, v: RunNumbers) -> bool
    requires h_value { head_fits h ≡ true }
    requires rows_in_bounds { v.rows * 3 ≤ length value.now }
    ensures { result ≡ run_fits arities.now value.now h v }
{
    let rows = v.rows;
    let steps = v.steps;
    if !checking::is_value(arities, &value[..rows * 3]) {
        return false;
    }
    if steps > STEPS {
        return false;
    }
    is_power(h.total * h.denominator, steps, v.power)
}

// What the part of the text asks.
fn part_fits(n: Numbers, arities: &[u64], value: &[u64]) -> bool
    requires head_value { head_fits n.head ≡ true }
    requires rows_in_bounds { n.held.rows * 3 ≤ length value.now }
    ensures { result ≡ part_fits n arities.now value.now n.part }
{
    let part = n.part;
    let live = n.live;
    let head = n.head;
    match part {
        Part::Model => live.objects == 0,
        Part::Run => {
            if !n.reward {
                return false;
            }
            if head.actions < 1 {
                return false;
            }
            run_fits(arities, value, head, n.held)
        }
    }
}

// Whether rows lie within a buffer of so many words.
fn rows_fit(rows: usize, words: usize) -> bool
    ensures { result ≡ leb (rows * 3) words }
{
    rows <= words / 3
}

// Whether numbers and words are a session's.
pub fn is_session(
    n: Numbers,
    names: &[u64],
    arities: &[u64],
    listings: &[u64],
    table: &[u64],
    state: &[u64],
    value: &[u64],
) -> bool
    ensures { result ≡ is_session n (memory_of names.now arities.now listings.now table.now state.now value.now) }
{
    if !rooms_fit(
        names.len(),
        arities.len(),
        listings.len(),
        table.len(),
        state.len(),
        value.len(),
    ) {
        return false;
    }
    if !model_fits(n, arities, listings, table) {
        return false;
    }
    if !state_fits(arities, state, n.live) {
        return false;
    }
    let held = n.held;
    if !rows_fit(held.rows, value.len()) {
        return false;
    }
    part_fits(n, arities, value)
}
