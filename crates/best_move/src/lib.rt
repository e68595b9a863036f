// The code of (best): the first move whose sum over variants is highest. What it is stands in crate best.
#![tactic(auto)]

ghost use Rattle.std.specs.Prelude.{◌≡◌, true, ◌++◌, ◌<◌, ◌≤◌, ◌^◌, length, drop};
ghost use Rattle.refusal.specs.Outcome.{ok, and_then};
ghost use Rattle.label.specs.Limits.{parameter_count};
ghost use Rattle.diagram.specs.Words.{is_listing};
ghost use Rattle.diagram.specs.Listing.{diagram_of};
ghost use Rattle.diagram.specs.Variables.{is_plain};
ghost use Rattle.model.specs.Inner.{Laid};
ghost use Rattle.planner.specs.Tasks.{ActionTask};
ghost use Rattle.valuing.specs.Walks.{is_few, Prepared};
ghost use Rattle.best_move.specs.Chosen.{chosen_as, best_chosen, BestTask};
ghost use Rattle.best_move.specs.Inside.{digits, rate_of, led_as, Leading, Rates, first_lead, raised_to, settled, binding_lent, bindings_lent, action_lent, moves_lent};
ghost use Rattle.best_move.specs.Inside.{Rooted, Tupled, Placed, ValueGiven, Answerable};

use label::Term;
use model::Head;
use refusal::Refusal;

// What (best) answers: the action's number, how many objects, and these, 0 where there is none; or the first refusal met.
#[derive(Clone, Copy)]
pub enum Chosen {
    Move(usize, usize, u8, u8, u8, u8),
    Refused(Refusal),
}

// The best move so far: one more than its sum, its action, how many objects, and the number of its tuple of objects.
#[derive(Clone, Copy)]
pub struct Lead {
    pub best: u64,
    pub action: usize,
    pub count: usize,
    pub index: u64,
}

// Parameters of an action at most.
const PARAMETERS: usize = Term::PARAMETERS as usize;

// The tuple of number i among those of `count` objects below n: the digits of i to base n, the first object's the highest.
fn objects_at(i: u64, n: u64, count: usize, objects: &mut [u64])
    requires n_nonzero { 0 < n }
    requires count_in_bounds { count ≤ length objects.old }
    ensures { objects.new ≡ digits n count i ++ drop count objects.old }
{
    let mut rest = i;
    for k in (0..count).rev() {
        objects[k] = rest % n;
        rest = rest / n;
    }
}

// How many tuples of `count` objects below n there are.
fn tuple_count(n: u64, count: usize) -> u64
    requires { Tupled n count }
    ensures { result ≡ n ^ count }
{
    let mut p = 1;
    for k in 0..count {
        p = p * n;
    }
    p
}

// The best so far once a tuple has climbed to b.
fn raised(l: Lead, b: u64, action: usize, count: usize, i: u64) -> Lead
    ensures { result ≡ raised_to l b action count i }
{
    if l.best < b {
        return Lead {
            best: b,
            action,
            count,
            index: i,
        };
    }
    l
}

// The best so far, or the tuple of number i of an action, whose regressed sum is lent, where its value is higher: a tuple that cannot pass the best is abandoned.
fn try_binding(
    arities: &[u64],
    words: &[u64],
    high: &[u64],
    n: u64,
    constants: &[u64],
    facts: &[u64],
    index: &[u64],
    few: bool,
    plain: bool,
    action: usize,
    count: usize,
    i: u64,
    l: Lead,
) -> Result<Lead, Refusal>
    requires prepared { Prepared arities.now words.now high.now n constants.now facts.now index.now }
    requires few_value { few ≡ is_few arities.now n words.now }
    requires tupled { Tupled n count }
    requires leading { Leading l }
    requires plain_value { plain ≡ is_plain arities.now (diagram_of words.now) }
    ensures { Rates n (binding_lent arities.now words.now n constants.now facts.now action count i l) result }
{
    let best = l.best;
    let mut objects = [0u64; PARAMETERS];
    objects_at(i, n, count, &mut objects);
    let b = valuing::climb(
        arities,
        words,
        high,
        n,
        constants,
        facts,
        index,
        &objects[..count],
        few,
        plain,
        best,
    )?;
    Ok(raised(l, b, action, count, i))
}

// Whether no tuple passes the best so far: the first way of working may be taken, and no leaf is that high.
fn is_settled(words: &[u64], high: &[u64], few: bool, best: u64) -> bool
    requires { Rooted words.now high.now }
    ensures { result ≡ settled words.now high.now few best }
{
    few && high[words.len() / 3 - 1] < best
}

// The best so far and the tuples of an action, one after the other, until none that is left can pass it.
fn try_bindings(
    arities: &[u64],
    words: &[u64],
    high: &[u64],
    n: u64,
    constants: &[u64],
    facts: &[u64],
    index: &[u64],
    few: bool,
    plain: bool,
    action: usize,
    count: usize,
    total: u64,
    first: Lead,
) -> Result<Lead, Refusal>
    requires prepared { Prepared arities.now words.now high.now n constants.now facts.now index.now }
    requires few_value { few ≡ is_few arities.now n words.now }
    requires tupled { Tupled n count }
    requires total_value { total ≡ n ^ count }
    requires leading { Leading first }
    requires plain_value { plain ≡ is_plain arities.now (diagram_of words.now) }
    ensures { Rates n (bindings_lent arities.now words.now n constants.now facts.now action count first) result }
{
    let mut l = first;
    for i in 0..total {
        let best = l.best;
        if is_settled(words, high, few, best) {
            return Ok(l);
        }
        l = try_binding(
            arities, words, high, n, constants, facts, index, few, plain, action, count, i, l,
        )?;
    }
    Ok(l)
}

// The best so far and the moves of an action, whose regressed sum is lent: its rows' highest leaves are made once.
fn try_sum(
    arities: &[u64],
    words: &[u64],
    n: u64,
    constants: &[u64],
    facts: &[u64],
    index: &[u64],
    action: usize,
    count: usize,
    l: Lead,
) -> Result<Lead, Refusal>
    requires words_value { is_listing arities.now words.now ≡ true }
    requires placed { Placed arities.now n constants.now facts.now index.now }
    requires count_le_parameter_count { count ≤ parameter_count }
    requires leading { Leading l }
    ensures { Rates n (bindings_lent arities.now words.now n constants.now facts.now action count l) result }
{
    let mut high = [0u64; diagram::ROWS];
    valuing::tops(words, &mut high);
    let few = valuing::is_few(arities, words, n);
    let plain = valuing::is_plain(arities, words);
    let total = tuple_count(n, count);
    try_bindings(
        arities, words, &high, n, constants, facts, index, few, plain, action, count, total, l,
    )
}

// The best so far and the moves of an action: its regressed sum first, then its tuples.
fn try_action(
    arities: &[u64],
    listings: &[u64],
    table: &[u64],
    action: usize,
    g: u64,
    n: u64,
    constants: &[u64],
    facts: &[u64],
    index: &[u64],
    value: &[u64],
    l: Lead,
    work: &mut [u64],
) -> Result<Lead, Refusal>
    requires action_task { ActionTask arities.now listings.now table.now action }
    requires value_given { ValueGiven arities.now value.now g work.old }
    requires placed { Placed arities.now n constants.now facts.now index.now }
    requires leading { Leading l }
    ensures { Rates n (action_lent arities.now listings.now table.now action g n constants.now facts.now value.now l) result }
{
    let mut sum = [0u64; diagram::RESULT_WORDS];
    let rows = planner::variants_sum(arities, listings, table, action, g, value, &mut sum, work)?;
    let count = table[action * model::ACTION_WORDS] as usize;
    try_sum(
        arities,
        &sum[..rows * 3],
        n,
        constants,
        facts,
        index,
        action,
        count,
        l,
    )
}

// The first move of all, with the sum 0.
fn first_lead(table: &[u64], actions: usize) -> Lead
    requires { 0 < length table.now }
    ensures { result ≡ first_lead table.now actions }
{
    let mut count = 0;
    if actions != 0 {
        count = table[0] as usize;
    }
    Lead {
        best: 1,
        action: 0,
        count,
        index: 0,
    }
}

// The best move of all actions, one after the other.
fn try_actions(
    arities: &[u64],
    listings: &[u64],
    table: &[u64],
    head: Head,
    n: u64,
    constants: &[u64],
    facts: &[u64],
    index: &[u64],
    value: &[u64],
    work: &mut [u64],
) -> Result<Lead, Refusal>
    requires laid { Laid arities.now listings.now table.now head }
    requires value_given { ValueGiven arities.now value.now head.numerator work.old }
    requires placed { Placed arities.now n constants.now facts.now index.now }
    ensures { Rates n (moves_lent arities.now listings.now table.now head n constants.now facts.now value.now) result }
{
    let mut l = first_lead(table, head.actions);
    for a in 0..head.actions {
        let g = head.numerator;
        l = try_action(
            arities, listings, table, a, g, n, constants, facts, index, value, l, work,
        )?;
    }
    Ok(l)
}

// The move that a lead is.
fn move_of(l: Lead, n: u64) -> Chosen
    requires { Tupled n l.count }
    ensures { result ≡ chosen_as (ok (rate_of n l).move) }
{
    let count = l.count;
    let mut objects = [0u64; PARAMETERS];
    objects_at(l.index, n, count, &mut objects);
    Chosen::Move(
        l.action,
        count,
        objects[0] as u8,
        objects[1] as u8,
        objects[2] as u8,
        objects[3] as u8,
    )
}

// The answer of the search, as that of the call.
fn answered(r: Result<Lead, Refusal>, n: u64) -> Chosen
    requires { Answerable n r }
    ensures { result ≡ chosen_as (and_then (led_as n r) (λ best. ok best.move)) }
{
    match r {
        Ok(l) => move_of(l, n),
        Err(e) => Chosen::Refused(e),
    }
}

// The first move whose sum is highest, or the first refusal met.
pub fn best_move(
    arities: &[u64],
    listings: &[u64],
    table: &[u64],
    head: Head,
    n: u64,
    constants: &[u64],
    facts: &[u64],
    index: &[u64],
    value: &[u64],
    work: &mut [u64],
) -> Chosen
    requires { BestTask arities.now listings.now table.now head n constants.now facts.now index.now value.now work.old }
    ensures { result ≡ best_chosen arities.now listings.now table.now head n constants.now facts.now value.now }
{
    let r = try_actions(
        arities, listings, table, head, n, constants, facts, index, value, work,
    );
    answered(r, n)
}
