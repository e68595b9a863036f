// The value call: an index of the facts, a pruned walk over the rows, and the checks before it; and the walk alone, with objects for the parameters, on what is prepared once.
#![tactic(auto)]

ghost use Rattle.std.specs.Prelude.{◌≡◌, true, false, not, cond, [], suc, ◌+◌, ◌-◌, ◌*◌, ◌^◌, ◌<◌, ◌≤◌, max, length, get_or, eqb, leb};
ghost use Rattle.label.specs.Limits.{term_end, first_parameter, parameter_count, first_variable, first_minimum};
ghost use Rattle.diagram.specs.Sizes.{highest_value, most_rows};
ghost use Rattle.diagram.specs.Listing.{diagram_of};
ghost use Rattle.diagram.specs.Variables.{is_plain};
ghost use Rattle.diagram.specs.Words.{high_at, low_at, row_count, is_listing, every_below};
ghost use Rattle.listing.specs.Used.{Used, set_from, marked_variables, marked_minimums};
ghost use Rattle.state.specs.Lent.{fact_words, fact_count, some_below, all_below, names_below, constants_below, is_state};
ghost use Rattle.state.specs.ValueCall.{most_valuations};
ghost use Rattle.elimination.specs.Answer.{value_answer};
ghost use Rattle.fact_index.specs.Index.{buckets};
ghost use Rattle.fact_index.specs.Inner.{indexed_count, Indexed, Clean, Sought};
ghost use Rattle.valuing.specs.Asking.{says, Placed, Asked};
ghost use Rattle.valuing.specs.Tables.{tables_answer, Liftable};
ghost use Rattle.valuing.specs.Walks.{bound_number, bound_answer, climbed, is_few, InState, Prepared};
ghost use Rattle.valuing.specs.Search.{free, Topping, TopsBy, Tops, top_by, fixed_in, Placing, lent_holds, given, Labelled, LooksUp, Telling, Best, Ready};
ghost use Rattle.valuing.specs.Rising.{turned, Risen, Settled, Topmost, Chosen, Rising, Next};

use label::{Label, Term};
use refusal::Refusal;
use state::{FACT_WORDS, VALUATIONS};

// What a label's places say: a term that has no object yet, or the bucket of the fact that it asks for.
#[derive(Clone, Copy)]
pub enum Lookup {
    Free(usize),
    Bucket(usize),
}

// What stands for a term that has no object yet.
const FREE: u64 = 18446744073709551615;
// Rows of facts that a value's own index holds: all of a text's state; and where there are more.
const FEW_FACTS: usize = 1024;

const MANY_FACTS: usize = 4096;
// Words of an index that holds them.
const FEW_WORDS: usize = fact_index::BUCKETS + FEW_FACTS;

const MANY_WORDS: usize = fact_index::BUCKETS + MANY_FACTS;

// Whether row i says what the label with k places asks for.
fn row_says(facts: &[u64], i: usize, env: &[u64], l: Label, k: u64) -> bool
    requires fact_words_in_bounds { i * fact_words + fact_words ≤ length facts.now }
    requires placed { Placed env.now l.packed k }
    ensures { result ≡ says facts.now env.now l.packed k i }
{
    if facts[i * FACT_WORDS] != l.predicate() {
        return false;
    }
    for j in 0..k {
        let t = l.place(j) as usize;
        if facts[i * FACT_WORDS + 1 + (j as usize)] != env[t] {
            return false;
        }
    }
    true
}

// Whether an indexed row says it.
fn indexed(facts: &[u64], index: &[u64], env: &[u64], l: Label, k: u64, bucket: usize) -> bool
    requires { Asked facts.now index.now env.now l.packed k bucket }
    ensures { Sought (says facts.now env.now l.packed k) 0 (indexed_count facts.now index.now) result }
{
    let mut at = index[bucket] as usize;
    while at != 0 {
        let i = at - 1;
        if row_says(facts, i, env, l, k) {
            return true;
        }
        at = index[fact_index::BUCKETS + i] as usize;
    }
    false
}

// Whether a row from `from` on says it: those behind the indexed ones.
fn scanned(facts: &[u64], env: &[u64], l: Label, k: u64, from: usize) -> bool
    requires { Placed env.now l.packed k }
    ensures { Sought (says facts.now env.now l.packed k) from (fact_count facts.now) result }
{
    let rows = facts.len() / FACT_WORDS;
    for i in from..rows {
        if row_says(facts, i, env, l, k) {
            return true;
        }
    }
    false
}

// Whether a row of the facts says what the label with k places asks for.
fn found(facts: &[u64], index: &[u64], env: &[u64], l: Label, k: u64, bucket: usize) -> bool
    requires { Asked facts.now index.now env.now l.packed k bucket }
    ensures { result ≡ some_below (fact_count facts.now) (says facts.now env.now l.packed k) }
{
    indexed(facts, index, env, l, k, bucket)
        || scanned(facts, env, l, k, index.len() - fact_index::BUCKETS)
}

// Looks up the objects of the label's places, one after the other.
fn look_up(arities: &[u64], env: &[u64], l: Label) -> Lookup
    requires { Labelled arities.now env.now l.packed }
    ensures { LooksUp arities.now env.now l.packed result }
{
    let p = l.predicate();
    let q = p as usize;
    let k = arities[q];
    let mut h = fact_index::hash_start(p);
    for j in 0..k {
        let t = l.place(j) as usize;
        let o = env[t];
        if o == FREE {
            return Lookup::Free(t);
        }
        h = fact_index::hash_step(h, o);
    }
    Lookup::Bucket(fact_index::bucket(h))
}

// Whether the label holds of its objects.
fn truth(
    arities: &[u64],
    facts: &[u64],
    index: &[u64],
    env: &[u64],
    l: Label,
    bucket: usize,
) -> bool
    requires { Telling arities.now facts.now index.now env.now l.packed bucket }
    ensures { result ≡ lent_holds arities.now facts.now (given env.now) l.packed }
{
    let p = l.predicate();
    if p == Label::EQUALITY {
        let t = l.place(0) as usize;
        let u = l.place(1) as usize;
        return env[t] == env[u];
    }
    let q = p as usize;
    found(facts, index, env, l, arities[q], bucket)
}

// The row under a test's answer.
fn follow(words: &[u64], r: usize, answer: bool) -> usize
    requires { r * 3 + 3 ≤ length words.now }
    ensures { result ≡ cond answer (high_at words.now r) (low_at words.now r) }
{
    if answer {
        return words[r * 3 + 1] as usize;
    }
    words[r * 3 + 2] as usize
}

// Follows the rows from r0 on while the best leaf below can be passed. best and the answer are one more than the best leaf, 0 for none.
#[cycle(bind_go)]
fn go(
    words: &[u64],
    high: &[u64],
    arities: &[u64],
    facts: &[u64],
    index: &[u64],
    env: &mut [u64],
    n: u64,
    r0: usize,
    best: u64,
) -> u64
    requires ready { Ready words.now high.now arities.now facts.now index.now env.old n }
    requires r0_bound { r0 < row_count words.now }
    ensures { Best arities.now facts.now words.now high.now env.old n r0 best result env.new }
{
    let mut r = r0;
    while high[r] >= best {
        let w = words[r * 3];
        if w == Label::LEAF {
            return high[r] + 1;
        }
        let l = Label { packed: w };
        match look_up(arities, env, l) {
            Lookup::Free(t) => {
                return bind(words, high, arities, facts, index, env, n, r, t, best);
            }
            Lookup::Bucket(b) => {
                r = follow(words, r, truth(arities, facts, index, env, l, b));
            }
        }
    }
    best
}

// Gives the term t each object in turn, and follows the rows from r on.
#[cycle(bind_go)]
fn bind(
    words: &[u64],
    high: &[u64],
    arities: &[u64],
    facts: &[u64],
    index: &[u64],
    env: &mut [u64],
    n: u64,
    r: usize,
    t: usize,
    best: u64,
) -> u64
    requires ready { Ready words.now high.now arities.now facts.now index.now env.old n }
    requires r_bound { r < row_count words.now }
    requires t_lt_term_end { t < term_end }
    requires t_value { get_or env.old t 0 ≡ free }
    ensures { Best arities.now facts.now words.now high.now env.old n r best result env.new }
{
    let mut b = best;
    for v in 0..n {
        if high[r] < b {
            env[t] = FREE;
            return b;
        }
        env[t] = v;
        b = go(words, high, arities, facts, index, env, n, r, b);
    }
    env[t] = FREE;
    b
}

// The highest leaf below row i, where its children's are known.
fn top(words: &[u64], high: &[u64], i: usize) -> u64
    requires topping { Topping words.now high.now }
    requires i_bound { i < row_count words.now }
    ensures { result ≡ top_by (λ x. x) words.now high.now i }
{
    if words[i * 3] == Label::LEAF {
        return words[i * 3 + 1];
    }
    let t = words[i * 3 + 1] as usize;
    let f = words[i * 3 + 2] as usize;
    high[t].max(high[f])
}

// Each row's highest leaf.
pub fn tops(words: &[u64], high: &mut [u64])
    requires { Topping words.now high.old }
    ensures { Tops words.now high.new (row_count words.now) }
{
    let rows = words.len() / 3;
    for i in 0..rows {
        let x = top(words, high, i);
        high[i] = x;
    }
}

// What stands for the leaf x where the lowest leaf is sought: the lower it is, the higher, and what is below best as high as can be.
fn turned_leaf(best: u64, x: u64) -> u64
    requires { x ≤ highest_value }
    ensures { result ≡ turned best x }
{
    if x < best {
        return diagram::VALUE;
    }
    diagram::VALUE - x
}

// The highest that stands for a leaf below row i, where its children's are known.
fn low_top(words: &[u64], low: &[u64], best: u64, i: usize) -> u64
    requires topping { Topping words.now low.now }
    requires i_bound { i < row_count words.now }
    ensures { result ≡ top_by (turned best) words.now low.now i }
{
    if words[i * 3] == Label::LEAF {
        return turned_leaf(best, words[i * 3 + 1]);
    }
    top(words, low, i)
}

// Each row's.
fn turn(words: &[u64], best: u64, low: &mut [u64])
    requires { Topping words.now low.old }
    ensures { TopsBy (turned best) words.now low.new (row_count words.now) }
{
    let rows = words.len() / 3;
    for i in 0..rows {
        let x = low_top(words, low, best, i);
        low[i] = x;
    }
}

// The lowest leaf where all maximum variables have objects: the higher of best and one more than it.
fn settle(
    words: &[u64],
    low: &mut [u64],
    arities: &[u64],
    facts: &[u64],
    index: &[u64],
    env: &mut [u64],
    n: u64,
    best: u64,
) -> u64
    requires { Rising words.now low.old arities.now facts.now index.now env.old n first_minimum best }
    ensures { Settled arities.now facts.now words.now env.old n best result low.new env.new }
{
    let root = words.len() / 3 - 1;
    let a = go(words, low, arities, facts, index, env, n, root, 0);
    let b = diagram::VALUE + 2 - a;
    if b <= best {
        return best;
    }
    turn(words, b, low);
    b
}

// The first maximum variable from t on that is marked, or where they end.
fn next_marked(marks: &[u64], t: usize) -> usize
    requires marks_len { length marks.now ≡ term_end }
    requires t_le_first_minimum { t ≤ first_minimum }
    ensures { Next marks.now t result }
{
    for r in t..Term::FIRST_MINIMUM as usize {
        if marks[r] != 0 {
            return r;
        }
    }
    Term::FIRST_MINIMUM as usize
}

// Gives the maximum variables from t on that are marked each choice of objects, and finds the lowest leaf beneath each, until the best reaches what no leaf passes:
// the higher of best and one more than the highest of these. low is made anew where the best rises.
fn rise(
    words: &[u64],
    low: &mut [u64],
    arities: &[u64],
    facts: &[u64],
    index: &[u64],
    marks: &[u64],
    env: &mut [u64],
    n: u64,
    t: usize,
    most: u64,
    best: u64,
) -> u64
    requires rising { Rising words.now low.old arities.now facts.now index.now env.old n t best }
    requires used { Used arities.now (diagram_of words.now) marks.now }
    requires topmost { Topmost arities.now facts.now words.now env.old n most }
    ensures { Settled arities.now facts.now words.now env.old n best result low.new env.new }
{
    if t == (Term::FIRST_MINIMUM as usize) {
        return settle(words, low, arities, facts, index, env, n, best);
    }
    let next = next_marked(marks, t + 1);
    let mut b = best;
    for v in 0..n {
        if most <= b {
            env[t] = FREE;
            return b;
        }
        env[t] = v;
        b = rise(
            words, low, arities, facts, index, marks, env, n, next, most, b,
        );
    }
    env[t] = FREE;
    b
}

// The same for all maximum variables.
fn rise_all(
    words: &[u64],
    arities: &[u64],
    facts: &[u64],
    index: &[u64],
    env: &mut [u64],
    n: u64,
    most: u64,
    best: u64,
) -> u64
    requires chosen { Chosen words.now arities.now facts.now index.now env.old n first_variable }
    requires topmost { Topmost arities.now facts.now words.now env.old n most }
    ensures { Risen arities.now facts.now words.now env.old n best result }
{
    let mut marks = [0u64; Term::END as usize];
    listing::used(arities, words, &mut marks);
    let mut low = [0u64; diagram::ROWS];
    turn(words, best, &mut low);
    let first = next_marked(&marks, Term::FIRST_VARIABLE as usize);
    rise(
        words, &mut low, arities, facts, index, &marks, env, n, first, most, best,
    )
}

// The object of constant c.
fn constant(constants: &[u64], c: usize) -> u64
    ensures { result ≡ get_or constants.now c 0 }
{
    if c < constants.len() {
        return constants[c];
    }
    0
}

// The object of the term t, which is no variable: a parameter that has no object has that of constant 0.
fn fixed(constants: &[u64], objects: &[u64], t: usize) -> u64
    ensures { result ≡ fixed_in constants.now objects.now t }
{
    if t < (Term::FIRST_PARAMETER as usize) {
        return constant(constants, t);
    }
    let k = t - (Term::FIRST_PARAMETER as usize);
    if k < objects.len() {
        return objects[k];
    }
    constant(constants, 0)
}

// Gives the terms that are no variables their objects.
fn start(constants: &[u64], objects: &[u64], env: &mut [u64])
    requires { length env.old ≡ term_end }
    ensures { Placing constants.now objects.now env.old env.new first_variable }
{
    for t in 0..Term::FIRST_VARIABLE as usize {
        let o = fixed(constants, objects, t);
        env[t] = o;
    }
}

// The higher of best and one more than the number, by the walk over rows: it is abandoned where it cannot pass best. plain says that there is no minimum variable.
fn climb_rows(
    arities: &[u64],
    words: &[u64],
    high: &[u64],
    n: u64,
    constants: &[u64],
    facts: &[u64],
    index: &[u64],
    objects: &[u64],
    plain: bool,
    best: u64,
) -> u64
    requires prepared { Prepared arities.now words.now high.now n constants.now facts.now index.now }
    requires objects_value { all_below n objects.now ≡ true }
    requires plain_value { plain ≡ is_plain arities.now (diagram_of words.now) }
    ensures { result ≡ max best (suc (bound_number arities.now words.now n constants.now facts.now objects.now)) }
{
    let root = words.len() / 3 - 1;
    if high[root] < best {
        return best;
    }
    let mut env = [FREE; Term::END as usize];
    start(constants, objects, &mut env);
    let most = go(words, high, arities, facts, index, &mut env, n, root, best);
    if plain {
        return most;
    }
    if most == best {
        return best;
    }
    rise_all(words, arities, facts, index, &mut env, n, most, best)
}

// The number of a listing in a state whose facts are indexed; parameters have the object of constant 0. What stands in `high` does not matter.
fn number_of(
    arities: &[u64],
    words: &[u64],
    n: u64,
    constants: &[u64],
    facts: &[u64],
    index: &[u64],
    high: &mut [u64],
    plain: bool,
) -> u64
    requires in_state { InState arities.now words.now n constants.now facts.now plain }
    requires indexed { Indexed arities.now facts.now index.now (indexed_count facts.now index.now) }
    requires most_rows_in_bounds { most_rows ≤ length high.old }
    ensures { result ≡ bound_number arities.now words.now n constants.now facts.now [] }
{
    tops(words, high);
    let best = climb_rows(
        arities,
        words,
        high,
        n,
        constants,
        facts,
        index,
        &constants[..0],
        plain,
        0,
    );
    best - 1
}

// The same, the facts being indexed first, in a clean index that is lent.
fn number_in(
    arities: &[u64],
    words: &[u64],
    n: u64,
    constants: &[u64],
    facts: &[u64],
    index: &mut [u64],
    plain: bool,
) -> u64
    requires in_state { InState arities.now words.now n constants.now facts.now plain }
    requires clean { Clean index.old }
    ensures { result ≡ bound_number arities.now words.now n constants.now facts.now [] }
{
    fact_index::index_facts(arities, facts, index);
    let mut high = [0u64; diagram::ROWS];
    number_of(arities, words, n, constants, facts, index, &mut high, plain)
}

// The same, with an index of that many words made for it.
fn number_with<const WORDS: usize>(
    arities: &[u64],
    words: &[u64],
    n: u64,
    constants: &[u64],
    facts: &[u64],
    plain: bool,
) -> u64
    requires in_state { InState arities.now words.now n constants.now facts.now plain }
    requires buckets_le_words { buckets ≤ WORDS }
    requires words_fit { WORDS < 2 ^ 60 }
    ensures { result ≡ bound_number arities.now words.now n constants.now facts.now [] }
{
    let mut index = [0u64; WORDS];
    number_in(arities, words, n, constants, facts, &mut index, plain)
}

// Whether a parameter is marked.
fn has_parameter(marks: &[u64]) -> bool
    requires { length marks.now ≡ term_end }
    ensures { result ≡ not (eqb (set_from marks.now first_parameter parameter_count) 0) }
{
    for k in 0..Term::PARAMETERS as usize {
        if marks[(Term::FIRST_PARAMETER as usize) + k] != 0 {
            return true;
        }
    }
    false
}

// Whether n to the power v is within the limit.
fn few(n: u64, v: u64) -> bool
    requires { 0 < n }
    ensures { result ≡ leb (n ^ v) most_valuations }
{
    if v == 0 {
        return true;
    }
    if n > VALUATIONS {
        return false;
    }
    let mut p = 1;
    for i in 0..v {
        p = p * n;
        if p > VALUATIONS {
            return false;
        }
    }
    true
}

// Whether n to the power of the marked variables of both kinds is within the limit.
fn is_small(n: u64, marks: &[u64]) -> bool
    requires n_nonzero { 0 < n }
    requires marks_len { length marks.now ≡ term_end }
    ensures { result ≡ leb (n ^ (marked_variables marks.now + marked_minimums marks.now)) most_valuations }
{
    few(
        n,
        (listing::count_variables(marks) + listing::count_minimums(marks)) as u64,
    )
}

// Whether row i of the facts names objects below n only.
fn row_fits(arities: &[u64], n: u64, facts: &[u64], i: usize) -> bool
    requires { i * fact_words + fact_words ≤ length facts.now }
    ensures { result ≡ names_below arities.now n facts.now i }
{
    let k = fact_index::place_count(arities, facts[i * FACT_WORDS]);
    for j in 0..k {
        if facts[i * FACT_WORDS + 1 + j] >= n {
            return false;
        }
    }
    true
}

// Whether the facts name objects below n only.
fn facts_fit(arities: &[u64], n: u64, facts: &[u64]) -> bool
    ensures { result ≡ every_below (fact_count facts.now) (names_below arities.now n facts.now) }
{
    let rows = facts.len() / FACT_WORDS;
    for i in 0..rows {
        if !row_fits(arities, n, facts, i) {
            return false;
        }
    }
    true
}

// Whether the constants' objects are below n.
fn constants_fit(n: u64, constants: &[u64]) -> bool
    ensures { result ≡ constants_below n constants.now }
{
    for c in 0..Term::CONSTANTS as usize {
        if constant(constants, c) >= n {
            return false;
        }
    }
    true
}

// Whether there is an object, and no object named is n or beyond.
pub fn state_fits(arities: &[u64], n: u64, constants: &[u64], facts: &[u64]) -> bool
    ensures { result ≡ is_state arities.now n constants.now facts.now }
{
    if n == 0 {
        return false;
    }
    constants_fit(n, constants) && facts_fit(arities, n, facts)
}

// The second way of working: by tables, unless there is a minimum variable or these have too many entries.
fn by_tables(
    arities: &[u64],
    words: &[u64],
    n: u64,
    constants: &[u64],
    facts: &[u64],
    objects: &[u64],
    plain: bool,
) -> Result<u64, Refusal>
    requires words_value { is_listing arities.now words.now ≡ true }
    requires facts_value { is_state arities.now n constants.now facts.now ≡ true }
    requires objects_value { all_below n objects.now ≡ true }
    requires plain_value { plain ≡ is_plain arities.now (diagram_of words.now) }
    ensures { result ≡ tables_answer arities.now words.now n constants.now facts.now objects.now }
{
    if !plain {
        return Err(Refusal::Valuations);
    }
    let mut above = [0u64; diagram::ROWS];
    eliminate::find_above(arities, words, &mut above);
    let mut env = [0u64; Term::END as usize];
    start(constants, objects, &mut env);
    let mut heads = [0u64; diagram::ROWS * 2];
    let mut space = [0u64; eliminate::ENTRIES as usize];
    let (next, used) = eliminate::work(
        arities, facts, words, &above, &mut heads, &mut space, &mut env, n,
    )
    .ok_or(Refusal::Valuations)?;
    let root = words.len() / 3 - 1;
    let at = heads[root * 2 + 1] as usize;
    Ok(space[at])
}

// The best so far after the answer r.
fn lifted(r: Result<u64, Refusal>, best: u64) -> Result<u64, Refusal>
    requires { Liftable r }
    ensures { result ≡ climbed best r }
{
    let v = r?;
    if v < best {
        return Ok(best);
    }
    Ok(v + 1)
}

// One value more, with objects for the parameters, on rows and facts prepared once: the higher of best and one more than the number. best is one more than the best
// number so far, 0 for none; few says that the first way of working may be taken, plain that there is no minimum variable.
pub fn climb(
    arities: &[u64],
    words: &[u64],
    high: &[u64],
    n: u64,
    constants: &[u64],
    facts: &[u64],
    index: &[u64],
    objects: &[u64],
    few: bool,
    plain: bool,
    best: u64,
) -> Result<u64, Refusal>
    requires prepared { Prepared arities.now words.now high.now n constants.now facts.now index.now }
    requires objects_value { all_below n objects.now ≡ true }
    requires few_value { few ≡ is_few arities.now n words.now }
    requires plain_value { plain ≡ is_plain arities.now (diagram_of words.now) }
    ensures { result ≡ climbed best (bound_answer arities.now words.now n constants.now facts.now objects.now) }
{
    if few {
        return Ok(climb_rows(
            arities, words, high, n, constants, facts, index, objects, plain, best,
        ));
    }
    lifted(
        by_tables(arities, words, n, constants, facts, objects, plain),
        best,
    )
}

// Whether the first way of working may be taken: few enough valuations.
pub fn is_few(arities: &[u64], words: &[u64], n: u64) -> bool
    requires words_value { is_listing arities.now words.now ≡ true }
    requires n_nonzero { 0 < n }
    ensures { result ≡ is_few arities.now n words.now }
{
    let mut marks = [0u64; Term::END as usize];
    listing::used(arities, words, &mut marks);
    is_small(n, &marks)
}

// Whether there is no minimum variable.
pub fn is_plain(arities: &[u64], words: &[u64]) -> bool
    requires { is_listing arities.now words.now ≡ true }
    ensures { result ≡ is_plain arities.now (diagram_of words.now) }
{
    let mut marks = [0u64; Term::END as usize];
    listing::used(arities, words, &mut marks);
    listing::is_plain(&marks)
}

// The value of a listing in a state, by the way of working that the count of valuations says; parameters have the object of constant 0.
fn value_by(
    arities: &[u64],
    words: &[u64],
    n: u64,
    constants: &[u64],
    facts: &[u64],
    few: bool,
    plain: bool,
) -> Result<u64, Refusal>
    requires in_state { InState arities.now words.now n constants.now facts.now plain }
    requires few_value { few ≡ is_few arities.now n words.now }
    ensures { result ≡ bound_answer arities.now words.now n constants.now facts.now [] }
{
    if !few {
        return by_tables(arities, words, n, constants, facts, &constants[..0], plain);
    }
    if facts.len() > FEW_FACTS * FACT_WORDS {
        return Ok(number_with::<MANY_WORDS>(arities, words, n, constants, facts, plain));
    }
    Ok(number_with::<FEW_WORDS>(arities, words, n, constants, facts, plain))
}

// The value of a listing in a state, both known to be such.
pub fn value_listed(
    arities: &[u64],
    words: &[u64],
    n: u64,
    constants: &[u64],
    facts: &[u64],
) -> Result<u64, Refusal>
    requires words_value { is_listing arities.now words.now ≡ true }
    requires facts_value { is_state arities.now n constants.now facts.now ≡ true }
    ensures { result ≡ bound_answer arities.now words.now n constants.now facts.now [] }
{
    let mut marks = [0u64; Term::END as usize];
    listing::used(arities, words, &mut marks);
    let small = is_small(n, &marks);
    let plain = listing::is_plain(&marks);
    value_by(arities, words, n, constants, facts, small, plain)
}

// The same, where the facts are indexed, in lent words for the rows' highest leaves.
pub fn value_indexed(
    arities: &[u64],
    words: &[u64],
    n: u64,
    constants: &[u64],
    facts: &[u64],
    index: &[u64],
    high: &mut [u64],
) -> Result<u64, Refusal>
    requires words_value { is_listing arities.now words.now ≡ true }
    requires facts_value { is_state arities.now n constants.now facts.now ≡ true }
    requires indexed { Indexed arities.now facts.now index.now (indexed_count facts.now index.now) }
    requires most_rows_in_bounds { most_rows ≤ length high.old }
    ensures { result ≡ bound_answer arities.now words.now n constants.now facts.now [] }
{
    let mut marks = [0u64; Term::END as usize];
    listing::used(arities, words, &mut marks);
    let plain = listing::is_plain(&marks);
    if is_small(n, &marks) {
        return Ok(number_of(arities, words, n, constants, facts, index, high, plain));
    }
    by_tables(arities, words, n, constants, facts, &constants[..0], plain)
}

// The value of a listing in a state that are lent with an arity list: its number.
pub fn value(
    arities: &[u64],
    words: &[u64],
    n: u64,
    constants: &[u64],
    facts: &[u64],
) -> Result<u64, Refusal>
    ensures { result ≡ value_answer arities.now words.now n constants.now facts.now }
{
    if !listing::check(arities, words) {
        return Err(Refusal::Listing);
    }
    if !state_fits(arities, n, constants, facts) {
        return Err(Refusal::Range);
    }
    let mut marks = [0u64; Term::END as usize];
    listing::used(arities, words, &mut marks);
    if has_parameter(&marks) {
        return Err(Refusal::Unbound);
    }
    let small = is_small(n, &marks);
    let plain = listing::is_plain(&marks);
    value_by(arities, words, n, constants, facts, small, plain)
}
