// The facts of the next state: from a state, a variant's lent truth diagrams and the objects of its parameters to rows of facts.
// What writes rows answers how many stand there then, or None where they are more than a state in hand may have.
#![tactic(auto)]

ghost use Rattle.std.specs.Prelude.{◌≡◌, true, ◌||◌, not, suc, pred, ◌+◌, ◌-◌, ◌*◌, ◌<◌, ◌≤◌, length, set, take, drop, [], ◌∷◌};
ghost use Rattle.label.specs.Limits.{most_places, term_end, predicate_count};
ghost use Rattle.label.specs.Labels.{are_arities};
ghost use Rattle.diagram.specs.Words.{row_count};
ghost use Rattle.state.specs.Lent.{fact_words, fact_count, some_below, fact_row};
ghost use Rattle.reduction.specs.Claims.{Lower};
ghost use Rattle.replay.specs.Replay.{facts_of};
ghost use Rattle.next_facts.specs.Reach.{is_open, differs, fits, may_hold, pick_leaf, reached, Placed, Reaching, Marked};
ghost use Rattle.next_facts.specs.Filling.{parameter_word, first_word, Begun, own_place, own_label, objects_in, row_word, under, spread, rows_by, words_at, all_rows};
ghost use Rattle.next_facts.specs.Filling.{Filled, FilledBy, Room, Fillable, Walkable, Askable};
ghost use Rattle.next_facts.specs.Keeping.{Ordered, kept_at, kept_rows, Standing};
ghost use Rattle.next_facts.specs.NextCall.{after_at, Moving, NextFacts};

use label::{Atom, Label, Term};
use state::FACT_WORDS;

// What stands for a term that has no object.
const FREE: u64 = 18446744073709551615;
// Facts of a state in hand, at most.
pub const FACTS: usize = 1024;

const ARGUMENTS: usize = Term::FIRST_VARIABLE as usize;

const TERMS: usize = Term::END as usize;

// Whether the word w is an object, and another than o.
fn differs(w: u64, o: u64) -> bool
    ensures { result ≡ differs w o }
{
    w != FREE && o != w
}

// Whether one of the first k places of the label has no object.
fn is_open(env: &[u64], l: Label, k: u64) -> bool
    requires { Placed env.now l.packed k }
    ensures { result ≡ is_open env.now l.packed k }
{
    for j in 0..k {
        let t = l.place(j) as usize;
        if env[t] == FREE {
            return true;
        }
    }
    false
}

// Whether row i of the facts agrees with the label where its places have objects.
fn fits(facts: &[u64], i: usize, env: &[u64], l: Label, k: u64) -> bool
    requires fact_words_in_bounds { i * fact_words + fact_words ≤ length facts.now }
    requires placed { Placed env.now l.packed k }
    ensures { result ≡ fits facts.now env.now l.packed k i }
{
    if facts[i * FACT_WORDS] != l.predicate() {
        return false;
    }
    for j in 0..k {
        let t = l.place(j) as usize;
        if differs(env[t], facts[i * FACT_WORDS + 1 + (j as usize)]) {
            return false;
        }
    }
    true
}

// Whether some row does.
fn some_fits(facts: &[u64], env: &[u64], l: Label, k: u64) -> bool
    requires { Placed env.now l.packed k }
    ensures { result ≡ some_below (fact_count facts.now) (fits facts.now env.now l.packed k) }
{
    let rows = facts.len() / FACT_WORDS;
    for i in 0..rows {
        if fits(facts, i, env, l, k) {
            return true;
        }
    }
    false
}

// Whether the label can be true, whatever objects its opened places get.
fn may_hold(facts: &[u64], env: &[u64], l: Label, k: u64, opened: bool) -> bool
    requires placed { Placed env.now l.packed k }
    requires opened_value { opened ≡ is_open env.now l.packed k }
    ensures { result ≡ may_hold facts.now env.now l.packed k }
{
    if l.predicate() != Label::EQUALITY {
        return some_fits(facts, env, l, k);
    }
    if opened {
        return true;
    }
    let t = l.place(0) as usize;
    let u = l.place(1) as usize;
    env[t] == env[u]
}

// The leaf of a row, by those of its children.
fn pick(may: bool, opened: bool, x: u64, y: u64) -> u64
    ensures { result ≡ pick_leaf may (opened || not may) x y }
{
    if !may {
        return y;
    }
    if x != 0 {
        return x;
    }
    if opened {
        return y;
    }
    0
}

// The leaf other than 0 that row i comes to, or 0, where its children's are known.
fn mark(arities: &[u64], words: &[u64], facts: &[u64], env: &[u64], marks: &[u64], i: usize) -> u64
    requires reaching { Reaching arities.now words.now env.now marks.now }
    requires marked { Marked arities.now facts.now words.now env.now marks.now i }
    requires i_bound { i < row_count words.now }
    ensures { Marked arities.now facts.now words.now env.now (set marks.now i result) (i + 1) }
{
    let w = words[i * 3];
    let t = words[i * 3 + 1];
    if w == Label::LEAF {
        return t;
    }
    let f = words[i * 3 + 2] as usize;
    let x = marks[t as usize];
    let y = marks[f];
    if x == y {
        return x;
    }
    let l = Label { packed: w };
    let p = l.predicate() as usize;
    let k = arities[p];
    let opened = is_open(env, l, k);
    let may = may_hold(facts, env, l, k, opened);
    pick(may, opened, x, y)
}

// Whether the root comes to a leaf other than 0.
fn reach(arities: &[u64], words: &[u64], facts: &[u64], env: &[u64], marks: &mut [u64]) -> bool
    requires { Reaching arities.now words.now env.now marks.old }
    ensures { result ≡ reached arities.now facts.now words.now env.now }
{
    let rows = words.len() / 3;
    for i in 0..rows {
        let x = mark(arities, words, facts, env, marks, i);
        marks[i] = x;
    }
    marks[rows - 1] != 0
}

// Word i of the row of p with the k objects that stand at the place.
fn row_word(words: &[u64], at: usize, p: u64, k: usize, i: usize) -> u64
    requires { at + k ≤ length words.now }
    ensures { result ≡ row_word words.now at p k i }
{
    if i == 0 {
        return p;
    }
    if i > k {
        return 0;
    }
    words[at + (i - 1)]
}

// Writes one row more, with the k objects that stand at the place.
fn put(words: &[u64], at: usize, out: &mut [u64], p: u64, k: usize, count: usize) -> Option<usize>
    requires k_in_bounds { at + k ≤ length words.now }
    requires k_le_most_places { k ≤ most_places }
    requires room { Room out.old count }
    ensures { Filled (fact_row p (objects_in words.now at k) ∷ []) count out.old result out.new }
{
    if count == FACTS {
        return None;
    }
    for i in 0..FACT_WORDS {
        let w = row_word(words, at, p, k, i);
        out[count * FACT_WORDS + i] = w;
    }
    Some(count + 1)
}

// Writes the rows of p with the arguments that have objects; the last `left` of its k places have none.
#[cycle(fill_spread)]
fn fill(
    arities: &[u64],
    words: &[u64],
    facts: &[u64],
    env: &mut [u64],
    marks: &mut [u64],
    out: &mut [u64],
    n: u64,
    p: u64,
    k: usize,
    left: usize,
    count: usize,
) -> Option<usize>
    requires { Fillable arities.now words.now env.old marks.old out.old k left count }
    ensures { FilledBy (under arities.now facts.now words.now p k n left env.old) count
        env.old out.old result env.new out.new }
{
    if !reach(arities, words, facts, env, marks) {
        return Some(count);
    }
    if left == 0 {
        return put(env, ARGUMENTS, out, p, k, count);
    }
    spread(
        arities,
        words,
        facts,
        env,
        marks,
        out,
        n,
        p,
        k,
        left - 1,
        count,
    )
}

// Gives the place before the last `left` ones each object in turn.
#[cycle(fill_spread)]
fn spread(
    arities: &[u64],
    words: &[u64],
    facts: &[u64],
    env: &mut [u64],
    marks: &mut [u64],
    out: &mut [u64],
    n: u64,
    p: u64,
    k: usize,
    left: usize,
    count: usize,
) -> Option<usize>
    requires { Fillable arities.now words.now env.old marks.old out.old k (left + 1) count }
    ensures { FilledBy (spread arities.now facts.now words.now p k n left env.old n) count
        env.old out.old result env.new out.new }
{
    let t = ARGUMENTS + (k - (left + 1));
    let before = env[t];
    let mut m = count;
    for v in 0..n {
        env[t] = v;
        m = fill(arities, words, facts, env, marks, out, n, p, k, left, m)?;
    }
    env[t] = before;
    Some(m)
}

// The object of parameter i, that of constant 0 where it has none.
fn parameter(constants: &[u64], objects: &[u64], i: usize) -> u64
    ensures { result ≡ parameter_word constants.now objects.now i }
{
    if i < objects.len() {
        return objects[i];
    }
    truths::word_at(constants, 0)
}

// The word that the term t begins with, for a predicate of k places.
fn first_word(constants: &[u64], objects: &[u64], k: usize, t: usize) -> u64
    ensures { result ≡ first_word constants.now objects.now k t }
{
    if t < (Term::FIRST_PARAMETER as usize) {
        return truths::word_at(constants, t);
    }
    if t < ARGUMENTS {
        return parameter(constants, objects, t - (Term::FIRST_PARAMETER as usize));
    }
    if t - ARGUMENTS < k {
        return FREE;
    }
    truths::word_at(constants, 0)
}

// Gives the terms the words that they begin with.
fn start(constants: &[u64], objects: &[u64], k: usize, env: &mut [u64])
    requires { length env.old ≡ term_end }
    ensures { Begun constants.now objects.now k env.new term_end }
{
    for t in 0..TERMS {
        let w = first_word(constants, objects, k, t);
        env[t] = w;
    }
}

// Place i of a predicate's own label.
fn own_place(k: u64, i: u64) -> u64
    requires { i < most_places }
    ensures { result ≡ own_place k i }
{
    if i < k {
        return Term::FIRST_VARIABLE + i;
    }
    0
}

// The label p(?a ..) with k places.
fn own_label(p: u64, k: u64) -> Label
    requires { p < predicate_count }
    ensures { result.packed ≡ own_label p k }
{
    let a = Atom {
        predicate: p,
        first: own_place(k, 0),
        second: own_place(k, 1),
        third: own_place(k, 2),
        fourth: own_place(k, 3),
        fifth: own_place(k, 4),
        sixth: own_place(k, 5),
    };
    a.pack()
}

// Writes the rows of p, by the words of its diagram.
fn fill_by(
    arities: &[u64],
    words: &[u64],
    facts: &[u64],
    n: u64,
    constants: &[u64],
    objects: &[u64],
    marks: &mut [u64],
    out: &mut [u64],
    p: usize,
    count: usize,
) -> Option<usize>
    requires { Walkable arities.now words.now marks.old out.old p count }
    ensures { Filled (rows_by arities.now facts.now words.now p n constants.now objects.now)
        count out.old result out.new }
{
    let k = arities[p] as usize;
    let mut env = [FREE; TERMS];
    start(constants, objects, k, &mut env);
    fill(
        arities, words, facts, &mut env, marks, out, n, p as u64, k, k, count,
    )
}

// Whether the first of the k + 1 words in which the rows at two places differ is lower in the row at a.
fn is_lower(facts: &[u64], a: usize, b: usize, k: usize) -> bool
    requires fact_words_in_bounds { a + fact_words ≤ length facts.now }
    requires fact_words_in_bounds_2 { b + fact_words ≤ length facts.now }
    requires k_le_most_places { k ≤ most_places }
    ensures { result ≡ true → Lower (take (suc k) (drop a facts.now)) (take (suc k) (drop b facts.now)) }
{
    for j in 0..=k {
        let x = facts[a + j];
        let y = facts[b + j];
        if x != y {
            return x < y;
        }
    }
    false
}

// Whether each row of the facts is lower than the next: its predicate, or its objects.
fn are_ordered(arities: &[u64], facts: &[u64]) -> bool
    requires { are_arities arities.now ≡ true }
    ensures { result ≡ true → Ordered arities.now facts.now }
{
    let rows = facts.len() / FACT_WORDS;
    for i in 1..rows {
        let b = i * FACT_WORDS;
        let a = b - FACT_WORDS;
        let p = facts[a] as usize;
        let k = truths::word_at(arities, p) as usize;
        if !is_lower(facts, a, b, k) {
            return false;
        }
    }
    true
}

// Writes row i of the facts, if it is one of p.
fn keep_row(
    facts: &[u64],
    i: usize,
    out: &mut [u64],
    p: u64,
    k: usize,
    count: usize,
) -> Option<usize>
    requires fact_words_in_bounds { i * fact_words + fact_words ≤ length facts.now }
    requires k_le_most_places { k ≤ most_places }
    requires room { Room out.old count }
    ensures { Filled (kept_at facts.now p k i) count out.old result out.new }
{
    if facts[i * FACT_WORDS] != p {
        return Some(count);
    }
    put(facts, i * FACT_WORDS + 1, out, p, k, count)
}

// Writes the rows of p in the order of the facts.
fn keep(facts: &[u64], out: &mut [u64], p: u64, k: usize, count: usize) -> Option<usize>
    requires k_le_most_places { k ≤ most_places }
    requires room { Room out.old count }
    ensures { Filled (kept_rows facts.now p k (fact_count facts.now)) count out.old result out.new }
{
    let rows = facts.len() / FACT_WORDS;
    let mut m = count;
    for i in 0..rows {
        m = keep_row(facts, i, out, p, k, m)?;
    }
    Some(m)
}

// Writes the rows of p: by its truth diagram, or as they are.
fn fill_at(
    arities: &[u64],
    listings: &[u64],
    spans: &[u64],
    facts: &[u64],
    ordered: bool,
    n: u64,
    constants: &[u64],
    objects: &[u64],
    marks: &mut [u64],
    out: &mut [u64],
    p: usize,
    count: usize,
) -> Option<usize>
    requires askable { Askable arities.now listings.now spans.now marks.old out.old p count }
    requires standing { Standing arities.now facts.now constants.now objects.now n ordered }
    ensures { Filled (rows_by arities.now facts.now (words_at arities.now listings.now spans.now p) p n
        constants.now objects.now) count out.old result out.new }
{
    if truths::has_truth(spans, p) {
        let words = truths::truth_words(listings, spans, p);
        return fill_by(
            arities, words, facts, n, constants, objects, marks, out, p, count,
        );
    }
    let k = arities[p];
    if ordered {
        return keep(facts, out, p as u64, k as usize, count);
    }
    let l = own_label(p as u64, k);
    let own = [Label::LEAF, 1, 0, Label::LEAF, 0, 0, l.packed, 0, 1];
    fill_by(
        arities, &own, facts, n, constants, objects, marks, out, p, count,
    )
}

// Writes the rows of all predicates.
fn fill_all(
    arities: &[u64],
    listings: &[u64],
    spans: &[u64],
    facts: &[u64],
    ordered: bool,
    n: u64,
    constants: &[u64],
    objects: &[u64],
    marks: &mut [u64],
    out: &mut [u64],
) -> Option<usize>
    requires askable { Askable arities.now listings.now spans.now marks.old out.old 1 0 }
    requires standing { Standing arities.now facts.now constants.now objects.now n ordered }
    ensures { Filled (all_rows arities.now facts.now listings.now spans.now n
        constants.now objects.now (pred predicate_count)) 0 out.old result out.new }
{
    let mut count = 0;
    for q in 0..Label::PREDICATES - 1 {
        count = fill_at(
            arities,
            listings,
            spans,
            facts,
            ordered,
            n,
            constants,
            objects,
            marks,
            out,
            q + 1,
            count,
        )?;
    }
    Some(count)
}

// Writes the facts of the next state as rows, predicate by predicate, lowest objects first: the variant at the place, its parameters' objects. Behind the rows, and where
// there are too many, `out` is working space.
pub fn next_facts(
    arities: &[u64],
    listings: &[u64],
    table: &[u64],
    place: usize,
    n: u64,
    constants: &[u64],
    facts: &[u64],
    objects: &[u64],
    out: &mut [u64],
) -> Option<usize>
    requires { Moving arities.now listings.now table.now place n constants.now facts.now objects.now out.old }
    ensures { NextFacts (facts_of arities.now (after_at arities.now listings.now table.now place n constants.now
        facts.now objects.now)) result out.new }
{
    let first = place + 2;
    let end = place + model::VARIANT_WORDS;
    let spans = &table[first..end];
    let ordered = are_ordered(arities, facts);
    let mut marks = [0u64; diagram::ROWS];
    fill_all(
        arities, listings, spans, facts, ordered, n, constants, objects, &mut marks, out,
    )
}
