// Whether one path covers another: a search for a replacement of variables, part by part.
#![tactic(auto)]

ghost use Rattle.std.specs.Prelude.{◌≡◌, true, false, cond, ℕ, ◌+◌, ◌-◌, ◌*◌, ◌/◌, ◌%◌, ◌<◌, ◌≤◌, length, get_or, eqb, ltb};
ghost use Rattle.label.specs.Limits.{variable_count, first_minimum, most_places, equality_arity};
ghost use Rattle.label.specs.Labels.{place_at};
ghost use Rattle.diagram.specs.Validity.{tree};
ghost use Rattle.listing.specs.Used.{marked};
ghost use Rattle.paths.specs.Paths.{most_paths};
ghost use Rattle.matcher.specs.Covering.{Target, Held, Covering};
ghost use Rattle.matcher.specs.Parts.{is_seen, shares, Ranked, Best, Takable, Taken, Separable, PartTaken, PartsPost, kind_count, kind_of, Kinds, WayPost, WaysPost};
ghost use Rattle.matcher.specs.Stored.{terms_of_code, Markable, Coded, Cleared, Marking, Enterable, Ready, PartPost, BothStored, Answers};
ghost use Rattle.paths.specs.Inner.{label_end, InRange, AllInRange};
ghost use Rattle.paths.specs.Routes.{path_at};
ghost use Rattle.matcher.specs.Search.{along, is_equality, turn, way_place, is_nothing, late, slot_fits, slot_after, Slots, BindPost};
ghost use Rattle.matcher.specs.Search.{alike, plain_way, equal_way, way_at, way_count, TryPost, all_known, Sorted, Finds, Images, Met, image_label, term_at};
ghost use Rattle.matcher.specs.Search.{Unplaced, Placing};
ghost use Rattle.matcher.specs.Failure.{bit_at, In, One, Variables, Same, store_rows, store_words, RecallPost, Copied, Rewritten, RememberPost};
ghost use Rattle.matcher.specs.Failure.{is_found, is_weary, mask_of, HandedUp, Solving, SolvePost, Decidable, Decided};

use label::{Label, Term, Test};
use paths::PATHS;

// A word for each term that may stand here: there are no minimum variables, which come last.
const TERMS: usize = Term::FIRST_MINIMUM as usize;

const FIRST_VARIABLE: usize = Term::FIRST_VARIABLE as usize;

const PLACES: usize = Label::PLACES as usize;

// The words of a path: a mark for each term, and behind them its literals, fewer than there may be paths.
pub const PATH_WORDS: usize = TERMS + PATHS;

// The words of the table: for each term its first place, and behind them a mark for each term.
const TABLE_WORDS: usize = TERMS + TERMS;

// The first place of a variable that has none yet: behind all places.
const LATE: u64 = PATHS as u64 * Label::PLACES;

// A literal's kind is its predicate and sign.
pub const KINDS: usize = Label::PREDICATES * 2;

// The ranks of literals that share no seen variable begin here, and all ranks are below the second.
const STRANGE: u64 = 100;

const WORST: u64 = 200;

const VARIABLES: usize = Term::VARIABLES as usize;

// The store of failures: for each literal the last mask that it failed on, then rows of a flag, a mask and a word for each variable.
const ROWS: usize = 256;

const ROW_WORDS: usize = VARIABLES + 2;

const STORE_WORDS: usize = ROWS + ROWS * ROW_WORDS;

// For so many failures no store is made.
const FEW: u64 = 64;

const HASHES: u64 = 65536;

const HASH_FACTOR: u64 = 40503;

const HASH_STEP: u64 = 256;

// What the search answers: a match; no match, and the variables that this depends on, as bits; or too many failures for a store without rows.
#[derive(Clone, Copy)]
enum Answer {
    Found,
    Failed(u64),
    Weary,
}

// What the places of a literal may become: those of a label, those of an equality's label turned round, a term twice, or nothing.
#[derive(Clone, Copy)]
enum Way {
    Straight(u64),
    Turned(u64),
    Twice(u64),
    Nothing,
}

// Whether the literal x is an equality or its negation.
fn is_equality(x: u64) -> bool
    ensures { result ≡ is_equality x }
{
    Label { packed: x / 2 }.predicate() == Label::EQUALITY
}

// Place k of two places turned round.
fn turned(k: u64) -> u64
    ensures { result ≡ turn k }
{
    if k == 0 {
        return 1;
    }
    if k == 1 {
        return 0;
    }
    k
}

// What place k becomes by the way.
fn way_place(way: Way, k: u64) -> u64
    requires { k < most_places }
    ensures { result ≡ way_place way k }
{
    match way {
        Way::Straight(c) => Label { packed: c }.place(k),
        Way::Turned(c) => Label { packed: c }.place(turned(k)),
        Way::Twice(t) => twice(t, k),
        Way::Nothing => 0,
    }
}

// Place k of an equality of the term t and itself.
fn twice(t: u64, k: u64) -> u64
    ensures { result ≡ cond (ltb k equality_arity) t 0 }
{
    if k < Label::EQUALITY_ARITY {
        return t;
    }
    0
}

// Whether the way is none.
fn is_nothing(way: Way) -> bool
    ensures { result ≡ is_nothing way }
{
    matches!(way, Way::Nothing)
}

// The term t, met at place m, is to become u: it is written where it comes first, else compared.
fn place(tab: &[u64], theta: &mut [u64], m: u64, t: usize, u: u64) -> bool
    requires t_in_bounds { t < length tab.now }
    requires t_in_bounds_2 { t < length theta.old }
    requires m_bound { m < late + most_places }
    ensures value { result ≡ slot_fits tab.now theta.old m t u }
    ensures theta_after { theta.new ≡ slot_after tab.now theta.old m t u }
{
    if tab[t] == m + 1 {
        theta[t] = u;
        return true;
    }
    theta[t] == u
}

// The places of the label l, from place m on, are to go the way.
fn bind(tab: &[u64], theta: &mut [u64], m: u64, l: u64, way: Way) -> bool
    requires slots { Slots tab.now m l }
    requires first_minimum_in_bounds { first_minimum ≤ length theta.old }
    requires m_lt_late { m < late }
    ensures { BindPost tab.now theta.old m l way result theta.new }
{
    for k in 0..Label::PLACES {
        let t = Label { packed: l }.place(k);
        let u = way_place(way, k);
        if !place(tab, theta, m + k, t as usize, u) {
            return false;
        }
    }
    true
}

// Whether two literals have one predicate and one sign.
fn alike(x: u64, y: u64) -> bool
    ensures { result ≡ alike x y }
{
    let p = Label { packed: x / 2 }.predicate();
    let q = Label { packed: y / 2 }.predicate();
    if p != q {
        return false;
    }
    x % 2 == y % 2
}

// Way j of the literal x of another predicate than equality.
fn plain_way(into: &[u64], x: u64, j: usize) -> Way
    requires { first_minimum + j < length into.now }
    ensures { result ≡ plain_way into.now x j }
{
    let y = into[TERMS + j];
    if !alike(x, y) {
        return Way::Nothing;
    }
    Way::Straight(y / 2)
}

// Way j of an equality: literal j / 2, turned round for odd j; behind these t = t for each term.
fn equal_way(into: &[u64], tab: &[u64], x: u64, j: usize) -> Way
    requires first_minimum_in_bounds { first_minimum ≤ length into.now }
    requires first_minimum_in_bounds_2 { first_minimum + first_minimum ≤ length tab.now }
    requires j_bound { j < (length into.now - first_minimum) * 2 + first_minimum }
    ensures { result ≡ equal_way into.now tab.now x j }
{
    let n = into.len() - TERMS;
    if j < n * 2 {
        let y = into[TERMS + j / 2];
        if !alike(x, y) {
            return Way::Nothing;
        }
        if j % 2 == 0 {
            return Way::Straight(y / 2);
        }
        return Way::Turned(y / 2);
    }
    let t = j - n * 2;
    if x % 2 != 1 {
        return Way::Nothing;
    }
    if into[t] != 0 {
        return Way::Twice(t as u64);
    }
    if tab[TERMS + t] != 0 {
        return Way::Twice(t as u64);
    }
    Way::Nothing
}

// Way j of the literal x.
fn way_at(into: &[u64], tab: &[u64], x: u64, j: usize) -> Way
    requires first_minimum_in_bounds { first_minimum ≤ length into.now }
    requires first_minimum_in_bounds_2 { first_minimum + first_minimum ≤ length tab.now }
    requires j_bound { j < way_count into.now x }
    ensures { result ≡ way_at into.now tab.now x j }
{
    if is_equality(x) {
        return equal_way(into, tab, x, j);
    }
    plain_way(into, x, j)
}

// How many ways there are for the literal x.
fn way_count(into: &[u64], x: u64) -> usize
    requires { first_minimum ≤ length into.now }
    ensures { result ≡ way_count into.now x }
{
    if is_equality(x) {
        return (into.len() - TERMS) * 2 + TERMS;
    }
    into.len() - TERMS
}

// Tries way j for the literal x, whose places stand from m on.
fn attempt(into: &[u64], tab: &[u64], theta: &mut [u64], m: u64, x: u64, j: usize) -> bool
    requires first_minimum_in_bounds { first_minimum ≤ length into.now }
    requires first_minimum_in_bounds_2 { first_minimum + first_minimum ≤ length tab.now }
    requires j_bound { j < way_count into.now x }
    requires slots { Slots tab.now m (x / 2) }
    requires first_minimum_in_bounds_3 { first_minimum ≤ length theta.old }
    requires m_lt_late { m < late }
    ensures { TryPost tab.now theta.old m x result theta.new (way_at into.now tab.now x j) }
{
    let way = way_at(into, tab, x, j);
    if is_nothing(way) {
        return false;
    }
    bind(tab, theta, m, x / 2, way)
}

// Whether the terms of the label l are all known before place m.
fn all_known(tab: &[u64], m: u64, l: u64) -> bool
    requires first_minimum_in_bounds { first_minimum ≤ length tab.now }
    requires in_range { InRange first_minimum l }
    ensures { result ≡ all_known tab.now m l }
{
    for k in 0..Label::PLACES {
        let t = Label { packed: l }.place(k);
        if tab[t as usize] > m {
            return false;
        }
    }
    true
}

// Whether y is one of the literals in order behind the marks.
fn find(into: &[u64], y: u64) -> bool
    requires { Sorted into.now }
    ensures { Finds into.now y result }
{
    let mut low = TERMS;
    let mut high = into.len();
    while low < high {
        let mid = low + (high - low) / 2;
        let x = into[mid];
        if x == y {
            return true;
        }
        if x < y {
            low = mid + 1;
        } else {
            high = mid;
        }
    }
    false
}

// Whether the literal x, all of whose terms are known, becomes one of the literals or t = t true.
fn is_met(into: &[u64], theta: &[u64], x: u64) -> bool
    requires sorted { Sorted into.now }
    requires images { Images theta.now (x / 2) }
    ensures { Met into.now theta.now x result }
{
    if !is_equality(x) {
        return find(into, image(theta, x / 2) * 2 + x % 2);
    }
    let t = Label { packed: x / 2 }.place(0);
    let u = Label { packed: x / 2 }.place(1);
    let Test::Is(l) = label::equate(theta[t as usize], theta[u as usize]) else {
        return x % 2 == 1;
    };
    find(into, l.packed * 2 + x % 2)
}

// The label that l becomes under theta, with its places in their order.
fn image(theta: &[u64], l: u64) -> u64
    requires { Images theta.now l }
    ensures { (result ≡ image_label theta.now l) × (result < label_end) }
{
    let mut n = Label { packed: l }.predicate();
    for k in 0..Label::PLACES {
        let t = Label { packed: l }.place(k);
        n = n * Term::BASE + theta[t as usize];
    }
    n
}

// The variable t alone as a set; a term that is no variable is in no set.
fn one(t: usize) -> u64
    requires { t < first_minimum }
    ensures { One t result }
{
    if t < FIRST_VARIABLE {
        return 0;
    }
    1 << (t - FIRST_VARIABLE) as u64
}

// Whether the variable of number i is in the set.
fn has(mask: u64, i: usize) -> bool
    requires { i < variable_count }
    ensures { result ≡ eqb (bit_at mask i) 1 }
{
    (mask >> i as u64) % 2 == 1
}

// Whether the set a is a part of the set b.
fn part_of(a: u64, b: u64) -> bool
    ensures { result ≡ true → (i : ℕ) → In a i → In b i }
{
    a & b == a
}

// The variables of the label l.
fn variables_of(l: u64) -> u64
    requires { InRange first_minimum l }
    ensures { Variables l most_places result }
{
    let mut mask = 0;
    for k in 0..Label::PLACES {
        mask = mask | one(Label { packed: l }.place(k) as usize);
    }
    mask
}

// The row for a failure of literal k on the mask. Nothing but time depends on it.
fn slot(theta: &[u64], mask: u64, k: usize) -> usize
    requires { first_minimum ≤ length theta.now }
    ensures { result < store_rows }
{
    let mut h = (k % ROWS) as u64 * HASH_FACTOR % HASHES;
    for i in 0..VARIABLES {
        let rest = mask >> i as u64;
        if rest == 0 {
            return (h / HASH_STEP) as usize;
        }
        if rest % 2 == 1 {
            h = (h + theta[FIRST_VARIABLE + i] % Term::BASE + 1) * HASH_FACTOR % HASHES;
        }
    }
    (h / HASH_STEP) as usize
}

// Whether the words from `at` on are those of theta on the variables of the mask.
fn agrees(theta: &[u64], store: &[u64], at: usize, mask: u64) -> bool
    requires first_minimum_in_bounds { first_minimum ≤ length theta.now }
    requires variable_count_in_bounds { at + variable_count ≤ length store.now }
    ensures { result ≡ true → Same theta.now store.now at mask variable_count }
{
    for i in 0..VARIABLES {
        if has(mask, i) {
            if theta[FIRST_VARIABLE + i] != store[at + i] {
                return false;
            }
        }
    }
    true
}

// The failure of a row, if it holds here; else Found: nothing is known.
fn row_answer(theta: &[u64], store: &[u64], bound: u64, row: usize) -> Answer
    requires first_minimum_in_bounds { first_minimum ≤ length theta.now }
    requires store_words_in_bounds { store_words ≤ length store.now }
    requires row_lt_store_rows { row < store_rows }
    ensures { RecallPost theta.now store.now bound result }
{
    let at = ROWS + row * ROW_WORDS;
    if store[at] != 1 {
        return Answer::Found;
    }
    let mask = store[at + 1];
    if !part_of(mask, bound) {
        return Answer::Found;
    }
    if !agrees(theta, store, at + 2, mask) {
        return Answer::Found;
    }
    Answer::Failed(mask)
}

// A failure that was remembered and holds here. Else Found: nothing is known; or Weary: too much has failed for a store without rows.
fn recall(theta: &[u64], store: &[u64], bound: u64, k: usize) -> Answer
    requires first_minimum_in_bounds { first_minimum ≤ length theta.now }
    requires store_nonzero { 0 < length store.now }
    requires k_lt_store_rows { k < store_rows }
    ensures { RecallPost theta.now store.now bound result }
{
    if store.len() < STORE_WORDS {
        if store[0] < FEW {
            return Answer::Found;
        }
        return Answer::Weary;
    }
    row_answer(theta, store, bound, slot(theta, store[k], k))
}

// Copies the words of the variables to those from `at` on.
fn copy(theta: &[u64], store: &mut [u64], at: usize)
    requires first_minimum_in_bounds { first_minimum ≤ length theta.now }
    requires variable_count_in_bounds { at + variable_count ≤ length store.old }
    ensures { Copied theta.now store.old store.new at variable_count }
{
    for i in 0..VARIABLES {
        store[at + i] = theta[FIRST_VARIABLE + i];
    }
}

// Writes a failure on the mask to a row.
fn write_row(theta: &[u64], store: &mut [u64], mask: u64, row: usize)
    requires first_minimum_in_bounds { first_minimum ≤ length theta.now }
    requires store_words_in_bounds { store_words ≤ length store.old }
    requires row_lt_store_rows { row < store_rows }
    ensures { Rewritten theta.now store.old mask row store.new }
{
    let at = ROWS + row * ROW_WORDS;
    store[at] = 1;
    store[at + 1] = mask;
    copy(theta, store, at + 2);
}

// Remembers that literal k failed on the mask. A store without rows counts the failures.
fn remember(theta: &[u64], store: &mut [u64], mask: u64, k: usize)
    requires first_minimum_in_bounds { first_minimum ≤ length theta.now }
    requires store_nonzero { 0 < length store.old }
    requires k_lt_store_rows { k < store_rows }
    ensures { RememberPost theta.now store.old mask store.new }
{
    if store.len() < STORE_WORDS {
        store[0] = store[0] % FEW + 1;
        return;
    }
    store[k] = mask;
    write_row(theta, store, mask, slot(theta, mask, k));
}

// Whether the answer is that there is a match, or that nothing is known.
fn is_found(answer: Answer) -> bool
    ensures { result ≡ is_found answer }
{
    matches!(answer, Answer::Found)
}

// Whether the search was given up.
fn is_weary(answer: Answer) -> bool
    ensures { result ≡ is_weary answer }
{
    matches!(answer, Answer::Weary)
}

// The variables that a failure depends on.
fn mask_of(answer: Answer) -> u64
    ensures { result ≡ mask_of answer }
{
    match answer {
        Answer::Found => 0,
        Answer::Failed(mask) => mask,
        Answer::Weary => 0,
    }
}

// Whether an answer is handed up at once: every one but a failure that depends on more than `bound`.
fn is_handed_up(answer: Answer, bound: u64) -> bool
    ensures { HandedUp answer bound result }
{
    match answer {
        Answer::Found => true,
        Answer::Failed(mask) => part_of(mask, bound),
        Answer::Weary => true,
    }
}

// Whether a replacement beyond theta takes the literals from k on to those of the first path, or to t = t true. Tries each literal in turn, and
// goes back when one has no match: past all literals that the failure does not depend on. The variables of `bound` are known.
fn solve(
    ord: &[u64],
    into: &[u64],
    tab: &[u64],
    theta: &mut [u64],
    store: &mut [u64],
    k: usize,
    bound: u64,
) -> Answer
    requires { Solving ord.now into.now tab.now theta.old store.old k bound }
    ensures { SolvePost ord.now into.now tab.now theta.old store.old k bound result theta.new store.new }
{
    if k == ord.len() {
        return Answer::Found;
    }
    let x = ord[k];
    if all_known(tab, k as u64 * Label::PLACES, x / 2) {
        if !is_met(into, theta, x) {
            return Answer::Failed(variables_of(x / 2));
        }
        return solve(ord, into, tab, theta, store, k + 1, bound);
    }
    let past = recall(theta, store, bound, k);
    if !is_found(past) {
        return past;
    }
    let vars = variables_of(x / 2);
    let total = way_count(into, x);
    let mut mask = vars & bound;
    for j in 0..total {
        if attempt(into, tab, theta, k as u64 * Label::PLACES, x, j) {
            let answer = solve(ord, into, tab, theta, store, k + 1, bound | vars);
            if is_handed_up(answer, bound) {
                return answer;
            }
            mask = mask | (mask_of(answer) & bound);
        }
    }
    remember(theta, store, mask, k);
    Answer::Failed(mask)
}

// The search with a store of failures.
fn search_long(ord: &[u64], into: &[u64], tab: &[u64], theta: &mut [u64]) -> bool
    requires { Decidable ord.now into.now tab.now theta.old }
    ensures { Decided ord.now into.now tab.now result theta.new }
{
    let mut store = [0u64; STORE_WORDS];
    let answer = solve(ord, into, tab, theta, &mut store, 0, 0);
    is_found(answer)
}

// The search without one, as long as few levels fail; else with one.
fn decide(ord: &[u64], into: &[u64], tab: &[u64], theta: &mut [u64]) -> bool
    requires { Decidable ord.now into.now tab.now theta.old }
    ensures { Decided ord.now into.now tab.now result theta.new }
{
    let mut failures = [0u64; 1];
    let answer = solve(ord, into, tab, theta, &mut failures, 0, 0);
    if is_weary(answer) {
        return search_long(ord, into, tab, theta);
    }
    is_found(answer)
}

// Place m of literals one after the other, as many places to each as a label has.
fn term_at(ord: &[u64], m: usize) -> usize
    requires m_in_bounds { m < length ord.now * most_places }
    requires all_in_range { AllInRange first_minimum ord.now }
    ensures { (result ≡ term_at ord.now m) × (result < first_minimum) }
{
    let x = ord[m / PLACES];
    Label { packed: x / 2 }.place((m % PLACES) as u64) as usize
}

// Writes the places, counted from 1, where the terms of the first n literals come first.
fn first_places(ord: &[u64], n: usize, tab: &mut [u64])
    requires n_in_bounds { n ≤ length ord.now }
    requires n_lt_most_paths { n < most_paths }
    requires all_in_range { AllInRange first_minimum ord.now }
    requires unplaced { Unplaced tab.old }
    ensures { Placing ord.now tab.old tab.new (n * most_places) }
{
    for m in 0..n * PLACES {
        let t = term_at(ord, m);
        if tab[t] > m as u64 + 1 {
            tab[t] = m as u64 + 1;
        }
    }
}

// Marks the terms in the first n places of the label l.
fn mark_places(marks: &mut [u64], l: u64, n: u64)
    requires first_minimum_in_bounds { first_minimum ≤ length marks.old }
    requires in_range { InRange first_minimum l }
    requires n_le_most_places { n ≤ most_places }
    ensures { marks.new ≡ marked (along (place_at l) n) marks.old }
{
    for k in 0..n {
        let t = Label { packed: l }.place(k);
        marks[t as usize] = 1;
    }
}

// Marks the terms of the literal x.
fn mark_literal(arities: &[u64], marks: &mut [u64], x: u64)
    requires { Markable arities.now marks.old x }
    ensures { marks.new ≡ marked (terms_of_code arities.now x) marks.old }
{
    let p = Label { packed: x / 2 }.predicate();
    mark_places(marks, x / 2, arities[p as usize]);
}

// Clears the marks.
fn clear_marks(out: &mut [u64])
    requires { first_minimum ≤ length out.old }
    ensures { Cleared out.old out.new }
{
    out[..TERMS].fill(0);
}

// Marks the terms of the n literals behind marks that are clear.
fn mark_path(arities: &[u64], out: &mut [u64], n: usize)
    requires coded { Coded arities.now out.old n }
    requires by_index { (t : ℕ) → t < first_minimum → get_or out.old t 0 ≡ 0 }
    ensures { Marking arities.now out.old out.new n }
{
    for i in 0..n {
        let x = out[TERMS + i];
        mark_literal(arities, out, x);
    }
}

// Marks the terms of the n literals behind the marks, and no others.
fn mark_terms(arities: &[u64], out: &mut [u64], n: usize)
    requires { Coded arities.now out.old n }
    ensures { Marking arities.now out.old out.new n }
{
    clear_marks(out);
    mark_path(arities, out, n);
}

// Copies the marks of the terms behind the table.
fn copy_marks(marks: &[u64], tab: &mut [u64])
    requires first_minimum_in_bounds { first_minimum ≤ length marks.now }
    requires first_minimum_in_bounds_2 { first_minimum + first_minimum ≤ length tab.old }
    ensures { (t : ℕ) → t < first_minimum → get_or tab.new (first_minimum + t) 0 ≡ get_or marks.now t 0 }
{
    tab[TERMS..TERMS + TERMS].copy_from_slice(&marks[..TERMS]);
}

// Each term becomes itself.
fn keep_terms(theta: &mut [u64])
    requires { first_minimum ≤ length theta.old }
    ensures { (v : ℕ) → v < first_minimum → get_or theta.new v 0 ≡ v }
{
    for v in 0..TERMS {
        theta[v] = v as u64;
    }
}

// No variable has a place yet.
fn unplace(tab: &mut [u64])
    requires { first_minimum + first_minimum ≤ length tab.old }
    ensures unplaced { Unplaced tab.new }
    ensures by_index { (v : ℕ) → first_minimum ≤ v → get_or tab.new v 0 ≡ get_or tab.old v 0 }
{
    for v in 0..FIRST_VARIABLE {
        tab[v] = 0;
        tab[FIRST_VARIABLE + v] = LATE;
    }
}

// Whether a replacement takes the literals of ord to those of the first path, or to t = t true.
fn match_part(ord: &[u64], into: &[u64], tab: &mut [u64], theta: &mut [u64]) -> bool
    requires { Ready ord.now into.now tab.old theta.old }
    ensures { PartPost ord.now into.now tab.old result tab.new theta.new }
{
    unplace(tab);
    first_places(ord, ord.len(), tab);
    decide(ord, into, tab, theta)
}

// The literal to be taken next, and its rank.
#[derive(Clone, Copy)]
struct Pick {
    at: usize,
    rank: u64,
}

// Whether the term t is a variable that was seen.
fn is_seen(seen: &[u64], t: usize) -> bool
    requires { t < length seen.now }
    ensures { result ≡ is_seen seen.now t }
{
    if t < FIRST_VARIABLE {
        return false;
    }
    seen[t] > 0
}

// Whether the literal x has a variable that was seen.
fn shares(seen: &[u64], x: u64) -> bool
    requires first_minimum_in_bounds { first_minimum ≤ length seen.now }
    requires in_range { InRange first_minimum (x / 2) }
    ensures { result ≡ shares seen.now x }
{
    for k in 0..Label::PLACES {
        let t = Label { packed: x / 2 }.place(k);
        if is_seen(seen, t as usize) {
            return true;
        }
    }
    false
}

// 1 if the term t is a variable that was not seen, else 0.
fn is_new(seen: &[u64], t: usize) -> u64
    requires { t < length seen.now }
    ensures { result ≤ 1 }
{
    if t < FIRST_VARIABLE {
        return 0;
    }
    if seen[t] > 0 {
        return 0;
    }
    1
}

// How many places of the literal x have variables that were not seen.
fn new_places(seen: &[u64], x: u64) -> u64
    requires first_minimum_in_bounds { first_minimum ≤ length seen.now }
    requires in_range { InRange first_minimum (x / 2) }
    ensures { result ≤ most_places }
{
    let mut n = 0;
    for k in 0..Label::PLACES {
        let t = Label { packed: x / 2 }.place(k);
        n = n + is_new(seen, t as usize);
    }
    n
}

// The rank of the literal x: without a new variable it comes at once. Fewer new variables come first, equalities behind others, and behind all the
// literals that share no variable.
fn rank(seen: &[u64], x: u64) -> u64
    requires first_minimum_in_bounds { first_minimum ≤ length seen.now }
    requires in_range { InRange first_minimum (x / 2) }
    ensures { Ranked seen.now x result }
{
    let n = new_places(seen, x) * 2;
    if n == 0 {
        return 0;
    }
    if !shares(seen, x) {
        return STRANGE + n;
    }
    if is_equality(x) {
        return n + 1;
    }
    n
}

// The literal of lowest rank from k on.
fn best(ord: &[u64], seen: &[u64], k: usize) -> Pick
    requires k_in_bounds { k < length ord.now }
    requires first_minimum_in_bounds { first_minimum ≤ length seen.now }
    requires all_in_range { AllInRange first_minimum ord.now }
    ensures { Best ord.now seen.now k result }
{
    let mut at = k;
    let mut low = WORST;
    for i in k..ord.len() {
        let r = rank(seen, ord[i]);
        if r == 0 {
            return Pick { at: i, rank: 0 };
        }
        if r < low {
            low = r;
            at = i;
        }
    }
    Pick { at: at, rank: low }
}

// Takes the literal `at` as the one at place k; that one goes to its place.
fn take_literal(ord: &mut [u64], seen: &mut [u64], k: usize, at: usize)
    requires { Takable ord.old seen.old k at }
    ensures { Taken ord.old k ord.new seen.new }
{
    let x = ord[at];
    ord[at] = ord[k];
    ord[k] = x;
    mark_places(seen, x / 2, Label::PLACES);
}

// Puts a part at place k: literals, one after the other, that share a variable with one before or have no new one. Answers where it ends; what is
// behind it shares none.
fn next_part(ord: &mut [u64], seen: &mut [u64], k: usize) -> usize
    requires { Separable ord.old seen.old k }
    ensures { PartTaken ord.old k result ord.new seen.new }
{
    let first = best(ord, seen, k);
    take_literal(ord, seen, k, first.at);
    for e in k + 1..ord.len() {
        let b = best(ord, seen, e);
        if b.rank >= STRANGE {
            return e;
        }
        take_literal(ord, seen, e, b.at);
    }
    ord.len()
}

// Whether a replacement takes the literals of ord to those of the first path, or to t = t true: each part is searched by itself.
fn search_parts(ord: &mut [u64], into: &[u64], tab: &mut [u64], theta: &mut [u64]) -> bool
    requires { Ready ord.old into.now tab.old theta.old }
    ensures { PartsPost ord.old into.now tab.old result }
{
    let mut seen = [0u64; TERMS];
    let mut k = 0;
    while k < ord.len() {
        let e = next_part(ord, &mut seen, k);
        if !match_part(&ord[k..e], into, tab, theta) {
            return false;
        }
        k = e;
    }
    true
}

// Whether the literal x is an equality that is true.
fn is_equal(x: u64) -> bool
    ensures { result ≡ false → is_equality x ≡ true → x % 2 ≡ 1 → ⊥ }
{
    if !is_equality(x) {
        return false;
    }
    x % 2 == 1
}

// The kind of a literal: its predicate and sign.
fn kind(x: u64) -> usize
    ensures { result ≡ kind_of x }
{
    (Label { packed: x / 2 }.predicate() * 2 + x % 2) as usize
}

// Marks the kinds of the literals of the first path.
fn mark_kinds(into: &[u64], kinds: &mut [u64])
    requires { kind_count ≤ length kinds.old }
    ensures { Kinds into.now kinds.new (length into.now) }
{
    for j in TERMS..into.len() {
        let k = kind(into[j]);
        if k < KINDS {
            kinds[k] = 1;
        }
    }
}

// Whether the literal x has a way: one of the first path has its kind, or it may become t = t.
fn has_way(kinds: &[u64], x: u64) -> bool
    requires { kind_count ≤ length kinds.now }
    ensures { WayPost kinds.now x result }
{
    if is_equal(x) {
        return true;
    }
    let k = kind(x);
    if k >= KINDS {
        return true;
    }
    kinds[k] > 0
}

// Whether each literal of ord has a way.
fn have_ways(ord: &[u64], kinds: &[u64]) -> bool
    requires { kind_count ≤ length kinds.now }
    ensures { WaysPost ord.now kinds.now result }
{
    for x in ord {
        if !has_way(kinds, *x) {
            return false;
        }
    }
    true
}

// Whether a replacement takes the b literals behind the marks of `from` to the a literals behind those of `into`, or to t = t true.
fn search(into: &[u64], a: usize, from: &mut [u64], b: usize) -> bool
    requires { BothStored into.now a from.old b }
    ensures { Answers into.now a from.old b result }
{
    let mut tab = [0u64; TABLE_WORDS];
    let mut theta = [0u64; TERMS];
    copy_marks(from, &mut tab);
    keep_terms(&mut theta);
    search_parts(
        &mut from[TERMS..TERMS + b],
        &into[..TERMS + a],
        &mut tab,
        &mut theta,
    )
}

// Writes path p as others are asked to cover it: its literals behind the marks of its terms, and the kinds of its literals. Answers how many they are.
pub fn target(
    arities: &[u64],
    words: &[u64],
    counts: &[u64],
    n: usize,
    p: u64,
    into: &mut [u64],
    kinds: &mut [u64],
) -> usize
    requires enterable { Enterable arities.now words.now counts.now n p into.old }
    requires kind_count_in_bounds { kind_count ≤ length kinds.old }
    ensures { Held arities.now (path_at (tree words.now (n - 1)) p) into.new result kinds.new }
{
    let a = paths::path_into(words, counts, n, p, into, TERMS);
    mark_terms(arities, into, a);
    mark_kinds(&into[..TERMS + a], kinds);
    a
}

// Whether a replacement of the variables of path q, by terms of both paths, takes each of its literals to one of the path that `into` holds, or to
// t = t true. Path q is written to `from`.
pub fn covers(
    arities: &[u64],
    words: &[u64],
    counts: &[u64],
    n: usize,
    into: &[u64],
    a: usize,
    kinds: &[u64],
    q: u64,
    from: &mut [u64],
) -> bool
    requires target { Target into.now a kinds.now }
    requires enterable { Enterable arities.now words.now counts.now n q from.old }
    ensures { Covering arities.now into.now a kinds.now (path_at (tree words.now (n - 1)) q) result }
{
    let b = paths::path_into(words, counts, n, q, from, TERMS);
    if !have_ways(&from[TERMS..TERMS + b], kinds) {
        return false;
    }
    mark_terms(arities, from, b);
    search(into, a, from, b)
}
