// Whether lent words are a model's: its listings one by one, and the table of where they stand. What each test says is in specs/.
#![tactic(auto)]

ghost use Rattle.std.specs.Prelude.{◌≡◌, true, not, ◌+◌, ◌*◌, ◌≤◌, ◌<◌, leb, length, take};
ghost use Rattle.label.specs.Limits.{parameter_count, predicate_count, most_places, term_end};
ghost use Rattle.diagram.specs.Diagram.{same};
ghost use Rattle.diagram.specs.Words.{is_listing, every_below};
ghost use Rattle.diagram.specs.Listing.{diagram_of};
ghost use Rattle.diagram.specs.Variables.{closed};
ghost use Rattle.listing.specs.Check.{Decides};
ghost use Rattle.regression.specs.RegressCall.{any_occurs};
ghost use Rattle.mdp.specs.Model.{most_actions, most_variants};
ghost use Rattle.model.specs.Layout.{variant_words, action_words, table_words, variant_place};
ghost use Rattle.checking.specs.Fitting.{is_truth, is_weight, is_value, truth_fits, variant_fits, action_fits, actions_fit};
ghost use Rattle.checking.specs.Lent.{Lent};

use label::{Label, Term};

// Whether none of the n terms from `first` on occurs in a listing.
fn lacks(arities: &[u64], words: &[u64], first: usize, n: usize) -> bool
    requires words_value { is_listing arities.now words.now ≡ true }
    requires n_bound { first + n ≤ term_end }
    ensures { result ≡ not (any_occurs arities.now (diagram_of words.now) first n) }
{
    let mut marks = [0u64; Term::END as usize];
    listing::used(arities, words, &mut marks);
    !freeing::any_set(&marks, first, n)
}

// Whether words are the listing of a truth diagram of a predicate of n places, of an action of c parameters.
fn is_truth(arities: &[u64], words: &[u64], c: usize, n: usize) -> bool
    requires c_le_parameter_count { c ≤ parameter_count }
    requires n_le_most_places { n ≤ most_places }
    ensures { result ≡ is_truth arities.now c n words.now }
{
    if !listing::check(arities, words) {
        return false;
    }
    let v = truths::judge(arities, words, n);
    let Ok(()) = v else {
        return false;
    };
    let first = (Term::FIRST_PARAMETER as usize) + c;
    lacks(
        arities,
        words,
        first,
        (Term::FIRST_VARIABLE as usize) - first,
    )
}

// Whether words are the listing of a weight of an action of c parameters.
fn is_weight(arities: &[u64], words: &[u64], c: usize) -> bool
    requires { c ≤ parameter_count }
    ensures { result ≡ is_weight arities.now c words.now }
{
    if !listing::check(arities, words) {
        return false;
    }
    let first = (Term::FIRST_PARAMETER as usize) + c;
    lacks(arities, words, first, (Term::END as usize) - first)
}

// Whether the words x begin y.
fn begins(x: &[u64], y: &[u64]) -> bool
    requires { length x.now ≤ length y.now }
    ensures { Decides result (x.now ≡ take (length x.now) y.now) }
{
    y.starts_with(x)
}

// Whether a listing is closed up: closing it up changes no word.
fn is_closed(arities: &[u64], words: &[u64]) -> bool
    requires { is_listing arities.now words.now ≡ true }
    ensures { result ≡ same (closed arities.now (diagram_of words.now)) (diagram_of words.now) }
{
    let mut copy = [0u64; diagram::RESULT_WORDS];
    let n = words.len() / 3;
    write::copy(words, n, &mut copy);
    apart::close_up(arities, &mut copy, n);
    begins(words, &copy)
}

// Whether words are the listing of a value diagram: closed up, no parameter.
pub fn is_value(arities: &[u64], words: &[u64]) -> bool
    ensures { result ≡ is_value arities.now words.now }
{
    if !listing::check(arities, words) {
        return false;
    }
    if !is_closed(arities, words) {
        return false;
    }
    let first = Term::FIRST_PARAMETER as usize;
    lacks(
        arities,
        words,
        first,
        (Term::FIRST_VARIABLE as usize) - first,
    )
}

// Whether `count` words from `start` on lie within the first `used`.
pub fn is_inside(start: usize, count: usize, used: usize) -> bool
    ensures { result ≡ leb (start + count) used }
{
    start <= used && count <= used - start
}

// Whether the truth diagram of the predicate p, of the variant at a place, is fit for an action of c parameters, if there is one.
fn truth_fits(
    arities: &[u64],
    listings: &[u64],
    table: &[u64],
    used: usize,
    c: usize,
    place: usize,
    p: usize,
) -> bool
    requires lent { Lent arities.now listings.now used c }
    requires variant_words_in_bounds { place + variant_words ≤ length table.now }
    requires p_lt_predicate_count { p < predicate_count }
    ensures { result ≡ truth_fits arities.now listings.now table.now used c place p }
{
    let start = table[place + 2 + p * 2] as usize;
    let count = table[place + 2 + p * 2 + 1] as usize;
    if !is_inside(start, count, used) {
        return false;
    }
    if p == 0 {
        return true;
    }
    if count == 0 {
        return true;
    }
    let n = arities[p] as usize;
    is_truth(arities, &listings[start..start + count], c, n)
}

// Whether all truth diagrams of the variant at a place are fit.
fn truths_fit(
    arities: &[u64],
    listings: &[u64],
    table: &[u64],
    used: usize,
    c: usize,
    place: usize,
) -> bool
    requires lent { Lent arities.now listings.now used c }
    requires variant_words_in_bounds { place + variant_words ≤ length table.now }
    ensures { result ≡ every_below predicate_count (truth_fits arities.now listings.now table.now used c place) }
{
    for p in 0..Label::PREDICATES {
        if !truth_fits(arities, listings, table, used, c, place, p) {
            return false;
        }
    }
    true
}

// Whether the variant at a place is fit for an action of c parameters.
fn variant_fits(
    arities: &[u64],
    listings: &[u64],
    table: &[u64],
    used: usize,
    c: usize,
    place: usize,
) -> bool
    requires lent { Lent arities.now listings.now used c }
    requires variant_words_in_bounds { place + variant_words ≤ length table.now }
    ensures { result ≡ variant_fits arities.now listings.now table.now used c place }
{
    let start = table[place] as usize;
    let count = table[place + 1] as usize;
    if !is_inside(start, count, used) {
        return false;
    }
    if !is_weight(arities, &listings[start..start + count], c) {
        return false;
    }
    truths_fit(arities, listings, table, used, c, place)
}

// Whether the first n variants of the action a are fit.
fn variants_fit(
    arities: &[u64],
    listings: &[u64],
    table: &[u64],
    used: usize,
    c: usize,
    a: usize,
    n: usize,
) -> bool
    requires lent { Lent arities.now listings.now used c }
    requires action_words_in_bounds { a * action_words + action_words ≤ length table.now }
    requires n_le_most_variants { n ≤ most_variants }
    ensures { result ≡ every_below n (λ v. variant_fits arities.now listings.now table.now used c (variant_place a v)) }
{
    for v in 0..n {
        let place = a * model::ACTION_WORDS + 2 + v * model::VARIANT_WORDS;
        if !variant_fits(arities, listings, table, used, c, place) {
            return false;
        }
    }
    true
}

// Whether the action a is fit.
fn action_fits(arities: &[u64], listings: &[u64], table: &[u64], used: usize, a: usize) -> bool
    requires lent { Lent arities.now listings.now used 0 }
    requires action_words_in_bounds { a * action_words + action_words ≤ length table.now }
    ensures { result ≡ action_fits arities.now listings.now table.now used a }
{
    let c = table[a * model::ACTION_WORDS] as usize;
    if c > (Term::PARAMETERS as usize) {
        return false;
    }
    let n = table[a * model::ACTION_WORDS + 1] as usize;
    if n > model::VARIANTS {
        return false;
    }
    variants_fit(arities, listings, table, used, c, a, n)
}

// Whether the first n actions of the table are fit.
pub fn actions_fit(arities: &[u64], listings: &[u64], table: &[u64], used: usize, n: usize) -> bool
    requires lent { Lent arities.now listings.now used 0 }
    requires table_words_in_bounds { table_words ≤ length table.now }
    requires n_le_most_actions { n ≤ most_actions }
    ensures { result ≡ actions_fit arities.now listings.now table.now used n }
{
    for a in 0..n {
        if !action_fits(arities, listings, table, used, a) {
            return false;
        }
    }
    true
}
