// Lent truth diagrams: their words, and their checks. What they are stands in regression.
#![tactic(auto)]

ghost use Rattle.std.specs.Prelude.{◌≡◌, ◌+◌, ◌*◌, ◌-◌, ◌≤◌, ◌<◌, length, get_or, take, drop};
ghost use Rattle.diagram.specs.Listing.{diagram_of};
ghost use Rattle.regression.specs.RegressCall.{truths_of, truth_words, are_listings, leaf_above, unbound_variable};
ghost use Rattle.label.specs.Limits.{predicate_count, most_places};
ghost use Rattle.diagram.specs.Validity.{Valid};
ghost use Rattle.truths.specs.TruthChecks.{is_listed_at, is_high_leaf, verdict_on, verdict_of, Between, Judged, has_truth, Lent};

use label::{Label, Term};
use refusal::Refusal;

// Word i, or 0 where there is none.
pub fn word_at(words: &[u64], i: usize) -> u64
    ensures { result ≡ get_or words.now i 0 }
{
    words.get(i).copied().unwrap_or(0)
}

// The `count` words from `first` on, those that are there.
fn part(words: &[u64], first: usize, count: usize) -> &[u64]
    ensures { result.now ≡ take count (drop first words.now) }
{
    let n = words.len();
    if first >= n {
        return &words[..0];
    }
    if count >= n - first {
        return &words[first..];
    }
    let end = first + count;
    &words[first..end]
}

// Whether predicate p has a truth diagram.
pub fn has_truth(spans: &[u64], p: usize) -> bool
    requires { p < predicate_count }
    ensures { result ≡ has_truth spans.now p }
{
    p != 0 && word_at(spans, p * 2 + 1) != 0
}

// The words of the truth diagram of predicate p.
pub fn truth_words<'a>(truths: &'a [u64], spans: &[u64], p: usize) -> &'a [u64]
    requires { p < predicate_count }
    ensures { result.now ≡ truth_words truths.now spans.now p }
{
    let first = word_at(spans, p * 2) as usize;
    let count = word_at(spans, p * 2 + 1) as usize;
    part(truths, first, count)
}

// Whether the truth diagram of predicate p is a listing, if there is one.
fn is_listed(arities: &[u64], truths: &[u64], spans: &[u64], p: usize) -> bool
    requires { p < predicate_count }
    ensures { result ≡ is_listed_at arities.now truths.now spans.now p }
{
    word_at(spans, p * 2 + 1) == 0 || listing::check(arities, truth_words(truths, spans, p))
}

// Whether all lent truth diagrams are listings.
pub fn are_listed(arities: &[u64], truths: &[u64], spans: &[u64]) -> bool
    ensures { result ≡ are_listings arities.now truths.now spans.now 1 (predicate_count - 1) }
{
    for p in 1usize..Label::PREDICATES {
        if !is_listed(arities, truths, spans, p) {
            return false;
        }
    }
    true
}

// Whether row k is a leaf above 1.
fn is_high_leaf(words: &[u64], k: usize) -> bool
    requires { k * 3 + 3 ≤ length words.now }
    ensures { result ≡ is_high_leaf words.now k }
{
    words[k * 3] == Label::LEAF && words[k * 3 + 1] > 1
}

// Whether a listing has a leaf above 1.
pub fn has_high_leaf(arities: &[u64], words: &[u64]) -> bool
    requires { Valid arities.now words.now }
    ensures { result ≡ leaf_above 1 (diagram_of words.now) }
{
    let m = words.len() / 3;
    for k in 0..m {
        if is_high_leaf(words, k) {
            return true;
        }
    }
    false
}

// Whether a listing has a variable that is no argument of a predicate of arity n, or a minimum variable.
fn has_unbound(arities: &[u64], words: &[u64], n: usize) -> bool
    requires valid { Valid arities.now words.now }
    requires n_le_most_places { n ≤ most_places }
    ensures { result ≡ unbound_variable arities.now n (diagram_of words.now) }
{
    let mut marks = [0u64; Term::END as usize];
    listing::used(arities, words, &mut marks);
    let first = (Term::FIRST_VARIABLE as usize) + n;
    let left = (Term::VARIABLES as usize) + (Term::MINIMUMS as usize) - n;
    freeing::any_set(&marks, first, left)
}

// Checks the truth diagram of a predicate of arity n: 7, then 6.
pub fn judge(arities: &[u64], words: &[u64], n: usize) -> Result<(), Refusal>
    requires valid { Valid arities.now words.now }
    requires n_le_most_places { n ≤ most_places }
    ensures { result ≡ verdict_on arities.now n (diagram_of words.now) }
{
    if has_high_leaf(arities, words) {
        return Err(Refusal::Truth);
    }
    if has_unbound(arities, words, n) {
        return Err(Refusal::Unbound);
    }
    Ok(())
}

// Checks the truth diagram of predicate p, if there is one.
fn judge_at(arities: &[u64], truths: &[u64], spans: &[u64], p: usize) -> Result<(), Refusal>
    requires lent { Lent arities.now truths.now spans.now }
    requires between { Between 1 p predicate_count }
    ensures { result ≡ verdict_of arities.now (get_or arities.now p 0) (truths_of truths.now spans.now p) }
{
    if word_at(spans, p * 2 + 1) == 0 {
        return Ok(());
    }
    judge(arities, truth_words(truths, spans, p), arities[p] as usize)
}

// Checks all lent truth diagrams, one after the other.
pub fn judge_all(arities: &[u64], truths: &[u64], spans: &[u64]) -> Result<(), Refusal>
    requires { Lent arities.now truths.now spans.now }
    ensures { Judged arities.now truths.now spans.now result }
{
    for p in 1usize..Label::PREDICATES {
        judge_at(arities, truths, spans, p)?;
    }
    Ok(())
}
