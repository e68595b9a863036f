// Whether the paths of a listing that have a leaf other than one contradict themselves by equality. What that is stands in crate contradiction.
#![tactic(auto)]

ghost use Rattle.std.specs.Prelude.{◌≡◌, true, cond, ◌-◌, ◌/◌, ◌<◌, ◌≤◌, length, eqb};
ghost use Rattle.label.specs.Limits.{term_end};
ghost use Rattle.label.specs.Inner.{map_of};
ghost use Rattle.label.specs.Callers.{Movable};
ghost use Rattle.diagram.specs.Words.{is_listing};
ghost use Rattle.diagram.specs.Listing.{diagram_of};
ghost use Rattle.diagram.specs.Validity.{tree};
ghost use Rattle.paths.specs.Paths.{literals};
ghost use Rattle.paths.specs.Inner.{InRange, AllInRange, literal_at, literals_in};
ghost use Rattle.paths.specs.Routes.{path_at};
ghost use Rattle.contradiction.specs.Contradiction.{some_literal, affirms, clashes, clash_under, contradicts, passes, leads_to};
ghost use Rattle.contradict.specs.Representing.{Own, Merged, Taken, Represented, Labelled, Readable};
ghost use Rattle.contradict.specs.Leading.{Routed, Route, lead_answer};

use label::{Label, Term, Test};
use paths::PATHS;

// A word for each term.
const TERMS: usize = Term::END as usize;

// Where the paths of a diagram lead: to one leaf but where they contradict themselves, to others too, or there are too many paths.
#[derive(Clone, Copy)]
pub enum Led {
    Only,
    Others,
    Many,
}

// Each term is its own representative.
fn separate(table: &mut [u64])
    requires { term_end ≤ length table.old }
    ensures { Own table.old table.new term_end }
{
    for t in 0..TERMS {
        table[t] = t as u64;
    }
}

// What has the representative of t gets that of u.
fn join(table: &mut [u64], t: usize, u: usize)
    requires term_end_in_bounds { term_end ≤ length table.old }
    requires t_lt_term_end { t < term_end }
    requires u_lt_term_end { u < term_end }
    ensures { Merged table.old t u table.new term_end }
{
    let from = table[t];
    let to = table[u];
    for x in 0..TERMS {
        let t = table[x];
        table[x] = if t == from { to } else { t };
    }
}

// Takes in the literal x: a true equality joins the terms that it names.
fn join_literal(table: &mut [u64], x: u64)
    requires term_end_in_bounds { term_end ≤ length table.old }
    requires in_range { InRange term_end (x / 2) }
    ensures { Taken x table.old table.new }
{
    if x % 2 == 0 {
        return;
    }
    let a = Label { packed: x / 2 }.unpack();
    if a.predicate != Label::EQUALITY {
        return;
    }
    join(table, a.first as usize, a.second as usize);
}

// Finds the representatives under the true equalities among the literals.
fn join_all(literals: &[u64], table: &mut [u64])
    requires term_end_in_bounds { term_end ≤ length table.old }
    requires all_in_range { AllInRange term_end literals.now }
    ensures { Represented literals.now 0 table.new }
{
    separate(table);
    for j in (0..literals.len()).rev() {
        join_literal(table, literals[j]);
    }
}

// Whether the literal x is true and asks for the label k, with representatives for its terms.
fn affirms(arities: &[u64], table: &[u64], x: u64, k: u64) -> bool
    requires { Movable arities.now table.now (x / 2) }
    ensures { result ≡ affirms arities.now (map_of table.now) k (literal_at x) }
{
    if x % 2 == 0 {
        return false;
    }
    let Test::Is(l) = Label { packed: x / 2 }.moved(arities, table) else {
        return false;
    };
    l.packed == k
}

// Whether one of the literals does.
fn is_affirmed(arities: &[u64], literals: &[u64], table: &[u64], k: u64) -> bool
    requires { Readable arities.now literals.now table.now }
    ensures { result ≡ some_literal (affirms arities.now (map_of table.now) k) (literals_in literals.now) }
{
    for x in literals {
        if affirms(arities, table, *x, k) {
            return true;
        }
    }
    false
}

// Whether the literal x is false, and asks for plain truth or what one of the literals says is true.
fn clashes(arities: &[u64], literals: &[u64], table: &[u64], x: u64) -> bool
    requires readable { Readable arities.now literals.now table.now }
    requires movable { Movable arities.now table.now (x / 2) }
    ensures { result ≡ clashes arities.now (map_of table.now) (literals_in literals.now) (literal_at x) }
{
    if x % 2 == 1 {
        return false;
    }
    let Test::Is(l) = Label { packed: x / 2 }.moved(arities, table) else {
        return true;
    };
    is_affirmed(arities, literals, table, l.packed)
}

// Whether one of the literals does.
fn clash(arities: &[u64], literals: &[u64], table: &[u64]) -> bool
    requires { Readable arities.now literals.now table.now }
    ensures { result ≡ clash_under arities.now (map_of table.now) (literals_in literals.now) }
{
    for x in literals {
        if clashes(arities, literals, table, *x) {
            return true;
        }
    }
    false
}

// Whether the literals contradict themselves by equality.
fn contradicts(arities: &[u64], literals: &[u64]) -> bool
    requires { Labelled arities.now literals.now }
    ensures { result ≡ contradicts arities.now (literals_in literals.now) }
{
    let mut table = [0u64; TERMS];
    join_all(literals, &mut table);
    clash(arities, literals, &table)
}

// Whether path k contradicts itself by equality.
fn is_impossible(arities: &[u64], words: &[u64], counts: &[u64], n: usize, k: u64) -> bool
    requires { Route arities.now words.now counts.now n k }
    ensures { result ≡ contradicts arities.now (literals (path_at (tree words.now (n - 1)) k)) }
{
    let mut out = [0u64; PATHS];
    let j = paths::path_into(words, counts, n, k, &mut out, 0);
    contradicts(arities, &out[..j])
}

// Whether path k has the leaf w or contradicts itself by equality.
fn passes(arities: &[u64], words: &[u64], counts: &[u64], n: usize, k: u64, w: u64) -> bool
    requires { Route arities.now words.now counts.now n k }
    ensures { result ≡ passes arities.now w (path_at (tree words.now (n - 1)) k) }
{
    paths::leaf_of(words, counts, n, k) == w || is_impossible(arities, words, counts, n, k)
}

// Whether each of the m paths does.
fn all_pass(arities: &[u64], words: &[u64], counts: &[u64], n: usize, m: usize, w: u64) -> bool
    requires { Routed arities.now words.now counts.now n m }
    ensures { result ≡ leads_to arities.now w (tree words.now (n - 1)) }
{
    for k in 0..m {
        if !passes(arities, words, counts, n, k as u64, w) {
            return false;
        }
    }
    true
}

// Where the paths of a listing lead: over 256 of them are too many; each has the leaf w or contradicts itself by equality, or not.
pub fn leads_to(arities: &[u64], words: &[u64], w: u64) -> Led
    requires { is_listing arities.now words.now ≡ true }
    ensures { result ≡ lead_answer arities.now w (diagram_of words.now) }
{
    let n = words.len() / 3;
    let mut counts = [0u64; diagram::ROWS];
    paths::count_paths(words, &mut counts, n);
    let m = counts[n - 1] as usize;
    if m > PATHS {
        return Led::Many;
    }
    if all_pass(arities, words, &counts, n, m, w) {
        return Led::Only;
    }
    Led::Others
}
