// The check that lent words are a listing (refusal 14), and the terms that a listing uses.
#![tactic(auto)]

ghost use Rattle.std.specs.Prelude.{◌≡◌, ◌+◌, ◌-◌, ◌*◌, ◌<◌, ◌≤◌, eqb, length};
ghost use Rattle.label.specs.Limits.{predicate_count, term_end};
ghost use Rattle.table.specs.Table.{Table};
ghost use Rattle.diagram.specs.Words.{is_listing};
ghost use Rattle.diagram.specs.Listing.{diagram_of};
ghost use Rattle.diagram.specs.Validity.{ValidRow, ValidRows, Valid};
ghost use Rattle.listing.specs.Inner.{Entered, Downward, Walked};
ghost use Rattle.listing.specs.Check.{Decides};
ghost use Rattle.listing.specs.Used.{row_terms, marked, Markable, Used, set_from, marked_variables, marked_minimums};

use label::{Label, Term};

// Whether row i is a leaf or a branch, its children before it.
fn is_valid_row(arities: &[u64], words: &[u64], i: usize) -> bool
    requires predicate_count_in_bounds { predicate_count ≤ length arities.now }
    requires i_in_bounds { i * 3 + 3 ≤ length words.now }
    ensures { Decides result (ValidRow arities.now words.now i) }
{
    let l = words[i * 3];
    if l == Label::LEAF {
        if words[i * 3 + 1] > diagram::VALUE {
            return false;
        }
        if words[i * 3 + 2] != 0 {
            return false;
        }
        return true;
    }
    if !(Label { packed: l }).fits(arities) {
        return false;
    }
    let t = words[i * 3 + 1] as usize;
    let f = words[i * 3 + 2] as usize;
    if t >= i {
        return false;
    }
    if f >= i {
        return false;
    }
    if t == f {
        return false;
    }
    if !label::before(l, words[t * 3]) {
        return false;
    }
    if !label::before(l, words[f * 3]) {
        return false;
    }
    true
}

// Enters row i into the index, unless an equal row stands before it.
fn enter(words: &[u64], heads: &mut [u16], links: &mut [u16], limit: usize, i: usize) -> bool
    requires table { Table words.now heads.old links.old limit i }
    requires i_lt_limit { i < limit }
    ensures { Entered words.now limit i result heads.new links.new }
{
    let row = table::row_at(words, i);
    match table::lookup(words, heads, links, limit, i, row) {
        Some(_) => false,
        None => {
            let h = table::hash(row);
            links[i] = heads[h];
            heads[h] = (i + 1) as u16;
            true
        }
    }
}

// Whether the m rows are valid one by one and no two are equal.
fn are_valid_rows(
    arities: &[u64],
    words: &[u64],
    heads: &mut [u16],
    links: &mut [u16],
    m: usize,
) -> bool
    requires predicate_count_in_bounds { predicate_count ≤ length arities.now }
    requires table { Table words.now heads.old links.old m 0 }
    ensures { Decides result (ValidRows arities.now words.now m) }
{
    for i in 0..m {
        if !is_valid_row(arities, words, i) {
            return false;
        }
        if !enter(words, heads, links, m, i) {
            return false;
        }
    }
    true
}

// Walks from row i, where the first n rows are finished: how many are finished then, or 0 if not in order.
#[cycle(visit_walk)]
fn visit(words: &[u64], i: usize, n: usize) -> usize
    requires { Downward words.now i }
    ensures { Walked words.now i n result }
{
    if i < n { n } else { walk(words, i, n) }
}

// The same for a row that is not finished. Apart from visit, so that a child that is finished costs no call.
#[cycle(visit_walk)]
fn walk(words: &[u64], i: usize, n: usize) -> usize
    requires downward { Downward words.now i }
    requires n_le_i { n ≤ i }
    ensures { Walked words.now i n result }
{
    if words[i * 3] == Label::LEAF {
        if i == n {
            return i + 1;
        }
        return 0;
    }
    let a = visit(words, words[i * 3 + 1] as usize, n);
    if a == 0 {
        return 0;
    }
    let b = visit(words, words[i * 3 + 2] as usize, a);
    if b == i { i + 1 } else { 0 }
}

// Whether the words are a listing under the arity list.
pub fn check(arities: &[u64], words: &[u64]) -> bool
    ensures { result ≡ is_listing arities.now words.now }
{
    if !label::are_arities(arities) {
        return false;
    }
    let m = words.len() / 3;
    if m * 3 != words.len() {
        return false;
    }
    if m == 0 {
        return false;
    }
    if m > diagram::ROWS {
        return false;
    }
    let mut heads = [0u16; table::BUCKETS];
    let mut links = [0u16; diagram::ROWS];
    if !are_valid_rows(arities, words, &mut heads, &mut links, m) {
        return false;
    }
    if walk(words, m - 1, 0) != m {
        return false;
    }
    true
}

// Marks the terms of row i's label.
fn mark_row(arities: &[u64], words: &[u64], marks: &mut [u64], i: usize)
    requires { Markable arities.now words.now marks.old i }
    ensures { marks.new ≡ marked (row_terms arities.now words.now i) marks.old }
{
    let l = words[i * 3];
    if l == Label::LEAF {
        return;
    }
    let label = Label { packed: l };
    let n = arities[label.predicate() as usize];
    for k in 0..n {
        marks[label.place(k) as usize] = 1;
    }
}

// Marks the terms that occur in the listing: 1 for each of them, 0 for the others.
pub fn used(arities: &[u64], words: &[u64], marks: &mut [u64])
    requires valid { Valid arities.now words.now }
    requires marks_len { length marks.old ≡ term_end }
    ensures { Used arities.now (diagram_of words.now) marks.new }
{
    marks.fill(0);
    for i in 0..words.len() / 3 {
        mark_row(arities, words, marks, i);
    }
}

// How many of the terms from `first` on and before `end` are marked.
fn count_between(marks: &[u64], first: usize, end: usize) -> usize
    requires marks_len { length marks.now ≡ term_end }
    requires first_le_end { first ≤ end }
    requires end_le_term_end { end ≤ term_end }
    ensures { result ≡ set_from marks.now first (end - first) }
{
    let mut n = 0;
    for t in first..end {
        n += usize::from(marks[t] != 0);
    }
    n
}

// How many variables are marked.
pub fn count_variables(marks: &[u64]) -> usize
    requires { length marks.now ≡ term_end }
    ensures { result ≡ marked_variables marks.now }
{
    count_between(
        marks,
        Term::FIRST_VARIABLE as usize,
        Term::FIRST_MINIMUM as usize,
    )
}

// How many minimum variables are marked.
pub fn count_minimums(marks: &[u64]) -> usize
    requires { length marks.now ≡ term_end }
    ensures { result ≡ marked_minimums marks.now }
{
    count_between(marks, Term::FIRST_MINIMUM as usize, Term::END as usize)
}

// Whether no minimum variable is marked.
pub fn is_plain(marks: &[u64]) -> bool
    requires { length marks.now ≡ term_end }
    ensures { result ≡ eqb (marked_minimums marks.now) 0 }
{
    count_minimums(marks) == 0
}
