// The public call of a cut: the edge that goes is chosen, and what is left is written.
#![tactic(auto)]

ghost use Rattle.std.specs.Prelude.{◌≡◌, true, ◌-◌, ◌/◌, ◌≤◌, ◌<◌, length, eqb};
ghost use Rattle.diagram.specs.Sizes.{most_rows};
ghost use Rattle.diagram.specs.Diagram.{leaf, same};
ghost use Rattle.diagram.specs.Words.{row_count, is_listing};
ghost use Rattle.diagram.specs.Listing.{diagram_of};
ghost use Rattle.diagram.specs.Validity.{tree};
ghost use Rattle.diagram.specs.Variables.{is_plain};
ghost use Rattle.cutting.specs.Cut.{covers, may_go, choice, diagram_answer, answer_buffer, cut_answer, cut_buffer};
ghost use Rattle.paths.specs.Inner.{Rows, Routed};
ghost use Rattle.paths.specs.Paths.{most_paths};
ghost use Rattle.matcher.specs.Stored.{Enterable};
ghost use Rattle.matcher.specs.Covering.{Held};
ghost use Rattle.pruning.specs.Pruning.{edge_at};
ghost use Rattle.cut.specs.Choosing.{path_of, Sides, Known, Asking, Facing, Charted, Edged, Tested, EdgeFound, is_cover_on, cover_below, is_free_on, chosen_as};
ghost use Rattle.cut.specs.Calls.{Cuttable, Choosable, Writable, Trimmed};

use cutting::{Cut, Edge};
use label::{Label, Term};
use paths::PATHS;
use refusal::Refusal;

// A mark for each term.
const TERMS: usize = Term::END as usize;

// A place for each pair of paths.
const MEMO: usize = 65536;

// Finds where each of the m paths goes through row r.
fn find_sides(words: &[u64], counts: &[u64], n: usize, m: usize, r: usize, sides: &mut [u64])
    requires routed { Routed words.now counts.now n m }
    requires r_lt_n { r < n }
    requires m_in_bounds { m ≤ length sides.old }
    ensures { Sides words.now sides.new n m r }
{
    for p in 0..m {
        sides[p] = paths::side_of(words, counts, n, p as u64, r);
    }
}

// Whether path q covers path p, which `into` and `kinds` hold. It is asked once for each pair of paths: the memo has 1 for yes, 2 for no, and 0 before.
fn is_covered(
    arities: &[u64],
    words: &[u64],
    counts: &[u64],
    n: usize,
    memo: &mut [u16],
    into: &[u64],
    a: usize,
    kinds: &[u64],
    from: &mut [u64],
    p: usize,
    q: usize,
) -> bool
    requires known { Known arities.now words.now memo.old n }
    requires held { Held arities.now (path_of words.now n p) into.now a kinds.now }
    requires p_lt_most_paths { p < most_paths }
    requires enterable { Enterable arities.now words.now counts.now n q from.old }
    ensures { Tested arities.now words.now n (covers arities.now (path_of words.now n p) (path_of words.now n q)) result memo.new }
{
    let at = p * PATHS + q;
    let known = basics::wide(memo[at]);
    if known == 1 {
        return true;
    }
    if known != 0 {
        return false;
    }
    if matcher::covers(arities, words, counts, n, into, a, kinds, q as u64, from) {
        memo[at] = 1;
        return true;
    }
    memo[at] = 2;
    false
}

// Whether path q avoids the edge that paths of that side go through, with a leaf at least that of path p, and covers it.
fn is_cover(
    arities: &[u64],
    words: &[u64],
    counts: &[u64],
    n: usize,
    m: usize,
    leaves: &[u64],
    sides: &[u64],
    memo: &mut [u16],
    into: &[u64],
    a: usize,
    kinds: &[u64],
    from: &mut [u64],
    side: u64,
    p: usize,
    q: usize,
) -> bool
    requires asking { Asking arities.now words.now counts.now leaves.now sides.now memo.old n m }
    requires facing { Facing arities.now words.now into.now a kinds.now from.old n p }
    requires p_lt_m { p < m }
    requires q_lt_m { q < m }
    ensures { Tested arities.now words.now n (is_cover_on arities.now words.now n sides.now side p q) result memo.new }
{
    if sides[q] == side {
        return false;
    }
    if leaves[q] < leaves[p] {
        return false;
    }
    is_covered(arities, words, counts, n, memo, into, a, kinds, from, p, q)
}

// Whether one of the m paths is such a cover of path p, which `into` and `kinds` hold.
fn some_cover(
    arities: &[u64],
    words: &[u64],
    counts: &[u64],
    n: usize,
    m: usize,
    leaves: &[u64],
    sides: &[u64],
    memo: &mut [u16],
    into: &[u64],
    a: usize,
    kinds: &[u64],
    from: &mut [u64],
    side: u64,
    p: usize,
) -> bool
    requires asking { Asking arities.now words.now counts.now leaves.now sides.now memo.old n m }
    requires facing { Facing arities.now words.now into.now a kinds.now from.old n p }
    requires p_lt_m { p < m }
    ensures { Tested arities.now words.now n (cover_below arities.now words.now n sides.now side p m) result memo.new }
{
    for q in 0..m {
        if is_cover(
            arities, words, counts, n, m, leaves, sides, memo, into, a, kinds, from, side, p, q,
        ) {
            return true;
        }
    }
    false
}

// Whether one of the m paths is such a cover of path p. What depends on path p alone is made once for all of them.
fn has_cover(
    arities: &[u64],
    words: &[u64],
    counts: &[u64],
    n: usize,
    m: usize,
    leaves: &[u64],
    sides: &[u64],
    memo: &mut [u16],
    side: u64,
    p: usize,
) -> bool
    requires asking { Asking arities.now words.now counts.now leaves.now sides.now memo.old n m }
    requires p_lt_m { p < m }
    ensures { Tested arities.now words.now n (cover_below arities.now words.now n sides.now side p m) result memo.new }
{
    let mut into = [0u64; matcher::PATH_WORDS];
    let mut kinds = [0u64; matcher::KINDS];
    let mut from = [0u64; matcher::PATH_WORDS];
    let a = matcher::target(arities, words, counts, n, p as u64, &mut into, &mut kinds);
    some_cover(
        arities, words, counts, n, m, leaves, sides, memo, &into, a, &kinds, &mut from, side, p,
    )
}

// Whether path p is not in the way of the edge that paths of that side go through.
fn is_free(
    arities: &[u64],
    words: &[u64],
    counts: &[u64],
    n: usize,
    m: usize,
    leaves: &[u64],
    sides: &[u64],
    memo: &mut [u16],
    side: u64,
    p: usize,
) -> bool
    requires asking { Asking arities.now words.now counts.now leaves.now sides.now memo.old n m }
    requires p_lt_m { p < m }
    ensures { Tested arities.now words.now n (is_free_on arities.now words.now n sides.now side m p) result memo.new }
{
    if sides[p] != side {
        return true;
    }
    if leaves[p] == 0 {
        return true;
    }
    has_cover(arities, words, counts, n, m, leaves, sides, memo, side, p)
}

// Whether row i is leaf 0.
fn is_zero(words: &[u64], n: usize, i: usize) -> bool
    requires rows { Rows words.now n }
    requires i_lt_n { i < n }
    ensures { result ≡ same (tree words.now i) (leaf 0) }
{
    words[i * 3] == Label::LEAF && words[i * 3 + 1] == 0
}

// Whether the edge of row r may go to leaf 0: the true edge for side 1, the false edge for side 2.
fn may_go(
    arities: &[u64],
    words: &[u64],
    counts: &[u64],
    n: usize,
    m: usize,
    leaves: &[u64],
    sides: &[u64],
    memo: &mut [u16],
    r: usize,
    side: u64,
) -> bool
    requires asking { Asking arities.now words.now counts.now leaves.now sides.now memo.old n m }
    requires edged { Edged words.now sides.now n m r side }
    ensures { Tested arities.now words.now n (may_go arities.now (tree words.now (n - 1)) (eqb side 1) (tree words.now r)) result memo.new }
{
    if is_zero(words, n, words[r * 3 + (side as usize)] as usize) {
        return false;
    }
    for p in 0..m {
        if !is_free(arities, words, counts, n, m, leaves, sides, memo, side, p) {
            return false;
        }
    }
    true
}

// Which edge of row r may go, true edge first: 1, 2, or 0 for none.
fn edge_of(
    arities: &[u64],
    words: &[u64],
    counts: &[u64],
    n: usize,
    m: usize,
    leaves: &[u64],
    memo: &mut [u16],
    r: usize,
) -> u64
    requires charted { Charted arities.now words.now counts.now leaves.now n m }
    requires known { Known arities.now words.now memo.old n }
    requires r_lt_n { r < n }
    ensures { EdgeFound arities.now words.now n r result memo.new }
{
    if words[r * 3] == Label::LEAF {
        return 0;
    }
    let mut sides = [0u64; PATHS];
    find_sides(words, counts, n, m, r, &mut sides);
    if may_go(arities, words, counts, n, m, leaves, &sides, memo, r, 1) {
        return 1;
    }
    if may_go(arities, words, counts, n, m, leaves, &sides, memo, r, 2) {
        return 2;
    }
    0
}

// The highest row, true edge first, whose edge may go: the row, and whether it is the true edge.
fn choose(
    arities: &[u64],
    words: &[u64],
    counts: &[u64],
    n: usize,
    m: usize,
) -> Option<(usize, bool)>
    requires words_value { is_listing arities.now words.now ≡ true }
    requires words_value_2 { is_plain arities.now (diagram_of words.now) ≡ true }
    requires n_value { n ≡ row_count words.now }
    requires routed { Routed words.now counts.now n m }
    ensures { result ≡ chosen_as (choice arities.now (diagram_of words.now)) }
{
    let mut leaves = [0u64; PATHS];
    paths::find_leaves(words, counts, n, m, &mut leaves);
    let mut memo = [0u16; MEMO];
    for i in (0..n).rev() {
        let e = edge_of(arities, words, counts, n, m, &leaves, &mut memo, i);
        if e == 1 {
            return Some((i, true));
        }
        if e == 2 {
            return Some((i, false));
        }
    }
    None
}

// Where the word of the edge of row k on that side stands: a row has two, the true edge's first.
fn edge_place(k: usize, side: bool) -> usize
    requires { k < most_rows }
    ensures { result ≡ edge_at k side }
{
    if side { k * 2 } else { k * 2 + 1 }
}

// Writes what is left once the edge of row k goes to leaf 0, closed up, and answers its rows.
fn write_left(
    arities: &[u64],
    words: &[u64],
    k: usize,
    side: bool,
    out: &mut [u64],
    work: &mut [u64],
) -> usize
    requires { Writable arities.now words.now out.old work.old k }
    ensures { Trimmed arities.now words.now k side out.old result out.new }
{
    let mut edges = [1u8; pruning::EDGES];
    edges[edge_place(k, side)] = 0;
    pruning::prune(arities, words, &edges, out, work)
}

// Cuts a listing without minimum variables: 17 over 256 paths, 16 if no edge may go, else the edge and the rows left.
fn cut_plain(arities: &[u64], words: &[u64], out: &mut [u64], work: &mut [u64]) -> Cut
    requires { Choosable arities.now words.now out.old work.old }
    ensures value { result ≡ diagram_answer arities.now (diagram_of words.now) }
    ensures out_after { out.new ≡ answer_buffer arities.now words.now out.old result }
{
    let n = words.len() / 3;
    let mut counts = [0u64; diagram::ROWS];
    paths::count_paths(words, &mut counts, n);
    let m = counts[n - 1] as usize;
    if m > PATHS {
        return Cut::Refused(Refusal::Paths);
    }
    let Some((k, side)) = choose(arities, words, &counts, n, m) else {
        return Cut::Refused(Refusal::Nothing);
    };
    let left = write_left(arities, words, k, side, out, work);
    if side {
        return Cut::Done(k, Edge::True, left);
    }
    Cut::Done(k, Edge::False, left)
}

// Whether a listing has no minimum variable.
fn is_plain(arities: &[u64], words: &[u64]) -> bool
    requires { is_listing arities.now words.now ≡ true }
    ensures { result ≡ is_plain arities.now (diagram_of words.now) }
{
    let mut marks = [0u64; TERMS];
    listing::used(arities, words, &mut marks);
    listing::is_plain(&marks)
}

// Cuts a listing that is one: 25 with a minimum variable, 17 over 256 paths, 16 if no edge may go, else the edge and the rows left.
pub fn cut_checked(arities: &[u64], words: &[u64], out: &mut [u64], work: &mut [u64]) -> Cut
    requires { Cuttable arities.now words.now out.old work.old }
    ensures value { result ≡ diagram_answer arities.now (diagram_of words.now) }
    ensures out_after { out.new ≡ answer_buffer arities.now words.now out.old result }
{
    if !is_plain(arities, words) {
        return Cut::Refused(Refusal::Minimum);
    }
    cut_plain(arities, words, out, work)
}

// Cuts a lent listing: the result is written to `out`, `work` is the working space. Refused: 14, 18, then 25, 17, 16.
pub fn cut(arities: &[u64], words: &[u64], out: &mut [u64], work: &mut [u64]) -> Cut
    ensures value { result ≡ cut_answer arities.now words.now (length out.old) (length work.old) }
    ensures out_after { out.new ≡ cut_buffer arities.now words.now out.old (length work.old) }
{
    if !listing::check(arities, words) {
        return Cut::Refused(Refusal::Listing);
    }
    if out.len() < diagram::RESULT_WORDS {
        return Cut::Refused(Refusal::Buffer);
    }
    if work.len() < diagram::SPACE_WORDS {
        return Cut::Refused(Refusal::Buffer);
    }
    cut_checked(arities, words, out, work)
}
