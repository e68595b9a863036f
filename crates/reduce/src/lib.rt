// The public call of a reduction by model checking: the winning paths are found, and every edge on none of them goes to leaf 0.
#![tactic(auto)]

ghost use Rattle.std.specs.Prelude.{◌≡◌, ◌≢◌, true, suc, ◌+◌, ◌-◌, ◌*◌, ◌^◌, ◌<◌, ◌≤◌, min, length, eqb};
ghost use Rattle.label.specs.Limits.{leaf_mark, term_end, variable_count};
ghost use Rattle.label.specs.Callers.{TermMap};
ghost use Rattle.diagram.specs.Words.{label_at, row_count, is_listing};
ghost use Rattle.diagram.specs.Validity.{tree};
ghost use Rattle.reduction.specs.Reduction.{is_on, most_runs, has_kinds, has_parameter, reduce_call, answer_of, buffer_of};
ghost use Rattle.diagram.specs.Listing.{diagram_of};
ghost use Rattle.paths.specs.Inner.{bit, Leaves};
ghost use Rattle.pruning.specs.Pruning.{Agrees};
ghost use Rattle.reduce.specs.Routing.{winning, is_on_path, stays_in, Won, Edged};
ghost use Rattle.reduce.specs.Searching.{stacked, sign_of, better_of, Searching, Standing, Reached, Visited, Forked};
ghost use Rattle.reduce.specs.Tables.{Divided, Placed, Ranked, Mapping, Mapped, fact_word, Labelled, Filled, digits, Blocked, Grounded, Tabling, Tabled};
ghost use Rattle.reduce.specs.Winning.{Winnable, Winning, Plain, ReduceCallAnswered, some_used, Markable, Reducible};

use label::{Label, Term};
use paths::PATHS;
use refusal::Refusal;

// Facts at most: valuations times rows, of which there are fewer than twice the paths.
const FACTS: usize = 1024;
// A word for each term.
const TERMS: usize = Term::END as usize;
// Valuations times paths at most.
const RUNS: usize = 512;
// Combinations formed at most.
const FORMED: u64 = 100000;
// What is told of a fact that is not known.
const UNKNOWN: u64 = 2;

// What the first `count` of the known literals, the last of them first, tell of the fact: 0 that it is false, 1 that it is true, 2 nothing.
fn sign_of(known: &[u64], count: usize, fact: u64) -> u64
    requires { count ≤ length known.now }
    ensures { result ≡ sign_of (stacked known.now count) fact }
{
    for c in (0..count).rev() {
        let x = known[c];
        if x / 2 == fact {
            return x % 2;
        }
    }
    UNKNOWN
}

// Of the winning path so far and path k the one of least place: the higher leaf, among equal leaves the lower number. Where there is none so far, m stands for it.
fn better(words: &[u64], leaves: &[u64], n: usize, m: usize, best: usize, k: usize) -> usize
    requires leaves { Leaves words.now leaves.now n m }
    requires best_le_m { best ≤ m }
    requires k_lt_m { k < m }
    ensures { result ≡ better_of (tree words.now (n - 1)) m best k }
{
    if best == m {
        return k;
    }
    if leaves[best] < leaves[k] {
        return k;
    }
    if leaves[k] < leaves[best] {
        return best;
    }
    k.min(best)
}

// A path of this valuation is found: it is one formed. Behind the last valuation the winning path is marked, else the next valuation begins at the root.
#[cycle(fork_reach_visit)]
fn reach(
    words: &[u64],
    counts: &[u64],
    facts: &[u64],
    leaves: &[u64],
    known: &mut [u64],
    wins: &mut [u64],
    n: usize,
    m: usize,
    base: usize,
    left: usize,
    count: usize,
    best: usize,
    formed: u64,
    k: usize,
) -> u64
    requires searching { Searching words.now counts.now facts.now leaves.now known.old wins.old n m base left best formed }
    requires k_lt_m { k < m }
    requires count_bound { count ≤ base + n }
    ensures { Reached words.now facts.now known.old wins.old n m base left count best formed k known.new wins.new result }
{
    if formed == FORMED {
        return FORMED + 1;
    }
    let b = better(words, leaves, n, m, best, k);
    if left == 0 {
        wins[b] = 1;
        return formed + 1;
    }
    visit(
        words,
        counts,
        facts,
        leaves,
        known,
        wins,
        n,
        m,
        base + n,
        left - 1,
        count,
        b,
        formed + 1,
        n - 1,
        0,
    )
}

// Goes down both edges of the branch row r, whose fact is not known: by the true edge it is true, by the false edge false.
#[cycle(fork_reach_visit)]
fn fork(
    words: &[u64],
    counts: &[u64],
    facts: &[u64],
    leaves: &[u64],
    known: &mut [u64],
    wins: &mut [u64],
    n: usize,
    m: usize,
    base: usize,
    left: usize,
    count: usize,
    best: usize,
    formed: u64,
    r: usize,
    k: usize,
) -> u64
    requires searching { Searching words.now counts.now facts.now leaves.now known.old wins.old n m base left best formed }
    requires standing { Standing words.now n m base count r k }
    requires fact { label_at words.now r ≡ leaf_mark → ⊥ }
    ensures { Forked words.now facts.now known.old wins.old n m base left count best formed r k known.new wins.new result }
{
    let t = words[r * 3 + 1] as usize;
    let f = words[r * 3 + 2] as usize;
    let behind = k + (counts[t] as usize);
    let code = facts[base + r] * 2;
    known[count] = code + 1;
    let a = visit(
        words,
        counts,
        facts,
        leaves,
        known,
        wins,
        n,
        m,
        base,
        left,
        count + 1,
        best,
        formed,
        t,
        k,
    );
    if a > FORMED {
        return a;
    }
    known[count] = code;
    visit(
        words,
        counts,
        facts,
        leaves,
        known,
        wins,
        n,
        m,
        base,
        left,
        count + 1,
        best,
        a,
        f,
        behind,
    )
}

// Goes down from row r, whose first path is path k, by every way that what is known allows.
#[cycle(fork_reach_visit)]
fn visit(
    words: &[u64],
    counts: &[u64],
    facts: &[u64],
    leaves: &[u64],
    known: &mut [u64],
    wins: &mut [u64],
    n: usize,
    m: usize,
    base: usize,
    left: usize,
    count: usize,
    best: usize,
    formed: u64,
    r: usize,
    k: usize,
) -> u64
    requires searching { Searching words.now counts.now facts.now leaves.now known.old wins.old n m base left best formed }
    requires standing { Standing words.now n m base count r k }
    ensures { Visited words.now facts.now known.old wins.old n m base left count best formed r k known.new wins.new result }
{
    if words[r * 3] == Label::LEAF {
        return reach(
            words, counts, facts, leaves, known, wins, n, m, base, left, count, best, formed, k,
        );
    }
    let s = sign_of(known, count, facts[base + r]);
    let t = words[r * 3 + 1] as usize;
    if s == 1 {
        return visit(
            words, counts, facts, leaves, known, wins, n, m, base, left, count, best, formed, t, k,
        );
    }
    if s == 0 {
        let f = words[r * 3 + 2] as usize;
        let behind = k + (counts[t] as usize);
        return visit(
            words, counts, facts, leaves, known, wins, n, m, base, left, count, best, formed, f,
            behind,
        );
    }
    fork(
        words, counts, facts, leaves, known, wins, n, m, base, left, count, best, formed, r, k,
    )
}

// Finds the objects of the v variables under valuation i, which is one of `all`: the digits of i in base v.
fn objects_into(v: usize, all: usize, i: usize, out: &mut [u64])
    requires { Divided v all i out.old }
    ensures { Placed v i out.old out.new }
{
    let mut p = all;
    let mut x = i;
    for j in 0..v {
        p = p / v;
        out[j] = (x / p) as u64;
        x = x % p;
    }
}

// How many variables are marked up to the term t, where c are below it. A minimum variable is not counted.
fn rank_after(marks: &[u64], t: usize, c: usize) -> usize
    requires term_end_in_bounds { term_end ≤ length marks.now }
    requires t_lt_term_end { t < term_end }
    requires ranked { Ranked marks.now t c }
    ensures { Ranked marks.now (t + 1) result }
{
    if t < (Term::FIRST_VARIABLE as usize) {
        return c;
    }
    if t >= (Term::FIRST_MINIMUM as usize) {
        return c;
    }
    if marks[t] == 0 {
        return c;
    }
    c + 1
}

// Writes the object of each term: that of the variable of the same rank.
fn object_map(marks: &[u64], objects: &[u64], map: &mut [u64])
    requires { Mapping marks.now objects.now map.old }
    ensures { Mapped marks.now objects.now map.new term_end }
{
    let mut c = 0;
    for t in 0..Term::END as usize {
        map[t] = objects[c];
        c = rank_after(marks, t, c);
    }
}

// The fact of row r's label under the map of a valuation; 0 for a leaf.
fn fact_word(arities: &[u64], words: &[u64], map: &[u64], n: usize, r: usize) -> u64
    requires labelled { Labelled arities.now words.now n }
    requires term_map { TermMap map.now }
    requires r_lt_n { r < n }
    ensures { result ≡ fact_word arities.now words.now map.now r }
{
    let w = words[r * 3];
    if w == Label::LEAF {
        return 0;
    }
    Label { packed: w }.renamed(arities, map).packed
}

// Fills in the facts of the n rows' labels from the place `base` on.
fn fact_rows(arities: &[u64], words: &[u64], map: &[u64], n: usize, base: usize, facts: &mut [u64])
    requires labelled { Labelled arities.now words.now n }
    requires term_map { TermMap map.now }
    requires n_in_bounds { base + n ≤ length facts.old }
    ensures { Filled arities.now words.now map.now base n facts.old facts.new }
{
    for r in 0..n {
        facts[base + r] = fact_word(arities, words, map, n, r);
    }
}

// Fills in the facts of the n rows' labels under valuation i, which is one of `all`, from the place `base` on.
fn fact_block(
    arities: &[u64],
    words: &[u64],
    marks: &[u64],
    n: usize,
    v: usize,
    all: usize,
    i: usize,
    base: usize,
    facts: &mut [u64],
)
    requires { Blocked arities.now words.now marks.now facts.old n v all i base }
    ensures { Grounded arities.now words.now marks.now (digits v v i) base n facts.old facts.new }
{
    let mut objects = [0u64; TERMS];
    let mut map = [0u64; TERMS];
    objects_into(v, all, i, &mut objects);
    object_map(marks, &objects, &mut map);
    fact_rows(arities, words, &map, n, base, facts);
}

// Fills in the facts of the n rows' labels under each valuation.
fn fill_facts(
    arities: &[u64],
    words: &[u64],
    marks: &[u64],
    n: usize,
    v: usize,
    all: usize,
    facts: &mut [u64],
)
    requires { Tabling arities.now words.now marks.now facts.old n v all }
    ensures { Tabled arities.now words.now marks.now n v all facts.new }
{
    let mut base = 0;
    for i in 0..all {
        fact_block(arities, words, marks, n, v, all, i, base, facts);
        base += n;
    }
}

// Marks the winning paths, and answers how many combinations are formed, as far as one above the most; used[t] marks the terms that occur, v of them variables.
fn find_winners(
    arities: &[u64],
    words: &[u64],
    counts: &[u64],
    used: &[u64],
    n: usize,
    m: usize,
    v: usize,
    all: usize,
    wins: &mut [u64],
) -> u64
    requires { Winnable arities.now words.now counts.now used.now wins.old n m v all }
    ensures { Winning arities.now words.now m wins.old wins.new result }
{
    let mut facts = [0u64; FACTS];
    let mut known = [0u64; FACTS];
    let mut leaves = [0u64; PATHS];
    fill_facts(arities, words, used, n, v, all, &mut facts);
    paths::find_leaves(words, counts, n, m, &mut leaves);
    visit(
        words,
        counts,
        &facts,
        &leaves,
        &mut known,
        wins,
        n,
        m,
        0,
        all - 1,
        0,
        m,
        0,
        n - 1,
        0,
    )
}

// Whether path p is marked, and goes through the edge of row r: the true edge for side 1, the false edge for side 2.
fn is_on_path(
    words: &[u64],
    counts: &[u64],
    n: usize,
    m: usize,
    wins: &[u64],
    r: usize,
    side: u64,
    p: usize,
) -> bool
    requires won { Won words.now counts.now wins.now n m }
    requires edged { Edged n r side }
    requires p_lt_m { p < m }
    ensures { result ≡ is_on_path (tree words.now (n - 1)) wins.now (tree words.now r) (eqb side 1) p }
{
    wins[p] != 0 && paths::side_of(words, counts, n, p as u64, r) == side
}

// The word of the edge of the branch row r on that side: 1 if one of the m paths that is marked goes through it, else 0.
fn edge_word(
    words: &[u64],
    counts: &[u64],
    n: usize,
    m: usize,
    wins: &[u64],
    r: usize,
    side: u64,
) -> u8
    requires won { Won words.now counts.now wins.now n m }
    requires edged { Edged n r side }
    ensures { label_at words.now r ≢ leaf_mark → result ≡ bit (is_on (tree words.now (n - 1)) (winning wins.now m) (tree words.now r) (eqb side 1)) }
{
    if words[r * 3] == Label::LEAF {
        return 0;
    }
    for p in 0..m {
        if is_on_path(words, counts, n, m, wins, r, side, p) {
            return 1;
        }
    }
    0
}

// Finds which edges stay: two words for each row, the true edge's first.
fn find_edges(words: &[u64], counts: &[u64], m: usize, wins: &[u64], edges: &mut [u8])
    requires won { Won words.now counts.now wins.now (row_count words.now) m }
    requires words_in_bounds { row_count words.now * 2 ≤ length edges.old }
    ensures { Agrees words.now edges.new (stays_in words.now wins.now m) }
{
    let n = words.len() / 3;
    for i in 0..n {
        edges[i * 2] = edge_word(words, counts, n, m, wins, i, 1);
        edges[i * 2 + 1] = edge_word(words, counts, n, m, wins, i, 2);
    }
}

// How many valuations v variables have over as many objects, v to the power of v, as far as one above the most runs.
fn count_valuations(v: usize) -> usize
    requires { v ≤ variable_count }
    ensures { result ≡ min (suc most_runs) (v ^ v) }
{
    let mut p = 1;
    for j in 0..v {
        p = p * v;
        if p > RUNS {
            return RUNS + 1;
        }
    }
    p
}

// Finds the winning paths, and writes what is left once every edge on none of them goes to leaf 0, closed up.
fn reduce_plain(
    arities: &[u64],
    words: &[u64],
    counts: &[u64],
    used: &[u64],
    n: usize,
    m: usize,
    v: usize,
    all: usize,
    out: &mut [u64],
    work: &mut [u64],
) -> Result<usize, Refusal>
    requires { Plain arities.now words.now counts.now used.now n m v all out.old work.old }
    ensures { ReduceCallAnswered arities.now words.now out.old result out.new }
{
    let mut wins = [0u64; PATHS];
    let formed = find_winners(arities, words, counts, used, n, m, v, all, &mut wins);
    if formed > FORMED {
        return Err(Refusal::Combinations);
    }
    let mut edges = [0u8; pruning::EDGES];
    find_edges(words, counts, m, &wins, &mut edges);
    Ok(pruning::prune(arities, words, &edges, out, work))
}

// Whether one of the n terms from `first` on is marked.
fn has_marked(used: &[u64], first: usize, n: usize) -> bool
    requires { first + n ≤ length used.now }
    ensures { result ≡ some_used used.now first n }
{
    used[first..first + n].iter().any(|t| *t != 0)
}

// Whether an equality, a constant or a minimum variable is present; used[t] marks the terms that occur. Labels grow from the root down, and those of equalities are the lowest.
fn has_kinds(arities: &[u64], words: &[u64], used: &[u64], n: usize) -> bool
    requires { Markable arities.now words.now used.now n }
    ensures { result ≡ has_kinds arities.now (diagram_of words.now) }
{
    words[(n - 1) * 3] < Label::PREDICATE_WEIGHT
        || has_marked(used, 0, Term::CONSTANTS as usize)
        || !listing::is_plain(used)
}

// Reduces a listing that is one: 17 over 256 paths, 26, 27, 28, else the rows left.
pub fn reduce_checked(
    arities: &[u64],
    words: &[u64],
    out: &mut [u64],
    work: &mut [u64],
) -> Result<usize, Refusal>
    requires { Reducible arities.now words.now out.old work.old }
    ensures { ReduceCallAnswered arities.now words.now out.old result out.new }
{
    let n = words.len() / 3;
    let mut counts = [0u64; diagram::ROWS];
    let mut used = [0u64; TERMS];
    paths::count_paths(words, &mut counts, n);
    let m = counts[n - 1] as usize;
    if m > PATHS {
        return Err(Refusal::Paths);
    }
    listing::used(arities, words, &mut used);
    if has_kinds(arities, words, &used, n) {
        return Err(Refusal::Kinds);
    }
    let v = listing::count_variables(&used);
    let all = count_valuations(v);
    if all * m > RUNS {
        return Err(Refusal::Runs);
    }
    reduce_plain(arities, words, &counts, &used, n, m, v, all, out, work)
}

// Whether a parameter is present in the listing.
fn has_parameter(arities: &[u64], words: &[u64]) -> bool
    requires { is_listing arities.now words.now ≡ true }
    ensures { result ≡ has_parameter arities.now (diagram_of words.now) }
{
    let mut used = [0u64; TERMS];
    listing::used(arities, words, &mut used);
    has_marked(
        &used,
        Term::FIRST_PARAMETER as usize,
        Term::PARAMETERS as usize,
    )
}

// Reduces a lent listing: the result is written to `out`, `work` is the working space. Refused: 14, 18, 6 for a parameter, then 17, 26, 27, 28.
pub fn reduce(
    arities: &[u64],
    words: &[u64],
    out: &mut [u64],
    work: &mut [u64],
) -> Result<usize, Refusal>
    ensures value { result ≡ answer_of (reduce_call arities.now words.now (length out.old) (length work.old)) }
    ensures out_after { out.new ≡ buffer_of out.old (reduce_call arities.now words.now (length out.old) (length work.old)) }
{
    if !listing::check(arities, words) {
        return Err(Refusal::Listing);
    }
    if out.len() < diagram::RESULT_WORDS {
        return Err(Refusal::Buffer);
    }
    if work.len() < diagram::SPACE_WORDS {
        return Err(Refusal::Buffer);
    }
    if has_parameter(arities, words) {
        return Err(Refusal::Unbound);
    }
    reduce_checked(arities, words, out, work)
}
