// The paths of a listing by their numbers, true branch first: how many there are, their leaves, sides and literals.
#![tactic(auto)]

ghost use Rattle.std.specs.Prelude.{◌≡◌, suc, ◌+◌, ◌-◌, ◌*◌, ◌<◌, ◌≤◌, min, length};
ghost use Rattle.label.specs.Limits.{leaf_mark};
ghost use Rattle.diagram.specs.Words.{label_at};
ghost use Rattle.diagram.specs.Validity.{tree};
ghost use Rattle.paths.specs.Paths.{most_paths, paths};
ghost use Rattle.paths.specs.Inner.{Rows, Counted, At, Routed, Leaves, Sided, Entered};
ghost use Rattle.paths.specs.Routes.{path_at};
ghost use Rattle.paths.specs.Walking.{Stepped};

use label::Label;

// Paths of a diagram at most, over which a cut is refused.
pub const PATHS: usize = 256;
// What is counted where there are more.
const MANY: u64 = PATHS as u64 + 1;

// A place on a path: a row, which of its paths, and the literal that led to it.
#[derive(Clone, Copy)]
struct Here {
    row: usize,
    rest: u64,
    code: u64,
}

// How many paths row i has, as far as 256; 257 if more.
fn count_row(words: &[u64], counts: &[u64], n: usize, i: usize) -> u64
    requires rows { Rows words.now n }
    requires counted { Counted words.now counts.now i }
    requires i_lt_n { i < n }
    ensures { result ≡ min (suc most_paths) (length (paths (tree words.now i))) }
{
    if words[i * 3] == Label::LEAF {
        return 1;
    }
    let a = counts[words[i * 3 + 1] as usize];
    let b = counts[words[i * 3 + 2] as usize];
    (a + b).min(MANY)
}

// Counts the paths of each of the n rows.
pub fn count_paths(words: &[u64], counts: &mut [u64], n: usize)
    requires rows { Rows words.now n }
    requires n_in_bounds { n ≤ length counts.old }
    ensures { Counted words.now counts.new n }
{
    for i in 0..n {
        counts[i] = count_row(words, counts, n, i);
    }
}

// One step on from the branch row i on its path k.
fn step_on(words: &[u64], counts: &[u64], n: usize, i: usize, k: u64) -> Here
    requires rows { Rows words.now n }
    requires counted { Counted words.now counts.now n }
    requires at { At words.now n i k }
    requires fact { label_at words.now i ≡ leaf_mark → ⊥ }
    ensures { Stepped words.now n i k result }
{
    let l = words[i * 3];
    let t = words[i * 3 + 1] as usize;
    let c = counts[t];
    if k < c {
        return Here {
            row: t,
            rest: k,
            code: l * 2 + 1,
        };
    }
    Here {
        row: words[i * 3 + 2] as usize,
        rest: k - c,
        code: l * 2,
    }
}

// The leaf of path k.
pub fn leaf_of(words: &[u64], counts: &[u64], n: usize, k: u64) -> u64
    requires rows { Rows words.now n }
    requires counted { Counted words.now counts.now n }
    requires at { At words.now n (n - 1) k }
    ensures { result ≡ (path_at (tree words.now (n - 1)) k).end }
{
    let mut i = n - 1;
    let mut m = k;
    while words[i * 3] != Label::LEAF {
        let s = step_on(words, counts, n, i, m);
        (i, m) = (s.row, s.rest);
    }
    words[i * 3 + 1]
}

// Finds the leaves of the m paths.
pub fn find_leaves(words: &[u64], counts: &[u64], n: usize, m: usize, leaves: &mut [u64])
    requires routed { Routed words.now counts.now n m }
    requires m_in_bounds { m ≤ length leaves.old }
    ensures { Leaves words.now leaves.new n m }
{
    for p in 0..m {
        leaves[p] = leaf_of(words, counts, n, p as u64);
    }
}

// Where path k goes through row r: 1 by its true edge, 2 by its false edge, 0 not at all.
pub fn side_of(words: &[u64], counts: &[u64], n: usize, k: u64, r: usize) -> u64
    requires rows { Rows words.now n }
    requires counted { Counted words.now counts.now n }
    requires at { At words.now n (n - 1) k }
    requires r_lt_n { r < n }
    ensures { Sided (tree words.now r) (path_at (tree words.now (n - 1)) k) result }
{
    let mut i = n - 1;
    let mut m = k;
    while i > r {
        if words[i * 3] == Label::LEAF {
            return 0;
        }
        let s = step_on(words, counts, n, i, m);
        (i, m) = (s.row, s.rest);
    }
    if i < r {
        return 0;
    }
    if words[i * 3] == Label::LEAF {
        return 0;
    }
    if m < counts[words[i * 3 + 1] as usize] {
        1
    } else {
        2
    }
}

// Writes the literals of path k from place `first` on, and answers how many they are.
pub fn path_into(
    words: &[u64],
    counts: &[u64],
    n: usize,
    k: u64,
    out: &mut [u64],
    first: usize,
) -> usize
    requires rows { Rows words.now n }
    requires counted { Counted words.now counts.now n }
    requires at { At words.now n (n - 1) k }
    requires most_paths_in_bounds { first + most_paths ≤ length out.old }
    ensures { Entered words.now (n - 1) k out.old out.new first result }
{
    let mut i = n - 1;
    let mut m = k;
    let mut j = 0;
    while words[i * 3] != Label::LEAF {
        let s = step_on(words, counts, n, i, m);
        out[first + j] = s.code;
        (i, m) = (s.row, s.rest);
        j += 1;
    }
    j
}
