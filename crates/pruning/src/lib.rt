// What is left of a listing once edges go to leaf 0: formed row by row, written and closed up.
#![tactic(auto)]

ghost use Rattle.std.specs.Prelude.{◌≡◌, Bool, cond, ◌<◌, length, get_or, eqb};
ghost use Rattle.diagram.specs.Diagram.{Diagram};
ghost use Rattle.diagram.specs.Words.{row_count};
ghost use Rattle.diagram.specs.Validity.{tree};
ghost use Rattle.apply.specs.Formed.{add};
ghost use Rattle.store.specs.Space.{diagrams_of, Formation};
ghost use Rattle.pruning.specs.Pruning.{kept_of, Agrees, stays_in, Prunable, Pruned};
ghost use Rattle.pruning.specs.Keeping.{Keeping, Keepable, Kept};

use label::Label;

// Edges of a listing at most: two for each row.
pub const EDGES: usize = 2048;

// The place of what is left behind the edge at place e, which leads to row k: row 0, which is leaf 0, where the edge goes.
fn child(edges: &[u8], numbers: &[u16], e: usize, k: usize) -> usize
    requires e_in_bounds { e < length edges.now }
    requires k_in_bounds { k < length numbers.now }
    ensures { result ≡ cond (eqb (get_or edges.now e 0) 0) 0 (get_or numbers.now k 0) }
{
    if edges[e] == 0 {
        0
    } else {
        basics::wide(numbers[k])
    }
}

// Forms what is left of row i; `numbers` has the places of what is left of the rows before it, and row 0 of the space is leaf 0.
fn keep_row(
    words: &[u64],
    edges: &[u8],
    numbers: &[u16],
    space: &mut [u64],
    heads: &mut [u16],
    links: &mut [u16],
    count: usize,
    i: usize,
) -> Option<(usize, usize)>
    requires keeping { Keeping words.now edges.now space.old heads.old links.old numbers.now count i }
    requires i_bound { i < row_count words.now }
    ensures { Formation (kept_of (stays_in words.now edges.now) (tree words.now i)) (add (kept_of (stays_in words.now edges.now) (tree words.now i)) (diagrams_of space.old count)) result space.new heads.new links.new }
{
    let l = words[i * 3];
    if l == Label::LEAF {
        return store::leaf(space, heads, links, count, words[i * 3 + 1]);
    }
    let high = child(edges, numbers, i * 2, words[i * 3 + 1] as usize);
    let low = child(edges, numbers, i * 2 + 1, words[i * 3 + 2] as usize);
    store::branch(space, heads, links, count, l, high, low)
}

// Forms what is left of the rows in number order.
fn keep_rows(
    words: &[u64],
    edges: &[u8],
    space: &mut [u64],
    heads: &mut [u16],
    links: &mut [u16],
    numbers: &mut [u16],
    first: usize,
) -> Option<(usize, usize)>
    requires { Keeping words.now edges.now space.old heads.old links.old numbers.old first 0 }
    ensures { Kept words.now edges.now result space.new }
{
    let n = words.len() / 3;
    let mut count = first;
    for i in 0..n {
        let (j, c) = keep_row(words, edges, numbers, space, heads, links, count, i)?;
        numbers[i] = j as u16;
        count = c;
    }
    Some((basics::wide(numbers[n - 1]), count))
}

// Forms what is left once every edge whose word is 0 goes to leaf 0.
fn keep(words: &[u64], edges: &[u8], work: &mut [u64]) -> Option<(usize, usize)>
    requires { Keepable words.now edges.now work.old }
    ensures { Kept words.now edges.now result work.new }
{
    let mut heads = [0u16; table::BUCKETS];
    let mut links = [0u16; diagram::SPACE_ROWS];
    let mut numbers = [0u16; diagram::ROWS];
    let (_, first) = store::leaf(work, &mut heads, &mut links, 0, 0)?;
    keep_rows(
        words,
        edges,
        work,
        &mut heads,
        &mut links,
        &mut numbers,
        first,
    )
}

// Writes what is left of a listing, closed up, and answers its rows. `edges` has two words for each row, the true edge's first: 1 where the edge stays, 0 where it
// goes to leaf 0. The words behind the result stay.
pub fn prune(
    arities: &[u64],
    words: &[u64],
    edges: &[u8],
    out: &mut [u64],
    work: &mut [u64],
) -> usize
    requires { Prunable arities.now words.now edges.now out.old work.old }
    ensures { (stays : Diagram → Bool → Bool) → Agrees words.now edges.now stays → Pruned arities.now words.now stays out.old result out.new }
{
    let Some((root, count)) = keep(words, edges, work) else {
        return 0;
    };
    let mut marks = [0u16; diagram::SPACE_ROWS];
    let mut order = [0u16; diagram::SPACE_ROWS];
    let Some(k) = write::write(work, count, root, &mut marks, &mut order, out) else {
        return 0;
    };
    apart::close_up(arities, out, k);
    k
}
