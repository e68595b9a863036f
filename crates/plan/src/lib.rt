// The walk of pairs of a combination, and the plan that it writes into lent space.
#![tactic(auto)]

ghost use Rattle.std.specs.Prelude.{◌≡◌, false, [], ◌+◌, ◌*◌, ◌<◌, ◌≤◌, length};
ghost use Rattle.basics.specs.Members.{mem};
ghost use Rattle.table.specs.Chains.{prev};
ghost use Rattle.diagram.specs.Sizes.{space_rows};
ghost use Rattle.apply.specs.Pairs.{absorbs};
ghost use Rattle.plan.specs.Walk.{same_pair, is_end, lesser, pair_label, on_high, on_low, walked, Leading};
ghost use Rattle.plan.specs.Plan.{buckets, key_count, key_of, pair_of, hash_of, key_at, Index, Clean, Touched, Ready, Planned, pack_base, went_of, pairs_at, Visited, Entered};
ghost use Rattle.std.specs.Prelude.{Some};

use apply::Operation;
use label::Label;

// The number of buckets of the index.
pub const BUCKETS: usize = 4096;
// The words of an entry of the plan.
pub const ENTRY_WORDS: usize = 5;
// A leaf's first word.
const LEAF: u64 = Label::LEAF;
// In a packed answer the number of a pair stands below the count of pairs.
const PACK_BASE: usize = 65536;
// The packed answer where the pairs are too many.
const FULL: usize = 0;

// The rows of a pair's two successors: (hi, hj) on high, (li, lj) on low.
#[derive(Clone, Copy)]
pub struct Ways {
    pub hi: usize,
    pub hj: usize,
    pub li: usize,
    pub lj: usize,
}

// The key of a pair.
fn key(i: usize, j: usize) -> u64
    requires { (i < space_rows) × (j < space_rows) }
    ensures { (result ≡ key_of (i, j)) × (result < key_count) }
{
    (i * diagram::SPACE_ROWS + j) as u64
}

// The bucket of a key.
fn hash(k: u64) -> usize
    requires { k < key_count }
    ensures { (result ≡ hash_of k) × (result < buckets) }
{
    ((k * 2654435769 / 65536) as usize) % BUCKETS
}

// The lower of two labels.
fn lower(first: u64, second: u64) -> u64
    ensures { result ≡ lesser first second }
{
    if label::before(second, first) {
        second
    } else {
        first
    }
}

// One more than the number of the entry with the key, or 0.
fn find(plan: &[u64], heads: &[u16], limit: usize, count: usize, k: u64) -> usize
    requires index { Index plan.now heads.now limit count }
    requires k_lt_key_count { k < key_count }
    ensures { result ≡ prev (key_at plan.now) k count }
{
    let h = hash(k);
    let mut at = basics::wide(heads[h]);
    while at != 0 {
        let i = at - 1;
        if plan[i * ENTRY_WORDS] == k {
            return at;
        }
        at = plan[i * ENTRY_WORDS + 1] as usize;
    }
    0
}

// Whether a leaf of this value ends a pair beside whatever stands there.
fn absorbs(op: Operation, value: u64) -> bool
    ensures { result ≡ absorbs op value }
{
    match op {
        Operation::Product => value == 0,
        _ => false,
    }
}

// Whether a pair ends.
fn ends(x: &[u64], y: &[u64], i: usize, j: usize, op: Operation) -> bool
    requires { (i * 3 + 3 ≤ length x.now) × (j * 3 + 3 ≤ length y.now) }
    ensures { result ≡ is_end op x.now y.now (i, j) }
{
    let a = x[i * 3];
    let b = y[j * 3];
    if a == LEAF {
        b == LEAF || absorbs(op, x[i * 3 + 1])
    } else {
        b == LEAF && absorbs(op, y[j * 3 + 1])
    }
}

// A leaf's mark where a pair ends, or the label by which it goes down.
fn pair_label(x: &[u64], y: &[u64], i: usize, j: usize, op: Operation) -> u64
    requires { (i * 3 + 3 ≤ length x.now) × (j * 3 + 3 ≤ length y.now) }
    ensures { result ≡ pair_label op x.now y.now (i, j) }
{
    if ends(x, y, i, j, op) {
        LEAF
    } else {
        lower(x[i * 3], y[j * 3])
    }
}

// The successors of a pair, all read before anything is stored.
fn successors(x: &[u64], y: &[u64], i: usize, j: usize) -> Ways
    requires { (i * 3 + 3 ≤ length x.now) × (j * 3 + 3 ≤ length y.now) }
    ensures { ((result.hi, result.hj) ≡ on_high x.now y.now (i, j)) × ((result.li, result.lj) ≡ on_low x.now y.now (i, j)) }
{
    let a = x[i * 3];
    let b = y[j * 3];
    if label::before(a, b) {
        return Ways {
            hi: x[i * 3 + 1] as usize,
            hj: j,
            li: x[i * 3 + 2] as usize,
            lj: j,
        };
    }
    if label::before(b, a) {
        return Ways {
            hi: i,
            hj: y[j * 3 + 1] as usize,
            li: i,
            lj: y[j * 3 + 2] as usize,
        };
    }
    Ways {
        hi: x[i * 3 + 1] as usize,
        hj: y[j * 3 + 1] as usize,
        li: x[i * 3 + 2] as usize,
        lj: y[j * 3 + 2] as usize,
    }
}

// The number of a pair in the plan and of the pairs there, in one word: it comes back from each inner call in a register.
fn packed(number: usize, count: usize) -> usize
    requires { (number < pack_base) × (0 < count) × (count < pack_base) }
    ensures { went_of result ≡ Some (number, count) }
{
    count * PACK_BASE + number
}

// Writes an entry at the end, if there is room.
fn add(
    plan: &mut [u64],
    heads: &mut [u16],
    limit: usize,
    count: usize,
    k: u64,
    label: u64,
    first: u64,
    second: u64,
) -> usize
    requires index { Index plan.old heads.old limit count }
    requires k_lt_key_count { k < key_count }
    ensures { Entered plan.old heads.old limit count k label first second (went_of result) plan.new heads.new }
{
    if count == limit {
        return FULL;
    }
    let h = hash(k);
    plan[count * ENTRY_WORDS] = k;
    plan[count * ENTRY_WORDS + 1] = basics::wide(heads[h]) as u64;
    plan[count * ENTRY_WORDS + 2] = label;
    plan[count * ENTRY_WORDS + 3] = first;
    plan[count * ENTRY_WORDS + 4] = second;
    heads[h] = (count + 1) as u16;
    packed(count, count + 1)
}

// Walks from the pair of a key, which may be in the plan already. The key and not two rows: with an argument more this is no longer inlined.
#[cycle(below_visit)]
fn visit(
    x: &[u64],
    y: &[u64],
    plan: &mut [u64],
    heads: &mut [u16],
    limit: usize,
    count: usize,
    k: u64,
    op: Operation,
) -> usize
    requires { Ready op x.now y.now plan.old heads.old limit count (pair_of k) }
    ensures { Visited op x.now y.now limit (pair_of k) (walked op x.now y.now (pair_of k) (pairs_at plan.old count)) (went_of result) plan.new heads.new }
{
    let at = find(plan, heads, limit, count, k);
    if at != 0 {
        packed(at - 1, count)
    } else {
        below(x, y, plan, heads, limit, count, k, op)
    }
}

// Walks from the pair of a key that is not in the plan.
#[cycle(below_visit)]
fn below(
    x: &[u64],
    y: &[u64],
    plan: &mut [u64],
    heads: &mut [u16],
    limit: usize,
    count: usize,
    k: u64,
    op: Operation,
) -> usize
    requires ready { Ready op x.now y.now plan.old heads.old limit count (pair_of k) }
    requires count_value { mem same_pair (pair_of k) (pairs_at plan.old count) ≡ false }
    ensures { Visited op x.now y.now limit (pair_of k) (walked op x.now y.now (pair_of k) (pairs_at plan.old count)) (went_of result) plan.new heads.new }
{
    let i = k as usize / diagram::SPACE_ROWS;
    let j = k as usize % diagram::SPACE_ROWS;
    let l = pair_label(x, y, i, j, op);
    if l == LEAF {
        return add(plan, heads, limit, count, k, l, x[i * 3 + 1], y[j * 3 + 1]);
    }
    let s = successors(x, y, i, j);
    let on_high = key(s.hi, s.hj);
    let on_low = key(s.li, s.lj);
    let high = visit(x, y, plan, heads, limit, count, on_high, op);
    if high == FULL {
        return FULL;
    }
    let n = high / PACK_BASE;
    let low = visit(x, y, plan, heads, limit, n, on_low, op);
    if low == FULL {
        return FULL;
    }
    let m = low / PACK_BASE;
    let t = (high % PACK_BASE) as u64;
    let f = (low % PACK_BASE) as u64;
    add(plan, heads, limit, m, k, l, t, f)
}

// Walks the pairs of an operation on two row spaces from row i of x and row j of y, and writes their plan. The index must be clean, and is in use after. Answers the number of the
// first pair in the plan and how many pairs stand there, or None where they are too many.
pub fn walk(
    x: &[u64],
    y: &[u64],
    plan: &mut [u64],
    heads: &mut [u16],
    limit: usize,
    i: usize,
    j: usize,
    op: Operation,
) -> Option<(usize, usize)>
    requires leading { Leading x.now y.now (i, j) }
    requires index { Index plan.old heads.old limit 0 }
    ensures { Planned op x.now y.now limit (walked op x.now y.now (i, j) []) result plan.new heads.new }
{
    let k = key(i, j);
    let r = below(x, y, plan, heads, limit, 0, k, op);
    if r == FULL {
        None
    } else {
        Some((r % PACK_BASE, r / PACK_BASE))
    }
}

// Empties the index of the first count entries: clears the buckets that they touched.
pub fn clear(plan: &[u64], heads: &mut [u16], count: usize)
    requires { Touched plan.now heads.old count }
    ensures heads_len_unchanged { length heads.new ≡ length heads.old }
    ensures clean { Clean heads.new }
{
    for i in 0..count {
        let h = hash(plan[i * ENTRY_WORDS]);
        heads[h] = 0;
    }
}
