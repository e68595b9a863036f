// An index of facts: a hash table over lent rows of facts, by which a fact is found without a search through all of them.
#![tactic(auto)]

ghost use Rattle.std.specs.Prelude.{◌≡◌, ◌+◌, ◌*◌, ◌<◌, ◌≤◌, length};
ghost use Rattle.label.specs.Limits.{most_places};
ghost use Rattle.state.specs.Lent.{fact_words};
ghost use Rattle.fact_index.specs.Inner.{place_count, hash_end, hash_gap, hash_start, hash_step, bucket_for, bucket_at, indexed_count, Indexed, Clean};
ghost use Rattle.fact_index.specs.Index.{buckets};

use label::Label;
use state::FACT_WORDS;

// Buckets of an index; the words behind them are links, one for each row that it holds.
pub const BUCKETS: usize = 1024;
// Of a fact's number, and of an object, what is below this counts.
const HASH_END: u64 = 4294967296;
// The numbers of predicates stand so far apart.
const HASH_GAP: u64 = 64;

// The places of predicate p.
pub fn place_count(arities: &[u64], p: u64) -> usize
    ensures { (result ≡ place_count arities.now p) × (result ≤ most_places) }
{
    match arities.get(p as usize) {
        Some(n) => (*n).min(Label::PLACES) as usize,
        None => 0,
    }
}

// The number of a fact of p, before its objects.
pub fn hash_start(p: u64) -> u64
    ensures { (result ≡ hash_start p) × (result < hash_end * hash_gap) }
{
    p % HASH_END * HASH_GAP
}

// One object more.
pub fn hash_step(h: u64, o: u64) -> u64
    requires { h < hash_end * hash_gap }
    ensures { (result ≡ hash_step h o) × (result < hash_end * hash_gap) }
{
    (h * 37 + o % HASH_END) % HASH_END
}

// The bucket of a fact with the number h.
pub fn bucket(h: u64) -> usize
    requires { h < hash_end * hash_gap }
    ensures { (result ≡ bucket_for h) × (result < buckets) }
{
    ((h as usize) + (h as usize) / BUCKETS) % BUCKETS
}

// The bucket of row i.
pub fn row_bucket(arities: &[u64], facts: &[u64], i: usize) -> usize
    requires { i * fact_words + fact_words ≤ length facts.now }
    ensures { (result ≡ bucket_at arities.now facts.now i) × (result < buckets) }
{
    let p = facts[i * FACT_WORDS];
    let k = place_count(arities, p);
    let mut h = hash_start(p);
    for j in 0..k {
        h = hash_step(h, facts[i * FACT_WORDS + 1 + j]);
    }
    bucket(h)
}

// Makes the index of the facts in a clean one: of as many rows as it has links.
pub fn index_facts(arities: &[u64], facts: &[u64], index: &mut [u64])
    requires { Clean index.old }
    ensures { Indexed arities.now facts.now index.new (indexed_count facts.now index.new) }
{
    let rows = facts.len() / FACT_WORDS;
    for i in 0..rows {
        if BUCKETS + i == index.len() {
            return;
        }
        let h = row_bucket(arities, facts, i);
        index[BUCKETS + i] = index[h];
        index[h] = (i + 1) as u64;
    }
}

// Cleans the index of the facts: only their buckets are written.
pub fn clear_index(arities: &[u64], facts: &[u64], index: &mut [u64])
    requires { Indexed arities.now facts.now index.old (indexed_count facts.now index.old) }
    ensures { Clean index.new }
{
    let rows = facts.len() / FACT_WORDS;
    for i in 0..rows {
        if BUCKETS + i == index.len() {
            return;
        }
        let h = row_bucket(arities, facts, i);
        index[h] = 0;
    }
}
