// Lines of the state: its objects, the constants' objects and the facts, in lent words.
#![tactic(auto)]

ghost use Rattle.std.specs.Prelude.{◌≡◌, ◌+◌, ◌*◌, ◌<◌, ◌≤◌, length, drop, ◌&&◌, ltb};
ghost use Rattle.std.proofs.Math.Seq.{paste};
ghost use Rattle.state.specs.Lent.{fact_words, most_facts};
ghost use Rattle.session.specs.Facts.{objects_line, is_line, row_is, is_fact, fact_line};
ghost use Rattle.declare.specs.Tables.{names_of, GoodNames, GoodVocabulary};
ghost use Rattle.fact_index.specs.Inner.{Indexed, Clean};
ghost use Rattle.fact_index.specs.Index.{buckets};
ghost use Rattle.facts.specs.Inner.{most_bytes, FactIndex, Living, Placing, Unplaced, EmptyRow, Unindexed, Rowed, Remade, Emptied, kept, tuple_more, TupleOf, Telling};
ghost use Rattle.facts.specs.Words.{facts_base, index_base, index_words, state_words, part, live_of, GoodLive};
ghost use Rattle.facts.specs.Noting.{Findable, PutIn};
ghost use Rattle.events.specs.Front.{events_of};
ghost use Rattle.events.specs.Contents.{numbers_in};

use declare::Counts;
use label::{Label, Term};
use refusal::Refusal;
use words::Key;

// How many objects there are, 0 before an accepted (objects n), and how many facts; how many (did ..) lines were accepted since they began, and the total of the
// rewards met.
#[derive(Clone, Copy)]
pub struct Live {
    pub objects: u64,
    pub facts: usize,
    pub count: u64,
    pub total: u64,
}

// Objects and facts of a state at most.
pub const OBJECTS: u64 = 64;

pub const FACTS: usize = 1024;

// Where the words that mark placed constants begin, and the facts.
pub const PLACED: usize = Term::CONSTANTS as usize;

pub const FACTS_BASE: usize = PLACED + PLACED;

// Where the index of the facts begins, and its words: buckets, and a link for each fact.
pub const INDEX_BASE: usize = FACTS_BASE + FACTS * FACT_WORDS;

pub const INDEX_WORDS: usize = fact_index::BUCKETS + FACTS;

pub const WORDS: usize = INDEX_BASE + INDEX_WORDS;

// Words of a fact.
pub const FACT_WORDS: usize = state::FACT_WORDS;

// Places no constant.
fn clear(state: &mut [u64])
    requires { state_words ≤ length state.old }
    ensures { Unplaced state.old state.new facts_base }
{
    state[..FACTS_BASE].fill(0);
}

// Takes every row out of the index, whatever it is.
fn clear_heads(state: &mut [u64])
    requires { state_words ≤ length state.old }
    ensures { Unindexed state.old state.new }
{
    state[INDEX_BASE..INDEX_BASE + fact_index::BUCKETS].fill(0);
}

// A state before the first (objects n).
pub fn open(state: &mut [u64])
    requires { state_words ≤ length state.old }
    ensures { Emptied state.old state.new }
{
    clear(state);
    clear_heads(state);
}

// Takes the rows of the facts out of their index: only their buckets are written.
pub fn unindex(arities: &[u64], state: &mut [u64], rows: usize)
    requires state_words_in_bounds { state_words ≤ length state.old }
    requires rows_le_most_facts { rows ≤ most_facts }
    requires indexed { Indexed arities.now (part state.old facts_base (rows * fact_words)) (part state.old index_base index_words) rows }
    ensures { Unindexed state.old state.new }
{
    let end = FACTS_BASE + rows * FACT_WORDS;
    for i in 0..rows {
        let h = fact_index::row_bucket(arities, &state[FACTS_BASE..end], i);
        state[INDEX_BASE + h] = 0;
    }
}

// Enters the first rows of the facts in an index that has none.
pub fn index(arities: &[u64], state: &mut [u64], rows: usize)
    requires state_words_in_bounds { state_words ≤ length state.old }
    requires rows_le_most_facts { rows ≤ most_facts }
    requires clean { Clean (part state.old index_base index_words) }
    ensures { Rowed arities.now state.old rows state.new }
{
    let end = FACTS_BASE + rows * FACT_WORDS;
    for i in 0..rows {
        let h = fact_index::row_bucket(arities, &state[FACTS_BASE..end], i);
        state[INDEX_BASE + fact_index::BUCKETS + i] = state[INDEX_BASE + h];
        state[INDEX_BASE + h] = (i + 1) as u64;
    }
}

// Makes the index of a state in words whose index may be anything.
pub fn remake_index(arities: &[u64], state: &mut [u64], live: Live)
    requires { GoodLive state.old live }
    ensures { Remade arities.now state.old live state.new }
{
    clear_heads(state);
    if live.objects == 0 {
        return;
    }
    index(arities, state, live.facts);
}

// Takes the facts of a state out of their index, if it has any.
fn forget(arities: &[u64], state: &mut [u64], live: Live)
    requires good_live { GoodLive state.old live }
    requires fact_index { FactIndex arities.now state.old live }
    ensures { Unindexed state.old state.new }
{
    if live.objects == 0 {
        return;
    }
    unindex(arities, state, live.facts);
}

// (objects n)
pub fn objects(arities: &[u64], state: &mut [u64], live: Live, n: u64) -> Result<Live, Refusal>
    requires good_live { GoodLive state.old live }
    requires fact_index { FactIndex arities.now state.old live }
    ensures { Living arities.now (objects_line n) state.old result state.new }
{
    if n == 0 {
        return Err(Refusal::Range);
    }
    if n > OBJECTS {
        return Err(Refusal::Range);
    }
    forget(arities, state, live);
    clear(state);
    Ok(Live {
        objects: n,
        facts: 0,
        count: 0,
        total: 0,
    })
}

// (is c o)
pub fn place(
    table: &[u64],
    n: Counts,
    state: &mut [u64],
    live: Live,
    key: Key,
    o: u64,
) -> Result<Live, Refusal>
    requires good_names { GoodNames table.now n }
    requires good_live { GoodLive state.old live }
    ensures { Placing (is_line (names_of table.now n) (live_of state.old live) key o) state.old live result state.new }
{
    let c = names::find(table, names::CONSTANTS, n.constants, key);
    if c >= n.constants {
        return Err(Refusal::Name);
    }
    if state[PLACED + c] == 1 {
        return Err(Refusal::Name);
    }
    if o >= live.objects {
        return Err(Refusal::Range);
    }
    state[PLACED + c] = 1;
    state[c] = o;
    Ok(live)
}

// The objects of a (true p o ..): how many, and whether each is one of the state.
#[derive(Clone, Copy)]
pub struct Tuple {
    pub count: u64,
    pub within: bool,
}

// Whether row i of the facts is the row.
fn row_is(facts: &[u64], i: usize, row: &[u64]) -> bool
    requires fact_words_in_bounds { i * fact_words + fact_words ≤ length facts.now }
    requires row_len { length row.now ≡ fact_words }
    ensures { result ≡ row_is facts.now row.now i }
{
    facts[i * FACT_WORDS..(i + 1) * FACT_WORDS] == row[..]
}

// Whether the row, whose bucket is lent, is one of the facts: they are all in the index.
fn is_fact(facts: &[u64], index: &[u64], row: &[u64], bucket: usize) -> bool
    requires row_len { length row.now ≡ fact_words }
    requires findable { Findable facts.now index.now row.now bucket }
    ensures { result ≡ is_fact facts.now row.now }
{
    let mut at = index[bucket] as usize;
    while at != 0 {
        let i = at - 1;
        if row_is(facts, i, row) {
            return true;
        }
        at = index[fact_index::BUCKETS + i] as usize;
    }
    false
}

// Writes the row behind the others.
fn write_row(state: &mut [u64], facts: usize, row: &[u64])
    requires state_words_in_bounds { state_words ≤ length state.old }
    requires facts_lt_most_facts { facts < most_facts }
    requires row_len { length row.now ≡ fact_words }
    ensures { state.new ≡ paste state.old (facts_base + facts * fact_words) row.now fact_words }
{
    let base = FACTS_BASE + facts * FACT_WORDS;
    state[base..base + FACT_WORDS].copy_from_slice(row);
}

// Writes the row behind the others, and enters it in its bucket.
fn put(state: &mut [u64], live: Live, row: &[u64], bucket: usize)
    requires good_live { GoodLive state.old live }
    requires facts_lt_most_facts { live.facts < most_facts }
    requires row_len { length row.now ≡ fact_words }
    requires bucket_lt_buckets { bucket < buckets }
    ensures { PutIn state.old live row.now bucket state.new }
{
    write_row(state, live.facts, row);
    state[INDEX_BASE + fact_index::BUCKETS + live.facts] = state[INDEX_BASE + bucket];
    state[INDEX_BASE + bucket] = (live.facts + 1) as u64;
}

// Adds the row unless it is there; count and total begin again.
fn note(arities: &[u64], state: &mut [u64], live: Live, row: &[u64]) -> Result<Live, Refusal>
    requires good_live { GoodLive state.old live }
    requires fact_index { FactIndex arities.now state.old live }
    requires le_objects { 1 ≤ live.objects }
    requires row_len { length row.now ≡ fact_words }
    ensures { Living arities.now (fact_line (live_of state.old live) row.now) state.old result state.new }
{
    let end = FACTS_BASE + live.facts * FACT_WORDS;
    let bucket = fact_index::row_bucket(arities, row, 0);
    if is_fact(
        &state[FACTS_BASE..end],
        &state[INDEX_BASE..WORDS],
        row,
        bucket,
    ) {
        return Ok(Live {
            count: 0,
            total: 0,
            ..live
        });
    }
    if live.facts >= FACTS {
        return Err(Refusal::Space);
    }
    put(state, live, row, bucket);
    Ok(Live {
        facts: live.facts + 1,
        count: 0,
        total: 0,
        ..live
    })
}

// (true p o ..), where the row has the objects behind its first word.
pub fn tell(
    arities: &[u64],
    table: &[u64],
    n: Counts,
    state: &mut [u64],
    live: Live,
    key: Key,
    o: Tuple,
    row: &mut [u64],
) -> Result<Live, Refusal>
    requires good_vocabulary { GoodVocabulary table.now arities.now n }
    requires good_live { GoodLive state.old live }
    requires fact_index { FactIndex arities.now state.old live }
    requires le_objects { 1 ≤ live.objects }
    requires row_len { length row.old ≡ fact_words }
    ensures { Telling arities.now table.now n state.old live key o row.old result state.new }
{
    let i = names::find(table, names::DECLARED, n.predicates, key);
    if i >= n.predicates {
        return Err(Refusal::Name);
    }
    let p = i + 1;
    if o.count != arities[p] {
        return Err(Refusal::Arity);
    }
    if o.within {
        row[0] = p as u64;
        return note(arities, state, live, row);
    }
    Err(Refusal::Range)
}

// Keeps object v of a line, behind `count` others, in the row's place for it, if there is one.
fn keep(row: &mut [u64], count: u64, v: u64)
    requires { length row.old ≡ fact_words }
    ensures { row.new ≡ kept row.old count v }
{
    if count >= Label::PLACES {
        return;
    }
    row[1 + (count as usize)] = v;
}

// Whether all objects are below n, the next one too.
fn still(within: bool, v: u64, n: u64) -> bool
    ensures { result ≡ (within && ltb v n) }
{
    within && v < n
}

// One object more.
fn add(t: Tuple, v: u64, n: u64) -> Tuple
    requires { t.count ≤ most_bytes }
    ensures { result ≡ tuple_more t v n }
{
    Tuple {
        count: t.count + 1,
        within: still(t.within, v, n),
    }
}

// The numbers from the place `at` on, as objects of a state of n; those that have a place in a row are put there.
pub fn read_tuple(line: &[u8], at: usize, n: u64, row: &mut [u64]) -> Tuple
    requires at_in_bounds { at ≤ length line.now }
    requires line_len_bound { length line.now ≤ most_bytes }
    requires empty_row { EmptyRow row.old }
    ensures { TupleOf n (numbers_in (events_of (drop at line.now))) result row.new }
{
    let mut t = Tuple {
        count: 0,
        within: true,
    };
    let mut place = at;
    while place < line.len() {
        let next = events::next_event(line, place);
        let event = next.event;
        if events::is_end(event) {
            return t;
        }
        let v = events::number_in(event);
        keep(row, t.count, v);
        t = add(t, v, n);
        place = next.place;
    }
    t
}
