// How many states of n objects have which value (document 02, L11).
#![tactic(auto)]

ghost use Rattle.std.specs.Prelude.{◌≡◌, true, [], ◌∷◌, ◌++◌, ◌+◌, ◌*◌, ◌^◌, ◌<◌, ◌≤◌, length, take, drop};
ghost use Rattle.std.proofs.Math.Seq.{paste};
ghost use Rattle.state.specs.Lent.{fact_words, is_state};
ghost use Rattle.spread.specs.Ground.{ground, rows_of, ground_facts, ground_count};
ghost use Rattle.spread.specs.Spread.{spread};
ghost use Rattle.fact_index.specs.Inner.{Clean};
ghost use Rattle.valuing.specs.Walks.{bound_answer, climbed};
ghost use Rattle.count_states.specs.Counted.{Countable, Counts};
ghost use Rattle.count_states.specs.Facts.{Power, digits, first_facts, Declared, Fillable, Writable, Follow, picked, Choosing, Chosen};
ghost use Rattle.count_states.specs.Table.{line_words, put_entry, is_there, Enterable, Seeks, Shifted, Entered};
ghost use Rattle.count_states.specs.States.{Valuing, Choices, rows_spread, Spreading};

use refusal::Refusal;
use state::FACT_WORDS;

// Words of a line in the table: a value, and how many states have it.
const LINE_WORDS: usize = 2;
// Words of a table of lines.
pub const TABLE_WORDS: usize = diagram::ROWS * LINE_WORDS;
// Ground facts at most.
const GROUND: usize = 16;

// n to the power k.
fn power(n: u64, k: u64) -> u64
    requires { Power n k }
    ensures { result ≡ n ^ k }
{
    let mut p = 1;
    for i in 0..k {
        p = p * n;
    }
    p
}

// How many ground facts there are.
fn ground_count(arities: &[u64], predicates: usize, n: u64) -> u64
    requires { Declared arities.now predicates n }
    ensures { result ≡ ground_count arities.now predicates n }
{
    let mut g = 0;
    for p in 0..predicates {
        g = g + power(n, arities[p + 1]);
    }
    g
}

// Writes the digits of t behind the row's first word, the highest first.
fn fill_places(row: &mut [u64], n: u64, k: usize, t: u64)
    requires { Fillable row.old n k }
    ensures { row.new ≡ take 1 row.old ++ digits n k t ++ drop (1 + k) row.old }
{
    let mut rest = t;
    for j in (0..k).rev() {
        row[j + 1] = rest % n;
        rest = rest / n;
    }
}

// Copies a row.
fn copy_row(from: &[u64], i: usize, to: &mut [u64], at: usize)
    requires fact_words_in_bounds { i + fact_words ≤ length from.now }
    requires fact_words_in_bounds_2 { at + fact_words ≤ length to.old }
    ensures { to.new ≡ paste to.old at (drop i from.now) fact_words }
{
    to[at..at + FACT_WORDS].copy_from_slice(&from[i..i + FACT_WORDS]);
}

// Writes row `at`: the fact of p, which has k places, with the number t.
fn write_fact(rows: &mut [u64], at: usize, p: u64, n: u64, k: usize, t: u64)
    requires { Writable rows.old at n k 1 }
    ensures { Follow rows.old at (ground p (digits n k t) ∷ []) 1 rows.new }
{
    let mut row = [0u64; FACT_WORDS];
    row[0] = p;
    fill_places(&mut row, n, k, t);
    copy_row(&row, 0, rows, at * FACT_WORDS);
}

// Writes the first m facts of p from row `at` on.
fn write_facts(rows: &mut [u64], at: usize, p: u64, n: u64, k: usize, m: usize)
    requires { Writable rows.old at n k m }
    ensures { Follow rows.old at (first_facts n p k m) m rows.new }
{
    for t in 0..m {
        write_fact(rows, at + t, p, n, k, t as u64);
    }
}

// Writes the rows of all ground facts.
fn write_ground(arities: &[u64], predicates: usize, n: u64, rows: &mut [u64])
    requires declared { Declared arities.now predicates n }
    requires fact_words_in_bounds { ground_count arities.now predicates n * fact_words ≤ length rows.old }
    ensures { take (ground_count arities.now predicates n * fact_words) rows.new ≡ rows_of (ground_facts arities.now predicates n) }
{
    let mut at = 0;
    for p in 0..predicates {
        let k = arities[p + 1];
        let m = power(n, k) as usize;
        write_facts(rows, at, (p + 1) as u64, n, k as usize, m);
        at = at + m;
    }
}

// Writes the rows of choice c, and says how many words they have.
fn choose(rows: &[u64], g: usize, c: u64, facts: &mut [u64]) -> usize
    requires { Choosing rows.now facts.old g }
    ensures { Chosen rows.now g c result facts.new }
{
    let mut m = 0;
    let mut rest = c;
    for i in 0..g {
        if rest % 2 == 1 {
            copy_row(rows, i * FACT_WORDS, facts, m);
            m = m + FACT_WORDS;
        }
        rest = rest / 2;
    }
    m
}

// Writes entry i.
fn put_entry(table: &mut [u64], i: usize, value: u64, states: u64)
    requires { i * line_words + line_words ≤ length table.old }
    ensures { table.new ≡ put_entry table.old i value states }
{
    table[i * LINE_WORDS] = value;
    table[i * LINE_WORDS + 1] = states;
}

// The first place at which a value is not below v.
fn seek(table: &[u64], count: usize, v: u64) -> usize
    requires { Enterable table.now count }
    ensures { Seeks table.now count v result }
{
    let mut low = 0;
    let mut high = count;
    while low < high {
        let mid = low + (high - low) / 2;
        if table[mid * LINE_WORDS] < v {
            low = mid + 1;
        } else {
            high = mid;
        }
    }
    low
}

// Moves the entries from `at` on one place up.
fn shift_up(table: &mut [u64], at: usize, count: usize)
    requires at_le_count { at ≤ count }
    requires line_words_in_bounds { count * line_words + line_words ≤ length table.old }
    ensures { Shifted table.old at count table.new }
{
    for i in (at..count).rev() {
        let value = table[i * LINE_WORDS];
        let states = table[i * LINE_WORDS + 1];
        put_entry(table, i + 1, value, states);
    }
}

// Whether entry `at` is there and has the value v.
fn is_there(table: &[u64], count: usize, at: usize, v: u64) -> bool
    requires { count * line_words ≤ length table.now }
    ensures { result ≡ is_there table.now count at v }
{
    at < count && table[at * LINE_WORDS] == v
}

// Counts one more state of value v, and says how many entries there are then.
fn enter(table: &mut [u64], count: usize, v: u64) -> usize
    requires { Enterable table.old count }
    ensures { Entered table.old count v result table.new }
{
    let at = seek(table, count, v);
    if is_there(table, count, at, v) {
        let states = table[at * LINE_WORDS + 1];
        put_entry(table, at, v, states + 1);
        return count;
    }
    shift_up(table, at, count);
    put_entry(table, at, v, 1);
    count + 1
}

// One more than the value in the state of the facts; 15 where no way of working may be taken. The index is clean before and after.
fn value_facts(
    arities: &[u64],
    words: &[u64],
    high: &[u64],
    few: bool,
    plain: bool,
    n: u64,
    constants: &[u64],
    facts: &[u64],
    index: &mut [u64],
) -> Result<u64, Refusal>
    requires valuing { Valuing arities.now words.now high.now few plain n }
    requires facts_value { is_state arities.now n constants.now facts.now ≡ true }
    requires clean { Clean index.old }
    ensures value { result ≡ climbed 0 (bound_answer arities.now words.now n constants.now facts.now []) }
    ensures clean_2 { Clean index.new }
{
    fact_index::index_facts(arities, facts, index);
    let r = valuing::climb(
        arities,
        words,
        high,
        n,
        constants,
        facts,
        index,
        &constants[..0],
        few,
        plain,
        0,
    );
    fact_index::clear_index(arities, facts, index);
    r
}

// The same in the state of choice c of g ground facts, whose rows are given.
fn value_choice(
    arities: &[u64],
    words: &[u64],
    high: &[u64],
    few: bool,
    plain: bool,
    n: u64,
    constants: &[u64],
    rows: &[u64],
    g: usize,
    c: u64,
    facts: &mut [u64],
    index: &mut [u64],
) -> Result<u64, Refusal>
    requires valuing { Valuing arities.now words.now high.now few plain n }
    requires choices { Choices arities.now n constants.now rows.now g facts.old }
    requires clean { Clean index.old }
    ensures value { result ≡ climbed 0 (bound_answer arities.now words.now n constants.now (picked rows.now g c) []) }
    ensures clean_2 { Clean index.new }
{
    let m = choose(rows, g, c, facts);
    value_facts(
        arities,
        words,
        high,
        few,
        plain,
        n,
        constants,
        &facts[..m],
        index,
    )
}

// Enters the value of each choice.
fn count_choices(
    arities: &[u64],
    words: &[u64],
    high: &[u64],
    few: bool,
    plain: bool,
    n: u64,
    constants: &[u64],
    rows: &[u64],
    g: usize,
    facts: &mut [u64],
    index: &mut [u64],
    table: &mut [u64],
) -> Result<usize, Refusal>
    requires valuing { Valuing arities.now words.now high.now few plain n }
    requires choices { Choices arities.now n constants.now rows.now g facts.old }
    requires clean { Clean index.old }
    requires spreading { Spreading arities.now words.now n constants.now rows.now g table.old }
    ensures { Counts (rows_spread arities.now words.now n constants.now rows.now g) result table.new }
{
    let states = power(2, g as u64);
    let mut count = 0;
    for c in 0..states {
        let v = value_choice(
            arities, words, high, few, plain, n, constants, rows, g, c, facts, index,
        )?;
        count = enter(table, count, v - 1);
    }
    Ok(count)
}

// How many states of n objects have which value of the listing: a line for each value that occurs, lowest first, in the table.
pub fn count(
    arities: &[u64],
    predicates: usize,
    n: u64,
    constants: &[u64],
    words: &[u64],
    table: &mut [u64],
) -> Result<usize, Refusal>
    requires { Countable arities.now predicates n constants.now words.now table.old }
    ensures { Counts (spread arities.now predicates n constants.now words.now) result table.new }
{
    let g = ground_count(arities, predicates, n) as usize;
    if g > GROUND {
        return Err(Refusal::Ground);
    }
    let mut rows = [0u64; GROUND * FACT_WORDS];
    write_ground(arities, predicates, n, &mut rows);
    let mut high = [0u64; diagram::ROWS];
    valuing::tops(words, &mut high);
    let few = valuing::is_few(arities, words, n);
    let plain = valuing::is_plain(arities, words);
    let mut facts = [0u64; GROUND * FACT_WORDS];
    let mut index = [0u64; fact_index::BUCKETS + GROUND];
    count_choices(
        arities, words, &high, few, plain, n, constants, &rows, g, &mut facts, &mut index, table,
    )
}
