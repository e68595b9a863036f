// Variable elimination over lent words: a table for each row of a listing, as numbers in one array.
#![tactic(auto)]

ghost use Rattle.std.specs.Prelude.{◌≡◌, ◌+◌, ◌*◌, ◌^◌, ◌<◌, ◌≤◌, min, length};
ghost use Rattle.label.specs.Limits.{first_minimum};
ghost use Rattle.label.specs.Labels.{predicate_of};
ghost use Rattle.diagram.specs.Words.{row_count};
ghost use Rattle.state.specs.Lent.{fact_words, says_fact, said_by};
ghost use Rattle.elimination.specs.Elimination.{most_entries, label_variables};
ghost use Rattle.eliminate.specs.Masks.{names_of, env_of, place_of, decoded};
ghost use Rattle.eliminate.specs.Above.{Above, Handing};
ghost use Rattle.eliminate.specs.Rows.{Ready, Branching, Branched, Working, RowWorked, Finished};
ghost use Rattle.eliminate.specs.Counts.{Shrinks, Shrunk, Rowing, Rowed};
ghost use Rattle.eliminate.specs.Stores.{Filled};
ghost use Rattle.eliminate.specs.Calls.{Decodable, Placeable, Asked, objects_of, tells, One, Labelled, Countable, Counted, entry_in, look_in, Entering, Looking, Best, Filling};

use label::{Label, Term};
use state::FACT_WORDS;

// Entries of all tables of one evaluation at most.
pub const ENTRIES: u64 = 8192;

// Gives the variables of the set the objects of the choice with the place c.
fn decode(env: &mut [u64], n: u64, set: u64, c: u64)
    requires { Decodable env.old n }
    ensures { env.new ≡ decoded n (names_of set) c env.old }
{
    let mut rest = set;
    let mut code = c;
    for v in Term::FIRST_VARIABLE as usize..Term::FIRST_MINIMUM as usize {
        if rest == 0 {
            return;
        }
        if rest % 2 == 1 {
            env[v] = code % n;
            code = code / n;
        }
        rest = rest / 2;
    }
}

// The place of the choice that the variables of the set have.
fn place(env: &[u64], n: u64, set: u64) -> usize
    requires { Placeable env.now n set }
    ensures { result ≡ place_of n (names_of set) (env_of env.now) }
{
    let mut rest = set;
    let mut weight = 1;
    let mut at = 0;
    for v in Term::FIRST_VARIABLE as usize..Term::FIRST_MINIMUM as usize {
        if rest == 0 {
            return at as usize;
        }
        if rest % 2 == 1 {
            at = at + weight * env[v];
            weight = weight * n;
        }
        rest = rest / 2;
    }
    at as usize
}

// Whether row i of the facts says what the label says of the objects in env.
fn says(arities: &[u64], facts: &[u64], env: &[u64], l: u64, i: usize) -> bool
    requires asked { Asked arities.now env.now l }
    requires fact_words_in_bounds { i * fact_words + fact_words ≤ length facts.now }
    ensures { result ≡ says_fact arities.now facts.now (predicate_of l) (objects_of arities.now env.now l) i }
{
    let label = Label { packed: l };
    let p = label.predicate();
    if facts[i * FACT_WORDS] != p {
        return false;
    }
    let arity = arities[p as usize];
    for k in 0..arity {
        let t = label.place(k) as usize;
        if facts[i * FACT_WORDS + 1 + (k as usize)] != env[t] {
            return false;
        }
    }
    true
}

// Whether some row of the facts says it.
fn said(arities: &[u64], facts: &[u64], env: &[u64], l: u64) -> bool
    requires { Asked arities.now env.now l }
    ensures { result ≡ said_by arities.now facts.now (predicate_of l) (objects_of arities.now env.now l) }
{
    let rows = facts.len() / FACT_WORDS;
    for i in 0..rows {
        if says(arities, facts, env, l, i) {
            return true;
        }
    }
    false
}

// Whether the label holds of the objects in env.
fn truth(arities: &[u64], facts: &[u64], env: &[u64], l: u64) -> bool
    requires { Asked arities.now env.now l }
    ensures { result ≡ tells arities.now facts.now env.now l }
{
    let label = Label { packed: l };
    if label.predicate() == Label::EQUALITY {
        let t = label.place(0) as usize;
        let u = label.place(1) as usize;
        return env[t] == env[u];
    }
    said(arities, facts, env, l)
}

// The set of the term t, empty if it is no variable.
fn one(t: u64) -> u64
    requires { t < first_minimum }
    ensures { One t result }
{
    if t < Term::FIRST_VARIABLE {
        return 0;
    }
    1 << (t - Term::FIRST_VARIABLE)
}

// The set of the label's variables.
fn variables(arities: &[u64], l: u64) -> u64
    requires { Labelled arities.now l }
    ensures { names_of result ≡ label_variables arities.now l }
{
    let label = Label { packed: l };
    let arity = arities[label.predicate() as usize];
    let mut set = 0;
    for k in 0..arity {
        set = set | one(label.place(k));
    }
    set
}

// How many choices there are for the variables of the set, or one more than the limit.
fn size(n: u64, set: u64) -> u64
    requires { 0 < n }
    ensures { result ≡ min (n ^ length (names_of set)) (most_entries + 1) }
{
    let mut rest = set;
    let mut size = 1;
    for v in Term::FIRST_VARIABLE..Term::FIRST_MINIMUM {
        if rest == 0 {
            return size;
        }
        if rest % 2 == 1 {
            if n > ENTRIES {
                return ENTRIES + 1;
            }
            size = size * n;
            if size > ENTRIES {
                return ENTRIES + 1;
            }
        }
        rest = rest / 2;
    }
    size
}

// For how many of the m choices for the variables of the set the label holds.
fn cases(arities: &[u64], facts: &[u64], env: &mut [u64], n: u64, l: u64, set: u64, m: u64) -> u64
    requires countable { Countable arities.now env.old n l }
    requires m_le_most_entries { m ≤ most_entries }
    ensures { Counted arities.now facts.now env.old n l set m result env.new }
{
    let mut count = 0;
    for c in 0..m {
        decode(env, n, set, c);
        count += u64::from(truth(arities, facts, env, l));
    }
    count
}

// The entry of row i's table for the objects in env. A row's head is its table's names as a set, and where its entries begin.
fn entry(heads: &[u64], space: &[u64], env: &[u64], n: u64, i: usize) -> u64
    requires { Entering heads.now space.now env.now n i }
    ensures { result ≡ entry_in heads.now space.now env.now n i }
{
    let set = heads[i * 2];
    let start = heads[i * 2 + 1] as usize;
    space[start + place(env, n, set)]
}

// What the union of a row's two joins has for the objects in env: the entry of the child that the label leads to.
fn look(
    arities: &[u64],
    facts: &[u64],
    heads: &[u64],
    space: &[u64],
    env: &[u64],
    n: u64,
    l: u64,
    high: usize,
    low: usize,
) -> u64
    requires { Looking arities.now heads.now space.now env.now n l high low }
    ensures { result ≡ look_in arities.now facts.now heads.now space.now n l high low env.now }
{
    if truth(arities, facts, env, l) {
        return entry(heads, space, env, n, high);
    }
    entry(heads, space, env, n, low)
}

// The highest entry of the union over the m choices for the variables of the set.
fn best(
    arities: &[u64],
    facts: &[u64],
    heads: &[u64],
    space: &[u64],
    env: &mut [u64],
    n: u64,
    l: u64,
    high: usize,
    low: usize,
    set: u64,
    m: u64,
) -> u64
    requires { Looking arities.now heads.now space.now env.old n l high low }
    ensures { Best arities.now facts.now heads.now space.now n l high low set m env.old result env.new }
{
    let mut best = 0;
    for c in 0..m {
        decode(env, n, set, c);
        best = best.max(look(arities, facts, heads, space, env, n, l, high, low));
    }
    best
}

// Writes the table of a row: for each of the choices for the kept variables the highest entry of the union over the m choices for the others.
fn fill(
    arities: &[u64],
    facts: &[u64],
    heads: &[u64],
    space: &mut [u64],
    env: &mut [u64],
    n: u64,
    l: u64,
    high: usize,
    low: usize,
    kept: u64,
    start: usize,
    count: usize,
    drops: u64,
    m: u64,
)
    requires { Filling arities.now heads.now space.old env.old n l high low kept start count drops m }
    ensures { Filled arities.now facts.now heads.now space.old env.old n l high low kept start drops space.new env.new }
{
    for e in 0..count {
        decode(env, n, kept, e as u64);
        let b = best(arities, facts, heads, space, env, n, l, high, low, drops, m);
        space[start + e] = b;
    }
}

// Hands on to the children of row i what it tests and what is tested above it, after all rows behind it.
fn hand_on(arities: &[u64], words: &[u64], above: &mut [u64], i: usize)
    requires { Handing arities.now words.now above.old i }
    ensures { Above arities.now words.now above.new i }
{
    let l = words[i * 3];
    if l == Label::LEAF {
        return;
    }
    let high = words[i * 3 + 1] as usize;
    let low = words[i * 3 + 2] as usize;
    let set = above[i] | variables(arities, l);
    above[high] = above[high] | set;
    above[low] = above[low] | set;
}

// For each row the set of the variables that rows leading to it test; the words are 0 before.
pub fn find_above(arities: &[u64], words: &[u64], above: &mut [u64])
    requires { Above arities.now words.now above.old (row_count words.now) }
    ensures { Above arities.now words.now above.new 0 }
{
    for i in (0..words.len() / 3).rev() {
        hand_on(arities, words, above, i);
    }
}

// The entries of the aggregations that divide `whole` entries by n for each variable of the set.
fn shrink(n: u64, whole: u64, set: u64) -> u64
    requires { Shrinks n whole }
    ensures { Shrunk n whole set result }
{
    let mut rest = set;
    let mut size = whole;
    let mut sum = 0;
    for v in Term::FIRST_VARIABLE..Term::FIRST_MINIMUM {
        if rest == 0 {
            return sum;
        }
        if rest % 2 == 1 {
            size = size / n;
            sum += size;
        }
        rest = rest / 2;
    }
    sum
}

// The entries that a branch row counts: its two joins, its union and its aggregations; more than the limit if the union has more.
// Its label's variables, its children's names and what it aggregates are sets.
fn row_entries(
    arities: &[u64],
    facts: &[u64],
    env: &mut [u64],
    n: u64,
    l: u64,
    own: u64,
    high: u64,
    low: u64,
    drops: u64,
) -> u64
    requires { Rowing arities.now env.old n l own high low drops }
    ensures { Rowed arities.now facts.now env.old n l own high low drops result env.new }
{
    let whole = size(n, own | high | low);
    if whole > ENTRIES {
        return whole;
    }
    let choices = size(n, own);
    let count = cases(arities, facts, env, n, l, own, choices);
    let yes = count * size(n, high ^ (high & own));
    let no = (choices - count) * size(n, low ^ (low & own));
    yes + no + whole + shrink(n, whole, drops)
}

// Works out the branch row i: its table stands from `next` on, unless its entries and the `used` ones pass the limit. Answers its table's names, how
// many entries it has, and the entries that the row counts.
fn branch_table(
    arities: &[u64],
    facts: &[u64],
    words: &[u64],
    above: &[u64],
    heads: &[u64],
    space: &mut [u64],
    env: &mut [u64],
    n: u64,
    i: usize,
    next: usize,
    used: u64,
) -> Option<(u64, u64, u64)>
    requires { Branching arities.now words.now above.now heads.now space.old env.old n i next used }
    ensures { Branched arities.now facts.now words.now above.now heads.now space.old env.old n i next used result space.new env.new }
{
    let l = words[i * 3];
    let high = words[i * 3 + 1] as usize;
    let low = words[i * 3 + 2] as usize;
    let own = variables(arities, l);
    let all = own | heads[high * 2] | heads[low * 2];
    let kept = all & above[i];
    let drops = all ^ kept;
    let e = row_entries(
        arities,
        facts,
        env,
        n,
        l,
        own,
        heads[high * 2],
        heads[low * 2],
        drops,
    );
    if e > ENTRIES - used {
        return None;
    }
    let count = size(n, kept);
    fill(
        arities,
        facts,
        heads,
        space,
        env,
        n,
        l,
        high,
        low,
        kept,
        next,
        count as usize,
        drops,
        size(n, drops),
    );
    Some((kept, count, e))
}

// Works out row i. Answers where the next table begins and the entries that are counted, or None where these are too many.
fn work_row(
    arities: &[u64],
    facts: &[u64],
    words: &[u64],
    above: &[u64],
    heads: &mut [u64],
    space: &mut [u64],
    env: &mut [u64],
    n: u64,
    i: usize,
    next: usize,
    used: u64,
) -> Option<(usize, u64)>
    requires { Working arities.now words.now above.now heads.old space.old env.old n i next used }
    ensures { RowWorked arities.now facts.now words.now above.now heads.old space.old env.old n i used result heads.new space.new env.new }
{
    if words[i * 3] == Label::LEAF {
        if used == ENTRIES {
            return None;
        }
        space[next] = words[i * 3 + 1];
        heads[i * 2] = 0;
        heads[i * 2 + 1] = next as u64;
        return Some((next + 1, used + 1));
    }
    let (kept, count, e) = branch_table(
        arities, facts, words, above, heads, space, env, n, i, next, used,
    )?;
    heads[i * 2] = kept;
    heads[i * 2 + 1] = next as u64;
    Some((next + count as usize, used + e))
}

// Works out all rows, in listing order.
pub fn work(
    arities: &[u64],
    facts: &[u64],
    words: &[u64],
    above: &[u64],
    heads: &mut [u64],
    space: &mut [u64],
    env: &mut [u64],
    n: u64,
) -> Option<(usize, u64)>
    requires { Ready arities.now words.now above.now heads.old space.old env.old n 0 0 0 }
    ensures { Finished arities.now facts.now words.now above.now heads.old space.old env.old n result heads.new space.new env.new }
{
    let rows = words.len() / 3;
    let mut next = 0;
    let mut used = 0;
    for i in 0..rows {
        let (a, b) = work_row(
            arities, facts, words, above, heads, space, env, n, i, next, used,
        )?;
        next = a;
        used = b;
    }
    Some((next, used))
}
