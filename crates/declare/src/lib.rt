// Declarations: the tables that hold a session's names, and the lines that add to them.
#![tactic(auto)]

ghost use Rattle.std.specs.Prelude.{◌≡◌, ◌+◌, ◌*◌, ◌<◌, ◌≤◌, length, drop};
ghost use Rattle.label.specs.Limits.{parameter_count};
ghost use Rattle.names.specs.Layout.{name_words};
ghost use Rattle.events.specs.Front.{events_of};
ghost use Rattle.events.specs.Contents.{keys_in};
ghost use Rattle.session.specs.Declaring.{is_declared, constant_line, predicate_line, is_total, is_discount, action_line};
ghost use Rattle.declare.specs.Inner.{Naming, vocabulary_of, Wording, ParametersOf, Copied};
ghost use Rattle.declare.specs.Tables.{names_of, GoodNames, GoodVocabulary};

use label::{Label, Term};
use refusal::Refusal;
use words::Key;

// How many names there are of each sort; parameters and variants are those of the last action, `earlier` the variants of those before it.
#[derive(Clone, Copy)]
pub struct Counts {
    pub constants: usize,
    pub predicates: usize,
    pub actions: usize,
    pub parameters: usize,
    pub variants: usize,
    pub earlier: usize,
}

// Whether a constant or a predicate has the name.
pub fn is_declared(table: &[u64], n: Counts, key: Key) -> bool
    requires { GoodNames table.now n }
    ensures { result ≡ is_declared (names_of table.now n) key }
{
    names::find(table, names::CONSTANTS, n.constants, key) < n.constants
        || names::find(table, names::DECLARED, n.predicates, key) < n.predicates
}

// (constant n)
pub fn constant(table: &mut [u64], n: Counts, key: Key) -> Result<Counts, Refusal>
    requires { GoodNames table.old n }
    ensures { Naming (constant_line (names_of table.old n) key) table.old result table.new }
{
    if is_declared(table, n, key) {
        return Err(Refusal::Name);
    }
    if n.constants >= (Term::CONSTANTS as usize) {
        return Err(Refusal::Space);
    }
    names::put(table, names::CONSTANTS + n.constants * 2, key);
    Ok(Counts {
        constants: n.constants + 1,
        ..n
    })
}

// (predicate n arity)
pub fn predicate(
    table: &mut [u64],
    arities: &mut [u64],
    n: Counts,
    key: Key,
    arity: u64,
) -> Result<Counts, Refusal>
    requires { GoodVocabulary table.old arities.old n }
    ensures { Wording (predicate_line (vocabulary_of table.old arities.old n) key arity) table.old arities.old result table.new arities.new }
{
    if is_declared(table, n, key) {
        return Err(Refusal::Name);
    }
    if arity > Label::PLACES {
        return Err(Refusal::Range);
    }
    if n.predicates + 1 >= Label::PREDICATES {
        return Err(Refusal::Space);
    }
    names::put(table, names::DECLARED + n.predicates * 2, key);
    arities[n.predicates + 1] = arity;
    Ok(Counts {
        predicates: n.predicates + 1,
        ..n
    })
}

// The names from the place `at` on, as keys: how many, all different; None where one is given twice.
fn read_parameters(line: &[u8], at: usize, keys: &mut [u64]) -> Option<usize>
    requires at_in_bounds { at ≤ length line.now }
    requires line_in_bounds { length (events_of (drop at line.now)) * 2 ≤ length keys.old }
    ensures { ParametersOf (keys_in (events_of (drop at line.now))) result keys.new }
{
    let mut place = at;
    let mut n = 0;
    while place < line.len() {
        let next = events::next_event(line, place);
        let event = next.event;
        if events::is_end(event) {
            return Some(n);
        }
        let key = events::key_in(event);
        if names::find(keys, 0, n, key) < n {
            return None;
        }
        names::put(keys, n * 2, key);
        n += 1;
        place = next.place;
    }
    Some(n)
}

// Writes the first n keys as the last action's parameters.
fn copy_parameters(keys: &[u64], n: usize, table: &mut [u64])
    requires n_le_parameter_count { n ≤ parameter_count }
    requires n_in_bounds { n * 2 ≤ length keys.now }
    requires name_words_in_bounds { name_words ≤ length table.old }
    ensures { Copied keys.now table.old table.new n }
{
    for i in 0..n {
        let key = names::key_at(keys, 0, i);
        names::put(table, names::PARAMETERS + i * 2, key);
    }
}

// (action n !p ..): the key of its name, and the place of its parameters. The keys are working space.
pub fn action(
    table: &mut [u64],
    n: Counts,
    key: Key,
    line: &[u8],
    at: usize,
    keys: &mut [u64],
) -> Result<Counts, Refusal>
    requires good_names { GoodNames table.old n }
    requires at_in_bounds { at ≤ length line.now }
    requires line_in_bounds { length (events_of (drop at line.now)) * 2 ≤ length keys.old }
    ensures { Naming (action_line (names_of table.old n) key (keys_in (events_of (drop at line.now)))) table.old result table.new }
{
    if names::find(table, names::ACTIONS, n.actions, key) < n.actions {
        return Err(Refusal::Name);
    }
    let count = read_parameters(line, at, keys).ok_or(Refusal::Name)?;
    if count > (Term::PARAMETERS as usize) {
        return Err(Refusal::Space);
    }
    if n.actions >= model::ACTIONS {
        return Err(Refusal::Space);
    }
    names::put(table, names::ACTIONS + n.actions * 2, key);
    copy_parameters(keys, count, table);
    Ok(Counts {
        actions: n.actions + 1,
        parameters: count,
        variants: 0,
        earlier: n.earlier + n.variants,
        ..n
    })
}

// Whether w may be the total of an action's weights.
pub fn is_total(w: u64) -> bool
    ensures { result ≡ is_total w }
{
    w != 0 && w <= model::TOTAL
}

// Whether g / d may be the discount.
pub fn is_discount(g: u64, d: u64) -> bool
    ensures { result ≡ is_discount g d }
{
    d != 0 && d <= model::DENOMINATOR && g <= d
}
