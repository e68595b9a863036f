// The words of a line with a diagram: names resolved, faults found word by word, and the operations that the diagram is built by.
// Reading answers how many operations and how many variables a line's words come to, or the refusal.
#![tactic(auto)]

ghost use Rattle.std.specs.Prelude.{◌≡◌, [], ◌∷◌, ◌+◌, ◌*◌, ◌≤◌, ◌<◌, min, length, drop};
ghost use Rattle.refusal.specs.Outcome.{ok};
ghost use Rattle.label.specs.Limits.{constant_count, parameter_count, predicate_count, term_end, most_places};
ghost use Rattle.label.specs.Labels.{unpacked};
ghost use Rattle.label.specs.Terms.{variable_term, minimum_term};
ghost use Rattle.events.specs.Front.{events_of};
ghost use Rattle.names.specs.Keys.{keys_at};
ghost use Rattle.names.specs.Layout.{constants_at, declared_at, parameters_at};
ghost use Rattle.reading.specs.Head.{opening_of, argument_of, head_number, arguments_from, head_arguments};
ghost use Rattle.reading.specs.Reading.{asked, begun, term_word, number_word, atom_word, more, constant_number, parameter_number, last_variable};
ghost use Rattle.reading.specs.Reading.{variable_number, minimum_number, met, arguments, variable_met, minimum_met, met_at, word, reading};
ghost use Rattle.reading.specs.declared.Binding.TheVariants.{Any, Only};
ghost use Rattle.reader.specs.OperationWords.{op_of};
ghost use Rattle.words.specs.Keys.{bytes_within, name_of};
ghost use Rattle.reading.specs.Occurrences.{minimum_of, variable_of, word_keys, keys_of};
ghost use Rattle.reading.specs.Numbering.{number_of, reward_reading};
ghost use Rattle.reader.specs.Gathering.{whole_number, numbered_as, paired, moved, kept_first, kept_met, Spelt, Insertable, Gathers};
ghost use Rattle.reader.specs.Callers.{part_words, met_in, argument_count, names_of, placed, pass_of, judged_number, read_answer, Reads, Opens};
ghost use Rattle.reader.specs.Callers.{Heads, Tables, Part, Variables, Readable, Room, Fillable, TermBelow, Resolves, Meets, MeetsWord, Goes, Steps};

use events::Event;
use label::{Label, Term, Test};
use reading::{Binding, Kind};
use refusal::Refusal;
use words::Key;

// The first words of operations: a leaf, a label to ask, t = t to ask, a row step.
pub const LEAF: u64 = 0;

pub const ASK: u64 = 1;

pub const TRUTH: u64 = 2;

pub const STEP: u64 = 3;

// So many variables of a kind have numbers, the last of them at this place.
const VARIABLES: usize = Term::VARIABLES as usize;

const LAST_VARIABLE: usize = VARIABLES - 1;

// A table of variables has a part for each kind, which keeps one more than the limit: the maximum variables first.
const PART_WORDS: usize = (VARIABLES + 1) * 2;

pub const VARIABLE_WORDS: usize = PART_WORDS * 2;

// The letter of a variable that is written with its number.
const LETTER_V: u8 = 118;

// How many variables of each kind are in the table.
#[derive(Clone, Copy)]
pub struct Known {
    pub variables: usize,
    pub minimums: usize,
}

// How many names of each table count, and which variables may be named.
#[derive(Clone, Copy)]
pub struct Scope {
    pub constants: usize,
    pub predicates: usize,
    pub parameters: usize,
    pub binding: Binding,
}

// The atom under way as a label, its unfilled places 0, how many of them are filled, how many terms are due; how many operations are
// written.
#[derive(Clone, Copy)]
struct Progress {
    label: Label,
    filled: usize,
    due: usize,
    operations: usize,
}

// Two variables by ascending N, and the greater N.
#[derive(Clone, Copy)]
struct Pair {
    low: Key,
    high: Key,
    order: u64,
}

// One operation more.
fn add(operations: &mut [u64], pass: Progress, kind: u64, value: u64) -> Progress
    requires { Room operations.old pass }
    ensures { Goes pass (more (pass_of operations.old pass) (op_of kind value)) result operations.new }
{
    let n = pass.operations;
    operations[n * 2] = kind;
    operations[n * 2 + 1] = value;
    Progress {
        operations: n + 1,
        ..pass
    }
}

// Asks the atom once none of its terms is due.
fn ask(operations: &mut [u64], pass: Progress) -> Progress
    requires { Room operations.old pass }
    ensures { Goes pass (asked (pass_of operations.old pass)) result operations.new }
{
    if pass.due != 0 {
        return pass;
    }
    match pass.label.unpack().test() {
        Test::Always => add(operations, pass, TRUTH, 0),
        Test::Is(label) => add(operations, pass, ASK, label.packed),
    }
}

// An atom of the predicate begins.
fn begin(operations: &mut [u64], pass: Progress, predicate: u64, due: usize) -> Progress
    requires room { Room operations.old pass }
    requires predicate_lt_predicate_count { predicate < predicate_count }
    requires due_le_most_places { due ≤ most_places }
    ensures { Goes pass (begun (pass_of operations.old pass) predicate due) result operations.new }
{
    let next = Progress {
        label: Label {
            packed: predicate * Label::PREDICATE_WEIGHT,
        },
        filled: 0,
        due,
        ..pass
    };
    ask(operations, next)
}

// The label with the term t in its place k, which is 0.
fn fill(l: Label, k: u64, t: u64) -> Label
    requires { Fillable l.packed k t }
    ensures { unpacked result.packed ≡ placed (unpacked l.packed) k t }
{
    let packed = l.packed + (t << (Label::PLACES - 1 - k) * Term::BITS);
    Label { packed: packed }
}

// The term t fills the next place of the atom.
fn give(operations: &mut [u64], pass: Progress, t: u64) -> Result<Progress, Refusal>
    requires room { Room operations.old pass }
    requires t_lt_term_end { t < term_end }
    ensures { Steps pass (term_word (pass_of operations.old pass) (ok t)) result operations.new }
{
    if pass.due == 0 {
        return Err(Refusal::Form);
    }
    let k = pass.filled;
    let next = Progress {
        label: fill(pass.label, k as u64, t),
        filled: k + 1,
        due: pass.due - 1,
        ..pass
    };
    Ok(ask(operations, next))
}

// The word of a term, resolved.
fn read_term(
    operations: &mut [u64],
    pass: Progress,
    term: Result<u64, Refusal>,
) -> Result<Progress, Refusal>
    requires room { Room operations.old pass }
    requires term_below { TermBelow term }
    ensures { Steps pass (term_word (pass_of operations.old pass) (judged_number term)) result operations.new }
{
    let t = term?;
    give(operations, pass, t)
}

// A leaf's number.
fn read_number(operations: &mut [u64], pass: Progress, value: u64) -> Result<Progress, Refusal>
    requires { Room operations.old pass }
    ensures { Steps pass (number_word (pass_of operations.old pass) value) result operations.new }
{
    if value > diagram::VALUE {
        return Err(Refusal::Range);
    }
    Ok(add(operations, pass, LEAF, value))
}

// The name of an atom with its count of terms.
fn read_atom(
    names: &[u64],
    arities: &[u64],
    operations: &mut [u64],
    scope: Scope,
    pass: Progress,
    key: Key,
    count: usize,
) -> Result<Progress, Refusal>
    requires tables { Tables names.now arities.now scope }
    requires room { Room operations.old pass }
    ensures { Steps pass (atom_word (names_of names.now arities.now scope) (pass_of operations.old pass) key count) result operations.new }
{
    let n = scope.predicates;
    let i = names::find(names, names::DECLARED, n, key);
    if n <= i {
        return Err(Refusal::Name);
    }
    let p = i + 1;
    let arity = arities[p] as usize;
    if count != arity {
        return Err(Refusal::Arity);
    }
    Ok(begin(operations, pass, p as u64, count))
}

// A constant's number.
fn constant_number(names: &[u64], n: usize, key: Key) -> Result<u64, Refusal>
    requires n_in_bounds { n * 2 ≤ length names.now }
    requires n_le_constant_count { n ≤ constant_count }
    ensures { Resolves (constant_number (keys_at names.now constants_at n) key) result }
{
    let i = names::find(names, names::CONSTANTS, n, key);
    if n <= i {
        return Err(Refusal::Name);
    }
    Ok(Term::constant(i as u64).number)
}

// A parameter's number.
fn parameter_number(names: &[u64], n: usize, key: Key) -> Result<u64, Refusal>
    requires n_in_bounds { parameters_at + n * 2 ≤ length names.now }
    requires n_le_parameter_count { n ≤ parameter_count }
    ensures { Resolves (parameter_number (keys_at names.now parameters_at n) key) result }
{
    let i = names::find(names, names::PARAMETERS, n, key);
    if n <= i {
        return Err(Refusal::Unbound);
    }
    Ok(Term::parameter(i as u64).number)
}

// The place i of a variable; past the last one that has a number, the place of that one.
fn numbered_place(i: usize) -> u64
    ensures { result ≡ min i last_variable }
{
    i.min(LAST_VARIABLE) as u64
}

// The number of variable i.
fn variable_at(i: usize) -> u64
    ensures { result ≡ variable_term (min i last_variable) }
{
    Term::variable(numbered_place(i)).number
}

// The number of minimum variable i.
fn minimum_at(i: usize) -> u64
    ensures { result ≡ minimum_term (min i last_variable) }
{
    Term::minimum(numbered_place(i)).number
}

// The number of a variable that is in the table.
fn bound_number(variables: &[u64], count: usize, key: Key) -> Result<u64, Refusal>
    requires { count * 2 ≤ length variables.now }
    ensures { Resolves (variable_number Only (keys_at variables.now 0 count) key) result }
{
    let i = names::find(variables, 0, count, key);
    if count <= i {
        return Err(Refusal::Unbound);
    }
    Ok(variable_at(i))
}

// The number of any variable.
fn any_number(variables: &[u64], count: usize, key: Key) -> Result<u64, Refusal>
    requires { count * 2 ≤ length variables.now }
    ensures { Resolves (variable_number Any (keys_at variables.now 0 count) key) result }
{
    let i = names::find(variables, 0, count, key);
    Ok(variable_at(i))
}

// A variable's number, the variables met so far in the table.
fn variable_number(
    variables: &[u64],
    count: usize,
    binding: Binding,
    key: Key,
) -> Result<u64, Refusal>
    requires { count * 2 ≤ length variables.now }
    ensures { Resolves (variable_number binding (keys_at variables.now 0 count) key) result }
{
    match binding {
        Binding::Any => any_number(variables, count, key),
        Binding::None => Err(Refusal::Unbound),
        Binding::Only => bound_number(variables, count, key),
    }
}

// A minimum variable's number.
fn minimum_number(
    variables: &[u64],
    count: usize,
    binding: Binding,
    key: Key,
) -> Result<u64, Refusal>
    requires { part_words + count * 2 ≤ length variables.now }
    ensures { Resolves (minimum_number binding (keys_at variables.now part_words count) key) result }
{
    match binding {
        Binding::Any => {
            let i = names::find(variables, PART_WORDS, count, key);
            Ok(minimum_at(i))
        }
        Binding::None | Binding::Only => Err(Refusal::Unbound),
    }
}

// A variable joins its part of the table if it is new and there is room: how many there are then.
fn join(variables: &mut [u64], count: usize, key: Key) -> usize
    requires { Part variables.old count }
    ensures { Meets (met Any (keys_at variables.old 0 count) key) result variables.new }
{
    if names::find(variables, 0, count, key) < count {
        return count;
    }
    if VARIABLES < count {
        return count;
    }
    names::put(variables, count * 2, key);
    count + 1
}

// How many variables of a kind there are after one, its part of the table lent.
fn meet(variables: &mut [u64], count: usize, binding: Binding, key: Key) -> usize
    requires { Part variables.old count }
    ensures { Meets (met binding (keys_at variables.old 0 count) key) result variables.new }
{
    match binding {
        Binding::Any => join(variables, count, key),
        Binding::None | Binding::Only => count,
    }
}

// How many variables of each kind there are after ?name.
fn meet_variable(variables: &mut [u64], known: Known, binding: Binding, key: Key) -> Known
    requires { Variables variables.old known }
    ensures { MeetsWord (variable_met binding (met_in variables.old known) key) result variables.new }
{
    let count = meet(&mut variables[..PART_WORDS], known.variables, binding, key);
    Known {
        variables: count,
        ..known
    }
}

// How many variables of each kind there are after %name.
fn meet_minimum(variables: &mut [u64], known: Known, binding: Binding, key: Key) -> Known
    requires { Variables variables.old known }
    ensures { MeetsWord (minimum_met binding (met_in variables.old known) key) result variables.new }
{
    let count = meet(&mut variables[PART_WORDS..], known.minimums, binding, key);
    Known {
        minimums: count,
        ..known
    }
}

// How many variables of each kind there are after a word.
fn meet_word(variables: &mut [u64], known: Known, binding: Binding, event: Event) -> Known
    requires { Variables variables.old known }
    ensures { MeetsWord (met_at binding (met_in variables.old known) event) result variables.new }
{
    match event {
        Event::Variable(key) => meet_variable(variables, known, binding, key),
        Event::Minimum(key) => meet_minimum(variables, known, binding, key),
        _ => known,
    }
}

// A word, judged with the variables of the table.
fn read_word(
    names: &[u64],
    arities: &[u64],
    variables: &[u64],
    operations: &mut [u64],
    scope: Scope,
    known: Known,
    pass: Progress,
    event: Event,
) -> Result<Progress, Refusal>
    requires tables { Tables names.now arities.now scope }
    requires variables { Variables variables.now known }
    requires room { Room operations.old pass }
    ensures { Steps pass (word (names_of names.now arities.now scope) (met_in variables.now known) (pass_of operations.old pass) event) result operations.new }
{
    match event {
        Event::Name(key) => read_term(
            operations,
            pass,
            constant_number(names, scope.constants, key),
        ),
        Event::Variable(key) => read_term(
            operations,
            pass,
            variable_number(variables, known.variables, scope.binding, key),
        ),
        Event::Parameter(key) => read_term(
            operations,
            pass,
            parameter_number(names, scope.parameters, key),
        ),
        Event::Minimum(key) => read_term(
            operations,
            pass,
            minimum_number(variables, known.minimums, scope.binding, key),
        ),
        Event::Number(value) => read_number(operations, pass, value),
        Event::Equal => Ok(begin(
            operations,
            pass,
            Label::EQUALITY,
            Label::EQUALITY_ARITY as usize,
        )),
        Event::Holds(key, terms) => read_atom(names, arities, operations, scope, pass, key, terms),
        Event::Step => Ok(add(operations, pass, STEP, 0)),
        Event::End => Ok(pass),
    }
}

// The answer after all words: each kind of variables has a limit of its own.
fn finish(known: Known, operations: usize) -> Result<(usize, Known), Refusal>
    ensures { result ≡ read_answer known operations }
{
    if VARIABLES < known.variables {
        return Err(Refusal::Variables);
    }
    if VARIABLES < known.minimums {
        return Err(Refusal::Variables);
    }
    Ok((operations, known))
}

// The words of a line from the place `at` on, so many variables in the table before them: the operations of its diagram and the
// variables, or the first fault.
fn read_all(
    line: &[u8],
    at: usize,
    names: &[u64],
    arities: &[u64],
    variables: &mut [u64],
    operations: &mut [u64],
    scope: Scope,
    first: Known,
) -> Result<(usize, Known), Refusal>
    requires { Readable line.now at names.now arities.now variables.old operations.old scope first }
    ensures { Reads (reading (names_of names.now arities.now scope) (events_of (drop at line.now)) (met_in variables.old first)) result variables.new operations.new }
{
    let mut place = at;
    let mut known = first;
    let mut pass = Progress {
        label: Label { packed: 0 },
        filled: 0,
        due: 0,
        operations: 0,
    };
    while place < line.len() {
        let next = events::next_event(line, place);
        let event = next.event;
        if events::is_end(event) {
            return finish(known, pass.operations);
        }
        known = meet_word(variables, known, scope.binding, event);
        pass = read_word(
            names, arities, variables, operations, scope, known, pass, event,
        )?;
        place = next.place;
    }
    finish(known, pass.operations)
}

// The same, `known` arguments in the table before the words.
pub fn read_words(
    line: &[u8],
    at: usize,
    names: &[u64],
    arities: &[u64],
    variables: &mut [u64],
    operations: &mut [u64],
    scope: Scope,
    known: usize,
) -> Result<(usize, Known), Refusal>
    requires { Readable line.now at names.now arities.now variables.old operations.old scope (argument_count known) }
    ensures { Reads (reading (names_of names.now arities.now scope) (events_of (drop at line.now)) (arguments (keys_at variables.old 0 known))) result variables.new operations.new }
{
    let first = Known {
        variables: known,
        minimums: 0,
    };
    read_all(
        line, at, names, arities, variables, operations, scope, first,
    )
}

fn opening_of(event: Event) -> Option<(Key, usize)>
    ensures { result ≡ opening_of event }
{
    match event {
        Event::Holds(key, count) => Some((key, count)),
        _ => None,
    }
}

fn argument_of(event: Event) -> Option<Key>
    ensures { result ≡ argument_of event }
{
    match event {
        Event::Variable(key) => Some(key),
        _ => None,
    }
}

// The number of the predicate that the head at the place `at` names, n predicates declared.
pub fn head_predicate(line: &[u8], at: usize, names: &[u64], n: usize) -> Result<usize, Refusal>
    requires at_in_bounds { at ≤ length line.now }
    requires n_in_bounds { declared_at + n * 2 ≤ length names.now }
    ensures { Opens n (head_number (keys_at names.now declared_at n) (events_of (drop at line.now))) result }
{
    let next = events::next_event(line, at);
    let (key, _) = opening_of(next.event).ok_or(Refusal::Form)?;
    let i = names::find(names, names::DECLARED, n, key);
    if n <= i {
        return Err(Refusal::Name);
    }
    Ok(i + 1)
}

// The arguments from the place `at` on, `arity` of them, into the table of variables.
fn read_variables(
    line: &[u8],
    at: usize,
    variables: &mut [u64],
    arity: usize,
) -> Result<usize, Refusal>
    requires at_in_bounds { at ≤ length line.now }
    requires arity_in_bounds { arity * 2 ≤ length variables.old }
    ensures { Heads line.now arity (arguments_from arity [] (events_of (drop at line.now))) result variables.new }
{
    let mut place = at;
    for n in 0..arity {
        let next = events::next_event(line, place);
        let key = argument_of(next.event).ok_or(Refusal::Form)?;
        if names::find(variables, 0, n, key) < n {
            return Err(Refusal::Name);
        }
        names::put(variables, n * 2, key);
        place = next.place;
    }
    Ok(place)
}

// The arguments of the head at the place `at`, whose predicate has the arity.
pub fn head_arguments(
    line: &[u8],
    at: usize,
    variables: &mut [u64],
    arity: usize,
) -> Result<usize, Refusal>
    requires at_in_bounds { at ≤ length line.now }
    requires arity_in_bounds { arity * 2 ≤ length variables.old }
    ensures { Heads line.now arity (head_arguments arity (events_of (drop at line.now))) result variables.new }
{
    let next = events::next_event(line, at);
    let (_, count) = opening_of(next.event).ok_or(Refusal::Form)?;
    if count != arity {
        return Err(Refusal::Arity);
    }
    read_variables(line, next.place, variables, arity)
}

// Writes the bytes of m at the place `at`, the first byte lowest and none of them 0, at most `left`: the place behind them.
fn spell(out: &mut [u8], at: usize, m: u64, left: usize) -> usize
    requires { at + left ≤ length out.old }
    ensures { Spelt out.old at (bytes_within left m) result out.new }
{
    let mut rest = m;
    for i in 0..left {
        if rest == 0 {
            return at + i;
        }
        out[at + i] = (rest % 256) as u8;
        rest = rest / 256;
    }
    at + left
}

// The number that all of the bytes write.
fn whole_number(s: &[u8]) -> Option<u64>
    requires { length s.now ≤ 14 }
    ensures { result ≡ whole_number s.now }
{
    let n = words::read_number(s)?;
    if n != s.len() {
        return None;
    }
    Some(words::value(s))
}

// The N of a name.
fn name_number(name: &[u8]) -> Option<u64>
    requires { length name.now ≤ 15 }
    ensures { result ≡ numbered_as name.now }
{
    if words::byte_at(name, 0) != LETTER_V {
        return None;
    }
    whole_number(words::rest(name, 1))
}

// The N of a key's name.
fn number_of(key: Key) -> Option<u64>
    ensures { result ≡ numbered_as (name_of key) }
{
    let mut bytes = [0u8; 15];
    let middle = spell(&mut bytes, 0, key.a, 8);
    let end = spell(&mut bytes, middle, key.b, 7);
    name_number(&bytes[..end])
}

// The same, 0 for any other name.
fn order_of(key: Key) -> u64
    ensures { result ≡ number_of (name_of key) }
{
    number_of(key).unwrap_or(0)
}

// Two variables with their N, by ascending N.
fn ordered(x: Key, n: u64, y: Key, m: u64) -> Pair
    ensures { result ≡ paired x n y m }
{
    if n < m {
        return Pair {
            low: x,
            high: y,
            order: m,
        };
    }
    Pair {
        low: y,
        high: x,
        order: n,
    }
}

// A variable with its N joins its part of the table by ascending N, each greater one moved up by one place: how many there are then.
fn insert(variables: &mut [u64], count: usize, key: Key, number: u64) -> usize
    requires { Insertable variables.old count key number }
    ensures { Meets (moved key (keys_at variables.old 0 count)) result variables.new }
{
    let mut carried = key;
    let mut n = number;
    for i in 0..count {
        let there = names::key_at(variables, 0, i);
        let m = order_of(there);
        if n == m {
            return count;
        }
        let pair = ordered(carried, n, there, m);
        names::put(variables, i * 2, pair.low);
        carried = pair.high;
        n = pair.order;
    }
    names::put(variables, count * 2, carried);
    count + 1
}

// A variable joins its part of the table by ascending N, if it is written so and there is room.
fn gather(variables: &mut [u64], count: usize, key: Key) -> Option<usize>
    requires { Part variables.old count }
    ensures { Gathers (keys_at variables.old 0 count) (key ∷ []) result variables.new }
{
    let n = number_of(key)?;
    if VARIABLES < count {
        return Some(count);
    }
    Some(insert(variables, count, key, n))
}

// The variable of a word, if it is one.
fn gather_word(variables: &mut [u64], count: usize, word: Option<Key>) -> Option<usize>
    requires { Part variables.old count }
    ensures { Gathers (keys_at variables.old 0 count) (word_keys word) result variables.new }
{
    match word {
        Some(key) => gather(variables, count, key),
        None => Some(count),
    }
}

// %name
fn minimum_of(event: Event) -> Option<Key>
    ensures { result ≡ minimum_of event }
{
    match event {
        Event::Minimum(key) => Some(key),
        _ => None,
    }
}

// A variable of the kind.
fn variable_of(kind: Kind, event: Event) -> Option<Key>
    ensures { result ≡ variable_of kind event }
{
    match kind {
        Kind::Maximum => argument_of(event),
        Kind::Minimum => minimum_of(event),
    }
}

// The variables of the kind among the words from the place `at` on into its part of the table, by ascending N: how many; none where one is
// not written so.
fn number_variables(line: &[u8], at: usize, variables: &mut [u64], kind: Kind) -> usize
    requires at_in_bounds { at ≤ length line.now }
    requires part { Part variables.old 0 }
    ensures { Meets (kept_first [] (keys_of kind (events_of (drop at line.now)))) result variables.new }
{
    let mut place = at;
    let mut count = 0;
    while place < line.len() {
        let next = events::next_event(line, place);
        let event = next.event;
        if events::is_end(event) {
            return count;
        }
        let Some(n) = gather_word(variables, count, variable_of(kind, event)) else {
            return 0;
        };
        count = n;
        place = next.place;
    }
    count
}

// The variables of the words of a reward from the place `at` on that have their number before these are read, kind by kind.
fn number_kinds(line: &[u8], at: usize, variables: &mut [u64]) -> Known
    requires at_in_bounds { at ≤ length line.now }
    requires variables { Variables variables.old (argument_count 0) }
    ensures { MeetsWord (kept_met (events_of (drop at line.now))) result variables.new }
{
    let maximums = number_variables(line, at, &mut variables[..PART_WORDS], Kind::Maximum);
    let minimums = number_variables(line, at, &mut variables[PART_WORDS..], Kind::Minimum);
    Known {
        variables: maximums,
        minimums,
    }
}

// The words of a reward from the place `at` on, its variables, kind by kind, by ascending N where each is written so.
pub fn read_reward(
    line: &[u8],
    at: usize,
    names: &[u64],
    arities: &[u64],
    variables: &mut [u64],
    operations: &mut [u64],
    scope: Scope,
) -> Result<(usize, Known), Refusal>
    requires readable { Readable line.now at names.now arities.now variables.old operations.old scope (argument_count 0) }
    requires binding_value { scope.binding ≡ Any }
    ensures { Reads (reward_reading (names_of names.now arities.now scope) (events_of (drop at line.now))) result variables.new operations.new }
{
    let first = number_kinds(line, at, variables);
    read_all(
        line, at, names, arities, variables, operations, scope, first,
    )
}
