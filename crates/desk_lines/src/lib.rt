// (best), (count n) and (did ..): from a line that stands where it may to its answer; the first two leave the session as it was, the third moves its state. What they
// are stands in crate session, specs/Running, specs/Replaying and specs/Replies.
#![tactic(auto)]

ghost use Rattle.std.specs.Prelude.{◌≡◌, ◌+◌, ◌*◌, ◌<◌, ◌≤◌, length, drop};
ghost use Rattle.std.proofs.Math.Seq.{paste};
ghost use Rattle.state.specs.Lent.{fact_words, most_facts};
ghost use Rattle.names.specs.Keys.{place_of};
ghost use Rattle.events.specs.Front.{events_of};
ghost use Rattle.events.specs.Contents.{numbers_in};
ghost use Rattle.session.specs.Replaying.{did_to, did_line};
ghost use Rattle.declare.specs.Tables.{names_of};
ghost use Rattle.facts.specs.Inner.{most_bytes, Living};
ghost use Rattle.facts.specs.Words.{facts_base, live_of};
ghost use Rattle.model.specs.Layout.{model_of};
ghost use Rattle.count_states.specs.Counted.{Counts as CountedAs};
ghost use Rattle.desk_lines.specs.Lines.{MoveTask, CountTask, LogTask, DidTask, BestAnswered, CountAnswered, DidAnswered};
ghost use Rattle.desk_lines.specs.Counting.{spread_read, Spreadable};
ghost use Rattle.desk_lines.specs.Doing.{variant_keys, moved, Findable, Finding, Movable, StepsIn};

use answers::Answer;
use best_move::Chosen;
use declare::Counts;
use facts::{Live, Tuple};
use memory::{Numbers, Said};
use model::Head;
use refusal::Refusal;
use text::Kind;
use words::Key;

// (best): the name of the action and its objects, or the refusal.
pub fn best(
    number: u64,
    n: Numbers,
    names: &[u64],
    arities: &[u64],
    listings: &[u64],
    table: &[u64],
    state: &[u64],
    value: &[u64],
    work: &mut [u64],
) -> Said
    requires { MoveTask n names.now arities.now listings.now table.now state.now value.now work.old }
    ensures { BestAnswered number n names.now arities.now listings.now table.now state.now value.now result }
{
    let end = facts::FACTS_BASE + n.live.facts * facts::FACT_WORDS;
    let m = best_move::best_move(
        arities,
        listings,
        table,
        n.head,
        n.live.objects,
        &state[..facts::PLACED],
        &state[facts::FACTS_BASE..end],
        &state[facts::INDEX_BASE..facts::WORDS],
        &value[..n.held.rows * 3],
        work,
    );
    match m {
        Chosen::Move(i, count, a, b, c, d) => Said {
            numbers: n,
            answer: Answer::Best(names::key_at(names, names::ACTIONS, i), count, a, b, c, d),
        },
        Chosen::Refused(why) => Said {
            numbers: n,
            answer: Answer::Refused(why, number),
        },
    }
}

// How many values the states of n objects have, with value and states of each in front of the table: 4 for n and for a constant placed beyond, then 24 and 15.
fn spread(
    arities: &[u64],
    predicates: usize,
    n: u64,
    constants: &[u64],
    words: &[u64],
    table: &mut [u64],
) -> Result<usize, Refusal>
    requires { Spreadable arities.now predicates words.now table.old }
    ensures { CountedAs (spread_read arities.now predicates n constants.now words.now) result table.new }
{
    if n > facts::OBJECTS {
        return Err(Refusal::Range);
    }
    // a state of n objects without facts: there is an object, and no constant is placed beyond
    if valuing::state_fits(arities, n, constants, &words[..0]) {
        return count_states::count(arities, predicates, n, constants, words, table);
    }
    Err(Refusal::Range)
}

// (count n): how many values occur, with value and states of each in front of the working space, or the refusal.
pub fn count(
    line: &[u8],
    number: u64,
    n: Numbers,
    arities: &[u64],
    state: &[u64],
    value: &[u64],
    work: &mut [u64],
) -> Said
    requires { CountTask line.now n arities.now state.now value.now work.old }
    ensures { CountAnswered line.now number n arities.now state.now value.now result work.new }
{
    let next = events::next_event(line, events::first_word(Kind::Count));
    let objects = events::number_in(next.event);
    let lines = spread(
        arities,
        n.counts.predicates,
        objects,
        &state[..facts::PLACED],
        &value[..n.held.rows * 3],
        work,
    );
    match lines {
        Ok(m) => Said {
            numbers: n,
            answer: Answer::Count(objects, m),
        },
        Err(why) => Said {
            numbers: n,
            answer: Answer::Refused(why, number),
        },
    }
}

// The place of the key among the names of the variants of the action a, or how many these are.
fn find_variant(names: &[u64], table: &[u64], actions: usize, a: usize, key: Key) -> usize
    requires findable { Findable names.now table.now actions }
    requires a_lt_actions { a < actions }
    ensures { result ≡ place_of key (variant_keys names.now table.now a) }
{
    let before = model_entry::variants_before(table, a);
    let count = table[a * model::ACTION_WORDS + 1] as usize;
    names::find(names, names::VARIANTS + before * 2, count, key)
}

// Finds the action and its variant: 2 and 3 at the action's word, 2 at the variant's, 4 at an object.
fn find(
    names: &[u64],
    n: Counts,
    table: &[u64],
    action: Key,
    variant: Key,
    objects: Tuple,
) -> Result<(usize, usize), Refusal>
    requires { Findable names.now table.now n.actions }
    ensures { Finding names.now table.now n action variant objects result }
{
    let a = names::find(names, names::ACTIONS, n.actions, action);
    if a >= n.actions {
        return Err(Refusal::Name);
    }
    if objects.count != table[a * model::ACTION_WORDS] {
        return Err(Refusal::Arity);
    }
    let v = find_variant(names, table, n.actions, a, variant);
    if v >= table[a * model::ACTION_WORDS + 1] as usize {
        return Err(Refusal::Name);
    }
    if objects.within {
        return Ok((a, v));
    }
    Err(Refusal::Range)
}

// Copies the first words of the rows to where the facts stand.
fn copy_facts(state: &mut [u64], rows: &[u64], words: usize)
    requires words_in_bounds { words ≤ length rows.now }
    requires words_in_bounds_2 { facts_base + words ≤ length state.old }
    ensures { state.new ≡ paste state.old facts_base rows.now words }
{
    let end = facts::FACTS_BASE + words;
    state[facts::FACTS_BASE..end].copy_from_slice(&rows[..words]);
}

// What variant v of the action a does in the state in hand: the next facts go to the rows.
fn step_in(
    arities: &[u64],
    listings: &[u64],
    table: &[u64],
    head: Head,
    a: usize,
    v: usize,
    objects: &[u64],
    state: &[u64],
    live: Live,
    rows: &mut [u64],
) -> Result<(usize, u64, u64), Refusal>
    requires movable { Movable arities.now listings.now table.now head a v objects.now state.now live }
    requires fact_words_in_bounds { most_facts * fact_words ≤ length rows.old }
    ensures { StepsIn arities.now listings.now table.now head a v objects.now state.now live result rows.new }
{
    let end = facts::FACTS_BASE + live.facts * facts::FACT_WORDS;
    replay_step::step(
        arities,
        listings,
        table,
        head,
        a,
        v,
        live.objects,
        &state[..facts::PLACED],
        &state[facts::FACTS_BASE..end],
        &state[facts::INDEX_BASE..facts::WORDS],
        live.count,
        live.total,
        objects,
        rows,
    )
}

// Moves the state in hand by variant v of the action a, and counts the rewards met: 21, 22, 15 or 23.
fn replay(
    arities: &[u64],
    listings: &[u64],
    table: &[u64],
    head: Head,
    a: usize,
    v: usize,
    objects: &[u64],
    state: &mut [u64],
    live: Live,
) -> Result<Live, Refusal>
    requires { Movable arities.now listings.now table.now head a v objects.now state.old live }
    ensures { Living arities.now (did_to (model_of arities.now listings.now table.now head) (live_of state.old live)
        (record { action = a; variant = v; objects = objects.now })) state.old result state.new }
{
    let mut rows = [0u64; facts::FACTS * facts::FACT_WORDS];
    let (m, count, total) = step_in(
        arities, listings, table, head, a, v, objects, state, live, &mut rows,
    )?;
    facts::unindex(arities, state, live.facts);
    copy_facts(state, &rows, m * facts::FACT_WORDS);
    facts::index(arities, state, m);
    Ok(Live {
        facts: m,
        count,
        total,
        ..live
    })
}

// What a line does whose action and variant have these keys, and whose objects stand from the place `at` on.
fn carry_out(
    line: &[u8],
    at: usize,
    action: Key,
    variant: Key,
    n: Numbers,
    names: &[u64],
    arities: &[u64],
    listings: &[u64],
    table: &[u64],
    state: &mut [u64],
) -> Result<Live, Refusal>
    requires at_in_bounds { at ≤ length line.now }
    requires line_len_bound { length line.now ≤ most_bytes }
    requires log_task { LogTask n names.now arities.now listings.now table.now state.old }
    ensures { Living arities.now (did_line (model_of arities.now listings.now table.now n.head) (names_of names.now n.counts)
        (live_of state.old n.live) action variant (numbers_in (events_of (drop at line.now)))) state.old result state.new }
{
    let mut row = [0u64; facts::FACT_WORDS];
    let objects = facts::read_tuple(line, at, n.live.objects, &mut row);
    let (a, v) = find(names, n.counts, table, action, variant, objects)?;
    let end = 1 + (objects.count as usize);
    replay(
        arities,
        listings,
        table,
        n.head,
        a,
        v,
        &row[1..end],
        state,
        n.live,
    )
}

// The numbers with another state, whose count and total are answered.
fn moved(n: Numbers, live: Live) -> Said
    ensures { result ≡ moved n live }
{
    Said {
        numbers: memory::with_state(n, live),
        answer: Answer::Did(live.count, live.total),
    }
}

// (did action variant object ..): the state moves by that variant, and count and total are answered, or the refusal.
pub fn did(
    line: &[u8],
    number: u64,
    n: Numbers,
    names: &[u64],
    arities: &[u64],
    listings: &[u64],
    table: &[u64],
    state: &mut [u64],
) -> Said
    requires { DidTask line.now n names.now arities.now listings.now table.now state.old }
    ensures { DidAnswered line.now number n names.now arities.now listings.now table.now state.old result
        state.new }
{
    let first = events::next_event(line, events::first_word(Kind::Did));
    let action = events::key_in(first.event);
    let second = events::next_event(line, first.place);
    let variant = events::key_in(second.event);
    match carry_out(
        line,
        second.place,
        action,
        variant,
        n,
        names,
        arities,
        listings,
        table,
        state,
    ) {
        Ok(live) => moved(n, live),
        Err(why) => Said {
            numbers: n,
            answer: Answer::Refused(why, number),
        },
    }
}
