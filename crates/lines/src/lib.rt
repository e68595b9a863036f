// Lines of a text, answered: where a line may stand, and the function of its kind. What is answered stands in crate session, specs/Replies.
#![tactic(auto)]

ghost use Rattle.std.specs.Prelude.{◌≡◌, true, ◌≤◌, length};
ghost use Rattle.label.specs.Limits.{constant_count, predicate_count};
ghost use Rattle.mdp.specs.Model.{most_actions};
ghost use Rattle.refusal.specs.Outcome.{ok};
ghost use Rattle.session.specs.Session.{opening, refuse_if};
ghost use Rattle.session.specs.Replies.{each_placed};
ghost use Rattle.facts.specs.Words.{part, placed_base, state_words};
ghost use Rattle.model.specs.Layout.{table_words};
ghost use Rattle.memory.specs.Inner.{Ready, Kept, Replied};
ghost use Rattle.memory.specs.Memory.{memory_of, work_words};
ghost use Rattle.lines.specs.Kinds.{is_of_model, is_of_run};
ghost use Rattle.lines.specs.Lines.{Opened, Performed, ModelReady, ModelPerformed, no_line};
ghost use Rattle.lines.specs.Placing.{placed_as, Counted, Varied, Whole, AllPlaced, Placing};

use answers::Answer;
use label::Label;
use memory::{Numbers, Said};
use refusal::Refusal;
use session::Rule;
use text::Kind;

// The arity list before the first line: equality has its arity, every other predicate 0.
fn open_arities(arities: &mut [u64])
    requires { length arities.old ≡ predicate_count }
    ensures { arities.new ≡ opening.model.arities }
{
    arities.fill(0);
    arities[Label::EQUALITY as usize] = Label::EQUALITY_ARITY;
}

// Before the first line.
pub fn open(arities: &mut [u64], state: &mut [u64]) -> Numbers
    requires arities_len { length arities.old ≡ predicate_count }
    requires state_words_in_bounds { state_words ≤ length state.old }
    ensures { Opened arities.old state.old result arities.new state.new }
{
    open_arities(arities);
    facts::open(state);
    memory::opening()
}

// Whether each of the first actions of the table has a variant.
fn each_varied(table: &[u64], actions: usize) -> bool
    requires table_words_in_bounds { table_words ≤ length table.now }
    requires actions_le_most_actions { actions ≤ most_actions }
    ensures { Varied table.now actions result }
{
    for a in 0..actions {
        if table[a * model::ACTION_WORDS + 1] == 0 {
            return false;
        }
    }
    true
}

// Whether there is a reward, an action, and a variant of each action.
fn is_whole(n: Numbers, table: &[u64]) -> bool
    requires table_words_in_bounds { table_words ≤ length table.now }
    requires actions_le_most_actions { n.head.actions ≤ most_actions }
    ensures { Whole n table.now result }
{
    if n.counts.actions == 0 {
        return false;
    }
    n.reward && each_varied(table, n.head.actions)
}

// Whether the first constants are placed.
fn each_placed(state: &[u64], constants: usize) -> bool
    requires state_words_in_bounds { state_words ≤ length state.now }
    requires constants_le_constant_count { constants ≤ constant_count }
    ensures { result ≡ each_placed (part state.now placed_base constant_count) constants }
{
    for c in 0..constants {
        if state[facts::PLACED + c] != 1 {
            return false;
        }
    }
    true
}

// Whether there are objects, and every constant is placed.
fn is_placed(n: Numbers, state: &[u64]) -> bool
    requires state_words_in_bounds { state_words ≤ length state.now }
    requires constants_le_constant_count { n.counts.constants ≤ constant_count }
    ensures { AllPlaced n state.now result }
{
    n.live.objects != 0 && each_placed(state, n.counts.constants)
}

// Refused if b.
fn refuse_if(b: bool, why: Refusal) -> Result<(), Refusal>
    ensures { result ≡ placed_as (refuse_if b why (ok tt)) }
{
    if b {
        return Err(why);
    }
    Ok(())
}

// Whether what the rule asks for is there.
fn allowed(rule: Rule, n: Numbers, table: &[u64], state: &[u64]) -> Result<(), Refusal>
    requires { Counted n table.now state.now }
    ensures { Placing rule n table.now state.now result }
{
    match rule {
        Rule::NoForm => Err(Refusal::Form),
        Rule::Misplaced => Err(Refusal::Place),
        Rule::Anywhere => Ok(()),
        Rule::OneTotal => refuse_if(n.total, Refusal::Place),
        Rule::OneDiscount => refuse_if(n.discount, Refusal::Place),
        Rule::OneReward => refuse_if(n.reward, Refusal::Place),
        Rule::AfterAction => refuse_if(n.counts.actions == 0, Refusal::Place),
        Rule::AfterVariant => refuse_if(n.counts.variants == 0, Refusal::Place),
        Rule::WholeModel => refuse_if(!is_whole(n, table), Refusal::Place),
        Rule::AfterObjects => refuse_if(n.live.objects == 0, Refusal::Place),
        Rule::WholeState => refuse_if(!is_placed(n, state), Refusal::Place),
        Rule::MoveState => refuse_if(!is_placed(n, state), Refusal::Missing),
        Rule::Constants => refuse_if(!each_placed(state, n.counts.constants), Refusal::Place),
    }
}

// What a line that is none is answered.
fn no_line(number: u64, n: Numbers) -> Said
    ensures { result ≡ no_line number n }
{
    Said {
        numbers: n,
        answer: Answer::Refused(Refusal::Form, number),
    }
}

// What a line of the model asks for, where it stands where it may.
fn perform_model(
    kind: Kind,
    line: &[u8],
    number: u64,
    n: Numbers,
    names: &mut [u64],
    arities: &mut [u64],
    listings: &mut [u64],
    table: &mut [u64],
    work: &mut [u64],
) -> Said
    requires kind_value { is_of_model kind ≡ true }
    requires model_ready { ModelReady kind line.now n names.old arities.old listings.old table.old }
    requires work_words_in_bounds { work_words ≤ length work.old }
    ensures { ModelPerformed kind line.now number n names.old arities.old listings.old table.old
        result names.new arities.new listings.new table.new work.new }
{
    match kind {
        Kind::Constant => declaration_lines::constant(line, number, n, names),
        Kind::Predicate => declaration_lines::predicate(line, number, n, names, arities),
        Kind::Total => declaration_lines::total(line, number, n),
        Kind::Discount => declaration_lines::discount(line, number, n),
        Kind::Reward => diagram_lines::reward(line, number, n, names, arities, listings, work),
        Kind::Action => declaration_lines::action(line, number, n, names, table, work),
        Kind::Variant => diagram_lines::variant(
            line, number, n, names, arities, listings, table, work,
        ),
        Kind::Becomes => diagram_lines::becomes(
            line, number, n, names, arities, listings, table, work,
        ),
        _ => no_line(number, n),
    }
}

// What a line of the run asks for, where it stands where it may.
fn perform_run(
    kind: Kind,
    line: &[u8],
    number: u64,
    n: Numbers,
    names: &[u64],
    arities: &[u64],
    listings: &[u64],
    table: &[u64],
    state: &mut [u64],
    value: &mut [u64],
    work: &mut [u64],
) -> Said
    requires kind_value { is_of_run kind ≡ true }
    requires ready { Ready kind line.now n (memory_of names.now arities.now listings.now table.now state.old value.old) }
    requires work_words_in_bounds { work_words ≤ length work.old }
    ensures { Performed kind line.now number n
        (memory_of names.now arities.now listings.now table.now state.old value.old) result
        (memory_of names.now arities.now listings.now table.now state.new value.new)
        work.new }
{
    match kind {
        Kind::Start => run_lines::start(number, n, arities, listings, table, value, work),
        Kind::Backup => run_lines::backup(number, n, arities, listings, table, value, work),
        Kind::Cut => run_lines::cut(number, n, arities, value, work),
        Kind::Show => run_lines::show(n),
        Kind::Reduce => run_lines::reduce(number, n, arities, value, work),
        Kind::Text => run_lines::text(number, n, names, arities, value),
        Kind::Best => desk_lines::best(
            number, n, names, arities, listings, table, state, value, work,
        ),
        Kind::Count => desk_lines::count(line, number, n, arities, state, value, work),
        Kind::Did => desk_lines::did(line, number, n, names, arities, listings, table, state),
        _ => no_line(number, n),
    }
}

// What a line of the kind asks for, where it stands where it may: those of the state and its value come often, and are answered here, so that they do
// not pay for the room that the others need. `perform_run` is called at two places, so that the compiler keeps it a function of its own, with its room.
fn perform(
    kind: Kind,
    line: &[u8],
    number: u64,
    n: Numbers,
    names: &mut [u64],
    arities: &mut [u64],
    listings: &mut [u64],
    table: &mut [u64],
    state: &mut [u64],
    value: &mut [u64],
    work: &mut [u64],
) -> Said
    requires ready { Ready kind line.now n (memory_of names.old arities.old listings.old table.old state.old value.old) }
    requires work_words_in_bounds { work_words ≤ length work.old }
    ensures { Performed kind line.now number n
        (memory_of names.old arities.old listings.old table.old state.old value.old) result
        (memory_of names.new arities.new listings.new table.new state.new value.new)
        work.new }
{
    match kind {
        Kind::Objects => state_lines::objects(line, number, n, arities, state),
        Kind::Is => state_lines::is(line, number, n, names, state),
        Kind::True => state_lines::tell(line, number, n, names, arities, state),
        Kind::Value => run_lines::value(number, n, arities, state, value, work),
        Kind::Constant
        | Kind::Predicate
        | Kind::Total
        | Kind::Discount
        | Kind::Reward
        | Kind::Action
        | Kind::Variant
        | Kind::Becomes => perform_model(
            kind, line, number, n, names, arities, listings, table, work,
        ),
        Kind::Start | Kind::Backup | Kind::Cut | Kind::Reduce => perform_run(
            kind, line, number, n, names, arities, listings, table, state, value, work,
        ),
        Kind::Bad => no_line(number, n),
        _ => perform_run(
            kind, line, number, n, names, arities, listings, table, state, value, work,
        ),
    }
}

// Line `number` of a text, its line feed left out: the session behind it, and what it is answered. A line of no bytes passes without effect.
pub fn answer(
    line: &[u8],
    number: u64,
    n: Numbers,
    names: &mut [u64],
    arities: &mut [u64],
    listings: &mut [u64],
    table: &mut [u64],
    state: &mut [u64],
    value: &mut [u64],
    work: &mut [u64],
) -> Said
    requires kept { Kept n (memory_of names.old arities.old listings.old table.old state.old value.old) }
    requires work_words_in_bounds { work_words ≤ length work.old }
    ensures { Replied line.now number n
        (memory_of names.old arities.old listings.old table.old state.old value.old) result
        (memory_of names.new arities.new listings.new table.new state.new value.new)
        work.new }
{
    if line.len() == 0 {
        return Said {
            numbers: n,
            answer: Answer::Nothing,
        };
    }
    let kind = line_reader::read_line(line);
    let rule = session::rule_of(kind, n.part);
    match allowed(rule, n, table, state) {
        Ok(()) => perform(
            kind, line, number, n, names, arities, listings, table, state, value, work,
        ),
        Err(why) => Said {
            numbers: n,
            answer: Answer::Refused(why, number),
        },
    }
}
