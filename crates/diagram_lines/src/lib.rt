// The lines of a model with a diagram, on a session in lent words: (reward DIAGRAM), (variant n WEIGHT) and (becomes (p ?a ..) DIAGRAM).
#![tactic(auto)]

ghost use Rattle.std.specs.Prelude.{◌≡◌, false, ◌+◌, ◌*◌, ◌/◌, ◌≤◌, ◌<◌, length, drop};
ghost use Rattle.label.specs.Limits.{predicate_count};
ghost use Rattle.diagram.specs.Sizes.{result_words};
ghost use Rattle.text.specs.declared.Kind.TheVariants.{Reward, Variant, Becomes};
ghost use Rattle.events.specs.Front.{events_of};
ghost use Rattle.names.specs.Keys.{keys_at};
ghost use Rattle.names.specs.Layout.{variants_at};
ghost use Rattle.reading.specs.declared.Binding.TheVariants.{Only};
ghost use Rattle.reader.specs.Callers.{names_of as table_names};
ghost use Rattle.session.specs.ModelLines.{reward_read, weight_read};
ghost use Rattle.session.specs.Replies.{words_of};
ghost use Rattle.declare.specs.Tables.{names_of, GoodNames};
ghost use Rattle.model.specs.Layout.{listing_words};
ghost use Rattle.memory.specs.Inner.{LineOf};
ghost use Rattle.drawing.specs.Drawing.{drawn, Drawable, Draws};
ghost use Rattle.diagram_lines.specs.Lines.{roomed, roomed_as, lowered, lowered_as, truth_of, BuiltIn, Lent, RewardReady, RewardSays, WeightAt, VariantNamed, VariantReady, VariantSays, action_scope, VariantOpen, TruthOpens, BecomesReady, BecomesSays};

use answers::Answer;
use declare::Counts;
use memory::{Numbers, Said};
use reader::Scope;
use reading::Binding;
use refusal::Refusal;
use text::Kind;
use words::Key;

// Rows of all listings of a model.
const MODEL_ROWS: usize = model::LISTING_WORDS / 3;

// The rows of a diagram that is built, or 9 where there is no room beside it, or the model's listings, with so many words in use, have none for them.
fn room(built: Result<usize, Refusal>, full: bool, words: usize) -> Result<usize, Refusal>
    requires { words ≤ listing_words }
    ensures { result ≡ roomed_as full (words / 3) built }
{
    let rows = built?;
    if full || rows > MODEL_ROWS - words / 3 {
        return Err(Refusal::Space);
    }
    Ok(rows)
}

// Reads the diagram of a (reward DIAGRAM), and lists it in the result buffer.
fn read_reward(
    line: &[u8],
    n: Numbers,
    names: &[u64],
    arities: &[u64],
    out: &mut [u64],
    work: &mut [u64],
) -> Result<usize, Refusal>
    requires lent { Lent Reward line.now n names.now arities.now work.old }
    requires result_words_in_bounds { result_words ≤ length out.old }
    ensures { Draws arities.now (reward_read (names_of names.now n.counts) arities.now (n.head.words / 3) (words_of Reward line.now)) result out.new }
{
    let at = events::first_word(Kind::Reward);
    let mut variables = [0u64; reader::VARIABLE_WORDS];
    let scope = Scope {
        constants: n.counts.constants,
        predicates: n.counts.predicates,
        parameters: 0,
        binding: Binding::Any,
    };
    let built = drawing::draw_closed(line, at, names, arities, scope, &mut variables, out, work);
    room(built, false, n.head.words)
}

// (reward DIAGRAM)
pub fn reward(
    line: &[u8],
    number: u64,
    n: Numbers,
    names: &[u64],
    arities: &[u64],
    listings: &mut [u64],
    work: &mut [u64],
) -> Said
    requires { RewardReady line.now n names.now arities.now listings.old work.old }
    ensures { RewardSays line.now number n names.now arities.now listings.old result listings.new }
{
    let mut out = [0u64; diagram::RESULT_WORDS];
    let built = read_reward(line, n, names, arities, &mut out, work);
    match built {
        Err(why) => Said {
            numbers: n,
            answer: Answer::Refused(why, number),
        },
        Ok(rows) => {
            let head = model_entry::add_reward(listings, n.head, &out, rows);
            Said {
                numbers: Numbers {
                    reward: true,
                    head,
                    ..n
                },
                answer: Answer::Nothing,
            }
        }
    }
}

// Reads the weight of a (variant n WEIGHT) from the place `at` on, and lists it in the result buffer; 2 where the last action has a variant of that name.
fn read_weight(
    line: &[u8],
    at: usize,
    key: Key,
    n: Numbers,
    names: &[u64],
    arities: &[u64],
    out: &mut [u64],
    work: &mut [u64],
) -> Result<usize, Refusal>
    requires lent { Lent Variant line.now n names.now arities.now work.old }
    requires weight_at { WeightAt line.now at }
    requires result_words_in_bounds { result_words ≤ length out.old }
    ensures { Draws arities.now (weight_read (names_of names.now n.counts) arities.now (n.head.words / 3) key (events_of (drop at line.now))) result out.new }
{
    let count = n.counts.variants;
    let base = names::VARIANTS + n.counts.earlier * 2;
    if names::find(names, base, count, key) < count {
        return Err(Refusal::Name);
    }
    let mut variables = [0u64; reader::VARIABLE_WORDS];
    let scope = Scope {
        constants: n.counts.constants,
        predicates: n.counts.predicates,
        parameters: n.counts.parameters,
        binding: Binding::None,
    };
    let built = drawing::draw(
        line,
        at,
        names,
        arities,
        scope,
        &mut variables,
        0,
        out,
        work,
    );
    room(built, count >= model::VARIANTS, n.head.words)
}

// One variant more of the last action, by its name.
fn name_variant(names: &mut [u64], n: Counts, key: Key) -> Counts
    requires { variants_at + (n.earlier + n.variants) * 2 + 2 ≤ length names.old }
    ensures { VariantNamed names.old n key result names.new }
{
    names::put(names, names::VARIANTS + (n.earlier + n.variants) * 2, key);
    Counts {
        variants: n.variants + 1,
        ..n
    }
}

// (variant n WEIGHT)
pub fn variant(
    line: &[u8],
    number: u64,
    n: Numbers,
    names: &mut [u64],
    arities: &[u64],
    listings: &mut [u64],
    table: &mut [u64],
    work: &mut [u64],
) -> Said
    requires { VariantReady line.now n names.old arities.now listings.old table.old work.old }
    ensures { VariantSays line.now number n names.old arities.now listings.old table.old result names.new listings.new table.new }
{
    let first = events::next_event(line, events::first_word(Kind::Variant));
    let key = events::key_in(first.event);
    let mut out = [0u64; diagram::RESULT_WORDS];
    let built = read_weight(line, first.place, key, n, names, arities, &mut out, work);
    match built {
        Err(why) => Said {
            numbers: n,
            answer: Answer::Refused(why, number),
        },
        Ok(rows) => {
            let head = model_entry::add_variant(listings, table, n.head, &out, rows);
            let counts = name_variant(names, n.counts, key);
            Said {
                numbers: Numbers { counts, head, ..n },
                answer: Answer::Nothing,
            }
        }
    }
}

// The rows of a diagram that is built, or 7 where it has a leaf above 1.
fn lower(built: Result<usize, Refusal>, arities: &[u64], out: &[u64]) -> Result<usize, Refusal>
    requires { BuiltIn arities.now built out.now }
    ensures { result ≡ lowered_as out.now built }
{
    let rows = built?;
    if truths::has_high_leaf(arities, &out[..rows * 3]) {
        return Err(Refusal::Truth);
    }
    Ok(rows)
}

// Draws the diagram of a (becomes (p ?a ..) DIAGRAM) that stands on the line from the place `at` on, the arguments known.
fn draw_truth(
    line: &[u8],
    at: usize,
    n: Numbers,
    names: &[u64],
    arities: &[u64],
    variables: &mut [u64],
    known: usize,
    out: &mut [u64],
    work: &mut [u64],
) -> Result<usize, Refusal>
    requires drawable { Drawable line.now at names.now arities.now (action_scope n Only) variables.old known out.old work.old }
    requires words_le_listing_words { n.head.words ≤ listing_words }
    ensures { Draws arities.now (roomed false (n.head.words / 3) (lowered (drawn (table_names names.now arities.now (action_scope n Only)) (events_of (drop at line.now)) (keys_at variables.old 0 known)))) result out.new }
{
    let scope = Scope {
        constants: n.counts.constants,
        predicates: n.counts.predicates,
        parameters: n.counts.parameters,
        binding: Binding::Only,
    };
    let built = drawing::draw(line, at, names, arities, scope, variables, known, out, work);
    let low = lower(built, arities, out);
    room(low, false, n.head.words)
}

// Reads what stands behind the predicate p of a (becomes (p ?a ..) DIAGRAM), and lists the diagram in the result buffer.
fn read_truth(
    line: &[u8],
    p: usize,
    n: Numbers,
    names: &[u64],
    arities: &[u64],
    out: &mut [u64],
    work: &mut [u64],
) -> Result<usize, Refusal>
    requires lent { Lent Becomes line.now n names.now arities.now work.old }
    requires p_lt_predicate_count { p < predicate_count }
    requires result_words_in_bounds { result_words ≤ length out.old }
    ensures { Draws arities.now (truth_of (names_of names.now n.counts) arities.now p (n.head.words / 3) (words_of Becomes line.now)) result out.new }
{
    let first = events::first_word(Kind::Becomes);
    let mut variables = [0u64; reader::VARIABLE_WORDS];
    let arity = arities[p] as usize;
    let at = reader::head_arguments(line, first, &mut variables, arity)?;
    draw_truth(
        line,
        at,
        n,
        names,
        arities,
        &mut variables,
        arity,
        out,
        work,
    )
}

// The predicate of the head of a (becomes (p ?a ..) DIAGRAM): 2 where it is undeclared, or the last variant has a truth diagram of it.
fn open_truth(line: &[u8], n: Numbers, names: &[u64], table: &[u64]) -> Result<usize, Refusal>
    requires line_of { LineOf Becomes line.now }
    requires good_names { GoodNames names.now n.counts }
    requires variant_open { VariantOpen table.now n }
    ensures { TruthOpens n names.now table.now (words_of Becomes line.now) result }
{
    let first = events::first_word(Kind::Becomes);
    let p = reader::head_predicate(line, first, names, n.counts.predicates)?;
    if model_entry::has_truth(table, n.head, p) {
        return Err(Refusal::Name);
    }
    Ok(p)
}

// (becomes (p ?a ..) DIAGRAM)
pub fn becomes(
    line: &[u8],
    number: u64,
    n: Numbers,
    names: &[u64],
    arities: &[u64],
    listings: &mut [u64],
    table: &mut [u64],
    work: &mut [u64],
) -> Said
    requires { BecomesReady line.now n names.now arities.now listings.old table.old work.old }
    ensures { BecomesSays line.now number n names.now arities.now listings.old table.old result listings.new table.new }
{
    let opened = open_truth(line, n, names, table);
    match opened {
        Err(why) => Said {
            numbers: n,
            answer: Answer::Refused(why, number),
        },
        Ok(p) => {
            let mut out = [0u64; diagram::RESULT_WORDS];
            let built = read_truth(line, p, n, names, arities, &mut out, work);
            match built {
                Err(why) => Said {
                    numbers: n,
                    answer: Answer::Refused(why, number),
                },
                Ok(rows) => {
                    let head = model_entry::add_truth(listings, table, n.head, p, &out, rows);
                    Said {
                        numbers: Numbers { head, ..n },
                        answer: Answer::Nothing,
                    }
                }
            }
        }
    }
}
