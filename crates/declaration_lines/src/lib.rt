// Lines that declare names and numbers: from the bytes of a line that stands where it may to the session behind it and the answer.
#![tactic(auto)]

ghost use Rattle.std.specs.Prelude.{◌≡◌, ◌≤◌, length};
ghost use Rattle.text.specs.declared.Kind.TheVariants.{Total, Discount};
ghost use Rattle.events.specs.Events.{first_word};
ghost use Rattle.declaration_lines.specs.Lines.{with_tables, with_weights, ForConstant, ConstantSays, ForPredicate, PredicateSays, TotalSays, DiscountSays, ForAction, ActionSays};

use answers::Answer;
use declare::Counts;
use memory::{Numbers, Said};
use model::Head;
use refusal::Refusal;
use text::Kind;

// The numbers with other names and another model.
fn with_tables(n: Numbers, counts: Counts, head: Head) -> Numbers
    ensures { result ≡ with_tables n counts head }
{
    Numbers { counts, head, ..n }
}

// The numbers with other marks of single forms, W, G and D.
fn with_weights(n: Numbers, total: bool, discount: bool, w: u64, g: u64, d: u64) -> Numbers
    ensures { result ≡ with_weights n total discount w g d }
{
    Numbers {
        total,
        discount,
        head: Head {
            total: w,
            numerator: g,
            denominator: d,
            ..n.head
        },
        ..n
    }
}

// (constant n)
pub fn constant(line: &[u8], number: u64, n: Numbers, names: &mut [u64]) -> Said
    requires { ForConstant line.now n names.old }
    ensures { ConstantSays line.now number n names.old result names.new }
{
    let next = events::next_event(line, events::first_word(Kind::Constant));
    let key = events::key_in(next.event);
    match declare::constant(names, n.counts, key) {
        Ok(counts) => Said {
            numbers: with_tables(n, counts, n.head),
            answer: Answer::Nothing,
        },
        Err(why) => Said {
            numbers: n,
            answer: Answer::Refused(why, number),
        },
    }
}

// (predicate n arity)
pub fn predicate(
    line: &[u8],
    number: u64,
    n: Numbers,
    names: &mut [u64],
    arities: &mut [u64],
) -> Said
    requires { ForPredicate line.now n names.old arities.old }
    ensures { PredicateSays line.now number n names.old arities.old result names.new arities.new }
{
    let first = events::next_event(line, events::first_word(Kind::Predicate));
    let key = events::key_in(first.event);
    let second = events::next_event(line, first.place);
    let arity = events::number_in(second.event);
    match declare::predicate(names, arities, n.counts, key, arity) {
        Ok(counts) => Said {
            numbers: with_tables(n, counts, n.head),
            answer: Answer::Nothing,
        },
        Err(why) => Said {
            numbers: n,
            answer: Answer::Refused(why, number),
        },
    }
}

// (total W)
pub fn total(line: &[u8], number: u64, n: Numbers) -> Said
    requires { first_word Total ≤ length line.now }
    ensures { TotalSays line.now number n result }
{
    let next = events::next_event(line, events::first_word(Kind::Total));
    let w = events::number_in(next.event);
    if declare::is_total(w) {
        return Said {
            numbers: with_weights(n, true, n.discount, w, n.head.numerator, n.head.denominator),
            answer: Answer::Nothing,
        };
    }
    Said {
        numbers: n,
        answer: Answer::Refused(Refusal::Range, number),
    }
}

// (discount G D)
pub fn discount(line: &[u8], number: u64, n: Numbers) -> Said
    requires { first_word Discount ≤ length line.now }
    ensures { DiscountSays line.now number n result }
{
    let first = events::next_event(line, events::first_word(Kind::Discount));
    let g = events::number_in(first.event);
    let second = events::next_event(line, first.place);
    let d = events::number_in(second.event);
    if declare::is_discount(g, d) {
        return Said {
            numbers: with_weights(n, n.total, true, n.head.total, g, d),
            answer: Answer::Nothing,
        };
    }
    Said {
        numbers: n,
        answer: Answer::Refused(Refusal::Range, number),
    }
}

// (action n !p ..): the working space takes the keys of the parameters.
pub fn action(
    line: &[u8],
    number: u64,
    n: Numbers,
    names: &mut [u64],
    table: &mut [u64],
    work: &mut [u64],
) -> Said
    requires { ForAction line.now n names.old table.old work.old }
    ensures { ActionSays line.now number n names.old table.old result names.new table.new }
{
    let next = events::next_event(line, events::first_word(Kind::Action));
    let key = events::key_in(next.event);
    match declare::action(names, n.counts, key, line, next.place, work) {
        Ok(counts) => {
            let head = model_entry::add_action(table, n.head, counts.parameters as u64);
            Said {
                numbers: with_tables(n, counts, head),
                answer: Answer::Nothing,
            }
        }
        Err(why) => Said {
            numbers: n,
            answer: Answer::Refused(why, number),
        },
    }
}
