// Lines of the state: from the bytes of a line that stands where it may to the session behind it and the answer.
#![tactic(auto)]

ghost use Rattle.state_lines.specs.Lines.{ForObjects, ObjectsSays, ForIs, IsSays, ForTrue, TrueSays};

use answers::Answer;
use memory::{Numbers, Said};
use text::Kind;

// (objects n)
pub fn objects(line: &[u8], number: u64, n: Numbers, arities: &[u64], state: &mut [u64]) -> Said
    requires { ForObjects line.now n arities.now state.old }
    ensures { ObjectsSays line.now number n arities.now state.old result state.new }
{
    let next = events::next_event(line, events::first_word(Kind::Objects));
    let count = events::number_in(next.event);
    match facts::objects(arities, state, n.live, count) {
        Ok(live) => Said {
            numbers: memory::with_state(n, live),
            answer: Answer::Nothing,
        },
        Err(why) => Said {
            numbers: n,
            answer: Answer::Refused(why, number),
        },
    }
}

// (is c o)
pub fn is(line: &[u8], number: u64, n: Numbers, names: &[u64], state: &mut [u64]) -> Said
    requires { ForIs line.now n names.now state.old }
    ensures { IsSays line.now number n names.now state.old result state.new }
{
    let first = events::next_event(line, events::first_word(Kind::Is));
    let key = events::key_in(first.event);
    let second = events::next_event(line, first.place);
    let object = events::number_in(second.event);
    match facts::place(names, n.counts, state, n.live, key, object) {
        Ok(live) => Said {
            numbers: memory::with_state(n, live),
            answer: Answer::Nothing,
        },
        Err(why) => Said {
            numbers: n,
            answer: Answer::Refused(why, number),
        },
    }
}

// (true p o ..)
pub fn tell(
    line: &[u8],
    number: u64,
    n: Numbers,
    names: &[u64],
    arities: &[u64],
    state: &mut [u64],
) -> Said
    requires { ForTrue line.now n names.now arities.now state.old }
    ensures { TrueSays line.now number n names.now arities.now state.old result state.new }
{
    let next = events::next_event(line, events::first_word(Kind::True));
    let key = events::key_in(next.event);
    let mut row = [0u64; facts::FACT_WORDS];
    let objects = facts::read_tuple(line, next.place, n.live.objects, &mut row);
    match facts::tell(
        arities, names, n.counts, state, n.live, key, objects, &mut row,
    ) {
        Ok(live) => Said {
            numbers: memory::with_state(n, live),
            answer: Answer::Nothing,
        },
        Err(why) => Said {
            numbers: n,
            answer: Answer::Refused(why, number),
        },
    }
}
