// (start), (value), (backup), (cut), (reduce), (show) and (text): from a line that stands where it may to the session behind it and its answer. What they are stands in
// crate session, specs/Running and specs/Replies.
#![tactic(auto)]

ghost use Rattle.std.specs.Prelude.{◌≡◌};
ghost use Rattle.planner.specs.Inner.{ReplaceTask};
ghost use Rattle.run_lines.specs.Lines.{running_with, StartTask, ValueTask, BackupTask, TextTask};
ghost use Rattle.run_lines.specs.Lines.{StartAnswered, ValueAnswered, BackupAnswered, CutAnswered, ReduceAnswered, ShowAnswered, TextAnswered};

use answers::Answer;
use cutting::Cut;
use memory::{Numbers, Said};
use planner::RunNumbers;
use refusal::Refusal;
use session::Part;

// The numbers once the run holds `held`.
fn running(n: Numbers, held: RunNumbers) -> Numbers
    ensures { result ≡ running_with n held }
{
    Numbers {
        part: Part::Run,
        held,
        ..n
    }
}

// (start): nothing, or the refusal of the sums of weights; the value is then the reward, and k is 0.
pub fn start(
    number: u64,
    n: Numbers,
    arities: &[u64],
    listings: &[u64],
    table: &[u64],
    value: &mut [u64],
    work: &mut [u64],
) -> Said
    requires { StartTask n arities.now listings.now table.now value.old work.old }
    ensures { StartAnswered number n arities.now listings.now table.now value.old result value.new }
{
    match weights::weigh(arities, listings, table, n.head, work) {
        Ok(()) => {
            let rows = planner::take_reward(listings, n.head, value);
            let first = RunNumbers {
                rows,
                steps: 0,
                power: 1,
            };
            Said {
                numbers: running(n, first),
                answer: Answer::Nothing,
            }
        }
        Err(why) => Said {
            numbers: n,
            answer: Answer::Refused(why, number),
        },
    }
}

// (value): the value in the state, k and S^k, or the refusal.
pub fn value(
    number: u64,
    n: Numbers,
    arities: &[u64],
    state: &[u64],
    value: &[u64],
    work: &mut [u64],
) -> Said
    requires { ValueTask n arities.now state.now value.now work.old }
    ensures { ValueAnswered number n arities.now state.now value.now result }
{
    let end = facts::FACTS_BASE + n.live.facts * facts::FACT_WORDS;
    let v = valuing::value_indexed(
        arities,
        &value[..n.held.rows * 3],
        n.live.objects,
        &state[..facts::PLACED],
        &state[facts::FACTS_BASE..end],
        &state[facts::INDEX_BASE..facts::WORDS],
        work,
    );
    match v {
        Ok(x) => Said {
            numbers: n,
            answer: Answer::Value(x, n.held.steps, n.held.power),
        },
        Err(why) => Said {
            numbers: n,
            answer: Answer::Refused(why, number),
        },
    }
}

// (backup): k and the rows of the next value, or the refusal.
pub fn backup(
    number: u64,
    n: Numbers,
    arities: &[u64],
    listings: &[u64],
    table: &[u64],
    value: &mut [u64],
    work: &mut [u64],
) -> Said
    requires { BackupTask n arities.now listings.now table.now value.old work.old }
    ensures { BackupAnswered number n arities.now listings.now table.now value.old result value.new }
{
    let held = n.held;
    let r = planner::backup(
        arities, listings, table, n.head, held.steps, held.power, value, held.rows, work,
    );
    match r {
        Ok((rows, power)) => {
            let steps = held.steps + 1;
            let next = RunNumbers { rows, steps, power };
            Said {
                numbers: running(n, next),
                answer: Answer::Backup(steps, rows),
            }
        }
        Err(why) => Said {
            numbers: n,
            answer: Answer::Refused(why, number),
        },
    }
}

// (cut): the cut row, its edge and the rows left, or the refusal; k stays.
pub fn cut(number: u64, n: Numbers, arities: &[u64], value: &mut [u64], work: &mut [u64]) -> Said
    requires { ReplaceTask arities.now n.held value.old work.old }
    ensures { CutAnswered number n arities.now value.old result value.new }
{
    let mut left = [0u64; diagram::RESULT_WORDS];
    let r = cut::cut_checked(arities, &value[..n.held.rows * 3], &mut left, work);
    match r {
        Cut::Done(k, edge, m) => {
            write::copy(&left, m, value);
            let next = RunNumbers { rows: m, ..n.held };
            Said {
                numbers: running(n, next),
                answer: Answer::Cut(k, edge, m),
            }
        }
        Cut::Refused(why) => Said {
            numbers: n,
            answer: Answer::Refused(why, number),
        },
    }
}

// (reduce): the rows left, or the refusal; k stays.
pub fn reduce(number: u64, n: Numbers, arities: &[u64], value: &mut [u64], work: &mut [u64]) -> Said
    requires { ReplaceTask arities.now n.held value.old work.old }
    ensures { ReduceAnswered number n arities.now value.old result value.new }
{
    let mut left = [0u64; diagram::RESULT_WORDS];
    let r = reduce::reduce_checked(arities, &value[..n.held.rows * 3], &mut left, work);
    match r {
        Ok(m) => {
            write::copy(&left, m, value);
            let next = RunNumbers { rows: m, ..n.held };
            Said {
                numbers: running(n, next),
                answer: Answer::Reduce(m),
            }
        }
        Err(why) => Said {
            numbers: n,
            answer: Answer::Refused(why, number),
        },
    }
}

// (show): the rows of the value's listing.
pub fn show(n: Numbers) -> Said
    ensures { ShowAnswered n result }
{
    Said {
        numbers: n,
        answer: Answer::Show(n.held.rows),
    }
}

// (text): the bytes of the value as a form, or 19.
pub fn text(number: u64, n: Numbers, names: &[u64], arities: &[u64], value: &[u64]) -> Said
    requires { TextTask n names.now arities.now value.now }
    ensures { TextAnswered number n names.now arities.now value.now result }
{
    let m = spelling::measure(
        arities,
        names,
        n.counts.constants,
        n.counts.predicates,
        &value[..n.held.rows * 3],
    );
    match m {
        Some(bytes) => Said {
            numbers: n,
            answer: Answer::Text(bytes),
        },
        None => Said {
            numbers: n,
            answer: Answer::Refused(Refusal::Length, number),
        },
    }
}
