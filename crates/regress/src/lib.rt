// The regression call. What it is stands in regression.
#![tactic(auto)]

ghost use Rattle.std.specs.Prelude.{◌≡◌, true, ◌*◌, ◌≤◌, ◌<◌, length};
ghost use Rattle.diagram.specs.Listing.{diagram_of};
ghost use Rattle.regression.specs.RegressCall.{written_as, truths_of, regressed_as, regress_answer, regress_result};
ghost use Rattle.label.specs.Limits.{most_places};
ghost use Rattle.diagram.specs.Sizes.{most_pairs};
ghost use Rattle.diagram.specs.Validity.{tree};
ghost use Rattle.row_steps.specs.Running.{Ready, Ran};
ghost use Rattle.diagram.specs.Words.{is_listing};
ghost use Rattle.label.specs.Inner.{map_of};
ghost use Rattle.label.specs.Labels.{terms_of, unpacked};
ghost use Rattle.regression.specs.Regression.{argument, replacement, truth_at, regression, regressed};
ghost use Rattle.regress.specs.Tasks.{task_at, Taskable, task_run, Tasked, replaced_by, Mapping, told_as, used_places, Usable, Arguable, Argued};
ghost use Rattle.regress.specs.Regressing.{Regressable, Runnable, Regresses, Listable, held, RegressAnswered};
ghost use Rattle.regress.specs.Keeping.{formed_truth, Asking, slots, Keeps, KeptRan};
ghost use Rattle.truths.specs.TruthChecks.{Lent};

use label::{Label, Term, Test};
use refusal::Refusal;

// What a row of a lent listing asks for: a leaf with its value, or the row step of its label with the rows of its children's results.
#[derive(Clone, Copy)]
pub enum Task {
    Leaf(u64),
    Branch(u64, usize, usize),
}

// The task of row k of a listing; `numbers` has the rows of the results before it.
fn task_at(words: &[u64], numbers: &[u16], k: usize) -> Task
    requires { Taskable words.now numbers.now k }
    ensures { result ≡ task_at words.now numbers.now k }
{
    let l = words[k * 3];
    let t = words[k * 3 + 1];
    let f = words[k * 3 + 2] as usize;
    if l == Label::LEAF {
        return Task::Leaf(t);
    }
    let high = basics::wide(numbers[t as usize]);
    let low = basics::wide(numbers[f]);
    Task::Branch(l, high, low)
}

// The answer of forming, as that of a step.
fn told(f: Option<(usize, usize)>) -> Result<(usize, usize), (Refusal, usize)>
    ensures { result ≡ told_as f }
{
    f.ok_or((Refusal::Space, diagram::SPACE_ROWS))
}

// The result of a row of a replacement.
fn replaced_row(
    arities: &[u64],
    map: &[u64],
    task: Task,
    plan: &mut [u64],
    index: &mut [u16],
    limit: usize,
    space: &mut [u64],
    heads: &mut [u16],
    links: &mut [u16],
    count: usize,
) -> Result<(usize, usize), (Refusal, usize)>
    requires mapping { Mapping arities.now map.now }
    requires tasked { Tasked arities.now count task }
    requires ready { Ready plan.old index.old limit space.old heads.old links.old count }
    ensures { Ran limit (task_run (replaced_by arities.now map.now) space.old task) space.old count result space.new heads.new links.new index.new }
{
    match task {
        Task::Leaf(v) => told(store::leaf(space, heads, links, count, v)),
        Task::Branch(l, high, low) => {
            let test = Label { packed: l }.moved(arities, map);
            row_steps::test_step(
                plan, index, limit, space, heads, links, count, test, high, low,
            )
        }
    }
}

// A diagram with its terms replaced, built row by row.
fn replace(
    arities: &[u64],
    words: &[u64],
    map: &[u64],
    plan: &mut [u64],
    index: &mut [u16],
    limit: usize,
    space: &mut [u64],
    heads: &mut [u16],
    links: &mut [u16],
    count: usize,
) -> Result<(usize, usize), (Refusal, usize)>
    requires words_value { is_listing arities.now words.now ≡ true }
    requires mapping { Mapping arities.now map.now }
    requires ready { Ready plan.old index.old limit space.old heads.old links.old count }
    ensures { Ran limit (replacement arities.now (map_of map.now) (diagram_of words.now)) space.old count result space.new heads.new links.new index.new }
{
    let mut numbers = [0u16; diagram::ROWS];
    let m = words.len() / 3;
    let mut n = count;
    let mut root = 0;
    for k in 0..m {
        let task = task_at(words, &numbers, k);
        (root, n) = replaced_row(
            arities, map, task, plan, index, limit, space, heads, links, n,
        )?;
        numbers[k] = root as u16;
    }
    Ok((root, n))
}

// What replaces the term t, where the arguments of a predicate of arity n become the terms of a label.
fn argument_term(label: u64, n: u64, t: u64) -> u64
    requires { n ≤ most_places }
    ensures { result ≡ argument (used_places n (unpacked label)) t }
{
    if t < Term::FIRST_VARIABLE {
        return t;
    }
    let k = t - Term::FIRST_VARIABLE;
    if k >= n {
        return 0;
    }
    Label { packed: label }.place(k)
}

// Writes the map that turns the arguments of a label's predicate into its terms.
fn argument_map(arities: &[u64], label: u64, map: &mut [u64])
    requires { Arguable arities.now label map.old }
    ensures { Argued arities.now label map.new }
{
    let p = Label { packed: label }.predicate() as usize;
    let n = arities[p];
    for t in 0..Term::END {
        map[t as usize] = argument_term(label, n, t);
    }
}

// A truth diagram with its arguments replaced by the terms of a label.
fn replace_arguments(
    arities: &[u64],
    words: &[u64],
    label: u64,
    plan: &mut [u64],
    index: &mut [u16],
    limit: usize,
    space: &mut [u64],
    heads: &mut [u16],
    links: &mut [u16],
    count: usize,
) -> Result<(usize, usize), (Refusal, usize)>
    requires usable { Usable arities.now words.now label }
    requires ready { Ready plan.old index.old limit space.old heads.old links.old count }
    ensures { Ran limit (replacement arities.now (argument (terms_of arities.now (unpacked label))) (diagram_of words.now)) space.old count result space.new heads.new links.new index.new }
{
    let mut map = [0u64; Term::END as usize];
    argument_map(arities, label, &mut map);
    replace(
        arities, words, &map, plan, index, limit, space, heads, links, count,
    )
}

// Forms T for a label: its truth diagram with the arguments replaced; a predicate without one, and equality, stay.
fn form_truth(
    arities: &[u64],
    truths: &[u64],
    spans: &[u64],
    label: u64,
    plan: &mut [u64],
    index: &mut [u16],
    limit: usize,
    space: &mut [u64],
    heads: &mut [u16],
    links: &mut [u16],
    count: usize,
) -> Result<(usize, usize), (Refusal, usize)>
    requires asking { Asking arities.now truths.now spans.now label }
    requires ready { Ready plan.old index.old limit space.old heads.old links.old count }
    ensures { Ran limit (formed_truth arities.now (truths_of truths.now spans.now) label) space.old count result space.new heads.new links.new index.new }
{
    let p = Label { packed: label }.predicate() as usize;
    if truths::has_truth(spans, p) {
        let words = truths::truth_words(truths, spans, p);
        return replace_arguments(
            arities, words, label, plan, index, limit, space, heads, links, count,
        );
    }
    told(row_steps::form_test(
        space,
        heads,
        links,
        count,
        Test::Is(Label { packed: label }),
    ))
}

// Slots in which T is kept by its label.
const SLOTS: usize = 1024;

// A slot has its label times this, and the row of T.
const SLOT_BASE: u64 = diagram::SPACE_ROWS as u64;

// Half of a word.
const HALF: u64 = 4294967296;

// The slot of a label. Both halves count: labels of few places differ in their upper halves.
fn slot(label: u64) -> usize
    ensures { result < slots }
{
    let x = (label / HALF % HALF * 40503 + label % HALF * 36013) % HALF;
    ((x * 2654435769 / 4194304) as usize) % SLOTS
}

// T for a label, kept for a label that occurs again.
fn kept_truth(
    arities: &[u64],
    truths: &[u64],
    spans: &[u64],
    label: u64,
    kept: &mut [u64],
    plan: &mut [u64],
    index: &mut [u16],
    limit: usize,
    space: &mut [u64],
    heads: &mut [u16],
    links: &mut [u16],
    count: usize,
) -> Result<(usize, usize), (Refusal, usize)>
    requires asking { Asking arities.now truths.now spans.now label }
    requires ready { Ready plan.old index.old limit space.old heads.old links.old count }
    requires keeps { Keeps arities.now (truths_of truths.now spans.now) space.old count kept.old }
    ensures { KeptRan limit arities.now (truths_of truths.now spans.now) (formed_truth arities.now (truths_of truths.now spans.now) label) space.old count result space.new heads.new links.new index.new kept.new }
{
    let h = slot(label);
    let e = kept[h];
    if e / SLOT_BASE == label {
        return Ok(((e % SLOT_BASE) as usize, count));
    }
    let (i, n) = form_truth(
        arities, truths, spans, label, plan, index, limit, space, heads, links, count,
    )?;
    kept[h] = label * SLOT_BASE + i as u64;
    Ok((i, n))
}

// The result of a row of the value listing.
fn regressed_row(
    arities: &[u64],
    truths: &[u64],
    spans: &[u64],
    task: Task,
    kept: &mut [u64],
    plan: &mut [u64],
    index: &mut [u16],
    limit: usize,
    space: &mut [u64],
    heads: &mut [u16],
    links: &mut [u16],
    count: usize,
) -> Result<(usize, usize), (Refusal, usize)>
    requires lent { Lent arities.now truths.now spans.now }
    requires tasked { Tasked arities.now count task }
    requires ready { Ready plan.old index.old limit space.old heads.old links.old count }
    requires keeps { Keeps arities.now (truths_of truths.now spans.now) space.old count kept.old }
    ensures { KeptRan limit arities.now (truths_of truths.now spans.now) (task_run (truth_at arities.now (truths_of truths.now spans.now)) space.old task) space.old count result space.new heads.new links.new index.new kept.new }
{
    match task {
        Task::Leaf(v) => told(store::leaf(space, heads, links, count, v)),
        Task::Branch(l, high, low) => {
            let (test, n) = kept_truth(
                arities, truths, spans, l, kept, plan, index, limit, space, heads, links, count,
            )?;
            row_steps::row_step(plan, index, limit, space, heads, links, n, test, high, low)
        }
    }
}

// The regression of a value listing in an empty space, row by row.
fn regress_rows(
    arities: &[u64],
    value: &[u64],
    truths: &[u64],
    spans: &[u64],
    plan: &mut [u64],
    index: &mut [u16],
    limit: usize,
    space: &mut [u64],
    heads: &mut [u16],
    links: &mut [u16],
) -> Result<(usize, usize), (Refusal, usize)>
    requires value_value { is_listing arities.now value.now ≡ true }
    requires lent { Lent arities.now truths.now spans.now }
    requires ready { Ready plan.old index.old limit space.old heads.old links.old 0 }
    ensures { Ran limit (regression arities.now (truths_of truths.now spans.now) (diagram_of value.now)) space.old 0 result space.new heads.new links.new index.new }
{
    let mut kept = [0u64; SLOTS];
    let mut numbers = [0u16; diagram::ROWS];
    let m = value.len() / 3;
    let mut n = 0;
    let mut root = 0;
    for k in 0..m {
        let task = task_at(value, &numbers, k);
        (root, n) = regressed_row(
            arities, truths, spans, task, &mut kept, plan, index, limit, space, heads, links, n,
        )?;
        numbers[k] = root as u16;
    }
    Ok((root, n))
}

// Writes the listing of the row `root`, unless its rows are too many.
fn list_result(space: &[u64], count: usize, root: usize, out: &mut [u64]) -> Result<usize, Refusal>
    requires { Listable space.now count root out.old }
    ensures { RegressAnswered (held (tree space.now root)) result out.old out.new }
{
    let mut marks = [0u16; diagram::SPACE_ROWS];
    let mut order = [0u16; diagram::SPACE_ROWS];
    write::write(space, count, root, &mut marks, &mut order, out).ok_or(Refusal::Space)
}

// The regression of a value listing in an empty space, with room for `limit` pairs in a plan of that many words.
fn regress_in<const WORDS: usize>(
    arities: &[u64],
    value: &[u64],
    truths: &[u64],
    spans: &[u64],
    limit: usize,
    work: &mut [u64],
) -> Result<(usize, usize), (Refusal, usize)>
    requires runnable { Runnable arities.now value.now truths.now spans.now work.old }
    requires room { limit * 5 ≤ WORDS }
    requires words_le_most { WORDS ≤ most_pairs * 5 }
    ensures { Regresses limit (regression arities.now (truths_of truths.now spans.now) (diagram_of value.now)) result work.new }
{
    let mut plan = [0u64; WORDS];
    let mut index = [0u16; plan::BUCKETS];
    let mut heads = [0u16; table::BUCKETS];
    let mut links = [0u16; diagram::SPACE_ROWS];
    regress_rows(
        arities, value, truths, spans, &mut plan, &mut index, limit, work, &mut heads, &mut links,
    )
}

// The same, with room for all pairs that a step may have.
fn regress_many(
    arities: &[u64],
    value: &[u64],
    truths: &[u64],
    spans: &[u64],
    work: &mut [u64],
) -> Result<(usize, usize), (Refusal, usize)>
    requires { Runnable arities.now value.now truths.now spans.now work.old }
    ensures { Regresses most_pairs (regression arities.now (truths_of truths.now spans.now) (diagram_of value.now)) result work.new }
{
    regress_in::<{ combine::PLAN_WORDS }>(arities, value, truths, spans, diagram::PAIRS, work)
}

// Values of more rows are run with room for all pairs at once: they mostly have a step of more than few.
const FEW_ROWS: usize = 64;

// The same, with room for few pairs first, which suffices for most values; where a step has more, all is run again with room for all.
fn regress_space(
    arities: &[u64],
    value: &[u64],
    truths: &[u64],
    spans: &[u64],
    work: &mut [u64],
) -> Result<(usize, usize), (Refusal, usize)>
    requires { Runnable arities.now value.now truths.now spans.now work.old }
    ensures { Regresses most_pairs (regression arities.now (truths_of truths.now spans.now) (diagram_of value.now)) result work.new }
{
    if value.len() / 3 > FEW_ROWS {
        return regress_many(arities, value, truths, spans, work);
    }
    let r = regress_in::<{ combine::FEW_WORDS }>(arities, value, truths, spans, combine::FEW, work);
    if row_steps::is_crowded(r) {
        return regress_many(arities, value, truths, spans, work);
    }
    r
}

// The regression of a value listing under truth diagrams, all of them known to be listings, written to `out`; `work` is the working space.
pub fn regress_checked(
    arities: &[u64],
    value: &[u64],
    truths: &[u64],
    spans: &[u64],
    out: &mut [u64],
    work: &mut [u64],
) -> Result<usize, Refusal>
    requires { Regressable arities.now value.now truths.now spans.now out.old work.old }
    ensures value { result ≡ regressed_as (regressed arities.now (truths_of truths.now spans.now) (diagram_of value.now)) }
    ensures out_after { out.new ≡ written_as (regressed arities.now (truths_of truths.now spans.now) (diagram_of value.now)) out.old }
{
    let r = regress_space(arities, value, truths, spans, work);
    match r {
        Ok((root, n)) => list_result(work, n, root, out),
        Err((w, _)) => Err(w),
    }
}

// The regression of a value listing under lent truth diagrams, written to `out`; `work` is the working space. Predicate p has words p * 2 and p * 2 + 1 of
// `spans`: where its truth diagram begins in `truths`, and how many words it has, 0 for none. Refused: 14 by operand, 18, then 7 and 6 by truth diagram, then
// 10, 11, 9.
pub fn regress(
    arities: &[u64],
    value: &[u64],
    truths: &[u64],
    spans: &[u64],
    out: &mut [u64],
    work: &mut [u64],
) -> Result<usize, Refusal>
    ensures value { result ≡ regress_answer arities.now value.now truths.now spans.now (length out.old) (length work.old) }
    ensures out_after { out.new ≡ regress_result arities.now value.now truths.now spans.now (length work.old) out.old }
{
    if !listing::check(arities, value) {
        return Err(Refusal::Listing);
    }
    if !truths::are_listed(arities, truths, spans) {
        return Err(Refusal::Listing);
    }
    if out.len() < diagram::RESULT_WORDS {
        return Err(Refusal::Buffer);
    }
    if work.len() < diagram::SPACE_WORDS {
        return Err(Refusal::Buffer);
    }
    truths::judge_all(arities, truths, spans)?;
    regress_checked(arities, value, truths, spans, out, work)
}
