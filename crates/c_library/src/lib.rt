// The engine's calls for C, over memory that the caller lends; include/yindolve.h describes them. Each answers 0, or the number of the refusal.
#![tactic(auto)]

ghost use Rattle.std.specs.Prelude.{◌≡◌, ◌&&◌, ◌≤◌, leb, length};
ghost use Rattle.diagram.specs.Words.{is_listing};
ghost use Rattle.apply.specs.declared.Operation.TheVariants.{Sum, Product, Max};
ghost use Rattle.apply.specs.declared.Names.TheVariants.{Apart, Shared};
ghost use Rattle.memory.specs.Memory.{memory_of, work_words};
ghost use Rattle.memory.specs.Saving.{number_words};
ghost use Rattle.answers.specs.Writing.{most_bytes};
ghost use Rattle.c_library.specs.Answers.{rows_number, rows_after, listing_number, edge_number, entry_number};
ghost use Rattle.c_library.specs.Calls.{Combines, Regresses, Frees, Cuts, Reduces, Values, Runs};
ghost use Rattle.c_library.specs.Inner.{position_at, put_end};
ghost use Rattle.c_library.specs.Sessions.{has_room, Opens, has_rooms, is_plain, can_answer, is_open, Replies, RepliesAll, can_close, Closes};

use apply::{Combined, Names, Operation};
use cutting::{Cut, Edge};
use label::Label;
use refusal::Refusal;
use texts::{Position, Ran};

// Whether the words are a listing under the arity list: 0, or 14.
#[unsafe(no_mangle)]
pub extern "C" fn yindolve_check(arities: &[u64], words: &[u64]) -> u64
    ensures { result ≡ listing_number (is_listing arities.now words.now) }
{
    if listing::check(arities, words) {
        return 0;
    }
    Refusal::Listing.number()
}

// A combination, its answer as numbers.
fn combined(
    op: Operation,
    names: Names,
    arities: &[u64],
    first: &[u64],
    second: &[u64],
    res: &mut [u64],
    work: &mut [u64],
    rows: &mut u64,
    pairs: &mut u64,
) -> u64
    ensures { Combines op names arities.now first.now second.now res.old work.old rows.old pairs.old result res.new rows.new pairs.new }
{
    match combination::combine(op, names, arities, first, second, res, work) {
        Combined::Done(n, p) => {
            *rows = n as u64;
            *pairs = p as u64;
            0
        }
        Combined::Refused(why) => why.number(),
    }
}

// The sum of two listings, names apart.
#[unsafe(no_mangle)]
pub extern "C" fn yindolve_sum_apart(
    arities: &[u64],
    first: &[u64],
    second: &[u64],
    res: &mut [u64],
    work: &mut [u64],
    rows: &mut u64,
    pairs: &mut u64,
) -> u64
    ensures { Combines Sum Apart arities.now first.now second.now res.old work.old rows.old pairs.old result res.new rows.new pairs.new }
{
    combined(
        Operation::Sum,
        Names::Apart,
        arities,
        first,
        second,
        res,
        work,
        rows,
        pairs,
    )
}

// The sum of two listings, names shared.
#[unsafe(no_mangle)]
pub extern "C" fn yindolve_sum_shared(
    arities: &[u64],
    first: &[u64],
    second: &[u64],
    res: &mut [u64],
    work: &mut [u64],
    rows: &mut u64,
    pairs: &mut u64,
) -> u64
    ensures { Combines Sum Shared arities.now first.now second.now res.old work.old rows.old pairs.old result res.new rows.new pairs.new }
{
    combined(
        Operation::Sum,
        Names::Shared,
        arities,
        first,
        second,
        res,
        work,
        rows,
        pairs,
    )
}

// The product of two listings, names apart.
#[unsafe(no_mangle)]
pub extern "C" fn yindolve_product_apart(
    arities: &[u64],
    first: &[u64],
    second: &[u64],
    res: &mut [u64],
    work: &mut [u64],
    rows: &mut u64,
    pairs: &mut u64,
) -> u64
    ensures { Combines Product Apart arities.now first.now second.now res.old work.old rows.old pairs.old result res.new rows.new pairs.new }
{
    combined(
        Operation::Product,
        Names::Apart,
        arities,
        first,
        second,
        res,
        work,
        rows,
        pairs,
    )
}

// The product of two listings, names shared.
#[unsafe(no_mangle)]
pub extern "C" fn yindolve_product_shared(
    arities: &[u64],
    first: &[u64],
    second: &[u64],
    res: &mut [u64],
    work: &mut [u64],
    rows: &mut u64,
    pairs: &mut u64,
) -> u64
    ensures { Combines Product Shared arities.now first.now second.now res.old work.old rows.old pairs.old result res.new rows.new pairs.new }
{
    combined(
        Operation::Product,
        Names::Shared,
        arities,
        first,
        second,
        res,
        work,
        rows,
        pairs,
    )
}

// The max of two listings, names apart.
#[unsafe(no_mangle)]
pub extern "C" fn yindolve_max_apart(
    arities: &[u64],
    first: &[u64],
    second: &[u64],
    res: &mut [u64],
    work: &mut [u64],
    rows: &mut u64,
    pairs: &mut u64,
) -> u64
    ensures { Combines Max Apart arities.now first.now second.now res.old work.old rows.old pairs.old result res.new rows.new pairs.new }
{
    combined(
        Operation::Max,
        Names::Apart,
        arities,
        first,
        second,
        res,
        work,
        rows,
        pairs,
    )
}

// The max of two listings, names shared.
#[unsafe(no_mangle)]
pub extern "C" fn yindolve_max_shared(
    arities: &[u64],
    first: &[u64],
    second: &[u64],
    res: &mut [u64],
    work: &mut [u64],
    rows: &mut u64,
    pairs: &mut u64,
) -> u64
    ensures { Combines Max Shared arities.now first.now second.now res.old work.old rows.old pairs.old result res.new rows.new pairs.new }
{
    combined(
        Operation::Max,
        Names::Shared,
        arities,
        first,
        second,
        res,
        work,
        rows,
        pairs,
    )
}

// What a call that leaves rows answers: 0, and how many these are; or its refusal, and the count stays.
fn told_rows(answer: Result<usize, Refusal>, rows: &mut u64) -> u64
    ensures number { result ≡ rows_number answer }
    ensures count { rows.new ≡ rows_after answer rows.old }
{
    match answer {
        Ok(n) => {
            *rows = n as u64;
            0
        }
        Err(why) => why.number(),
    }
}

// The regression of a value listing under truth diagrams.
#[unsafe(no_mangle)]
pub extern "C" fn yindolve_regress(
    arities: &[u64],
    words: &[u64],
    truths: &[u64],
    spans: &[u64],
    res: &mut [u64],
    work: &mut [u64],
    rows: &mut u64,
) -> u64
    ensures { Regresses arities.now words.now truths.now spans.now res.old work.old rows.old result res.new rows.new }
{
    let answer = regress::regress(arities, words, truths, spans, res, work);
    told_rows(answer, rows)
}

// Frees the parameters of an action that has `count` of them.
#[unsafe(no_mangle)]
pub extern "C" fn yindolve_free_parameters(
    arities: &[u64],
    words: &[u64],
    count: u64,
    res: &mut [u64],
    work: &[u64],
    rows: &mut u64,
) -> u64
    ensures { Frees arities.now words.now count res.old work.now rows.old result res.new rows.new }
{
    let answer = freeing::free(arities, words, count, res, work);
    told_rows(answer, rows)
}

// An edge as a number: 1 for the true edge, 0 for the false one.
fn edge_number(edge: Edge) -> u64
    ensures { result ≡ edge_number edge }
{
    match edge {
        Edge::True => 1,
        Edge::False => 0,
    }
}

// Cuts a listing once.
#[unsafe(no_mangle)]
pub extern "C" fn yindolve_cut(
    arities: &[u64],
    words: &[u64],
    res: &mut [u64],
    work: &mut [u64],
    row: &mut u64,
    edge: &mut u64,
    rows: &mut u64,
) -> u64
    ensures { Cuts arities.now words.now res.old work.old row.old edge.old rows.old result res.new row.new edge.new rows.new }
{
    match cut::cut(arities, words, res, work) {
        Cut::Done(k, e, n) => {
            *row = k as u64;
            *edge = edge_number(e);
            *rows = n as u64;
            0
        }
        Cut::Refused(why) => why.number(),
    }
}

// Reduces a listing by model checking.
#[unsafe(no_mangle)]
pub extern "C" fn yindolve_reduce(
    arities: &[u64],
    words: &[u64],
    res: &mut [u64],
    work: &mut [u64],
    rows: &mut u64,
) -> u64
    ensures { Reduces arities.now words.now res.old work.old rows.old result res.new rows.new }
{
    let answer = reduce::reduce(arities, words, res, work);
    told_rows(answer, rows)
}

// The value of a listing in a state of n objects.
#[unsafe(no_mangle)]
pub extern "C" fn yindolve_value(
    arities: &[u64],
    words: &[u64],
    objects: u64,
    constants: &[u64],
    facts: &[u64],
    value: &mut u64,
) -> u64
    ensures { Values arities.now words.now objects constants.now facts.now value.old result value.new }
{
    match valuing::value(arities, words, objects, constants, facts) {
        Ok(v) => {
            *value = v;
            0
        }
        Err(why) => why.number(),
    }
}

// The answers do not fit.
const FULL: u64 = 100;

// Answers a whole text.
#[unsafe(no_mangle)]
pub extern "C" fn yindolve_run(
    text: &[u8],
    answers: &mut [u8],
    bytes: &mut u64,
    lines: &mut u64,
) -> u64
    ensures { Runs text.now answers.old lines.old result answers.new bytes.new lines.new }
{
    match texts::run(text, answers) {
        Ran::Done(n) => {
            *bytes = n as u64;
            0
        }
        Ran::Full(n, k) => {
            *bytes = n as u64;
            *lines = k;
            FULL
        }
    }
}

// Whether lent words of these counts are enough for a session to open.
fn has_room(numbers: usize, arities: usize, state: usize) -> bool
    ensures { result ≡ has_room numbers arities state }
{
    if numbers < memory::NUMBER_WORDS {
        return false;
    }
    if arities != Label::PREDICATES {
        return false;
    }
    state == facts::WORDS
}

// Opens a session: before its first line.
#[unsafe(no_mangle)]
pub extern "C" fn yindolve_open(numbers: &mut [u64], arities: &mut [u64], state: &mut [u64]) -> u64
    ensures { Opens numbers.old arities.old state.old result numbers.new arities.new state.new }
{
    if !has_room(numbers.len(), arities.len(), state.len()) {
        return Refusal::Buffer.number();
    }
    let n = lines::open(arities, state);
    memory::store(numbers, n, 0, false);
    0
}

// The lines that a number counts.
const LINES: u64 = 18446744073709551615;

// Whether a working space and a buffer of these counts are enough to answer lines.
fn can_answer(work: usize, answer: usize) -> bool
    ensures { result ≡ (leb work_words work && leb most_bytes answer) }
{
    if work < texts::WORK_WORDS {
        return false;
    }
    answers::MOST_BYTES <= answer
}

// Whether lent words of these counts can be a session's.
fn has_rooms(
    numbers: usize,
    names: usize,
    arities: usize,
    listings: usize,
    table: usize,
    state: usize,
    value: usize,
) -> bool
    ensures { result ≡ has_rooms numbers names arities listings table state value }
{
    if numbers < memory::NUMBER_WORDS {
        return false;
    }
    if names != names::WORDS {
        return false;
    }
    if arities != Label::PREDICATES {
        return false;
    }
    if listings != model::LISTING_WORDS {
        return false;
    }
    if table != model::TABLE_WORDS {
        return false;
    }
    if state != facts::WORDS {
        return false;
    }
    value == diagram::RESULT_WORDS
}

// Whether the words of numbers that tell one of two things are 0 or 1.
fn is_plain(numbers: &[u64]) -> bool
    requires { number_words ≤ length numbers.now }
    ensures { result ≡ is_plain numbers.now }
{
    if numbers[0] > 1 {
        return false;
    }
    if numbers[1] > 1 {
        return false;
    }
    if numbers[2] > 1 {
        return false;
    }
    if numbers[3] > 1 {
        return false;
    }
    numbers[25] <= 1
}

// Whether words are a session's, which can count so many lines more.
fn is_open(
    numbers: &[u64],
    names: &[u64],
    arities: &[u64],
    listings: &[u64],
    table: &[u64],
    state: &[u64],
    value: &[u64],
    more: usize,
) -> bool
    ensures { result ≡ is_open numbers.now (memory_of names.now arities.now listings.now table.now state.now value.now) more }
{
    if !has_rooms(
        numbers.len(),
        names.len(),
        arities.len(),
        listings.len(),
        table.len(),
        state.len(),
        value.len(),
    ) {
        return false;
    }
    if !is_plain(numbers) {
        return false;
    }
    let n = memory::load(numbers);
    if !restoring::is_session(n, names, arities, listings, table, state, value) {
        return false;
    }
    memory::lines_of(numbers) <= LINES - (more as u64)
}

// The tests before lines are answered: 14, then 18.
fn enter(
    numbers: &[u64],
    names: &[u64],
    arities: &[u64],
    listings: &[u64],
    table: &[u64],
    state: &[u64],
    value: &[u64],
    work: &[u64],
    answer: &[u8],
    more: usize,
) -> u64
    ensures { result ≡ entry_number (is_open numbers.now (memory_of names.now arities.now listings.now table.now state.now value.now) more) (can_answer work.now answer.now) }
{
    if !is_open(numbers, names, arities, listings, table, state, value, more) {
        return Refusal::Listing.number();
    }
    if !can_answer(work.len(), answer.len()) {
        return Refusal::Buffer.number();
    }
    0
}

// How far a session is, its answers given away.
fn position(numbers: &[u64]) -> Position
    requires { number_words ≤ length numbers.now }
    ensures { result ≡ position_at numbers.now }
{
    Position {
        numbers: memory::load(numbers),
        lines: memory::lines_of(numbers),
        met: memory::met_of(numbers),
        end: 0,
    }
}

// The place behind an answer.
fn end_of(put: Option<usize>) -> u64
    ensures { result ≡ put_end put }
{
    match put {
        Some(end) => end as u64,
        None => 0,
    }
}

// Answers the next line of a session.
#[unsafe(no_mangle)]
pub extern "C" fn yindolve_line(
    line: &[u8],
    numbers: &mut [u64],
    names: &mut [u64],
    arities: &mut [u64],
    listings: &mut [u64],
    table: &mut [u64],
    state: &mut [u64],
    value: &mut [u64],
    work: &mut [u64],
    answer: &mut [u8],
    bytes: &mut u64,
) -> u64
    ensures { Replies line.now numbers.old (memory_of names.old arities.old listings.old table.old state.old value.old) work.old answer.old bytes.old result numbers.new (memory_of names.new arities.new listings.new table.new state.new value.new) answer.new bytes.new }
{
    let refusal = enter(
        numbers, names, arities, listings, table, state, value, work, answer, 1,
    );
    if refusal != 0 {
        return refusal;
    }
    let p = position(numbers);
    // In words from outside the index of the facts may be anything.
    facts::remake_index(arities, state, p.numbers.live);
    let number = p.lines + 1;
    let met = texts::met_behind(p.met, line);
    let sent = texts::reply_line(
        line, number, p.numbers, names, arities, listings, table, state, value, work, answer, 0,
    );
    memory::store(numbers, sent.numbers, number, met);
    *bytes = end_of(sent.put);
    0
}

// Answers the whole lines of a block, the next of a session.
#[unsafe(no_mangle)]
pub extern "C" fn yindolve_lines(
    block: &[u8],
    numbers: &mut [u64],
    names: &mut [u64],
    arities: &mut [u64],
    listings: &mut [u64],
    table: &mut [u64],
    state: &mut [u64],
    value: &mut [u64],
    work: &mut [u64],
    answers: &mut [u8],
    bytes: &mut u64,
    read: &mut u64,
) -> u64
    ensures { RepliesAll block.now numbers.old (memory_of names.old arities.old listings.old table.old state.old value.old) work.old answers.old bytes.old read.old result numbers.new (memory_of names.new arities.new listings.new table.new state.new value.new) answers.new bytes.new read.new }
{
    let refusal = enter(
        numbers,
        names,
        arities,
        listings,
        table,
        state,
        value,
        work,
        answers,
        block.len(),
    );
    if refusal != 0 {
        return refusal;
    }
    let first = position(numbers);
    // In words from outside the index of the facts may be anything.
    facts::remake_index(arities, state, first.numbers.live);
    let reached = texts::answer_whole(
        block,
        0,
        first,
        answers::MOST_BYTES,
        names,
        arities,
        listings,
        table,
        state,
        value,
        work,
        answers,
    );
    let p = reached.position;
    memory::store(numbers, p.numbers, p.lines, p.met);
    *bytes = p.end as u64;
    *read = reached.at as u64;
    0
}

// Whether numbers can be a session's.
fn can_close(numbers: &[u64]) -> bool
    ensures { result ≡ can_close numbers.now }
{
    if numbers.len() < memory::NUMBER_WORDS {
        return false;
    }
    is_plain(numbers)
}

// The closing answer of a session whose text ends here.
#[unsafe(no_mangle)]
pub extern "C" fn yindolve_end(numbers: &[u64], answer: &mut [u8], bytes: &mut u64) -> u64
    ensures { Closes numbers.now answer.old bytes.old result answer.new bytes.new }
{
    if !can_close(numbers) {
        return Refusal::Listing.number();
    }
    if answer.len() < answers::MOST_BYTES {
        return Refusal::Buffer.number();
    }
    let last = Position {
        numbers: memory::load(numbers),
        lines: 0,
        met: memory::met_of(numbers),
        end: 0,
    };
    match texts::end(0, last, answer) {
        Ran::Done(end) => {
            *bytes = end as u64;
            0
        }
        Ran::Full(_, _) => Refusal::Buffer.number(),
    }
}
