// Whole texts: answered in a lent buffer, or while they are read. What their answers are stands in crate session and in specs/.
#![tactic(auto)]

ghost use Rattle.std.specs.Prelude.{◌≡◌, ◌||◌, List, ◌∷◌, ℕ, ◌+◌, ◌-◌, ◌<◌, ◌≤◌, length, take, drop};
ghost use Rattle.answers.specs.declared.Answer.TheVariants.{Refused};
ghost use Rattle.answers.specs.Answers.{answer_line};
ghost use Rattle.answers.specs.Inner.{Placed};
ghost use Rattle.answers.specs.Writing.{most_bytes};
ghost use Rattle.session.specs.Texts.{has_bytes, unfinished};
ghost use Rattle.memory.specs.Inner.{Carried, Kept};
ghost use Rattle.memory.specs.Memory.{Memory, memory_of, Rooms, work_words};
ghost use Rattle.label.specs.Limits.{predicate_count};
ghost use Rattle.facts.specs.Words.{state_words};
ghost use Rattle.texts.specs.Ends.{line_length};
ghost use Rattle.texts.specs.Inner.{filled_behind, Sends, progress_of, Going, Starts, rest_by, Keeps, Answerable, Reaches, CarriedOver, whole_of, next_end, behind_reply, Steps, Ending};
ghost use Rattle.texts.specs.Running.{fill_closing, fill_rest, filled, Fills};
ghost use Rattle.spelling.specs.Spelling.{form_line};
ghost use Rattle.texts.specs.Putting.{tables_in, value_in, answer_in, Form, Puttable};
ghost use Rattle.texts.specs.Sending.{most_lines};

use answering::Printed;
use answers::Answer;
use label::Label;
use memory::Numbers;
use refusal::Refusal;
use session::Part;

// Words of working space for a session.
pub const WORK_WORDS: usize = diagram::SPACE_WORDS;

// The bytes of a line that are kept: one more than a line may have.
pub const LINE_ROOM: usize = 4096;

// What a text is answered in a buffer: the bytes of all answers; or the bytes written and the lines answered before the line whose answer has no room.
#[derive(Clone, Copy)]
pub enum Ran {
    Done(usize),
    Full(usize, u64),
}

// The numbers behind a line, and the place behind its answer, if that has room.
#[derive(Clone, Copy)]
pub struct Sent {
    pub numbers: Numbers,
    pub put: Option<usize>,
}

// How far a text is read: the session's numbers, the lines answered, whether one of them had bytes, and the bytes of their answers.
#[derive(Clone, Copy)]
pub struct Position {
    pub numbers: Numbers,
    pub lines: u64,
    pub met: bool,
    pub end: usize,
}

// How far the lines of a block are answered: the place behind the last of them, the position, and whether the answer of the next has no room.
#[derive(Clone, Copy)]
pub struct Answered {
    pub at: usize,
    pub position: Position,
    pub full: bool,
}

// The bytes that are left of a block, and whether there is a whole line among them.
#[derive(Clone, Copy)]
pub struct Rest {
    pub count: usize,
    pub whole: bool,
}

// The place of the first line feed from a place on, or behind the last byte.
fn line_end(text: &[u8], at: usize) -> usize
    ensures { result ≡ at + line_length (drop at text.now) }
{
    for i in at..text.len() {
        if text[i] == b'\n' {
            return i;
        }
    }
    at.max(text.len())
}

// Puts the value as a form of so many bytes, and a line feed behind it, if there is room.
fn put_value(
    out: &mut [u8],
    at: usize,
    bytes: usize,
    n: Numbers,
    names: &[u64],
    arities: &[u64],
    value: &[u64],
) -> Option<usize>
    requires { Form bytes n names.now arities.now value.now }
    ensures { Placed out.old at (form_line arities.now (tables_in n names.now) (value_in n value.now)) result out.new }
{
    spelling::put_form(
        out,
        at,
        arities,
        names,
        n.counts.constants,
        n.counts.predicates,
        &value[..n.held.rows * 3],
        bytes,
    )
}

// Puts an answer's bytes at a place, if there is room; names, arities and value are the session's, for rows and forms, and a spread begins the working space.
fn put_reply(
    out: &mut [u8],
    at: usize,
    answer: Answer,
    n: Numbers,
    names: &[u64],
    arities: &[u64],
    value: &[u64],
    work: &[u64],
) -> Option<usize>
    requires { Puttable answer n names.now arities.now value.now work.now }
    ensures placed { Placed out.old at (answer_in answer n names.now arities.now value.now work.now) result out.new }
    ensures work_len_bound { length (answer_in answer n names.now arities.now value.now work.now) ≤ most_bytes }
{
    match answering::printed_by(answer) {
        Printed::Rows(rows) => answering::put_rows(out, at, value, rows),
        Printed::Form(bytes) => put_value(out, at, bytes, n, names, arities, value),
        Printed::Counts(lines) => answering::put_counts(out, at, work, lines),
        Printed::Line => answering::put_answer(out, at, answer),
    }
}

// Answers a line, and puts the answer's bytes at a place, if there is room.
pub fn reply_line(
    line: &[u8],
    number: u64,
    n: Numbers,
    names: &mut [u64],
    arities: &mut [u64],
    listings: &mut [u64],
    table: &mut [u64],
    state: &mut [u64],
    value: &mut [u64],
    work: &mut [u64],
    out: &mut [u8],
    at: usize,
) -> Sent
    requires kept { Kept n (memory_of names.old arities.old listings.old table.old state.old value.old) }
    requires work_words_in_bounds { work_words ≤ length work.old }
    ensures { Sends line.now number n (memory_of names.old arities.old listings.old table.old state.old value.old) out.old at result (memory_of names.new arities.new listings.new table.new state.new value.new) out.new }
{
    let said = lines::answer(
        line, number, n, names, arities, listings, table, state, value, work,
    );
    let put = put_reply(
        out,
        at,
        said.answer,
        said.numbers,
        names,
        arities,
        value,
        work,
    );
    Sent {
        numbers: said.numbers,
        put,
    }
}

// Whether a line with bytes is met, now or before.
pub fn met_behind(met: bool, line: &[u8]) -> bool
    ensures { result ≡ (met || has_bytes line.now) }
{
    met || line.len() != 0
}

// Where a reply leads: behind its line, or to that line again, if its answer has no room.
fn behind_reply(sent: Sent, number: u64, met: bool, next: usize, r: Answered) -> Answered
    ensures { result ≡ behind_reply sent.put sent.numbers number met next r }
{
    let numbers = sent.numbers;
    match sent.put {
        Some(end) => Answered {
            at: next,
            position: Position {
                numbers,
                lines: number,
                met,
                end,
            },
            full: false,
        },
        None => Answered {
            at: r.at,
            position: Position {
                numbers,
                ..r.position
            },
            full: true,
        },
    }
}

// Answers the next line, behind the answers before it.
fn next_line(
    line: &[u8],
    next: usize,
    r: Answered,
    names: &mut [u64],
    arities: &mut [u64],
    listings: &mut [u64],
    table: &mut [u64],
    state: &mut [u64],
    value: &mut [u64],
    work: &mut [u64],
    out: &mut [u8],
) -> Answered
    requires going { Going r.position (memory_of names.old arities.old listings.old table.old state.old value.old) out.old }
    requires lines_lt_most_lines { r.position.lines < most_lines }
    requires work_words_in_bounds { work_words ≤ length work.old }
    ensures steps { Steps line.now next r (progress_of r.position (memory_of names.old arities.old listings.old table.old state.old value.old) out.old) out.old result (memory_of names.new arities.new listings.new table.new state.new value.new) out.new }
    ensures carried { Carried r.position.numbers (memory_of names.old arities.old listings.old table.old state.old value.old) result.position.numbers (memory_of names.new arities.new listings.new table.new state.new value.new) }
{
    let p = r.position;
    let number = p.lines + 1;
    let met = met_behind(p.met, line);
    let sent = reply_line(
        line, number, p.numbers, names, arities, listings, table, state, value, work, out, p.end,
    );
    behind_reply(sent, number, met, next, r)
}

// Where the next line ends that is to be answered; behind the last byte, if no line feed is left, too few bytes of the buffer are free or an answer had no
// room.
fn next_end(block: &[u8], r: Answered, free: usize, room: usize) -> usize
    requires { r.position.end ≤ room }
    ensures { result ≡ next_end block.now r free room }
{
    if r.full {
        return block.len();
    }
    if room - r.position.end < free {
        return block.len();
    }
    line_end(block, r.at)
}

// Answers the whole lines of a block from a place on, as long as so many bytes of the buffer are free.
pub fn answer_whole(
    block: &[u8],
    from: usize,
    first: Position,
    free: usize,
    names: &mut [u64],
    arities: &mut [u64],
    listings: &mut [u64],
    table: &mut [u64],
    state: &mut [u64],
    value: &mut [u64],
    work: &mut [u64],
    out: &mut [u8],
) -> Answered
    requires { Answerable block.now from first (memory_of names.old arities.old listings.old table.old state.old value.old) work.old out.old }
    ensures reaches { Reaches block.now from free (progress_of first (memory_of names.old arities.old listings.old table.old state.old value.old) out.old) (whole_of block.now from free (progress_of first (memory_of names.old arities.old listings.old table.old state.old value.old) out.old) out.old) out.old result (memory_of names.new arities.new listings.new table.new state.new value.new) out.new }
    ensures carried_over { CarriedOver block.now from free (progress_of first (memory_of names.old arities.old listings.old table.old state.old value.old) out.old) first (memory_of names.old arities.old listings.old table.old state.old value.old) out.old result (memory_of names.new arities.new listings.new table.new state.new value.new) }
{
    let room = out.len();
    let mut r = Answered {
        at: from,
        position: first,
        full: false,
    };
    let mut end = next_end(block, r, free, room);
    while end < block.len() {
        let next = end + 1;
        r = next_line(
            &block[r.at..end],
            next,
            r,
            names,
            arities,
            listings,
            table,
            state,
            value,
            work,
            out,
        );
        end = next_end(block, r, free, room);
    }
    r
}

// Puts a refusal's line at a place, if there is room.
fn put_refusal(out: &mut [u8], at: usize, why: Refusal, number: u64) -> Option<usize>
    ensures { Placed out.old at (answer_line (Refused why number)) result out.new }
{
    answering::put_answer(out, at, Answer::Refused(why, number))
}

// Whether a text that ends is refused: no (start) was accepted, and a line with bytes was met.
fn is_unfinished(part: Part, met: bool) -> bool
    ensures { result ≡ unfinished part met }
{
    match part {
        Part::Model => met,
        Part::Run => false,
    }
}

// The end of a text behind its last line: one that is unfinished is refused.
fn close(p: Position, out: &mut [u8]) -> Ran
    requires { p.end ≤ length out.old }
    ensures { (w : Memory) → Fills (fill_closing (length out.old) (progress_of p w out.old)) out.old result out.new }
{
    if !is_unfinished(p.numbers.part, p.met) {
        return Ran::Done(p.end);
    }
    match put_refusal(out, p.end, Refusal::Place, 0) {
        Some(end) => Ran::Done(end),
        None => Ran::Full(p.end, p.lines),
    }
}

// The end of a text with a last line that no line feed ends: it is refused.
fn close_rest(p: Position, out: &mut [u8]) -> Ran
    requires end_in_bounds { p.end ≤ length out.old }
    requires lines_lt_most_lines { p.lines < most_lines }
    ensures { (w : Memory) (b : ℕ) (s : List ℕ) → Fills (fill_rest (length out.old) (progress_of p w out.old) (b ∷ s)) out.old result out.new }
{
    let number = p.lines + 1;
    let Some(end) = put_refusal(out, p.end, Refusal::Form, number) else {
        return Ran::Full(p.end, p.lines);
    };
    let last = Position {
        lines: number,
        met: true,
        end,
        ..p
    };
    close(last, out)
}

// The end of a text that came in blocks, of whose last line so many bytes are kept.
pub fn end(count: usize, p: Position, out: &mut [u8]) -> Ran
    requires end_in_bounds { p.end ≤ length out.old }
    requires lines_lt_most_lines { p.lines < most_lines }
    ensures { (w : Memory) (s : List ℕ) → length s ≡ count → Fills (fill_rest (length out.old) (progress_of p w out.old) s) out.old result out.new }
{
    if count == 0 {
        return close(p, out);
    }
    close_rest(p, out)
}

// The end of a text of so many bytes whose lines are answered, or an answer had no room.
fn end_behind(long: usize, r: Answered, out: &mut [u8]) -> Ran
    requires { Ending long r out.old }
    ensures { (w : Memory) (s : List ℕ) → length s ≡ long - r.at → Fills (filled_behind (length out.old) r.full (progress_of r.position w out.old) s) out.old result out.new }
{
    if r.full {
        return Ran::Full(r.position.end, r.position.lines);
    }
    end(long - r.at, r.position, out)
}

// Before the first line.
pub fn begin(arities: &mut [u64], state: &mut [u64]) -> Position
    requires arities_len { length arities.old ≡ predicate_count }
    requires state_words_in_bounds { state_words ≤ length state.old }
    ensures { Starts arities.old state.old result arities.new state.new }
{
    let numbers = lines::open(arities, state);
    Position {
        numbers,
        lines: 0,
        met: false,
        end: 0,
    }
}

// Answers a whole text by a session in lent words.
fn run_in(
    text: &[u8],
    names: &mut [u64],
    arities: &mut [u64],
    listings: &mut [u64],
    table: &mut [u64],
    state: &mut [u64],
    value: &mut [u64],
    work: &mut [u64],
    out: &mut [u8],
) -> Ran
    requires rooms { Rooms (memory_of names.old arities.old listings.old table.old state.old value.old) }
    requires work_words_in_bounds { work_words ≤ length work.old }
    ensures { Fills (filled (length out.old) text.now) out.old result out.new }
{
    let first = begin(arities, state);
    let r = answer_whole(
        text, 0, first, 0, names, arities, listings, table, state, value, work, out,
    );
    end_behind(text.len(), r, out)
}

// Answers a whole text: all answers behind one another, or those before the first that has no room.
pub fn run(text: &[u8], out: &mut [u8]) -> Ran
    ensures { Fills (filled (length out.old) text.now) out.old result out.new }
{
    let mut names = [0u64; names::WORDS];
    let mut arities = [0u64; Label::PREDICATES];
    let mut listings = [0u64; model::LISTING_WORDS];
    let mut table = [0u64; model::TABLE_WORDS];
    let mut state = [0u64; facts::WORDS];
    let mut value = [0u64; diagram::RESULT_WORDS];
    let mut work = [0u64; WORK_WORDS];
    run_in(
        text,
        &mut names,
        &mut arities,
        &mut listings,
        &mut table,
        &mut state,
        &mut value,
        &mut work,
        out,
    )
}

// Of so many bytes that are left those that are needed: all, where there is a whole line among them.
fn rest_of(left: usize, whole: bool) -> Rest
    ensures { result ≡ rest_by left whole }
{
    if whole {
        return Rest {
            count: left,
            whole: true,
        };
    }
    if left <= LINE_ROOM {
        return Rest {
            count: left,
            whole: false,
        };
    }
    Rest {
        count: LINE_ROOM,
        whole: false,
    }
}

// Moves bytes from a place on to the front.
fn move_front(block: &mut [u8], at: usize, n: usize)
    requires { at + n ≤ length block.old }
    ensures { take n block.new ≡ take n (drop at block.old) }
{
    block.copy_within(at..at + n, 0);
}

// Keeps the bytes of a block from a place on that are not answered yet, at its front; of a line that no line feed ends as many as are needed.
pub fn keep_rest(block: &mut [u8], at: usize, n: usize) -> Rest
    requires at_le_n { at ≤ n }
    requires n_in_bounds { n ≤ length block.old }
    ensures { Keeps (drop at (take n block.old)) result block.new }
{
    let end = line_end(&block[..n], at);
    let left = n - at;
    let whole = end < n;
    let rest = rest_of(left, whole);
    move_front(block, at, rest.count);
    rest
}
