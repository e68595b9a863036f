// The program: reads a text from standard input to its end, in blocks, and writes the answers of the lines in hand before it reads on.
#![tactic(auto)]

ghost use Rattle.std.specs.Prelude.{◌≡◌, false, ◌<◌, ◌≤◌, length};
ghost use Rattle.answers.specs.Writing.{most_bytes};
ghost use Rattle.memory.specs.Memory.{memory_of, Rooms, work_words};
ghost use Rattle.texts.specs.Sending.{most_lines};
ghost use Rattle.texts.specs.Streaming.{line_room};
ghost use Rattle.yindolve.specs.Program.{Refills, empty_at, Finishes, Ends};

use answers::MOST_BYTES;
use label::Label;
use pipes::Tally;
use texts::{Position, Ran, Rest};

// Bytes that are held at a time: the line that has begun, and those that are read behind it.
const BLOCK_BYTES: usize = 65536;

// Bytes of answers that are held at a time: any one answer, and those before it.
const OUT_BYTES: usize = 157696;

// What is read, and how many bytes are in hand.
#[derive(Clone, Copy)]
struct Refilled {
    tally: Tally,
    n: usize,
}

// Reads on behind the bytes in hand, where there is no whole line among them.
fn refill(rt: HostRuntime, t: Tally, block: &mut [u8], rest: Rest) -> Refilled
    requires count_in_bounds { rest.whole ≡ false → rest.count < length block.old }
    requires count_in_bounds_2 { rest.count ≤ length block.old }
    ensures { Refills t rest block.old result block.new }
{
    let from = rest.count;
    if rest.whole {
        return Refilled { tally: t, n: from };
    }
    let u = pipes::read(rt.stdin(), t, block, from);
    let more = pipes::last(u);
    let n = from + more;
    Refilled { tally: u, n }
}

// The position behind answers that are written.
fn emptied(p: Position) -> Position
    ensures { result ≡ empty_at p }
{
    Position { end: 0, ..p }
}

// Where the input ended, the answer of its end; where it could not be read, a line on standard error.
fn finish(rt: HostRuntime, t: Tally, count: usize, p: Position, out: &mut [u8]) -> Tally
    requires end_value { p.end ≡ 0 }
    requires lines_lt_most_lines { p.lines < most_lines }
    requires most_bytes_in_bounds { most_bytes ≤ length out.old }
    ensures { Finishes t count p out.old result }
{
    if pipes::is_unread(t) {
        pipes::say_unread(rt.stderr());
        return t;
    }
    if !pipes::is_ended(t) {
        return t;
    }
    let Ran::Done(n) = texts::end(count, p, out) else {
        return t;
    };
    pipes::write(rt.stdout(), t, &out[..n])
}

// Answers the input: reads, answers the whole lines in hand, writes their answers, until the input ends.
fn answer_input(
    rt: HostRuntime,
    names: &mut [u64],
    arities: &mut [u64],
    listings: &mut [u64],
    table: &mut [u64],
    state: &mut [u64],
    value: &mut [u64],
    work: &mut [u64],
    block: &mut [u8],
    out: &mut [u8],
) -> Tally
    requires rooms { Rooms (memory_of names.old arities.old listings.old table.old state.old value.old) }
    requires work_words_in_bounds { work_words ≤ length work.old }
    requires line_room_in_bounds { line_room < length block.old }
    requires most_bytes_in_bounds { most_bytes ≤ length out.old }
    ensures { Ends (length block.old) result }
{
    let mut p = texts::begin(arities, state);
    let mut t = pipes::start();
    let mut rest = Rest {
        count: 0,
        whole: false,
    };
    let mut open = true;
    while open {
        let f = refill(rt, t, block, rest);
        let n = f.n;
        let r = texts::answer_whole(
            &block[..n],
            0,
            p,
            MOST_BYTES,
            names,
            arities,
            listings,
            table,
            state,
            value,
            work,
            out,
        );
        let end = r.position.end;
        t = pipes::write(rt.stdout(), f.tally, &out[..end]);
        p = emptied(r.position);
        rest = texts::keep_rest(block, r.at, n);
        open = pipes::is_open(t);
    }
    finish(rt, t, rest.count, p, out)
}

fn main(rt: HostRuntime) {
    let mut names = [0u64; names::WORDS];
    let mut arities = [0u64; Label::PREDICATES];
    let mut listings = [0u64; model::LISTING_WORDS];
    let mut table = [0u64; model::TABLE_WORDS];
    let mut state = [0u64; facts::WORDS];
    let mut value = [0u64; diagram::RESULT_WORDS];
    let mut work = [0u64; texts::WORK_WORDS];
    let mut block = [0u8; BLOCK_BYTES];
    let mut out = [0u8; OUT_BYTES];
    answer_input(
        rt,
        &mut names,
        &mut arities,
        &mut listings,
        &mut table,
        &mut state,
        &mut value,
        &mut work,
        &mut block,
        &mut out,
    );
}
