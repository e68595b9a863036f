// Tests of the library's calls, read from standard input; its first lines say what a line means.
#![tactic(auto)]

ghost use Rattle.std.specs.Prelude.{◌≤◌, ◌<◌, length};

use apply::{Combined, Names, Operation};
use cutting::{Cut, Edge};
use label::{Label, Term};
use refusal::Refusal;
use std::io;
use std::io::{Read, Stdin};

// What the result buffer and the working space hold before a call.
const MARK: u64 = 77;

// The registers: room for 63 words for each letter to w, for more for x, y and z. How many they have stands before them, at 32 and the letter's number.
const DESK: usize = 42600;

const SMALL: usize = 64;

const LARGE: usize = 4608;

// Bytes of input that are read at most.
const TEXT_BYTES: usize = 65536;

// Words of letters, as numbers of base 32: a is 1, b is 2, ..
const LEAF: u64 = 398374;

const MOST: u64 = 441972;

const APART: u64 = 1574484;

// Numbers that stay in a word when they are added, when they are multiplied by 32, and when they are moved up by a place of a label.
const ADDED: u64 = 9000000000000000000;

const SCALED: u64 = 100000000000000000;

const MOVED: u64 = 10000000000000000;

// What `high` is behind a stroke.
const SKIP: u64 = 1;

// A chain's tests of two constants.
const GROUND: u64 = 2048;

// The kind of `reduce`, which is told from `regress` by its third letter.
const REDUCE: u8 = b'd';

// What a term weighs in the first place of a label and in the second.
const FIRST_PLACE: u64 = Label::PREDICATE_WEIGHT / Term::BASE;

const SECOND_PLACE: u64 = FIRST_PLACE / Term::BASE;

// Reading a line. A word is `high` plus `low`: the digits or letters behind its last point, and what stands before them, moved up by a place.

fn with_byte(low: u64, b: u8) -> u64 {
    if b < 48 {
        return 0;
    }
    if b < 58 {
        return low % (SCALED * 5) * 10 + (b as u64 - 48);
    }
    low % (SCALED * 5) * 32 + b as u64 % 32
}

fn raised(high: u64, low: u64, b: u8) -> u64 {
    if b < 46 {
        return 0;
    }
    if b == 46 {
        return (high % MOVED + low % MOVED) * Term::BASE;
    }
    if b == 47 {
        return SKIP;
    }
    high
}

fn word(high: u64, low: u64) -> u64 {
    if low == LEAF {
        return Label::LEAF;
    }
    if low == MOST {
        return u64::MAX;
    }
    high % ADDED + low % ADDED
}

// Where the next word goes: to the next place, or behind R/PLACE to that one.
fn behind(n: usize, b: u8, high: u64, low: u64) -> usize {
    if b >= 46 {
        return n;
    }
    if high == SKIP {
        return n % DESK + (low as usize) % DESK + 1;
    }
    n % DESK + 1
}

fn word_at(words: &[u64], i: usize) -> u64 {
    if i < words.len() {
        return words[i];
    }
    0
}

fn put_word(words: &mut [u64], i: usize, word: u64) {
    if i < words.len() {
        words[i] = word;
    }
}

// A space, a comma or the line's end ends a word.
fn end_word(desk: &mut [u64], n: usize, b: u8, word: u64) {
    if b < 46 {
        put_word(desk, n, word);
    }
}

// Puts the words of a line from a place on, and answers where they end.
fn fill(line: &[u8], desk: &mut [u64], at: usize) -> usize {
    let mut n = at;
    let mut high = 0;
    let mut low = 0;
    for b in line.iter().copied() {
        end_word(desk, n, b, word(high, low));
        n = behind(n, b, high, low);
        high = raised(high, low, b);
        low = with_byte(low, b);
    }
    n
}

// Where the register of a letter begins, with a word that is not used.
fn place(letter: u64) -> usize
    ensures { result ≤ 45000 }
{
    let r = (letter % 32) as usize;
    if r < 24 {
        return r * SMALL;
    }
    (r - 23) * LARGE
}

fn part(desk: &[u64], first: usize, n: usize) -> &[u64] {
    if first >= desk.len() {
        return &desk[..0];
    }
    if n >= desk.len() - first {
        return &desk[first..];
    }
    let end = first + n;
    &desk[first..end]
}

fn register(desk: &[u64], letter: u64) -> &[u64] {
    let n = word_at(desk, (letter % 32 + 32) as usize);
    part(desk, place(letter) + 1, n as usize)
}

fn argument(desk: &[u64], kind: u8, i: usize) -> u64 {
    word_at(register(desk, kind as u64), i)
}

// Making words: a chain, or one word many times.

#[derive(Clone, Copy)]
struct Chain {
    letter: u64,
    first: u64,
    leaves: u64,
    base: u64,
    words: u64,
}

fn asked_chain(desk: &[u64]) -> Chain {
    Chain {
        letter: argument(desk, b'w', 0),
        first: argument(desk, b'w', 1),
        leaves: argument(desk, b'w', 2),
        base: argument(desk, b'w', 3),
        words: argument(desk, b'w', 4),
    }
}

// The label of test n; it grows with n.
fn label(n: u64) -> u64 {
    if n < GROUND {
        return (n / 256 + 1) * Label::PREDICATE_WEIGHT
            + n / 16 % 16 * FIRST_PLACE
            + n % 16 * SECOND_PLACE;
    }
    9 * Label::PREDICATE_WEIGHT + (n % Term::VARIABLES + Term::FIRST_VARIABLE) * FIRST_PLACE
}

fn pick(k: u64, x: u64, y: u64, z: u64) -> u64 {
    if k == 0 {
        return x;
    }
    if k == 1 {
        return y;
    }
    z
}

// The false child of a test, t tests below the root.
fn below(leaves: u64, row: u64, t: u64) -> u64
    requires { 0 < leaves }
{
    if row > leaves {
        return row - 1;
    }
    (t % GROUND + 1) % leaves
}

// Word i.
fn chain_word(c: Chain, i: u64) -> u64 {
    let leaves = c.leaves;
    if leaves == 0 {
        return c.base;
    }
    let row = i / 3;
    if row < leaves {
        return pick(i % 3, Label::LEAF, c.base % ADDED + row % GROUND, 0);
    }
    let t = (c.words / 3 % GROUND + GROUND - 1 - row % GROUND) % GROUND;
    pick(
        i % 3,
        label(c.first % ADDED + t),
        t % leaves,
        below(leaves, row, t),
    )
}

fn grow(desk: &mut [u64], c: Chain) {
    let at = place(c.letter) + 1;
    let n = (c.words as usize) % DESK;
    put_word(desk, (c.letter % 32 + 32) as usize, n as u64);
    for i in 0..n {
        put_word(desk, at + i, chain_word(c, i as u64));
    }
}

// Answers: each prints what a call says, and answers how many rows of the result buffer it says to have written.

fn say(rt: &impl Print, text: &str, n: u64) -> io::Result<()> {
    print!(rt; "{text}{n}")
}

fn tell_refusal(rt: &impl Print, why: Refusal) -> io::Result<usize> {
    say(rt, "  refused ", why.number())?;
    Ok(0)
}

fn tell_rows(rt: &impl Print, rows: usize) -> io::Result<usize> {
    say(rt, "  rows ", rows as u64)?;
    Ok(rows)
}

fn tell_combined(rt: &impl Print, answer: Combined) -> io::Result<usize> {
    match answer {
        Combined::Done(rows, pairs) => {
            tell_rows(rt, rows)?;
            say(rt, ", pairs ", pairs as u64)?;
            Ok(rows)
        }
        Combined::Refused(why) => tell_refusal(rt, why),
    }
}

fn tell_done(rt: &impl Print, answer: Result<usize, Refusal>) -> io::Result<usize> {
    match answer {
        Ok(rows) => tell_rows(rt, rows),
        Err(why) => tell_refusal(rt, why),
    }
}

fn tell_edge(rt: &impl Print, row: usize, edge: Edge) -> io::Result<()> {
    match edge {
        Edge::True => say(rt, ", true edge of row ", row as u64),
        Edge::False => say(rt, ", false edge of row ", row as u64),
    }
}

fn tell_cut(rt: &impl Print, answer: Cut) -> io::Result<usize> {
    match answer {
        Cut::Done(row, edge, rows) => {
            tell_rows(rt, rows)?;
            tell_edge(rt, row, edge)?;
            Ok(rows)
        }
        Cut::Refused(why) => tell_refusal(rt, why),
    }
}

fn tell_value(rt: &impl Print, answer: Result<u64, Refusal>) -> io::Result<usize> {
    match answer {
        Ok(v) => {
            say(rt, "  value ", v)?;
            Ok(0)
        }
        Err(why) => tell_refusal(rt, why),
    }
}

// Calls.

fn operation(kind: u8) -> Operation {
    if kind == b's' {
        return Operation::Sum;
    }
    if kind == b'p' {
        return Operation::Product;
    }
    Operation::Max
}

fn names(word: u64) -> Names {
    if word == APART {
        return Names::Apart;
    }
    Names::Shared
}

fn combine(
    rt: &impl Print,
    desk: &[u64],
    kind: u8,
    arities: &[u64],
    out: &mut [u64],
    work: &mut [u64],
) -> io::Result<usize> {
    let op = operation(kind);
    let how = names(argument(desk, kind, 0));
    let x = register(desk, argument(desk, kind, 1));
    let y = register(desk, argument(desk, kind, 2));
    tell_combined(rt, combination::combine(op, how, arities, x, y, out, work))
}

// The first n bytes, or all.
fn begin(bytes: &[u8], n: usize) -> &[u8] {
    if n < bytes.len() {
        return &bytes[..n];
    }
    bytes
}

fn value(
    rt: &impl Print,
    desk: &[u64],
    arities: &[u64],
    x: &[u64],
    y: &[u64],
    z: &[u64],
) -> io::Result<usize> {
    tell_value(
        rt,
        valuing::value(arities, x, argument(desk, b'v', 0), y, z),
    )
}

fn call(
    rt: &impl Print,
    desk: &[u64],
    kind: u8,
    arities: &[u64],
    x: &[u64],
    y: &[u64],
    z: &[u64],
    out: &mut [u64],
    work: &mut [u64],
) -> io::Result<usize> {
    if kind == b'v' {
        return value(rt, desk, arities, x, y, z);
    }
    if kind == b'r' {
        return tell_done(rt, regress::regress(arities, x, y, z, out, work));
    }
    if kind == b'f' {
        let n = argument(desk, b'f', 0);
        return tell_done(rt, freeing::free(arities, x, n, out, work));
    }
    if kind == b'c' {
        return tell_cut(rt, cut::cut(arities, x, out, work));
    }
    if kind == REDUCE {
        return tell_done(rt, reduce::reduce(arities, x, out, work));
    }
    combine(rt, desk, kind, arities, out, work)
}

fn least(n: usize, most: usize) -> usize
    ensures { result ≤ most }
{
    n.min(most)
}

// The result buffer after a call.

fn show_terms(rt: &impl Print, label: u64) -> io::Result<()> {
    let mut unit = FIRST_PLACE;
    while unit > 0 {
        say(rt, ".", label / unit % Term::BASE)?;
        unit /= Term::BASE;
    }
    Ok(())
}

fn show_label(rt: &impl Print, label: u64) -> io::Result<()> {
    if label == Label::LEAF {
        return rt.print(": leaf");
    }
    say(rt, ": ", label / Label::PREDICATE_WEIGHT)?;
    show_terms(rt, label)
}

fn show_in_row(rt: &impl Print, i: usize, word: u64) -> io::Result<()> {
    if i % 3 != 0 {
        return say(rt, " ", word);
    }
    say(rt, "\n  ", (i / 3) as u64)?;
    show_label(rt, word)
}

// A word behind the result, or any after a refusal, has to stay; but a run uses what lies behind its value.
fn tell_changed(rt: &impl Print, kind: u8, i: usize, word: u64) -> io::Result<()> {
    if word != MARK && kind != b'i' {
        say(rt, ", but changed is word ", i as u64)?;
    }
    Ok(())
}

// Results of up to 32 rows are shown whole, of others the last two rows.
fn first_shown(end: usize) -> usize {
    if end <= 96 {
        return 0;
    }
    end - 6
}

fn show_word(rt: &impl Print, kind: u8, i: usize, end: usize, word: u64) -> io::Result<()> {
    if i >= end {
        return tell_changed(rt, kind, i, word);
    }
    if i >= first_shown(end) {
        show_in_row(rt, i, word)?;
    }
    Ok(())
}

fn show(rt: &impl Print, kind: u8, out: &[u64], rows: usize) -> io::Result<()> {
    let end = rows % DESK * 3;
    for (i, word) in out.iter().enumerate() {
        show_word(rt, kind, i, end, *word)?;
    }
    rt.print("\n")
}

// A call in the first n and m words of two buffers.
fn lend(
    rt: &impl Print,
    desk: &[u64],
    kind: u8,
    arities: &[u64],
    x: &[u64],
    y: &[u64],
    z: &[u64],
    n: usize,
    m: usize,
    out: &mut [u64],
    work: &mut [u64],
) -> io::Result<usize> {
    let k = least(n, out.len());
    let l = least(m, work.len());
    call(
        rt,
        desk,
        kind,
        arities,
        x,
        y,
        z,
        &mut out[0..k],
        &mut work[0..l],
    )
}

// A call in buffers as long as register b says.
fn answer(rt: &impl Print, desk: &[u64], kind: u8) -> io::Result<()> {
    let arities = register(desk, 1);
    let x = register(desk, 24);
    let y = register(desk, 25);
    let z = register(desk, 26);
    let n = argument(desk, b'b', 0) as usize;
    let m = argument(desk, b'b', 1) as usize;
    let mut out = [MARK; 3073];
    let mut work = [MARK; 6145];
    let rows = lend(rt, desk, kind, arities, x, y, z, n, m, &mut out, &mut work)?;
    show(rt, kind, &out, rows)
}

// Lines.

fn is_call(kind: u8) -> bool {
    if kind < b'c' {
        return false;
    }
    kind < b'w'
}

fn echo(rt: &impl Print, line: &[u8]) -> io::Result<()> {
    rt.write_all(line)
}

// Empty lines and lines with # are printed, others that begin with no letter are not.
fn comment(rt: &impl Print, line: &[u8], kind: u8) -> io::Result<()> {
    if kind <= b'#' {
        echo(rt, line)?;
    }
    Ok(())
}

// How many words a line has behind its first, by where they began and ended.
fn counted(at: usize, end: usize) -> u64
    requires { at ≤ 45000 }
{
    ((end % 50000 + 49999 - at) % 50000) as u64
}

fn run_line(rt: &impl Print, line: &[u8], desk: &mut [u64], kind: u8) -> io::Result<()> {
    if kind < b'A' {
        return comment(rt, line, kind);
    }
    let at = place(kind as u64);
    let end = fill(line, desk, at);
    put_word(desk, (kind % 64) as usize, counted(at, end));
    if kind == b'w' {
        grow(desk, asked_chain(desk));
        return Ok(());
    }
    if is_call(kind) {
        echo(rt, line)?;
        answer(rt, desk, kind)?;
    }
    Ok(())
}

// How many bytes the first line has, its end with it.
fn size(rest: &[u8]) -> usize
    requires { 0 < length rest.now }
    ensures result_nonzero { 0 < result }
    ensures upper_bound { result ≤ length rest.now }
{
    match rest.iter().position(|b| *b == b'\n') {
        Some(i) => i + 1,
        None => rest.len(),
    }
}

// The kind of a line: its first letter.
fn kind_of(line: &[u8]) -> u8
    requires { 0 < length line.now }
{
    let first = line[0];
    if first != b'r' {
        return first;
    }
    if line.len() < 3 {
        return first;
    }
    if line[2] == b'd' {
        return REDUCE;
    }
    first
}

fn run(rt: &impl Print, text: &[u8], desk: &mut [u64]) -> io::Result<()> {
    let mut at = 0;
    while at < text.len() {
        let rest = &text[at..];
        let n = size(rest);
        run_line(rt, begin(rest, n), desk, kind_of(rest))?;
        at += n;
    }
    Ok(())
}

// Reads until the buffer is full, the input ends or a read fails, and answers how many bytes it put at the start of the buffer.
fn read_full(mut stdin: Stdin, text: &mut [u8]) -> usize
    ensures { result ≤ length text.new }
{
    let mut done = 0;
    while done < text.len() {
        match stdin.read(&mut text[done..]) {
            Ok(0) => break,
            Ok(n) => done += n,
            Err(_) => break,
        }
    }
    done
}

fn main(rt: HostRuntime) -> io::Result<()> {
    let mut text = [0u8; TEXT_BYTES];
    let mut desk = [0u64; DESK];
    let n = read_full(rt.stdin(), &mut text);
    run(&rt, &text[..n], &mut desk)
}
