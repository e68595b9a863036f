// The answers of a text written as bytes into a lent buffer.
#![tactic(auto)]

ghost use Rattle.std.specs.Prelude.{◌≡◌, ◌+◌, ◌*◌, ◌≤◌, [], ◌∷◌, ◌++◌, length, take};
ghost use Rattle.words.specs.Keys.{bytes_within, name_of};
ghost use Rattle.diagram.specs.Sizes.{most_rows};
ghost use Rattle.answers.specs.Digits.{digits};
ghost use Rattle.answers.specs.Answers.{field, fields, name_field, edge_field, leaf_field, value_head, cut_head, reduce_head, best_head, row_head, line_end};
ghost use Rattle.answers.specs.Answers.{row_line_at, row_lines, count_line_at, count_lines, answer_line};
ghost use Rattle.answers.specs.Inner.{line_bytes, put_answer, Placed};
ghost use Rattle.answers.specs.Writing.{most_bytes};
ghost use Rattle.answering.specs.Wrote.{Wrote, WroteWithin};
ghost use Rattle.answering.specs.Tables.{Holds, table_line, table_lines};
ghost use Rattle.answering.specs.Printing.{printed_by};

use answers::Answer;
use cutting::Edge;
use label::Label;
use words::Key;

// The bytes of a line at most: a word, four numbers and the signs between them.
const LINE_BYTES: usize = 90;

// What an answer prints: so many rows of the value's listing, the value as a form of so many bytes, so many lines of a spread, or one line of its own, if any.
#[derive(Clone, Copy)]
pub enum Printed {
    Rows(usize),
    Form(usize),
    Counts(usize),
    Line,
}

// What is printed line by line: the rows of a listing, or the values of a spread and their numbers of states.
#[derive(Clone, Copy)]
enum Table {
    Rows,
    Counts,
}

// Writes bytes at a place, and answers the place behind them.
pub fn put_bytes(out: &mut [u8], at: usize, word: &[u8]) -> usize
    requires { at + length word.now ≤ length out.old }
    ensures { Wrote out.old at word.now result out.new }
{
    let end = at + word.len();
    out[at..end].copy_from_slice(word);
    end
}

// Writes the digits of a number, the highest first.
pub fn put_number(out: &mut [u8], at: usize, v: u64) -> usize
    requires { at + length (digits v) ≤ length out.old }
    ensures { Wrote out.old at (digits v) result out.new }
{
    if v <= 9 {
        out[at] = v as u8 + b'0';
        return at + 1;
    }
    let i = put_number(out, at, v / 10);
    out[i] = (v % 10) as u8 + b'0';
    i + 1
}

// Writes the bytes that a number is made of, the lowest first; at most `left`.
fn put_little(out: &mut [u8], at: usize, left: usize, m: u64) -> usize
    requires { at + length (bytes_within left m) ≤ length out.old }
    ensures { Wrote out.old at (bytes_within left m) result out.new }
{
    if left == 0 {
        return at;
    }
    if m == 0 {
        return at;
    }
    out[at] = (m % 256) as u8;
    put_little(out, at + 1, left - 1, m / 256)
}

// Writes the name of a key.
pub fn put_key(out: &mut [u8], at: usize, key: Key) -> usize
    requires { at + length (name_of key) ≤ length out.old }
    ensures { Wrote out.old at (name_of key) result out.new }
{
    let end = put_little(out, at, 8, key.a);
    put_little(out, end, 7, key.b)
}

// Writes a number behind a space.
fn put_field(out: &mut [u8], at: usize, v: u64) -> usize
    requires { at + 21 ≤ length out.old }
    ensures { WroteWithin out.old at (field v) 21 result out.new }
{
    let n = put_bytes(out, at, b" ");
    put_number(out, n, v)
}

// Writes the first n of some bytes as numbers, a space before each.
fn put_objects(out: &mut [u8], at: usize, objects: &[u8], n: usize) -> usize
    requires { at + length objects.now * 4 + 21 ≤ length out.old }
    ensures { WroteWithin out.old at (fields (take n objects.now)) (length objects.now * 4) result out.new }
{
    let mut end = at;
    for (i, object) in objects.iter().enumerate() {
        if i == n {
            return end;
        }
        end = put_field(out, end, u64::from(*object));
    }
    end
}

// Writes the side of an edge.
fn put_edge(out: &mut [u8], at: usize, edge: Edge) -> usize
    requires { at + 6 ≤ length out.old }
    ensures { WroteWithin out.old at (edge_field edge) 6 result out.new }
{
    match edge {
        Edge::True => put_bytes(out, at, b" true"),
        Edge::False => put_bytes(out, at, b" false"),
    }
}

// A line of two numbers.
fn pair_line(line: &mut [u8], head: &[u8], a: u64, b: u64) -> usize
    requires line_bytes_in_bounds { line_bytes ≤ length line.old }
    requires head_len_bound { length head.now ≤ 8 }
    ensures { WroteWithin line.old 0 (head.now ++ field a ++ field b ++ line_end) line_bytes result line.new }
{
    let i = put_bytes(line, 0, head);
    let j = put_field(line, i, a);
    let k = put_field(line, j, b);
    put_bytes(line, k, b")\n")
}

// The line of a value.
fn value_line(line: &mut [u8], v: u64, k: u64, scale: u64) -> usize
    requires { line_bytes ≤ length line.old }
    ensures { WroteWithin line.old 0 (value_head ++ field v ++ field k ++ field scale ++ line_end) line_bytes result line.new }
{
    let a = put_bytes(line, 0, b"(value");
    let b = put_field(line, a, v);
    let c = put_field(line, b, k);
    let d = put_field(line, c, scale);
    put_bytes(line, d, b")\n")
}

// The line of a cut.
fn cut_line(line: &mut [u8], row: usize, edge: Edge, rows: usize) -> usize
    requires { line_bytes ≤ length line.old }
    ensures { WroteWithin line.old 0 (cut_head ++ field row ++ edge_field edge ++ field rows ++ line_end) line_bytes result line.new }
{
    let a = put_bytes(line, 0, b"(cut");
    let b = put_field(line, a, row as u64);
    let c = put_edge(line, b, edge);
    let d = put_field(line, c, rows as u64);
    put_bytes(line, d, b")\n")
}

// The line of a reduction.
fn reduce_line(line: &mut [u8], rows: usize) -> usize
    requires { line_bytes ≤ length line.old }
    ensures { WroteWithin line.old 0 (reduce_head ++ field rows ++ line_end) line_bytes result line.new }
{
    let a = put_bytes(line, 0, b"(reduce");
    let b = put_field(line, a, rows as u64);
    put_bytes(line, b, b")\n")
}

// The line of a move: the name of its action, and the first n of four objects.
fn best_line(line: &mut [u8], action: Key, n: usize, a: u8, b: u8, c: u8, d: u8) -> usize
    requires { line_bytes ≤ length line.old }
    ensures { WroteWithin line.old 0 (best_head ++ name_field action ++ fields (take n (a ∷ b ∷ c ∷ d ∷ [])) ++ line_end) line_bytes result line.new }
{
    let objects = [a, b, c, d];
    let i = put_bytes(line, 0, b"(best ");
    let j = put_key(line, i, action);
    let k = put_objects(line, j, &objects, n);
    put_bytes(line, k, b")\n")
}

// The line of row k, a leaf.
fn leaf_line(line: &mut [u8], k: usize, v: u64) -> usize
    requires { line_bytes ≤ length line.old }
    ensures { WroteWithin line.old 0 (row_head ++ field k ++ leaf_field ++ field v ++ line_end) line_bytes result line.new }
{
    let a = put_bytes(line, 0, b"(row");
    let b = put_field(line, a, k as u64);
    let c = put_bytes(line, b, b" leaf");
    let d = put_field(line, c, v);
    put_bytes(line, d, b")\n")
}

// The line of row k, a branch.
fn branch_line(line: &mut [u8], k: usize, label: u64, high: u64, low: u64) -> usize
    requires { line_bytes ≤ length line.old }
    ensures { WroteWithin line.old 0 (row_head ++ field k ++ field label ++ field high ++ field low ++ line_end) line_bytes result line.new }
{
    let a = put_bytes(line, 0, b"(row");
    let b = put_field(line, a, k as u64);
    let c = put_field(line, b, label);
    let d = put_field(line, c, high);
    let e = put_field(line, d, low);
    put_bytes(line, e, b")\n")
}

// The line of row k of a listing.
fn row_line(line: &mut [u8], words: &[u64], k: usize) -> usize
    requires line_bytes_in_bounds { line_bytes ≤ length line.old }
    requires k_in_bounds { k * 3 + 3 ≤ length words.now }
    ensures { WroteWithin line.old 0 (row_line_at words.now k) line_bytes result line.new }
{
    let label = words[k * 3];
    let high = words[k * 3 + 1];
    let low = words[k * 3 + 2];
    if label == Label::LEAF {
        return leaf_line(line, k, high);
    }
    branch_line(line, k, label, high, low)
}

// Line k of a spread: a value and its number of states.
fn count_line(line: &mut [u8], words: &[u64], k: usize) -> usize
    requires line_bytes_in_bounds { line_bytes ≤ length line.old }
    requires k_in_bounds { k * 2 + 2 ≤ length words.now }
    ensures { WroteWithin line.old 0 (count_line_at words.now k) line_bytes result line.new }
{
    let value = words[k * 2];
    let states = words[k * 2 + 1];
    pair_line(line, b"(count", value, states)
}

// Line k of a table.
fn table_line(line: &mut [u8], table: Table, words: &[u64], k: usize) -> usize
    requires line_bytes_in_bounds { line_bytes ≤ length line.old }
    requires holds { Holds table (k + 1) words.now }
    ensures { WroteWithin line.old 0 (table_line table words.now k) line_bytes result line.new }
{
    match table {
        Table::Rows => row_line(line, words, k),
        Table::Counts => count_line(line, words, k),
    }
}

// The line of an answer.
fn answer_line(line: &mut [u8], answer: Answer) -> usize
    requires { line_bytes ≤ length line.old }
    ensures { WroteWithin line.old 0 (answer_line answer) line_bytes result line.new }
{
    match answer {
        Answer::Value(v, k, scale) => value_line(line, v, k, scale),
        Answer::Backup(k, rows) => pair_line(line, b"(backup", k, rows as u64),
        Answer::Cut(row, edge, rows) => cut_line(line, row, edge, rows),
        Answer::Reduce(rows) => reduce_line(line, rows),
        Answer::Refused(why, number) => pair_line(line, b"(refused", why.number(), number),
        Answer::Best(action, n, a, b, c, d) => best_line(line, action, n, a, b, c, d),
        Answer::Did(count, total) => pair_line(line, b"(did", count, total),
        Answer::Show(_) | Answer::Text(_) | Answer::Count(_, _) | Answer::Nothing => 0,
    }
}

// Puts bytes at a place, if there is room.
fn put_line(out: &mut [u8], at: usize, line: &[u8]) -> Option<usize>
    ensures { Placed out.old at line.now result out.new }
{
    if out.len() < at {
        return None;
    }
    if out.len() - at < line.len() {
        return None;
    }
    Some(put_bytes(out, at, line))
}

// The place behind the first n lines of a table, if they have room below the limit.
fn lines_end(table: Table, words: &[u64], n: usize, at: usize, limit: usize) -> Option<usize>
    requires { Holds table n words.now }
    ensures { result ≡ put_answer limit at (table_lines table words.now n) }
{
    if limit < at {
        return None;
    }
    let mut line = [0u8; LINE_BYTES];
    let mut end = at;
    for k in 0..n {
        let m = table_line(&mut line, table, words, k);
        if limit - end < m {
            return None;
        }
        end += m;
    }
    Some(end)
}

// Writes the first n lines of a table.
fn write_lines(out: &mut [u8], at: usize, table: Table, words: &[u64], n: usize) -> usize
    requires holds { Holds table n words.now }
    requires n_in_bounds { at + length (table_lines table words.now n) ≤ length out.old }
    ensures { Wrote out.old at (table_lines table words.now n) result out.new }
{
    let mut line = [0u8; LINE_BYTES];
    let mut end = at;
    for k in 0..n {
        let m = table_line(&mut line, table, words, k);
        end = put_bytes(out, end, &line[..m]);
    }
    end
}

// Puts the first n lines of a table, if there is room for all.
fn put_table(out: &mut [u8], at: usize, table: Table, words: &[u64], n: usize) -> Option<usize>
    requires { Holds table n words.now }
    ensures { Placed out.old at (table_lines table words.now n) result out.new }
{
    lines_end(table, words, n, at, out.len())?;
    Some(write_lines(out, at, table, words, n))
}

// Puts the lines of the first n rows of a listing, if there is room for all; as many rows as a listing may have have at most MOST_BYTES.
pub fn put_rows(out: &mut [u8], at: usize, words: &[u64], n: usize) -> Option<usize>
    requires { n * 3 ≤ length words.now }
    ensures placed { Placed out.old at (row_lines words.now n) result out.new }
    ensures n_len_bound { n ≤ most_rows → length (row_lines words.now n) ≤ most_bytes }
{
    put_table(out, at, Table::Rows, words, n)
}

// Puts the first n lines of a spread, if there is room for all; as many lines as a listing may have rows have at most MOST_BYTES.
pub fn put_counts(out: &mut [u8], at: usize, table: &[u64], n: usize) -> Option<usize>
    requires { n * 2 ≤ length table.now }
    ensures placed { Placed out.old at (count_lines table.now n) result out.new }
    ensures n_len_bound { n ≤ most_rows → length (count_lines table.now n) ≤ most_bytes }
{
    put_table(out, at, Table::Counts, table, n)
}

// Puts the line of an answer, if there is room; it has at most LINE_BYTES.
pub fn put_answer(out: &mut [u8], at: usize, answer: Answer) -> Option<usize>
    ensures placed { Placed out.old at (answer_line answer) result out.new }
    ensures answer_len_bound { length (answer_line answer) ≤ line_bytes }
{
    let mut line = [0u8; LINE_BYTES];
    let n = answer_line(&mut line, answer);
    put_line(out, at, &line[..n])
}

// What an answer prints.
pub fn printed_by(answer: Answer) -> Printed
    ensures { result ≡ printed_by answer }
{
    match answer {
        Answer::Show(rows) => Printed::Rows(rows),
        Answer::Text(bytes) => Printed::Form(bytes),
        Answer::Count(_, lines) => Printed::Counts(lines),
        _ => Printed::Line,
    }
}
