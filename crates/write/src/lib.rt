// Writing a row of the working space as a listing: its rows are numbered by a walk, then written out.
#![tactic(auto)]

ghost use Rattle.std.specs.Prelude.{◌≡◌, ◌++◌, ◌*◌, ◌≤◌, length, take, drop};
ghost use Rattle.write.specs.Numbering.{Marked, Unmarked, Unnumbered, Placeable, Placed, Downward, Numbered};
ghost use Rattle.write.specs.Writing.{renumbered, listed_rows, Renumberable, Emittable, Writable, WritePost};
ghost use Rattle.diagram.specs.Listing.{listing};
ghost use Rattle.store.specs.Load.{renamed_of};
ghost use Rattle.write.specs.Renaming.{listed_in, word_after, Word, Renamable};

use label::Label;
use table::Row;

// Gives row i the number n: how many rows have one then.
fn place(marks: &mut [u16], order: &mut [u16], n: usize, i: usize) -> usize
    requires { Placeable marks.old order.old n i }
    ensures { Placed marks.old order.old n i result marks.new order.new }
{
    order[n] = i as u16;
    marks[i] = (n + 1) as u16;
    n + 1
}

// Walks from row i, true branch first, where n rows are numbered and row i is not: numbers the rows as it finishes them, and says how many are numbered
// then.
#[cycle(number_visit)]
pub fn number(space: &[u64], marks: &mut [u16], order: &mut [u16], n: usize, i: usize) -> usize
    requires downward { Downward space.now i }
    requires unnumbered { Unnumbered marks.old order.old n i }
    ensures { Numbered space.now marks.old order.old n i result marks.new order.new }
{
    if space[i * 3] == Label::LEAF {
        return place(marks, order, n, i);
    }
    let t = space[i * 3 + 1] as usize;
    let f = space[i * 3 + 2] as usize;
    let a = visit(space, marks, order, n, t);
    let b = visit(space, marks, order, a, f);
    place(marks, order, b, i)
}

// The same for a row that may have its number.
#[cycle(number_visit)]
fn visit(space: &[u64], marks: &mut [u16], order: &mut [u16], n: usize, i: usize) -> usize
    requires downward { Downward space.now i }
    requires marked { Marked marks.old order.old n }
    ensures { Numbered space.now marks.old order.old n i result marks.new order.new }
{
    if basics::wide(marks[i]) != 0 {
        n
    } else {
        number(space, marks, order, n, i)
    }
}

// Takes the marks of the first m rows numbered away.
pub fn unmark(marks: &mut [u16], order: &[u16], m: usize)
    requires { Marked marks.old order.now m }
    ensures { Unmarked marks.new }
{
    for i in &order[..m] {
        marks[basics::wide(*i)] = 0;
    }
}

// Row k as it stands in the listing: its children by their numbers.
fn renumber(space: &[u64], marks: &[u16], k: usize) -> Row
    requires { Renumberable space.now marks.now k }
    ensures { result ≡ renumbered space.now marks.now k }
{
    let l = space[k * 3];
    let t = space[k * 3 + 1];
    if l == Label::LEAF {
        return Row {
            label: l,
            high: t,
            low: 0,
        };
    }
    let f = space[k * 3 + 2];
    let a = basics::wide(marks[t as usize]);
    let b = basics::wide(marks[f as usize]);
    Row {
        label: l,
        high: (a - 1) as u64,
        low: (b - 1) as u64,
    }
}

// Writes the m rows that are numbered, in the order of their numbers. The words behind stay.
pub fn emit(space: &[u64], marks: &[u16], order: &[u16], m: usize, out: &mut [u64])
    requires { Emittable space.now marks.now order.now m out.old }
    ensures { out.new ≡ listed_rows space.now marks.now (take m order.now) ++ drop (m * 3) out.old }
{
    for (j, i) in order[..m].iter().enumerate() {
        table::put(out, j, renumber(space, marks, basics::wide(*i)));
    }
}

// Writes the listing of the row `root`. No row is marked before or after.
pub fn write(
    space: &[u64],
    count: usize,
    root: usize,
    marks: &mut [u16],
    order: &mut [u16],
    out: &mut [u64],
) -> Option<usize>
    requires { Writable space.now count root marks.old order.old out.old }
    ensures { WritePost space.now root out.old result marks.new out.new }
{
    let m = number(space, marks, order, 0, root);
    if m > diagram::ROWS {
        unmark(marks, order, m);
        return None;
    }
    emit(space, marks, order, m, out);
    unmark(marks, order, m);
    Some(m)
}

// Writes the first count rows of the space as they stand: the listing, where they were formed in an empty space in its order. The words behind stay.
pub fn copy(space: &[u64], count: usize, out: &mut [u64])
    requires count_in_bounds { count * 3 ≤ length space.now }
    requires count_in_bounds_2 { count * 3 ≤ length out.old }
    ensures { out.new ≡ take (count * 3) space.now ++ drop (count * 3) out.old }
{
    let n = count * 3;
    for i in 0..n {
        out[i] = space[i];
    }
}

// The first word of a row renamed: a label, or a leaf's mark.
fn word_after(arities: &[u64], map: &[u64], x: u64) -> u64
    requires { Word arities.now map.now x }
    ensures { result ≡ word_after arities.now map.now x }
{
    if x == Label::LEAF {
        x
    } else {
        Label { packed: x }.renamed(arities, map).packed
    }
}

// Renames the listing that the first m rows of the buffer are, by a map of terms that keeps their order. The words behind stay.
pub fn rename(arities: &[u64], map: &[u64], out: &mut [u64], m: usize)
    requires { Renamable arities.now map.now out.old m }
    ensures { out.new ≡ listing (renamed_of arities.now map.now (listed_in out.old m)) ++ drop (m * 3) out.old }
{
    for i in 0..m {
        out[i * 3] = word_after(arities, map, out[i * 3]);
    }
}
