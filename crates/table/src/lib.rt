// The unique table: rows of three words in space that the caller lends, no two equal, with a hash index over them.
#![tactic(auto)]

ghost use Rattle.std.specs.Prelude.{◌≡◌, ◌+◌, ◌*◌, ◌<◌, ◌≤◌, length};
ghost use Rattle.table.specs.Rows.{row_at, put_at, rows, same_row, first_in};
ghost use Rattle.table.specs.Table.{buckets, hash_of, Table, Addable, AddPost};

// Half of a word.
const HALF: u64 = 4294967296;
// The number of buckets of the index.
pub const BUCKETS: usize = 2048;

// A row of a listing: label or leaf mark; true row or value; false row or 0.
#[derive(Clone, Copy, PartialEq, Eq)]
pub struct Row {
    pub label: u64,
    pub high: u64,
    pub low: u64,
}

// What adding a row answers: the place where it stood, or stands now, or that there is no room.
#[derive(Clone, Copy)]
pub enum Added {
    Old(usize),
    New(usize),
    Full,
}

// The row at place i.
pub fn row_at(space: &[u64], i: usize) -> Row
    requires { i * 3 + 3 ≤ length space.now }
    ensures { result ≡ row_at space.now i }
{
    Row {
        label: space[i * 3],
        high: space[i * 3 + 1],
        low: space[i * 3 + 2],
    }
}

// Writes a row at place i.
pub fn put(space: &mut [u64], i: usize, row: Row)
    requires { i * 3 + 3 ≤ length space.old }
    ensures { space.new ≡ put_at space.old i row }
{
    space[i * 3] = row.label;
    space[i * 3 + 1] = row.high;
    space[i * 3 + 2] = row.low;
}

// Whether two rows are equal.
pub fn same(x: Row, y: Row) -> bool
    ensures { result ≡ same_row x y }
{
    x == y
}

// The bucket of a row. All of the label and of `high` counts: labels of few places differ in their upper halves, scaled leaf values may agree in their
// lower ones.
pub fn hash(row: Row) -> usize
    ensures { (result ≡ hash_of row) × (result < buckets) }
{
    let x = row.label / HALF % HALF * 44453
        + row.label % HALF * 33739
        + row.high % HALF * 57641
        + row.high / HALF % HALF * 60493
        + row.low % HALF * 25717;
    ((x + x / 128 + x / 131072) as usize) % BUCKETS
}

// The place of the row among the first count rows, by the hash index.
pub fn lookup(
    space: &[u64],
    heads: &[u16],
    links: &[u16],
    limit: usize,
    count: usize,
    row: Row,
) -> Option<usize>
    requires { Table space.now heads.now links.now limit count }
    ensures { result ≡ first_in (rows space.now count) row }
{
    let h = hash(row);
    let mut at = basics::wide(heads[h]);
    while at != 0 {
        let i = at - 1;
        if same(row_at(space, i), row) {
            return Some(i);
        }
        at = basics::wide(links[i]);
    }
    None
}

// Adds a row that is not there yet at the end.
pub fn add(
    space: &mut [u64],
    heads: &mut [u16],
    links: &mut [u16],
    limit: usize,
    count: usize,
    row: Row,
)
    requires { Addable space.old heads.old links.old limit count row }
    ensures space_after { space.new ≡ put_at space.old count row }
    ensures table { Table space.new heads.new links.new limit (count + 1) }
{
    let h = hash(row);
    put(space, count, row);
    links[count] = heads[h];
    heads[h] = (count + 1) as u16;
}

// The place of the row, which is added at the end if it is new and there is room.
pub fn find_or_add(
    space: &mut [u64],
    heads: &mut [u16],
    links: &mut [u16],
    limit: usize,
    count: usize,
    row: Row,
) -> Added
    requires { Table space.old heads.old links.old limit count }
    ensures { AddPost space.old limit count row result space.new heads.new links.new }
{
    match lookup(space, heads, links, limit, count, row) {
        Some(i) => Added::Old(i),
        None if count == limit => Added::Full,
        None => {
            add(space, heads, links, limit, count, row);
            Added::New(count)
        }
    }
}
