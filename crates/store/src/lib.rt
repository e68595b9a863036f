// The working space: rows of diagrams in lent words, equal ones once, with an index over them.
// Forming answers the row's number and the rows in the space then, or None where there is no room.
#![tactic(auto)]

ghost use Rattle.std.specs.Prelude.{◌≡◌};
ghost use Rattle.diagram.specs.Diagram.{leaf};
ghost use Rattle.diagram.specs.Validity.{tree};
ghost use Rattle.apply.specs.Apply.{node};
ghost use Rattle.apply.specs.Formed.{add};
ghost use Rattle.store.specs.Load.{carried, Carriable, Loadable, Loaded};
ghost use Rattle.store.specs.Space.{diagrams_of, Holds, stands_for, Formable, Children, Formation};

use label::Label;
use table::{Added, Row};

// Forms a row.
pub fn form(
    space: &mut [u64],
    heads: &mut [u16],
    links: &mut [u16],
    count: usize,
    row: Row,
) -> Option<(usize, usize)>
    requires holds { Holds space.old heads.old links.old count }
    requires formable { Formable count row }
    ensures { Formation (stands_for space.old row) (add (stands_for space.old row) (diagrams_of space.old count)) result space.new heads.new links.new }
{
    match table::find_or_add(space, heads, links, diagram::SPACE_ROWS, count, row) {
        Added::Old(i) => Some((i, count)),
        Added::New(_) => Some((count, count + 1)),
        Added::Full => None,
    }
}

// Forms a leaf.
pub fn leaf(
    space: &mut [u64],
    heads: &mut [u16],
    links: &mut [u16],
    count: usize,
    value: u64,
) -> Option<(usize, usize)>
    requires { Holds space.old heads.old links.old count }
    ensures { Formation (leaf value) (add (leaf value) (diagrams_of space.old count)) result space.new heads.new links.new }
{
    form(
        space,
        heads,
        links,
        count,
        Row {
            label: Label::LEAF,
            high: value,
            low: 0,
        },
    )
}

// Forms the reduced branch of two rows.
pub fn branch(
    space: &mut [u64],
    heads: &mut [u16],
    links: &mut [u16],
    count: usize,
    label: u64,
    high: usize,
    low: usize,
) -> Option<(usize, usize)>
    requires holds { Holds space.old heads.old links.old count }
    requires children { Children count label high low }
    ensures { Formation (node label (tree space.old high) (tree space.old low)) (add (node label (tree space.old high) (tree space.old low)) (diagrams_of space.old count)) result space.new heads.new links.new }
{
    if high == low {
        return Some((high, count));
    }
    form(
        space,
        heads,
        links,
        count,
        Row {
            label,
            high: high as u64,
            low: low as u64,
        },
    )
}

// Row k of a listing as a row of the space: its label renamed, its children by their numbers there.
fn carry(arities: &[u64], words: &[u64], map: &[u64], numbers: &[u16], k: usize) -> Row
    requires { Carriable arities.now words.now map.now numbers.now k }
    ensures { result ≡ carried arities.now words.now map.now numbers.now k }
{
    let l = words[k * 3];
    if l == Label::LEAF {
        return Row {
            label: l,
            high: words[k * 3 + 1],
            low: 0,
        };
    }
    let t = basics::wide(numbers[words[k * 3 + 1] as usize]);
    let f = basics::wide(numbers[words[k * 3 + 2] as usize]);
    Row {
        label: Label { packed: l }.renamed(arities, map).packed,
        high: t as u64,
        low: f as u64,
    }
}

// Forms the rows of a listing in number order, each label renamed by the map of terms. Where there is room, numbers[k] is the place of row k.
pub fn load(
    arities: &[u64],
    words: &[u64],
    map: &[u64],
    space: &mut [u64],
    heads: &mut [u16],
    links: &mut [u16],
    count: usize,
    numbers: &mut [u16],
) -> Option<(usize, usize)>
    requires { Loadable arities.now words.now map.now space.old heads.old links.old count numbers.old }
    ensures { Loaded arities.now words.now map.now space.old count result space.new heads.new links.new numbers.new }
{
    let m = words.len() / 3;
    let mut n = count;
    let mut root = 0;
    for k in 0..m {
        let row = carry(arities, words, map, numbers, k);
        let (i, c) = form(space, heads, links, n, row)?;
        numbers[k] = i as u16;
        (root, n) = (i, c);
    }
    Some((root, n))
}
