// The reader of lines: a line read for its form, and its kind.
#![tactic(auto)]

ghost use Rattle.std.specs.Prelude.{◌≡◌, ℕ, ◌+◌, ◌≤◌, ◌<◌, length};
ghost use Rattle.forms.specs.Form.{◌▹◌, byte, form, plain_form, diagram_form};
ghost use Rattle.text.specs.Line.{IsLine};
ghost use Rattle.text.specs.LineForm.{is_key, kind_of, end_form, one_form, two_form, listed_form, paired_form, drawn_form, named_form, headed_form, shape_form, form_kind, line_kind};
ghost use Rattle.line_reader.specs.Rows.{row_of};

use forms::Sort;
use text::{Kind, Shape};
use words::Key;

// A key word by its key, the kind of the line that it begins, and the shape of what stands behind it.
#[derive(Clone, Copy)]
pub struct Keyword {
    pub key: Key,
    pub kind: Kind,
    pub shape: Shape,
}

// The most bytes that a line has.
const LINE_BYTES: usize = 4095;

const KINDS: usize = 21;

// The key words of all kinds of lines.
const KEYWORDS: [Keyword; KINDS] = [
    Keyword {
        key: Key {
            a: 8389750308618530659,
            b: 0,
        },
        kind: Kind::Constant,
        shape: Shape::One(Sort::Name),
    },
    Keyword {
        key: Key {
            a: 8386093285447660144,
            b: 101,
        },
        kind: Kind::Predicate,
        shape: Shape::Two(Sort::Name, Sort::Number),
    },
    Keyword {
        key: Key {
            a: 465491488628,
            b: 0,
        },
        kind: Kind::Total,
        shape: Shape::One(Sort::Number),
    },
    Keyword {
        key: Key {
            a: 8389772277108140388,
            b: 0,
        },
        kind: Kind::Discount,
        shape: Shape::Two(Sort::Number, Sort::Number),
    },
    Keyword {
        key: Key {
            a: 110442424264050,
            b: 0,
        },
        kind: Kind::Reward,
        shape: Shape::Drawn,
    },
    Keyword {
        key: Key {
            a: 121424789660513,
            b: 0,
        },
        kind: Kind::Action,
        shape: Shape::Listed(Sort::Parameter),
    },
    Keyword {
        key: Key {
            a: 32772461958422902,
            b: 0,
        },
        kind: Kind::Variant,
        shape: Shape::Named,
    },
    Keyword {
        key: Key {
            a: 32481143016351074,
            b: 0,
        },
        kind: Kind::Becomes,
        shape: Shape::Headed,
    },
    Keyword {
        key: Key {
            a: 500135195763,
            b: 0,
        },
        kind: Kind::Start,
        shape: Shape::Nothing,
    },
    Keyword {
        key: Key {
            a: 32497592573780591,
            b: 0,
        },
        kind: Kind::Objects,
        shape: Shape::One(Sort::Number),
    },
    Keyword {
        key: Key { a: 29545, b: 0 },
        kind: Kind::Is,
        shape: Shape::Two(Sort::Name, Sort::Number),
    },
    Keyword {
        key: Key {
            a: 1702195828,
            b: 0,
        },
        kind: Kind::True,
        shape: Shape::Listed(Sort::Number),
    },
    Keyword {
        key: Key {
            a: 435761734006,
            b: 0,
        },
        kind: Kind::Value,
        shape: Shape::Nothing,
    },
    Keyword {
        key: Key {
            a: 123649615159650,
            b: 0,
        },
        kind: Kind::Backup,
        shape: Shape::Nothing,
    },
    Keyword {
        key: Key { a: 7632227, b: 0 },
        kind: Kind::Cut,
        shape: Shape::Nothing,
    },
    Keyword {
        key: Key {
            a: 2003789939,
            b: 0,
        },
        kind: Kind::Show,
        shape: Shape::Nothing,
    },
    Keyword {
        key: Key {
            a: 111477845681522,
            b: 0,
        },
        kind: Kind::Reduce,
        shape: Shape::Nothing,
    },
    Keyword {
        key: Key {
            a: 1954047348,
            b: 0,
        },
        kind: Kind::Text,
        shape: Shape::Nothing,
    },
    Keyword {
        key: Key {
            a: 1953719650,
            b: 0,
        },
        kind: Kind::Best,
        shape: Shape::Nothing,
    },
    Keyword {
        key: Key {
            a: 500069396323,
            b: 0,
        },
        kind: Kind::Count,
        shape: Shape::One(Sort::Number),
    },
    Keyword {
        key: Key { a: 6580580, b: 0 },
        kind: Kind::Did,
        shape: Shape::Paired(Sort::Number),
    },
];

// The row of the key word that has the key; where there is none, that of no line.
fn find_keyword(key: Key) -> Keyword
    ensures { result ≡ row_of (kind_of key) }
{
    for row in &KEYWORDS {
        if key == row.key {
            return *row;
        }
    }
    Keyword {
        key: Key { a: 0, b: 0 },
        kind: Kind::Bad,
        shape: Shape::Never,
    }
}

// A space and a diagram, one bracket open before it, at the place that t answered.
fn diagram_after(s: &[u8], t: Option<usize>) -> Option<usize>
    ensures { result ≡ t ▹ byte s.now 32 ▹ form s.now (diagram_form (length s.now + 1) 1) }
{
    let i = forms::byte_after(s, t, b' ')?;
    let n = forms::read_diagram(words::rest(s, i), 1)?;
    Some(i + n)
}

// The byte b, then a name and words of a sort, up to the closing bracket, at the place that t answered.
fn plain_after(s: &[u8], t: Option<usize>, b: u8, sort: Sort) -> Option<usize>
    requires { 0 < b }
    ensures { result ≡ t ▹ byte s.now b ▹ form s.now (plain_form sort) }
{
    let i = forms::byte_after(s, t, b)?;
    let n = forms::read_plain(words::rest(s, i), sort)?;
    Some(i + n)
}

// )
fn read_end(s: &[u8]) -> Option<usize>
    ensures { result ≡ end_form s.now }
{
    forms::byte_after(s, Some(0), b')')
}

// WORD )
fn read_one(s: &[u8], sort: Sort) -> Option<usize>
    ensures { result ≡ one_form sort s.now }
{
    let a = forms::byte_after(s, Some(0), b' ');
    let b = forms::item_after(s, a, sort);
    forms::byte_after(s, b, b')')
}

// WORD WORD )
fn read_two(s: &[u8], first: Sort, second: Sort) -> Option<usize>
    ensures { result ≡ two_form first second s.now }
{
    let a = forms::byte_after(s, Some(0), b' ');
    let b = forms::item_after(s, a, first);
    let c = forms::byte_after(s, b, b' ');
    let d = forms::item_after(s, c, second);
    forms::byte_after(s, d, b')')
}

// NAME WORD .. )
fn read_listed(s: &[u8], sort: Sort) -> Option<usize>
    ensures { result ≡ listed_form sort s.now }
{
    plain_after(s, Some(0), b' ', sort)
}

// NAME NAME WORD .. )
fn read_paired(s: &[u8], sort: Sort) -> Option<usize>
    ensures { result ≡ paired_form sort s.now }
{
    let a = forms::byte_after(s, Some(0), b' ');
    let b = forms::item_after(s, a, Sort::Name);
    plain_after(s, b, b' ', sort)
}

// DIAGRAM )
fn read_drawn(s: &[u8]) -> Option<usize>
    ensures { result ≡ drawn_form s.now }
{
    let a = diagram_after(s, Some(0));
    forms::byte_after(s, a, b')')
}

// NAME DIAGRAM )
fn read_named(s: &[u8]) -> Option<usize>
    ensures { result ≡ named_form s.now }
{
    let a = forms::byte_after(s, Some(0), b' ');
    let b = forms::item_after(s, a, Sort::Name);
    let c = diagram_after(s, b);
    forms::byte_after(s, c, b')')
}

// (NAME ?a ..) DIAGRAM )
fn read_headed(s: &[u8]) -> Option<usize>
    ensures { result ≡ headed_form s.now }
{
    let a = forms::byte_after(s, Some(0), b' ');
    let b = plain_after(s, a, b'(', Sort::Variable);
    let c = diagram_after(s, b);
    forms::byte_after(s, c, b')')
}

// What stands behind the key word, up to the line's closing bracket.
fn read_shape(shape: Shape, s: &[u8]) -> Option<usize>
    ensures { result ≡ shape_form shape s.now }
{
    match shape {
        Shape::Nothing => read_end(s),
        Shape::One(sort) => read_one(s, sort),
        Shape::Two(first, second) => read_two(s, first, second),
        Shape::Listed(sort) => read_listed(s, sort),
        Shape::Paired(sort) => read_paired(s, sort),
        Shape::Drawn => read_drawn(s),
        Shape::Named => read_named(s),
        Shape::Headed => read_headed(s),
        Shape::Never => None,
    }
}

// A line behind its opening bracket.
fn read_form(s: &[u8]) -> Kind
    ensures { result ≡ form_kind s.now }
{
    let Some(n) = words::read_name(s) else {
        return Kind::Bad;
    };
    let row = find_keyword(words::key_of(&s[..n]));
    let Some(m) = read_shape(row.shape, &s[n..]) else {
        return Kind::Bad;
    };
    if m == s.len() - n {
        row.kind
    } else {
        Kind::Bad
    }
}

// The kind of a line, its line feed left out; Bad where it is not of the grammar.
pub fn read_line(s: &[u8]) -> Kind
    ensures form { result ≡ line_kind s.now }
    ensures exact { IsLine s.now result }
{
    if LINE_BYTES < s.len() {
        return Kind::Bad;
    }
    if words::byte_at(s, 0) != b'(' {
        return Kind::Bad;
    }
    read_form(&s[1..])
}
