// Terms, atoms and diagrams: how many bytes each form takes.
#![tactic(auto)]

ghost use Rattle.std.specs.Prelude.{◌≡◌, ℕ, ◌+◌, ◌≤◌, ◌<◌, length};
ghost use Rattle.words.specs.Inner.{name_form};
ghost use Rattle.forms.specs.Form.{
  ◌▹◌,
  byte,
  form,
  is_mark,
  marked_form,
  term_form,
  item_form,
  many_form,
  equality_form,
  plain_form,
  inner_form,
  atom_form,
  head_form,
  if_form,
  diagram_form,
};

// The sorts of single words.
#[derive(Clone, Copy)]
pub enum Sort {
    Name,
    Variable,
    Parameter,
    Any,
    Number,
}

// The byte b at the place that t answered.
pub fn byte_after(s: &[u8], t: Option<usize>, b: u8) -> Option<usize>
    requires { 0 < b }
    ensures { result ≡ t ▹ byte s.now b }
{
    let i = t?;
    if words::byte_at(s, i) == b {
        Some(i + 1)
    } else {
        None
    }
}

// A name at the place that t answered.
fn name_after(s: &[u8], t: Option<usize>) -> Option<usize>
    ensures { result ≡ t ▹ form s.now name_form }
{
    let i = t?;
    let n = words::read_name(words::rest(s, i))?;
    Some(i + n)
}

// The mark b and a name.
fn read_marked(s: &[u8], b: u8) -> Option<usize>
    requires { 0 < b }
    ensures { result ≡ marked_form b s.now }
{
    let a = byte_after(s, Some(0), b);
    name_after(s, a)
}

// The byte before the name of a variable, a parameter or a minimum variable.
#[tactic(auto, unfolding(crate::specs::Form::is_mark))]
fn is_mark(b: u8) -> bool
    ensures { result ≡ is_mark b }
{
    matches!(b, b'?' | b'!' | b'%')
}

// name, ?name, !name or %name
fn read_term(s: &[u8]) -> Option<usize>
    ensures { result ≡ term_form s.now }
{
    if is_mark(words::byte_at(s, 0)) {
        name_after(s, Some(1))
    } else {
        words::read_name(s)
    }
}

// One word of a sort.
pub fn read_item(s: &[u8], sort: Sort) -> Option<usize>
    ensures { result ≡ item_form sort s.now }
{
    match sort {
        Sort::Name => words::read_name(s),
        Sort::Variable => read_marked(s, b'?'),
        Sort::Parameter => read_marked(s, b'!'),
        Sort::Any => read_term(s),
        Sort::Number => words::read_number(s),
    }
}

// One word of a sort at the place that t answered.
pub fn item_after(s: &[u8], t: Option<usize>, sort: Sort) -> Option<usize>
    ensures { result ≡ t ▹ form s.now (item_form sort) }
{
    let i = t?;
    let n = read_item(words::rest(s, i), sort)?;
    Some(i + n)
}

// Words of a sort, each with a space before it; none is fine.
pub fn read_items(s: &[u8], sort: Sort) -> Option<usize>
    ensures { (f : ℕ) → length s.now < f → result ≡ many_form (item_form sort) f s.now }
{
    if words::byte_at(s, 0) != b' ' {
        return Some(0);
    }
    let i = item_after(s, Some(1), sort)?;
    let m = read_items(words::rest(s, i), sort)?;
    Some(i + m)
}

// Words of a sort from the place that t answered.
pub fn items_after(s: &[u8], t: Option<usize>, sort: Sort) -> Option<usize>
    ensures { result ≡ t ▹ form s.now (many_form (item_form sort) (length s.now + 1)) }
{
    let i = t?;
    let n = read_items(words::rest(s, i), sort)?;
    Some(i + n)
}

// = TERM TERM )
fn read_equality(s: &[u8]) -> Option<usize>
    ensures { result ≡ equality_form s.now }
{
    let a = byte_after(s, Some(0), b'=');
    let b = byte_after(s, a, b' ');
    let c = item_after(s, b, Sort::Any);
    let d = byte_after(s, c, b' ');
    let e = item_after(s, d, Sort::Any);
    byte_after(s, e, b')')
}

// name WORD .. ), words of a sort
pub fn read_plain(s: &[u8], sort: Sort) -> Option<usize>
    ensures { result ≡ plain_form sort s.now }
{
    let a = words::read_name(s);
    let b = items_after(s, a, sort);
    byte_after(s, b, b')')
}

// What stands in an atom's brackets, with the second of them.
fn read_inner(s: &[u8]) -> Option<usize>
    ensures { result ≡ inner_form s.now }
{
    if words::byte_at(s, 0) == b'=' {
        read_equality(s)
    } else {
        read_plain(s, Sort::Any)
    }
}

// (= TERM TERM) or (name TERM ..)
pub fn read_atom(s: &[u8]) -> Option<usize>
    ensures { result ≡ atom_form s.now }
{
    let i = byte_after(s, Some(0), b'(')?;
    let n = read_inner(words::rest(s, i))?;
    Some(i + n)
}

// A space and an atom at the place that t answered.
fn atom_after(s: &[u8], t: Option<usize>) -> Option<usize>
    ensures { result ≡ t ▹ byte s.now 32 ▹ form s.now atom_form }
{
    let i = byte_after(s, t, b' ')?;
    let n = read_atom(words::rest(s, i))?;
    Some(i + n)
}

// if ATOM and the space behind it.
fn if_head(s: &[u8]) -> Option<usize>
    ensures { result ≡ head_form s.now }
{
    let a = byte_after(s, Some(0), b'i');
    let b = byte_after(s, a, b'f');
    let c = atom_after(s, b);
    byte_after(s, c, b' ')
}

// A diagram: a number, or an if form, with `depth` brackets open before it.
#[cycle(read_diagram_read_if)]
pub fn read_diagram(s: &[u8], depth: usize) -> Option<usize>
    ensures { (f : ℕ) → length s.now < f → result ≡ diagram_form f depth s.now }
{
    if words::byte_at(s, 0) == b'(' {
        if depth <= 62 {
            let n = read_if(&s[1..], depth)?;
            Some(1 + n)
        } else {
            None
        }
    } else {
        words::read_number(s)
    }
}

// if ATOM DIAGRAM DIAGRAM ), where the bracket before it is counted in `depth` + 1.
#[cycle(read_diagram_read_if)]
fn read_if(s: &[u8], depth: usize) -> Option<usize>
    requires { depth ≤ 62 }
    ensures { (f : ℕ) → length s.now < f → result ≡ if_form (diagram_form f (depth + 1)) s.now }
{
    let deeper = depth + 1;
    let i = if_head(s)?;
    let n = read_diagram(&s[i..], deeper)?;
    let j = byte_after(s, Some(i + n), b' ')?;
    let l = read_diagram(&s[j..], deeper)?;
    byte_after(s, Some(j + l), b')')
}
