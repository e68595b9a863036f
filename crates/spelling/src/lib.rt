// A listing as one nested form (document 02, L2): its bytes measured, and written into a lent buffer.
#![tactic(auto)]

ghost use Rattle.std.specs.Prelude.{◌≡◌, true, ◌++◌, ◌+◌, ◌*◌, ◌<◌, ◌≤◌, length};
ghost use Rattle.label.specs.Limits.{most_places};
ghost use Rattle.label.specs.Labels.{are_arities, is_label};
ghost use Rattle.diagram.specs.Words.{is_listing, row_count};
ghost use Rattle.diagram.specs.Listing.{diagram_of};
ghost use Rattle.diagram.specs.Validity.{tree};
ghost use Rattle.diagram.specs.Shown.{Shown};
ghost use Rattle.names.specs.Layout.{constants_at, declared_at};
ghost use Rattle.answers.specs.Digits.{digits};
ghost use Rattle.answers.specs.Inner.{Placed};
ghost use Rattle.answering.specs.Wrote.{Wrote};
ghost use Rattle.diagram_form.specs.Form.{form_length, open_brackets};
ghost use Rattle.spelling.specs.Spelling.{tables_at, Named, measured, form_line};
ghost use Rattle.spelling.specs.Parts.{name_at, term_text, places_text, head_text, test_text, row_text, Spelt, held_bytes, held_open, ByteCounts, OpenCounts};

use answering::{put_bytes, put_key, put_number};
use label::{Label, Term};

// What a form may have at most: a reward line's bytes less nine, and its open brackets less one.
const FORM_BYTES: u64 = 4086;

const FORM_BRACKETS: u64 = 63;

// The bytes of a test at most: a name, and six terms with a space before each.
const TEST_BYTES: usize = 160;

// Writes name i of the n keys from base on; past them it is empty.
fn put_name(out: &mut [u8], at: usize, names: &[u64], base: usize, n: usize, i: usize) -> usize
    requires n_in_bounds { base + n * 2 ≤ length names.now }
    requires i_in_bounds { at + length (name_at names.now base n i) ≤ length out.old }
    ensures { Wrote out.old at (name_at names.now base n i) result out.new }
{
    if i >= n {
        return at;
    }
    put_key(out, at, names::key_at(names, base, i))
}

// Writes a variable of either kind: what stands before its number, and the number in its kind.
fn put_variable(out: &mut [u8], at: usize, before: &[u8], i: u64) -> usize
    requires { at + length (before.now ++ digits i) ≤ length out.old }
    ensures { Wrote out.old at (before.now ++ digits i) result out.new }
{
    let j = put_bytes(out, at, before);
    put_number(out, j, i)
}

// Writes a term.
fn put_term(out: &mut [u8], at: usize, names: &[u64], constants: usize, t: u64) -> usize
    requires constants_in_bounds { constants_at + constants * 2 ≤ length names.now }
    requires t_in_bounds { at + length (term_text names.now constants t) ≤ length out.old }
    ensures { Wrote out.old at (term_text names.now constants t) result out.new }
{
    if t < Term::FIRST_VARIABLE {
        return put_name(out, at, names, names::CONSTANTS, constants, t as usize);
    }
    if t < Term::FIRST_MINIMUM {
        return put_variable(out, at, b"?v", t - Term::FIRST_VARIABLE);
    }
    put_variable(out, at, b"%v", t - Term::FIRST_MINIMUM)
}

// Writes the first n places of a label, a space before each.
fn put_places(
    out: &mut [u8],
    at: usize,
    names: &[u64],
    constants: usize,
    label: Label,
    n: u64,
) -> usize
    requires n_le_most_places { n ≤ most_places }
    requires constants_in_bounds { constants_at + constants * 2 ≤ length names.now }
    requires n_in_bounds { at + length (places_text names.now constants label.packed n) ≤ length out.old }
    ensures { Wrote out.old at (places_text names.now constants label.packed n) result out.new }
{
    let mut end = at;
    for k in 0..n {
        let i = put_bytes(out, end, b" ");
        end = put_term(out, i, names, constants, label.place(k));
    }
    end
}

// Writes a test's bracket and the word of its predicate: equality's sign, or a name.
fn put_head(out: &mut [u8], at: usize, names: &[u64], predicates: usize, p: u64) -> usize
    requires predicates_in_bounds { declared_at + predicates * 2 ≤ length names.now }
    requires p_in_bounds { at + length (head_text names.now predicates p) ≤ length out.old }
    ensures { Wrote out.old at (head_text names.now predicates p) result out.new }
{
    if p == Label::EQUALITY {
        return put_bytes(out, at, b"(=");
    }
    let i = put_bytes(out, at, b"(");
    put_name(out, i, names, names::DECLARED, predicates, (p - 1) as usize)
}

// Writes what stands before the children of a branch: (if ATOM, and a space.
fn put_test(
    out: &mut [u8],
    at: usize,
    arities: &[u64],
    names: &[u64],
    constants: usize,
    predicates: usize,
    label: Label,
) -> usize
    requires arities_value { are_arities arities.now ≡ true }
    requires packed_value { is_label arities.now label.packed ≡ true }
    requires named { Named names.now constants predicates }
    requires packed_in_bounds { at + length (test_text arities.now names.now constants predicates label.packed) ≤ length out.old }
    ensures { Wrote out.old at (test_text arities.now names.now constants predicates label.packed) result out.new }
{
    let p = label.predicate();
    let n = arities[p as usize];
    let i = put_bytes(out, at, b"(if ");
    let j = put_head(out, i, names, predicates, p);
    let k = put_places(out, j, names, constants, label, n);
    put_bytes(out, k, b") ")
}

// Writes the form of row i, and one byte behind it.
fn put_row(
    out: &mut [u8],
    at: usize,
    arities: &[u64],
    names: &[u64],
    constants: usize,
    predicates: usize,
    words: &[u64],
    i: usize,
    behind: u8,
) -> usize
    requires spelt { Spelt arities.now names.now constants predicates words.now }
    requires i_bound { i < row_count words.now }
    requires behind_in_bounds { at + length (row_text arities.now (tables_at names.now constants predicates) words.now i behind) ≤ length out.old }
    ensures { Wrote out.old at (row_text arities.now (tables_at names.now constants predicates) words.now i behind) result out.new }
{
    let label = words[i * 3];
    let high = words[i * 3 + 1];
    let low = words[i * 3 + 2];
    if label == Label::LEAF {
        let end = put_number(out, at, high);
        out[end] = behind;
        return end + 1;
    }
    let test = Label { packed: label };
    let first = put_test(out, at, arities, names, constants, predicates, test);
    let second = put_row(
        out,
        first,
        arities,
        names,
        constants,
        predicates,
        words,
        high as usize,
        b' ',
    );
    let end = put_row(
        out,
        second,
        arities,
        names,
        constants,
        predicates,
        words,
        low as usize,
        b')',
    );
    out[end] = behind;
    end + 1
}

// Writes the form of a listing and a line feed, and answers the place behind them.
pub fn put(
    out: &mut [u8],
    at: usize,
    arities: &[u64],
    names: &[u64],
    constants: usize,
    predicates: usize,
    words: &[u64],
) -> usize
    requires words_value { is_listing arities.now words.now ≡ true }
    requires named { Named names.now constants predicates }
    requires words_in_bounds { at + form_length arities.now (tables_at names.now constants predicates) (diagram_of words.now) + 1 ≤ length out.old }
    ensures { Wrote out.old at (form_line arities.now (tables_at names.now constants predicates) (diagram_of words.now)) result out.new }
{
    let root = words.len() / 3 - 1;
    put_row(
        out, at, arities, names, constants, predicates, words, root, b'\n',
    )
}

// Puts the form of a listing, which has n bytes, and a line feed, if there is room.
pub fn put_form(
    out: &mut [u8],
    at: usize,
    arities: &[u64],
    names: &[u64],
    constants: usize,
    predicates: usize,
    words: &[u64],
    n: usize,
) -> Option<usize>
    requires words_value { is_listing arities.now words.now ≡ true }
    requires named { Named names.now constants predicates }
    requires n_value { n ≡ form_length arities.now (tables_at names.now constants predicates) (diagram_of words.now) }
    ensures { Placed out.old at (form_line arities.now (tables_at names.now constants predicates) (diagram_of words.now)) result out.new }
{
    if out.len() < at {
        return None;
    }
    if out.len() - at <= n {
        return None;
    }
    Some(put(out, at, arities, names, constants, predicates, words))
}

// The bytes of row i's form from those of its children, held at one above the limit.
fn row_bytes(
    arities: &[u64],
    names: &[u64],
    constants: usize,
    predicates: usize,
    words: &[u64],
    bytes: &[u64],
    i: usize,
) -> u64
    requires spelt { Spelt arities.now names.now constants predicates words.now }
    requires i_bound { i < row_count words.now }
    requires byte_counts { ByteCounts arities.now (tables_at names.now constants predicates) words.now bytes.now i }
    ensures { result ≡ held_bytes (form_length arities.now (tables_at names.now constants predicates) (tree words.now i)) }
{
    let mut line = [0u8; TEST_BYTES];
    let label = words[i * 3];
    let high = words[i * 3 + 1];
    let low = words[i * 3 + 2];
    if label == Label::LEAF {
        return put_number(&mut line, 0, high) as u64;
    }
    let test = Label { packed: label };
    let n = put_test(&mut line, 0, arities, names, constants, predicates, test) as u64;
    let sum = n + 2 + bytes[high as usize] + bytes[low as usize];
    sum.min(FORM_BYTES + 1)
}

// The brackets that row i's form has open together, from those of its children, held at one above the limit.
fn row_open(words: &[u64], brackets: &[u64], i: usize) -> u64
    requires shown { Shown words.now (row_count words.now) (tree words.now) }
    requires i_bound { i < row_count words.now }
    requires open_counts { OpenCounts words.now brackets.now i }
    ensures { result ≡ held_open (open_brackets (tree words.now i)) }
{
    if words[i * 3] == Label::LEAF {
        return 0;
    }
    let high = words[i * 3 + 1] as usize;
    let low = words[i * 3 + 2] as usize;
    let most = brackets[high].max(brackets[low]).max(1);
    most.min(FORM_BRACKETS) + 1
}

// Counts bytes and brackets of every row's form, in the order of the listing: children stand before their parents.
fn count_rows(
    arities: &[u64],
    names: &[u64],
    constants: usize,
    predicates: usize,
    words: &[u64],
    bytes: &mut [u64],
    brackets: &mut [u64],
)
    requires spelt { Spelt arities.now names.now constants predicates words.now }
    requires words_in_bounds { row_count words.now ≤ length bytes.old }
    requires words_in_bounds_2 { row_count words.now ≤ length brackets.old }
    ensures byte_counts { ByteCounts arities.now (tables_at names.now constants predicates) words.now bytes.new (row_count words.now) }
    ensures open_counts { OpenCounts words.now brackets.new (row_count words.now) }
{
    let n = words.len() / 3;
    for i in 0..n {
        bytes[i] = row_bytes(arities, names, constants, predicates, words, bytes, i);
        brackets[i] = row_open(words, brackets, i);
    }
}

// The bytes of a listing's form, or that it is too long (refusal 19). Row by row, so that a form of exponential length is judged in linear time.
pub fn measure(
    arities: &[u64],
    names: &[u64],
    constants: usize,
    predicates: usize,
    words: &[u64],
) -> Option<usize>
    requires words_value { is_listing arities.now words.now ≡ true }
    requires named { Named names.now constants predicates }
    ensures { result ≡ measured arities.now (tables_at names.now constants predicates) (diagram_of words.now) }
{
    let mut bytes = [0u64; diagram::ROWS];
    let mut brackets = [0u64; diagram::ROWS];
    count_rows(
        arities,
        names,
        constants,
        predicates,
        words,
        &mut bytes,
        &mut brackets,
    );
    let root = words.len() / 3 - 1;
    if bytes[root] > FORM_BYTES {
        return None;
    }
    if brackets[root] > FORM_BRACKETS {
        return None;
    }
    Some(bytes[root] as usize)
}
