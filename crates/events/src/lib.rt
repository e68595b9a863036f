// The words of an accepted line one after another: a second pass over its bytes.
#![tactic(auto)]

ghost use Rattle.std.specs.Prelude.{◌≡◌, ◌+◌, ◌≤◌, ◌<◌, length};
ghost use Rattle.events.specs.Events.{first_word};
ghost use Rattle.events.specs.Contents.{key_in, number_in};
ghost use Rattle.events.specs.Inner.{next_at};
ghost use Rattle.events.specs.Front.{is_end, space, behind, spaces, word_at, is_if, atom_front, number_front, front_of};

use text::Kind;
use words::Key;

// What stands next: a name, ?name, !name, %name or number; an atom's begin, = or a name with its count of terms; the closing
// bracket of an if form; the line's end.
#[derive(Clone, Copy)]
pub enum Event {
    Name(Key),
    Variable(Key),
    Parameter(Key),
    Minimum(Key),
    Number(u64),
    Equal,
    Holds(Key, usize),
    Step,
    End,
}

// An event, and how many bytes it takes with the space behind it.
#[derive(Clone, Copy)]
pub struct Seen {
    pub event: Event,
    pub taken: usize,
}

// An event, and the place of the next one.
#[derive(Clone, Copy)]
pub struct Next {
    pub event: Event,
    pub place: usize,
}

// A name's key, and the place of what follows it.
#[derive(Clone, Copy)]
struct Word {
    key: Key,
    place: usize,
}

// The place of the first word behind a line's key word.
pub fn first_word(kind: Kind) -> usize
    ensures { result ≡ first_word kind }
{
    match kind {
        Kind::Bad => 2,
        Kind::Is => 4,
        Kind::Cut | Kind::Did => 5,
        Kind::True | Kind::Show | Kind::Text | Kind::Best => 6,
        Kind::Total | Kind::Start | Kind::Value | Kind::Count => 7,
        Kind::Reward | Kind::Action | Kind::Backup | Kind::Reduce => 8,
        Kind::Variant | Kind::Becomes | Kind::Objects => 9,
        Kind::Constant | Kind::Discount => 10,
        Kind::Predicate => 11,
    }
}

// The place i, or the one behind it where a space stands there.
#[tactic(auto, unfolding(crate::specs::Front::space))]
fn skip(s: &[u8], i: usize) -> usize
    ensures { result ≡ space s.now i }
{
    if words::byte_at(s, i) == b' ' {
        i + 1
    } else {
        i
    }
}

// The place behind a name that ends at i: an atom's closing bracket is passed too.
#[tactic(auto, unfolding(crate::specs::Front::behind))]
fn pass(s: &[u8], i: usize) -> usize
    ensures { result ≡ behind s.now i }
{
    if words::byte_at(s, i) == b')' {
        skip(s, i + 1)
    } else {
        skip(s, i)
    }
}

// How many spaces stand before the first closing bracket: the count of words behind a name.
pub fn count_words(s: &[u8]) -> usize
    ensures { result ≡ spaces s.now }
{
    let mut n = 0;
    for b in s {
        if *b == b')' {
            return n;
        }
        n += usize::from(*b == b' ');
    }
    n
}

// The name at i.
#[tactic(auto, unfolding(crate::specs::Front::word_at, crate::specs::Front::name_key))]
fn word_at(s: &[u8], i: usize) -> Word
    ensures { result ≡ word_at s.now i }
{
    let t = words::rest(s, i);
    let n = words::name_run(t);
    let place = pass(s, i + n);
    if 15 < n {
        return Word {
            key: Key { a: 0, b: 0 },
            place,
        };
    }
    Word {
        key: words::key_of(&t[..n]),
        place,
    }
}

// Whether an if form stands here: its atom opens a second bracket.
#[tactic(auto, unfolding(crate::specs::Front::is_if))]
fn is_if(s: &[u8]) -> bool
    ensures { result ≡ is_if s.now }
{
    words::byte_at(s, 1) == b'i'
        && words::byte_at(s, 2) == b'f'
        && words::byte_at(s, 3) == b' '
        && words::byte_at(s, 4) == b'('
}

// The atom whose bracket stands at i.
#[tactic(auto, unfolding(crate::specs::Front::atom_front))]
fn atom_at(s: &[u8], i: usize) -> Seen
    requires { i ≤ 4 }
    ensures { result ≡ atom_front s.now i }
{
    let j = i + 1;
    if words::byte_at(s, j) == b'=' {
        return Seen {
            event: Event::Equal,
            taken: skip(s, i + 2),
        };
    }
    let w = word_at(s, j);
    Seen {
        event: Event::Holds(w.key, count_words(words::rest(s, j))),
        taken: w.place,
    }
}

// The number that s begins with.
#[tactic(auto, unfolding(crate::specs::Front::number_front))]
fn number_at(s: &[u8]) -> Seen
    ensures { result ≡ number_front s.now }
{
    let n = words::digit_run(s);
    Seen {
        event: Event::Number(words::value(&s[..n])),
        taken: skip(s, n),
    }
}

// The event at the front of s.
#[tactic(auto, unfolding(crate::specs::Front::front_of, words::specs::Bytes::is_letter, words::specs::Bytes::is_digit))]
pub fn front(s: &[u8]) -> Seen
    ensures { result ≡ front_of s.now }
{
    if s.len() <= 1 {
        return Seen {
            event: Event::End,
            taken: 0,
        };
    }
    match s[0] {
        b'a'..=b'z' => {
            let w = word_at(s, 0);
            Seen {
                event: Event::Name(w.key),
                taken: w.place,
            }
        },
        b'0'..=b'9' => number_at(s),
        b'?' => {
            let w = word_at(s, 1);
            Seen {
                event: Event::Variable(w.key),
                taken: w.place,
            }
        },
        b'!' => {
            let w = word_at(s, 1);
            Seen {
                event: Event::Parameter(w.key),
                taken: w.place,
            }
        },
        b'%' => {
            let w = word_at(s, 1);
            Seen {
                event: Event::Minimum(w.key),
                taken: w.place,
            }
        },
        b'(' => if is_if(s) {
            atom_at(s, 4)
        } else {
            atom_at(s, 0)
        },
        b')' => Seen {
            event: Event::Step,
            taken: skip(s, 1),
        },
        _ => Seen {
            event: Event::End,
            taken: 0,
        },
    }
}

// The event at the place i of a line, and the place of the next.
pub fn next_event(s: &[u8], i: usize) -> Next
    requires { i ≤ length s.now }
    ensures { result ≡ next_at s.now i }
{
    let seen = front(&s[i..]);
    Next {
        event: seen.event,
        place: i + seen.taken,
    }
}

// Whether the line ends here.
pub fn is_end(event: Event) -> bool
    ensures { result ≡ is_end event }
{
    matches!(event, Event::End)
}

// The key of a name, ?name, !name or %name.
pub fn key_in(event: Event) -> Key
    ensures { result ≡ key_in event }
{
    match event {
        Event::Name(key)
        | Event::Variable(key)
        | Event::Parameter(key)
        | Event::Minimum(key)
        | Event::Holds(key, _) => key,
        _ => Key { a: 0, b: 0 },
    }
}

// A number that a word is; 0 for other words.
pub fn number_in(event: Event) -> u64
    ensures { result ≡ number_in event }
{
    match event {
        Event::Number(v) => v,
        _ => 0,
    }
}
