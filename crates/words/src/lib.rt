// Bytes, names and numbers: the words of a text, and a name as two machine words.
#![tactic(auto)]

ghost use Rattle.std.specs.Prelude.{◌≡◌, ◌+◌, ◌≤◌, ◌<◌, length, get_or, drop};
ghost use Rattle.words.specs.Bytes.{is_letter, is_digit, is_name_byte, run, value_of};
ghost use Rattle.words.specs.Inner.{name_form};
ghost use Rattle.words.specs.Words.{number_form};
ghost use Rattle.words.specs.Keys.{little, key_of};

// A name: its first eight bytes and the others, the first byte lowest.
#[derive(Clone, Copy, PartialEq, Eq)]
pub struct Key {
    pub a: u64,
    pub b: u64,
}

// The byte at i, or 0 past the end. No byte of the grammar is 0.
pub fn byte_at(s: &[u8], i: usize) -> u8
    ensures { result ≡ get_or s.now i 0 }
{
    if i < s.len() { s[i] } else { 0 }
}

// The bytes from i on; none past the end.
pub fn rest(s: &[u8], i: usize) -> &[u8]
    ensures { result.now ≡ drop i s.now }
{
    if i <= s.len() { &s[i..] } else { &s[..0] }
}

#[tactic(auto, unfolding(crate::specs::Bytes::is_letter))]
pub fn letter(b: u8) -> bool
    ensures { result ≡ is_letter b }
{
    matches!(b, b'a'..=b'z')
}

#[tactic(auto, unfolding(crate::specs::Bytes::is_digit))]
pub fn digit(b: u8) -> bool
    ensures { result ≡ is_digit b }
{
    matches!(b, b'0'..=b'9')
}

#[tactic(auto, unfolding(crate::specs::Bytes::is_name_byte))]
pub fn name_byte(b: u8) -> bool
    ensures { result ≡ is_name_byte b }
{
    letter(b) || digit(b)
}

// How many bytes of a name s begins with.
pub fn name_run(s: &[u8]) -> usize
    ensures { result ≡ run is_name_byte s.now }
{
    s.iter().take_while(|b| name_byte(**b)).count()
}

// How many digits s begins with.
pub fn digit_run(s: &[u8]) -> usize
    ensures { result ≡ run is_digit s.now }
{
    s.iter().take_while(|b| digit(**b)).count()
}

// The name that s begins with: how many bytes it has.
#[tactic(auto, unfolding(crate::specs::Inner::name_form))]
pub fn read_name(s: &[u8]) -> Option<usize>
    ensures { result ≡ name_form s.now }
{
    if !letter(byte_at(s, 0)) {
        return None;
    }
    let n = name_run(s);
    if n <= 15 { Some(n) } else { None }
}

// The number that s begins with: how many digits it has.
#[tactic(auto, unfolding(crate::specs::Words::number_form))]
pub fn read_number(s: &[u8]) -> Option<usize>
    ensures { result ≡ number_form s.now }
{
    let n = digit_run(s);
    if n == 0 || n != 1 && byte_at(s, 0) == b'0' {
        None
    } else {
        Some(n)
    }
}

const OVER: u64 = 1000000000000000001;

// The value of a row of digits; anything above 10^18 is answered as 10^18 + 1.
pub fn value(s: &[u8]) -> u64
    requires { run is_digit s.now ≡ length s.now }
    ensures { result ≡ value_of s.now }
{
    let mut v: u64 = 0;
    for b in s {
        v = (v * 10 + u64::from(*b - b'0')).min(OVER);
    }
    v
}

// At most eight bytes as one number.
fn little_of(s: &[u8]) -> u64
    requires { length s.now ≤ 8 }
    ensures { result ≡ little s.now }
{
    let mut v: u64 = 0;
    for i in (0..s.len()).rev() {
        v = v * 256 + u64::from(s[i]);
    }
    v
}

// The key of a name.
pub fn key_of(s: &[u8]) -> Key
    requires { length s.now ≤ 15 }
    ensures { result ≡ key_of s.now }
{
    if s.len() <= 8 {
        return Key {
            a: little_of(s),
            b: 0,
        };
    }
    Key {
        a: little_of(&s[..8]),
        b: little_of(&s[8..]),
    }
}
