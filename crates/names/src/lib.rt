// Tables of names: keys of two words each, one behind another in words that the caller lends.
#![tactic(auto)]

ghost use Rattle.std.specs.Prelude.{◌≡◌, ◌+◌, ◌*◌, ◌≤◌, length};
ghost use Rattle.names.specs.Inner.{put_key};
ghost use Rattle.names.specs.Keys.{same_key, key_at, keys_at, place_of};

use words::Key;

// Where the tables of a session's names begin: the constants' keys; the predicates' keys by number, that of equality unused, and so
// the first declared predicate's; the actions' keys; the keys of the last action's parameters; those of the variants of all
// actions, one action's behind another's. WORDS is what they take together.
pub const CONSTANTS: usize = 0;

pub const PREDICATES: usize = 32;

pub const DECLARED: usize = 34;

pub const ACTIONS: usize = 96;

pub const PARAMETERS: usize = 112;

pub const VARIANTS: usize = 120;

pub const WORDS: usize = 248;

// Whether two keys are equal.
#[tactic(auto, unfolding(crate::specs::Keys::same_key))]
pub fn same(x: Key, y: Key) -> bool
    ensures { result ≡ same_key x y }
{
    x == y
}

// Key i of the table that begins at base.
#[tactic(auto, unfolding(crate::specs::Keys::key_at))]
pub fn key_at(s: &[u64], base: usize, i: usize) -> Key
    requires { base + i * 2 + 2 ≤ length s.now }
    ensures { result ≡ key_at s.now base i }
{
    Key {
        a: s[base + i * 2],
        b: s[base + i * 2 + 1],
    }
}

// The place of the key among the n keys from base on, or n where it is none of them.
pub fn find(s: &[u64], base: usize, n: usize, key: Key) -> usize
    requires { base + n * 2 ≤ length s.now }
    ensures { result ≡ place_of key (keys_at s.now base n) }
{
    for i in 0..n {
        if same(key_at(s, base, i), key) {
            return i;
        }
    }
    n
}

// Writes a key at the word `at`.
#[tactic(auto, unfolding(crate::specs::Inner::put_key))]
pub fn put(s: &mut [u64], at: usize, key: Key)
    requires { at + 2 ≤ length s.old }
    ensures { s.new ≡ put_key s.old at key }
{
    s[at] = key.a;
    s[at + 1] = key.b;
}
