// Renaming of listings: closing up, moving apart and freeing.
#![tactic(auto)]

ghost use Rattle.std.specs.Prelude.{◌≡◌, ◌++◌, ◌<◌, ◌≤◌, length, drop};
ghost use Rattle.label.specs.Limits.{term_end, parameter_count};
ghost use Rattle.label.specs.Inner.{map_of};
ghost use Rattle.label.specs.Renamings.{renamed, freeing};
ghost use Rattle.rename.specs.Inner.{labelled, relabelled};
ghost use Rattle.rename.specs.Maps.{tabled, close_at};
ghost use Rattle.rename.specs.Calls.{Closable, Countable, Word, Renamable};
ghost use Rattle.rename.specs.Steps.{Numbering, number_after};

use label::{Label, Term};

// Writes the map that closes up, or moves apart: used[t] marks the terms that occur, the used variables get the numbers from `first` on, and the used minimum variables those from `minimum` on.
pub fn close_map(used: &[u64], first: u64, minimum: u64, map: &mut [u64])
    requires { Closable used.now first minimum map.old }
    ensures { map.new ≡ tabled (close_at used.now first minimum) term_end ++ drop term_end map.old }
{
    let mut next = first;
    for t in 0..Term::END {
        map[t as usize] = close_term(used, first, minimum, t, next);
        next = number_after(used, first, minimum, t, next);
    }
}

// What closing up writes for the term t, where `next` is the number of the next used variable.
fn close_term(used: &[u64], first: u64, minimum: u64, t: u64, next: u64) -> u64
    requires { Numbering used.now first minimum t next }
    ensures { result ≡ close_at used.now first minimum t }
{
    if t < Term::FIRST_VARIABLE {
        t
    } else if used[t as usize] == 0 {
        0
    } else {
        next
    }
}

// The number of the next used variable behind the term t: the minimum variables have numbers of their own.
fn number_after(used: &[u64], first: u64, minimum: u64, t: u64, next: u64) -> u64
    requires { Numbering used.now first minimum t next }
    ensures { result ≡ number_after used.now first minimum t }
{
    if t < Term::FIRST_VARIABLE {
        return next;
    }
    if t + 1 == Term::FIRST_MINIMUM {
        return minimum;
    }
    if used[t as usize] == 0 {
        return next;
    }
    next + 1
}

// Writes the map that frees the parameters of an action that has `count` of them.
pub fn free_map(count: u64, map: &mut [u64])
    requires { Countable count map.old }
    ensures { map.new ≡ tabled (freeing count) term_end ++ drop term_end map.old }
{
    for t in 0..Term::END {
        map[t as usize] = free_term(count, t);
    }
}

// What freeing writes for the term t.
fn free_term(count: u64, t: u64) -> u64
    requires t_lt_term_end { t < term_end }
    requires count_le_parameter_count { count ≤ parameter_count }
    ensures { result ≡ freeing count t }
{
    if t < Term::FIRST_PARAMETER {
        return t;
    }
    if t < Term::FIRST_PARAMETER + count {
        return t + (Term::FIRST_VARIABLE - Term::FIRST_PARAMETER);
    }
    if t < Term::FIRST_VARIABLE {
        return t;
    }
    if t < Term::FIRST_MINIMUM {
        return t + count;
    }
    t
}

// Writes the words of a listing with each branch row's label renamed, term t by map[t]. The words behind stay.
pub fn relabel_rows(arities: &[u64], words: &[u64], map: &[u64], out: &mut [u64])
    requires { Renamable arities.now words.now map.now out.old }
    ensures { out.new ≡ relabelled (renamed arities.now (map_of map.now)) words.now ++ drop (length words.now) out.old }
{
    for k in 0..words.len() / 3 {
        out[k * 3] = relabel_word(arities, map, words[k * 3]);
        out[k * 3 + 1] = words[k * 3 + 1];
        out[k * 3 + 2] = words[k * 3 + 2];
    }
}

// The first word of a row: a branch's label renamed, or a leaf's mark.
fn relabel_word(arities: &[u64], map: &[u64], x: u64) -> u64
    requires { Word arities.now map.now x }
    ensures { result ≡ labelled (renamed arities.now (map_of map.now)) x }
{
    if x == Label::LEAF {
        x
    } else {
        Label { packed: x }.renamed(arities, map).packed
    }
}
