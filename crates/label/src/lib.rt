// Terms, atoms and labels: kinds, packing, order, and renaming.
#![tactic(auto)]

ghost use Rattle.std.specs.Prelude.{◌≡◌, ◌+◌, ◌*◌, ◌<◌, ◌≤◌, min, length};
ghost use Rattle.label.specs.Limits.{constant_count, parameter_count, variable_count, minimum_count, term_base, most_places, predicate_count};
ghost use Rattle.label.specs.Terms.{is_term, kind_of, constant_term, parameter_term, variable_term, minimum_term};
ghost use Rattle.label.specs.Inner.{is_label_under, Compared, map_of};
ghost use Rattle.label.specs.Labels.{are_arities, packed, predicate_of, place_at, unpacked, is_label, equal_atom, equates, test_of};
ghost use Rattle.label.specs.Renamings.{placed, mapped, moved, renamed};
ghost use Rattle.label.specs.Callers.{ends_at, Packable, Mappable, Movable, Replaced};

// What a term is, by its number.
#[derive(Clone, Copy)]
pub enum Kind {
    Constant,
    Parameter,
    Variable,
    Minimum,
    None,
}

#[derive(Clone, Copy)]
pub struct Term {
    pub number: u64,
}

impl Term {
    pub const CONSTANTS: u64 = 16;

    pub const FIRST_PARAMETER: u64 = 16;

    pub const PARAMETERS: u64 = 4;

    pub const FIRST_VARIABLE: u64 = 64;

    pub const VARIABLES: u64 = 64;

    pub const FIRST_MINIMUM: u64 = 128;

    pub const MINIMUMS: u64 = 64;
    // Every term's number is below this.
    pub const END: u64 = 192;
    // A place of a label takes so many bits: its places are packed in this base.
    pub const BITS: u64 = 8;

    pub const BASE: u64 = 256;

    // Constant i.
    pub fn constant(i: u64) -> Term
        requires { i < constant_count }
        ensures { result.number ≡ constant_term i }
    {
        Term { number: i }
    }

    // Action parameter i.
    pub fn parameter(i: u64) -> Term
        requires { i < parameter_count }
        ensures { result.number ≡ parameter_term i }
    {
        Term {
            number: Term::FIRST_PARAMETER + i,
        }
    }

    // Variable i.
    pub fn variable(i: u64) -> Term
        requires { i < variable_count }
        ensures { result.number ≡ variable_term i }
    {
        Term {
            number: Term::FIRST_VARIABLE + i,
        }
    }

    // Minimum variable i.
    pub fn minimum(i: u64) -> Term
        requires { i < minimum_count }
        ensures { result.number ≡ minimum_term i }
    {
        Term {
            number: Term::FIRST_MINIMUM + i,
        }
    }

    // The kind of the term, or None where no term has the number.
    pub fn kind(self) -> Kind
        ensures { result ≡ kind_of self.number }
    {
        let t = self.number;
        if t < Term::CONSTANTS {
            return Kind::Constant;
        }
        if t < Term::FIRST_PARAMETER + Term::PARAMETERS {
            return Kind::Parameter;
        }
        if t < Term::FIRST_VARIABLE {
            return Kind::None;
        }
        if t < Term::FIRST_VARIABLE + Term::VARIABLES {
            return Kind::Variable;
        }
        if t < Term::FIRST_MINIMUM + Term::MINIMUMS {
            return Kind::Minimum;
        }
        Kind::None
    }
}

// A predicate and its six places, unused ones 0.
#[derive(Clone, Copy)]
pub struct Atom {
    pub predicate: u64,
    pub first: u64,
    pub second: u64,
    pub third: u64,
    pub fourth: u64,
    pub fifth: u64,
    pub sixth: u64,
}

// An atom as one number.
#[derive(Clone, Copy)]
pub struct Label {
    pub packed: u64,
}

// What an atom asks: t = t is plain truth, everything else the test of a label.
#[derive(Clone, Copy)]
pub enum Test {
    Always,
    Is(Label),
}

impl Atom {
    // The atom's label.
    pub fn pack(self) -> Label
        requires { Packable self }
        ensures { result.packed ≡ packed self }
    {
        Label {
            packed: (((((self.predicate * Term::BASE + self.first) * Term::BASE + self.second)
                * Term::BASE
                + self.third)
                * Term::BASE
                + self.fourth)
                * Term::BASE
                + self.fifth)
                * Term::BASE
                + self.sixth,
        }
    }

    // What the atom asks: an equality with its smaller term first, t = t as plain truth.
    pub fn test(self) -> Test
        requires { Packable self }
        ensures { result ≡ test_of self }
    {
        if self.predicate == Label::EQUALITY {
            equate(self.first, self.second)
        } else {
            Test::Is(self.pack())
        }
    }

    // The atom of arity n with all of its terms replaced together, term t by map[t].
    pub fn mapped(self, n: u64, map: &[u64]) -> Atom
        requires { Mappable self map.now }
        ensures { result ≡ mapped (map_of map.now) n self }
    {
        Atom {
            predicate: self.predicate,
            first: placed(map, n, 0, self.first),
            second: placed(map, n, 1, self.second),
            third: placed(map, n, 2, self.third),
            fourth: placed(map, n, 3, self.fourth),
            fifth: placed(map, n, 4, self.fifth),
            sixth: placed(map, n, 5, self.sixth),
        }
    }
}

impl Label {
    pub const PREDICATES: usize = 32;

    pub const PLACES: u64 = 6;

    pub const EQUALITY: u64 = 0;

    pub const EQUALITY_ARITY: u64 = 2;

    pub const PREDICATE_WEIGHT: u64 = 281474976710656;
    // What stands in a leaf's first word: above every label.
    pub const LEAF: u64 = 18446744073709551615;

    // The predicate of the label.
    pub fn predicate(self) -> u64
        ensures { result ≡ predicate_of self.packed }
    {
        self.packed / Label::PREDICATE_WEIGHT
    }

    // What stands in place k of the label, the first being place 0.
    pub fn place(self, k: u64) -> u64
        requires { k < most_places }
        ensures { result ≡ place_at self.packed k }
    {
        (self.packed >> (Label::PLACES - 1 - k) * Term::BITS) % Term::BASE
    }

    // The label's atom.
    pub fn unpack(self) -> Atom
        ensures { result ≡ unpacked self.packed }
    {
        Atom {
            predicate: self.predicate(),
            first: self.place(0),
            second: self.place(1),
            third: self.place(2),
            fourth: self.place(3),
            fifth: self.place(4),
            sixth: self.place(5),
        }
    }

    // Whether the places from place n on are all 0.
    fn ends_at(self, n: u64) -> bool
        requires { n ≤ most_places }
        ensures { result ≡ ends_at self.packed n }
    {
        let bits = (Label::PLACES - n) * Term::BITS;
        self.packed >> bits << bits == self.packed
    }

    // Whether the number is a label under the arity list, which is known to be one.
    pub fn fits(self, arities: &[u64]) -> bool
        requires { predicate_count ≤ length arities.now }
        ensures { result ≡ is_label arities.now self.packed }
    {
        let p = self.predicate() as usize;
        if p >= Label::PREDICATES {
            return false;
        }
        let used = arities[p].min(Label::PLACES);
        for k in 0..used {
            if !is_term(self.place(k)) {
                return false;
            }
        }
        self.ends_at(used) && (p != 0 || self.place(0) < self.place(1))
    }

    // Whether the list is an arity list and the number a label under it.
    pub fn is_under(self, arities: &[u64]) -> bool
        ensures { result ≡ is_label_under arities.now self.packed }
    {
        are_arities(arities) && self.fits(arities)
    }

    // The label's atom with all of its terms replaced together, term t by map[t].
    fn replaced(self, arities: &[u64], map: &[u64]) -> Atom
        requires { Movable arities.now map.now self.packed }
        ensures { Replaced arities.now map.now self.packed result }
    {
        let a = self.unpack();
        let p = a.predicate as usize;
        let n = arities[p];
        a.mapped(n, map)
    }

    // What the label asks once its terms are replaced.
    pub fn moved(self, arities: &[u64], map: &[u64]) -> Test
        requires { Movable arities.now map.now self.packed }
        ensures { result ≡ moved arities.now (map_of map.now) self.packed }
    {
        let a = self.replaced(arities, map);
        a.test()
    }

    // The label renamed by a map that keeps the order of its terms.
    pub fn renamed(self, arities: &[u64], map: &[u64]) -> Label
        requires { Movable arities.now map.now self.packed }
        ensures { result.packed ≡ renamed arities.now (map_of map.now) self.packed }
    {
        let a = self.replaced(arities, map);
        a.pack()
    }
}

// Whether a row whose first word is w comes before one whose first word is v: a label by the order of labels, a leaf after every label.
pub fn before(w: u64, v: u64) -> bool
    ensures { Compared w v result }
{
    w < v
}

// The atom that two terms are equal.
fn equal(t: u64, u: u64) -> Atom
    ensures { result ≡ equal_atom t u }
{
    Atom {
        predicate: Label::EQUALITY,
        first: t,
        second: u,
        third: 0,
        fourth: 0,
        fifth: 0,
        sixth: 0,
    }
}

// What the equality of two terms asks.
pub fn equate(t: u64, u: u64) -> Test
    requires t_lt_term_base { t < term_base }
    requires u_lt_term_base { u < term_base }
    ensures { result ≡ equates t u }
{
    if t == u {
        Test::Always
    } else if t < u {
        Test::Is(equal(t, u).pack())
    } else {
        Test::Is(equal(u, t).pack())
    }
}

// Whether t is the number of a term.
pub fn is_term(t: u64) -> bool
    ensures { result ≡ is_term t }
{
    t < Term::FIRST_PARAMETER + Term::PARAMETERS
        || t >= Term::FIRST_VARIABLE && t < Term::FIRST_MINIMUM + Term::MINIMUMS
}

// Place k of a predicate of arity n with its term t replaced.
fn placed(map: &[u64], n: u64, k: u64, t: u64) -> u64
    requires { t < length map.now }
    ensures { result ≡ placed (map_of map.now) n k t }
{
    if k < n { map[t as usize] } else { 0 }
}

// Whether the words are an arity list: 32 arities, the first 2, each at most 6.
pub fn are_arities(arities: &[u64]) -> bool
    ensures { result ≡ are_arities arities.now }
{
    if arities.len() != Label::PREDICATES {
        return false;
    }
    arities[0] == Label::EQUALITY_ARITY && arities.iter().all(|a| *a <= Label::PLACES)
}
