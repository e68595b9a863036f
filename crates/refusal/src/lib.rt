// The refusals of documents 01 and 02, by trade word.
#![tactic(auto)]

ghost use Rattle.std.specs.Prelude.{◌≡◌};
ghost use Rattle.refusal.specs.Numbers.{number_of};

#[derive(Clone, Copy)]
pub enum Refusal {
    Form = 1,
    Name = 2,
    Arity = 3,
    Range = 4,
    Place = 5,
    Unbound = 6,
    Truth = 7,
    Variables = 8,
    Space = 9,
    Pairs = 10,
    Value = 11,
    Scale = 12,
    Weights = 13,
    Listing = 14,
    Valuations = 15,
    Nothing = 16,
    Paths = 17,
    Buffer = 18,
    Length = 19,
    Missing = 20,
    Weightless = 21,
    Crowded = 22,
    Tally = 23,
    Ground = 24,
    Minimum = 25,
    Kinds = 26,
    Runs = 27,
    Combinations = 28,
}

impl Refusal {
    // The number of the trade word.
    pub fn number(self) -> u64
        ensures { result ≡ number_of self }
    {
        self as u64
    }
}
