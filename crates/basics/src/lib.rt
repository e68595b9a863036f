// Numbers that every layer uses.
#![tactic(auto)]

ghost use Rattle.std.specs.Prelude.{◌≡◌};

// A table's entry as an index.
pub fn wide(x: u16) -> usize
    ensures { result ≡ x }
{
    x as usize
}
