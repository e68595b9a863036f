// What the words of a line with a diagram are. What they come to stands in specs/; crate reader reads them.
#![tactic(auto)]

// A variable is a maximum variable, ?name, or a minimum variable, %name.
#[derive(Clone, Copy)]
pub enum Kind {
    Maximum,
    Minimum,
}

// Which variables may be named: any, numbered as they come; none; those in the table.
#[derive(Clone, Copy)]
pub enum Binding {
    Any,
    None,
    Only,
}
