// Lines of fixed columns as definitions, with their laws; the functions that keep to them are in crate `lines`.

#![tactic(auto)]

// What stands in a field of a line. The definitions tell a field that is no number from one that is missing.
#[derive(Clone, Copy, PartialEq, Eq, Debug)]
pub enum Cell {
    Number(u64),
    Bad,
    Missing,
}

// The letters that lines of the three files start with.
#[derive(Clone, Copy, PartialEq, Eq, Debug)]
pub enum Letter {
    G,
    S,
    R,
    E,
    P,
    H,
    D,
    A,
    Other,
}
