// What the writer answers and writes, and demand 3 over any list of calls: definitions and theorems.

#![tactic(auto)]

ghost use Rattle.std.specs.Prelude.{◌≡◌};
ghost use Rattle.writing.specs.Writing.{error_of};

use charting::Unready;

// Why the writer writes nothing: the tables or the chart are refused, or the chart leads to no derivation (8); the
// chart does not hold the closure (9); items wait after the steps done since start (10); the goal is not among the
// items (11); or the output does not hold the derivation (12).
// It is the error of a Result, with a case for each refusal.
#[derive(Clone, Copy, Debug, PartialEq, Eq)]
pub enum WriteError {
    Unfit,
    TooSmall,
    Unfinished(u64),
    Underivable,
    NoRoom,
}

// Where a chart is not ready, nothing is written from it.
impl From<Unready> for WriteError {
    ghost from_gives = { λ u e. e ≡ error_of u };

    fn from(u: Unready) -> WriteError {
        match u {
            Unready::Unfit => WriteError::Unfit,
            Unready::TooSmall => WriteError::TooSmall,
            Unready::Unfinished(k) => WriteError::Unfinished(k),
        }
    }
}

// An application of a rule, its number being its place in the row: the rule, how many nodes and edges the rule has,
// the graph node of each rule node, and for each rule edge the graph edge, or the number of the application that
// replaces it. Unused places are 0.
#[repr(C)]
#[derive(Clone, Copy)]
pub struct Application {
    pub rule: u64,
    pub node_count: u64,
    pub part_count: u64,
    pub nodes: [u64; 8],
    pub parts: [u64; 8],
}
