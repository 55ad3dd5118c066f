// Start and run on lent memory as definitions, and the run part of demand 3 over them.

#![tactic(auto)]

// Why start and run do not answer that all items are handled: the tables or the chart are refused (8), the chart does
// not hold the closure (9), or items wait after the steps done since start (10).
// It is the error of a Result, with a case for each refusal.
#[derive(Clone, Copy, Debug, PartialEq, Eq)]
pub enum Unready {
    Unfit,
    TooSmall,
    Unfinished(u64),
}
