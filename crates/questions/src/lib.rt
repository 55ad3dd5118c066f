// The questions of grammar and graph files: the types that definitions and contracts speak of. Definitions in specs/,
// theorems in proofs/, no code.

#![tactic(auto)]

// What is due: the next line of a grammar file, or of a graph file. Each kind of line is a case with its own places.
#[derive(Clone, Copy, PartialEq, Eq, Debug)]
pub enum Due {
    Grammar,
    Symbol(u64),
    Rule(u64),
    RuleEdge(u64, u64),
    PlanLine(u64, u64),
    Graph,
    GraphEdge(u64),
    Nothing,
}

// Why a text or a table is refused, with 01's numbers (docs/REFUSALS.md): the shape of a line, the letter due, the
// fixed fields, how many nodes are listed and which, nodes on no edge, the plan, and what is lent.
#[derive(Clone, Copy, PartialEq, Eq, Debug)]
pub enum Refusal {
    Shape = 1,
    Letter,
    Fields,
    Count,
    Nodes,
    Uncovered,
    Plan,
    Unfit,
}
