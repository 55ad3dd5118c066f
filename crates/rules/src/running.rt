// What a run of the rules looks up: accepted tables, and what is worked out from them once.
ghost use Rattle.joins.specs.Graphs.{GraphTable};
ghost use Rattle.rules.specs.Plans.{PlanTable};

use crate::plans::PLAN_TABLE_WORDS;
use joins::accepted::AcceptedTables;
use joins::graphs::GRAPH_TABLE_WORDS;

// The tables of a grammar and a graph that are accepted together, the plan nodes above each, and the graph's nodes and
// edges by sets.
#[derive(Clone, Copy)]
pub struct RunTables<'g, 'h, 'a> {
    pub tables: AcceptedTables<'g, 'h>,
    pub plans: &'a [u32; PLAN_TABLE_WORDS],
    pub graph: &'a [u64; GRAPH_TABLE_WORDS],
    ghost planned: { PlanTable tables.grammar.words.now plans.now },
    ghost graphed: { GraphTable tables.grammar.words.now tables.graph.now graph.now },
}
