// A grammar table that is accepted, and the plan table that was filled from it.
ghost use Rattle.rules.specs.Plans.{PlanTable};

use crate::plans::PLAN_TABLE_WORDS;
use joins::accepted::{AcceptedGrammar, AcceptedTables};

// An accepted grammar, with what its plan nodes ask for and leave open.
#[derive(Clone, Copy)]
pub struct PlannedGrammar<'g, 'p> {
    pub grammar: AcceptedGrammar<'g>,
    pub plans: &'p [u32; PLAN_TABLE_WORDS],
    ghost planned: { PlanTable grammar.words.now plans.now },
}

// Accepted tables, with the same of their grammar.
#[derive(Clone, Copy)]
pub struct PlannedTables<'g, 'h, 'p> {
    pub tables: AcceptedTables<'g, 'h>,
    pub plans: &'p [u32; PLAN_TABLE_WORDS],
    ghost planned: { PlanTable tables.grammar.words.now plans.now },
}
