// A row of a derivation file that passed the tests of its size.
ghost use Rattle.joins.specs.Tables.{grammar_in, graph_in};
ghost use Rattle.replayer.specs.Fitting.{SizedRow};

use joins::accepted::AcceptedTables;

// The fields of a row, which are those that its rule in the tables needs, and place its nodes on graph nodes.
#[derive(Clone, Copy)]
pub(crate) struct Row<'g, 'h, 'r> {
    pub(crate) tables: AcceptedTables<'g, 'h>,
    pub(crate) fields: &'r [u64],
    ghost sized: { SizedRow (grammar_in tables) (graph_in tables) fields.now },
}
