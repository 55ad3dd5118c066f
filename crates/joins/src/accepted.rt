// A grammar table that is accepted, and a graph table that is accepted with it.
ghost use Rattle.std.specs.Prelude.{◌≡◌, true};
ghost use Rattle.questions.specs.Checking.{check_grammar};
ghost use Rattle.joins.specs.Joins.{Accepted};

// A grammar table that some text could have filled.
#[derive(Clone, Copy)]
pub struct AcceptedGrammar<'a> {
    pub words: &'a [u64],
    ghost fit: { check_grammar words.now ≡ true },
}

// Tables that texts could have filled, the graph's beside the grammar's.
#[derive(Clone, Copy)]
pub struct AcceptedTables<'g, 'h> {
    pub grammar: AcceptedGrammar<'g>,
    pub graph: &'h [u64],
    ghost fit: { Accepted grammar.words.now graph.now },
}
