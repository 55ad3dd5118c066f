// What a start and the steps of a run make of a lent chart's words, over accepted tables.

#![tactic(auto)]

ghost use Rattle.std.specs.Prelude.{None, ◌≡◌, true, List, ℕ, ◌≤◌, length};
ghost use Rattle.agenda.specs.Steps.{start_chart, step_with, run_chart};
ghost use Rattle.questions.specs.Abstract.{grammar_of};
ghost use Rattle.joins.specs.Tables.{grammar_in, graph_in};
ghost use Rattle.records.specs.Words.{header_words, capacity, chart_of, written};
ghost use Rattle.steps.specs.Runs.{next_in, is_some, marked_by};
ghost use Rattle.ranking.specs.Ranking.{Ranked};
ghost use Rattle.index.specs.Index.{ranks_of};
ghost use Rattle.steps.specs.Ready.{Tables, Ready, Runnable};

use index::Index;
use joins::accepted::AcceptedGrammar;
use joins::graphs::GRAPH_TABLE_WORDS;
use lookups::Lookups;
use pivots::KEY_TABLE_WORDS;
use rules::planned::{PlannedGrammar, PlannedTables};
use rules::running::RunTables;

mod consequences;
mod leaves;
mod lookups;

// The chart made anew: only the leaf items are present.
pub fn restart(g: &AcceptedGrammar, chart: &mut [u64])
    requires { header_words ≤ length chart.old }
    ensures { chart.new ≡ written chart.old (start_chart (grammar_of g.now.words.now) (capacity chart.old)) }
{
    records::clear(chart);
    leaves::add_leaves(g, chart);
}

// The record that the next step takes becomes handled: none where nothing waits or the chart is marked.
fn take(chart: &mut [u64], index: &mut Index) -> Option<u64>
    requires { Ranked (ranks_of index.old.words) (chart_of chart.old).records × (length (chart_of chart.old).records ≤ 4096) }
    ensures { (result ≡ next_in (chart_of chart.old)) × (chart.new ≡ marked_by chart.old result) × ((g h keys : List ℕ) → Ready g h keys chart.old index.old.words index.old.lists → Ready g h keys chart.new index.new.words index.new.lists) }
{
    if records::mark_of(chart) != 0 {
        return None;
    }
    let j = index.take(chart)?;
    records::mark_handled(chart, j);
    Some(j)
}

// One step, if one is left: a record is handled, and what it makes with graph edges and handled records is added.
fn step(t: &Lookups, chart: &mut [u64], index: &mut Index) -> bool
    requires { Tables t.now.run.tables.grammar.words.now t.now.run.tables.graph.now t.now.keys.now × Ready t.now.run.tables.grammar.words.now t.now.run.tables.graph.now t.now.keys.now chart.old index.old.words index.old.lists }
    ensures { (result ≡ is_some (next_in (chart_of chart.old))) × (chart.new ≡ written chart.old (step_with (grammar_in t.now.run.tables) (graph_in t.now.run.tables) (capacity chart.old) (chart_of chart.old) (next_in (chart_of chart.old)))) × Ready t.now.run.tables.grammar.words.now t.now.run.tables.graph.now t.now.keys.now chart.new index.new.words index.new.lists }
{
    match take(chart, index) {
        None => false,
        Some(j) => {
            consequences::add_all(t, chart, index, j);
            true
        }
    }
}

// So many steps, or as many as are left, with an index of the chart's records; true only where none is left.
fn advance_by(t: &Lookups, chart: &mut [u64], index: &mut Index, steps: u64) -> bool
    requires { Tables t.now.run.tables.grammar.words.now t.now.run.tables.graph.now t.now.keys.now × Ready t.now.run.tables.grammar.words.now t.now.run.tables.graph.now t.now.keys.now chart.old index.old.words index.old.lists }
    ensures { (chart.new ≡ written chart.old (run_chart (grammar_in t.now.run.tables) (graph_in t.now.run.tables) (capacity chart.old) steps (chart_of chart.old))) × (result ≡ true → next_in (chart_of chart.new) ≡ None) }
{
    for _i in 0..steps {
        if !step(t, chart, index) {
            return true;
        }
    }
    false
}

// So many steps, or as many as are left; true only where none is left. What hangs on the tables alone and the index
// are made once for all of them.
pub fn advance(t: &PlannedTables, chart: &mut [u64], steps: u64) -> bool
    requires { Runnable t.now.tables.grammar.words.now t.now.tables.graph.now chart.old }
    ensures { (chart.new ≡ written chart.old (run_chart (grammar_in t.now.tables) (graph_in t.now.tables) (capacity chart.old) steps (chart_of chart.old))) × (result ≡ true → next_in (chart_of chart.new) ≡ None) }
{
    let mut keys = [0u32; KEY_TABLE_WORDS];
    let g = PlannedGrammar {
        grammar: t.tables.grammar,
        plans: t.plans,
    };
    pivots::fill(&g, &mut keys);
    let mut graph = [0u64; GRAPH_TABLE_WORDS];
    joins::graphs::fill(&t.tables, &mut graph);
    let mut index = Index::empty();
    let run = RunTables {
        tables: t.tables,
        plans: t.plans,
        graph: &graph,
    };
    index.build(&run, &keys, chart);
    let lookups = Lookups { run, keys: &keys };
    advance_by(&lookups, chart, &mut index, steps)
}
