// The chart: start and run on lent memory.

#![tactic(auto)]

ghost use Rattle.std.specs.Prelude.{None, ◌≡◌, true};
ghost use Rattle.agenda.specs.Steps.{handled_count};
ghost use Rattle.records.specs.Words.{item_count, records_at, chart_of};
ghost use Rattle.steps.specs.Runs.{next_in};
ghost use Rattle.charting.specs.Calls.{fit, answer_of, start_of, run_of, standing_of};
ghost use Rattle.charting.specs.Facts.{StartChoices, RunChoices};

use charting::Unready;
use joins::accepted::{AcceptedGrammar, AcceptedTables};
use rules::planned::PlannedTables;
use rules::plans::PLAN_TABLE_WORDS;

// Question 8 before a start: does the chart hold 1 to 4,096 items, and could texts have filled the tables?
fn is_fit(grammar: &[u64], graph: &[u64], chart: &[u64]) -> bool
    ensures { result ≡ fit grammar.now graph.now chart.now }
{
    if !validator::holds(chart) {
        return false;
    }
    if !tables::checking::check_grammar(grammar) {
        return false;
    }
    tables::checking::check_graph(grammar, graph)
}

// Makes the leaf items present, and nothing else. Of the chart it looks only at the size.
pub fn start(grammar: &[u64], graph: &[u64], chart: &mut [u64]) -> Result<u64, Unready>
    ensures { (result ≡ (start_of grammar.now graph.now chart.old).answer) × (chart.new ≡ (start_of grammar.now graph.now chart.old).words) × StartChoices grammar.now graph.now chart.old result }
{
    if !is_fit(grammar, graph, chart) {
        return Err(Unready::Unfit);
    }
    let g = AcceptedGrammar { words: grammar };
    steps::restart(&g, chart);
    if records::mark_of(chart) != 0 {
        return Err(Unready::TooSmall);
    }
    Ok(0)
}

// Questions 9 and 10, by what stands in the chart, of which `done` items are handled: items wait where these are not
// all.
fn outcome_of(chart: &[u64], done: u64) -> Result<u64, Unready>
    requires { done ≡ handled_count (records_at chart.now (item_count chart.now)) }
    ensures { result ≡ answer_of (chart_of chart.now) }
{
    if records::mark_of(chart) != 0 {
        return Err(Unready::TooSmall);
    }
    if done == records::item_count(chart) {
        return Ok(done);
    }
    Err(Unready::Unfinished(done))
}

// The same, where `all` only if no step is left: then the records need not be counted.
fn outcome_after(chart: &[u64], all: bool) -> Result<u64, Unready>
    requires { all ≡ true → next_in (chart_of chart.now) ≡ None }
    ensures { result ≡ answer_of (chart_of chart.now) }
{
    let n = records::item_count(chart);
    if !all {
        return outcome_of(chart, records::handled_steps(chart, n));
    }
    if records::mark_of(chart) != 0 {
        return Err(Unready::TooSmall);
    }
    Ok(n)
}

// How the chart stands: what a run of no steps says.
pub fn standing(grammar: &[u64], graph: &[u64], chart: &[u64]) -> Result<u64, Unready>
    ensures { result ≡ standing_of grammar.now graph.now chart.now }
{
    if !is_fit(grammar, graph, chart) {
        return Err(Unready::Unfit);
    }
    let t = AcceptedTables {
        grammar: AcceptedGrammar { words: grammar },
        graph,
    };
    let mut plans = [0u32; PLAN_TABLE_WORDS];
    rules::plans::fill(&t.grammar, &mut plans);
    let planned = PlannedTables {
        tables: t,
        plans: &plans,
    };
    match validator::known(&planned, chart) {
        None => Err(Unready::Unfit),
        Some(handled) => outcome_of(chart, handled),
    }
}

// Does the steps given, or as many as are left.
pub fn run(grammar: &[u64], graph: &[u64], chart: &mut [u64], steps: u64) -> Result<u64, Unready>
    ensures { (result ≡ (run_of grammar.now graph.now chart.old steps).answer) × (chart.new ≡ (run_of grammar.now graph.now chart.old steps).words) × RunChoices grammar.now graph.now chart.old steps result chart.new }
{
    if !is_fit(grammar, graph, chart) {
        return Err(Unready::Unfit);
    }
    let t = AcceptedTables {
        grammar: AcceptedGrammar { words: grammar },
        graph,
    };
    let mut plans = [0u32; PLAN_TABLE_WORDS];
    rules::plans::fill(&t.grammar, &mut plans);
    let planned = PlannedTables {
        tables: t,
        plans: &plans,
    };
    if validator::known(&planned, chart).is_none() {
        return Err(Unready::Unfit);
    }
    let all = steps::advance(&planned, chart, steps);
    outcome_after(chart, all)
}
