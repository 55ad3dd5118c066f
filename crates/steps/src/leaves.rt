// The leaf items of a grammar, which a start makes present.
ghost use Rattle.std.specs.Prelude.{◌≡◌, ◌<◌};
ghost use Rattle.hrg.specs.ClosureRun.{each_to};
ghost use Rattle.agenda.specs.Consequences.{leaf_records};
ghost use Rattle.questions.specs.Layout.{rule_count, rule_plan};
ghost use Rattle.questions.specs.Abstract.{grammar_of};
ghost use Rattle.joins.specs.Joins.{KnownNode};
ghost use Rattle.records.specs.Words.{Fits, grown_by};
ghost use Rattle.steps.specs.Leaves.{leaf_item, leaf_record, rule_leaves};

use agenda::ChartItem;
use joins::accepted::AcceptedGrammar;
use places::PLACES;

// The item of a leaf.
fn leaf(r: u64, p: u64) -> ChartItem
    requires { (r < 256) × (p < 256) }
    ensures { result ≡ leaf_item r p }
{
    ChartItem {
        kind: 0,
        of: r as u8,
        plan: p as u8,
        count: 0,
        edges: 0,
        nodes: [64u8; PLACES],
    }
}

// The item of plan node p of rule r, if that is a leaf.
fn add_leaf(g: &[u64], chart: &mut [u64], r: u64, p: u64)
    requires { KnownNode g.now r p × Fits chart.old }
    ensures { chart.new ≡ grown_by chart.old (leaf_record (grammar_of g.now) r p) }
{
    match layout::plan_kind(g, r, p) {
        0 => records::add(chart, records::new_record(leaf(r, p), 0, 0)),
        _ => (),
    }
}

// The leaf items of rule r, from its last plan node on.
fn add_rule(g: &AcceptedGrammar, chart: &mut [u64], r: u64)
    requires { (r < rule_count g.now.words.now) × Fits chart.old }
    ensures { chart.new ≡ grown_by chart.old (rule_leaves (grammar_of g.now.words.now) r) }
{
    for p in (0..layout::rule_plan(g.words, r)).rev() {
        add_leaf(g.words, chart, r, p);
    }
}

// The leaf items of all rules, from the last rule on.
pub(crate) fn add_leaves(g: &AcceptedGrammar, chart: &mut [u64])
    requires { Fits chart.old }
    ensures { chart.new ≡ grown_by chart.old (leaf_records (grammar_of g.now.words.now)) }
{
    for r in (0..layout::rule_count(g.words)).rev() {
        add_rule(g, chart, r);
    }
}
