// What a rule of any number has, over an accepted grammar table: an unknown rule has an empty right side and no plan.
ghost use Rattle.std.specs.Prelude.{◌≡◌, ◌≤◌, ◌<◌, length};
ghost use Rattle.hrg.specs.Grammars.{kind_of, right_of, plan_of, edge_at};
ghost use Rattle.questions.specs.Layout.{rule_count};
ghost use Rattle.questions.specs.Abstract.{grammar_of};
ghost use Rattle.joins.specs.Joins.{KnownNode, KnownEdge};
ghost use Rattle.extractor.specs.Reading.{PlanLineOf, is_nonterminal};

use joins::accepted::AcceptedGrammar;
use layout::plans::{PlanLine, line_in};

// What is counted of rule r, 0 where it is unknown.
fn of_rule<F: Fn(&[u64], u64) -> u64>(g: &AcceptedGrammar, r: u64, count: F) -> u64
    requires { r < rule_count g.now.words.now → F.pre count g.now.words r }
    ensures known { r < rule_count g.now.words.now → F.post count g.now.words r result }
    ensures unknown { rule_count g.now.words.now ≤ r → result ≡ 0 }
{
    if r < layout::rule_count_in(g.words) {
        count(g.words, r)
    } else {
        0
    }
}

// How many nodes the right side of rule r has.
pub(crate) fn node_count(g: &AcceptedGrammar, r: u64) -> u64
    ensures { (result ≡ (right_of (grammar_of g.now.words.now) r).nodes) × (result ≤ 8) }
{
    of_rule(g, r, layout::rule_nodes_in)
}

// How many edges it has.
pub(crate) fn edge_count(g: &AcceptedGrammar, r: u64) -> u64
    ensures { (result ≡ length (right_of (grammar_of g.now.words.now) r).edges) × (result ≤ 8) }
{
    of_rule(g, r, layout::rule_edges_in)
}

// How many nodes its plan has.
pub(crate) fn plan_size(g: &AcceptedGrammar, r: u64) -> u64
    ensures { result ≡ length (plan_of (grammar_of g.now.words.now) r) }
{
    of_rule(g, r, layout::rule_plan_in)
}

// Plan node p of rule r.
pub(crate) fn plan_line(g: &[u64], r: u64, p: u64) -> PlanLine
    requires { KnownNode g.now r p }
    ensures { PlanLineOf g.now r p result }
{
    line_in(g, r, p)
}

// Whether edge i of rule r has a nonterminal label.
pub(crate) fn is_nonterminal(g: &[u64], r: u64, i: u64) -> bool
    requires { KnownEdge g.now r i }
    ensures { result ≡ is_nonterminal (kind_of (grammar_of g.now) (edge_at (right_of (grammar_of g.now) r).edges i).label) }
{
    let label = layout::edge_label_in(g, r, i);
    layout::symbol_kind_in(g, label) != 0
}
