// Questions 3 to 7, one function for each kind of line: the first no is the refusal. Many tests are joined by `&`,
// which takes no longer here, and gives the proof one value in place of a case for each.
ghost use Rattle.std.specs.Prelude.{◌≡◌, cond, ◌&&◌, ◌||◌, ◌+◌, ◌≤◌, length, eqb, ltb};
ghost use Rattle.questions.specs.Layout.{in_table, rule_plan};
ghost use Rattle.questions.specs.Questions.{ask, plan_whole, judge_grammar, judge_symbol, judge_rule, judge_rule_edge, judge_plan, judge_graph, judge_graph_edge, judge};
ghost use Rattle.questions.specs.Refusing.{number_in};
ghost use Rattle.questions.specs.Walk.{Room};
ghost use Rattle.tables.specs.Plans.{PlanRoom};

use crate::{marks, plans};
use layout::plans::PlanLine;
use questions::{Due, Refusal};

// `G`: symbols (1-64), rules (1-64), start symbol.
#[tactic(auto, unfolding(questions::specs::Questions::judge_grammar))]
pub(crate) fn judge_grammar(f: &[u64]) -> Result<(), Refusal>
    ensures { number_in result ≡ judge_grammar f.now }
{
    let n = f.len() as u64;
    let symbols = layout::field(f, 0);
    let rules = layout::field(f, 1);
    let start = layout::field(f, 2);
    let fixed = (3 <= n)
        & ((1 <= symbols) & (symbols <= 64))
        & ((1 <= rules) & (rules <= 64))
        & (start < symbols);
    if !fixed {
        return Err(Refusal::Fields);
    }
    if n != 3 {
        return Err(Refusal::Count);
    }
    Ok(())
}

// `S`: its number, kind, rank.
#[tactic(auto, unfolding(questions::specs::Questions::judge_symbol))]
pub(crate) fn judge_symbol(g: &[u64], s: u64, f: &[u64]) -> Result<(), Refusal>
    ensures { number_in result ≡ judge_symbol g.now s f.now }
{
    let n = f.len() as u64;
    let number = layout::field(f, 0);
    let kind = layout::field(f, 1);
    let rank = layout::field(f, 2);
    let start = layout::start_symbol(g);
    let fixed = (3 <= n)
        & (number == s)
        & (kind <= 1)
        & (rank <= 4)
        & ((1 <= rank) | (s == start))
        & ((kind == 1) | (s != start));
    if !fixed {
        return Err(Refusal::Fields);
    }
    if n != 3 {
        return Err(Refusal::Count);
    }
    Ok(())
}

// `R`: its number, its nonterminal, nodes (1-8), edges (1-8), plan nodes (2-16), then its external nodes.
#[tactic(auto, unfolding(questions::specs::Questions::judge_rule))]
pub(crate) fn judge_rule(g: &[u64], r: u64, f: &[u64]) -> Result<(), Refusal>
    ensures { number_in result ≡ judge_rule g.now r f.now }
{
    let n = f.len() as u64;
    let number = layout::field(f, 0);
    let symbol = layout::field(f, 1);
    let nodes = layout::field(f, 2);
    let edges = layout::field(f, 3);
    let plan = layout::field(f, 4);
    let symbols = layout::symbol_count(g);
    let kind = layout::kind_of(g, symbol);
    let fixed = (5 <= n)
        & (number == r)
        & (symbol < symbols)
        & (kind == 1)
        & ((1 <= nodes) & (nodes <= 8))
        & ((1 <= edges) & (edges <= 8))
        & ((2 <= plan) & (plan <= 16));
    if !fixed {
        return Err(Refusal::Fields);
    }
    let due = 5 + layout::rank_at(g, symbol);
    if n != due {
        return Err(Refusal::Count);
    }
    if !marks::listed(f, 5, nodes) {
        return Err(Refusal::Nodes);
    }
    Ok(())
}

// `E` of a rule: symbol of rank 1 or more, then that many nodes; with the last one, is every node on an edge?
#[tactic(auto, unfolding(questions::specs::Questions::judge_rule_edge))]
fn judge_rule_edge(g: &[u64], r: u64, i: u64, f: &[u64]) -> Result<(), Refusal>
    requires { (r ≤ 63) × (i ≤ 7) }
    ensures { number_in result ≡ judge_rule_edge g.now r i f.now }
{
    let n = f.len() as u64;
    let label = layout::field(f, 0);
    let symbols = layout::symbol_count(g);
    let rank = layout::rank_at(g, label);
    let fixed = 1 <= n && label < symbols && 1 <= rank;
    if !fixed {
        return Err(Refusal::Fields);
    }
    let due = 1 + rank;
    if n != due {
        return Err(Refusal::Count);
    }
    if !marks::listed(f, 1, layout::rule_nodes(g, r)) {
        return Err(Refusal::Nodes);
    }
    if i + 1 < layout::rule_edges(g, r) {
        return Ok(());
    }
    if !marks::rule_covered(g, r, i, f) {
        return Err(Refusal::Uncovered);
    }
    Ok(())
}

// `P`: kind, first, second.
#[tactic(auto, unfolding(questions::specs::Questions::judge_plan))]
fn judge_plan(g: &[u64], r: u64, q: u64, f: &[u64]) -> Result<(), Refusal>
    requires { PlanRoom g.now r q }
    ensures { number_in result ≡ judge_plan g.now r q f.now }
{
    let n = f.len() as u64;
    let line = PlanLine {
        kind: layout::field(f, 0),
        first: layout::field(f, 1),
        second: layout::field(f, 2),
    };
    if n < 3 {
        return Err(Refusal::Fields);
    }
    match line.kind {
        0..=2 => {}
        _ => return Err(Refusal::Fields),
    }
    if n != 3 {
        return Err(Refusal::Count);
    }
    if !plans::so_far(g, r, q, line) {
        return Err(Refusal::Plan);
    }
    if q + 1 < layout::rule_plan(g, r) {
        return Ok(());
    }
    if !plans::whole(g, r, q, line) {
        return Err(Refusal::Plan);
    }
    Ok(())
}

// `H`: nodes (1-64), edges (1-64), then external nodes, as many as the start's rank.
#[tactic(auto, unfolding(questions::specs::Questions::judge_graph))]
pub(crate) fn judge_graph(g: &[u64], f: &[u64]) -> Result<(), Refusal>
    ensures { number_in result ≡ judge_graph g.now f.now }
{
    let n = f.len() as u64;
    let nodes = layout::field(f, 0);
    let edges = layout::field(f, 1);
    let fixed = 2 <= n && (1 <= nodes && nodes <= 64) && (1 <= edges && edges <= 64);
    if !fixed {
        return Err(Refusal::Fields);
    }
    let due = 2 + layout::rank_at(g, layout::start_symbol(g));
    if n != due {
        return Err(Refusal::Count);
    }
    if !marks::listed(f, 2, nodes) {
        return Err(Refusal::Nodes);
    }
    Ok(())
}

// `E` of a graph: a terminal symbol, then as many nodes as its rank; with the last one, is every node on an edge?
#[tactic(auto, unfolding(questions::specs::Questions::judge_graph_edge))]
fn judge_graph_edge(g: &[u64], h: &[u64], e: u64, f: &[u64]) -> Result<(), Refusal>
    requires { e ≤ 63 }
    ensures { number_in result ≡ judge_graph_edge g.now h.now e f.now }
{
    let n = f.len() as u64;
    let label = layout::field(f, 0);
    let symbols = layout::symbol_count(g);
    let kind = layout::kind_of(g, label);
    let fixed = 1 <= n && label < symbols && kind == 0;
    if !fixed {
        return Err(Refusal::Fields);
    }
    let due = 1 + layout::rank_at(g, label);
    if n != due {
        return Err(Refusal::Count);
    }
    if !marks::listed(f, 1, layout::graph_nodes(h)) {
        return Err(Refusal::Nodes);
    }
    if e + 1 < layout::graph_edges(h) {
        return Ok(());
    }
    if !marks::graph_covered(g, h, e, f) {
        return Err(Refusal::Uncovered);
    }
    Ok(())
}

// Questions 3 to 7 for the line that is due in the table t; a graph's lines are judged with the grammar table g. A
// line that is in no table is refused 2.
#[tactic(auto, unfolding(questions::specs::Questions::judge))]
pub fn judge(g: &[u64], t: &[u64], due: Due, f: &[u64]) -> Result<(), Refusal>
    requires { Room (length t.now) due }
    ensures { number_in result ≡ cond (in_table due) (judge g.now t.now due f.now) 2 }
{
    if !layout::in_table(due) {
        return Err(Refusal::Letter);
    }
    match due {
        Due::Grammar => judge_grammar(f),
        Due::Symbol(s) => judge_symbol(t, s, f),
        Due::Rule(r) => judge_rule(t, r, f),
        Due::RuleEdge(r, i) => judge_rule_edge(t, r, i, f),
        Due::PlanLine(r, q) => judge_plan(t, r, q, f),
        Due::Graph => judge_graph(g, f),
        Due::GraphEdge(e) => judge_graph_edge(g, t, e, f),
        Due::Nothing => Err(Refusal::Letter),
    }
}
