// Question 8 for tables, in one pass: the lines that a table holds are judged where they stand, and the words between
// them must be 0.
ghost use Rattle.std.specs.Prelude.{◌≡◌, true, [], ◌+◌, ◌*◌, ◌≤◌, ◌<◌, min, length, take, eqb};
ghost use Rattle.std.specs.Fn.{FnOnceReturnsAt};
ghost use Rattle.hrg.specs.Counts.{tabulate};
ghost use Rattle.questions.specs.declared.Due.TheVariants.{Grammar, Symbol, Rule, RuleEdge, PlanLine, Graph, GraphEdge};
ghost use Rattle.questions.specs.Layout.{symbol_place, rule_place, edges_from, edge_place, plans_from, plan_place, graph_edge_place, grammar_words, graph_words, line_field, symbol_count, rule_count, rule_nodes, rule_edges, rule_plan, graph_nodes, graph_edges};
ghost use Rattle.questions.specs.Walk.{Room};
ghost use Rattle.questions.specs.Checking.{check_grammar, check_graph};
ghost use Rattle.tables.specs.Concluding.{Zeros, Gathered, eight_from, behind, Judged, Stands, Attached, NearlyStands, Count, rule_after, Reaches, Concludes};

use crate::plans::PlanMarks;
use crate::{judging, marks, plans};
use questions::Refusal;

// How many words are looked at together.
const TWO_EIGHTS: u64 = 16;

// One word made of eight from i on, and of `any`.
fn with_eight(t: &[u64], i: usize, any: u64) -> u64
    requires { i + 8 ≤ length t.now }
    ensures { result ≡ eight_from t.now i any }
{
    let low = any | t[i] | t[i + 1] | t[i + 2] | t[i + 3];
    low | t[i + 4] | t[i + 5] | t[i + 6] | t[i + 7]
}

// One word made of 32 * n words of t from a on: of both halves at once, which takes less time than one after the other.
fn gather(t: &[u64], a: u64, n: u64) -> u64
    requires { a + 32 * n ≤ length t.now }
    ensures { Gathered t.now a (a + 32 * n) result }
{
    let half = a + TWO_EIGHTS * n;
    let mut low: u64 = 0;
    let mut high: u64 = 0;
    for i in 0..n {
        let at = (a + TWO_EIGHTS * i) as usize;
        low = with_eight(t, at + 8, with_eight(t, at, low));
        let to = (half + TWO_EIGHTS * i) as usize;
        high = with_eight(t, to + 8, with_eight(t, to, high));
    }
    low | high
}

// Whether the words of t from a to b are 0, for a few words: each is tested.
fn few_zeros(t: &[u64], a: u64, b: u64) -> bool
    requires { (a ≤ b) × (b ≤ length t.now) }
    ensures { Zeros t.now a b result }
{
    t[a as usize..b as usize].iter().all(|w| *w == 0)
}

// The same for any number of words: mostly there are none between two lines; of many one word is made, so that little
// is tested on the way.
fn zeros(t: &[u64], a: u64, b: u64) -> bool
    requires { (a ≤ b) × (b ≤ length t.now) }
    ensures { Zeros t.now a b result }
{
    if a == b {
        return true;
    }
    let n = (b - a) / 32;
    if gather(t, a, n) != 0 {
        return false;
    }
    few_zeros(t, a + 32 * n, b)
}

// ---- a line's word
// Whether it has nothing behind its first n fields.
#[tactic(auto, unfolding(crate::specs::Concluding::behind))]
fn ends(t: &[u64], p: u64, n: u64) -> bool
    requires { (p < length t.now) × (n ≤ 9) }
    ensures { result ≡ eqb (behind t.now p n) 0 }
{
    t[p as usize] >> (7 * n) == 0
}

// Its first n fields, put into f.
fn fields_into(t: &[u64], p: u64, n: u64, f: &mut [u64])
    requires { (p < length t.now) × (n ≤ 9) × (length f.old ≡ 9) }
    ensures { take n f.new ≡ tabulate n (λ j. line_field t.now p j) }
{
    for k in 0..n {
        f[k as usize] = layout::field_in(t, p, k);
    }
}

// ---- a line: whether it passes where it stands in t, with nothing behind its fields. Each kind has a function, which
// names the questions of its kind, so that no line's kind is asked for while the table is read.
// A line at place p with n fields: `judge` asks questions 3 to 7 as they are for its kind.
fn stands<F: FnOnce(&[u64]) -> Result<(), Refusal>>(t: &[u64], p: u64, n: u64, judge: F) -> bool
    requires callable { F.IsAlwaysCallable judge }
    requires held { (p < length t.now) × (n ≤ 9) }
    ensures { Judged (FnOnceReturnsAt F.FnOnce judge) t.now p n result }
{
    let mut f = [0u64; 9];
    fields_into(t, p, n, &mut f);
    if judge(&f[0..n as usize]).is_err() {
        return false;
    }
    ends(t, p, n)
}

fn grammar_stands(t: &[u64]) -> bool
    requires { Room (length t.now) Grammar }
    ensures { Stands [] t.now Grammar result }
{
    stands(t, 0, 3, judging::judge_grammar)
}

fn symbol_stands(t: &[u64], s: u64) -> bool
    requires { Room (length t.now) (Symbol s) }
    ensures { Stands [] t.now (Symbol s) result }
{
    let p = layout::symbol_place(s);
    stands(t, p, 3, |f| judging::judge_symbol(t, s, f))
}

fn rule_stands(t: &[u64], r: u64) -> bool
    requires { Room (length t.now) (Rule r) }
    ensures { Stands [] t.now (Rule r) result }
{
    let p = layout::rule_place(r);
    let n = 5 + layout::rank_at(t, layout::rule_symbol_in(t, r));
    stands(t, p, n, |f| judging::judge_rule(t, r, f))
}

fn graph_stands(g: &[u64], t: &[u64]) -> bool
    requires { Room (length t.now) Graph }
    ensures { Stands g.now t.now Graph result }
{
    let n = 2 + layout::rank_at(g, layout::start_symbol(g));
    stands(t, 0, n, |f| judging::judge_graph(g, f))
}

// The set of the n nodes of the edge's line at place p, where they are in range and distinct, with nothing behind them.
fn attached(t: &[u64], p: u64, n: u64, nodes: u64) -> Option<u64>
    requires { (p < length t.now) × (n ≤ 4) × (nodes ≤ 64) }
    ensures { Attached nodes t.now p n result }
{
    let seen = marks::distinct(t, p, n, nodes)?;
    if !ends(t, p, 1 + n) {
        return None;
    }
    Some(seen)
}

// An edge's line but for question 6: its nodes are given back as a set, so that the last line's question, whether
// every node is on an edge, needs no second walk.
fn graph_edge_stands(g: &[u64], t: &[u64], e: u64, symbols: u64, nodes: u64) -> Option<u64>
    requires { Room (length t.now) (GraphEdge e) × (symbols ≡ symbol_count g.now) × (nodes ≡ min 64 (graph_nodes t.now)) }
    ensures { NearlyStands g.now t.now (GraphEdge e) result }
{
    let p = layout::graph_edge_place(e);
    let label = layout::graph_label_in(t, e);
    let kind = layout::kind_of(g, label);
    let fixed = label < symbols && kind == 0;
    if !fixed {
        return None;
    }
    attached(t, p, layout::rank_at(g, label), nodes)
}

// The same of a rule.
fn rule_edge_stands(t: &[u64], r: u64, i: u64, symbols: u64, nodes: u64) -> Option<u64>
    requires { Room (length t.now) (RuleEdge r i) × (symbols ≡ symbol_count t.now) × (nodes ≡ min 64 (rule_nodes t.now r)) }
    ensures { NearlyStands [] t.now (RuleEdge r i) result }
{
    let p = layout::edge_place(r, i);
    let label = layout::edge_label_in(t, r, i);
    let rank = layout::rank_at(t, label);
    let fixed = label < symbols && 1 <= rank;
    if !fixed {
        return None;
    }
    attached(t, p, rank, nodes)
}

// ---- the lines in their order. They stand in the order of their places, so one pass is enough, and a line reads only
// those before it.
// The lines of the n symbols.
fn check_symbols(t: &[u64], n: u64) -> bool
    requires { Room (length t.now) Grammar × Count n (symbol_count t.now) 64 }
    ensures { Reaches grammar_words [] t.now (Symbol 0) (symbol_place 0) (Rule 0) (symbol_place n) result }
{
    for s in 0..n {
        if !symbol_stands(t, s) {
            return false;
        }
    }
    true
}

// The lines of the n edges of rule r; `mask` has the nodes on those passed.
fn check_edges(t: &[u64], r: u64, n: u64) -> bool
    requires { Room (length t.now) (Rule r) × Count n (rule_edges t.now r) 8 }
    ensures { Reaches grammar_words [] t.now (RuleEdge r 0) (edges_from r) (PlanLine r 0) (edge_place r n) result }
{
    let symbols = layout::symbol_count_in(t);
    let nodes = layout::rule_nodes_in(t, r);
    let top = nodes.min(64);
    let mut mask: u64 = 0;
    for i in 0..n {
        let Some(seen) = rule_edge_stands(t, r, i, symbols, top) else {
            return false;
        };
        mask |= seen;
    }
    marks::has_all(mask, nodes)
}

// The n plan lines of rule r, which has this many edges: what they name so far is carried as two sets, which must be
// whole at the end.
fn check_plan(t: &[u64], r: u64, n: u64, edges: u64) -> bool
    requires { Room (length t.now) (Rule r) × Count n (rule_plan t.now r) 16 × Count edges (rule_edges t.now r) 8 }
    ensures { Reaches grammar_words [] t.now (PlanLine r 0) (plans_from r) (rule_after t.now r) (plan_place r n) result }
{
    let mut named = PlanMarks {
        children: 0,
        introduced: 0,
    };
    for q in 0..n {
        let Some(more) = plans::with_line(t, r, q, edges, named) else {
            return false;
        };
        if !ends(t, layout::plan_place(r, q), 3) {
            return false;
        }
        named = more;
    }
    marks::has_all(named.children, n - 1) && marks::has_all(named.introduced, edges)
}

// The lines of rule r, and the words between its edges and its plan.
fn check_rule(t: &[u64], r: u64) -> bool
    requires { Room (length t.now) (Rule r) }
    ensures { (result ≡ true → rule_plan t.now r ≤ 16) × Reaches grammar_words [] t.now (Rule r) (rule_place r) (rule_after t.now r) (plan_place r (rule_plan t.now r)) result }
{
    if !rule_stands(t, r) {
        return false;
    }
    let edges = layout::rule_edges_in(t, r);
    if !check_edges(t, r, edges) {
        return false;
    }
    if !zeros(t, layout::edge_place(r, edges), layout::plans_from(r)) {
        return false;
    }
    check_plan(t, r, layout::rule_plan_in(t, r), edges)
}

// The n rules, the words before each from `first` on, and those behind the last.
fn check_rules(t: &[u64], first: u64, n: u64) -> bool
    requires { Room (length t.now) Grammar × Count n (rule_count t.now) 64 × (first ≤ rule_place 0) }
    ensures { Concludes grammar_words [] t.now (Rule 0) first result }
{
    let mut from = first;
    for r in 0..n {
        if !zeros(t, from, layout::rule_place(r)) {
            return false;
        }
        if !check_rule(t, r) {
            return false;
        }
        from = layout::plan_place(r, layout::rule_plan_in(t, r));
    }
    zeros(t, from, layout::GRAMMAR_WORDS as u64)
}

// Could a grammar text have filled this table?
pub fn check_grammar(t: &[u64]) -> bool
    ensures { result ≡ check_grammar t.now }
{
    if t.len() < layout::GRAMMAR_WORDS {
        return false;
    }
    if !grammar_stands(t) {
        return false;
    }
    let symbols = layout::symbol_count_in(t);
    if !check_symbols(t, symbols) {
        return false;
    }
    check_rules(t, layout::symbol_place(symbols), layout::rule_count_in(t))
}

// The lines of the n edges of a graph, and the words behind them; `mask` has the nodes on those passed.
// The loop is that of check_edges; a function of both would take the test as a closure, and say what any test gives.
fn check_graph_edges(g: &[u64], t: &[u64], n: u64) -> bool
    requires { Room (length t.now) Graph × Count n (graph_edges t.now) 64 }
    ensures { Concludes graph_words g.now t.now (GraphEdge 0) (graph_edge_place 0) result }
{
    let symbols = layout::symbol_count(g);
    let nodes = layout::graph_nodes_in(t);
    let top = nodes.min(64);
    let mut mask: u64 = 0;
    for e in 0..n {
        let Some(seen) = graph_edge_stands(g, t, e, symbols, top) else {
            return false;
        };
        mask |= seen;
    }
    if !marks::has_all(mask, nodes) {
        return false;
    }
    zeros(t, layout::graph_edge_place(n), layout::GRAPH_WORDS as u64)
}

// Could a graph text read with the grammar table g have filled this table?
pub fn check_graph(g: &[u64], t: &[u64]) -> bool
    ensures { result ≡ check_graph g.now t.now }
{
    if t.len() < layout::GRAPH_WORDS {
        return false;
    }
    if !graph_stands(g, t) {
        return false;
    }
    check_graph_edges(g, t, layout::graph_edges_in(t))
}
