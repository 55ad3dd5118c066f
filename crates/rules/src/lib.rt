// What one rule of the closure makes of one or two items of a chart: at most one new item.

#![tactic(auto)]

ghost use Rattle.std.specs.Prelude.{◌≡◌, true, cond, ◌+◌, ◌*◌, ◌<◌, get_or, ltb};
ghost use Rattle.std.specs.Int.Bits.{bit_and};
ghost use Rattle.hrg.specs.Grammars.{edge_at};
ghost use Rattle.hrg.specs.Trees.{padded};
ghost use Rattle.agenda.specs.Records.{plus};
ghost use Rattle.questions.specs.Layout.{rule_count, rule_nodes, graph_edges};
ghost use Rattle.joins.specs.Joins.{BareFrom};
ghost use Rattle.joins.specs.Tables.{grammar_in, graph_in};
ghost use Rattle.rules.specs.Rules.{Gives, GivesRoot, Second, root_list, pair_items, Usable, StandsFor};
ghost use Rattle.rules.specs.Wants.{want_of};
ghost use Rattle.rules.specs.Plans.{Asks};
ghost use Rattle.rules.specs.Candidates.{Introduces, Candidates};

use agenda::ChartItem;
use joins::accepted::{AcceptedGrammar, AcceptedTables};
use joins::graphs::GRAPH_TABLE_WORDS;
use places::{NONE, PLACES};
use planned::PlannedGrammar;
use plans::{ASKS_EDGE, ASKS_FIRST, KINDS, NODES, PER_RULE};
use running::RunTables;

pub mod coverage;
pub mod planned;
pub mod plans;
pub mod running;
pub mod wants;

// A sum of counts, or the most that a count can be.
#[tactic(auto, unfolding(agenda::specs::Records::plus))]
pub fn plus(a: u32, b: u32) -> u32
    ensures { result ≡ plus a b }
{
    a.saturating_add(b)
}

// ---- lists of graph nodes: eight places, 64 where there is none
// The images of a rule's external nodes by a map.
fn root_nodes(g: &AcceptedGrammar, r: u64, f: [u8; PLACES]) -> [u8; PLACES]
    requires { r < rule_count g.now.words.now }
    ensures { result ≡ root_list g.now.words.now r f }
{
    let rank = layout::rank_at(g.words, layout::rule_symbol(g.words, r));
    let map = places::word_of(f);
    let mut l = NONE;
    for k in 0..rank {
        let x = layout::rule_external(g.words, r, k);
        l = places::with_node(l, k, places::node_at(map, x));
    }
    places::nodes_of(l)
}

// The nodes of graph edge e.
pub fn edge_nodes(t: &AcceptedTables, e: u64) -> [u8; PLACES]
    requires { e < graph_edges t.now.graph.now }
    ensures { result ≡ padded (edge_at (graph_in t.now).edges e).attachment }
{
    let rank = joins::rank_of(t.grammar.words, layout::graph_label_in(t.graph, e));
    let mut l = NONE;
    for k in 0..rank {
        l = places::with_node(l, k, layout::graph_node_in(t.graph, e, k));
    }
    places::nodes_of(l)
}

// ---- the rules of two premises
// Whether y can be the second at plan node q of rule `of`, of which w tells what it asks for, and its map. By the
// nonterminal rule q introduces an edge and y is passive and has the edge's symbol; by the join rule y is active and at
// the second child.
fn second_map(g: &[u64], of: u64, q: u64, w: u64, y: ChartItem) -> Option<[u8; PLACES]>
    requires { Asks g.now of q w × (y.kind ≡ 0 → BareFrom (rule_nodes g.now y.of) y.nodes) }
    ensures { Second g.now of q y result }
{
    let asked = w / KINDS;
    if w % KINDS == ASKS_EDGE {
        if y.kind == 0 {
            return None;
        }
        if asked % 64 != y.of as u64 {
            return None;
        }
        let i = layout::plan_second_in(g, of, q);
        return Some(joins::attach_by(g, of, i, asked / 64, y.nodes));
    }
    if y.kind != 0 {
        return None;
    }
    if y.of as u64 != of {
        return None;
    }
    if asked != y.plan as u64 {
        return None;
    }
    Some(y.nodes)
}

// What x first and y second make, with the count `count`. Items may have any numbers: an unknown rule or plan node
// makes nothing. It may be sure that both cover their open nodes: then what they make does.
pub fn combined(
    t: &RunTables,
    x: ChartItem,
    y: ChartItem,
    count: u32,
    sure: bool,
) -> Option<ChartItem>
    requires { Usable t.now.tables.grammar.words.now t.now.tables.graph.now sure x × Usable t.now.tables.grammar.words.now t.now.tables.graph.now sure y }
    ensures { Gives t.now.tables.grammar.words.now t.now.tables.graph.now sure (pair_items t.now.tables.grammar.words.now t.now.tables.graph.now x y) count result }
{
    if x.kind != 0 {
        return None;
    }
    let r = x.of as u64;
    let g = PlannedGrammar {
        grammar: t.tables.grammar,
        plans: t.plans,
    };
    let above = plans::parent_in(&g, r, x.plan as u64);
    let q = above.word % NODES;
    if q >= PER_RULE {
        return None;
    }
    let w = above.word / NODES;
    if w % KINDS == ASKS_FIRST {
        return None;
    }
    let s = second_map(t.tables.grammar.words, r, q, w, y)?;
    let f = x.nodes;
    let stays = above.stays;
    let nodes = joins::combine(
        &t.tables, t.graph, r, q, stays, x.edges, y.edges, sure, f, s,
    )?;
    Some(ChartItem {
        kind: 0,
        of: x.of,
        plan: q as u8,
        count,
        edges: x.edges | y.edges,
        nodes,
    })
}

// ---- the rules of one premise
// A graph edge as a passive item of its symbol, set and nodes: with it an item makes what it makes with the edge.
pub fn edge_item(t: &AcceptedTables, e: u64) -> ChartItem
    requires { e < graph_edges t.now.graph.now }
    ensures { StandsFor t.now.grammar.words.now t.now.graph.now e result }
{
    let of = layout::graph_label(t.graph, e);
    ChartItem {
        kind: 1,
        of: of as u8,
        plan: 0,
        count: 0,
        edges: masks::with(0, e),
        nodes: edge_nodes(t, e),
    }
}

// The passive item of x where that is at the root of its rule's plan, the last plan node.
pub fn root(g: &AcceptedGrammar, x: ChartItem) -> Option<ChartItem>
    ensures { GivesRoot g.now.words.now x result }
{
    if x.kind != 0 {
        return None;
    }
    let r = x.of as u64;
    if r >= layout::rule_count(g.words) {
        return None;
    }
    if x.plan as u64 + 1 != layout::rule_plan(g.words, r) {
        return None;
    }
    let of = layout::rule_symbol(g.words, r);
    Some(ChartItem {
        kind: 1,
        of: of as u8,
        plan: 0,
        count: plus(x.count, 1),
        edges: x.edges,
        nodes: root_nodes(g, r, x.nodes),
    })
}

// ---- the graph edges worth a try
// Those of the edges m whose node at place k is a, if that is one.
fn with_node(graph: &[u64; GRAPH_TABLE_WORDS], k: u64, a: u64, m: u64) -> u64
    requires { k < 4 }
    ensures { result ≡ cond (ltb a 64) (bit_and m (get_or graph.now (321 + 64 * k + a) 0)) m }
{
    if a < 64 {
        m & graph[(321 + 64 * k + a) as usize]
    } else {
        m
    }
}

// Those of the candidates m whose nodes are the images that x has for the nodes of rule edge i, place by place.
fn fitting(t: &RunTables, want: u64, x: ChartItem, i: u64, m: u64) -> u64
    requires { Introduces t.now.tables.grammar.words.now t.now.tables.graph.now x want i × Candidates t.now.tables.grammar.words.now t.now.tables.graph.now x m }
    ensures { Candidates t.now.tables.grammar.words.now t.now.tables.graph.now x result }
{
    let of = x.of as u64;
    let map = places::word_of(x.nodes);
    let rank = layout::rank_at(t.tables.grammar.words, want);
    let mut rest = m;
    for k in 0..rank {
        let y = layout::edge_node_in(t.tables.grammar.words, of, i, k);
        rest = with_node(t.graph, k, places::node_at(map, y), rest);
    }
    rest
}

// The graph edges that x may make something with, where x wants `want` if it is active: with any other edge it makes
// nothing.
pub fn candidates(t: &RunTables, want: u64, x: ChartItem) -> u64
    requires { want ≡ want_of (grammar_in t.now.tables) x.of x.plan }
    ensures { Candidates t.now.tables.grammar.words.now t.now.tables.graph.now x result }
{
    if x.kind != 0 {
        return 0;
    }
    if want >= 64 {
        return 0;
    }
    let of = x.of as u64;
    let g = PlannedGrammar {
        grammar: t.tables.grammar,
        plans: t.plans,
    };
    let Some(q) = plans::place_above(&g, of, x.plan as u64) else {
        return 0;
    };
    let i = layout::plan_second_in(t.tables.grammar.words, of, q);
    let m = t.graph[(257 + want) as usize] & !x.edges;
    fitting(t, want, x, i, m)
}
