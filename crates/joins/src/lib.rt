// The leaves of the chart's step, over accepted tables: what lies below a plan node, open nodes, the map of an edge,
// and two maps joined.

#![tactic(auto)]

ghost use Rattle.std.specs.Prelude.{◌≡◌, true, ◌+◌, ◌≤◌, ◌<◌, take};
ghost use Rattle.hrg.specs.Trees.{padded};
ghost use Rattle.hrg.specs.Counts.{tabulate};
ghost use Rattle.hrg.specs.Items.{attach};
ghost use Rattle.hrg.specs.ClosureRun.{covering};
ghost use Rattle.places.specs.Words.{places_of};
ghost use Rattle.questions.specs.Layout.{grammar_words, line_field, rank_at, start_symbol, rule_symbol, rule_nodes, rule_external, edge_label, graph_external};
ghost use Rattle.questions.specs.Checking.{check_grammar};
ghost use Rattle.joins.specs.Joins.{KnownNode, KnownEdge, EdgesBelow, MasksBelow, NodesIn, side_with, SidesOf, Boundary, OpenAt, OpenIn, edge_nodes, nodes_word, open_by, loses_one};
ghost use Rattle.joins.specs.Graphs.{GraphTable, Touched};
ghost use Rattle.joins.specs.Premises.{Premises, Combines};
ghost use Rattle.joins.specs.Tables.{graph_in};

use accepted::AcceptedTables;
use places::{PLACES, merging};

pub mod accepted;
pub mod graphs;

// The plan nodes of a rule, at most.
pub const PLAN_NODES: usize = 16;

// The nodes on edges of a set, and on the other edges.
#[derive(Clone, Copy)]
struct Sides {
    inside: u64,
    outside: u64,
}

// ---- what lies below a plan node
// The edges below plan node q, where ms has those below each node before it.
pub fn node_below(g: &[u64], r: u64, q: u64, ms: &[u64; PLAN_NODES]) -> u64
    requires { KnownNode g.now r q × MasksBelow g.now r q ms.now }
    ensures { EdgesBelow g.now r q result }
{
    let kind = layout::plan_kind(g, r, q);
    let first = layout::plan_first(g, r, q);
    let second = layout::plan_second(g, r, q);
    match kind {
        0 => 0,
        1 => masks::with(ms[first as usize], second),
        _ => masks::union(ms[first as usize], ms[second as usize]),
    }
}

// ---- open nodes
// The nodes in n fields of the line at place p, from field `from` on.
fn listed(t: &[u64], p: u64, from: u64, n: u64) -> u64
    requires { (from ≤ 5) × (n ≤ 4) }
    ensures { NodesIn result (tabulate n (λ k. line_field t.now p (from + k))) }
{
    let mut mask = 0;
    for k in 0..n {
        mask = masks::with(mask, layout::field_at(t, p, from + k));
    }
    mask
}

// One edge more: its nodes are on an edge of the set, or on another.
fn with_edge(s: Sides, here: bool, on: u64) -> Sides
    ensures { result ≡ side_with s here on }
{
    if here {
        Sides {
            inside: s.inside | on,
            ..s
        }
    } else {
        Sides {
            outside: s.outside | on,
            ..s
        }
    }
}

// The nodes on the edges of the set m, and on the others, of n edges at the places from base on of table t.
fn nodes_by(g: &[u64], t: &[u64], base: u64, n: u64, m: u64) -> Sides
    requires { (base < grammar_words) × (n ≤ 64) }
    ensures { SidesOf g.now t.now base n m result }
{
    let mut s = Sides {
        inside: 0,
        outside: 0,
    };
    for i in 0..n {
        let rank = layout::rank_at(g, layout::field_at(t, base + i, 0));
        let on = listed(t, base + i, 1, rank);
        s = with_edge(s, masks::has(m, i), on);
    }
    s
}

// The nodes inside that are external or outside too.
fn boundary(s: Sides, externals: u64) -> u64
    ensures { Boundary s externals result }
{
    s.inside & (externals | s.outside)
}

// The external nodes of rule r.
fn rule_externals(g: &[u64], r: u64) -> u64
    requires { r ≤ 63 }
    ensures { NodesIn result (tabulate (rank_at g.now (rule_symbol g.now r)) (λ k. rule_external g.now r k)) }
{
    let rank = layout::rank_at(g, layout::rule_symbol(g, r));
    listed(g, layout::rule_place(r), 5, rank)
}

// The open rule nodes at plan node p, where m has the edges below it.
pub fn open_at(g: &[u64], r: u64, p: u64, m: u64) -> u64
    requires { KnownNode g.now r p × EdgesBelow g.now r p m }
    ensures { OpenAt g.now r p result }
{
    let s = nodes_by(g, g, layout::edges_from(r), layout::rule_edges(g, r), m);
    boundary(s, rule_externals(g, r))
}

// The external nodes of the graph.
fn graph_externals(t: &AcceptedTables) -> u64
    ensures { NodesIn result (tabulate (rank_at t.now.grammar.words.now (start_symbol t.now.grammar.words.now)) (λ k. graph_external t.now.graph.now k)) }
{
    let rank = layout::rank_at(t.grammar.words, layout::start_symbol(t.grammar.words));
    listed(t.graph, 0, 2, rank)
}

// The nodes on the edges of the set m, and on the others, by sets of four edges.
fn touched(t: &AcceptedTables, graph: &[u64; graphs::GRAPH_TABLE_WORDS], m: u64) -> Sides
    requires { GraphTable t.now.grammar.words.now t.now.graph.now graph.now }
    ensures { Touched t.now.grammar.words.now t.now.graph.now m result }
{
    let mut inside = 0;
    let mut outside = 0;
    let mut rest = m;
    for b in 0..layout::graph_edges(t.graph).div_ceil(4) {
        let v = rest % graphs::SUBSETS;
        inside |= graph[(graphs::SUBSETS * b + v) as usize];
        outside |= graph[(graphs::SUBSETS * b + (graphs::SUBSETS - 1 - v)) as usize];
        rest /= graphs::SUBSETS;
    }
    Sides { inside, outside }
}

// The open graph nodes of the edge set m.
pub fn open_in(t: &AcceptedTables, graph: &[u64; graphs::GRAPH_TABLE_WORDS], m: u64) -> u64
    requires { GraphTable t.now.grammar.words.now t.now.graph.now graph.now }
    ensures { OpenIn t.now.grammar.words.now t.now.graph.now m result }
{
    let s = touched(t, graph, m);
    boundary(s, graph[256])
}

// The rank of a symbol below 64 of an accepted table, which has that symbol's line.
pub fn rank_of(g: &[u64], s: u64) -> u64
    requires { (check_grammar g.now ≡ true) × (s < 64) }
    ensures { (result ≡ rank_at g.now s) × (result ≤ 4) }
{
    layout::symbol_rank_in(g, s)
}

// ---- maps of rule nodes: eight places, 64 where a node has no image
// How many nodes edge i of rule r has, and which, as one number.
pub fn nodes_word(g: &[u64], r: u64, i: u64) -> u64
    requires { KnownEdge g.now r i }
    ensures { result ≡ nodes_word g.now r i }
{
    let rank = rank_of(g, layout::edge_label_in(g, r, i));
    let mut w = 0;
    for k in 0..rank {
        w = 8 * w + layout::edge_node_in(g, r, i, k);
    }
    rank + 8 * w
}

// The map of edge i's nodes, which w tells, to the first nodes of l, in order: from the last on, since the first of
// equal nodes counts.
pub fn attach_by(g: &[u64], r: u64, i: u64, w: u64, l: [u8; PLACES]) -> [u8; PLACES]
    requires { KnownEdge g.now r i × (w ≡ nodes_word g.now r i) }
    ensures { result ≡ padded (attach (rule_nodes g.now r) (edge_nodes g.now r i) (take (rank_at g.now (edge_label g.now r i)) l)) }
{
    let nodes = places::word_of(l);
    let mut t = places::NONE;
    let mut rest = w / 8;
    for k in (0..w % 8).rev() {
        t = places::with_node(t, rest % 8, places::node_at(nodes, k));
        rest /= 8;
    }
    places::nodes_of(t)
}

// Whether graph node v is open in the edge set m, so that a rule node with this image must not be dropped. The words
// of v at the four places have its edges.
fn lost(graph: &[u64; graphs::GRAPH_TABLE_WORDS], m: u64, v: u64) -> bool
    requires { v < 64 }
    ensures { result ≡ open_by graph.now m v }
{
    let low = graph[(321 + v) as usize] | graph[(385 + v) as usize];
    let high = graph[(449 + v) as usize] | graph[(513 + v) as usize];
    let on = low | high;
    (on & m != 0) & (masks::has(graph[256], v) | (on & !m != 0))
}

// Whether one of the dropped nodes is open in the edge set m: w has each xor 64, and 0 at the other places, so that
// nothing is left once the last one is passed, and the loop may end before the eighth place.
fn loses(graph: &[u64; graphs::GRAPH_TABLE_WORDS], m: u64, w: u64) -> bool
    ensures { result ≡ loses_one graph.now m w }
{
    let mut rest = w;
    while rest != 0 {
        let v = (rest % 256) ^ 64;
        if v < 64 && lost(graph, m, v) {
            return true;
        }
        rest /= 256;
    }
    false
}

// The nodes at the places of a word.
fn images(w: u64) -> u64
    ensures { NodesIn result (places_of w) }
{
    let mut mask = 0;
    for k in 0..8 {
        mask = masks::with(mask, places::node_at(w, k));
    }
    mask
}

// Whether every open graph node of the edge set m is at a place of w. Where that is sure, it is not looked up.
fn covered(
    t: &AcceptedTables,
    graph: &[u64; graphs::GRAPH_TABLE_WORDS],
    m: u64,
    sure: bool,
    w: u64,
) -> bool
    requires { GraphTable t.now.grammar.words.now t.now.graph.now graph.now × (sure ≡ true → covering (graph_in t.now) m (places_of w) ≡ true) }
    ensures { result ≡ covering (graph_in t.now) m (places_of w) }
{
    if sure {
        return true;
    }
    let nodes = open_in(t, graph, m);
    nodes & images(w) == nodes
}

// Whether two sets and maps of rule nodes make an item of rule r at plan node q, and its map: the rule nodes in `stays`
// are open there. It may be sure that each map has the open graph nodes of its set: then those of the union, which are
// among them, are covered if none is dropped.
pub fn combine(
    t: &AcceptedTables,
    graph: &[u64; graphs::GRAPH_TABLE_WORDS],
    r: u64,
    q: u64,
    stays: u64,
    m1: u64,
    m2: u64,
    sure: bool,
    f: [u8; PLACES],
    s: [u8; PLACES],
) -> Option<[u8; PLACES]>
    requires { Premises t.now.grammar.words.now t.now.graph.now graph.now r q stays m1 m2 sure f s }
    ensures { Combines t.now.grammar.words.now t.now.graph.now r q m1 m2 f s result }
{
    if !masks::disjoint(m1, m2) {
        return None;
    }
    let merged = match merging::merge(stays, f, s) {
        Ok(parts) => parts,
        Err(_) => return None,
    };
    let m = masks::union(m1, m2);
    if loses(graph, m, merged.dropped) {
        return None;
    }
    if !covered(t, graph, m, sure, merged.kept) {
        return None;
    }
    Some(places::nodes_of(merged.kept))
}
