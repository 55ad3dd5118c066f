// What is looked up of a graph for each joined set of edges, worked out once: nodes by sets of four edges, external
// nodes, and edges by label and place.
ghost use Rattle.std.specs.Prelude.{◌≡◌, ◌&&◌, ℕ, ◌+◌, ◌<◌, replicate};
ghost use Rattle.masks.specs.Masks.{member};
ghost use Rattle.questions.specs.Layout.{graph_edges};
ghost use Rattle.joins.specs.Graphs.{graph_table_words, EdgeSets, Group, Grouped, Indexed, GraphTable};

use crate::accepted::AcceptedTables;

// Words of the table.
pub const GRAPH_TABLE_WORDS: usize = 577;

// The sets of four edges.
pub(crate) const SUBSETS: u64 = 16;

// The nodes of each edge.
#[tactic(auto, using(crate::proofs::Known::graph_edges_few))]
fn edge_sets(t: &AcceptedTables) -> [u64; 64]
    ensures { EdgeSets t.now.grammar.words.now t.now.graph.now result }
{
    let mut sets = [0u64; 64];
    let n = layout::graph_edges(t.graph);
    for e in 0..n {
        let rank = layout::rank_at(t.grammar.words, layout::graph_label(t.graph, e));
        let on = crate::listed(t.graph, layout::graph_edge_place(e), 1, rank);
        sets[e as usize] = on;
    }
    sets
}

// The set `on` where k is in v, else none.
fn chosen(v: u64, k: u64, on: u64) -> u64
    ensures { (x : ℕ) → member result x ≡ (member v k && member on x) }
{
    if masks::has(v, k) { on } else { 0 }
}

// The nodes on the edges of set i % 16 of the four edges of group i / 16.
fn group(sets: &[u64; 64], i: u64) -> u64
    requires { i < 256 }
    ensures { Group sets.now i result }
{
    let first = 4 * (i / SUBSETS);
    let v = i % SUBSETS;
    let mut nodes = 0;
    for k in 0..4 {
        nodes |= chosen(v, k, sets[(first + k) as usize]);
    }
    nodes
}

// The words of the groups that have an edge.
#[tactic(auto, using(crate::proofs::Known::graph_edges_few))]
fn put_groups(t: &AcceptedTables, sets: &[u64; 64], words: &mut [u64; GRAPH_TABLE_WORDS])
    ensures { Grouped t.now.graph.now sets.now words.old words.new }
{
    let n = SUBSETS * layout::graph_edges(t.graph).div_ceil(4);
    for i in 0..n {
        let m = group(sets, i);
        words[i as usize] = m;
    }
}

// Edge e in the words of its label and of the node at each of its places.
#[tactic(auto, using(crate::proofs::GraphLaws::label_few, crate::proofs::GraphLaws::node_few))]
fn mark_edge(t: &AcceptedTables, e: u64, words: &mut [u64; GRAPH_TABLE_WORDS])
    requires { (e < graph_edges t.now.graph.now) × Indexed t.now.grammar.words.now t.now.graph.now words.old e }
    ensures { Indexed t.now.grammar.words.now t.now.graph.now words.new (e + 1) }
{
    let label = layout::graph_label(t.graph, e);
    let first = (257 + label) as usize;
    let w = masks::with(words[first], e);
    words[first] = w;
    let rank = layout::rank_at(t.grammar.words, label);
    for k in 0..rank {
        let i = (321 + 64 * k + layout::graph_node(t.graph, e, k)) as usize;
        let v = masks::with(words[i], e);
        words[i] = v;
    }
}

// Every edge so.
fn mark_edges(t: &AcceptedTables, words: &mut [u64; GRAPH_TABLE_WORDS])
    requires { Indexed t.now.grammar.words.now t.now.graph.now words.old 0 }
    ensures { Indexed t.now.grammar.words.now t.now.graph.now words.new (graph_edges t.now.graph.now) }
{
    for e in 0..layout::graph_edges(t.graph) {
        mark_edge(t, e, words);
    }
}

// The table of the graph, into words that are 0.
pub fn fill(t: &AcceptedTables, words: &mut [u64; GRAPH_TABLE_WORDS])
    requires { words.old ≡ replicate graph_table_words 0 }
    ensures { GraphTable t.now.grammar.words.now t.now.graph.now words.new }
{
    mark_edges(t, words);
    let sets = edge_sets(t);
    put_groups(t, &sets, words);
    let externals = crate::graph_externals(t);
    words[256] = externals;
}
