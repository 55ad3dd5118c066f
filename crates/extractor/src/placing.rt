// Where an application places the nodes of its rule: by the nodes that its edges stand on, the first edge counting.
// Maps have eight places, 64 where a node has none yet, and are filled where they stand.
ghost use Rattle.std.specs.Prelude.{◌≡◌, ◌≤◌, ◌<◌, length, take};
ghost use Rattle.hrg.specs.Counts.{tabulate};
ghost use Rattle.hrg.specs.Grammars.{right_of, edge_at};
ghost use Rattle.hrg.specs.Trees.{padded};
ghost use Rattle.hrg.specs.Items.{joined, attach};
ghost use Rattle.questions.specs.Layout.{graph_edge_place, rank_at, rule_nodes, edge_label, graph_edges, graph_node};
ghost use Rattle.joins.specs.Joins.{KnownEdge, edge_nodes, BareFrom};
ghost use Rattle.joins.specs.Tables.{grammar_in, graph_in};
ghost use Rattle.records.specs.Words.{record_at};
ghost use Rattle.extraction.specs.Extraction.{part_nodes, placed_by};

use joins::accepted::{AcceptedGrammar, AcceptedTables};
use places::PLACES;
use std::array;

// The nodes of graph edge b, in four places.
fn nodes_of(graph: &[u64], b: u64) -> [u64; 4]
    requires { graph_edge_place b < length graph.now }
    ensures { result ≡ tabulate 4 (λ k. graph_node graph.now b k) }
{
    array::from_fn(|k| layout::graph_node_in(graph, b, k as u64))
}

// Places the nodes of edge i of rule r that have no place yet: at the first nodes of l, in order. Its nodes are
// different, so that each is written once.
fn place_nodes(grammar: &AcceptedGrammar, r: u64, i: u64, l: &[u64], f: &mut [u64; 8])
    requires { KnownEdge grammar.now.words.now r i × BareFrom (rule_nodes grammar.now.words.now r) f.old }
    ensures { f.new ≡ padded (joined (rule_nodes grammar.now.words.now r) f.old (attach (rule_nodes grammar.now.words.now r) (edge_nodes grammar.now.words.now r i) (take (rank_at grammar.now.words.now (edge_label grammar.now.words.now r i)) l.now))) }
{
    let rank = joins::rank_of(grammar.words, layout::edge_label_in(grammar.words, r, i));
    for k in (0..rank.min(l.len() as u64)).rev() {
        let x = layout::edge_node_in(grammar.words, r, i, k) as usize;
        if f[x] == 64 {
            f[x] = l[k as usize];
        }
    }
}

// The same by graph edge b, which has as many nodes as the rank of its label.
fn place_edge(t: &AcceptedTables, r: u64, i: u64, b: u64, f: &mut [u64; 8])
    requires { KnownEdge t.now.grammar.words.now r i × (b < graph_edges t.now.graph.now) × BareFrom (rule_nodes t.now.grammar.words.now r) f.old }
    ensures { f.new ≡ padded (joined (rule_nodes t.now.grammar.words.now r) f.old (attach (rule_nodes t.now.grammar.words.now r) (edge_nodes t.now.grammar.words.now r i) (take (rank_at t.now.grammar.words.now (edge_label t.now.grammar.words.now r i)) (edge_at (graph_in t.now).edges b).attachment))) }
{
    let rank = joins::rank_of(t.grammar.words, layout::graph_label_in(t.graph, b));
    let nodes = nodes_of(t.graph, b);
    place_nodes(&t.grammar, r, i, &nodes[..rank as usize], f);
}

// The nodes of the record at b; past the chart's end its words are 0.
fn nodes_at(chart: &[u64], b: u64) -> [u64; PLACES]
    ensures { result ≡ (record_at chart.now b).item.nodes }
{
    let item = if b < records::capacity_of(chart) {
        records::item_at(chart, b)
    } else {
        records::load_any(chart, b).item
    };
    places::wide(item.nodes)
}

// The same by the nodes that the record at b lists.
fn place_record(grammar: &AcceptedGrammar, chart: &[u64], r: u64, i: u64, b: u64, f: &mut [u64; 8])
    requires { KnownEdge grammar.now.words.now r i × BareFrom (rule_nodes grammar.now.words.now r) f.old }
    ensures { f.new ≡ padded (joined (rule_nodes grammar.now.words.now r) f.old (attach (rule_nodes grammar.now.words.now r) (edge_nodes grammar.now.words.now r i) (take (rank_at grammar.now.words.now (edge_label grammar.now.words.now r i)) (record_at chart.now b).item.nodes))) }
{
    let nodes = nodes_at(chart, b);
    place_nodes(grammar, r, i, &nodes, f);
}

// The same by the partner b of the edge: a graph edge, or a record. Past the graph's edges there is no node.
fn place_part(t: &AcceptedTables, chart: &[u64], r: u64, i: u64, b: u64, f: &mut [u64; 8])
    requires { KnownEdge t.now.grammar.words.now r i × BareFrom (rule_nodes t.now.grammar.words.now r) f.old }
    ensures { f.new ≡ padded (joined (rule_nodes t.now.grammar.words.now r) f.old (attach (rule_nodes t.now.grammar.words.now r) (edge_nodes t.now.grammar.words.now r i) (part_nodes (λ k. record_at chart.now k) (grammar_in t.now) (graph_in t.now) (edge_at (right_of (grammar_in t.now) r).edges i) b))) }
{
    if crate::lookup::is_nonterminal(t.grammar.words, r, i) {
        place_record(&t.grammar, chart, r, i, b, f);
    } else if b < layout::graph_edges(t.graph) {
        place_edge(t, r, i, b, f);
    }
}

// The places of the nodes of rule r, by the partners of all its edges, over eight words of a longer row.
pub(crate) fn place(
    t: &AcceptedTables,
    chart: &[u64],
    r: u64,
    edges: u64,
    bs: &[u64; 8],
    f: &mut [u64],
)
    requires { (edges ≡ length (right_of (grammar_in t.now) r).edges) × (edges ≤ 8) × (length f.old ≡ 8) }
    ensures { f.new ≡ padded (placed_by (λ k. record_at chart.now k) (grammar_in t.now) (graph_in t.now) (right_of (grammar_in t.now) r) bs.now edges) }
{
    let Some(map) = f.as_mut_array() else {
        unreachable!()
    };
    *map = [64; 8];
    for i in 0..edges {
        place_part(t, chart, r, i, bs[i as usize], map);
    }
}
