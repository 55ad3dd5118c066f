// Question 8 for a lent chart: how many items it holds, and whether each of its records is the image of an item that
// names what exists.

#![tactic(auto)]

ghost use Rattle.std.specs.Prelude.{◌≡◌, is_some, IfSome, ◌≤◌};
ghost use Rattle.masks.specs.Masks.{member, full};
ghost use Rattle.hrg.specs.Grammars.{plan_of, plan_node};
ghost use Rattle.joins.specs.Joins.{KnownNode, KnownEdge};
ghost use Rattle.joins.specs.Tables.{grammar_in, graph_in};
ghost use Rattle.agenda.specs.Steps.{handled_count};
ghost use Rattle.records.specs.Words.{records_at, item_count};
ghost use Rattle.validity.specs.Checking.{holds, known_places, in_graph, known_second, known_partners, known_active, known_passive, known_record, known_chart};
ghost use Rattle.validator.specs.Sizes.{Sized};

use agenda::Record;
use joins::accepted::AcceptedTables;
use places::PLACES;
use rules::planned::{PlannedGrammar, PlannedTables};

// What is asked of accepted tables once for all items: how many rules, symbols, graph nodes and graph edges there
// are, and all graph edges as a set.
#[derive(Clone, Copy)]
struct Sizes {
    rules: u64,
    symbols: u64,
    nodes: u64,
    edges: u64,
    all: u64,
}

// Does the chart hold 1 to 4,096 items?
pub fn holds(chart: &[u64]) -> bool
    ensures { result ≡ holds chart.now }
{
    let cap = records::capacity_of(chart);
    (1 <= cap) & (cap <= 4096)
}

fn sizes_of(t: &AcceptedTables) -> Sizes
    ensures { Sized t.now.grammar.words.now t.now.graph.now result }
{
    let edges = layout::graph_edges(t.graph);
    Sizes {
        rules: layout::rule_count(t.grammar.words),
        symbols: layout::symbol_count(t.grammar.words),
        nodes: layout::graph_nodes(t.graph),
        edges,
        all: masks::full(edges),
    }
}

// ---- edges and places
// Whether each of the eight places has what it should: a node below n where it is used, and none elsewhere.
fn known_places(n: u64, used: u64, ns: [u8; PLACES]) -> bool
    requires { n ≤ 64 }
    ensures { result ≡ known_places n (λ k. member used k) ns }
{
    places::testing::fits(places::word_of(ns), used, n)
}

// Whether the graph has the edges and the nodes that a record names, by the set of places that its item uses.
fn in_graph(s: Sizes, used: u64, x: Record) -> bool
    requires { (s.all ≡ full s.edges) × (s.nodes ≤ 64) }
    ensures { result ≡ in_graph s.nodes s.edges (λ k. member used k) x }
{
    let edges = x.item.edges;
    if edges & s.all != edges {
        return false;
    }
    known_places(s.nodes, used, x.item.nodes)
}

// ---- partners, among n items
// Whether what edge i of the rule was matched with exists: a graph edge, or an item.
fn known_second(t: &AcceptedTables, s: Sizes, n: u64, x: Record, i: u64) -> bool
    requires { Sized t.now.grammar.words.now t.now.graph.now s × KnownEdge t.now.grammar.words.now x.item.of i }
    ensures { result ≡ known_second (grammar_in t.now) (graph_in t.now) n x i }
{
    let item = x.item;
    let label = layout::edge_label_in(t.grammar.words, item.of as u64, i);
    let kind = layout::symbol_kind_in(t.grammar.words, label);
    let second = x.second as u64;
    match kind {
        0 => second < s.edges,
        _ => second < n,
    }
}

// Whether the partners exist that the plan node of the record asks for; a leaf asks for none.
fn known_partners(t: &AcceptedTables, s: Sizes, n: u64, x: Record) -> bool
    requires { Sized t.now.grammar.words.now t.now.graph.now s × KnownNode t.now.grammar.words.now x.item.of x.item.plan }
    ensures { result ≡ known_partners (grammar_in t.now) (graph_in t.now) n x (plan_node (plan_of (grammar_in t.now) x.item.of) x.item.plan) }
{
    let item = x.item;
    let of = item.of as u64;
    let plan = item.plan as u64;
    let first = x.first as u64;
    let second = x.second as u64;
    let kind = layout::plan_kind_in(t.grammar.words, of, plan);
    match kind {
        0 => (first == 0) & (second == 0),
        1 => (first < n)
            & known_second(
                t,
                s,
                n,
                x,
                layout::plan_second_in(t.grammar.words, of, plan),
            ),
        _ => (first < n) & (second < n),
    }
}

// ---- records
// The places of an active item are the open rule nodes at its plan node.
fn known_active(t: &PlannedTables, s: Sizes, n: u64, x: Record) -> bool
    requires { Sized t.now.tables.grammar.words.now t.now.tables.graph.now s }
    ensures { result ≡ known_active (grammar_in t.now.tables) (graph_in t.now.tables) n x }
{
    let item = x.item;
    let of = item.of as u64;
    let plan = item.plan as u64;
    if s.rules <= of {
        return false;
    }
    if layout::rule_plan_in(t.tables.grammar.words, of) <= plan {
        return false;
    }
    let g = PlannedGrammar {
        grammar: t.tables.grammar,
        plans: t.plans,
    };
    let open = rules::plans::open_at(&g, of, plan);
    if !in_graph(s, open, x) {
        return false;
    }
    known_partners(&t.tables, s, n, x)
}

// Those of a passive item are as many as its symbol's rank; it has neither a plan node nor a second partner.
fn known_passive(t: &AcceptedTables, s: Sizes, n: u64, x: Record) -> bool
    requires { Sized t.now.grammar.words.now t.now.graph.now s }
    ensures { result ≡ known_passive (grammar_in t.now) (graph_in t.now) n x }
{
    let item = x.item;
    let of = item.of as u64;
    if s.symbols <= of {
        return false;
    }
    if layout::symbol_kind_in(t.grammar.words, of) == 0 {
        return false;
    }
    let listed = masks::full(layout::symbol_rank_in(t.grammar.words, of));
    if !in_graph(s, listed, x) {
        return false;
    }
    let first = x.first as u64;
    (first < n) & (item.plan == 0) & (x.second == 0)
}

fn known_record(t: &PlannedTables, s: Sizes, n: u64, x: Record) -> bool
    requires { Sized t.now.tables.grammar.words.now t.now.tables.graph.now s }
    ensures { result ≡ known_record (grammar_in t.now.tables) (graph_in t.now.tables) n x }
{
    match x.item.kind {
        0 => known_active(t, s, n, x),
        1 => known_passive(&t.tables, s, n, x),
        _ => false,
    }
}

// ---- the chart
// Is each record the image of an item that names a rule, plan node, symbol, graph nodes, edges and partner items that
// exist, with no more items than the chart holds? The handled ones are counted in the same walk, so that whoever asks
// how the chart stands needs no other: their number, if each record is known.
pub fn known(t: &PlannedTables, chart: &[u64]) -> Option<u64>
    ensures { (is_some result ≡ known_chart (grammar_in t.now.tables) (graph_in t.now.tables) chart.now) × IfSome result (λ handled. handled ≡ handled_count (records_at chart.now (item_count chart.now))) }
{
    let n = records::telling::number_of(chart);
    if records::capacity_of(chart) < n {
        return None;
    }
    let s = sizes_of(&t.tables);
    let mut handled = 0;
    for j in 0..n {
        let x = records::load(chart, j);
        if !known_record(t, s, n, x) {
            return None;
        }
        if x.handled != 0 {
            handled += 1;
        }
    }
    Some(handled)
}
