// Nodes as masks: a list of nodes in range and distinct (question 5), and every node on an edge (question 6).
ghost use Rattle.std.specs.Prelude.{◌≡◌, ◌++◌, ◌&&◌, ◌+◌, ◌≤◌, ◌<◌, min, leb, eqb, map, drop, length};
ghost use Rattle.std.specs.List.{range_with_len};
ghost use Rattle.masks.specs.Masks.{◌∪◌, full};
ghost use Rattle.questions.specs.Layout.{line_field, rule_nodes, graph_nodes};
ghost use Rattle.questions.specs.Questions.{listed, covered, nodes_on_edges, nodes_on_graph};
ghost use Rattle.tables.specs.Marks.{marked, marks, nodes_at, nodes_from, Distinct};

// Whether the fields from `from` on are in range and distinct.
pub(crate) fn listed(f: &[u64], from: u64, nodes: u64) -> bool
    ensures { result ≡ listed nodes (drop from f.now) }
{
    let n = f.len() as u64;
    let top = nodes.min(64);
    let mut seen: u64 = 0;
    for k in from..n {
        let x = f[k as usize];
        if top <= x {
            return false;
        }
        if masks::has(seen, x) {
            return false;
        }
        seen = masks::with(seen, x);
    }
    true
}

// The set of the fields 1 to n of the line at place p, where they are nodes below `nodes` and distinct: each is tested
// once, and put into the set.
pub(crate) fn distinct(t: &[u64], p: u64, n: u64, nodes: u64) -> Option<u64>
    requires { (p < length t.now) × (n ≤ 4) × (nodes ≤ 64) }
    ensures { Distinct nodes (nodes_at t.now p n) result }
{
    let mut seen: u64 = 0;
    for k in 0..n {
        let x = layout::field_in(t, p, 1 + k);
        if nodes <= x {
            return None;
        }
        if (seen >> x) & 1 == 1 {
            return None;
        }
        seen |= 1u64 << x;
    }
    Some(seen)
}

// m with x.
fn mark(m: u64, x: u64) -> u64
    ensures { result ≡ marked m x }
{
    masks::with(m, x)
}

// m with the fields from `from` on.
#[tactic(auto, unfolding(crate::specs::Marks::marks))]
fn mark_fields(m: u64, f: &[u64], from: u64) -> u64
    ensures { result ≡ marks m (drop from f.now) }
{
    f.iter().skip(from as usize).copied().fold(m, mark)
}

// m with the fields 1 to n of the line at place p.
#[tactic(auto, unfolding(crate::specs::Marks::marks))]
fn mark_line(m: u64, t: &[u64], p: u64, n: u64) -> u64
    requires { n ≤ 4 }
    ensures { result ≡ marks m (map (line_field t.now p) (range_with_len 1 n)) }
{
    (1..1 + n).map(|k| layout::field_at(t, p, k)).fold(m, mark)
}

// The nodes on the n edges whose lines stand in t from place p on, with the labels of g.
fn mark_edges(g: &[u64], t: &[u64], p: u64, n: u64) -> u64
    requires { (p ≤ 1666) × (n ≤ 64) }
    ensures { result ≡ marks 0 (nodes_from g.now t.now p n) }
{
    let mut mask: u64 = 0;
    for i in 0..n {
        let rank = layout::rank_at(g, layout::field_at(t, p + i, 0));
        mask = mark_line(mask, t, p + i, rank);
    }
    mask
}

// Whether a mask has every node.
pub(crate) fn has_all(m: u64, nodes: u64) -> bool
    ensures { result ≡ (leb nodes 64 && eqb (m ∪ full (min nodes 64)) m) }
{
    let all = masks::union(m, masks::full(nodes));
    nodes <= 64 && all == m
}

// Whether each of so many nodes is on one of the n edges whose lines stand in t from place p on, with the labels of g,
// or in the fields of the next edge's line.
fn covered(g: &[u64], t: &[u64], p: u64, n: u64, nodes: u64, f: &[u64]) -> bool
    requires { (p ≤ 1666) × (n ≤ 64) }
    ensures { result ≡ covered nodes (nodes_from g.now t.now p n ++ drop 1 f.now) }
{
    has_all(mark_fields(mark_edges(g, t, p, n), f, 1), nodes)
}

// Every node of rule r so, by its first n edges.
#[tactic(auto, using(crate::proofs::Covering::rule_on))]
pub(crate) fn rule_covered(g: &[u64], r: u64, n: u64, f: &[u64]) -> bool
    requires { (r ≤ 63) × (n ≤ 8) }
    ensures { result ≡ covered (rule_nodes g.now r) (nodes_on_edges g.now r n ++ drop 1 f.now) }
{
    covered(g, g, layout::edges_from(r), n, layout::rule_nodes(g, r), f)
}

// Every node of a graph.
#[tactic(auto, using(crate::proofs::Covering::graph_on))]
pub(crate) fn graph_covered(g: &[u64], h: &[u64], n: u64, f: &[u64]) -> bool
    requires { n ≤ 64 }
    ensures { result ≡ covered (graph_nodes h.now) (nodes_on_graph g.now h.now n ++ drop 1 f.now) }
{
    covered(
        g,
        h,
        layout::graph_edge_place(0),
        n,
        layout::graph_nodes(h),
        f,
    )
}
