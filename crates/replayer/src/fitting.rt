// The lines of a derivation file, and one row against accepted tables: whether an application and its terminal edges
// fit.
ghost use Rattle.std.specs.Prelude.{◌≡◌, not, ◌+◌, ◌≤◌, ◌<◌, ℕ, length, get_or, take, drop, replicate, ltb};
ghost use Rattle.masks.specs.Masks.{member};
ghost use Rattle.format.specs.Lines.{line_of};
ghost use Rattle.scripts.specs.Scripts.{rows_in};
ghost use Rattle.hrg.specs.Counts.{tabulate};
ghost use Rattle.hrg.specs.Grammars.{lhs_of, right_of, rank_of, edge_at};
ghost use Rattle.hrg.specs.Trees.{images};
ghost use Rattle.hrg.specs.Items.{keep_if};
ghost use Rattle.hrg.specs.WellFormedTest.{every};
ghost use Rattle.hrg.specs.ClosureRun.{same_list};
ghost use Rattle.questions.specs.Layout.{rule_count, rule_external, edge_label, graph_edges, graph_label};
ghost use Rattle.questions.specs.Abstract.{grammar_of};
ghost use Rattle.joins.specs.Tables.{grammar_in, graph_in};
ghost use Rattle.preorder.specs.Replay.{rule_in, new_nodes};
ghost use Rattle.replayer.specs.Fitting.{count_in, node_in, four_of, new_in, with_all, taken_if, row_passes, edge_passes};
ghost use Rattle.replayer.specs.Rows.{side_of, place_of, new_of};
ghost use Rattle.replayer.specs.RowParts.{line_from, letter_in, said_count, head_passes};

use crate::rows::Row;
use format::Letter;
use joins::accepted::{AcceptedGrammar, AcceptedTables};

// ---- the lines of a derivation file
// The letter of the line that was found at `from`, where that is an ended one of the shape.
fn letter_at(text: &[u8], from: usize, line: &[u8]) -> Letter
    requires { (from ≤ length text.now) × (line.now ≡ line_of (drop from text.now)) }
    ensures { result ≡ letter_in (line_from text.now from) }
{
    if !lines::ends(text, from, line) {
        return Letter::Other;
    }
    if !lines::shape(line) {
        return Letter::Other;
    }
    lines::letter_kind(line)
}

// How many applications the first line says, where it opens the file.
fn said_count(text: &[u8]) -> Option<u64>
    ensures { result ≡ said_count text.now }
{
    let line = lines::next_line(text, 0);
    match letter_at(text, 0, line) {
        Letter::D => {}
        _ => return None,
    }
    if lines::field_count(line) != 1 {
        return None;
    }
    let n = lines::number(line, 0);
    if n < 1 {
        return None;
    }
    if 4096 < n {
        return None;
    }
    Some(n)
}

// How many applications a derivation file has by its lines, where it is of the shape.
pub(crate) fn row_count(text: &[u8]) -> Option<u64>
    ensures { result ≡ count_in (rows_in text.now) }
{
    let n = said_count(text)?;
    let mut at = lines::after_line(text, 0);
    for _k in 0..n {
        let line = lines::next_line(text, at);
        match letter_at(text, at, line) {
            Letter::A => {}
            _ => return None,
        }
        at = lines::behind(text, at, line);
    }
    if at < text.len() {
        return None;
    }
    Some(n)
}

// ---- the row of an application
// Whether the row has number n, and a rule for an edge s with as many fields as the rule needs. A row of one field
// has no rule.
fn head_passes(grammar: &AcceptedGrammar, row: &[u64], n: u64, s: u64) -> bool
    ensures { result ≡ head_passes (grammar_of grammar.now.words.now) n s row.now }
{
    if row.len() < 2 {
        return false;
    }
    if row[0] != n {
        return false;
    }
    let r = row[1];
    if layout::rule_count(grammar.words) <= r {
        return false;
    }
    if layout::rule_symbol(grammar.words, r) != s {
        return false;
    }
    let nodes = layout::rule_nodes(grammar.words, r);
    let edges = layout::rule_edges(grammar.words, r);
    row.len() as u64 == 2 + nodes + edges
}

// Whether each of the first `count` placed nodes is below `nodes`.
fn places_known(row: &[u64], count: u64, nodes: u64) -> bool
    requires { (count ≤ 8) × (2 + count ≤ length row.now) }
    ensures { result ≡ every count (λ x. ltb (node_in row.now x) nodes) }
{
    let end = 2 + count as usize;
    row[2..end].iter().all(|v| *v < nodes)
}

// Whether the graph nodes of the rule's external nodes are the listed ones, in order. Each external node is read from
// the words by its number, so the loop is over a range.
fn externals_fit(row: &Row, listed: &[u64; 4]) -> bool
    ensures { result ≡ same_list (images (place_of row.now) (side_of row.now).externals) (take (rank_of (grammar_in row.now.tables) (lhs_of (grammar_in row.now.tables) (rule_in row.now.fields.now))) listed.now) }
{
    let r = row.fields[1];
    let rank = layout::rank_at(
        row.tables.grammar.words,
        layout::rule_symbol(row.tables.grammar.words, r),
    );
    for k in 0..rank {
        let x = layout::rule_external(row.tables.grammar.words, r, k);
        if row.fields[(2 + x) as usize] != listed[k as usize] {
            return false;
        }
    }
    true
}

// The first n of the listed nodes as a mask.
pub(crate) fn mask_of(listed: [u64; 4], n: u64) -> u64
    requires { (n ≤ 4) × ((k : ℕ) → k < n → get_or listed k 0 < 64) }
    ensures { result ≡ with_all 0 (take n listed) }
{
    let mut mask: u64 = 0;
    for k in 0..n {
        mask = masks::with(mask, listed[k as usize]);
    }
    mask
}

// The external nodes of a rule, in four places: its symbol's rank says how many of them count.
#[tactic(auto, unfolding(hrg::specs::Counts::tabulate))]
fn rule_externals(grammar: &AcceptedGrammar, r: u64) -> [u64; 4]
    ensures { result ≡ tabulate 4 (λ k. rule_external grammar.now.words.now r k) }
{
    [0, 1, 2, 3].map(|k| layout::rule_external(grammar.words, r, k))
}

// The external nodes of a rule as a mask.
fn external_mask(grammar: &AcceptedGrammar, r: u64) -> u64
    requires { r < rule_count grammar.now.words.now }
    ensures { result ≡ with_all 0 (right_of (grammar_of grammar.now.words.now) r).externals }
{
    let rank = layout::rank_at(grammar.words, layout::rule_symbol(grammar.words, r));
    mask_of(rule_externals(grammar, r), rank)
}

// The graph node of rule node x where that is inner, and 64, which is in no mask, where it is one of the outer ones.
fn inner_node(row: &[u64], outer: u64, x: u64) -> u64
    requires { (x ≤ 8) × (2 + x < length row.now) }
    ensures { result ≡ keep_if (not (member outer x)) (node_in row.now x) }
{
    if masks::has(outer, x) {
        return 64;
    }
    row[(2 + x) as usize]
}

// The used nodes and those inside the application, where these are new.
fn with_inner(row: &Row, used: u64) -> Option<u64>
    ensures { result ≡ taken_if (new_in used (new_of row.now)) (with_all used (new_of row.now)) }
{
    let r = row.fields[1];
    let outer = external_mask(&row.tables.grammar, r);
    let n = layout::rule_nodes(row.tables.grammar.words, r);
    let mut nodes = used;
    for x in 0..n {
        let v = inner_node(row.fields, outer, x);
        if masks::has(nodes, v) {
            return None;
        }
        nodes = masks::with(nodes, v);
    }
    Some(nodes)
}

// Whether the row may stand as application n for an edge s on the listed nodes, where some nodes are used.
pub(crate) fn taken(
    t: &AcceptedTables,
    row: &[u64],
    n: u64,
    s: u64,
    listed: &[u64; 4],
    used: u64,
) -> Option<u64>
    ensures { result ≡ taken_if (row_passes (grammar_in t.now) (graph_in t.now) n s (take (rank_of (grammar_in t.now) s) listed.now) used row.now) (with_all used (new_nodes (right_of (grammar_in t.now) (rule_in row.now)) row.now)) }
{
    if !head_passes(&t.grammar, row, n, s) {
        return None;
    }
    let count = layout::rule_nodes(t.grammar.words, row[1]);
    if !places_known(row, count, layout::graph_nodes(t.graph)) {
        return None;
    }
    let row = Row {
        tables: *t,
        fields: row,
    };
    if !externals_fit(&row, listed) {
        return None;
    }
    with_inner(&row, used)
}

// ---- the edges of an application
// The graph nodes of edge i of the row's rule, in four places that have none yet.
pub(crate) fn list_nodes(row: &Row, i: u64, nodes: &mut [u64; 4])
    requires { (i < length (side_of row.now).edges) × (nodes.old ≡ replicate 4 64) }
    ensures { nodes.new ≡ four_of (images (place_of row.now) (edge_at (side_of row.now).edges i).attachment) }
{
    let r = row.fields[1];
    let rank = layout::rank_at(
        row.tables.grammar.words,
        layout::edge_label(row.tables.grammar.words, r, i),
    );
    for k in 0..rank {
        let x = layout::edge_node(row.tables.grammar.words, r, i, k);
        nodes[k as usize] = row.fields[(2 + x) as usize];
    }
}

// Whether graph edge g, with the label of edge i of the row's rule, lies on the graph nodes of that edge, in order.
fn nodes_fit(row: &Row, i: u64, g: u64) -> bool
    requires { (i < length (side_of row.now).edges) × (g < graph_edges row.now.tables.graph.now) × (graph_label row.now.tables.graph.now g ≡ edge_label row.now.tables.grammar.words.now (rule_in row.now.fields.now) i) }
    ensures { result ≡ same_list (edge_at (graph_in row.now.tables).edges g).attachment (images (place_of row.now) (edge_at (side_of row.now).edges i).attachment) }
{
    let r = row.fields[1];
    let rank = layout::rank_at(
        row.tables.grammar.words,
        layout::edge_label(row.tables.grammar.words, r, i),
    );
    for k in 0..rank {
        let x = layout::edge_node(row.tables.grammar.words, r, i, k);
        if layout::graph_node(row.tables.graph, g, k) != row.fields[(2 + x) as usize] {
            return false;
        }
    }
    true
}

// Whether graph edge g stands for edge i of the row's rule, where some edges are used.
pub(crate) fn edge_passes(row: &Row, i: u64, g: u64, used: u64) -> bool
    requires { i < length (side_of row.now).edges }
    ensures { result ≡ edge_passes (graph_in row.now.tables) (edge_at (side_of row.now).edges i).label (images (place_of row.now) (edge_at (side_of row.now).edges i).attachment) used g }
{
    if layout::graph_edges(row.tables.graph) <= g {
        return false;
    }
    let label = layout::edge_label(row.tables.grammar.words, row.fields[1], i);
    if layout::graph_label(row.tables.graph, g) != label {
        return false;
    }
    if !nodes_fit(row, i, g) {
        return false;
    }
    !masks::has(used, g)
}
