// The replay of a derivation file.

#![tactic(auto)]

ghost use Rattle.std.specs.Prelude.{◌≡◌, true, ◌&&◌, ◌+◌, ◌≤◌, ◌<◌, length, take, drop, eqb};
ghost use Rattle.masks.specs.Masks.{◌∪◌, single, full};
ghost use Rattle.format.specs.Lines.{line_of, after_line};
ghost use Rattle.hrg.specs.Counts.{tabulate};
ghost use Rattle.hrg.specs.Grammars.{rank_of};
ghost use Rattle.questions.specs.Layout.{graph_nodes, graph_edges, graph_external};
ghost use Rattle.questions.specs.Abstract.{grammar_of};
ghost use Rattle.joins.specs.Tables.{grammar_in, graph_in};
ghost use Rattle.preorder.specs.Replay.{replayed};
ghost use Rattle.derivation.specs.Derivations.{replay_text};
ghost use Rattle.replayer.specs.Following.{text_rows, RowsAt, progress_in, progress_of, Stands, Applied, Followed, RuledRow, part_of};
ghost use Rattle.replayer.specs.Verdicts.{replay_of, Exact};

use joins::accepted::{AcceptedGrammar, AcceptedTables};

mod fitting;
mod rows;

use rows::Row;

// Why a file does not pass: the tables are refused (8), or it is no derivation of the graph (13).
#[derive(Clone, Copy, Debug, PartialEq, Eq)]
pub enum ReplayError {
    Unfit,
    NoDerivation,
}

// What a row says of an edge of its rule: it has no such edge, a graph edge, or an application for a symbol by its
// number. Three cases of their own, so no `Option`.
#[derive(Clone, Copy)]
enum Part {
    End,
    GraphEdge(u64),
    Application(u64, u64),
}

// ---- steps of a replay
// How far a replay came: the number of the next row, the place of its line, and the graph edges and the graph nodes
// used. It is lent all the way down, since a copy for each call is slow.
#[derive(Clone, Copy)]
struct Progress {
    next: u64,
    at: usize,
    edges: u64,
    nodes: u64,
}

// One graph edge more is used.
fn use_edge(st: &mut Progress, g: u64)
    requires { g < 64 }
    ensures { st.new ≡ record st.old { edges = st.old.edges ∪ single g } }
{
    st.edges = masks::with(st.edges, g);
}

// The row of the line is taken: these nodes are used, and the next row is due.
fn open_row(text: &[u8], line: &[u8], nodes: u64, st: &mut Progress)
    requires { (st.old.next < 4096) × (st.old.at ≤ length text.now) × (line.now ≡ line_of (drop st.old.at text.now)) }
    ensures { st.new ≡ record st.old { next = st.old.next + 1; at = after_line text.now st.old.at; nodes = nodes } }
{
    st.next += 1;
    st.at = lines::behind(text, st.at, line);
    st.nodes = nodes;
}

// What the row says of edge i of its rule.
fn part_at(grammar: &AcceptedGrammar, row: &[u64], i: u64) -> Part
    requires { RuledRow (grammar_of grammar.now.words.now) row.now }
    ensures { result ≡ part_of (grammar_of grammar.now.words.now) row.now i }
{
    let rule = row[1];
    if layout::rule_edges(grammar.words, rule) <= i {
        return Part::End;
    }
    let at = 2 + layout::rule_nodes(grammar.words, rule) + i;
    let field = row[at as usize];
    let s = layout::edge_label(grammar.words, rule, i);
    if layout::kind_of(grammar.words, s) == 0 {
        Part::GraphEdge(field)
    } else {
        Part::Application(s, field)
    }
}

// ---- the replay: an application and its edge list call each other, and the applications and edges left fall
// The next row, for an edge s on the listed nodes; where the file has none left, it is refused. Its numbers are read
// once, for all that is asked of them.
#[cycle(application_edge_list)]
fn application(
    t: &AcceptedTables,
    text: &[u8],
    s: u64,
    listed: &[u64; 4],
    st: &mut Progress,
) -> bool
    requires { RowsAt text.now st.old.next st.old.at }
    ensures { Applied (grammar_in t.now) (graph_in t.now) text.now s (take (rank_of (grammar_in t.now) s) listed.now) (progress_in true st.old) (progress_in result st.new) }
{
    if text.len() <= st.at {
        return false;
    }
    let line = lines::next_line(text, st.at);
    let mut fields = [0u64; 18];
    let count = lines::read_row(line, &mut fields);
    let row = &fields[..count];
    let taken = fitting::taken(t, row, st.next, s, listed, st.nodes);
    match taken {
        None => false,
        Some(nodes) => {
            open_row(text, line, nodes, st);
            let row = Row {
                tables: *t,
                fields: row,
            };
            edge_list(&row, text, 0, st)
        }
    }
}

// The edges of the row's rule, from edge i on.
#[cycle(application_edge_list)]
fn edge_list(row: &Row, text: &[u8], i: u64, st: &mut Progress) -> bool
    requires { RowsAt text.now st.old.next st.old.at }
    ensures { Followed (grammar_in row.now.tables) (graph_in row.now.tables) text.now row.now.fields.now i (progress_in true st.old) (progress_in result st.new) }
{
    let part = part_at(&row.tables.grammar, row.fields, i);
    match part {
        Part::End => true,
        Part::GraphEdge(g) => {
            if !fitting::edge_passes(row, i, g, st.edges) {
                return false;
            }
            use_edge(st, g);
            edge_list(row, text, i + 1, st)
        }
        Part::Application(s, number) => {
            if number != st.next {
                return false;
            }
            let mut listed = [64u64; 4];
            fitting::list_nodes(row, i, &mut listed);
            if !application(&row.tables, text, s, &listed, st) {
                return false;
            }
            edge_list(row, text, i + 1, st)
        }
    }
}

// ---- the whole replay
// The graph's external nodes, in four places.
#[tactic(auto, unfolding(hrg::specs::Counts::tabulate))]
fn externals(graph: &[u64]) -> [u64; 4]
    ensures { result ≡ tabulate 4 (λ k. graph_external graph.now k) }
{
    [0, 1, 2, 3].map(|k| layout::graph_external(graph, k))
}

// The replay of the rows of the text, from one edge with the start symbol on the external nodes: how far it came,
// where all its tests passed.
fn from_start(t: &AcceptedTables, text: &[u8]) -> Option<Progress>
    requires { 0 < length (text_rows text.now) }
    ensures { Stands (graph_in t.now) (progress_of result) (replayed (grammar_in t.now) (graph_in t.now) (text_rows text.now)) }
{
    let s = layout::start_symbol(t.grammar.words);
    let listed = externals(t.graph);
    let mut st = Progress {
        next: 0,
        at: lines::after_line(text, 0),
        edges: 0,
        nodes: fitting::mask_of(listed, layout::rank_at(t.grammar.words, s)),
    };
    if application(t, text, s, &listed, &mut st) {
        Some(st)
    } else {
        None
    }
}

// Whether all n rows, graph edges and graph nodes are used.
fn is_whole(graph: &[u64], n: u64, st: &Progress) -> bool
    requires { (graph_nodes graph.now ≤ 64) × (graph_edges graph.now ≤ 64) }
    ensures { result ≡ (eqb st.now.next n && eqb st.now.edges (full (graph_edges graph.now)) && eqb st.now.nodes (full (graph_nodes graph.now))) }
{
    let edges = masks::full(layout::graph_edges(graph));
    let nodes = masks::full(layout::graph_nodes(graph));
    (st.next == n) & (st.edges == edges) & (st.nodes == nodes)
}

// Question 13 for accepted tables: is the text a derivation of the graph?
pub fn passes(t: &AcceptedTables, text: &[u8]) -> bool
    ensures { result ≡ replay_text (grammar_in t.now) (graph_in t.now) text.now }
{
    let Some(n) = fitting::row_count(text) else {
        return false;
    };
    match from_start(t, text) {
        Some(st) => is_whole(t.graph, n, &st),
        None => false,
    }
}

// Questions 8 and 13.
pub fn replay(grammar: &[u64], graph: &[u64], text: &[u8]) -> Result<(), ReplayError>
    ensures { (result ≡ replay_of grammar.now graph.now text.now) × Exact grammar.now graph.now text.now result }
{
    if !tables::checking::check_grammar(grammar) {
        return Err(ReplayError::Unfit);
    }
    if !tables::checking::check_graph(grammar, graph) {
        return Err(ReplayError::Unfit);
    }
    let t = AcceptedTables {
        grammar: AcceptedGrammar { words: grammar },
        graph,
    };
    if passes(&t, text) {
        Ok(())
    } else {
        Err(ReplayError::NoDerivation)
    }
}
