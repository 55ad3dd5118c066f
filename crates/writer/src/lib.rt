// The writer: the derivation of a chart's goal, as the text of a derivation file.

#![tactic(auto)]

ghost use Rattle.std.specs.Prelude.{◌≡◌, true, [], ◌∷◌, ◌+◌, ◌*◌, ◌≤◌, ◌<◌, length, IfSome};
ghost use Rattle.hrg.specs.Trees.{padded};
ghost use Rattle.hrg.specs.Items.{goal};
ghost use Rattle.agenda.specs.Records.{chart_item};
ghost use Rattle.joins.specs.Tables.{grammar_in, graph_in};
ghost use Rattle.records.specs.Words.{record_at, chart_of};
ghost use Rattle.validity.specs.Checking.{known_chart};
ghost use Rattle.extraction.specs.Extraction.{tree_at};
ghost use Rattle.extraction.specs.Listing.{listing};
ghost use Rattle.extractor.specs.Lists.{ListedIn};
ghost use Rattle.writing.specs.Writing.{write_spelt, goal_in, write_goal, write_of};
ghost use Rattle.writing.specs.Demand.{WriteChoices};
ghost use Rattle.writer.specs.Delivering.{Leaves, delivered};

use agenda::ChartItem;
use joins::accepted::{AcceptedGrammar, AcceptedTables};
use places::{NONE, PLACES};
use writing::WriteError;

// ---- question 11
// The graph's external nodes in eight places, 64 where there is none.
fn external_nodes(t: &AcceptedTables) -> [u8; PLACES]
    ensures { result ≡ padded (graph_in t.now).externals }
{
    let rank = layout::rank_at(t.grammar.words, layout::start_symbol(t.grammar.words));
    let mut l = NONE;
    for k in 0..rank {
        l = places::with_node(l, k, layout::graph_external(t.graph, k));
    }
    places::nodes_of(l)
}

// The goal: the start symbol, all edges, the external nodes in order.
fn goal_item(t: &AcceptedTables) -> ChartItem
    ensures { result ≡ chart_item (goal (grammar_in t.now) (graph_in t.now)) 0 }
{
    let nodes = external_nodes(t);
    ChartItem {
        kind: 1,
        of: layout::start_symbol(t.grammar.words) as u8,
        plan: 0,
        count: 0,
        edges: masks::full(layout::graph_edges(t.graph)),
        nodes,
    }
}

// The place of the goal among the items of a chart that passed question 8: there a record is the image of its item,
// so that the words tell.
fn find_goal(t: &AcceptedTables, chart: &[u64]) -> Option<u64>
    requires { known_chart (grammar_in t.now) (graph_in t.now) chart.now ≡ true }
    ensures { result ≡ goal_in (grammar_in t.now) (graph_in t.now) (chart_of chart.now).records }
{
    let n = records::item_count(chart);
    let goal = goal_item(t);
    records::find(chart, goal, n)
}

// ---- question 12
// Writes a text that is a derivation of the graph, if the output holds it. It is replayed first: the chart's partners
// are not trusted.
fn deliver(t: &AcceptedTables, text: &[u8], out: &mut [u8]) -> Result<u64, WriteError>
    ensures { Leaves (delivered (grammar_in t.now) (graph_in t.now) text.now out.old) result out.new }
{
    if !replayer::passes(t, text) {
        return Err(WriteError::Unfit);
    }
    if out.len() < text.len() {
        return Err(WriteError::NoRoom);
    }
    out[..text.len()].copy_from_slice(text);
    Ok(text.len() as u64)
}

// The derivation of the passive item at place j, whose n applications are listed: there are more places for the sizes
// of their trees than applications, and the buffer holds a line of 74 bytes for each behind the first line of six.
fn write_listed<const SIZES: usize, const BYTES: usize>(
    t: &AcceptedTables,
    chart: &[u64],
    j: u64,
    list: &[u64],
    n: Option<usize>,
    out: &mut [u8],
) -> Result<u64, WriteError>
    requires { ListedIn 4096 (listing (λ k. record_at chart.now k) (grammar_in t.now) 4096 (j ∷ [])) list.now n × IfSome n (λ k. (k ≤ length list.now) × (k < SIZES) × (74 * k + 6 ≤ BYTES)) × (SIZES ≤ 4104) × (BYTES ≤ 303110) }
    ensures { Leaves (write_spelt (grammar_in t.now) (graph_in t.now) out.old (tree_at (λ k. record_at chart.now k) (grammar_in t.now) (graph_in t.now) 4096 j)) result out.new }
{
    let mut sizes = [0u64; SIZES];
    let mut buffer = [0u8; BYTES];
    let start = extractor::extract(t, chart, j, list, n, &mut sizes, &mut buffer);
    let text = &buffer[..];
    deliver(t, &text[start..], out)
}

// The same of at most 4,096 applications, which are not listed yet.
fn write_long(t: &AcceptedTables, chart: &[u64], j: u64, out: &mut [u8]) -> Result<u64, WriteError>
    ensures { Leaves (write_spelt (grammar_in t.now) (graph_in t.now) out.old (tree_at (λ k. record_at chart.now k) (grammar_in t.now) (graph_in t.now) 4096 j)) result out.new }
{
    let mut list = [0u64; 4104];
    let n = extractor::listing::list_applications(&t.grammar, chart, j, &mut list);
    write_listed::<4104, 303110>(t, chart, j, &list, n, out)
}

// The same of more than a short list holds. It is called at two places, so that the compiler does not put it in line
// there: the pages of its long buffers would then be touched at every writing, the refused ones too.
fn write_many(t: &AcceptedTables, chart: &[u64], j: u64, out: &mut [u8]) -> Result<u64, WriteError>
    ensures { Leaves (write_spelt (grammar_in t.now) (graph_in t.now) out.old (tree_at (λ k. record_at chart.now k) (grammar_in t.now) (graph_in t.now) 4096 j)) result out.new }
{
    let mut list = [0u64; 1032];
    let Some(n) = extractor::listing::list_applications(&t.grammar, chart, j, &mut list) else {
        return write_long(t, chart, j, out);
    };
    write_listed::<1032, 75782>(t, chart, j, &list, Some(n), out)
}

// The derivation of the passive item at place j. Most are short: a long buffer takes longer to clear than those take
// to write.
fn write_item(t: &AcceptedTables, chart: &[u64], j: u64, out: &mut [u8]) -> Result<u64, WriteError>
    ensures { Leaves (write_spelt (grammar_in t.now) (graph_in t.now) out.old (tree_at (λ k. record_at chart.now k) (grammar_in t.now) (graph_in t.now) 4096 j)) result out.new }
{
    let mut list = [0u64; 264];
    let Some(n) = extractor::listing::list_applications(&t.grammar, chart, j, &mut list) else {
        return write_many(t, chart, j, out);
    };
    if n <= 40 {
        return write_listed::<48, 2966>(t, chart, j, &list, Some(n), out);
    }
    if n <= 256 {
        return write_listed::<264, 18950>(t, chart, j, &list, Some(n), out);
    }
    write_many(t, chart, j, out)
}

// Questions 11 and 12.
fn write_goal(t: &AcceptedTables, chart: &[u64], out: &mut [u8]) -> Result<u64, WriteError>
    requires { known_chart (grammar_in t.now) (graph_in t.now) chart.now ≡ true }
    ensures { Leaves (write_goal (grammar_in t.now) (graph_in t.now) (λ k. record_at chart.now k) out.old (goal_in (grammar_in t.now) (graph_in t.now) (chart_of chart.now).records)) result out.new }
{
    match find_goal(t, chart) {
        None => Err(WriteError::Underivable),
        Some(j) => write_item(t, chart, j, out),
    }
}

// Questions 8 to 12: writes the derivation of the chart's goal, and leaves what lies behind it. Refusals change
// nothing.
pub fn write(
    grammar: &[u64],
    graph: &[u64],
    chart: &[u64],
    out: &mut [u8],
) -> Result<u64, WriteError>
    ensures { (result ≡ (write_of grammar.now graph.now chart.now out.old).answer) × (out.new ≡ (write_of grammar.now graph.now chart.now out.old).out) × WriteChoices grammar.now graph.now chart.now out.old result out.new }
{
    chart::standing(grammar, graph, chart)?;
    let t = AcceptedTables {
        grammar: AcceptedGrammar { words: grammar },
        graph,
    };
    write_goal(&t, chart, out)
}
