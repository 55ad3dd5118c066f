// The rows of the applications as lines of text, from the last application up to the first.
ghost use Rattle.std.specs.Prelude.{◌≡◌, ◌+◌, ◌*◌, ◌≤◌, ◌<◌, length, replicate};
ghost use Rattle.joins.specs.Tables.{grammar_in, graph_in};
ghost use Rattle.records.specs.Words.{record_at};
ghost use Rattle.scripts.specs.Scripts.{row_lines};
ghost use Rattle.extraction.specs.Listing.{rows_from};
ghost use Rattle.extractor.specs.Texts.{EndsWith};
ghost use Rattle.extractor.specs.RowFacts.{SizesFit, RowOf, LineAt};

use joins::accepted::AcceptedTables;

// How many fields a row has, and the size of the tree under its application.
#[derive(Clone, Copy)]
pub(crate) struct Row {
    count: usize,
    size: u64,
}

// Puts the row of application n, made of the passive record at j, into the fields: the application's number, its
// rule, the places of its nodes and the numbers of its parts. All eight places are filled, and the numbers put over
// those that the rule has no node for.
fn row_of(
    t: &AcceptedTables,
    chart: &[u64],
    sizes: &[u64],
    n: u64,
    j: u64,
    fields: &mut [u64; 18],
) -> Row
    requires { SizesFit sizes.now × (n < 4096) × (n + 1 < length sizes.now) }
    ensures { RowOf (λ k. record_at chart.now k) (grammar_in t.now) (graph_in t.now) sizes.now n j fields.new result }
{
    let r = crate::partners::rule_at(chart, j);
    let mut bs = [0u64; 8];
    crate::partners::partners_at(&t.grammar, chart, r, j, &mut bs);
    let nodes = crate::lookup::node_count(&t.grammar, r);
    let edges = crate::lookup::edge_count(&t.grammar, r);
    fields[0] = n;
    fields[1] = r;
    crate::placing::place(t, chart, r, edges, &bs, &mut fields[2..10]);
    let end = crate::numbers::number_parts(
        &t.grammar,
        r,
        edges,
        &bs,
        sizes,
        n + 1,
        fields,
        2 + nodes,
    );
    Row {
        count: (2 + nodes + edges) as usize,
        size: end - n,
    }
}

// The line of a row in front of the text that starts at `at`; answers where it starts.
fn write_row(fields: &[u64], text: &mut [u8], at: usize) -> usize
    requires { (length fields.now ≤ 18) × (74 ≤ at) × (at ≤ length text.old) }
    ensures { LineAt fields.now text.old at text.new result }
{
    let n = fields.len();
    let start = at - (4 * n + 2);
    lines::write_line(text, start, b'A', fields, n);
    start
}

// The lines of the rows of the listed applications at the end of the buffer; answers where they start. From the last
// one up: a row takes the sizes of later ones, which are all 0 at first.
pub(crate) fn write_rows(
    t: &AcceptedTables,
    chart: &[u64],
    listed: &[u64],
    sizes: &mut [u64],
    text: &mut [u8],
) -> usize
    requires { (length listed.now ≤ 4096) × (length listed.now < length sizes.old) × (sizes.old ≡ replicate (length sizes.old) 0) × (74 * length listed.now + 6 ≤ length text.old) }
    ensures { EndsWith (row_lines (rows_from (λ k. record_at chart.now k) (grammar_in t.now) (graph_in t.now) 0 listed.now)) text.old text.new result × (6 ≤ result) }
{
    let mut fields = [0u64; 18];
    let mut at = text.len();
    for k in (0..listed.len()).rev() {
        let row = row_of(t, chart, sizes, k as u64, listed[k], &mut fields);
        sizes[k] = row.size;
        at = write_row(&fields[..row.count], text, at);
    }
    at
}
