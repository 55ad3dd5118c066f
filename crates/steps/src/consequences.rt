// What a handled record makes: by the root rule, with graph edges, and with handled records. It is told by its place
// j, and stays as it is while others are added.
ghost use Rattle.std.specs.Prelude.{◌≡◌, cond, ◌+◌, ◌≤◌, ◌<◌, max, leb, length};
ghost use Rattle.hrg.specs.ClosureRun.{guard};
ghost use Rattle.agenda.specs.Records.{item_of};
ghost use Rattle.agenda.specs.Consequences.{gather, at_root, with_terminal, pair, consequences};
ghost use Rattle.questions.specs.Layout.{graph_edges};
ghost use Rattle.joins.specs.Tables.{grammar_in, graph_in};
ghost use Rattle.rules.specs.Rules.{pair_items, Usable};
ghost use Rattle.rules.specs.Candidates.{Candidates};
ghost use Rattle.lists.specs.Lists.{list_words, Within};
ghost use Rattle.lists.specs.Cursors.{alone, starts_of, passed_of};
ghost use Rattle.keys.specs.Keys.{query_of};
ghost use Rattle.index.specs.Index.{Indexed};
ghost use Rattle.index.specs.Quiet.{quiet_in};
ghost use Rattle.records.specs.Words.{Fits, capacity, item_count, record_at, chart_of, grown_by};
ghost use Rattle.steps.specs.Partners.{with_record};
ghost use Rattle.steps.specs.Ready.{Tables, Ready, Handled, Joining, Joined};
ghost use Rattle.steps.specs.Ways.{Rests};

use crate::lookups::Lookups;
use agenda::ChartItem;
use index::Index;
use rules::planned::PlannedGrammar;
use rules::plans::{ASKS_FIRST, KINDS, NODES, PER_RULE};
use rules::wants;

// The passive item of a root item, made of the record at place j.
fn add_root(t: &Lookups, chart: &mut [u64], index: &mut Index, j: u64)
    requires { Ready t.now.run.tables.grammar.words.now t.now.run.tables.graph.now t.now.keys.now chart.old index.old.words index.old.lists × Handled chart.old j }
    ensures { (chart.new ≡ grown_by chart.old (at_root (grammar_in t.now.run.tables) (item_of (grammar_in t.now.run.tables) (record_at chart.old j).item) (record_at chart.old j).item.count j)) × Ready t.now.run.tables.grammar.words.now t.now.run.tables.graph.now t.now.keys.now chart.new index.new.words index.new.lists }
{
    let Some(item) = rules::root(&t.run.tables.grammar, records::item_at(chart, j)) else {
        return;
    };
    let hash = chains::hash(item);
    index.add(t.keys, chart, item, hash, j, 0);
}

// What the items x first and y second make, made of these partners.
fn add_joined(
    t: &Lookups,
    chart: &mut [u64],
    index: &mut Index,
    sure: bool,
    x: ChartItem,
    y: ChartItem,
    count: u32,
    first: u64,
    second: u64,
)
    requires { Usable t.now.run.tables.grammar.words.now t.now.run.tables.graph.now sure x × Usable t.now.run.tables.grammar.words.now t.now.run.tables.graph.now sure y × Indexed t.now.keys.now index.old.words index.old.lists (chart_of chart.old).records × Fits chart.old × (capacity chart.old ≤ 4096) × (first < 65536) × (second < 65536) }
    ensures { Joined t.now.run.tables.grammar.words.now t.now.run.tables.graph.now sure (pair_items t.now.run.tables.grammar.words.now t.now.run.tables.graph.now x y) count first second t.now.keys.now chart.old index.old.words index.old.lists chart.new index.new.words index.new.lists }
{
    let Some(item) = rules::combined(&t.run, x, y, count, sure) else {
        return;
    };
    let hash = chains::hash(item);
    index.add(t.keys, chart, item, hash, first, second);
}

// What it makes with graph edge e, if that is one of the candidates m.
fn add_candidate(t: &Lookups, chart: &mut [u64], index: &mut Index, j: u64, m: u64, e: u64)
    requires { Tables t.now.run.tables.grammar.words.now t.now.run.tables.graph.now t.now.keys.now × Ready t.now.run.tables.grammar.words.now t.now.run.tables.graph.now t.now.keys.now chart.old index.old.words index.old.lists × Handled chart.old j × Candidates t.now.run.tables.grammar.words.now t.now.run.tables.graph.now (record_at chart.old j).item m × (e < graph_edges t.now.run.tables.graph.now) }
    ensures { (chart.new ≡ grown_by chart.old (with_terminal (grammar_in t.now.run.tables) (graph_in t.now.run.tables) (item_of (grammar_in t.now.run.tables) (record_at chart.old j).item) (record_at chart.old j).item.count j e)) × Ready t.now.run.tables.grammar.words.now t.now.run.tables.graph.now t.now.keys.now chart.new index.new.words index.new.lists }
{
    if !masks::has(m, e) {
        return;
    }
    let sure = index.sure();
    let x = records::item_at(chart, j);
    let y = rules::edge_item(&t.run.tables, e);
    add_joined(t, chart, index, sure, x, y, x.count, j, e);
}

// What it makes with each graph edge: only those of the label that it wants, and that fit its map, are tried.
fn add_terminals(t: &Lookups, chart: &mut [u64], index: &mut Index, j: u64)
    requires { Tables t.now.run.tables.grammar.words.now t.now.run.tables.graph.now t.now.keys.now × Ready t.now.run.tables.grammar.words.now t.now.run.tables.graph.now t.now.keys.now chart.old index.old.words index.old.lists × Handled chart.old j }
    ensures { (chart.new ≡ grown_by chart.old (gather (length (graph_in t.now.run.tables).edges) (λ e. with_terminal (grammar_in t.now.run.tables) (graph_in t.now.run.tables) (item_of (grammar_in t.now.run.tables) (record_at chart.old j).item) (record_at chart.old j).item.count j e))) × Ready t.now.run.tables.grammar.words.now t.now.run.tables.graph.now t.now.keys.now chart.new index.new.words index.new.lists }
{
    let x = records::item_at(chart, j);
    let g = PlannedGrammar {
        grammar: t.run.tables.grammar,
        plans: t.run.plans,
    };
    let want = wants::want_of(&g, x.of as u64, x.plan as u64);
    let m = rules::candidates(&t.run, want, x);
    if m == 0 {
        return;
    }
    let n = layout::graph_edges(t.run.tables.graph);
    for e in 0..n {
        add_candidate(t, chart, index, j, m, e);
    }
}

// What the record at place j makes with the one at place k, the former first.
fn add_pair(t: &Lookups, chart: &mut [u64], index: &mut Index, j: u64, k: u64)
    requires { Tables t.now.run.tables.grammar.words.now t.now.run.tables.graph.now t.now.keys.now × Ready t.now.run.tables.grammar.words.now t.now.run.tables.graph.now t.now.keys.now chart.old index.old.words index.old.lists × Handled chart.old j × Handled chart.old k }
    ensures { (chart.new ≡ grown_by chart.old (pair (grammar_in t.now.run.tables) (graph_in t.now.run.tables) (record_at chart.old j) j (record_at chart.old k) k)) × Ready t.now.run.tables.grammar.words.now t.now.run.tables.graph.now t.now.keys.now chart.new index.new.words index.new.lists }
{
    let sure = index.sure();
    let x = records::item_at(chart, j);
    let y = records::item_at(chart, k);
    let count = rules::plus(x.count, y.count);
    add_joined(t, chart, index, sure, x, y, count, j, k);
}

// The one of two that comes first.
fn pick(lead: bool, j: u64, k: u64) -> u64
    ensures { result ≡ cond lead j k }
{
    if lead {
        return j;
    }
    k
}

// What the record at place j makes with the one at place k, which is handled, where k is not among the first `past`
// records; how many are past then. It can come only first, where it leads, or only second.
fn add_met(
    t: &Lookups,
    chart: &mut [u64],
    index: &mut Index,
    lead: bool,
    j: u64,
    k: u64,
    past: u64,
) -> u64
    requires { Joining t.now.run.tables.grammar.words.now t.now.run.tables.graph.now t.now.keys.now chart.old index.old.words index.old.lists lead j × Handled chart.old k }
    ensures { (chart.new ≡ grown_by chart.old (guard (leb past k) (with_record (grammar_in t.now.run.tables) (graph_in t.now.run.tables) (record_at chart.old j) j (record_at chart.old k) k))) × Ready t.now.run.tables.grammar.words.now t.now.run.tables.graph.now t.now.keys.now chart.new index.new.words index.new.lists × (result ≡ max past (k + 1)) }
{
    if k < past {
        return past;
    }
    let first = pick(lead, j, k);
    let second = pick(lead, k, j);
    add_pair(t, chart, index, first, second);
    k + 1
}

// The same of any record: one that is not handled makes nothing, as one does that has an edge in common with it.
fn add_next(
    t: &Lookups,
    chart: &mut [u64],
    index: &mut Index,
    lead: bool,
    j: u64,
    k: u64,
    past: u64,
) -> u64
    requires { Joining t.now.run.tables.grammar.words.now t.now.run.tables.graph.now t.now.keys.now chart.old index.old.words index.old.lists lead j × (k < item_count chart.old) }
    ensures { (chart.new ≡ grown_by chart.old (guard (leb past k) (with_record (grammar_in t.now.run.tables) (graph_in t.now.run.tables) (record_at chart.old j) j (record_at chart.old k) k))) × Ready t.now.run.tables.grammar.words.now t.now.run.tables.graph.now t.now.keys.now chart.new index.new.words index.new.lists × (result ≡ max past (k + 1)) }
{
    if k < past {
        return past;
    }
    if index::quiet(chart, records::edges_at(chart, j), k) {
        return k + 1;
    }
    add_met(t, chart, index, lead, j, k, past)
}

// What the record at place j makes with each of the first n records, where all that it can be joined with have the
// key `key`. A quiet record is passed by here, without a call for what it does not make.
fn add_listed(
    t: &Lookups,
    chart: &mut [u64],
    index: &mut Index,
    lead: bool,
    j: u64,
    n: u64,
    key: u64,
)
    requires { Joining t.now.run.tables.grammar.words.now t.now.run.tables.graph.now t.now.keys.now chart.old index.old.words index.old.lists lead j × (n ≤ item_count chart.old) × (alone key ≡ query_of t.now.keys.now (record_at chart.old j).item) }
    ensures { (chart.new ≡ grown_by chart.old (gather n (λ k. with_record (grammar_in t.now.run.tables) (graph_in t.now.run.tables) (record_at chart.old j) j (record_at chart.old k) k))) × Ready t.now.run.tables.grammar.words.now t.now.run.tables.graph.now t.now.keys.now chart.new index.new.words index.new.lists }
{
    let edges = records::edges_at(chart, j);
    let end = 5 * n;
    let mut c = lists::first(&index.lists, key);
    let mut past: u64 = 0;
    // a `while`: the links of the records' entries lead on, so no range has the places
    while (c != 0) & (c <= end) {
        let k = (c - 1) / 5;
        if !index::quiet(chart, edges, k) {
            past = add_met(t, chart, index, lead, j, k, past);
        }
        c = lists::after(&index.lists, c);
    }
}

// Where the partners are gone through: the next one, and the cursors on lists by which it was found.
#[derive(Clone, Copy)]
struct Cursors {
    k: u64,
    cs: [u64; 5],
}

// Cursors on lists skim over quiet records, most of what is listed.
fn resting(chart: &[u64], index: &Index, edges: u64, n: u64, cs: [u64; 5]) -> Cursors
    requires { (n ≤ item_count chart.now) × (n ≤ 4096) }
    ensures { Rests (quiet_in chart.now edges) index.now.lists n cs result.k result.cs }
{
    let es = index::skimmed(&index.lists, chart, edges, n, cs);
    let k = lists::least(es);
    Cursors { k, cs: es }
}

// The first of the n records that may be a partner.
fn opening(chart: &[u64], index: &Index, edges: u64, n: u64, query: [u64; 5]) -> Cursors
    requires { (n ≤ item_count chart.now) × (n ≤ 4096) × Within 2048 query }
    ensures { Rests (quiet_in chart.now edges) index.now.lists n (starts_of index.now.lists query) result.k result.cs }
{
    let ds = lists::starts(&index.lists, query);
    resting(chart, index, edges, n, ds)
}

// The next one.
fn onward(chart: &[u64], index: &Index, edges: u64, n: u64, at: Cursors) -> Cursors
    requires { (n ≤ item_count chart.now) × (n ≤ 4096) × (at.k < n) × Within 20480 at.cs }
    ensures { Rests (quiet_in chart.now edges) index.now.lists n (passed_of index.now.lists at.cs at.k) result.k result.cs }
{
    let k = at.k;
    let cs = at.cs;
    let ds = lists::passed(&index.lists, cs, k);
    resting(chart, index, edges, n, ds)
}

// What the record at place j makes with each of the first n records. Only those that its keys let through are tried.
fn add_many(t: &Lookups, chart: &mut [u64], index: &mut Index, lead: bool, j: u64, n: u64)
    requires { Joining t.now.run.tables.grammar.words.now t.now.run.tables.graph.now t.now.keys.now chart.old index.old.words index.old.lists lead j × (n ≤ item_count chart.old) }
    ensures { (chart.new ≡ grown_by chart.old (gather n (λ k. with_record (grammar_in t.now.run.tables) (graph_in t.now.run.tables) (record_at chart.old j) j (record_at chart.old k) k))) × Ready t.now.run.tables.grammar.words.now t.now.run.tables.graph.now t.now.keys.now chart.new index.new.words index.new.lists }
{
    let x = records::item_at(chart, j);
    let edges = x.edges;
    let query = pivots::query(t.keys, x);
    let mut at = opening(chart, index, edges, n, query);
    let mut past: u64 = 0;
    // a `while`: each turn itself tells how far the cursors go, so no range has the places
    while at.k < n {
        past = add_next(t, chart, index, lead, j, at.k, past);
        at = onward(chart, index, edges, n, at);
    }
}

// The same; most records ask for one key, whose list has a loop of its own.
fn add_each(t: &Lookups, chart: &mut [u64], index: &mut Index, lead: bool, j: u64, n: u64)
    requires { Joining t.now.run.tables.grammar.words.now t.now.run.tables.graph.now t.now.keys.now chart.old index.old.words index.old.lists lead j × (n ≤ item_count chart.old) }
    ensures { (chart.new ≡ grown_by chart.old (gather n (λ k. with_record (grammar_in t.now.run.tables) (graph_in t.now.run.tables) (record_at chart.old j) j (record_at chart.old k) k))) × Ready t.now.run.tables.grammar.words.now t.now.run.tables.graph.now t.now.keys.now chart.new index.new.words index.new.lists }
{
    match pivots::asked(t.keys, records::item_at(chart, j)) {
        Some(key) => add_listed(t, chart, index, lead, j, n, key),
        None => add_many(t, chart, index, lead, j, n),
    }
}

// All that the record at place j makes. Its kind and the plan node above it are read once, here, and tell what it is
// tried with, since with the rest it makes nothing: a passive item only with records, where it comes second; an
// active one with no plan node above it only with the root rule; any other one with graph edges and records.
pub(crate) fn add_all(t: &Lookups, chart: &mut [u64], index: &mut Index, j: u64)
    requires { Tables t.now.run.tables.grammar.words.now t.now.run.tables.graph.now t.now.keys.now × Ready t.now.run.tables.grammar.words.now t.now.run.tables.graph.now t.now.keys.now chart.old index.old.words index.old.lists × Handled chart.old j }
    ensures { (chart.new ≡ grown_by chart.old (consequences (grammar_in t.now.run.tables) (graph_in t.now.run.tables) (chart_of chart.old).records j)) × Ready t.now.run.tables.grammar.words.now t.now.run.tables.graph.now t.now.keys.now chart.new index.new.words index.new.lists }
{
    let n = records::item_count(chart);
    let x = records::item_at(chart, j);
    let mut lead = false;
    if x.kind == 0 {
        let g = PlannedGrammar {
            grammar: t.run.tables.grammar,
            plans: t.run.plans,
        };
        let w = rules::plans::parent_in(&g, x.of as u64, x.plan as u64).word;
        if w % NODES >= PER_RULE {
            add_root(t, chart, index, j);
            return;
        }
        add_terminals(t, chart, index, j);
        lead = w / NODES % KINDS != ASKS_FIRST;
    }
    add_each(t, chart, index, lead, j, n);
}
