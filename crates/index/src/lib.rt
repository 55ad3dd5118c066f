// The indexes of a chart's records, which live for one run.

#![tactic(auto)]

ghost use Rattle.std.specs.Prelude.{Some, None, ◌≡◌, false, List, [], ◌∷◌, ◌++◌, ℕ, ◌*◌, ◌≤◌, ◌<◌, eqb, length, set};
ghost use Rattle.agenda.specs.declared.Record.{Record};
ghost use Rattle.agenda.specs.Records.{is_handled, new_record};
ghost use Rattle.agenda.specs.Consequences.{record_in};
ghost use Rattle.agenda.specs.Steps.{least_waiting, improved, placed};
ghost use Rattle.records.specs.Words.{Fits, capacity, item_count, chart_of, improved_at, appended_to};
ghost use Rattle.chains.specs.Chains.{hash_of};
ghost use Rattle.ranking.specs.Ranking.{Ranked, taken_from};
ghost use Rattle.keys.specs.Keys.{keys_of};
ghost use Rattle.rules.specs.Coverage.{Covering};
ghost use Rattle.lists.specs.Lists.{Listed, Ready, Unlisted, entered_all};
ghost use Rattle.lists.specs.Cursors.{Skims, SkimsAll};
ghost use Rattle.index.specs.Quiet.{quiet_in};
ghost use Rattle.index.specs.Index.{ranks_of, doubt_of, keys_for, Indexed, Empty, Covered, DoubtKept, Adds};

use agenda::{ChartItem, Record};
use lists::LIST_WORDS;
use pivots::KEY_TABLE_WORDS;
use rules::running::RunTables;

// How many words there are but for the lists.
pub const INDEX_WORDS: usize = 12424;
// where the links end and the ranking starts
const RANKS: usize = 8192;
// where the ranking ends: the last word, not 0 where some record may not cover its open nodes
const DOUBT: usize = 12423;

// The words of the indexes: one behind another the links of crate `chains`, the set of crate `ranking`, and a word that
// tells whether some record does not cover its open graph nodes, which whoever joins records looks for then; and the
// lists of crate `lists` by which records that can be joined find each other.
#[derive(Drop)]
pub struct Index {
    pub words: [u32; INDEX_WORDS],
    pub lists: [u16; LIST_WORDS],
}

// Record n, one more than there are, is of the item x: it comes on the lists of its keys.
fn list_many(keys: &[u32; KEY_TABLE_WORDS], lists: &mut [u16; LIST_WORDS], n: u64, x: ChartItem)
    requires { Ready lists.old × (n < 4096) }
    ensures { lists.new ≡ entered_all lists.old (5 * n) (keys_of keys.now x) }
{
    let own = pivots::listing(keys, x);
    lists::enter_all(lists, 5 * n, own);
}

// The same; most records have one key, which comes without an array.
fn list(keys: &[u32; KEY_TABLE_WORDS], lists: &mut [u16; LIST_WORDS], n: u64, x: ChartItem)
    requires { Ready lists.old × (n < 4096) }
    ensures { lists.new ≡ entered_all lists.old (5 * n) (keys_of keys.now x) }
{
    match pivots::entry(keys, x) {
        Some(own) => lists::enter_one(lists, 5 * n, own),
        None => list_many(keys, lists, n, x),
    }
}

// The lists of a chart's records, which come one after another: there is none before.
fn list_all(keys: &[u32; KEY_TABLE_WORDS], chart: &[u64], lists: &mut [u16; LIST_WORDS])
    requires { Unlisted lists.old × (item_count chart.now ≤ 4096) }
    ensures { Listed lists.new (keys_for keys.now (chart_of chart.now).records) }
{
    let n = records::item_count(chart);
    for j in 0..n {
        list_many(keys, lists, j, records::item_at(chart, j));
    }
}

// Whether each of a chart's records covers its open nodes is kept in mind.
fn cover_all(t: &RunTables, chart: &[u64], index: &mut [u32; INDEX_WORDS])
    requires { item_count chart.now ≤ 4096 }
    ensures { Covered t.now.tables.grammar.words.now t.now.tables.graph.now index.new (chart_of chart.now).records × ((keys ls : List ℕ) (rs : List Record) → Indexed keys index.old ls rs → Indexed keys index.new ls rs) }
{
    let n = records::item_count(chart);
    for j in 0..n {
        if !rules::coverage::covers(t, records::item_at(chart, j)) {
            index[DOUBT] = 1;
            return;
        }
    }
}

// Whether the record at place k makes nothing with what has these edges: it has one of them, or it is not handled.
pub fn quiet(chart: &[u64], edges: u64, k: u64) -> bool
    requires { (k < item_count chart.now) × (k < 4096) }
    ensures { result ≡ quiet_in chart.now edges k }
{
    if !masks::disjoint(edges, records::edges_at(chart, k)) {
        return true;
    }
    if !records::is_handled(chart, k) {
        return true;
    }
    false
}

// A cursor goes on over the entries of quiet records of the first n. Places rise along a list, so 0 or a place that
// does not rise ends it.
fn skim(ws: &[u16; LIST_WORDS], chart: &[u64], edges: u64, n: u64, from: u64) -> u64
    requires { (n ≤ item_count chart.now) × (n ≤ 4096) }
    ensures { Skims (quiet_in chart.now edges) ws.now n from result }
{
    if from == 0 {
        return 0;
    }
    let end = 5 * n;
    let mut c = from;
    // from link to link, as a chain's places come
    while c <= end {
        if !quiet(chart, edges, (c - 1) / 5) {
            return c;
        }
        let d = lists::after(ws, c);
        if d <= c {
            return d;
        }
        c = d;
    }
    c
}

// Each of five cursors goes on over the entries of quiet records of the first n.
pub fn skimmed(ws: &[u16; LIST_WORDS], chart: &[u64], edges: u64, n: u64, cs: [u64; 5]) -> [u64; 5]
    requires { (n ≤ item_count chart.now) × (n ≤ 4096) }
    ensures { SkimsAll (quiet_in chart.now edges) ws.now n cs result }
{
    cs.map(|c| skim(ws, chart, edges, n, c))
}

// Record j, which waits with the count `old`, has the count of x.
fn recount(index: &mut [u32; INDEX_WORDS], j: u64, old: u64, count: u64)
    requires { j < 4096 }
    ensures { ((keys ls : List ℕ) (rs : List Record) (x : Record) → Indexed keys index.old ls rs → j < length rs → is_handled (record_in rs j) ≡ false → old ≡ (record_in rs j).item.count → count ≡ x.item.count → Indexed keys index.new ls (set rs j (improved (record_in rs j) x))) × DoubtKept index.old index.new }
{
    ranking::recount(&mut index[RANKS..DOUBT], j, old, count);
}

// The record at place j, found again with the item of x, takes the count and the partners of x if that is better.
fn again(chart: &mut [u64], index: &mut [u32; INDEX_WORDS], j: u64, x: Record)
    requires { (j < item_count chart.old) × (j < 4096) }
    ensures { (chart.new ≡ improved_at chart.old j x) × ((keys ls : List ℕ) → Indexed keys index.old ls (chart_of chart.old).records → Indexed keys index.new ls (placed (capacity chart.old) x (chart_of chart.old) (Some j)).records) × DoubtKept index.old index.new }
{
    if records::is_handled(chart, j) {
        return;
    }
    let item = x.item;
    let old = records::count_at(chart, j);
    let count = item.count as u64;
    if old <= count {
        return;
    }
    recount(index, j, old, count);
    records::improve(chart, j, x);
}

// The records of a chart, indexed: the words are 0 before, and nothing is on a list.
pub fn build(
    t: &RunTables,
    keys: &[u32; KEY_TABLE_WORDS],
    chart: &[u64],
    lists: &mut [u16; LIST_WORDS],
    index: &mut [u32; INDEX_WORDS],
)
    requires { Empty index.old × Unlisted lists.old × (item_count chart.now ≤ 4096) }
    ensures { Indexed keys.now index.new lists.new (chart_of chart.now).records × Covered t.now.tables.grammar.words.now t.now.tables.graph.now index.new (chart_of chart.now).records }
{
    chains::build(chart, &mut index[0..RANKS]);
    ranking::build(chart, &mut index[RANKS..DOUBT]);
    list_all(keys, chart, lists);
    cover_all(t, chart, index);
}

// The first waiting record of least count waits no more: whoever takes it marks it in the chart. The ranking may be
// made anew for it.
pub fn take(chart: &[u64], index: &mut [u32; INDEX_WORDS]) -> Option<u64>
    requires { Ranked (ranks_of index.old) (chart_of chart.now).records × (length (chart_of chart.now).records ≤ 4096) }
    ensures { (result ≡ least_waiting (chart_of chart.now).records (length (chart_of chart.now).records)) × ((keys ls : List ℕ) → Indexed keys index.old ls (chart_of chart.now).records → Indexed keys index.new ls (taken_from (chart_of chart.now).records result)) × DoubtKept index.old index.new }
{
    ranking::take(chart, &mut index[RANKS..DOUBT])
}

// Whether it is sure that each record covers its open nodes.
pub fn sure(index: &[u32; INDEX_WORDS]) -> bool
    ensures { result ≡ eqb (doubt_of index.now) 0 }
{
    index[DOUBT] == 0
}

// Record n, one more than there are, is x.
fn enter(
    keys: &[u32; KEY_TABLE_WORDS],
    lists: &mut [u16; LIST_WORDS],
    index: &mut [u32; INDEX_WORDS],
    n: u64,
    x: Record,
    h: u64,
)
    requires { Ready lists.old × (n < 4096) × (h ≡ hash_of x.item) × (h < 4294967296) }
    ensures { (rs : List Record) → Indexed keys.now index.old lists.old rs → n ≡ length rs → Indexed keys.now index.new lists.new (rs ++ (x ∷ [])) × DoubtKept index.old index.new }
{
    let item = x.item;
    list(keys, lists, n, item);
    chains::link(&mut index[0..RANKS], n, h);
    ranking::place(
        &mut index[RANKS..DOUBT],
        n,
        x.handled == 0,
        item.count as u64,
    );
}

// The record x behind the others; where no place is left the chart is marked.
fn behind(
    keys: &[u32; KEY_TABLE_WORDS],
    chart: &mut [u64],
    lists: &mut [u16; LIST_WORDS],
    index: &mut [u32; INDEX_WORDS],
    x: Record,
    h: u64,
)
    requires { Indexed keys.now index.old lists.old (chart_of chart.old).records × (capacity chart.old ≤ 4096) × (h ≡ hash_of x.item) × (h < 4294967296) }
    ensures { (chart.new ≡ appended_to chart.old (item_count chart.old) x) × Indexed keys.now index.new lists.new (placed (capacity chart.old) x (chart_of chart.old) None).records × ((g h : List ℕ) → Covered g h index.old (chart_of chart.old).records → (doubt_of index.old ≡ 0 → Covering g h x.item) → Covered g h index.new (placed (capacity chart.old) x (chart_of chart.old) None).records) }
{
    let n = records::item_count(chart);
    if n < records::capacity_of(chart) {
        enter(keys, lists, index, n, x, h);
        records::append(chart, n, x);
        return;
    }
    records::append(chart, n, x);
}

// A new record of an item, made of these partners, in the chart, as `records::add` has it, with the indexes kept. Its
// hash comes from where the item was made, so that the first link is looked for before the item's words have been
// stored.
pub fn add(
    keys: &[u32; KEY_TABLE_WORDS],
    chart: &mut [u64],
    lists: &mut [u16; LIST_WORDS],
    index: &mut [u32; INDEX_WORDS],
    item: ChartItem,
    h: u64,
    first: u64,
    second: u64,
)
    requires { Indexed keys.now index.old lists.old (chart_of chart.old).records × Fits chart.old × (capacity chart.old ≤ 4096) × (h ≡ hash_of item) × (h < 4294967296) × (first < 65536) × (second < 65536) }
    ensures { Adds keys.now chart.old index.old chart.new index.new lists.new (new_record item first second) }
{
    let x = records::new_record(item, first, second);
    if records::mark_of(chart) != 0 {
        return;
    }
    match chains::find(chart, &index[0..RANKS], item, h) {
        Some(j) => again(chart, index, j, x),
        None => behind(keys, chart, lists, index, x, h),
    }
}

// What a run goes by: the functions above, on the arrays of one struct.
impl Index {
    // The index of no records.
    pub fn empty() -> Index
        ensures { Empty result.words × Unlisted result.lists }
    {
        Index {
            words: [0; INDEX_WORDS],
            lists: [0; LIST_WORDS],
        }
    }

    pub fn build(&mut self, t: &RunTables, keys: &[u32; KEY_TABLE_WORDS], chart: &[u64])
        requires { Empty self.old.words × Unlisted self.old.lists × (item_count chart.now ≤ 4096) }
        ensures { Indexed keys.now self.new.words self.new.lists (chart_of chart.now).records × Covered t.now.tables.grammar.words.now t.now.tables.graph.now self.new.words (chart_of chart.now).records }
    {
        build(t, keys, chart, &mut self.lists, &mut self.words);
    }

    pub fn take(&mut self, chart: &[u64]) -> Option<u64>
        requires { Ranked (ranks_of self.old.words) (chart_of chart.now).records × (length (chart_of chart.now).records ≤ 4096) }
        ensures { (result ≡ least_waiting (chart_of chart.now).records (length (chart_of chart.now).records)) × ((keys ls : List ℕ) → Indexed keys self.old.words ls (chart_of chart.now).records → Indexed keys self.new.words ls (taken_from (chart_of chart.now).records result)) × DoubtKept self.old.words self.new.words × (self.new.lists ≡ self.old.lists) }
    {
        take(chart, &mut self.words)
    }

    pub fn sure(&self) -> bool
        ensures { result ≡ eqb (doubt_of self.now.words) 0 }
    {
        sure(&self.words)
    }

    pub fn add(
        &mut self,
        keys: &[u32; KEY_TABLE_WORDS],
        chart: &mut [u64],
        item: ChartItem,
        h: u64,
        first: u64,
        second: u64,
    )
        requires { Indexed keys.now self.old.words self.old.lists (chart_of chart.old).records × Fits chart.old × (capacity chart.old ≤ 4096) × (h ≡ hash_of item) × (h < 4294967296) × (first < 65536) × (second < 65536) }
        ensures { Adds keys.now chart.old self.old.words chart.new self.new.words self.new.lists (new_record item first second) }
    {
        add(
            keys,
            chart,
            &mut self.lists,
            &mut self.words,
            item,
            h,
            first,
            second,
        );
    }
}
