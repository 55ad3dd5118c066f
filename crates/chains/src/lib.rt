// Records chained by hash, in lent words: how an equal record is found without going through all.

#![tactic(auto)]

ghost use Rattle.std.specs.Prelude.{◌≡◌, ◌≤◌, ◌<◌, length};
ghost use Rattle.agenda.specs.Steps.{last_same};
ghost use Rattle.records.specs.Words.{item_count, chart_of};
ghost use Rattle.chains.specs.Chains.{tag_of, hash_of, link_words, Chained, linked, Cleared};

use agenda::ChartItem;

// The kind, the plan node and the rule or symbol of an item as one number. They come in another order than in the
// struct: else they are loaded at once, and that load waits where they have just been stored one by one.
fn tag_of(x: ChartItem) -> u64
    ensures { (result ≡ tag_of x) × (result < 4294967296) }
{
    (x.of as u64 * 256 + x.plan as u64) * 65536 + x.kind as u64
}

// The hash of an item, by its edges, its nodes, and its kind with its plan node and rule or symbol.
pub fn hash(x: ChartItem) -> u64
    ensures { (result ≡ hash_of x) × (result < 4294967296) }
{
    let edges = x.edges;
    let nodes = x.nodes;
    let map = places::word_of(nodes);
    let tag = tag_of(x);
    let mix = edges % 4294967296 * 1051780055
        + edges / 4294967296 * 668265263
        + map % 4294967296 * 904645227
        + (map / 4294967296 + tag) * 374761393;
    (mix + mix / 4294967296) % 4294967296
}

// The last record of the item x, whose hash is h: only those of its bucket are looked at, from the last one back, as
// long as its bit is in the set of those that are left.
pub fn find(chart: &[u64], links: &[u32], x: ChartItem, h: u64) -> Option<u64>
    requires { Chained links.now (chart_of chart.now).records × (h ≡ hash_of x) × (h < 4294967296) }
    ensures { result ≡ last_same x (chart_of chart.now).records (length (chart_of chart.now).records) }
{
    let bit = 8192u64 << (h / 65536 % 16);
    let mut i = links[(h / 1048576) as usize] as u64;
    // a chain of links: no range or slice has its places
    while i & bit != 0 {
        let k = i % 8192;
        if records::same(chart, k - 1, x) {
            return Some(k - 1);
        }
        i = links[(4095 + k) as usize] as u64;
    }
    None
}

// Record j, the last one, whose hash is h, joins its bucket, and its bit the set beside the place.
pub fn link(links: &mut [u32], j: u64, h: u64)
    requires { (length links.old ≡ link_words) × (j < 4096) × (h < 4294967296) }
    ensures { links.new ≡ linked links.old j h }
{
    let b = (h / 1048576) as usize;
    let old = links[b];
    links[(4096 + j) as usize] = old;
    links[b] = (j + 1 + 8192 * (old as u64 / 8192 | 1u64 << (h / 65536 % 16))) as u32;
}

// The records of a chart, chained one after another: the buckets are empty before.
pub fn build(chart: &[u64], links: &mut [u32])
    requires { Cleared links.old × (item_count chart.now ≤ 4096) }
    ensures { Chained links.new (chart_of chart.now).records }
{
    let n = records::item_count(chart);
    for j in 0..n {
        let h = hash(records::item_at(chart, j));
        link(links, j, h);
    }
}
