// A chart's words: two header words, then four words for each record. Only this crate knows where a field stands:
// records are loaded and stored by value, and what is looked at in place has a name.

#![tactic(auto)]

ghost use Rattle.std.specs.Prelude.{Some, ◌≡◌, List, ℕ, ◌≤◌, ◌<◌, ◌+◌, ◌*◌, length, get_or};
ghost use Rattle.records.specs.Words.{header_words, words_for, cleared, capacity, item_count, word_at, item_from, record_from, record_at, records_at, item_head, Headed, Compact, saved, lesser_at, improved_at, appended_to, added_to, marked_at};
ghost use Rattle.agenda.specs.Records.{new_record, same_chart_item, is_handled};
ghost use Rattle.agenda.specs.Steps.{last_same, least_waiting, handled_count};

use agenda::{ChartItem, Record};

pub mod telling;

// How many words the header and a record have.
const HEADER: usize = 2;

const WORDS: usize = 4;

// The words of a record: the kind (16 bits), the rule or symbol (8), the plan node (8) and whether it is handled (32);
// its edges; its nodes, a byte each; the first and the second partner (16 each) and the count (32).
const HEAD: usize = 0;

const EDGES: usize = 1;

const NODES: usize = 2;

const TAIL: usize = 3;

// How many items the chart holds.
#[tactic(auto, unfolding(crate::specs::Words::capacity))]
pub fn capacity_of(chart: &[u64]) -> u64
    ensures { result ≡ capacity chart.now }
{
    (chart.len().saturating_sub(HEADER) / WORDS) as u64
}

// A word of the chart, 0 past its end, as the definition has it.
fn word(chart: &[u64], i: u64) -> u64
    ensures { result ≡ get_or chart.now i 0 }
{
    if i < chart.len() as u64 {
        return chart[i as usize];
    }
    0
}

// How many items it has; never more than it holds.
pub fn item_count(chart: &[u64]) -> u64
    ensures { result ≡ item_count chart.now }
{
    let n = word(chart, 0);
    let cap = capacity_of(chart);
    if n < cap {
        return n;
    }
    cap
}

// Whether one item more was found than it holds: 0 no.
pub fn mark_of(chart: &[u64]) -> u64
    ensures { result ≡ get_or chart.now 1 0 }
{
    word(chart, 1)
}

// ---- one field of a record, where nothing else of it is needed
// Where the words of the record at place j begin.
fn place(chart: &[u64], j: u64) -> usize
    requires { j < capacity chart.now }
    ensures { (result ≡ 2 + 4 * j) × (result + 4 ≤ length chart.now) }
{
    HEADER + WORDS * j as usize
}

// Word k of the record at place j, which the chart has.
fn word_at(chart: &[u64], j: u64, k: usize) -> u64
    requires { (j < capacity chart.now) × (k < 4) }
    ensures { result ≡ word_at chart.now j k }
{
    let at = place(chart, j);
    chart[at + k]
}

// The same of any place: 0 past the end, as the definition has it.
fn word_any(chart: &[u64], j: u64, k: usize) -> u64
    requires { k < 4 }
    ensures { result ≡ word_at chart.now j k }
{
    // No slice is so long that it has a place 2^61.
    if j >= 2305843009213693952 {
        return 0;
    }
    word(chart, HEADER as u64 + WORDS as u64 * j + k as u64)
}

// The edges of the record at place j.
pub fn edges_at(chart: &[u64], j: u64) -> u64
    requires { j < capacity chart.now }
    ensures { result ≡ (record_at chart.now j).item.edges }
{
    word_at(chart, j, EDGES)
}

// Its count.
pub fn count_at(chart: &[u64], j: u64) -> u64
    requires { j < capacity chart.now }
    ensures { result ≡ (record_at chart.now j).item.count }
{
    word_at(chart, j, TAIL) / 65536 / 65536
}

// Whether it is handled.
pub fn is_handled(chart: &[u64], j: u64) -> bool
    requires { j < capacity chart.now }
    ensures { result ≡ is_handled (record_at chart.now j) }
{
    word_at(chart, j, HEAD) / 65536 / 256 / 256 != 0
}

// The rule or symbol of the record at any place; past the end its words are 0.
pub fn of_at(chart: &[u64], j: u64) -> u64
    ensures { result ≡ (record_at chart.now j).item.of }
{
    word_any(chart, j, HEAD) / 65536 % 256
}

// The first partner.
pub fn first_at(chart: &[u64], j: u64) -> u64
    ensures { result ≡ (record_at chart.now j).first }
{
    word_any(chart, j, TAIL) % 65536
}

// The second partner.
pub fn second_at(chart: &[u64], j: u64) -> u64
    ensures { result ≡ (record_at chart.now j).second }
{
    word_any(chart, j, TAIL) / 65536 % 65536
}

// ---- records by value
// The item of a record's words.
fn item_of(head: u64, edges: u64, map: u64, tail: u64) -> ChartItem
    ensures { result ≡ item_from head edges map tail }
{
    let nodes = places::nodes_of(map);
    let kind = (head % 65536) as u16;
    let of = (head / 65536 % 256) as u8;
    let plan = (head / 65536 / 256 % 256) as u8;
    let count = (tail / 65536 / 65536) as u32;
    ChartItem {
        kind,
        of,
        plan,
        count,
        edges,
        nodes,
    }
}

// The record of its words.
fn record_of(head: u64, edges: u64, map: u64, tail: u64) -> Record
    ensures { result ≡ record_from head edges map tail }
{
    let item = item_of(head, edges, map, tail);
    let handled = (head / 65536 / 256 / 256) as u32;
    let first = (tail % 65536) as u16;
    let second = (tail / 65536 % 65536) as u16;
    Record {
        item,
        handled,
        first,
        second,
    }
}

// The record at place j.
pub fn load(chart: &[u64], j: u64) -> Record
    requires { j < capacity chart.now }
    ensures { result ≡ record_at chart.now j }
{
    let at = place(chart, j);
    record_of(
        chart[at + HEAD],
        chart[at + EDGES],
        chart[at + NODES],
        chart[at + TAIL],
    )
}

// The record at any place; past the end its words are 0.
pub fn load_any(chart: &[u64], j: u64) -> Record
    ensures { result ≡ record_at chart.now j }
{
    let head = word_any(chart, j, HEAD);
    let edges = word_any(chart, j, EDGES);
    let map = word_any(chart, j, NODES);
    let tail = word_any(chart, j, TAIL);
    record_of(head, edges, map, tail)
}

// The item at place j.
pub fn item_at(chart: &[u64], j: u64) -> ChartItem
    requires { j < capacity chart.now }
    ensures { result ≡ (record_at chart.now j).item }
{
    load(chart, j).item
}

// A new record of an item, made of these partners.
pub fn new_record(x: ChartItem, first: u64, second: u64) -> Record
    requires { (first < 65536) × (second < 65536) }
    ensures { (result ≡ new_record x first second) × Compact result }
{
    Record {
        item: x,
        handled: 0,
        first: first as u16,
        second: second as u16,
    }
}

// The kind, the rule or symbol and the plan node of an item as one number: the first word of a record that is not
// handled.
pub fn head_of(x: ChartItem) -> u64
    ensures { Headed x result }
{
    (x.plan as u64 * 256 + x.of as u64) * 65536 + x.kind as u64
}

// The last word of a record.
fn tail_of(count: u32, first: u16, second: u16) -> u64
    ensures { result ≡ (count * 65536 + second) * 65536 + first }
{
    (count as u64 * 65536 + second as u64) * 65536 + first as u64
}

// The record x at place j, which the chart has.
fn store(chart: &mut [u64], j: u64, x: Record)
    requires { j < capacity chart.old }
    ensures { chart.new ≡ saved chart.old j x }
{
    let at = place(chart, j);
    let item = x.item;
    let nodes = item.nodes;
    let head = x.handled as u64 * 4294967296 + head_of(item);
    let map = places::word_of(nodes);
    let tail = tail_of(item.count, x.first, x.second);
    chart[at + HEAD] = head;
    chart[at + EDGES] = item.edges;
    chart[at + NODES] = map;
    chart[at + TAIL] = tail;
}

// ---- equal items
// Whether the record at place j is of the item x, by whole words and without a branch. A derived `==`
// would load the record first.
pub fn same(chart: &[u64], j: u64, x: ChartItem) -> bool
    requires { j < capacity chart.now }
    ensures { result ≡ same_chart_item x (record_at chart.now j).item }
{
    let at = place(chart, j);
    let nodes = x.nodes;
    (x.edges == chart[at + EDGES])
        & (places::word_of(nodes) == chart[at + NODES])
        & (head_of(x) == chart[at + HEAD] % 4294967296)
}

// The last of the first n records, which the chart has, that is of the item x.
pub fn find(chart: &[u64], x: ChartItem, n: u64) -> Option<u64>
    requires { n ≤ capacity chart.now }
    ensures { result ≡ last_same x (records_at chart.now n) n }
{
    for i in (0..n).rev() {
        if same(chart, i, x) {
            return Some(i);
        }
    }
    None
}

// ---- the choice of a step
// The one of two records that a step takes: the one at place best, or that at place i where it waits and has a lesser
// count.
fn lesser_of(chart: &[u64], i: u64, best: u64) -> u64
    requires { (i < capacity chart.now) × (best < capacity chart.now) }
    ensures { Some result ≡ lesser_at chart.now i (Some best) }
{
    if is_handled(chart, i) {
        return best;
    }
    if count_at(chart, best) <= count_at(chart, i) {
        return best;
    }
    i
}

// The first of least count among the first n records, where the one at place first is the first that waits.
fn least_from(chart: &[u64], n: u64, first: u64) -> Option<u64>
    requires { (n ≤ capacity chart.now) × (first < n) × (Some first ≡ least_waiting (records_at chart.now n) (first + 1)) }
    ensures { result ≡ least_waiting (records_at chart.now n) n }
{
    let mut best = first;
    for i in first + 1..n {
        best = lesser_of(chart, i, best);
    }
    Some(best)
}

// The first of least count among the first n records, which the chart has, of those that wait.
pub fn least(chart: &[u64], n: u64) -> Option<u64>
    requires { n ≤ capacity chart.now }
    ensures { result ≡ least_waiting (records_at chart.now n) n }
{
    for i in 0..n {
        if !is_handled(chart, i) {
            return least_from(chart, n, i);
        }
    }
    None
}

// How many of the first n records, which the chart has, are handled.
pub fn handled_steps(chart: &[u64], n: u64) -> u64
    requires { n ≤ capacity chart.now }
    ensures { result ≡ handled_count (records_at chart.now n) }
{
    let mut done = 0;
    for i in 0..n {
        if is_handled(chart, i) {
            done += 1;
        }
    }
    done
}

// ---- a chart made anew
// A chart with no items. Two words of lent memory are 0 then, the rest stays: no `fill`.
pub fn clear(chart: &mut [u64])
    requires { header_words ≤ length chart.old }
    ensures { chart.new ≡ cleared chart.old }
{
    chart[0] = 0;
    chart[1] = 0;
}

// How many words a chart of so many items has.
pub fn words_for(items: u64) -> u64
    requires { items ≤ 4096 }
    ensures { result ≡ words_for items }
{
    HEADER as u64 + WORDS as u64 * items
}

// ---- one record more
// The record at place j takes the count and the partners of x, unless it is handled or its count is no greater: one
// word changes.
pub fn improve(chart: &mut [u64], j: u64, x: Record)
    requires { j < capacity chart.old }
    ensures { chart.new ≡ improved_at chart.old j x }
{
    if is_handled(chart, j) {
        return;
    }
    let item = x.item;
    if count_at(chart, j) <= item.count as u64 {
        return;
    }
    let at = place(chart, j);
    chart[at + TAIL] = tail_of(item.count, x.first, x.second);
}

// The record x behind the n that there are; where no place is left the chart is marked.
pub fn append(chart: &mut [u64], n: u64, x: Record)
    ensures { chart.new ≡ appended_to chart.old n x }
{
    if chart.len() < HEADER {
        return;
    }
    if n >= capacity_of(chart) {
        chart[1] = 1;
        return;
    }
    store(chart, n, x);
    chart[0] = n + 1;
}

// The record x in the chart: found again, or behind the others. A marked chart stays as it is.
pub fn add(chart: &mut [u64], x: Record)
    ensures { chart.new ≡ added_to chart.old x }
{
    if mark_of(chart) != 0 {
        return;
    }
    let n = item_count(chart);
    let item = x.item;
    match find(chart, item, n) {
        Some(j) => improve(chart, j, x),
        None => append(chart, n, x),
    }
}

// The record at place j becomes handled: the upper half of its first word is 1.
pub fn mark_handled(chart: &mut [u64], j: u64)
    ensures { chart.new ≡ marked_at chart.old j }
{
    if j >= capacity_of(chart) {
        return;
    }
    let at = place(chart, j);
    let head = chart[at + HEAD];
    chart[at + HEAD] = head % 4294967296 + 4294967296;
}
