// The ranking of a chart's records in lent words, which tells the first waiting record of least count: word 1 is a
// base, and the words behind it a set that has 4096 * n + j for each waiting record at place j whose count is base +
// n, with n below 32. Word 0 is 0 where the set holds every waiting record, 1 where those of a count of base + 32 or
// more may be missing, and 2 where the other words say nothing. Where an empty set does not tell that no record
// waits, it is made anew for the next 32 counts, or from the least count.

#![tactic(auto)]

ghost use Rattle.std.specs.Prelude.{◌≡◌, true, List, [], ℕ, ◌≤◌, ◌<◌, length};
ghost use Rattle.agenda.specs.declared.Record.{Record};
ghost use Rattle.agenda.specs.Steps.{least_waiting};
ghost use Rattle.records.specs.Words.{item_count, chart_of};
ghost use Rattle.ranking.specs.Ranking.{order_of, order_at, rank_words, Ranked, Blank, Replaces, taken_from};

// where the set begins and ends
const SET: usize = 2;

const END: usize = 4231;

// The record at place j, which did not wait, waits with the count given. One below the base or far above it has no
// number.
fn insert(ranks: &mut [u32], j: u64, count: u64)
    requires { (length ranks.old ≡ rank_words) × (j < 4096) }
    ensures { (rs rs' : List Record) → Ranked ranks.old rs → order_at rs j ≡ 0 → Replaces j (order_of true j count) rs rs' → Ranked ranks.new rs' }
{
    let base = ranks[1] as u64;
    if count < base {
        ranks[0] = 2;
        return;
    }
    let n = count - base;
    if n >= 32 {
        if ranks[0] == 0 {
            ranks[0] = 1;
        }
        return;
    }
    queues::insert(&mut ranks[SET..END], 4096 * n + j);
}

// The record at place j, of which nothing waited, comes with the count given; one that does not wait changes nothing.
pub fn place(ranks: &mut [u32], j: u64, waits: bool, count: u64)
    requires { (length ranks.old ≡ rank_words) × (j < 4096) }
    ensures { (rs rs' : List Record) → Ranked ranks.old rs → order_at rs j ≡ 0 → Replaces j (order_of waits j count) rs rs' → Ranked ranks.new rs' }
{
    if waits {
        insert(ranks, j, count);
    }
}

// The record at place j, which waited with the count given, waits no more.
fn remove(ranks: &mut [u32], j: u64, count: u64)
    requires { (length ranks.old ≡ rank_words) × (j < 4096) }
    ensures { (rs rs' : List Record) → Ranked ranks.old rs → order_at rs j ≡ order_of true j count → Replaces j 0 rs rs' → Ranked ranks.new rs' }
{
    let base = ranks[1] as u64;
    if count < base {
        return;
    }
    let n = count - base;
    if n >= 32 {
        return;
    }
    queues::remove(&mut ranks[SET..END], 4096 * n + j);
}

// The record at place j, which waits, has another count.
pub fn recount(ranks: &mut [u32], j: u64, old: u64, count: u64)
    requires { (length ranks.old ≡ rank_words) × (j < 4096) }
    ensures { (rs rs' : List Record) → Ranked ranks.old rs → order_at rs j ≡ order_of true j old → Replaces j (order_of true j count) rs rs' → Ranked ranks.new rs' }
{
    remove(ranks, j, old);
    insert(ranks, j, count);
}

// The records of a chart that wait, one after another: there is none before.
fn fill(chart: &[u64], ranks: &mut [u32])
    requires { Ranked ranks.old [] × (item_count chart.now ≤ 4096) }
    ensures { Ranked ranks.new (chart_of chart.now).records }
{
    let n = records::item_count(chart);
    for j in 0..n {
        if !records::is_handled(chart, j) {
            insert(ranks, j, records::count_at(chart, j));
        }
    }
}

// The words are made anew from a base, unless that has no place in a word.
fn renew(chart: &[u64], ranks: &mut [u32], base: u64)
    requires { (length ranks.old ≡ rank_words) × (item_count chart.now ≤ 4096) }
    ensures { Ranked ranks.new (chart_of chart.now).records }
{
    if base >= 4294967295 {
        ranks[0] = 2;
        return;
    }
    ranks[0] = 0;
    ranks[1] = base as u32;
    queues::clear(&mut ranks[SET..END]);
    fill(chart, ranks);
}

// The records looked through: the words are made anew from the least count, and the record found leaves them.
fn again(chart: &[u64], ranks: &mut [u32]) -> Option<u64>
    requires { Ranked ranks.old (chart_of chart.now).records × (length (chart_of chart.now).records ≤ 4096) }
    ensures { (result ≡ least_waiting (chart_of chart.now).records (length (chart_of chart.now).records)) × Ranked ranks.new (taken_from (chart_of chart.now).records result) }
{
    let j = records::least(chart, records::item_count(chart))?;
    let count = records::count_at(chart, j);
    renew(chart, ranks, count);
    remove(ranks, j, count);
    Some(j)
}

// The set is empty, but records may be missing in it: it is made anew for the next 32 counts and, where none waits
// with one of these, from the least. The hint of a set made anew tells nothing yet.
fn onward(chart: &[u64], ranks: &mut [u32]) -> Option<u64>
    requires { (length ranks.old ≡ rank_words) × (length (chart_of chart.now).records ≤ 4096) }
    ensures { (result ≡ least_waiting (chart_of chart.now).records (length (chart_of chart.now).records)) × Ranked ranks.new (taken_from (chart_of chart.now).records result) }
{
    let base = ranks[1] as u64;
    renew(chart, ranks, base + 32);
    if ranks[0] >= 2 {
        return again(chart, ranks);
    }
    match queues::next(&mut ranks[SET..END]) {
        Some(p) => Some(p % 4096),
        None => again(chart, ranks),
    }
}

// The first waiting record of least count waits no more. Its number is at hand, so that the chart need not be read
// for it.
pub fn take(chart: &[u64], ranks: &mut [u32]) -> Option<u64>
    requires { Ranked ranks.old (chart_of chart.now).records × (length (chart_of chart.now).records ≤ 4096) }
    ensures { (result ≡ least_waiting (chart_of chart.now).records (length (chart_of chart.now).records)) × Ranked ranks.new (taken_from (chart_of chart.now).records result) }
{
    let state = ranks[0];
    if state >= 2 {
        return again(chart, ranks);
    }
    if let Some(p) = queues::take(&mut ranks[SET..END]) {
        return Some(p % 4096);
    }
    if state == 0 {
        return None;
    }
    onward(chart, ranks)
}

// The records of a chart in words that are 0, from base 0 on: nothing is cleared, and a fresh chart has no other
// counts.
pub fn build(chart: &[u64], ranks: &mut [u32])
    requires { Blank ranks.old × (item_count chart.now ≤ 4096) }
    ensures { Ranked ranks.new (chart_of chart.now).records }
{
    fill(chart, ranks);
}
