// What is told of a chart to those who do not know its layout: the number in its header, the fields of an item, and
// the words of a chart.
ghost use Rattle.std.specs.Prelude.{◌≡◌, ◌++◌, ◌≤◌, length, get_or, drop};
ghost use Rattle.hrg.specs.Counts.{tabulate};
ghost use Rattle.agenda.specs.Telling.{fields_of, tell_item, TellsItem};
ghost use Rattle.records.specs.Words.{item_count, record_at};
ghost use Rattle.records.specs.Numbers.{number_in};

use agenda::Record;

// How many words a chart of 2,048 items has: what the program `derive` lends itself.
pub const WORDS_FOR_2048: usize = crate::HEADER + crate::WORDS * 2048;

// How many fields are told.
const FIELDS: usize = 16;

// The number of items that the header names, which may be more than the chart holds; 0 where there is no header, as the
// definition has it.
pub fn number_of(chart: &[u64]) -> u64
    ensures { result ≡ number_in chart.now }
{
    if chart.len() == 0 {
        return 0;
    }
    chart[0]
}

// The fields of a record in the order in which they are told.
fn fields_of(x: Record) -> [u64; FIELDS]
    ensures { result ≡ fields_of x }
{
    let item = x.item;
    let nodes = places::wide(item.nodes);
    [
        item.kind as u64,
        item.of as u64,
        item.plan as u64,
        item.edges,
        item.count as u64,
        x.handled as u64,
        nodes[0],
        nodes[1],
        nodes[2],
        nodes[3],
        nodes[4],
        nodes[5],
        nodes[6],
        nodes[7],
        x.first as u64,
        x.second as u64,
    ]
}

// The fields of the item at a place to the front of the lent words: 0; 8 where the chart has no item there, 12 where
// the words are too few. The numbers are what C gets.
pub fn tell_item(chart: &[u64], place: u64, fields: &mut [u64]) -> u64
    ensures { TellsItem (tell_item (item_count chart.now) (record_at chart.now) place fields.old) result fields.new }
{
    if crate::item_count(chart) <= place {
        return 8;
    }
    if fields.len() < FIELDS {
        return 12;
    }
    let told = fields_of(crate::load(chart, place));
    fields[..FIELDS].copy_from_slice(&told);
    0
}
