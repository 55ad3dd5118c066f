// The writer's second form: a lent row of application records, filled with the derivation of a chart's goal.

#![tactic(auto)]

ghost use Rattle.std.specs.Prelude.{◌≡◌, ◌-◌, ◌≤◌, length, take, drop};
ghost use Rattle.format.specs.Fields.{field_count, fields_of};
ghost use Rattle.writing.specs.Filling.{eight};
ghost use Rattle.filler.specs.Rows.{application_read, application_at, Prepared, filled_from, Filling};

use writing::{Application, WriteError};

// ---- the record of a line

// So many numbers of a line from field `from` on, in eight places.
fn eight_from(line: &[u8], from: usize, count: usize) -> [u64; 8]
    requires { count ≤ field_count line.now - from }
    ensures { result ≡ eight (take count (drop from (fields_of line.now))) }
{
    let mut row = [0u64; 8];
    // The index is also the field's.
    for i in 0..count.min(8) {
        row[i] = lines::number(line, from + i);
    }
    row
}

// Behind the application's number and its rule stand as many nodes as the rule has, the rest are parts.
fn application_in(grammar: &[u64], line: &[u8]) -> Application
    ensures { result ≡ application_read grammar.now (fields_of line.now) }
{
    let rule = lines::number(line, 1);
    let rest = lines::field_count(line).saturating_sub(2);
    let nodes = layout::rule_nodes(grammar, rule) as usize;
    let placed = nodes.min(rest);
    Application {
        rule,
        node_count: placed as u64,
        part_count: (rest - placed) as u64,
        nodes: eight_from(line, 2, placed),
        parts: eight_from(line, 2 + placed, rest - placed),
    }
}

// The record of the line that begins at this place of the text.
fn application_at(grammar: &[u64], text: &[u8], at: usize) -> Application
    ensures { result ≡ application_at grammar.now text.now at }
{
    application_in(grammar, lines::next_line(text, at))
}

// ---- the text

// Writes the derivation into a text that holds the longest one, and answers as `fill` does for a row of so many
// records.
fn prepare(
    grammar: &[u64],
    graph: &[u64],
    chart: &[u64],
    room: usize,
    text: &mut [u8],
) -> Result<u64, WriteError>
    requires { 303110 ≤ length text.old }
    ensures { Prepared grammar.now graph.now chart.now room result text.new }
{
    writer::write(grammar, graph, chart, text)?;
    let count = lines::number(lines::next_line(text, 0), 0);
    if room < count as usize {
        Err(WriteError::NoRoom)
    } else {
        Ok(count)
    }
}

// ---- the row

// The first n records of the row, from the lines of the text behind its first one.
fn fill_row(rows: &mut [Application], grammar: &[u64], text: &[u8], n: usize)
    requires { n ≤ length rows.old }
    ensures { rows.new ≡ filled_from grammar.now text.now n rows.old }
{
    let mut at = 6;
    for row in rows[..n].iter_mut() {
        *row = application_at(grammar, text, at);
        at = lines::after_line(text, at);
    }
}

// Questions 8 to 12: fills the row with the records of the derivation that `write` writes as text, and leaves the
// records behind them. Refusals change nothing.
pub fn fill(
    grammar: &[u64],
    graph: &[u64],
    chart: &[u64],
    rows: &mut [Application],
) -> Result<u64, WriteError>
    ensures { Filling grammar.now graph.now chart.now rows.old result rows.new }
{
    let mut text = [0u8; 303110];
    let answer = prepare(grammar, graph, chart, rows.len(), &mut text);
    fill_row(rows, grammar, &text, answer.unwrap_or(0) as usize);
    answer
}
