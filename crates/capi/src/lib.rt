// The interface for C (include/bobbinmarl.h): a slice crosses as a pointer and a length, an answer as 01's number,
// its steps, bytes or records through a lent word.

#![tactic(auto)]

ghost use Rattle.std.specs.Prelude.{◌≡◌, cond, ◌&&◌, ◌+◌, ◌*◌, leb};
ghost use Rattle.agenda.specs.Telling.{tell_item, TellsItem};
ghost use Rattle.records.specs.Words.{words_for, item_count, record_at};
ghost use Rattle.questions.specs.Layout.{grammar_words, graph_words};
ghost use Rattle.questions.specs.Reading.{read_grammar};
ghost use Rattle.questions.specs.Checking.{read_graph};
ghost use Rattle.charting.specs.Calls.{number_of as chartNumber, start_of, run_of};
ghost use Rattle.charting.specs.Facts.{StartChoices, RunChoices};
ghost use Rattle.writing.specs.Writing.{number_of as writing_number, write_of};
ghost use Rattle.writing.specs.Demand.{WriteChoices};
ghost use Rattle.replayer.specs.Verdicts.{number_of as verdictNumber, replay_of, Exact};
ghost use Rattle.programs.specs.Files.{FileGives, numbered};
ghost use Rattle.capi.specs.Crossing.{steps_told, bytes_told, Started, Ran, Written, FilledRow, Replayed};

use charting::Unready;
use writing::{Application, WriteError};

// ---- how many words to lend

#[unsafe(no_mangle)]
pub extern "C" fn bobbinmarl_grammar_words() -> usize
    ensures { result ≡ grammar_words }
{
    layout::GRAMMAR_WORDS
}

#[unsafe(no_mangle)]
pub extern "C" fn bobbinmarl_graph_words() -> usize
    ensures { result ≡ graph_words }
{
    layout::GRAPH_WORDS
}

// The words of a chart that holds so many items, 0 where no chart does: C has no option.
#[unsafe(no_mangle)]
pub extern "C" fn bobbinmarl_chart_words(items: usize) -> usize
    ensures { result ≡ cond (leb 1 items && leb items 4096) (words_for items) 0 }
{
    if items < 1 {
        return 0;
    }
    if 4096 < items {
        return 0;
    }
    records::words_for(items as u64) as usize
}

// ---- the readers

#[unsafe(no_mangle)]
pub extern "C" fn bobbinmarl_read_grammar(text: &[u8], table: &mut [u64]) -> u64
    ensures { FileGives (numbered (read_grammar text.now table.old)) result table.new }
{
    driver::reading_number(readers::read_grammar(text, table))
}

#[unsafe(no_mangle)]
pub extern "C" fn bobbinmarl_read_graph(grammar: &[u64], text: &[u8], table: &mut [u64]) -> u64
    ensures { FileGives (numbered (read_graph grammar.now text.now table.old)) result table.new }
{
    driver::reading_number(readers::read_graph(grammar, text, table))
}

// ---- the chart

#[unsafe(no_mangle)]
pub extern "C" fn bobbinmarl_start(grammar: &[u64], graph: &[u64], chart: &mut [u64]) -> u64
    ensures { Started grammar.now graph.now chart.old result chart.new }
{
    driver::chart_number(chart::start(grammar, graph, chart))
}

// The number of an answer; the steps done, or the bytes or records written, go into the lent word, which else stays.
fn tell(a: Result<u64, WriteError>, told: &mut u64) -> u64
    ensures { (result ≡ writing_number a) × (told.new ≡ bytes_told a told.old) }
{
    match a {
        Ok(k) | Err(WriteError::Unfinished(k)) => *told = k,
        Err(_) => {}
    }
    driver::writing_number(a)
}

// The same of what a run answers, which tells its steps.
fn tell_steps(o: Result<u64, Unready>, done: &mut u64) -> u64
    ensures { (result ≡ chartNumber o) × (done.new ≡ steps_told o done.old) }
{
    tell(o.map_err(WriteError::from), done)
}

#[unsafe(no_mangle)]
pub extern "C" fn bobbinmarl_run(
    grammar: &[u64],
    graph: &[u64],
    chart: &mut [u64],
    steps: u64,
    done: &mut u64,
) -> u64
    ensures { Ran grammar.now graph.now chart.old steps done.old result chart.new done.new }
{
    let outcome = chart::run(grammar, graph, chart, steps);
    tell_steps(outcome, done)
}

// ---- the chart's items

// How many items a chart has, and of each the fields: `fields_of` says in which order.
#[unsafe(no_mangle)]
pub extern "C" fn bobbinmarl_items(chart: &[u64]) -> u64
    ensures { result ≡ item_count chart.now }
{
    records::item_count(chart)
}

#[unsafe(no_mangle)]
pub extern "C" fn bobbinmarl_item(chart: &[u64], place: u64, fields: &mut [u64]) -> u64
    ensures { TellsItem (tell_item (item_count chart.now) (record_at chart.now) place fields.old) result fields.new }
{
    records::telling::tell_item(chart, place, fields)
}

// ---- the writer

#[unsafe(no_mangle)]
pub extern "C" fn bobbinmarl_write(
    grammar: &[u64],
    graph: &[u64],
    chart: &[u64],
    out: &mut [u8],
    told: &mut u64,
) -> u64
    ensures { Written grammar.now graph.now chart.now out.old told.old result out.new told.new }
{
    let answer = writer::write(grammar, graph, chart, out);
    tell(answer, told)
}

// The second form of the answer: a row of records.
#[unsafe(no_mangle)]
pub extern "C" fn bobbinmarl_fill(
    grammar: &[u64],
    graph: &[u64],
    chart: &[u64],
    rows: &mut [Application],
    told: &mut u64,
) -> u64
    ensures { FilledRow grammar.now graph.now chart.now rows.old told.old result rows.new told.new }
{
    let answer = filler::fill(grammar, graph, chart, rows);
    tell(answer, told)
}

// ---- the replay

#[unsafe(no_mangle)]
pub extern "C" fn bobbinmarl_replay(grammar: &[u64], graph: &[u64], derivation: &[u8]) -> u64
    ensures { Replayed grammar.now graph.now derivation.now result }
{
    driver::verdict_number(replayer::replay(grammar, graph, derivation))
}
