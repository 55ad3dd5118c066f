// What the two programs print for the texts of their files: the readers, the chart, the writer and the replay in 01's
// order.

#![tactic(auto)]

ghost use Rattle.std.specs.Prelude.{◌≡◌, [], ◌∷◌, ◌++◌, ◌+◌, ◌≤◌, length};
ghost use Rattle.std.proofs.lemmas.List.Edits.{sets};
ghost use Rattle.format.specs.Writing.{line_text};
ghost use Rattle.questions.specs.Refusing.{number_in, answer_of, reading_number};
ghost use Rattle.charting.specs.Calls.{number_of as chartNumber};
ghost use Rattle.writing.specs.Writing.{number_of as writingNumber};
ghost use Rattle.replayer.specs.Verdicts.{number_of as verdictNumber};
ghost use Rattle.programs.specs.Files.{grammar_file, graph_file, files_of, FileGives, FilesGive};
ghost use Rattle.programs.specs.Programs.{refusal_line, steps_line, Prints, derived_text, write_chart, derive_tables, derive_files, replay_tables, replay_files};

use charting::Unready;
use questions::Refusal;
use replayer::ReplayError;
use writing::WriteError;

// ---- 01's number of each answer, 0 where it is no refusal
// Numbers are what is printed and what C gets. No crate can give a From between a Result and u64, both of them std's.

pub fn reading_number(read: Result<(), Refusal>) -> u64
    ensures { result ≡ reading_number (answer_of read) }
{
    match read {
        Ok(()) => 0,
        Err(refusal) => refusal as u64,
    }
}

pub fn chart_number(o: Result<u64, Unready>) -> u64
    ensures { result ≡ chartNumber o }
{
    writing_number(o.map_err(WriteError::from))
}

pub fn writing_number(a: Result<u64, WriteError>) -> u64
    ensures { result ≡ writingNumber a }
{
    match a {
        Ok(_) => 0,
        Err(WriteError::Unfit) => 8,
        Err(WriteError::TooSmall) => 9,
        Err(WriteError::Unfinished(_)) => 10,
        Err(WriteError::Underivable) => 11,
        Err(WriteError::NoRoom) => 12,
    }
}

pub fn verdict_number(v: Result<(), ReplayError>) -> u64
    ensures { result ≡ verdictNumber v }
{
    match v {
        Ok(()) => 0,
        Err(ReplayError::Unfit) => 8,
        Err(ReplayError::NoDerivation) => 13,
    }
}

// ---- files

// Reads the text of a grammar file. One above 32,768 bytes is refused 1.
fn read_grammar(text: &[u8], table: &mut [u64]) -> Result<(), Refusal>
    ensures { FileGives (grammar_file text.now table.old) (number_in result) table.new }
{
    if 32768 < text.len() {
        return Err(Refusal::Shape);
    }
    readers::read_grammar(text, table)
}

fn read_graph(grammar: &[u64], text: &[u8], table: &mut [u64]) -> Result<(), Refusal>
    ensures { FileGives (graph_file grammar.now text.now table.old) (number_in result) table.new }
{
    if 32768 < text.len() {
        return Err(Refusal::Shape);
    }
    readers::read_graph(grammar, text, table)
}

// The grammar, then the graph: the first refusal ends it.
fn read_files(grammar: &[u8], graph: &[u8], g: &mut [u64], h: &mut [u64]) -> Result<(), Refusal>
    ensures { FilesGive (files_of grammar.now graph.now g.old h.old) (number_in result) g.new h.new }
{
    read_grammar(grammar, g)?;
    read_graph(g, graph, h)
}

// ---- lines

// Writes a line of one field, a number, at `at`, and answers the next place.
fn write_number(out: &mut [u8], at: usize, letter: u8, n: u64) -> usize
    requires { at + 6 ≤ length out.old }
    ensures { (result ≡ at + 6) × (out.new ≡ sets out.old at (line_text letter (n ∷ []))) }
{
    let fields = [n];
    lines::write_line(out, at, letter, &fields, 1)
}

fn put_refusal(k: u64, out: &mut [u8; 32774]) -> usize
    ensures { Prints (refusal_line k) out.old out.new result }
{
    write_number(out, 0, b'N', k)
}

// The derivation, and the line with the steps behind it.
fn put_derivation(text: &[u8], steps: u64, out: &mut [u8; 32774]) -> usize
    requires { length text.now ≤ 32768 }
    ensures { Prints (text.now ++ steps_line steps) out.old out.new result }
{
    out[..text.len()].copy_from_slice(text);
    write_number(out, text.len(), b'C', steps)
}

// ---- derive

// Writes the derivation of a chart whose run is done after so many steps.
fn write_chart(
    grammar: &[u64],
    graph: &[u64],
    chart: &[u64],
    steps: u64,
    out: &mut [u8; 32774],
) -> usize
    ensures { Prints (derived_text (write_chart grammar.now graph.now chart.now steps)) out.old out.new result }
{
    let mut text = [0u8; 32768];
    let answer = writer::write(grammar, graph, chart, &mut text);
    match answer {
        Ok(n) => put_derivation(&text[..n as usize], steps, out),
        Err(_) => put_refusal(writing_number(answer), out),
    }
}

// Starts a chart of 2,048 items and runs as many steps: it is done then, or too small.
fn derive_tables(grammar: &[u64], graph: &[u64], out: &mut [u8; 32774]) -> usize
    ensures { Prints (derived_text (derive_tables grammar.now graph.now)) out.old out.new result }
{
    let mut chart = [0u64; records::telling::WORDS_FOR_2048];
    let started = chart::start(grammar, graph, &mut chart);
    if started.is_err() {
        return put_refusal(chart_number(started), out);
    }
    let outcome = chart::run(grammar, graph, &mut chart, 2048);
    match outcome {
        Ok(steps) => write_chart(grammar, graph, &chart, steps, out),
        Err(_) => put_refusal(chart_number(outcome), out),
    }
}

// What `derive` prints for the texts of its two files: the first bytes of `out`, as many as it answers. The rest stays.
pub fn derive(grammar: &[u8], graph: &[u8], out: &mut [u8; 32774]) -> usize
    ensures { Prints (derived_text (derive_files grammar.now graph.now)) out.old out.new result }
{
    let mut g = [0u64; layout::GRAMMAR_WORDS];
    let mut h = [0u64; layout::GRAPH_WORDS];
    if let Err(refusal) = read_files(grammar, graph, &mut g, &mut h) {
        return put_refusal(refusal as u64, out);
    }
    derive_tables(&g, &h, out)
}

// ---- replay

// Questions 1 and 13 for a derivation file: its refusal, or 0, the number that is printed.
fn replay_tables(grammar: &[u64], graph: &[u64], derivation: &[u8]) -> u64
    ensures { result ≡ replay_tables grammar.now graph.now derivation.now }
{
    if 32768 < derivation.len() {
        return 1;
    }
    verdict_number(replayer::replay(grammar, graph, derivation))
}

// The first refusal of the three texts, or 0 for a pass: the number that is printed.
fn replay_number(grammar: &[u8], graph: &[u8], derivation: &[u8]) -> u64
    ensures { result ≡ replay_files grammar.now graph.now derivation.now }
{
    let mut g = [0u64; layout::GRAMMAR_WORDS];
    let mut h = [0u64; layout::GRAPH_WORDS];
    if let Err(refusal) = read_files(grammar, graph, &mut g, &mut h) {
        return refusal as u64;
    }
    replay_tables(&g, &h, derivation)
}

// What `replay` prints for the texts of its three files.
pub fn replay(grammar: &[u8], graph: &[u8], derivation: &[u8]) -> [u8; 6]
    ensures { result ≡ refusal_line (replay_files grammar.now graph.now derivation.now) }
{
    let k = replay_number(grammar, graph, derivation);
    let mut line = [0u8; 6];
    write_number(&mut line, 0, b'N', k);
    line
}
