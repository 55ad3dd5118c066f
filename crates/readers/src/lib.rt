// The readers of a grammar text and a graph text: line by line into a local table, which is copied to the lent one
// when the whole text has passed.

#![tactic(auto)]

ghost use Rattle.std.specs.Prelude.{◌≡◌, true, ◌<◌, length, eqb};
ghost use Rattle.format.specs.Fields.{fields_of};
ghost use Rattle.format.specs.Shape.{letter_of, shape_of, kind_letter};
ghost use Rattle.format.specs.Lines.{counting_lines};
ghost use Rattle.questions.specs.Layout.{letter_due};
ghost use Rattle.questions.specs.Questions.{judge};
ghost use Rattle.questions.specs.Reading.{judge_line, read_lines, accepted, delivered, read_grammar};
ghost use Rattle.questions.specs.Refusing.{number_in, answer_of};
ghost use Rattle.questions.specs.Checking.{read_graph};
ghost use Rattle.questions.specs.Walk.{Room};
ghost use Rattle.readers.specs.Readers.{Gives, verdict_of, line_with, Stores, missing};

use format::Letter;
use questions::{Due, Refusal};

// ---- question 2
// Whether a line of this letter is due: its kind says which lines have to be, and one of any other kind never is.
fn letter_due(line: &[u8], due: Due) -> bool
    requires { 0 < letter_of line.now }
    ensures { result ≡ eqb (letter_of line.now) (kind_letter (letter_due due)) }
{
    match lines::letter_kind(line) {
        Letter::G => matches!(due, Due::Grammar),
        Letter::S => matches!(due, Due::Symbol(_)),
        Letter::R => matches!(due, Due::Rule(_)),
        Letter::E => matches!(due, Due::RuleEdge(_, _) | Due::GraphEdge(_)),
        Letter::P => matches!(due, Due::PlanLine(_, _)),
        Letter::H => matches!(due, Due::Graph),
        _ => false,
    }
}

// ---- one line
// Questions 3 to 7 for a line of the shape: one that passes is stored.
fn store_line(g: &[u64], t: &mut [u64], due: Due, line: &[u8]) -> Result<(), Refusal>
    requires { Room (length t.old) due × (shape_of line.now ≡ true) }
    ensures { (number_in result ≡ judge g.now t.old due (fields_of line.now)) × Stores t.old due line.now result t.new }
{
    let mut values = [0u64; 18];
    let n = lines::read_row(line, &mut values);
    let f = &values[..n];
    tables::judging::judge(g, t, due, f)?;
    layout::store(t, due, f);
    Ok(())
}

// Questions 1 to 7 for one line: one that passes is stored.
fn read_line(g: &[u64], t: &mut [u64], due: Due, line: &[u8], ended: bool) -> Result<(), Refusal>
    requires { Room (length t.old) due }
    ensures { (number_in result ≡ judge_line g.now t.old due (line_with line.now ended)) × Stores t.old due line.now result t.new }
{
    if !ended {
        return Err(Refusal::Shape);
    }
    if !lines::shape(line) {
        return Err(Refusal::Shape);
    }
    if !letter_due(line, due) {
        return Err(Refusal::Letter);
    }
    store_line(g, t, due, line)
}

// At the end of a text no line may be due.
fn missing_line(due: Due) -> Result<(), Refusal>
    ensures { number_in result ≡ missing due }
{
    match due {
        Due::Nothing => Ok(()),
        _ => Err(Refusal::Letter),
    }
}

// Reads the lines of a text into the table t, from the line `first` on: the first refusal ends it.
fn read_lines(g: &[u64], t: &mut [u64], first: Due, text: &[u8]) -> Result<(), Refusal>
    requires { Room (length t.old) first }
    ensures { verdict_of (number_in result) t.new ≡ read_lines g.now t.old first (counting_lines text.now) }
{
    let mut due = first;
    let mut at = 0;
    // The next line begins where this one ends, so there is no count of lines to go through.
    while at < text.len() {
        let line = lines::next_counting(text, at);
        let start = lines::counting_start(text, at);
        read_line(g, t, due, line, lines::is_ended(text, start))?;
        due = layout::next_due(t, due);
        at = lines::after_line(text, start);
    }
    missing_line(due)
}

// Gives a table that was filled: the lent one is looked at after the whole text, and written only if it is long enough.
fn deliver(t: &[u64], table: &mut [u64]) -> Result<(), Refusal>
    ensures { Gives (delivered (length t.now) (accepted t.now) table.old) (answer_of result) table.new }
{
    if table.len() < t.len() {
        return Err(Refusal::Unfit);
    }
    table[..t.len()].copy_from_slice(t);
    Ok(())
}

// Reads a grammar text into the lent table. Every refusal leaves the lent table as it was.
pub fn read_grammar(text: &[u8], table: &mut [u64]) -> Result<(), Refusal>
    ensures { Gives (read_grammar text.now table.old) (answer_of result) table.new }
{
    let mut t = [0u64; layout::GRAMMAR_WORDS];
    read_lines(&[], &mut t, Due::Grammar, text)?;
    deliver(&t, table)
}

// Reads a graph text with a grammar table into the lent table. The grammar table is judged before the text.
pub fn read_graph(grammar: &[u64], text: &[u8], table: &mut [u64]) -> Result<(), Refusal>
    ensures { Gives (read_graph grammar.now text.now table.old) (answer_of result) table.new }
{
    if !tables::checking::check_grammar(grammar) {
        return Err(Refusal::Unfit);
    }
    let mut t = [0u64; layout::GRAPH_WORDS];
    read_lines(grammar, &mut t, Due::Graph, text)?;
    deliver(&t, table)
}
