// Lines of fixed columns: found in a text, judged, read field by field, and written.

#![tactic(auto)]

ghost use Rattle.std.specs.Prelude.{◌≡◌, ◌&&◌, [], ◌∷◌, ◌+◌, ◌-◌, ◌*◌, ◌%◌, ◌≤◌, ◌<◌, length, take, drop, get_or, leb, IfSome};
ghost use Rattle.std.proofs.lemmas.List.Edits.{sets};
ghost use Rattle.format.specs.Tests.{all_below};
ghost use Rattle.format.specs.Lines.{line_of, line_start, line_end, is_ended, after_line, counting_start, counting_of, PartOf};
ghost use Rattle.format.specs.Fields.{column as column_of, digit_of, field_text, value_of, cell_of, field_count, field_of, number_in, number_of, fields_of};
ghost use Rattle.format.specs.Shape.{letter_of, letter_kind, is_capital, shape_of};
ghost use Rattle.format.specs.Writing.{fields_text, line_text, writable as writable_of, field_fits, line_fits, Put};
ghost use Rattle.format.specs.declared.Cell.TheVariants.{Number};

use format::{Cell, Letter};

// ---- lines of a text

// A place past the end of the text is its end.
#[tactic(auto, unfolding(format::specs::Lines::line_start))]
fn line_start(text: &[u8], from: usize) -> usize
    ensures { result ≡ line_start text.now from }
{
    from.min(text.len())
}

// The place of the line feed of the line that starts at `from`, or the end of the text.
#[tactic(auto, using(format::proofs::LineLaws::scanning))]
fn line_end(text: &[u8], from: usize) -> usize
    ensures { result ≡ line_end text.now from }
{
    let start = line_start(text, from);
    for i in start..text.len() {
        if text[i] == b'\n' {
            return i;
        }
    }
    text.len()
}

// The line that starts at `from`, without its line feed: a part of the lent text.
#[tactic(auto, using(format::proofs::LineLaws::parts))]
pub fn next_line(text: &[u8], from: usize) -> &[u8]
    ensures { PartOf text.entry (line_start text.now from) (line_of (drop from text.now)) result }
{
    let a = line_start(text, from);
    let e = line_end(text, from);
    &text[a..e]
}

// Whether a line feed ends the line that starts at `from`.
#[tactic(auto, unfolding(format::specs::Lines::is_ended))]
pub fn is_ended(text: &[u8], from: usize) -> bool
    ensures { result ≡ is_ended text.now from }
{
    line_end(text, from) < text.len()
}

// The place behind the line feed of the line that starts at `from`, or the end of the text.
#[tactic(auto, using(format::proofs::LineLaws::after_feed, format::proofs::LineLaws::after_last))]
pub fn after_line(text: &[u8], from: usize) -> usize
    ensures { result ≡ after_line text.now from }
{
    let e = line_end(text, from);
    if e < text.len() { e + 1 } else { text.len() }
}

// Whether a line feed ends the line that was found at `from`: its end is not searched for again.
#[tactic(auto, using(crate::proofs::Places::found), unfolding(format::specs::Lines::is_ended))]
pub fn ends(text: &[u8], from: usize, line: &[u8]) -> bool
    requires { (from ≤ length text.now) × (line.now ≡ line_of (drop from text.now)) }
    ensures { result ≡ is_ended text.now from }
{
    from + line.len() < text.len()
}

// The place behind the line feed of the line that was found at `from`, or the end of the text.
#[tactic(auto, using(crate::proofs::Places::found))]
pub fn behind(text: &[u8], from: usize, line: &[u8]) -> usize
    requires { (from ≤ length text.now) × (line.now ≡ line_of (drop from text.now)) }
    ensures { result ≡ after_line text.now from }
{
    let e = from + line.len();
    if e < text.len() { e + 1 } else { text.len() }
}

// Where the next line that counts starts, from `from` on. Every line counts today.
#[tactic(auto, unfolding(format::specs::Lines::counting_start))]
pub fn counting_start(text: &[u8], from: usize) -> usize
    ensures { result ≡ counting_start text.now from }
{
    line_start(text, from)
}

// The next line that counts, a part of the lent text.
#[tactic(auto, using(format::proofs::LineLaws::counting), unfolding(format::specs::Lines::counting_of))]
pub fn next_counting(text: &[u8], from: usize) -> &[u8]
    ensures { PartOf text.entry (counting_start text.now from) (counting_of text.now from) result }
{
    let start = counting_start(text, from);
    next_line(text, start)
}

// ---- fields
// The number of a digit, 0 for any other byte, as the definition has it.
#[tactic(auto, unfolding(format::specs::Fields::digit_of))]
fn digit(b: u8) -> u64
    ensures { (result ≡ digit_of b) × (result ≤ 9) }
{
    match b {
        b'0'..=b'9' => u64::from(b - b'0'),
        _ => 0,
    }
}

// What stands in the column of p for n. Most numbers are small, and are blank there without a division.
#[tactic(auto, unfolding(format::specs::Fields::column))]
fn column(p: u64, n: u64) -> u8
    requires { 0 < p }
    ensures { result ≡ column_of p n }
{
    if n < p {
        b' '
    } else {
        b'0' + (n / p % 10) as u8
    }
}

fn last_column(n: u64) -> u8
    ensures { result ≡ 48 + n % 10 }
{
    b'0' + (n % 10) as u8
}

#[tactic(auto, using(crate::proofs::Cells::value_cell))]
fn value(cell: [u8; 4]) -> u64
    ensures { (result ≡ value_of cell) × (result ≤ 9999) }
{
    let [a, b, c, d] = cell;
    ((digit(a) * 10 + digit(b)) * 10 + digit(c)) * 10 + digit(d)
}

// The text of n in four columns.
#[tactic(auto, unfolding(format::specs::Fields::field_text))]
fn field_bytes(n: u64) -> [u8; 4]
    ensures { result ≡ field_text n }
{
    [
        column(1000, n),
        column(100, n),
        column(10, n),
        last_column(n),
    ]
}

// Any four bytes: a number where they are the text of their value.
#[tactic(auto, using(crate::proofs::Cells::comparing))]
fn compared_cell(cell: [u8; 4]) -> Cell
    ensures { result ≡ cell_of cell }
{
    let n = value(cell);
    if cell == field_bytes(n) {
        Cell::Number(n)
    } else {
        Cell::Bad
    }
}

// The number behind two blanks, by its last two columns, if they are the text of one.
#[tactic(auto, using(crate::proofs::Cells::one_digit, crate::proofs::Cells::two_digits))]
fn last_two(c: u8, d: u8) -> Option<u64>
    ensures { IfSome result (λ n. Number n ≡ cell_of (32 ∷ 32 ∷ c ∷ d ∷ [])) }
{
    match (c, d) {
        (b' ', b'0'..=b'9') => Some(u64::from(d - b'0')),
        (b'1'..=b'9', b'0'..=b'9') => Some(u64::from(c - b'0') * 10 + u64::from(d - b'0')),
        _ => None,
    }
}

// Most numbers are below 100, and need no division.
fn read_cell(cell: [u8; 4]) -> Cell
    ensures { result ≡ cell_of cell }
{
    if let [b' ', b' ', c, d] = cell
        && let Some(n) = last_two(c, d)
    {
        return Cell::Number(n);
    }
    compared_cell(cell)
}

// How many whole fields a line has behind its letter.
#[tactic(auto, unfolding(format::specs::Fields::field_count))]
pub fn field_count(line: &[u8]) -> usize
    ensures { result ≡ field_count line.now }
{
    line.len().saturating_sub(1) / 4
}

// Field k of a line, counted from 0.
#[tactic(auto, using(format::proofs::FieldLaws::reading), unfolding(format::specs::Fields::field_count))]
pub fn field(line: &[u8], k: usize) -> Cell
    ensures { result ≡ field_of line.now k }
{
    if field_count(line) <= k {
        return Cell::Missing;
    }
    let at = 4 * k;
    read_cell([line[at + 1], line[at + 2], line[at + 3], line[at + 4]])
}

// 10,000 stands for none, as the definitions have it: every test against the largest number refuses it.
fn number_in(c: Cell) -> u64
    ensures { result ≡ number_in c }
{
    match c {
        Cell::Number(n) => n,
        Cell::Bad | Cell::Missing => 10000,
    }
}

// The number in field k, 10,000 where there is none.
#[tactic(auto, unfolding(format::specs::Fields::number_of))]
pub fn number(line: &[u8], k: usize) -> u64
    ensures { result ≡ number_of line.now k }
{
    number_in(field(line, k))
}

// The numbers of a line's fields in the first places of `row`, and how many they are.
#[tactic(auto, using(crate::proofs::Rows::row_done))]
pub fn read_row(line: &[u8], row: &mut [u64]) -> usize
    requires { field_count line.now ≤ length row.old }
    ensures { (result ≡ field_count line.now) × (take result row.new ≡ fields_of line.now) × (drop result row.new ≡ drop result row.old) }
{
    let count = field_count(line);
    for k in 0..count {
        row[k] = number(line, k);
    }
    count
}

// ---- the shape of a line

// The byte that a line starts with, 0 where it has none.
#[tactic(auto, unfolding(format::specs::Shape::letter_of))]
pub fn letter_byte(line: &[u8]) -> u8
    ensures { result ≡ letter_of line.now }
{
    line.first().copied().unwrap_or(0)
}

#[tactic(auto, unfolding(format::specs::Shape::letter_kind))]
pub fn letter_kind(line: &[u8]) -> Letter
    ensures { result ≡ letter_kind (letter_of line.now) }
{
    let b = letter_byte(line);
    match b {
        b'G' => Letter::G,
        b'S' => Letter::S,
        b'R' => Letter::R,
        b'E' => Letter::E,
        b'P' => Letter::P,
        b'H' => Letter::H,
        b'D' => Letter::D,
        b'A' => Letter::A,
        _ => Letter::Other,
    }
}

#[tactic(auto, unfolding(format::specs::Shape::is_capital))]
fn is_capital(b: u8) -> bool
    ensures { result ≡ is_capital b }
{
    b.is_ascii_uppercase()
}

// Whether each of the first `count` fields holds a number.
#[tactic(auto, using(format::proofs::TestLaws::all_of))]
fn all_numbers(line: &[u8], count: usize) -> bool
    ensures { result ≡ all_below count (λ k. leb (number_of line.now k) 9999) }
{
    for k in 0..count {
        if number(line, k) > 9999 {
            return false;
        }
    }
    true
}

// Question 1, of the bytes of an ended line.
#[tactic(auto, unfolding(format::specs::Shape::shape_of))]
pub fn shape(line: &[u8]) -> bool
    ensures { result ≡ shape_of line.now }
{
    let count = field_count(line);
    1 <= count
        && count <= 18
        && line.len() == 4 * count + 1
        && is_capital(letter_byte(line))
        && all_numbers(line, count)
}

// ---- writing

// Whether a buffer of `len` bytes has `size` bytes from `at` on.
fn has_room(len: usize, at: usize, size: usize) -> bool
    ensures { result ≡ leb (at + size) len }
{
    at <= len && size <= len - at
}

#[tactic(auto, using(format::proofs::WritingLaws::field_text_length, format::proofs::WritingLaws::put_sets))]
fn write_field(out: &mut [u8], at: usize, n: u64) -> usize
    requires { at + 4 ≤ length out.old }
    ensures { (result ≡ at + 4) × (out.new ≡ sets out.old at (field_text n)) }
{
    out[at..at + 4].copy_from_slice(&field_bytes(n));
    at + 4
}

// Writes the text of n at `at` and answers the next place. A number above 9,999, or one that the
// buffer has no room for, is not written, and `at` is answered.
#[tactic(auto, using(format::proofs::WritingLaws::putting), unfolding(format::specs::Fields::field_text))]
pub fn put_field(out: &mut [u8], at: usize, n: u64) -> usize
    ensures { Put (field_fits out.old at n) out.old at (field_text n) out.new result }
{
    if n <= 9999 && has_room(out.len(), at, 4) {
        write_field(out, at, n)
    } else {
        at
    }
}

#[tactic(auto, using(format::proofs::WritingLaws::fields_next), unfolding(format::specs::Writing::fields_text))]
fn write_fields(out: &mut [u8], at: usize, fields: &[u64]) -> usize
    requires { at + 4 * length fields.now ≤ length out.old }
    ensures { (result ≡ at + 4 * length fields.now) × (out.new ≡ sets out.old at (fields_text fields.now)) }
{
    let mut p = at;
    for n in fields {
        p = write_field(out, p, *n);
    }
    p
}

// Whether each number has a text of four columns.
fn all_small(fields: &[u64]) -> bool
    ensures { result ≡ all_below (length fields.now) (λ k. leb (get_or fields.now k 0) 9999) }
{
    fields.iter().all(|n| *n <= 9999)
}

#[tactic(auto, unfolding(format::specs::Writing::writable))]
fn is_writable(letter: u8, fields: &[u64]) -> bool
    ensures { result ≡ writable_of letter fields.now }
{
    is_capital(letter) && 1 <= fields.len() && fields.len() <= 18 && all_small(fields)
}

// The line of a letter and the first `count` of `fields`, where there is room for it; answers the next place.
pub fn write_line(out: &mut [u8], at: usize, letter: u8, fields: &[u64], count: usize) -> usize
    requires { (count ≤ length fields.now) × (at + (4 * count + 2) ≤ length out.old) }
    ensures { (result ≡ at + (4 * count + 2)) × (out.new ≡ sets out.old at (line_text letter (take count fields.now))) }
{
    out[at] = letter;
    let p = write_fields(out, at + 1, &fields[..count]);
    out[p] = b'\n';
    p + 1
}

// Writes the line of a letter and the first `count` of `fields` at `at` and answers the next place.
// A line that is not of the shape (no capital letter, no field or more than 18, a number above
// 9,999), that has more fields than are lent, or that the buffer has no room for, is not written,
// and `at` is answered.
#[tactic(auto, using(format::proofs::WritingLaws::putting))]
pub fn put_line(out: &mut [u8], at: usize, letter: u8, fields: [u64; 18], count: usize) -> usize
    ensures { Put (line_fits out.old at letter fields count) out.old at (line_text letter (take count fields)) out.new result }
{
    if count <= 18
        && is_writable(letter, &fields[..count])
        && has_room(out.len(), at, 4 * count + 2)
    {
        write_line(out, at, letter, &fields, count)
    } else {
        at
    }
}
