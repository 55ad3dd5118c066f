// Files of the current folder and standard output, for the two programs. No contract can say what a file holds or
// what is printed, only how much: the work is in crate `driver`.

#![tactic(auto)]

ghost use Rattle.std.specs.Prelude.{◌≡◌, ◌≤◌, length, take, IfOk, IfSome};
ghost use Rattle.files.specs.Counts.{IsPrefixLen};

use std::fmt::Display;
use std::io::{ErrorKind, Read};
use std::rt::Files;
use std::{fs, io, str};

// Writes a line to standard error: what failed, as the caller names it, a colon and why.
fn fail<W: Display + Drop>(rt: &impl Eprint, what: &[u8], why: W) {
    let name = what.escape_ascii();
    let _ = eprintln!(rt; "{name}: {why}");
}

// Reads until the text is full or the file ends, and answers how many bytes it put at the text's start.
fn read_full<F: Read>(file: &mut F, text: &mut [u8]) -> io::Result<usize>
    ensures { IfOk result (λ n. IsPrefixLen n text.new) }
{
    let mut done = 0;
    // How far a turn gets the file says: no range has the places.
    while done < text.len() {
        let n = file.read(&mut text[done..])?;
        if n == 0 {
            break;
        }
        done += n;
    }
    Ok(done)
}

// Whether nothing is left to read of a file whose first `n` bytes were read. A failed read is not the end.
fn is_at_end<F: Read>(file: &mut F) -> bool {
    let mut next = [0u8; 1];
    matches!(file.read(&mut next), Ok(0))
}

// Reads a file that is open. One of more bytes than a text holds needs no end: it is refused by its length.
fn read_open<F: Read>(
    rt: &impl Eprint,
    file: &mut F,
    path: &[u8],
    text: &mut [u8; 32769],
) -> Option<usize>
    ensures { IfSome result (λ n. IsPrefixLen n text.new) }
{
    match read_full(file, text) {
        Ok(n) => {
            if n < text.len() && !is_at_end(file) {
                fail(rt, path, "its end cannot be read");
                return None;
            }
            Some(n)
        }
        Err(e) => {
            fail(rt, path, e);
            None
        }
    }
}

// Reads a file's first bytes, one more than 32,768 at most, and answers how many. A missing file is empty. One that
// is there and cannot be read is told on standard error, and answered `None`. So is a path that is no UTF-8, under
// which the library opens nothing.
pub fn read_file<R: Files + Eprint>(rt: &R, path: &[u8], text: &mut [u8; 32769]) -> Option<usize>
    ensures { IfSome result (λ n. IsPrefixLen n text.new) }
{
    match str::from_utf8(path) {
        Ok(name) => match fs::open(rt, name) {
            Ok(mut file) => read_open(rt, &mut file, path, text),
            Err(e) => {
                if e.kind() == ErrorKind::NotFound {
                    return Some(0);
                }
                fail(rt, path, e);
                None
            }
        },
        Err(e) => {
            fail(rt, path, e);
            None
        }
    }
}

// Hands on the first n bytes and no other.
fn hand_on<T, F: FnOnce(&[u8]) -> T>(text: &[u8; 32769], n: usize, go: F) -> T
    requires { (n ≤ 32769) × ((t : _) → t.now ≡ take n text.now → F.pre go t) }
    ensures { (t : _) × (t.now ≡ take n text.now) × F.post go t result }
{
    go(&text[..n])
}

// Reads a file's text, hands it on, 32,769 bytes at most, and answers what `go` does. Of a file that is there and
// cannot be read, which is told on standard error, nothing is handed on.
pub fn with_text<R: Files + Eprint, T, F: FnOnce(&[u8]) -> T>(
    rt: &R,
    path: &[u8],
    go: F,
) -> Option<T>
    requires { (t : _) → length t.now ≤ 32769 → F.pre go t }
    ensures { IfSome result (λ x. (t : _) × (length t.now ≤ 32769) × F.post go t x) }
{
    let mut text = [0u8; 32769];
    let n = read_file(rt, path, &mut text)?;
    Some(hand_on(&text, n, go))
}

// Writes the bytes to standard output, and answers how many: all, or 0 where not all were taken, which is told on
// standard error: a program has no exit status.
pub fn print<R: Print + Eprint>(rt: &R, bytes: &[u8]) -> usize
    ensures { IsPrefixLen result bytes.now }
{
    match rt.write_all(bytes) {
        Ok(()) => bytes.len(),
        Err(e) => {
            fail(rt, b"standard output", e);
            0
        }
    }
}
