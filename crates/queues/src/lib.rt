// A set of numbers below 131072 in lent words: the lowest words hold the numbers as bits, and two levels of words
// above them tell which words are not 0, so that a number comes, goes and the least is found by three words. The last
// word is a hint: of the lowest words those before word 132 + hint are 0, so that this word has the least number
// where it is not 0.

#![tactic(auto)]

ghost use Rattle.std.specs.Prelude.{◌≡◌, ◌+◌, ◌≤◌, ◌<◌, length, get_or};
ghost use Rattle.queues.specs.Queues.{Levels, with_bit, without_bit, with_hint, Inserted, Removed, Left, LeastTaken, FirstOf, Reached, Stepped, Cleared};

// where the hint is
const HINT: usize = 4228;

// Bit k of word i is set: the word that was there.
fn raise(ws: &mut [u32], i: u64, k: u64) -> u32
    requires { (length ws.old ≡ 4229) × (i < 4228) × (k < 32) }
    ensures { (ws.new ≡ with_bit ws.old i k) × (result ≡ get_or ws.old i 0) }
{
    let old = ws[i as usize];
    ws[i as usize] = old | (1u32 << k);
    old
}

// Bit k of word i is cleared: the word that is left.
fn lower(ws: &mut [u32], i: u64, k: u64) -> u32
    requires { (length ws.old ≡ 4229) × (i < 4228) × (k < 32) }
    ensures { (ws.new ≡ without_bit ws.old i k) × (result ≡ get_or ws.new i 0) }
{
    let left = ws[i as usize] & !(1u32 << k);
    ws[i as usize] = left;
    left
}

// A number comes into word 132 + a: the hint is a at most.
fn hint(ws: &mut [u32], a: u64)
    requires { (length ws.old ≡ 4229) × (a < 4096) }
    ensures { ws.new ≡ with_hint ws.old a }
{
    if a < ws[HINT] as u64 {
        ws[HINT] = a as u32;
    }
}

// The number p comes into the set. A word that was not 0 before is told by the words above it already.
pub fn insert(ws: &mut [u32], p: u64)
    requires { (length ws.old ≡ 4229) × (p < 131072) }
    ensures { Inserted ws.old p ws.new }
{
    let a = p / 32;
    hint(ws, a);
    if raise(ws, 132 + a, p % 32) != 0 {
        return;
    }
    let b = a / 32;
    if raise(ws, 4 + b, a % 32) != 0 {
        return;
    }
    raise(ws, b / 32, b % 32);
}

// The number p leaves the set. A word that is still not 0 leaves the words above it as they are.
pub fn remove(ws: &mut [u32], p: u64)
    requires { (length ws.old ≡ 4229) × (p < 131072) }
    ensures { Removed ws.old p ws.new }
{
    let a = p / 32;
    if lower(ws, 132 + a, p % 32) != 0 {
        return;
    }
    let b = a / 32;
    if lower(ws, 4 + b, a % 32) != 0 {
        return;
    }
    lower(ws, b / 32, b % 32);
}

// The first of the four highest words that is not 0.
fn start(ws: &[u32]) -> Option<u64>
    requires { length ws.now ≡ 4229 }
    ensures { FirstOf ws.now 0 4 result }
{
    for i in 0..4 {
        if ws[i as usize] != 0 {
            return Some(i);
        }
    }
    None
}

// Of the words from word a on, word a + m is the first that is not 0: the first bit of them that is set.
fn down(ws: &[u32], a: u64, m: u64) -> u64
    requires { (length ws.now ≡ 4229) × (a ≤ 132) × (a + m < 4228) × Reached ws.now a m }
    ensures { Stepped ws.now a m result }
{
    32 * m + u32::trailing_zeros(ws[(a + m) as usize]) as u64
}

// The first of the lowest words that is not 0: at each level the first word that is not 0 leads to the next.
fn search(ws: &[u32]) -> Option<u64>
    requires { Levels ws.now }
    ensures { FirstOf ws.now 132 4096 result }
{
    let i = start(ws)?;
    Some(down(ws, 4, down(ws, 0, i)))
}

// Word 132 + a is the first of the lowest that is not 0: its first number, the least of the set, leaves it.
fn leave(ws: &mut [u32], a: u64) -> u64
    requires { (length ws.old ≡ 4229) × (a < 4096) × Reached ws.old 132 a }
    ensures { Left ws.old result ws.new }
{
    let p = down(ws, 132, a);
    remove(ws, p);
    p
}

// The least number leaves the set by the way down the levels, and its word is the next hint.
pub fn next(ws: &mut [u32]) -> Option<u64>
    requires { Levels ws.old }
    ensures { LeastTaken ws.old result ws.new }
{
    let a = search(ws)?;
    ws[HINT] = a as u32;
    Some(leave(ws, a))
}

// The least number leaves the set, straight from the word of the hint where that has one.
pub fn take(ws: &mut [u32]) -> Option<u64>
    requires { Levels ws.old }
    ensures { LeastTaken ws.old result ws.new }
{
    let a = ws[HINT] as u64;
    if ws[(132 + a) as usize] == 0 {
        return next(ws);
    }
    Some(leave(ws, a))
}

// No number is in the set.
pub fn clear(ws: &mut [u32])
    requires { length ws.old ≡ 4229 }
    ensures { Cleared ws.new }
{
    ws.fill(0);
}
