// Two maps of eight places made one, as whole words: eight bytes are compared, chosen and tested at once.
ghost use Rattle.std.specs.Prelude.{◌≡◌, ℕ, ◌≤◌};
ghost use Rattle.hrg.specs.Trees.{unplaced, at};
ghost use Rattle.places.specs.Swar.{high_bits, bare_of, choose_of, differs_of, turn_of, once_of, agrees_of, spread_of};
ghost use Rattle.places.specs.Maps.{Merges};

use crate::{NONE, PLACES};

// 1, 127 and 128 in each byte.
pub(crate) const ONES: u64 = 0x0101_0101_0101_0101;

pub(crate) const LOW: u64 = 0x7f7f_7f7f_7f7f_7f7f;

pub(crate) const HIGH: u64 = 0x8080_8080_8080_8080;

// Bit i in byte i.
const STEPS: u64 = 0x8040_2010_0804_0201;

// The joined map at the places that stay; its nodes at the others, each xor 64, so that a place with none has 0.
#[derive(Clone, Copy)]
pub struct Merged {
    pub kept: u64,
    pub dropped: u64,
}

// 255 at each place that has no node, else 0.
fn bare(w: u64) -> u64
    ensures { result ≡ bare_of w }
{
    (w & NONE) / 64 * 255
}

// At each place the byte of a where s has 255, that of b where it has 0.
pub(crate) fn choose(s: u64, a: u64, b: u64) -> u64
    ensures { result ≡ choose_of s a b }
{
    (a & s) | (b & !s)
}

// 128 at each place where a and b differ, else 0.
pub(crate) fn differs(a: u64, b: u64) -> u64
    ensures { (result ≡ differs_of a b) × (result ≤ high_bits) }
{
    ((a ^ b) & LOW) + LOW & HIGH
}

// Each byte one place down, the first one last.
fn turn(w: u64) -> u64
    ensures { result ≡ turn_of w }
{
    w.rotate_right(8)
}

// 128 at each place of which no other has the same node, else 0: four turns bring each two places together.
fn once(j: u64) -> u64
    ensures { result ≡ once_of j }
{
    let r1 = turn(j);
    let r2 = turn(r1);
    let r3 = turn(r2);
    let r4 = turn(r3);
    let apart = differs(j, r1) & differs(j, r2) & (differs(j, r3) & differs(j, r4));
    (apart | bare(j)) & HIGH
}

// 128 at each place where the joined map j has what t has, else 0.
fn agrees(j: u64, t: u64) -> u64
    ensures { result ≡ agrees_of j t }
{
    (HIGH - differs(j, t) | bare(t)) & HIGH
}

// A set of places: 255 at each place in it, else 0. In the product each byte is the set, of which byte i keeps bit i.
pub(crate) fn spread(m: u64) -> u64
    ensures { result ≡ spread_of m }
{
    ((m % 256 * ONES & STEPS) + LOW & HIGH) / 128 * 255
}

// Two maps as one: the node of f at each place, and where that has none, the node of t. The places in `stays` are kept.
// Where the maps do not agree, or are not one to one together, the parts are the error.
pub fn merge(stays: u64, f: [u8; PLACES], t: [u8; PLACES]) -> Result<Merged, Merged>
    requires { ((i : ℕ) → at f i ≤ unplaced) × ((i : ℕ) → at t i ≤ unplaced) }
    ensures { Merges stays f t result }
{
    let a = crate::word_of(f);
    let b = crate::word_of(t);
    let j = choose(bare(a), b, a);
    let s = spread(stays);
    let parts = Merged {
        kept: choose(s, j, NONE),
        dropped: (j ^ NONE) & !s,
    };
    if once(j) & agrees(j, b) != HIGH {
        return Err(parts);
    }
    Ok(parts)
}
