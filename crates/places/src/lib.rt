// Eight places of graph nodes (64: none) as the bytes of one word, which is packed and taken apart as a whole.

#![tactic(auto)]

ghost use Rattle.std.specs.Prelude.{◌≡◌, ◌<◌, get_or, set};
ghost use Rattle.places.specs.Words.{places_of, Packed};

pub mod merging;
pub mod testing;

// How many places there are.
pub const PLACES: usize = 8;

// The word of eight places that have no node.
pub const NONE: u64 = 0x4040_4040_4040_4040;

// Eight places as one word.
pub fn word_of(a: [u8; PLACES]) -> u64
    ensures { Packed a result }
{
    u64::from_le_bytes(a)
}

// Eight places as words of their own: `From` has no conversion of arrays.
pub fn wide(a: [u8; PLACES]) -> [u64; PLACES]
    ensures { result ≡ a }
{
    a.map(u64::from)
}

// The places of a word.
pub fn nodes_of(w: u64) -> [u8; PLACES]
    ensures { result ≡ places_of w }
{
    w.to_le_bytes()
}

// The node at place k.
pub fn node_at(w: u64, k: u64) -> u64
    requires { k < 8 }
    ensures { (result ≡ get_or (places_of w) k 0) × (result < 256) }
{
    (w >> (8 * k)) % 256
}

// The places with node v at place k.
pub fn with_node(w: u64, k: u64, v: u64) -> u64
    requires { (k < 8) × (v < 256) }
    ensures { places_of result ≡ set (places_of w) k v }
{
    (w & !(255u64 << (8 * k))) | (v << (8 * k))
}
