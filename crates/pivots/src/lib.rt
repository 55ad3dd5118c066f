// Keys by which items of a chart that can be joined find each other: the image of one rule node, the pivot, is part
// of the key.

#![tactic(auto)]

ghost use Rattle.std.specs.Prelude.{◌≡◌, MatchOption, IfSome, [], ◌∷◌, ℕ, ◌≤◌, ◌<◌, length, replicate};
ghost use Rattle.hrg.specs.Grammars.{rule_of};
ghost use Rattle.questions.specs.Abstract.{grammar_of};
ghost use Rattle.joins.specs.Joins.{KnownNode, KnownEdge, edge_nodes};
ghost use Rattle.keys.specs.Pivots.{no_pivot, shared_node, EdgePivot, PivotBelow, PivotOf};
ghost use Rattle.keys.specs.Keys.{base_of, mixed, image_of, key_word, place_of, place_word, rule_places, asked_from, sought_from, key_table_words, rule_place, rule_word, symbol_word, KeyTable, Entered, Placed, place_key, word_for, uses_of, keys_from, keys_of, query_of};

use agenda::ChartItem;
use rules::planned::PlannedGrammar;
use rules::plans::PER_RULE;

// The size of the table of key words.
pub const KEY_TABLE_WORDS: usize = 2240;

// Where its parts begin, after the words by which active items are listed: those by which they ask, the positions at
// which each symbol is wanted, and for passive items the words by which they are listed and those by which they ask.
const ASKED_FROM: u64 = 1024;

const USES_FROM: u64 = 2048;

const PLACES_FROM: u64 = 2112;

const SOUGHT_FROM: u64 = 2176;

// What a key is of: a passive item, an active one that wants an edge filled, one that wants to be joined with another.
const PASSIVE_TAG: u64 = 1;

const EDGE_TAG: u64 = 2;

const JOIN_TAG: u64 = 3;

// A pivot or a word of keys is one number of a rule node below this and a number beside it.
const NODE_END: u64 = 16;

// A pivot of no position and no node: a number and no option, since words of the table are made of it.
const NO_PIVOT: u64 = 72;

// ---- pivots
// Below a plan node that introduces edge i: the first position of the edge whose node is open at p, with that node.
fn edge_pivot(g: &PlannedGrammar, r: u64, p: u64, i: u64) -> u64
    requires { KnownNode g.now.grammar.words.now r p × KnownEdge g.now.grammar.words.now r i }
    ensures { EdgePivot (rule_of (grammar_of g.now.grammar.words.now) r) p (edge_nodes g.now.grammar.words.now r i) result × (result ≤ no_pivot) }
{
    let words = g.grammar.words;
    let nodes = rules::plans::open_at(g, r, p);
    let rank = layout::rank_at(words, layout::edge_label(words, r, i));
    for k in 0..rank {
        let v = layout::edge_node(words, r, i, k);
        if masks::has(nodes, v) {
            return NODE_END * k + v;
        }
    }
    NO_PIVOT
}

// At the two children of a join: the last rule node that is open at both, 8 for none, as the definition of a pivot has
// it.
fn shared_node(g: &PlannedGrammar, r: u64, p: u64, q: u64) -> u64
    requires { KnownNode g.now.grammar.words.now r p × KnownNode g.now.grammar.words.now r q }
    ensures { (result ≡ shared_node (grammar_of g.now.grammar.words.now) r p q) × (result ≤ 8) }
{
    let here = rules::plans::open_at(g, r, p);
    let there = rules::plans::open_at(g, r, q);
    for v in (0..layout::rule_nodes(g.grammar.words, r)).rev() {
        if masks::has(here, v) & masks::has(there, v) {
            return v;
        }
    }
    8
}

// What plan node q asks of the pivot of p.
fn pivot_below(g: &PlannedGrammar, r: u64, p: u64, q: u64) -> u64
    requires { KnownNode g.now.grammar.words.now r q }
    ensures { PivotBelow g.now.grammar.words.now r p q result × (result ≤ no_pivot) }
{
    let words = g.grammar.words;
    let kind = layout::plan_kind(words, r, q);
    let first = layout::plan_first(words, r, q);
    let second = layout::plan_second(words, r, q);
    match kind {
        0 => NO_PIVOT,
        1 => {
            if first == p {
                return edge_pivot(g, r, p, second);
            }
            NO_PIVOT
        }
        2 => {
            if first == p {
                return 64 + shared_node(g, r, p, second);
            }
            if second == p {
                return 64 + shared_node(g, r, p, first);
            }
            NO_PIVOT
        }
        _ => NO_PIVOT,
    }
}

// The pivot of rule r and plan node p.
fn pivot(g: &PlannedGrammar, r: u64, p: u64) -> u64
    ensures { PivotOf g.now.grammar.words.now r p result }
{
    match rules::plans::place_above(g, r, p) {
        None => NO_PIVOT,
        Some(q) => pivot_below(g, r, p, q),
    }
}

// ---- buckets
// All of a key but the node, in one number.
fn base(tag: u64, s: u64, k: u64) -> u64
    ensures { (result ≡ base_of tag s k) × (result ≤ 134217728) }
{
    (tag % 128 * 3266489917 + s % 128 * 2654435769 + k % 128 * 2246822519) % 4294967296 / 32 + 1
}

// The base b and the node a mixed into 1 .. 2,048.
fn mix(b: u64, a: u64) -> u64
    requires { b ≤ 268435456 }
    ensures { result ≡ mixed b a }
{
    (32 * b + a % 128 * 668265263) % 4294967296 / 2097152 + 1
}

// ---- the table
// Its words have 32 bits each and are 0 for none, so that the functions that make or read them answer numbers.
// The word for active items of rule r that want `want` and have pivot w; a join's stands at plan node p.
fn key_word(tag: u64, want: u64, w: u64, r: u64, p: u64) -> u64
    ensures { (result ≡ key_word tag want w r p) × (result < 4294967296) }
{
    if want == 80 {
        return 0;
    }
    if want < 64 {
        return NODE_END * base(tag, want, w / NODE_END) + w % NODE_END;
    }
    NODE_END * base(JOIN_TAG, r, p) + w % NODE_END
}

// The place of a set that has no other.
fn place_of(u: u64) -> Option<u64>
    ensures { MatchOption result (5 ≡ place_of u) (λ i. (i ≡ place_of u) × (i < 5)) }
{
    match u {
        1 => Some(0),
        2 => Some(1),
        4 => Some(2),
        8 => Some(3),
        16 => Some(4),
        _ => None,
    }
}

// The word for passive items of symbol s that are asked for at the places in u.
fn place_word(tag: u64, s: u64, u: u64) -> u64
    ensures { (result ≡ place_word tag s u) × (result < 4294967296) }
{
    let Some(i) = place_of(u) else {
        return 0;
    };
    let b = NODE_END * base(tag, s, i);
    if i == 4 {
        return b + 8;
    }
    b + i
}

// The words for place i of the rules and their plan nodes, whose pivot is w.
fn enter(t: &mut [u32], i: u64, want: u64, w: u64)
    requires { (length t.old ≡ key_table_words) × (i < rule_places) × (w ≤ no_pivot) }
    ensures { Entered t.old i want w t.new }
{
    let own = key_word(EDGE_TAG, want, w, i / PER_RULE, i % PER_RULE);
    t[i as usize] = own as u32;
    let asked = key_word(PASSIVE_TAG, want, w, i / PER_RULE, want % 64);
    t[(ASKED_FROM + i) as usize] = asked as u32;
    if want < 64 {
        let at = (USES_FROM + want) as usize;
        let u = masks::with(t[at] as u64, w / NODE_END);
        t[at] = u as u32;
    }
}

// The words for the symbols, whose uses are there.
fn fill_places(t: &mut [u32])
    requires { length t.old ≡ key_table_words }
    ensures { Placed t.old 64 t.new }
{
    for s in 0..64 {
        let u = t[(USES_FROM + s) as usize] as u64;
        t[(PLACES_FROM + s) as usize] = place_word(PASSIVE_TAG, s, u) as u32;
        t[(SOUGHT_FROM + s) as usize] = place_word(EDGE_TAG, s, u) as u32;
    }
}

// The table, into words that are 0: for all rules and plan nodes the words by which active items are listed, then
// those by which they ask; for each symbol the positions at which it is wanted, and the same two words of passive
// items.
pub fn fill(g: &PlannedGrammar, t: &mut [u32])
    requires { t.old ≡ replicate key_table_words 0 }
    ensures { KeyTable g.now.grammar.words.now t.new }
{
    for i in 0..PER_RULE * layout::rule_count(g.grammar.words) {
        let want = rules::wants::want_of(g, i / PER_RULE, i % PER_RULE);
        if want != 80 {
            let w = pivot(g, i / PER_RULE, i % PER_RULE);
            enter(t, i, want, w);
        }
    }
    fill_places(t);
}

// The place of rule r and plan node p in a part of the table.
fn place(r: u64, p: u64) -> u64
    requires { (r < 64) × (p < 16) }
    ensures { result ≡ rule_place r p }
{
    PER_RULE * r + p
}

// A word for rule r and plan node p, read off a table: 0 where it has none.
fn rule_word(t: &[u32], from: u64, r: u64, p: u64) -> u64
    requires { (length t.now ≡ key_table_words) × (from ≤ asked_from) }
    ensures { (result ≡ rule_word t.now from r p) × (result < 4294967296) }
{
    if r >= 64 {
        return 0;
    }
    if p >= PER_RULE {
        return 0;
    }
    t[(from + place(r, p)) as usize] as u64
}

// And for symbol s, 0 past the symbols.
fn symbol_word(t: &[u32], from: u64, s: u64) -> u64
    requires { (length t.now ≡ key_table_words) × (from ≤ sought_from) }
    ensures { (result ≡ symbol_word t.now from s) × (result < 4294967296) }
{
    if s >= 64 {
        return 0;
    }
    t[(from + s) as usize] as u64
}

// ---- keys
// The word of an item: an active one's from word `rules` on, a passive one's from `symbols` on.
fn word_for(t: &[u32], rules: u64, symbols: u64, x: ChartItem) -> u64
    requires { (length t.now ≡ key_table_words) × (rules ≤ asked_from) × (symbols ≤ sought_from) }
    ensures { (result ≡ word_for t.now rules symbols x) × (result < 4294967296) }
{
    if x.kind == 0 {
        return rule_word(t, rules, x.of as u64, x.plan as u64);
    }
    symbol_word(t, symbols, x.of as u64)
}

// The positions at which it is asked for, if it is passive: a set, the empty one 0.
fn uses_of(t: &[u32], x: ChartItem) -> u64
    requires { length t.now ≡ key_table_words }
    ensures { result ≡ uses_of t.now x }
{
    if x.kind == 0 {
        return 0;
    }
    symbol_word(t, USES_FROM, x.of as u64)
}

// The image of a word's node by the nodes of an item, 64 where the word has no node, as the definition has it.
fn image(w: u64, x: ChartItem) -> u64
    ensures { result ≡ image_of w x.nodes }
{
    let v = w % NODE_END;
    if v >= 8 {
        return 64;
    }
    places::node_at(places::word_of(x.nodes), v)
}

// The key of position i of a passive item, if that is used, 0 for none.
fn place_key(used: u64, tag: u64, s: u64, i: u64, a: u64) -> u64
    ensures { result ≡ place_key used tag s i a }
{
    if used == 0 {
        return 0;
    }
    mix(base(tag, s, i), a)
}

// An item's keys by its words from `rules` and `symbols` on: the one by its word, which comes first, or one for each
// place that is used. A key is 0 for none, since the words of the table and the lists have it so.
fn keys_by(
    keys: &[u32; KEY_TABLE_WORDS],
    rules: u64,
    symbols: u64,
    tag: u64,
    x: ChartItem,
) -> [u64; 5]
    requires { (rules ≤ asked_from) × (symbols ≤ sought_from) }
    ensures { result ≡ keys_from keys.now rules symbols tag x }
{
    let w = word_for(keys, rules, symbols, x);
    if w != 0 {
        return [mix(w / NODE_END, image(w, x)), 0, 0, 0, 0];
    }
    let u = uses_of(keys, x);
    if u == 0 {
        return [0, 0, 0, 0, 0];
    }
    let s = x.of as u64;
    let map = places::word_of(x.nodes);
    [
        place_key(u % 2, tag, s, 0, places::node_at(map, 0)),
        place_key(u / 2 % 2, tag, s, 1, places::node_at(map, 1)),
        place_key(u / 4 % 2, tag, s, 2, places::node_at(map, 2)),
        place_key(u / 8 % 2, tag, s, 3, places::node_at(map, 3)),
        place_key(u / 16 % 2, tag, s, 4, 64),
    ]
}

// The same without an array, where a word of the table tells that there is but one key: 0 where there is none at all.
fn only_key(keys: &[u32; KEY_TABLE_WORDS], rules: u64, symbols: u64, x: ChartItem) -> Option<u64>
    requires { (rules ≤ asked_from) × (symbols ≤ sought_from) }
    ensures { IfSome result (λ key. (tag : ℕ) → (key ∷ 0 ∷ 0 ∷ 0 ∷ 0 ∷ []) ≡ keys_from keys.now rules symbols tag x) }
{
    let w = word_for(keys, rules, symbols, x);
    if w != 0 {
        return Some(mix(w / NODE_END, image(w, x)));
    }
    if uses_of(keys, x) == 0 {
        return Some(0);
    }
    None
}

// The keys that an item has.
pub fn listing(keys: &[u32; KEY_TABLE_WORDS], x: ChartItem) -> [u64; 5]
    ensures { result ≡ keys_of keys.now x }
{
    keys_by(keys, 0, PLACES_FROM, PASSIVE_TAG, x)
}

// An only one.
pub fn entry(keys: &[u32; KEY_TABLE_WORDS], x: ChartItem) -> Option<u64>
    ensures { IfSome result (λ key. (key ∷ 0 ∷ 0 ∷ 0 ∷ 0 ∷ []) ≡ keys_of keys.now x) }
{
    only_key(keys, 0, PLACES_FROM, x)
}

// The keys that its partners have.
pub fn query(keys: &[u32; KEY_TABLE_WORDS], x: ChartItem) -> [u64; 5]
    ensures { result ≡ query_of keys.now x }
{
    keys_by(keys, ASKED_FROM, SOUGHT_FROM, EDGE_TAG, x)
}

// An only one.
pub fn asked(keys: &[u32; KEY_TABLE_WORDS], x: ChartItem) -> Option<u64>
    ensures { IfSome result (λ key. (key ∷ 0 ∷ 0 ∷ 0 ∷ 0 ∷ []) ≡ query_of keys.now x) }
{
    only_key(keys, ASKED_FROM, SOUGHT_FROM, x)
}
