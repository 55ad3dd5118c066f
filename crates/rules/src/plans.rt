// What the plan node above each asks for, and the rule nodes that are open there: worked out once, for all pairs.
ghost use Rattle.std.specs.Prelude.{◌≡◌, ◌+◌, ◌*◌, ◌<◌, length, replicate};
ghost use Rattle.questions.specs.Layout.{rule_count, plan_kind};
ghost use Rattle.joins.specs.Joins.{KnownNode, KnownEdge, OpenAt};
ghost use Rattle.rules.specs.Rules.{Above};
ghost use Rattle.rules.specs.Plans.{plan_table_words, edge_word, second_word, ParentAt, PlanTable};
ghost use Rattle.rules.specs.Filling.{Placed, Put, ToldTo};

use crate::planned::PlannedGrammar;
use joins::accepted::AcceptedGrammar;

// A plan node as one number (`join_word`), which has 16 for its number where there is none, as it has in the table's
// words, and the rule nodes that are open there.
#[derive(Clone, Copy)]
pub struct Parent {
    pub word: u64,
    pub stays: u64,
}

// A plan node's word modulo this is its number; the rest is what it asks for beside an item.
pub const NODES: u64 = 32;

// .. and that modulo this is one of the three kinds below; the rest tells which edge or child.
pub const KINDS: u64 = 4;

// it asks for an edge, which it introduces
pub(crate) const ASKS_EDGE: u64 = 1;
// it asks for an item at its second child
pub(crate) const ASKS_SECOND: u64 = 2;
// it asks for an item at its first child, as seen from the second
pub const ASKS_FIRST: u64 = 3;

// ---- the table
// Words of the table: one for each plan node of each rule, in two halves.
pub const PLAN_TABLE_WORDS: usize = 2048;

// Where the second half begins: the rule nodes that stay open.
const STAYS_FROM: usize = 1024;

// How many plan nodes a rule has in it.
pub const PER_RULE: u64 = 16;

// The label of edge i of rule r, and its nodes.
fn edge_word(g: &[u64], r: u64, i: u64) -> u64
    requires { KnownEdge g.now r i }
    ensures { (result ≡ edge_word g.now r i) × (result < 16777216) }
{
    layout::edge_label_in(g, r, i) + 64 * joins::nodes_word(g, r, i)
}

// What plan node q asks for beside an item at its first child.
fn second_word(g: &[u64], r: u64, q: u64) -> u64
    requires { KnownNode g.now r q × (plan_kind g.now r q ≡ 0 → ⊥) }
    ensures { (result ≡ second_word g.now r q) × (result < 67108864) }
{
    let second = layout::plan_second_in(g, r, q);
    match layout::plan_kind_in(g, r, q) {
        1 => ASKS_EDGE + KINDS * edge_word(g, r, second),
        _ => ASKS_SECOND + KINDS * second,
    }
}

// The words of plan node p of rule r, which is below q: what q asks for beside an item there, and the rule nodes that
// are open at q.
fn put(t: &mut [u32], r: u64, p: u64, q: u64, w: u64, o: u64)
    requires { (length t.old ≡ plan_table_words) × (r < 64) × (p < 16) × (q < 16) × (w < 67108864) × (o < 4294967296) }
    ensures { Placed t.old t.new (16 * r + p) (q + 32 * w) o }
{
    let i = (PER_RULE * r + p) as usize;
    t[i] = (q + NODES * w) as u32;
    t[STAYS_FROM + i] = o as u32;
}

// The children of plan node q, at which the rule nodes o are open, are told of it.
fn put_children(g: &[u64], r: u64, q: u64, o: u64, t: &mut [u32])
    requires { KnownNode g.now r q × (length t.old ≡ plan_table_words) × (o < 4294967296) }
    ensures { Put g.now r q o t.old t.new }
{
    let first = layout::plan_first_in(g, r, q);
    match layout::plan_kind_in(g, r, q) {
        0 => {}
        1 => put(t, r, first, q, second_word(g, r, q), o),
        _ => {
            put(t, r, first, q, second_word(g, r, q), o);
            let second = layout::plan_second_in(g, r, q);
            put(t, r, second, q, ASKS_FIRST + KINDS * first, o);
        }
    }
}

// The plan nodes of rule r, which have lower numbers than their parents.
fn fill_rule(g: &AcceptedGrammar, r: u64, t: &mut [u32])
    requires { (r < rule_count g.now.words.now) × ToldTo g.now.words.now t.old r 0 }
    ensures { ToldTo g.now.words.now t.new (r + 1) 0 }
{
    let n = layout::rule_plan(g.words, r);
    let mut ms = [0u64; 16];
    for q in 0..n {
        let m = joins::node_below(g.words, r, q, &ms);
        ms[q as usize] = m;
        let o = joins::open_at(g.words, r, q, m);
        put_children(g.words, r, q, o, t);
    }
}

// The table for all rules and plan nodes, in two halves; where no plan node is above it stays as it was made, all
// zeros. A slice: of the words of an array that a loop hands on no bound is known, which the table's readers need.
pub fn fill(g: &AcceptedGrammar, t: &mut [u32])
    requires { t.old ≡ replicate plan_table_words 0 }
    ensures { PlanTable g.now.words.now t.new }
{
    for r in 0..layout::rule_count(g.words) {
        fill_rule(g, r, t);
    }
}

// ---- read off the table
// The plan node above p in rule r and the rule nodes that are open there, for any r and p; a word 0 in the first half
// of the table says that there is none.
pub fn parent_in(g: &PlannedGrammar, r: u64, p: u64) -> Parent
    ensures { ParentAt g.now.grammar.words.now r p result }
{
    let none = Parent {
        word: PER_RULE,
        stays: 0,
    };
    if r >= 64 {
        return none;
    }
    if p >= PER_RULE {
        return none;
    }
    let i = (PER_RULE * r + p) as usize;
    let w = g.plans[i] as u64;
    if w == 0 {
        return none;
    }
    Parent {
        word: w,
        stays: g.plans[STAYS_FROM + i] as u64,
    }
}

// The plan node above p in rule r: any rule and a plan node that may not be there.
pub fn place_above(g: &PlannedGrammar, r: u64, p: u64) -> Option<u64>
    ensures { Above g.now.grammar.words.now r p result }
{
    let node = parent_in(g, r, p).word % NODES;
    if node < PER_RULE { Some(node) } else { None }
}

// The open rule nodes at plan node p: those that its first child is told of, and none at a leaf.
pub fn open_at(g: &PlannedGrammar, r: u64, p: u64) -> u64
    requires { KnownNode g.now.grammar.words.now r p }
    ensures { OpenAt g.now.grammar.words.now r p result }
{
    let words = g.grammar.words;
    match layout::plan_kind_in(words, r, p) {
        0 => 0,
        _ => parent_in(g, r, layout::plan_first_in(words, r, p)).stays,
    }
}
