// The fields of a table by name, the places of its lines and their order, for every table and every number: a field
// past the end is 0. A line that is known to be there is read with no test of the table's end, by the functions in
// `_in`, which require what the others test.

#![tactic(auto)]

ghost use Rattle.std.specs.Prelude.{◌≡◌, cond, ◌+◌, ◌*◌, ◌≤◌, ◌<◌, min, get_or, length, Some, None, IfSome};
ghost use Rattle.questions.specs.declared.Due.TheVariants.{Symbol, RuleEdge, PlanLine, GraphEdge, Nothing};
ghost use Rattle.questions.specs.Layout.{symbol_place, rule_stride, rule_place, edges_from, edge_place, plans_from, plan_place, graph_edge_place, grammar_words, place_of, in_table, word_field, line_field, packed, symbol_count, rule_count, start_symbol, kind_field, rank_at, rule_symbol, rule_nodes, rule_edges, rule_plan, rule_external, edge_label, edge_node, plan_kind, plan_first, plan_second, graph_nodes, graph_edges, graph_external, graph_label, graph_node};
ghost use Rattle.questions.specs.Reading.{next};
ghost use Rattle.layout.specs.Storing.{store_at};

use questions::Due;

pub mod plans;

// Words of the largest grammar and graph: one for each place.
pub const GRAMMAR_WORDS: usize = 1665;

pub const GRAPH_WORDS: usize = 65;

// The places of the first lines of their kinds, and the lines of a rule's block: its R line, 8 E lines and 16 P lines.
// Lines that a rule gets later come behind.
const SYMBOLS: u64 = 1;

const RULES: u64 = 65;

const EDGES: u64 = 66;

const PLANS: u64 = 74;

const STRIDE: u64 = 25;

const GRAPH_EDGES: u64 = 1;

// ---- the place of a line
pub fn symbol_place(s: u64) -> u64
    requires { symbol_place s < 18446744073709551616 }
    ensures { result ≡ symbol_place s }
{
    SYMBOLS + s
}

pub fn rule_place(r: u64) -> u64
    requires { rule_place r < 18446744073709551616 }
    ensures { result ≡ rule_place r }
{
    RULES + STRIDE * r
}

// Where the E lines of rule r start.
pub fn edges_from(r: u64) -> u64
    requires { edges_from r < 18446744073709551616 }
    ensures { result ≡ edges_from r }
{
    EDGES + STRIDE * r
}

pub fn edge_place(r: u64, i: u64) -> u64
    requires { edge_place r i < 18446744073709551616 }
    ensures { result ≡ edge_place r i }
{
    EDGES + STRIDE * r + i
}

// And its P lines.
pub fn plans_from(r: u64) -> u64
    requires { plans_from r < 18446744073709551616 }
    ensures { result ≡ plans_from r }
{
    PLANS + STRIDE * r
}

pub fn plan_place(r: u64, q: u64) -> u64
    requires { plan_place r q < 18446744073709551616 }
    ensures { result ≡ plan_place r q }
{
    PLANS + STRIDE * r + q
}

pub fn graph_edge_place(e: u64) -> u64
    requires { graph_edge_place e < 18446744073709551616 }
    ensures { result ≡ graph_edge_place e }
{
    GRAPH_EDGES + e
}

// ---- the field of a line
// Field from + k of a word, which has none from 10 on.
#[tactic(auto, using(crate::proofs::Fields::field_past), unfolding(questions::specs::Layout::word_field))]
fn field_from(w: u64, from: u64, k: u64) -> u64
    requires { from ≤ 5 }
    ensures { result ≡ word_field w (from + k) }
{
    if k < 10 - from {
        (w >> (7 * (from + k))) % 128
    } else {
        0
    }
}

// Field j of the line at place p, 0 past the end, as the definition has it.
#[tactic(auto, using(crate::proofs::Fields::place_past, crate::proofs::Fields::field_there))]
pub fn field_at(t: &[u64], p: u64, j: u64) -> u64
    ensures { result ≡ line_field t.now p j }
{
    match t.get(p as usize) {
        Some(w) => field_from(*w, 0, j),
        None => 0,
    }
}

// The same of a line that the table has.
#[tactic(auto, unfolding(questions::specs::Layout::line_field, questions::specs::Layout::word_field))]
pub fn field_in(t: &[u64], p: u64, j: u64) -> u64
    requires { (p < length t.now) × (j ≤ 8) }
    ensures { result ≡ line_field t.now p j }
{
    (t[p as usize] >> (7 * j)) % 128
}

// Field from + k of the line at place base + i. A sum that saturates is past the end of every table,
// where a field is 0 as the definition has it.
#[tactic(auto, using(crate::proofs::Fields::place_past), unfolding(questions::specs::Layout::line_field))]
fn line_field(t: &[u64], base: u64, i: u64, from: u64, k: u64) -> u64
    requires { from ≤ 5 }
    ensures { result ≡ line_field t.now (base + i) (from + k) }
{
    match t.get(base.saturating_add(i) as usize) {
        Some(w) => field_from(*w, from, k),
        None => 0,
    }
}

// The same in the block of rule r: base is the place of such a line in rule 0.
#[tactic(auto, using(crate::proofs::Fields::place_past))]
fn rule_field(t: &[u64], base: u64, r: u64, i: u64, from: u64, k: u64) -> u64
    requires { from ≤ 5 }
    ensures { result ≡ line_field t.now (base + rule_stride * r + i) (from + k) }
{
    line_field(t, base.saturating_add(r.saturating_mul(STRIDE)), i, from, k)
}

// ---- a grammar table
pub fn symbol_count(g: &[u64]) -> u64
    ensures { result ≡ symbol_count g.now }
{
    field_at(g, 0, 0)
}

pub fn rule_count(g: &[u64]) -> u64
    ensures { result ≡ rule_count g.now }
{
    field_at(g, 0, 1)
}

pub fn start_symbol(g: &[u64]) -> u64
    ensures { result ≡ start_symbol g.now }
{
    field_at(g, 0, 2)
}

// 0 terminal, 1 nonterminal.
pub fn kind_of(g: &[u64], s: u64) -> u64
    ensures { result ≡ kind_field g.now s }
{
    line_field(g, SYMBOLS, s, 1, 0)
}

pub fn rank_at(g: &[u64], s: u64) -> u64
    ensures { (result ≡ rank_at g.now s) × (result ≤ 4) }
{
    line_field(g, SYMBOLS, s, 2, 0).min(4)
}

#[tactic(auto, using(crate::proofs::Fields::rule_line_lem))]
pub fn rule_symbol(g: &[u64], r: u64) -> u64
    ensures { result ≡ rule_symbol g.now r }
{
    rule_field(g, RULES, r, 0, 1, 0)
}

#[tactic(auto, using(crate::proofs::Fields::rule_line_lem))]
pub fn rule_nodes(g: &[u64], r: u64) -> u64
    ensures { result ≡ rule_nodes g.now r }
{
    rule_field(g, RULES, r, 0, 2, 0)
}

#[tactic(auto, using(crate::proofs::Fields::rule_line_lem))]
pub fn rule_edges(g: &[u64], r: u64) -> u64
    ensures { result ≡ rule_edges g.now r }
{
    rule_field(g, RULES, r, 0, 3, 0)
}

#[tactic(auto, using(crate::proofs::Fields::rule_line_lem))]
pub fn rule_plan(g: &[u64], r: u64) -> u64
    ensures { result ≡ rule_plan g.now r }
{
    rule_field(g, RULES, r, 0, 4, 0)
}

#[tactic(auto, using(crate::proofs::Fields::rule_line_lem))]
pub fn rule_external(g: &[u64], r: u64, k: u64) -> u64
    ensures { result ≡ rule_external g.now r k }
{
    rule_field(g, RULES, r, 0, 5, k)
}

pub fn edge_label(g: &[u64], r: u64, i: u64) -> u64
    ensures { result ≡ edge_label g.now r i }
{
    rule_field(g, EDGES, r, i, 0, 0)
}

pub fn edge_node(g: &[u64], r: u64, i: u64, k: u64) -> u64
    ensures { result ≡ edge_node g.now r i k }
{
    rule_field(g, EDGES, r, i, 1, k)
}

pub fn plan_kind(g: &[u64], r: u64, q: u64) -> u64
    ensures { result ≡ plan_kind g.now r q }
{
    rule_field(g, PLANS, r, q, 0, 0)
}

pub fn plan_first(g: &[u64], r: u64, q: u64) -> u64
    ensures { result ≡ plan_first g.now r q }
{
    rule_field(g, PLANS, r, q, 1, 0)
}

pub fn plan_second(g: &[u64], r: u64, q: u64) -> u64
    ensures { result ≡ plan_second g.now r q }
{
    rule_field(g, PLANS, r, q, 2, 0)
}

// ---- of lines that a grammar table has, read with no test of its end
fn rule_field_in(g: &[u64], r: u64, j: u64) -> u64
    requires { (rule_place r < length g.now) × (j ≤ 8) }
    ensures { result ≡ line_field g.now (rule_place r) j }
{
    field_in(g, RULES + STRIDE * r, j)
}

fn edge_field_in(g: &[u64], r: u64, i: u64, j: u64) -> u64
    requires { (edge_place r i < length g.now) × (j ≤ 8) }
    ensures { result ≡ line_field g.now (edge_place r i) j }
{
    field_in(g, EDGES + STRIDE * r + i, j)
}

fn plan_field_in(g: &[u64], r: u64, q: u64, j: u64) -> u64
    requires { (plan_place r q < length g.now) × (j ≤ 8) }
    ensures { result ≡ line_field g.now (plan_place r q) j }
{
    field_in(g, PLANS + STRIDE * r + q, j)
}

pub fn symbol_count_in(g: &[u64]) -> u64
    requires { 0 < length g.now }
    ensures { result ≡ symbol_count g.now }
{
    field_in(g, 0, 0)
}

pub fn rule_count_in(g: &[u64]) -> u64
    requires { 0 < length g.now }
    ensures { result ≡ rule_count g.now }
{
    field_in(g, 0, 1)
}

pub fn symbol_kind_in(g: &[u64], s: u64) -> u64
    requires { symbol_place s < length g.now }
    ensures { result ≡ kind_field g.now s }
{
    field_in(g, SYMBOLS + s, 1)
}

pub fn symbol_rank_in(g: &[u64], s: u64) -> u64
    requires { symbol_place s < length g.now }
    ensures { (result ≡ rank_at g.now s) × (result ≤ 4) }
{
    field_in(g, SYMBOLS + s, 2).min(4)
}

pub fn rule_symbol_in(g: &[u64], r: u64) -> u64
    requires { rule_place r < length g.now }
    ensures { result ≡ rule_symbol g.now r }
{
    rule_field_in(g, r, 1)
}

pub fn rule_nodes_in(g: &[u64], r: u64) -> u64
    requires { rule_place r < length g.now }
    ensures { result ≡ rule_nodes g.now r }
{
    rule_field_in(g, r, 2)
}

pub fn rule_edges_in(g: &[u64], r: u64) -> u64
    requires { rule_place r < length g.now }
    ensures { result ≡ rule_edges g.now r }
{
    rule_field_in(g, r, 3)
}

pub fn rule_plan_in(g: &[u64], r: u64) -> u64
    requires { rule_place r < length g.now }
    ensures { result ≡ rule_plan g.now r }
{
    rule_field_in(g, r, 4)
}

pub fn rule_external_in(g: &[u64], r: u64, k: u64) -> u64
    requires { (rule_place r < length g.now) × (k < 4) }
    ensures { result ≡ rule_external g.now r k }
{
    rule_field_in(g, r, 5 + k)
}

pub fn edge_label_in(g: &[u64], r: u64, i: u64) -> u64
    requires { edge_place r i < length g.now }
    ensures { result ≡ edge_label g.now r i }
{
    edge_field_in(g, r, i, 0)
}

pub fn edge_node_in(g: &[u64], r: u64, i: u64, k: u64) -> u64
    requires { (edge_place r i < length g.now) × (k < 8) }
    ensures { result ≡ edge_node g.now r i k }
{
    edge_field_in(g, r, i, 1 + k)
}

pub fn plan_kind_in(g: &[u64], r: u64, q: u64) -> u64
    requires { plan_place r q < length g.now }
    ensures { result ≡ plan_kind g.now r q }
{
    plan_field_in(g, r, q, 0)
}

pub fn plan_first_in(g: &[u64], r: u64, q: u64) -> u64
    requires { plan_place r q < length g.now }
    ensures { result ≡ plan_first g.now r q }
{
    plan_field_in(g, r, q, 1)
}

pub fn plan_second_in(g: &[u64], r: u64, q: u64) -> u64
    requires { plan_place r q < length g.now }
    ensures { result ≡ plan_second g.now r q }
{
    plan_field_in(g, r, q, 2)
}

// ---- a graph table
pub fn graph_nodes(h: &[u64]) -> u64
    ensures { result ≡ graph_nodes h.now }
{
    field_at(h, 0, 0)
}

pub fn graph_edges(h: &[u64]) -> u64
    ensures { result ≡ graph_edges h.now }
{
    field_at(h, 0, 1)
}

pub fn graph_external(h: &[u64], k: u64) -> u64
    ensures { result ≡ graph_external h.now k }
{
    line_field(h, 0, 0, 2, k)
}

pub fn graph_label(h: &[u64], e: u64) -> u64
    ensures { result ≡ graph_label h.now e }
{
    line_field(h, GRAPH_EDGES, e, 0, 0)
}

pub fn graph_node(h: &[u64], e: u64, k: u64) -> u64
    ensures { result ≡ graph_node h.now e k }
{
    line_field(h, GRAPH_EDGES, e, 1, k)
}

// ---- of lines that a graph table has
pub fn graph_nodes_in(h: &[u64]) -> u64
    requires { 0 < length h.now }
    ensures { result ≡ graph_nodes h.now }
{
    field_in(h, 0, 0)
}

pub fn graph_edges_in(h: &[u64]) -> u64
    requires { 0 < length h.now }
    ensures { result ≡ graph_edges h.now }
{
    field_in(h, 0, 1)
}

pub fn graph_label_in(h: &[u64], e: u64) -> u64
    requires { graph_edge_place e < length h.now }
    ensures { result ≡ graph_label h.now e }
{
    field_in(h, GRAPH_EDGES + e, 0)
}

pub fn graph_node_in(h: &[u64], e: u64, k: u64) -> u64
    requires { (graph_edge_place e < length h.now) × (k < 8) }
    ensures { result ≡ graph_node h.now e k }
{
    field_in(h, GRAPH_EDGES + e, 1 + k)
}

// ---- the line due
// Whether a largest table has a place for the line: by cases, since each kind of line has its own bounds.
#[tactic(auto, unfolding(questions::specs::Layout::in_table))]
pub fn in_table(due: Due) -> bool
    ensures { result ≡ in_table due }
{
    match due {
        Due::Grammar | Due::Graph | Due::Nothing => true,
        Due::Symbol(n) | Due::Rule(n) | Due::GraphEdge(n) => n < 64,
        Due::RuleEdge(r, i) => r < 64 && i < 8,
        Due::PlanLine(r, q) => r < 64 && q < 16,
    }
}

// The place of the line, if it is in a table.
#[tactic(auto, unfolding(questions::specs::Layout::in_table, questions::specs::Layout::place_of))]
pub fn place_in_table(due: Due) -> Option<u64>
    ensures { (result ≡ cond (in_table due) (Some (place_of due)) None) × IfSome result (λ p. p < grammar_words) }
{
    if !in_table(due) {
        return None;
    }
    let p = match due {
        Due::Grammar | Due::Graph | Due::Nothing => 0,
        Due::Symbol(s) => symbol_place(s),
        Due::Rule(r) => rule_place(r),
        Due::RuleEdge(r, i) => edge_place(r, i),
        Due::PlanLine(r, q) => plan_place(r, q),
        Due::GraphEdge(e) => graph_edge_place(e),
    };
    Some(p)
}

// The same as a number for every line: 0 where it is in no table.
pub fn place_of(due: Due) -> u64
    ensures { (result ≡ cond (in_table due) (place_of due) 0) × (result < grammar_words) }
{
    place_in_table(due).unwrap_or(0)
}

// ---- the order of lines
#[tactic(auto, unfolding(questions::specs::Reading::next))]
fn after_symbol(t: &[u64], s: u64) -> Due
    requires { s ≤ 63 }
    ensures { result ≡ next t.now (Symbol s) }
{
    if s + 1 < symbol_count(t).min(64) {
        Due::Symbol(s + 1)
    } else {
        Due::Rule(0)
    }
}

#[tactic(auto, unfolding(questions::specs::Reading::next))]
fn after_rule_edge(t: &[u64], r: u64, i: u64) -> Due
    requires { i ≤ 7 }
    ensures { result ≡ next t.now (RuleEdge r i) }
{
    if i + 1 < rule_edges(t, r).min(8) {
        Due::RuleEdge(r, i + 1)
    } else {
        Due::PlanLine(r, 0)
    }
}

#[tactic(auto, unfolding(questions::specs::Reading::next))]
fn after_plan_line(t: &[u64], r: u64, q: u64) -> Due
    requires { (r ≤ 63) × (q ≤ 15) }
    ensures { result ≡ next t.now (PlanLine r q) }
{
    if q + 1 < rule_plan(t, r).min(16) {
        Due::PlanLine(r, q + 1)
    } else if r + 1 < rule_count(t).min(64) {
        Due::Rule(r + 1)
    } else {
        Due::Nothing
    }
}

#[tactic(auto, unfolding(questions::specs::Reading::next))]
fn after_graph_edge(t: &[u64], e: u64) -> Due
    requires { e ≤ 63 }
    ensures { result ≡ next t.now (GraphEdge e) }
{
    if e + 1 < graph_edges(t).min(64) {
        Due::GraphEdge(e + 1)
    } else {
        Due::Nothing
    }
}

// What is due after a line, by the table with that line; nothing after a line that is in no table.
#[tactic(auto, unfolding(questions::specs::Layout::in_table, questions::specs::Reading::next))]
pub fn next_due(t: &[u64], due: Due) -> Due
    ensures { result ≡ cond (in_table due) (next t.now due) Nothing }
{
    if !in_table(due) {
        return Due::Nothing;
    }
    match due {
        Due::Grammar => Due::Symbol(0),
        Due::Symbol(s) => after_symbol(t, s),
        Due::Rule(r) => Due::RuleEdge(r, 0),
        Due::RuleEdge(r, i) => after_rule_edge(t, r, i),
        Due::PlanLine(r, q) => after_plan_line(t, r, q),
        Due::Graph => Due::GraphEdge(0),
        Due::GraphEdge(e) => after_graph_edge(t, e),
        Due::Nothing => Due::Nothing,
    }
}

// ---- fields, and a line stored
// Field k, 0 where the line has none.
pub fn field(f: &[u64], k: u64) -> u64
    ensures { result ≡ get_or f.now k 0 }
{
    f.get(k as usize).copied().unwrap_or(0)
}

// The word of a line with these fields: its last field first.
#[tactic(auto, using(crate::proofs::Fields::packing), unfolding(questions::specs::Layout::packed))]
fn line_word(f: &[u64]) -> u64
    ensures { result ≡ packed 9 f.now }
{
    let mut w: u64 = 0;
    for k in (0..9).rev() {
        w = field(f, k) % 128 + 128 * w;
    }
    w
}

// The line's fields at its place; a table without that place stays as it is.
#[tactic(auto, unfolding(crate::specs::Storing::store_at, questions::specs::Layout::stored))]
pub fn store(t: &mut [u64], due: Due, f: &[u64])
    ensures { t.new ≡ store_at t.old due f.now }
{
    if let Some(p) = place_in_table(due)
        && p < t.len() as u64
    {
        t[p as usize] = line_word(f);
    }
}
