// Whether an item shows each open graph node of its edges, as all do that the rules make.
ghost use Rattle.std.specs.Prelude.{◌≡◌, true, ℕ, ◌≤◌, ◌<◌};
ghost use Rattle.masks.specs.Masks.{member};
ghost use Rattle.hrg.specs.Trees.{at};
ghost use Rattle.rules.specs.Coverage.{Shown, Covering};

use crate::planned::PlannedGrammar;
use crate::plans;
use crate::running::RunTables;
use agenda::ChartItem;
use places::PLACES;

// The graph nodes at those of the first n places that are in the set `chosen`. That of `joins` is of all eight places,
// exact, and with no test in its loop, so that one for both would be no plainer.
fn images(n: u64, chosen: u64, l: [u8; PLACES]) -> u64
    requires { n ≤ 8 }
    ensures { (v : ℕ) → v < 64 → member result v ≡ true → (i : ℕ) × (i < n) × (member chosen i ≡ true) × (at l i ≡ v) }
{
    let map = places::word_of(l);
    let mut set = 0;
    for i in 0..n {
        if masks::has(chosen, i) {
            set = masks::with(set, places::node_at(map, i));
        }
    }
    set
}

// The graph nodes that an active or a passive item shows: none where its rule, plan node or symbol is unknown.
fn shown(g: &PlannedGrammar, x: ChartItem) -> u64
    ensures { (v : ℕ) → v < 64 → member result v ≡ true → Shown g.now.grammar.words.now x v }
{
    let words = g.grammar.words;
    let of = x.of as u64;
    if of >= 64 {
        return 0;
    }
    if x.kind != 0 {
        return images(joins::rank_of(words, of), 255, x.nodes);
    }
    if of >= layout::rule_count(words) {
        return 0;
    }
    let p = x.plan as u64;
    if p >= layout::rule_plan(words, of) {
        return 0;
    }
    images(
        layout::rule_nodes(words, of),
        plans::open_at(g, of, p),
        x.nodes,
    )
}

// Whether x shows each open graph node of its edges. A fresh chart has items without edges only, and those have none.
// A false where it does would cost time, not an answer.
pub fn covers(t: &RunTables, x: ChartItem) -> bool
    ensures { result ≡ true → Covering t.now.tables.grammar.words.now t.now.tables.graph.now x }
{
    if x.edges == 0 {
        return true;
    }
    let nodes = joins::open_in(&t.tables, t.graph, x.edges);
    let g = PlannedGrammar {
        grammar: t.tables.grammar,
        plans: t.plans,
    };
    nodes & shown(&g, x) == nodes
}
