// Question 7: the children and the introduced edges of a rule's plan lines, counted, or carried as sets from line to
// line.
ghost use Rattle.std.specs.Prelude.{◌≡◌, ◌++◌, ◌&&◌, ◌+◌, ◌<◌, ◌≤◌, length, eqb, leb};
ghost use Rattle.hrg.specs.Counts.{occurs};
ghost use Rattle.questions.specs.Layout.{rule_edges, plan_place, plan_kind, plan_first, plan_second};
ghost use Rattle.questions.specs.Questions.{children_of, introduced_by, children_before, plan_so_far, plan_whole};
ghost use Rattle.tables.specs.Marks.{marks};
ghost use Rattle.tables.specs.Plans.{PlanRoom, Marked, named_in, named_before, introduce_fits, join_fits, Takes, Keeps};
ghost use Rattle.tables.specs.Concluding.{Count};

use crate::marks::has_all;
use layout::plans::{PlanLine, line_in};

// The children and the introduced edges of some plan lines, as sets.
#[derive(Clone, Copy)]
pub(crate) struct PlanMarks {
    pub(crate) children: u64,
    pub(crate) introduced: u64,
}

// How often c is a child in a plan line: a count, so that 0 is none.
fn child_in(line: PlanLine, c: u64) -> u64
    ensures { (result ≡ occurs c (children_of line.kind line.first line.second)) × (result ≤ 2) }
{
    match line.kind {
        1 => u64::from(c == line.first),
        2 => u64::from(c == line.first) + u64::from(c == line.second),
        _ => 0,
    }
}

// How often the edge i is introduced by a plan line: a count as well.
fn introduced_in(line: PlanLine, i: u64) -> u64
    ensures { (result ≡ occurs i (introduced_by line.kind line.first line.second)) × (result ≤ 1) }
{
    match line.kind {
        1 => u64::from(i == line.second),
        _ => 0,
    }
}

// What a plan line may name: a child, or the edge that it introduces. Both are numbers, so that a case tells which.
#[derive(Clone, Copy)]
enum Named {
    Child(u64),
    Edge(u64),
}

// How often a plan line names it.
fn named_in(line: PlanLine, what: Named) -> u64
    ensures { (result ≡ named_in line.kind line.first line.second what) × (result ≤ 2) }
{
    match what {
        Named::Child(c) => child_in(line, c),
        Named::Edge(i) => introduced_in(line, i),
    }
}

// How often the first n plan lines of rule r name it.
fn named_before(g: &[u64], r: u64, n: u64, what: Named) -> u64
    requires { PlanRoom g.now r n }
    ensures { (result ≡ named_before g.now r n what) × (result ≤ 32) }
{
    let mut sum: u64 = 0;
    for q in 0..n {
        sum += named_in(line_in(g, r, q), what);
    }
    sum
}

// How often c is a child in the first q plan lines and in this one behind them.
fn child_times(g: &[u64], r: u64, q: u64, line: PlanLine, c: u64) -> u64
    requires { PlanRoom g.now r q }
    ensures { result ≡ occurs c (children_before g.now r q ++ children_of line.kind line.first line.second) }
{
    named_before(g, r, q, Named::Child(c)) + child_in(line, c)
}

// ---- a plan line over children keeps the plan rules so far
fn introduce_so_far(g: &[u64], r: u64, q: u64, line: PlanLine) -> bool
    requires { PlanRoom g.now r q × (line.kind ≡ 1) }
    ensures { result ≡ plan_so_far g.now r q 1 line.first line.second }
{
    let times = child_times(g, r, q, line, line.first);
    let edges = layout::rule_edges(g, r);
    let before = named_before(g, r, q, Named::Edge(line.second));
    line.first < q && times == 1 && line.second < edges && before == 0
}

fn join_so_far(g: &[u64], r: u64, q: u64, line: PlanLine) -> bool
    requires { PlanRoom g.now r q × (line.kind ≡ 2) }
    ensures { result ≡ plan_so_far g.now r q 2 line.first line.second }
{
    let one = child_times(g, r, q, line, line.first);
    let other = child_times(g, r, q, line, line.second);
    line.first < q && line.second < q && one == 1 && other == 1
}

// The same for a line of any kind; one of an unknown kind does not.
#[tactic(auto, using(crate::proofs::Planning::leaf_ok))]
pub(crate) fn so_far(g: &[u64], r: u64, q: u64, line: PlanLine) -> bool
    requires { PlanRoom g.now r q }
    ensures { result ≡ (leb line.kind 2 && plan_so_far g.now r q line.kind line.first line.second) }
{
    match line.kind {
        0 => line.first == 0 && line.second == 0,
        1 => introduce_so_far(g, r, q, line),
        2 => join_so_far(g, r, q, line),
        _ => false,
    }
}

// ---- the plan is whole at its last line
// m with the children of a plan line.
fn mark_children(m: u64, line: PlanLine) -> u64
    ensures { result ≡ marks m (children_of line.kind line.first line.second) }
{
    match line.kind {
        1 => masks::with(m, line.first),
        2 => masks::with(masks::with(m, line.first), line.second),
        _ => m,
    }
}

// m with the edge that it introduces.
fn mark_introduced(m: u64, line: PlanLine) -> u64
    ensures { result ≡ marks m (introduced_by line.kind line.first line.second) }
{
    match line.kind {
        1 => masks::with(m, line.second),
        _ => m,
    }
}

// The sets of the first n plan lines of rule r.
fn marks_before(g: &[u64], r: u64, n: u64) -> PlanMarks
    requires { PlanRoom g.now r n }
    ensures { Marked g.now r n result.children result.introduced }
{
    let mut children: u64 = 0;
    let mut introduced: u64 = 0;
    for q in 0..n {
        let line = line_in(g, r, q);
        children = mark_children(children, line);
        introduced = mark_introduced(introduced, line);
    }
    PlanMarks {
        children,
        introduced,
    }
}

// Whether every plan node but the last is a child, and each edge is introduced.
pub(crate) fn whole(g: &[u64], r: u64, q: u64, line: PlanLine) -> bool
    requires { PlanRoom g.now r q }
    ensures { result ≡ plan_whole g.now r q line.kind line.first line.second }
{
    let before = marks_before(g, r, q);
    let children = mark_children(before.children, line);
    let introduced = mark_introduced(before.introduced, line);
    has_all(children, q) && has_all(introduced, layout::rule_edges(g, r).min(8))
}

// ---- a line judged by the sets of the lines before it: where a table is checked they are carried from line to line
// The sets with line q, a leaf, where it is kept.
fn with_leaf(named: PlanMarks, line: PlanLine) -> Option<PlanMarks>
    ensures { Takes (eqb line.first 0 && eqb line.second 0) 0 line.first line.second named result }
{
    if line.first == 0 && line.second == 0 {
        return Some(named);
    }
    None
}

// With line q, which introduces the edge `second` over the child `first`.
#[tactic(auto, unfolding(crate::specs::Plans::introduce_fits))]
fn with_introduce(q: u64, edges: u64, named: PlanMarks, line: PlanLine) -> Option<PlanMarks>
    ensures { Takes (introduce_fits q edges named.children named.introduced line.first line.second) 1 line.first line.second named result }
{
    if q <= line.first {
        return None;
    }
    if masks::has(named.children, line.first) {
        return None;
    }
    if edges <= line.second {
        return None;
    }
    if masks::has(named.introduced, line.second) {
        return None;
    }
    Some(PlanMarks {
        children: masks::with(named.children, line.first),
        introduced: masks::with(named.introduced, line.second),
    })
}

// With line q, which joins the children `first` and `second`.
#[tactic(auto, using(crate::proofs::Covering::marked_by_lem), unfolding(crate::specs::Plans::join_fits))]
fn with_join(q: u64, named: PlanMarks, line: PlanLine) -> Option<PlanMarks>
    ensures { Takes (join_fits q named.children line.first line.second) 2 line.first line.second named result }
{
    if q <= line.first {
        return None;
    }
    if masks::has(named.children, line.first) {
        return None;
    }
    if q <= line.second {
        return None;
    }
    let more = masks::with(named.children, line.first);
    if masks::has(more, line.second) {
        return None;
    }
    Some(PlanMarks {
        children: masks::with(more, line.second),
        introduced: named.introduced,
    })
}

// With line q of rule r, as it stands in the table.
pub(crate) fn with_line(
    t: &[u64],
    r: u64,
    q: u64,
    edges: u64,
    named: PlanMarks,
) -> Option<PlanMarks>
    requires { PlanRoom t.now r (q + 1) × Count edges (rule_edges t.now r) 8 × Marked t.now r q named.children named.introduced }
    ensures { Keeps t.now r q result }
{
    let line = line_in(t, r, q);
    match line.kind {
        0 => with_leaf(named, line),
        1 => with_introduce(q, edges, named, line),
        2 => with_join(q, named, line),
        _ => None,
    }
}
