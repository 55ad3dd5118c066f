// The passive records of the applications, from the top: one list with those that are listed in front and those that
// are due at its end.
ghost use Rattle.std.specs.Prelude.{[], ◌∷◌, ◌+◌, ◌-◌, ◌≤◌, length};
ghost use Rattle.hrg.specs.Grammars.{kind_of, right_of, edge_at};
ghost use Rattle.questions.specs.Abstract.{grammar_of};
ghost use Rattle.joins.specs.Joins.{KnownEdge};
ghost use Rattle.records.specs.Words.{record_at};
ghost use Rattle.extraction.specs.Listing.{cons_if, children_from, children_at, listing};
ghost use Rattle.extractor.specs.Lists.{Pushed, ListedIn};

use joins::accepted::AcceptedGrammar;

// The partner b of edge i of rule r in front of what is due from `top` on, if the edge is nonterminal.
fn push_part(grammar: &[u64], r: u64, i: u64, b: u64, list: &mut [u64], top: usize) -> usize
    requires { KnownEdge grammar.now r i × (1 ≤ top) × (top ≤ length list.old) }
    ensures { Pushed (cons_if (kind_of (grammar_of grammar.now) (edge_at (right_of (grammar_of grammar.now) r).edges i).label) b []) list.old top list.new result }
{
    if !crate::lookup::is_nonterminal(grammar, r, i) {
        return top;
    }
    list[top - 1] = b;
    top - 1
}

// The partners of all nonterminal edges of rule r: from the last edge on, so that the first one's comes on top.
fn push_parts(
    grammar: &AcceptedGrammar,
    r: u64,
    bs: &[u64; 8],
    list: &mut [u64],
    top: usize,
) -> usize
    requires { (8 ≤ top) × (top ≤ length list.old) }
    ensures { Pushed (children_from (grammar_of grammar.now.words.now) bs.now (right_of (grammar_of grammar.now.words.now) r).edges 0) list.old top list.new result × (top ≤ result + 8) }
{
    let mut t = top;
    let edges = crate::lookup::edge_count(grammar, r);
    for i in (0..edges).rev() {
        t = push_part(grammar.words, r, i, bs[i as usize], list, t);
    }
    t
}

// The records of the applications right under that of the passive record at j.
fn push_children(
    grammar: &AcceptedGrammar,
    chart: &[u64],
    j: u64,
    list: &mut [u64],
    top: usize,
) -> usize
    requires { (8 ≤ top) × (top ≤ length list.old) }
    ensures { Pushed (children_at (λ k. record_at chart.now k) (grammar_of grammar.now.words.now) j) list.old top list.new result × (top ≤ result + 8) }
{
    let r = crate::partners::rule_at(chart, j);
    let mut bs = [0u64; 8];
    crate::partners::partners_at(grammar, chart, r, j, &mut bs);
    push_parts(grammar, r, &bs, list, top)
}

// Lists the applications under the passive record at j and answers how many, unless they are more than the list has
// places but eight, which are always free. The list holds what is due besides: a worklist, so that the loop is a
// `while`.
pub fn list_applications(
    grammar: &AcceptedGrammar,
    chart: &[u64],
    j: u64,
    list: &mut [u64],
) -> Option<usize>
    requires { 9 ≤ length list.old }
    ensures { ListedIn (length list.old - 8) (listing (λ k. record_at chart.now k) (grammar_of grammar.now.words.now) (length list.old - 8) (j ∷ [])) list.new result }
{
    let size = list.len();
    list[size - 1] = j;
    let mut count: usize = 0;
    let mut top = size - 1;
    while top < size {
        let x = list[top];
        list[count] = x;
        count += 1;
        top = push_children(grammar, chart, x, list, top + 1);
        if top < count + 8 {
            return None;
        }
    }
    Some(count)
}
