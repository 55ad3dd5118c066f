// The numbers in an application's row: a graph edge for each terminal edge, a later application for each nonterminal
// one.
ghost use Rattle.std.specs.Prelude.{◌≡◌, cond, ◌+◌, ◌≤◌, ◌<◌, length, get_or};
ghost use Rattle.hrg.specs.Grammars.{right_of};
ghost use Rattle.questions.specs.Abstract.{grammar_of};
ghost use Rattle.extractor.specs.RowFacts.{SizesFit, NumberedBy};

use joins::accepted::AcceptedGrammar;

// The number for an edge with the partner b: that, or the next application where a tree stands for the edge.
fn number_of(tree: bool, b: u64, next: u64) -> u64
    ensures { result ≡ cond tree next b }
{
    if tree { next } else { b }
}

// The application that is next behind an edge: a tree has as many as its size says.
fn next_after(tree: bool, sizes: &[u64], next: u64) -> u64
    requires { SizesFit sizes.now × (next < length sizes.now) }
    ensures { (result ≡ cond tree (next + get_or sizes.now next 0) next) × (next ≤ result) × (result < length sizes.now) }
{
    if tree {
        next + sizes[next as usize]
    } else {
        next
    }
}

// Puts the numbers for all edges of rule r into the fields from `at` on, where the application `from` is next, and
// answers the first application that is not under this one.
pub(crate) fn number_parts(
    grammar: &AcceptedGrammar,
    r: u64,
    edges: u64,
    bs: &[u64; 8],
    sizes: &[u64],
    from: u64,
    fields: &mut [u64; 18],
    at: u64,
) -> u64
    requires { (edges ≡ length (right_of (grammar_of grammar.now.words.now) r).edges) × (edges ≤ 8) × SizesFit sizes.now × (from < length sizes.now) × (at + edges ≤ 18) }
    ensures { NumberedBy (grammar_of grammar.now.words.now) bs.now sizes.now (right_of (grammar_of grammar.now.words.now) r).edges from fields.old at fields.new result }
{
    let mut next = from;
    for i in 0..edges {
        let tree = crate::lookup::is_nonterminal(grammar.words, r, i);
        fields[(at + i) as usize] = number_of(tree, bs[i as usize], next);
        next = next_after(tree, sizes, next);
    }
    next
}
