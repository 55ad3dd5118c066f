// What stands for the edges of an application: the partners of the records from its root item down.
ghost use Rattle.std.specs.Prelude.{◌≡◌, replicate};
ghost use Rattle.hrg.specs.Grammars.{plan_of};
ghost use Rattle.questions.specs.Abstract.{grammar_of};
ghost use Rattle.joins.specs.Joins.{KnownNode};
ghost use Rattle.records.specs.Words.{record_at};
ghost use Rattle.extraction.specs.Extraction.{partners_within, rule_at, partners_at};

use joins::accepted::AcceptedGrammar;

// Puts the partners of the edges that are introduced from plan node p of rule r down, with so many levels left and the
// record at j, over those in bs. Its partners are read only where the plan node has something below it.
fn partners_within(
    grammar: &[u64],
    chart: &[u64],
    r: u64,
    left: u64,
    p: u64,
    j: u64,
    bs: &mut [u64; 8],
)
    requires { KnownNode grammar.now r p }
    ensures { bs.new ≡ partners_within (λ k. record_at chart.now k) (plan_of (grammar_of grammar.now) r) left p j bs.old }
{
    if left == 0 {
        return;
    }
    let line = crate::lookup::plan_line(grammar, r, p);
    let kind = line.kind;
    match kind {
        0 => {}
        1 => {
            let i = line.second as usize;
            let first = records::first_at(chart, j);
            bs[i] = records::second_at(chart, j);
            partners_within(grammar, chart, r, left - 1, line.first, first, bs);
        }
        _ => {
            let first = records::first_at(chart, j);
            let second = records::second_at(chart, j);
            partners_within(grammar, chart, r, left - 1, line.first, first, bs);
            partners_within(grammar, chart, r, left - 1, line.second, second, bs);
        }
    }
}

// The rule of the passive record at j: that of its root item.
pub(crate) fn rule_at(chart: &[u64], j: u64) -> u64
    ensures { result ≡ rule_at (λ k. record_at chart.now k) j }
{
    records::of_at(chart, records::first_at(chart, j))
}

// For each edge of its rule r, in eight places that were 0: a graph edge, or the place of a passive record.
pub(crate) fn partners_at(
    grammar: &AcceptedGrammar,
    chart: &[u64],
    r: u64,
    j: u64,
    bs: &mut [u64; 8],
)
    requires { (r ≡ rule_at (λ k. record_at chart.now k) j) × (bs.old ≡ replicate 8 0) }
    ensures { bs.new ≡ partners_at (λ k. record_at chart.now k) (grammar_of grammar.now.words.now) j }
{
    let n = crate::lookup::plan_size(grammar, r);
    if n == 0 {
        return;
    }
    partners_within(
        grammar.words,
        chart,
        r,
        n,
        n - 1,
        records::first_at(chart, j),
        bs,
    );
}
