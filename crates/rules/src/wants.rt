// What an active item at a plan node can be joined with above it, as one number, by the word of that plan node.
ghost use Rattle.std.specs.Prelude.{◌≡◌};
ghost use Rattle.questions.specs.Abstract.{grammar_of};
ghost use Rattle.rules.specs.Wants.{want_of, want_by};

use crate::planned::PlannedGrammar;
use crate::plans::{self, ASKS_EDGE, KINDS, NODES, PER_RULE};

// What the plan node of the word w wants, 80 for nothing: a number and no option, as what is wanted is part of words.
fn wanted(w: u64) -> u64
    ensures { result ≡ want_by w }
{
    if w % NODES >= PER_RULE {
        return 80;
    }
    let rest = w / NODES;
    if rest % KINDS == ASKS_EDGE {
        return rest / KINDS % 64;
    }
    64 + rest / KINDS
}

// What an item of rule r at plan node p wants: nothing where there is no such rule or plan node.
pub fn want_of(g: &PlannedGrammar, r: u64, p: u64) -> u64
    ensures { result ≡ want_of (grammar_of g.now.grammar.words.now) r p }
{
    wanted(plans::parent_in(g, r, p).word)
}
