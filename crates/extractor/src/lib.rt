// The applications that the partners of a chart's records spell, from a passive record down, as the text of a
// derivation file.

#![tactic(auto)]

ghost use Rattle.std.specs.Prelude.{[], ◌∷◌, ◌≡◌, ◌+◌, ◌*◌, ◌≤◌, ◌<◌, IfSome, length, replicate};
ghost use Rattle.joins.specs.Tables.{grammar_in, graph_in};
ghost use Rattle.records.specs.Words.{record_at};
ghost use Rattle.extraction.specs.Listing.{listing};
ghost use Rattle.extractor.specs.Lists.{ListedIn};
ghost use Rattle.extractor.specs.Texts.{text_at, EndsWith};

use joins::accepted::AcceptedTables;

pub mod listing;
mod lookup;
mod numbers;
mod partners;
mod placing;
mod rows;

// Writes the text of the n applications listed under the passive record at j to the end of the buffer and answers
// where it starts: at the buffer's end where none are listed, since they are more than 4,096. A line has at most 74
// bytes, the first one six. The sizes of the trees are worked out in a part that is lent, all 0, with more places than
// there are applications.
pub fn extract(
    t: &AcceptedTables,
    chart: &[u64],
    j: u64,
    list: &[u64],
    n: Option<usize>,
    sizes: &mut [u64],
    text: &mut [u8],
) -> usize
    requires { ListedIn 4096 (listing (λ k. record_at chart.now k) (grammar_in t.now) 4096 (j ∷ [])) list.now n × IfSome n (λ k. (k ≤ length list.now) × (k < length sizes.old) × (74 * k + 6 ≤ length text.old)) × (sizes.old ≡ replicate (length sizes.old) 0) }
    ensures { EndsWith (text_at (λ k. record_at chart.now k) (grammar_in t.now) (graph_in t.now) j) text.old text.new result }
{
    let Some(n) = n else {
        return text.len();
    };
    let at = rows::write_rows(t, chart, &list[..n], sizes, text);
    let head = [n as u64];
    let start = at - 6;
    lines::write_line(text, start, b'D', &head, 1);
    start
}
