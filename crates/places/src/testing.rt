// The nodes of all eight places tested at once, as whole words.
ghost use Rattle.std.specs.Prelude.{◌≡◌, ◌≤◌};
ghost use Rattle.places.specs.Words.{places_of};
ghost use Rattle.places.specs.Swar.{over_of};
ghost use Rattle.places.specs.Maps.{fits};

use crate::NONE;
use crate::merging::{HIGH, LOW, ONES};

// 128 at each place whose byte, but for bit 7, is n or more, else 0.
fn over(w: u64, n: u64) -> u64
    requires { n ≤ 128 }
    ensures { result ≡ over_of w n }
{
    (w & LOW) + ONES * (128 - n) & HIGH
}

// Whether each place in `used` has a node below n, and each other none. A byte of 128 or more is neither.
pub fn fits(w: u64, used: u64, n: u64) -> bool
    requires { n ≤ 64 }
    ensures { result ≡ fits n used (places_of w) }
{
    let placed = crate::merging::differs(w & LOW, NONE);
    let wrong = crate::merging::choose(crate::merging::spread(used), over(w, n), placed);
    (w | wrong) & HIGH == 0
}
