ghost use Rattle.std.specs.Prelude.{◌≡◌, ◌+◌, ◌<◌, ◌≤◌, ◌^◌, IfSome, IfNone};
ghost use Rattle.clause_base.specs.Literal.{positive};
ghost use Rattle.card_counter.specs.Places.{at_least, starts};

use crate::place::{positive, start_of};
use clause_base::Lit;

/// The literal that says that more than `j` of `n` selectors are true, by a counter up to `k + 1` whose first variable is
/// `first`. `None` where there are no more than `j` selectors. It takes no memory.
pub fn bound(n: u32, k: u32, j: u32, first: u32) -> Option<Lit>
    requires size { j ≤ k }
    requires variables_fit { first + starts k (n + 1) ≤ 2 ^ 32 }
    ensures some { IfSome result (λ bound. (j < n) × (bound ≡ positive (at_least first k n (j + 1)))) }
    ensures none { IfNone result (n ≤ j) }
{
    if n <= j {
        return None;
    }
    let row = first as usize + start_of(k, n as usize);
    Some(positive(row + j as usize))
}
