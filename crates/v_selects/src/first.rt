//! The first of a name's selects.
ghost use Rattle.std.specs.Prelude.{◌≡◌, [], ◌∷◌, MatchOption};

use crate::closed::Picked;
use loc_base::Items;

/// The first select, and those behind it.
pub(crate) fn split_first(selects: Items<Picked>) -> Option<(Picked, Items<Picked>)>
    ensures { MatchOption result (selects ≡ []) (λ split. selects ≡ split.0 ∷ split.1) }
{
    let mut list = selects.into_vec();
    if list.is_empty() {
        return None;
    }
    let one = list.remove(0);
    Some((one, Items::from_vec(list)))
}
