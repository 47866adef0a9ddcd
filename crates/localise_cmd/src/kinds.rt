//! The names of the kinds of suspects.
ghost use Rattle.std.specs.Prelude.{◌≡◌, IfOk, map};

use std::alloc::{AllocError, Global};
use suspect_map::Granularity;

fn name_of(kind: &Box<dyn Granularity>) -> &str
    ensures { result.now ≡ called kind.now }
{
    kind.name()
}

/// The names of kinds, in their order.
pub(crate) fn names_of(
    alloc: Global,
    kinds: &[Box<dyn Granularity>],
) -> Result<Vec<&str>, AllocError>
    ensures { IfOk result (λ names. map (λ w. w.now) names.items ≡ map (λ kind. called kind) kinds.now) }
{
    let mut names = Vec::new(alloc);
    for kind in kinds {
        names.push(name_of(kind))?;
    }
    Ok(names)
}
