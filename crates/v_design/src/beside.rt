//! What stands beside the signals of a design: the first words of their arrays, and the names in the text.
ghost use Rattle.std.specs.Prelude.{◌≡◌, map, IfOk};
ghost use Rattle.bind_scopes.specs.Views.{numbered_of};

use bind_scopes::Numbered;
use loc_base::{Items, NoMemory, Span};
use std::alloc::Global;

/// The number of the first word of the array of each signal, and its own where it is a word of none.
pub(crate) fn homes_of(alloc: Global, signals: &[Numbered]) -> Result<Items<u32>, NoMemory>
    ensures { IfOk result (λ homes. homes ≡ map (λ n. n.home) (map numbered_of signals.now)) }
{
    let mut homes = Items::new(alloc);
    for one in signals {
        homes.push(one.home)?;
    }
    Ok(homes)
}

/// The name that declares each signal.
pub(crate) fn spans_of(alloc: Global, signals: &[Numbered]) -> Result<Items<Span>, NoMemory>
    ensures { IfOk result (λ spans. spans ≡ map (λ n. n.span) (map numbered_of signals.now)) }
{
    let mut spans = Items::new(alloc);
    for one in signals {
        spans.push(one.span)?;
    }
    Ok(spans)
}
