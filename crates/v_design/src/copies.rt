//! The signals of a design as a list of their own (IEEE 1364-2005, 4.2).
ghost use Rattle.std.specs.Prelude.{◌≡◌, map, IfOk};
ghost use Rattle.bind_scopes.specs.Views.{numbered_of};

use bind_scopes::Numbered;
use design_core::Signal;
use loc_base::{Items, NoMemory};
use std::alloc::Global;

/// A copy of a signal.
fn copied(alloc: Global, signal: &Signal) -> Result<Signal, NoMemory>
    ensures { IfOk result (λ copy. copy ≡ signal.now) }
{
    let path = signal.path.copied(alloc)?;
    Ok(Signal {
        path,
        width: signal.width,
        signed: signal.signed,
        left: signal.left,
        right: signal.right,
        kind: signal.kind,
        start: signal.start,
    })
}

/// The signals, in the order of their numbers.
pub(crate) fn signals_in(alloc: Global, numbered: &[Numbered]) -> Result<Items<Signal>, NoMemory>
    ensures { IfOk result (λ signals. signals ≡ map (λ n. n.signal) (map numbered_of numbered.now)) }
{
    let mut signals = Items::new(alloc);
    for one in numbered {
        signals.push(copied(alloc, &one.signal)?)?;
    }
    Ok(signals)
}
