//! The top, before its items (IEEE 1364-2005, 12.1.1).
ghost use Rattle.std.specs.Prelude.{◌≡◌, map, option_map, OnOk, IfOk};
ghost use Rattle.v_binding.specs.Bound.{with_root};
ghost use Rattle.v_binding.specs.Binding.{top_ports, top_roots, nothing_bound, is_misnamed};
ghost use Rattle.v_binding.specs.Steps.{through};
ghost use Rattle.bind_scopes.specs.Views.{socket_of};

use bind_clocks::Bound;
use bind_scopes::{Socket, top_roots};
use loc_base::{Items, Name, NoMemory};
use std::alloc::Global;
use v_binding::Root;

/// The ports of the top, which is the first instance.
pub(crate) fn top_ports<'a, 't>(all: &'a [Items<Socket<'t>>]) -> &'a [Socket<'t>]
    ensures { map socket_of result.now ≡ top_ports (map (map socket_of) all.now) }
{
    if all.is_empty() {
        return &[];
    }
    all[0].as_slice()
}

/// Inputs that are handed on.
fn add_roots(roots: &[Root], bound: &mut Bound) -> Result<(), NoMemory>
    ensures { OnOk result (bound.new ≡ through with_root roots.now bound.old) }
{
    for root in roots {
        bound.add_root(*root)?;
    }
    Ok(())
}

/// Nothing is bound yet, but each input of one bit of the top is connected to itself.
#[tactic(auto, using(crate::proofs::RootLaws::all_roots))]
pub(crate) fn nothing_bound(
    alloc: Global,
    signals: usize,
    ports: &[Socket<'_>],
) -> Result<Bound, NoMemory>
    ensures { IfOk result (λ b. b ≡ nothing_bound (top_roots (map socket_of ports.now))) }
{
    let roots = top_roots(alloc, ports)?;
    let mut bound = Bound::new(alloc, signals)?;
    add_roots(roots.as_slice(), &mut bound)?;
    Ok(bound)
}

/// Whether a clock is named that is no input of one bit.
pub(crate) fn is_misnamed(clock: Option<&Name>, number: Option<u32>) -> bool
    ensures { result ≡ is_misnamed (option_map (λ n. n.now) clock.entry) number }
{
    clock.is_some() && number.is_none()
}
