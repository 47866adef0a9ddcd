//! The names of a scope, which hide those around it (IEEE 1364-2005, 12.7), and the scopes inside.
ghost use Rattle.std.specs.Prelude.{◌≡◌, ◌≤◌, length, map, drop, OnOk};
ghost use Rattle.v_binding.specs.Names.{within};
ghost use Rattle.v_binding.specs.Signals.{no_scope};
ghost use Rattle.v_binding.specs.Items.{scope_next};
ghost use Rattle.v_binding.specs.Held.{known_of};
ghost use Rattle.v_binding.specs.Seen.{names_in};
ghost use Rattle.bind_scopes.specs.Views.{scope_of};

use bind_scopes::Scope;
use loc_base::{Items, NoMemory};
use std::alloc::Global;
use v_binding::{Known, Names};

/// The scope without names. It takes no memory.
#[tactic(auto, using(crate::proofs::ScopeViews::scope_views))]
pub(crate) fn nameless<'t>(alloc: Global) -> Scope<'t>
    ensures { scope_of result ≡ scope_next no_scope }
{
    Scope {
        names: Items::new(alloc),
        inside: Items::new(alloc),
    }
}

/// Lets the names of a scope hide those around it.
pub(crate) fn enter<'t>(names: &mut Names<'t>, own: &[Known<'t>]) -> Result<(), NoMemory>
    ensures { OnOk result (names_in names.new ≡ within (map known_of own.now) (names_in names.old)) }
{
    for known in own {
        names.push(*known)?;
    }
    Ok(())
}

/// Takes so many names off again.
pub(crate) fn leave(names: &mut Names<'_>, count: usize)
    requires { count ≤ length (names_in names.old) }
    ensures { names_in names.new ≡ drop count (names_in names.old) }
{
    for _place in 0..count {
        names.pop();
    }
}
