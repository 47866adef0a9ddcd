//! The design of what the instances of a text mean.
ghost use Rattle.std.specs.Prelude.{◌≡◌, ◌<◌, ◌^◌, ℕ, List, Option, Ok, IfOk, IfErr, length};
ghost use Rattle.std.specs.Option.{option_copied};
ghost use Rattle.design_core.specs.WellFormed.{IsWellFormed};
ghost use Rattle.design_core.specs.DrivenOnce.{IsDrivenOnce};
ghost use Rattle.v_syntax.specs.ModuleTree.{source_of};
ghost use Rattle.v_hierarchy.specs.Instances.{instances as instances_by};
ghost use Rattle.v_hierarchy.specs.Views.{instances_of};
ghost use Rattle.v_binding.specs.Standing.{InstancesStand};
ghost use Rattle.bind_laws.specs.OfText.{OfText};
ghost use Rattle.v_design.specs.Means.{IsMeant};
ghost use Rattle.verilog_front_end.specs.Errors.{Refuses};
ghost use Rattle.verilog_front_end.specs.Meaning.{HasDesign, HasInstances, HasModules};
ghost use Rattle.verilog_front_end.specs.Refusals.{IsRefusal};

use crate::error::DesignErr;
use crate::text::tree_of;
use design_core::Design;
use loc_base::Name;
use std::alloc::Global;
use v_design::design;
use v_elaborate::instances;
use v_hierarchy::Instances;
use v_syntax::SourceTree;

/// The instances that a tree makes of a top.
fn made_of<'t>(alloc: Global, tree: &'t SourceTree, top: &Name) -> Result<Instances<'t>, DesignErr>
    ensures ok { IfOk result (λ list. instances_by (source_of tree.now) top.now ≡ Ok (instances_of list)) }
    ensures err { (text : List ℕ) (clock : Option (List ℕ)) → HasModules text (source_of tree.now)
        → IfErr result (Refuses (IsRefusal text top.now clock)) }
{
    match instances(alloc, tree, top) {
        Ok(list) => Ok(list),
        Err(fault) => Err(DesignErr::Elaboration(fault)),
    }
}

/// The design that instances mean, with the clock.
fn meant_by(alloc: Global, list: &Instances<'_>, clock: Option<&Name>) -> Result<Design, DesignErr>
    requires stands { InstancesStand (instances_of list.now) }
    requires text { OfText (instances_of list.now) }
    ensures ok { IfOk result (IsMeant (instances_of list.now) (option_copied clock.entry)) }
    ensures err { (text top : List ℕ) → HasInstances text top (instances_of list.now)
        → IfErr result (Refuses (IsRefusal text top (option_copied clock.entry))) }
    ensures well_formed { IfOk result IsWellFormed }
    ensures once { IfOk result IsDrivenOnce }
{
    match design(alloc, list, clock) {
        Ok(design) => Ok(design),
        Err(fault) => Err(DesignErr::Binding(fault)),
    }
}

/// The design of what a text's instances mean. Its drivers may depend on each other in a circle.
pub(crate) fn design_of(
    alloc: Global,
    text: &[u8],
    top: &Name,
    clock: Option<&Name>,
) -> Result<Design, DesignErr>
    ensures ok { IfOk result (HasDesign text.now top.now (option_copied clock.entry)) }
    ensures err { IfErr result (Refuses (IsRefusal text.now top.now (option_copied clock.entry))) }
    ensures well_formed { IfOk result IsWellFormed }
    ensures once { IfOk result IsDrivenOnce }
{
    let tree = tree_of(alloc, text)?;
    let list = made_of(alloc, &tree, top)?;
    meant_by(alloc, &list, clock)
}
