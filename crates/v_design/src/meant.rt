//! The design of instances.
ghost use Rattle.std.specs.Prelude.{◌≡◌, ◌⊎◌, option_map, IfOk, IfErr};
ghost use Rattle.design_core.specs.WellFormed.{IsWellFormed};
ghost use Rattle.design_core.specs.DrivenOnce.{IsDrivenOnce};
ghost use Rattle.v_hierarchy.specs.Views.{instances_of};
ghost use Rattle.v_binding.specs.declared.error.BindErr.TheVariants as fault;
ghost use Rattle.v_binding.specs.Standing.{InstancesStand};
ghost use Rattle.bind_laws.specs.OfText.{OfText};
ghost use Rattle.v_design.specs.Means.{IsMeant, IsRefused};

use crate::listed::design_of;
use bind_rules::first_broken;
use design_core::Design;
use design_rules::is_too_large;
use loc_base::Name;
use std::alloc::Global;
use v_binding::BindErr;
use v_hierarchy::Instances;

/// The design that the instances of a text mean, with the clock of a name if one is given: well formed, and its bits driven once. Or
/// why they mean none: the first refusal of binding, else the first rule that the bound design breaks.
pub fn design(
    alloc: Global,
    instances: &Instances<'_>,
    clock: Option<&Name>,
) -> Result<Design, BindErr>
    requires stands { InstancesStand (instances_of instances.now) }
    requires text { OfText (instances_of instances.now) }
    ensures ok { IfOk result (IsMeant (instances_of instances.now) (option_map (λ n. n.now) clock.entry)) }
    ensures err { IfErr result (λ e. (e ≡ fault.NoMemory) ⊎ IsRefused (instances_of instances.now) (option_map (λ n. n.now) clock.entry) e) }
    ensures well_formed { IfOk result IsWellFormed }
    ensures once { IfOk result IsDrivenOnce }
{
    let listed = design_of(alloc, instances, clock)?;
    if is_too_large(&listed.design) {
        return Err(BindErr::Places);
    }
    match first_broken(alloc, &listed.design, listed.beside())? {
        Some(fault) => Err(fault),
        None => Ok(listed.design),
    }
}
