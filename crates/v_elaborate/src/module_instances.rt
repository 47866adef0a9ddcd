//! Module instances (IEEE 1364-2005, 12.1.2).
ghost use Rattle.std.specs.Prelude.{◌≡◌, map, option_map, Ok, Err, IfOk, IfErr, OnOk};
ghost use Rattle.v_syntax.specs.ItemTree.{connections_of, instance_of as plain_instance};
ghost use Rattle.v_syntax.specs.ModuleTree.{module_of};
ghost use Rattle.v_hierarchy.specs.Frames.{Refuses};
ghost use Rattle.v_hierarchy.specs.Items.{not_deeper, instance_of};
ghost use Rattle.v_hierarchy.specs.Steps.{each};
ghost use Rattle.v_hierarchy.specs.Views.{given_of, child_of};
ghost use Rattle.v_scopes.specs.Units.{units_of};
ghost use Rattle.v_connections.specs.Places.{place_of};
ghost use Rattle.v_elaborate.specs.Parts.{unit_named, making_met, child_made};
ghost use Rattle.v_elaborate.specs.Met.{met_of, outer_at, frames_at};

use crate::met::Met;
use loc_base::{Items, Name, NoMemory, Span};
use std::alloc::Global;
use v_connections::{Place, connections_fit};
use v_hierarchy::{Child, Copied, ElabErr, Given, below};
use v_scopes::Units;
use v_syntax::{Connections, Identifier, Instance, Module, Site};

/// What the instances of one item have in common: where the item stands, the module, and the values that they give it.
#[derive(Drop)]
pub(crate) struct Making<'t> {
    pub(crate) site: Site,
    pub(crate) unit: &'t Module,
    pub(crate) values: Items<Given<'t>>,
}

/// Refuses an instance more than so many levels below.
fn not_deeper(levels: u32, span: Span) -> Result<(), ElabErr>
    ensures { result ≡ not_deeper levels span }
{
    if levels == 0 {
        return Err(ElabErr::Depth(span));
    }
    Ok(())
}

/// The module that an instance names.
fn unit_of<'t>(units: &Units<'t>, name: &Identifier) -> Result<&'t Module, ElabErr>
    ensures ok { IfOk result (λ unit. unit_named (units_of units.now) name.now ≡ Ok (module_of unit.now)) }
    ensures err { IfErr result (λ fault. unit_named (units_of units.now) name.now ≡ Err fault) }
{
    match units.find(&name.name) {
        Some(unit) => Ok(unit),
        None => Err(ElabErr::UnknownModule(name.site.span)),
    }
}

impl<'t> Making<'t> {
    /// A module instance below a path.
    fn child(
        &self,
        alloc: Global,
        path: &Name,
        instance: &'t Instance,
    ) -> Result<Child<'t>, NoMemory>
        ensures { IfOk result (λ child. child_of child ≡ child_made path.now (module_of self.now.unit.now) (map given_of self.now.values) (plain_instance instance.now)) }
    {
        let values = Items::copy_of(alloc, self.values.as_slice())?;
        let path = below(alloc, path, &instance.name.name)?;
        Ok(Child {
            module: self.unit,
            values,
            path,
            connections: Some(&instance.connections),
        })
    }
}

impl<'t> Met<'t> {
    /// The module that an item names, with the values that it gives.
    pub(crate) fn making(
        &self,
        place: &Place<'_, '_, '_, 't>,
        site: Site,
        name: &Identifier,
        parameters: &'t Option<Connections>,
    ) -> Result<Making<'t>, ElabErr>
        ensures ok { IfOk result (λ making. making_met (units_of place.now.units.now) (frames_at self.now) name.now (option_map connections_of parameters.now) ≡ Ok (module_of making.unit.now, map given_of making.values)) }
        ensures site { IfOk result (λ making. making.site ≡ site) }
        ensures err { IfErr result (λ fault. Refuses (making_met (units_of place.now.units.now) (frames_at self.now) name.now (option_map connections_of parameters.now)) fault) }
    {
        let unit = unit_of(place.units, name)?;
        let values = self.position.scopes.given_at(unit, parameters)?;
        Ok(Making { site, unit, values })
    }

    /// A module instance.
    #[tactic(auto, using(crate::proofs::CopiedViews::copied_steps))]
    fn instance(
        &mut self,
        place: &Place<'_, '_, '_, 't>,
        making: &Making<'t>,
        instance: &'t Instance,
    ) -> Result<(), ElabErr>
        ensures ok { OnOk result (instance_of (place_of place.now (outer_at self.old)) making.now.site (module_of making.now.unit.now) (map given_of making.now.values) (plain_instance instance.now) (met_of self.old) ≡ Ok (met_of self.new)) }
        ensures err { IfErr result (λ fault. Refuses (instance_of (place_of place.now (outer_at self.old)) making.now.site (module_of making.now.unit.now) (map given_of making.now.values) (plain_instance instance.now) (met_of self.old)) fault) }
        ensures around { outer_at self.new ≡ outer_at self.old }
    {
        let alloc = self.position.alloc;
        let span = instance.name.site.span;
        not_deeper(place.levels, span)?;
        self.position.left = self.position.left.placed(span)?;
        connections_fit(
            alloc,
            instance.site.span,
            making.unit,
            &instance.connections,
        )?;
        let child = making.child(alloc, place.path, instance)?;
        self.keep(Copied::Child {
            site: making.site,
            child,
        })?;
        Ok(())
    }

    /// The module instances of one item.
    pub(crate) fn instances(
        &mut self,
        place: &Place<'_, '_, '_, 't>,
        making: &Making<'t>,
        instances: &'t [Instance],
    ) -> Result<(), ElabErr>
        ensures ok { OnOk result (each (instance_of (place_of place.now (outer_at self.old)) making.now.site (module_of making.now.unit.now) (map given_of making.now.values)) (map plain_instance instances.now) (met_of self.old) ≡ Ok (met_of self.new)) }
        ensures err { IfErr result (λ fault. Refuses (each (instance_of (place_of place.now (outer_at self.old)) making.now.site (module_of making.now.unit.now) (map given_of making.now.values)) (map plain_instance instances.now) (met_of self.old)) fault) }
        ensures around { outer_at self.new ≡ outer_at self.old }
    {
        for instance in instances {
            self.instance(place, making, instance)?;
        }
        Ok(())
    }
}
