//! The instances of a design.
ghost use Rattle.std.specs.Prelude.{◌≡◌, map, Ok, IfOk, IfErr, OnOk};
ghost use Rattle.v_syntax.specs.ModuleTree.{module_of, source_of};
ghost use Rattle.v_hierarchy.specs.Frames.{Refuses};
ghost use Rattle.v_hierarchy.specs.Instances.{instances, top_child};
ghost use Rattle.v_hierarchy.specs.Views.{child_of, instance_of, instances_of};
ghost use Rattle.v_elaborate.specs.Walking.{names_differ, listed_from};
ghost use Rattle.v_scopes.specs.Units.{units_of};

use crate::walk::Walk;
use loc_base::{Items, Name, NoMemory};
use std::alloc::Global;
use v_hierarchy::{Child, ElabErr, Instance, Instances, Left};
use v_scopes::{NameList, Units};
use v_syntax::{Module, SourceTree};

/// How many levels of instances stand below the top at most.
const LEVELS: u32 = 64;

/// How many turns of loops a design has at most.
const TURNS: u32 = 65536;

/// How many instances a design has at most, beside the top.
const INSTANCES: u32 = 65535;

/// Refuses two modules of one name.
fn names_differ(alloc: Global, modules: &[Module]) -> Result<(), ElabErr>
    ensures ok { OnOk result (names_differ (map module_of modules.now) ≡ Ok tt) }
    ensures err { IfErr result (λ fault. Refuses (names_differ (map module_of modules.now)) fault) }
{
    let mut seen = NameList::new(alloc);
    for module in modules {
        let name = &module.name.name;
        if seen.contains(name) {
            return Err(ElabErr::DoubleName(module.name.site.span));
        }
        seen.push(name)?;
    }
    Ok(())
}

/// The top, to which nothing is given.
fn top_of<'t>(alloc: Global, unit: &'t Module) -> Result<Child<'t>, NoMemory>
    ensures { IfOk result (λ child. child_of child ≡ top_child (module_of unit.now)) }
{
    let path = unit.name.name.copied(alloc)?;
    Ok(Child {
        module: unit,
        values: Items::new(alloc),
        path,
        connections: None,
    })
}

/// The instances of the walk from the top.
fn listed_from<'t>(
    alloc: Global,
    units: &Units<'t>,
    top: &Child<'t>,
) -> Result<Items<Instance<'t>>, ElabErr>
    ensures ok { IfOk result (λ list. listed_from (units_of units.now) (child_of top.now) ≡ Ok (map instance_of list)) }
    ensures err { IfErr result (λ fault. Refuses (listed_from (units_of units.now) (child_of top.now)) fault) }
{
    let mut walk = Walk {
        alloc,
        units,
        list: Items::new(alloc),
        left: Left {
            turns: TURNS,
            instances: INSTANCES,
        },
    };
    walk.walked(LEVELS, None, top)?;
    Ok(walk.list)
}

/// The instances of a design: the top, then the children that each makes, depth first, in the order of their items; or the first
/// rule that the walk finds broken.
pub fn instances<'t>(
    alloc: Global,
    tree: &'t SourceTree,
    top: &Name,
) -> Result<Instances<'t>, ElabErr>
    ensures ok { IfOk result (λ i. instances (source_of tree.now) top.now ≡ Ok (instances_of i)) }
    ensures err { IfErr result (λ fault. Refuses (instances (source_of tree.now) top.now) fault) }
{
    let modules = tree.modules.as_slice();
    let units = Units::new(alloc, modules)?;
    let Some(unit) = units.find(top) else {
        return Err(ElabErr::NoTop);
    };
    names_differ(alloc, modules)?;
    let child = top_of(alloc, unit)?;
    let list = listed_from(alloc, &units, &child)?;
    Ok(Instances { list })
}
