//! The walk from the top: an instance, then all that stands below it (IEEE 1364-2005, clause 12).
ghost use Rattle.std.specs.Prelude.{◌≡◌, [], map, Ok, IfOk, IfErr, OnOk};
ghost use Rattle.v_syntax.specs.ModuleTree.{module_of, ports_of};
ghost use Rattle.v_hierarchy.specs.Frames.{Refuses};
ghost use Rattle.v_hierarchy.specs.Instances.{contents, instance, with_instance, walked};
ghost use Rattle.v_hierarchy.specs.Views.{given_of, child_of, instance_of};
ghost use Rattle.v_scopes.specs.Around.{names_in, outer_of};
ghost use Rattle.v_scopes.specs.Units.{units_of};
ghost use Rattle.v_connections.specs.Headed.{header_of};
ghost use Rattle.v_elaborate.specs.Met.{met_of};
ghost use Rattle.v_elaborate.specs.Walking.{opened, found_of};

use crate::children::children_of;
use crate::met::Met;
use loc_base::{Items, NoMemory};
use std::alloc::Global;
use v_connections::{Header, Place};
use v_hierarchy::{Block, Child, ElabErr, Instance, Left};
use v_loops::Position;
use v_scopes::{Scopes, Units};

/// The instance that what is met of its module makes.
#[tactic(auto, using(crate::proofs::CopiedViews::copied_steps))]
fn instance_of<'t>(
    alloc: Global,
    met: Met<'t>,
    parent: Option<usize>,
    child: &Child<'t>,
) -> Result<Instance<'t>, NoMemory>
    ensures { IfOk result (λ i. instance_of i ≡ instance (child_of child.now) parent (met_of met.entry)) }
{
    let Met { position, copies } = met;
    let ports = position.scopes.ports_of(&child.module.ports)?;
    let path = child.path.copied(alloc)?;
    let own = child.path.copied(alloc)?;
    Ok(Instance {
        path,
        module: child.module,
        parent,
        connections: child.connections,
        ports,
        body: Block {
            path: own,
            names: position.into_names(),
            copies,
        },
    })
}

/// The scope of an instance with its header's names.
fn opened<'t>(alloc: Global, child: &Child<'t>, header: &Header<'t>) -> Result<Scopes<'t>, ElabErr>
    requires { header_of header.now ≡ (ports_of child.now.«module».now.ports, map given_of child.now.values) }
    ensures ok { IfOk result (λ scopes. opened (child_of child.now) ≡ Ok (names_in scopes)) }
    ensures alone { IfOk result (λ scopes. outer_of scopes ≡ []) }
    ensures err { IfErr result (λ fault. Refuses (opened (child_of child.now)) fault) }
{
    let mut scopes = Scopes::new(alloc);
    scopes.header_parameters(header.values(), child.module.parameters.as_slice())?;
    scopes.header_ports(child.module)?;
    Ok(scopes)
}

/// The walk over a design: the instances met so far, and what is left of the counts.
#[derive(Drop)]
pub(crate) struct Walk<'q, 't> {
    pub(crate) alloc: Global,
    pub(crate) units: &'q Units<'t>,
    pub(crate) list: Items<Instance<'t>>,
    pub(crate) left: Left,
}

impl<'q, 't> Walk<'q, 't> {
    /// What the text of an instance makes: its parameters, its ports, then its items.
    fn contents(&self, levels: u32, child: &Child<'t>) -> Result<Met<'t>, ElabErr>
        ensures ok { IfOk result (λ met. contents (units_of self.now.units.now) levels (child_of child.now) self.now.left ≡ Ok (met_of met)) }
        ensures err { IfErr result (λ fault. Refuses (contents (units_of self.now.units.now) levels (child_of child.now) self.now.left) fault) }
    {
        let header = Header::new(self.alloc, &child.module.ports, child.values.as_slice())?;
        let scopes = opened(self.alloc, child, &header)?;
        let mut met = Met {
            position: Position {
                alloc: self.alloc,
                scopes,
                left: self.left,
            },
            copies: Items::new(self.alloc),
        };
        let place = Place {
            units: self.units,
            levels,
            path: &child.path,
            header: Some(&header),
        };
        met.items(child.module.items.as_slice(), &place)?;
        Ok(met)
    }

    /// One instance more, and what is left behind it.
    fn add(
        &mut self,
        met: Met<'t>,
        parent: Option<usize>,
        child: &Child<'t>,
    ) -> Result<(), NoMemory>
        ensures ok { OnOk result (found_of self.new ≡ with_instance (child_of child.now) parent (met_of met.entry) (found_of self.old)) }
        ensures units { self.new.units ≡ self.old.units }
    {
        self.left = met.position.left;
        let instance = instance_of(self.alloc, met, parent, child)?;
        self.list.push(instance)
    }

    /// An instance, then what stands below it; none stands below the deepest level.
    #[tactic(auto, using(crate::proofs::WalkSteps::walk_rules))]
    pub(crate) fn walked(
        &mut self,
        levels: u32,
        parent: Option<usize>,
        child: &Child<'t>,
    ) -> Result<(), ElabErr>
        ensures ok { OnOk result (walked (units_of self.old.units.now) levels parent (child_of child.now) (found_of self.old) ≡ Ok (found_of self.new)) }
        ensures err { IfErr result (λ fault. Refuses (walked (units_of self.old.units.now) levels parent (child_of child.now) (found_of self.old)) fault) }
        ensures units { self.new.units ≡ self.old.units }
    {
        let number = self.list.len();
        let met = self.contents(levels, child)?;
        let below = children_of(self.alloc, met.copies.as_slice())?;
        self.add(met, parent, child)?;
        if levels == 0 {
            return Ok(());
        }
        for child in below.as_slice() {
            self.walked(levels - 1, Some(number), child)?;
        }
        Ok(())
    }
}
