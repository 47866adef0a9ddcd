//! Drivers (IEEE 1364-2005, 6.1 and 9.9), one after another in an order.
ghost use Rattle.std.specs.Prelude.{◌≡◌, ◌^◌, ◌<◌, length, IfOk, IsTrue, OnOk};
ghost use Rattle.std.specs.List.{All};
ghost use Rattle.design_core.specs.WellFormed.{assignment_fits};
ghost use Rattle.node_map.specs.Pairs.{IsSettled};
ghost use Rattle.synth_parts.specs.Store.{nodes_made};
ghost use Rattle.synth_parts.specs.Driver.{assigned_made, driver_made, drivers_made};
ghost use Rattle.synth_parts.specs.Lists.{prepared_in};
ghost use Rattle.synth_parts.specs.Arms.{DriverFits, DriversFit, continuous_made};

use crate::scene::{Nodes, Scene, push, unsigned};
use crate::store::{Left, Sides, indexes};
use design_core::{Driver, Part, Typed};
use loc_base::{Items, NoMemory};
use node_map::{NodeMap, Pair};
use word_net::{Operand, Operation};

/// A continuous assignment.
#[derive(Clone, Copy, Drop)]
struct Continuous<'a> {
    parts: &'a [Part],
    value: &'a Typed,
    place: Option<u32>,
}

/// What a continuous assignment assigns: where it has a place, what that assigns.
#[tactic(auto, unfolding(crate::specs::Driver::assigned_made))]
fn assigned(
    nodes: &mut Nodes,
    place: Option<u32>,
    width: u8,
    computed: Operand,
) -> Result<Operand, NoMemory>
    ensures { IfOk result (λ o. prepared_in nodes.new o ≡ assigned_made nodes.old place width computed) }
{
    match place {
        Some(place) => {
            let free = push(nodes, width, Operation::Free { place, computed })?;
            Ok(unsigned(free, width))
        }
        None => Ok(computed),
    }
}

impl Left<'_> {
    /// A continuous assignment: its value, what its place assigns, its indexes, and then the store.
    #[tactic(auto, using(crate::proofs::AssignSteps::steps), unfolding(crate::specs::Arms::continuous_made))]
    fn continuous(
        &self,
        nodes: &mut Nodes,
        map: &mut NodeMap,
        set: &Continuous,
    ) -> Result<(), NoMemory>
        requires few { length self.now.signals.now < 2 ^ 32 }
        requires each { length map.old.now ≡ length self.now.signals.now }
        requires fits { IsTrue (assignment_fits self.now.signals.now set.now.parts.now set.now.value.now) }
        ensures ok { OnOk result (nodes_made nodes.new map.new.now ≡ continuous_made self.now.signals.now nodes.old map.old.now set.now.parts.now set.now.value.now set.now.place) }
        ensures each { length map.new.now ≡ length self.now.signals.now }
        ensures base { map.new.base ≡ map.old.base }
    {
        let at = Scene {
            alloc: self.alloc,
            signals: self.signals,
            nodes_of: map.as_slice(),
        };
        let width = self.parts_width(set.parts);
        let value = self.value(nodes, map.as_slice(), set.value)?;
        let computed = unsigned(value, set.value.width);
        let word = assigned(nodes, set.place, width, computed)?;
        let indexes = indexes(&at, nodes, set.parts)?;
        let sides = Sides {
            parts: set.parts,
            indexes: indexes.as_slice(),
        };
        self.parts(nodes, map, &sides, word)
    }

    /// One driver, over the map that is read; later updates begin with the same nodes.
    #[tactic(auto, using(crate::proofs::DriverSteps::driver_steps))]
    fn driver(&self, nodes: &mut Nodes, both: &mut Pair, driver: &Driver) -> Result<(), NoMemory>
        requires few { length self.now.signals.now < 2 ^ 32 }
        requires each { length both.old.current.now ≡ length self.now.signals.now }
        requires same { both.old.later.now ≡ both.old.current.now }
        requires fits { DriverFits self.now.signals.now driver.now }
        ensures ok { OnOk result (nodes_made nodes.new both.new.current.now ≡ driver_made self.now.signals.now nodes.old both.old.current.now driver.now) }
        ensures each { length both.new.current.now ≡ length self.now.signals.now }
        ensures each_later { length both.new.later.now ≡ length self.now.signals.now }
        ensures base { OnOk result (both.new.current.base ≡ both.old.current.base) }
        ensures base_later { OnOk result (both.new.later.base ≡ both.old.later.base) }
    {
        match driver {
            Driver::Cont {
                target,
                value,
                place,
                span: _,
            } => {
                let set = Continuous {
                    parts: target.parts.as_slice(),
                    value,
                    place: *place,
                };
                self.continuous(nodes, &mut both.current, &set)
            }
            Driver::Comb { body, span: _ } => self.statement(nodes, both, body),
        }
    }

    /// The drivers in an order, each over what those before it left.
    #[tactic(auto, using(crate::proofs::DriverSteps::drivers_steps))]
    fn in_order(
        &self,
        nodes: &mut Nodes,
        both: &mut Pair,
        drivers: &[Driver],
        order: &[u32],
    ) -> Result<(), NoMemory>
        requires few { length self.now.signals.now < 2 ^ 32 }
        requires each { length both.old.current.now ≡ length self.now.signals.now }
        requires settled { IsSettled both.old.current both.old.later }
        requires fits { DriversFit self.now.signals.now drivers.now }
        requires within { All (λ i. i < length drivers.now) order.now }
        ensures ok { OnOk result (nodes_made nodes.new both.new.current.now ≡ drivers_made self.now.signals.now drivers.now nodes.old both.old.current.now order.now) }
        ensures each { OnOk result (length both.new.current.now ≡ length self.now.signals.now) }
    {
        for k in 0..order.len() {
            let i = order[k] as usize;
            self.driver(nodes, both, &drivers[i])?;
            both.settle(self.alloc)?;
        }
        Ok(())
    }

    /// The drivers in an order.
    pub fn drivers(
        &self,
        nodes: &mut Nodes,
        map: &mut Items<u32>,
        drivers: &[Driver],
        order: &[u32],
    ) -> Result<(), NoMemory>
        requires few { length self.now.signals.now < 2 ^ 32 }
        requires each { length map.old ≡ length self.now.signals.now }
        requires fits { DriversFit self.now.signals.now drivers.now }
        requires within { All (λ i. i < length drivers.now) order.now }
        ensures ok { OnOk result (nodes_made nodes.new map.new ≡ drivers_made self.now.signals.now drivers.now nodes.old map.old order.now) }
        ensures each { length map.new ≡ length self.now.signals.now }
    {
        let mut both = Pair::new(self.alloc, map.as_slice())?;
        self.in_order(nodes, &mut both, drivers, order)?;
        let (current, _) = both.into_both();
        *map = current;
        Ok(())
    }
}
