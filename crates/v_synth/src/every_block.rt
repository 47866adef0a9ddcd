//! All clocked blocks, one after another: their resets before the drivers, their bodies after them.
ghost use Rattle.std.specs.Prelude.{◌≡◌, ◌^◌, ◌<◌, length, IsTrue, OnOk};
ghost use Rattle.std.specs.List.{list_all};
ghost use Rattle.design_core.specs.WellFormed.{clocked_fits, signal_fits};
ghost use Rattle.synth_parts.specs.Store.{nodes_made};
ghost use Rattle.v_synth.specs.Clocked.{bodies_made, register_mask, resets_made};
ghost use Rattle.v_synth.specs.Rows.{IsRow};

use crate::assigned::Assigned;
use crate::block::Block;
use crate::rows::Blocks;
use loc_base::{Items, NoMemory};
use synth_parts::Nodes;

impl Blocks<'_> {
    /// The reset values of all blocks, where their resets are active.
    #[tactic(auto, using(crate::proofs::BlockSteps::resets_steps))]
    pub(crate) fn resets(
        &self,
        nodes: &mut Nodes,
        map: &mut Items<u32>,
        from: &[u32],
    ) -> Result<(), NoMemory>
        requires few { length self.now.design.now.signals.items < 2 ^ 32 }
        requires signals { IsTrue (list_all signal_fits self.now.design.now.signals.items) }
        requires registers { IsRow (register_mask self.now.design.now) (length self.now.design.now.signals.items) self.now.registers.now }
        requires from { length from.now ≡ length self.now.design.now.signals.items }
        requires each { length map.old ≡ length self.now.design.now.signals.items }
        requires fits { IsTrue (list_all (clocked_fits self.now.design.now) self.now.design.now.clocked.items) }
        ensures ok { OnOk result (nodes_made nodes.new map.new ≡ resets_made self.now.design.now from.now nodes.old map.old self.now.design.now.clocked.items) }
        ensures each { length map.new ≡ length self.now.design.now.signals.items }
    {
        let mut assigned = Assigned::new(self.alloc, from)?;
        for i in 0..self.design.clocked.len() {
            let block = Block {
                alloc: self.alloc,
                design: self.design,
                registers: self.registers,
                block: &self.design.clocked[i],
            };
            block.reset(nodes, map, &mut assigned)?;
        }
        Ok(())
    }

    /// The next states of all blocks, where their resets are not active.
    #[tactic(auto, using(crate::proofs::BlockSteps::bodies_steps))]
    pub(crate) fn bodies(
        &self,
        nodes: &mut Nodes,
        map: &mut Items<u32>,
        from: &[u32],
    ) -> Result<(), NoMemory>
        requires few { length self.now.design.now.signals.items < 2 ^ 32 }
        requires signals { IsTrue (list_all signal_fits self.now.design.now.signals.items) }
        requires registers { IsRow (register_mask self.now.design.now) (length self.now.design.now.signals.items) self.now.registers.now }
        requires from { length from.now ≡ length self.now.design.now.signals.items }
        requires each { length map.old ≡ length self.now.design.now.signals.items }
        requires fits { IsTrue (list_all (clocked_fits self.now.design.now) self.now.design.now.clocked.items) }
        ensures ok { OnOk result (nodes_made nodes.new map.new ≡ bodies_made self.now.design.now from.now nodes.old map.old self.now.design.now.clocked.items) }
        ensures each { length map.new ≡ length self.now.design.now.signals.items }
    {
        let mut assigned = Assigned::new(self.alloc, from)?;
        for i in 0..self.design.clocked.len() {
            let block = Block {
                alloc: self.alloc,
                design: self.design,
                registers: self.registers,
                block: &self.design.clocked[i],
            };
            block.body(nodes, map, &mut assigned)?;
        }
        Ok(())
    }
}
