//! Clocked blocks (IEEE 1364.1-2002, 5.2.2): what they leave for their registers.
ghost use Rattle.std.specs.Prelude.{◌≡◌, ◌^◌, ◌<◌, [], length, IfOk, IsTrue, OnOk};
ghost use Rattle.std.specs.List.{list_all};
ghost use Rattle.design_core.specs.Valuation.{width_at};
ghost use Rattle.design_core.specs.WellFormed.{signal_fits};
ghost use Rattle.word_net.specs.Build.{made};
ghost use Rattle.synth_parts.specs.Store.{nodes_made};
ghost use Rattle.synth_parts.specs.Statement.{maps};
ghost use Rattle.v_synth.specs.Clocked.{active_made, left_at, left_made, own_made, own_mask, owns_made, turned_made};
ghost use Rattle.v_synth.specs.Clocked.{body_made, register_mask, reset_made};
ghost use Rattle.v_synth.specs.Owned.{AreBlank, AreDriven, AreOwn, BlockFits, HasBegun, IsBlank};
ghost use Rattle.v_synth.specs.Rows.{IsRow};
ghost use Rattle.synth_parts.specs.Arms.{StatementFits};

use crate::assigned::{Assigned, numbers};
use crate::clocked::Turn;
use design_bits::add_block;
use design_core::{Clocked, Design, Reset, Stmt, UnaryOp};
use loc_base::{Items, NoMemory};
use node_map::ascending;
use std::alloc::Global;
use synth_parts::{Left, Nodes, push, unsigned};
use word_net::Operation;

/// A word that a block leaves, and the word so far.
#[derive(Clone, Copy)]
struct Words {
    width: u8,
    left: u32,
    so_far: u32,
}

/// A clocked block of a design with what a statement of it left: for each signal which of its bits are registers, and what is
/// assigned.
#[derive(Clone, Copy, Drop)]
struct Own<'a> {
    design: &'a Design,
    block: &'a Clocked,
    registers: &'a [u128],
    assigned: &'a Assigned,
}

/// A clocked block of a design, and for each signal which of its bits are registers.
#[derive(Clone, Copy, Drop)]
pub(crate) struct Block<'a> {
    pub alloc: Global,
    pub design: &'a Design,
    pub registers: &'a [u128],
    pub block: &'a Clocked,
}

/// A run of a statement, and when what it leaves counts.
#[derive(Clone, Copy, Drop)]
struct Run<'a> {
    turn: Turn,
    statement: &'a Stmt,
}

/// What a block leaves where that counts, else the word so far.
#[tactic(auto, unfolding(crate::specs::Clocked::turned_made))]
fn turned(nodes: &mut Nodes, turn: Turn, words: Words) -> Result<u32, NoMemory>
    ensures { IfOk result (λ n. made nodes.new n ≡ turned_made turn nodes.old words.width words.left words.so_far) }
{
    let left = unsigned(words.left, words.width);
    let so_far = unsigned(words.so_far, words.width);
    match turn {
        Turn::When(test) => {
            let choose = Operation::Choose {
                cond: unsigned(test, 1),
                yes: left,
                no: so_far,
            };
            push(nodes, words.width, choose)
        }
        Turn::Unless(test) => {
            let choose = Operation::Choose {
                cond: unsigned(test, 1),
                yes: so_far,
                no: left,
            };
            push(nodes, words.width, choose)
        }
        Turn::Always => Ok(words.left),
    }
}

/// Whether a reset is active: its signal, negated where its level is false.
#[tactic(auto, unfolding(crate::specs::Clocked::active_made))]
pub(crate) fn active(nodes: &mut Nodes, map: &[u32], reset: &Reset) -> Result<u32, NoMemory>
    requires { reset.now.signal < length map.now }
    ensures { IfOk result (λ n. made nodes.new n ≡ active_made nodes.old map.now reset.now) }
{
    let word = map[reset.signal as usize];
    if reset.level {
        return Ok(word);
    }
    let negated = Operation::Unary {
        op: UnaryOp::LogicalNot,
        arg: unsigned(word, 1),
    };
    push(nodes, 1, negated)
}

impl Own<'_> {
    /// The bits of a signal that are registers of the block.
    #[tactic(auto, using(crate::proofs::OwnSteps::mask_steps))]
    fn mask(&self, s: usize) -> u128
        requires own { AreOwn self.now.design.now self.now.block.now self.now.registers.now
            self.now.assigned.now.drives self.now.assigned.now.later.items }
        requires signal { s < length self.now.design.now.signals.items }
        ensures { result ≡ own_mask self.now.design.now self.now.block.now s }
    {
        self.registers[s] & self.assigned.drives.mask(s)
    }

    /// The node that the block leaves for a signal.
    #[tactic(auto, using(crate::proofs::OwnSteps::mark_steps))]
    fn left_for(&self, s: usize) -> u32
        requires own { AreOwn self.now.design.now self.now.block.now self.now.registers.now
            self.now.assigned.now.drives self.now.assigned.now.later.items }
        requires current { length self.now.assigned.now.both.current.now ≡ length self.now.design.now.signals.items }
        requires later { length self.now.assigned.now.both.later.now ≡ length self.now.design.now.signals.items }
        requires signal { s < length self.now.design.now.signals.items }
        ensures { result ≡ left_at self.now.block.now
            (maps [] self.now.assigned.now.both.current.now self.now.assigned.now.both.later.now) s }
    {
        if self.assigned.later[s] {
            self.assigned.both.later.as_slice()[s]
        } else {
            self.assigned.both.current.as_slice()[s]
        }
    }

    /// The width of a signal.
    #[tactic(auto, using(synth_parts::proofs::Scenes::signals_at))]
    fn width(&self, s: usize) -> u8
        requires { s < length self.now.design.now.signals.items }
        ensures { result ≡ width_at self.now.design.now.signals.items s }
    {
        self.design.signals.as_slice()[s].width
    }

    /// A signal after the block where that counts.
    #[tactic(auto, using(crate::proofs::OwnSteps::own_steps))]
    fn signal(&self, nodes: &mut Nodes, turn: Turn, s: usize, so_far: u32) -> Result<u32, NoMemory>
        requires own { AreOwn self.now.design.now self.now.block.now self.now.registers.now
            self.now.assigned.now.drives self.now.assigned.now.later.items }
        requires current { length self.now.assigned.now.both.current.now ≡ length self.now.design.now.signals.items }
        requires later { length self.now.assigned.now.both.later.now ≡ length self.now.design.now.signals.items }
        requires signal { s < length self.now.design.now.signals.items }
        ensures { IfOk result (λ n. made nodes.new n
            ≡ own_made self.now.design.now self.now.block.now turn
            (maps [] self.now.assigned.now.both.current.now self.now.assigned.now.both.later.now) nodes.old s so_far) }
    {
        let mask = self.mask(s);
        if mask == 0 {
            return Ok(so_far);
        }
        let width = self.width(s);
        let blend = Operation::Blend {
            mask,
            one: unsigned(self.left_for(s), width),
            other: unsigned(so_far, width),
        };
        let left = push(nodes, width, blend)?;
        turned(
            nodes,
            turn,
            Words {
                width,
                left,
                so_far,
            },
        )
    }

    /// All signals after the block where that counts, of which those that it drives are gone over.
    #[tactic(auto, using(crate::proofs::OwnSteps::owns_steps))]
    fn signals(
        &self,
        nodes: &mut Nodes,
        turn: Turn,
        driven: &[u32],
        map: &mut Items<u32>,
    ) -> Result<(), NoMemory>
        requires own { AreOwn self.now.design.now self.now.block.now self.now.registers.now
            self.now.assigned.now.drives self.now.assigned.now.later.items }
        requires current { length self.now.assigned.now.both.current.now ≡ length self.now.design.now.signals.items }
        requires later { length self.now.assigned.now.both.later.now ≡ length self.now.design.now.signals.items }
        requires driven { AreDriven self.now.design.now self.now.block.now driven.now }
        requires each { length map.old ≡ length self.now.design.now.signals.items }
        ensures ok { OnOk result (nodes_made nodes.new map.new
            ≡ owns_made self.now.design.now self.now.block.now turn
            (maps nodes.old self.now.assigned.now.both.current.now self.now.assigned.now.both.later.now)
            nodes.old map.old 0 (length self.now.design.now.signals.items)) }
        ensures each { length map.new ≡ length self.now.design.now.signals.items }
    {
        for i in 0..driven.len() {
            let s = driven[i] as usize;
            let so_far = map.as_slice()[s];
            let node = self.signal(nodes, turn, s, so_far)?;
            map.set(s, node);
        }
        Ok(())
    }
}

impl Block<'_> {
    /// Marks what the block assigns.
    #[tactic(auto, using(crate::proofs::AssignedSteps::assigns_steps))]
    fn mark(&self, assigned: &mut Assigned) -> Result<(), NoMemory>
        requires fits { IsTrue (list_all signal_fits self.now.design.now.signals.items) }
        requires registers { IsRow (register_mask self.now.design.now) (length self.now.design.now.signals.items) self.now.registers.now }
        requires blank { IsBlank (length self.now.design.now.signals.items) assigned.old }
        ensures own { OnOk result (AreOwn self.now.design.now self.now.block.now self.now.registers.now
            assigned.new.drives assigned.new.later.items) }
        ensures both { assigned.new.both ≡ assigned.old.both }
    {
        add_block(
            &mut assigned.drives,
            self.design.signals.as_slice(),
            self.block,
        )?;
        assigned.mark(true, self.block);
        Ok(())
    }

    /// Takes the marks back.
    #[tactic(auto, using(crate::proofs::AssignedSteps::assigns_steps))]
    fn unmark(&self, assigned: &mut Assigned)
        requires own { AreOwn self.now.design.now self.now.block.now self.now.registers.now
            assigned.old.drives assigned.old.later.items }
        ensures blank { AreBlank (length self.now.design.now.signals.items) assigned.new.drives assigned.new.later.items }
        ensures both { assigned.new.both ≡ assigned.old.both }
    {
        assigned.drives.clear();
        assigned.mark(false, self.block);
    }

    /// The signals that the block drives, in ascending order.
    #[tactic(auto, using(crate::proofs::AssignedSteps::driven_steps))]
    fn driven(&self, assigned: &Assigned) -> Result<Vec<u32>, NoMemory>
        requires few { length self.now.design.now.signals.items < 2 ^ 32 }
        requires own { AreOwn self.now.design.now self.now.block.now self.now.registers.now assigned.now.drives assigned.now.later.items }
        ensures { IfOk result (λ driven. AreDriven self.now.design.now self.now.block.now driven.items) }
    {
        let mut driven = numbers(self.alloc, assigned.drives.signals())?;
        ascending(&mut driven);
        Ok(driven)
    }

    /// What a statement of the block leaves where that counts.
    #[tactic(auto, using(crate::proofs::OwnSteps::left_steps))]
    fn left(
        &self,
        nodes: &mut Nodes,
        map: &mut Items<u32>,
        assigned: &mut Assigned,
        run: &Run,
    ) -> Result<(), NoMemory>
        requires few { length self.now.design.now.signals.items < 2 ^ 32 }
        requires own { AreOwn self.now.design.now self.now.block.now self.now.registers.now
            assigned.old.drives assigned.old.later.items }
        requires begun { HasBegun (length self.now.design.now.signals.items) assigned.old.both }
        requires each { length map.old ≡ length self.now.design.now.signals.items }
        requires fits { StatementFits self.now.design.now.signals.items run.now.statement.now }
        ensures ok { OnOk result (nodes_made nodes.new map.new
            ≡ left_made self.now.design.now self.now.block.now run.now.turn run.now.statement.now
            nodes.old assigned.old.both.current.now map.old) }
        ensures each { length map.new ≡ length self.now.design.now.signals.items }
        ensures drives { assigned.new.drives ≡ assigned.old.drives }
        ensures later { assigned.new.later ≡ assigned.old.later }
        ensures current { OnOk result (assigned.new.both.current.base ≡ assigned.old.both.current.base) }
        ensures current_later { OnOk result (assigned.new.both.later.base ≡ assigned.old.both.later.base) }
    {
        let signals = Left {
            alloc: self.alloc,
            signals: self.design.signals.as_slice(),
        };
        signals.statement(nodes, &mut assigned.both, run.statement)?;
        let driven = self.driven(assigned)?;
        let own = Own {
            design: self.design,
            block: self.block,
            registers: self.registers,
            assigned,
        };
        own.signals(nodes, run.turn, &driven, map)
    }

    /// What a statement of the block leaves where that counts, and nothing is assigned again.
    #[tactic(auto, using(crate::proofs::AssignedSteps::run_steps))]
    fn run(
        &self,
        nodes: &mut Nodes,
        map: &mut Items<u32>,
        assigned: &mut Assigned,
        run: &Run,
    ) -> Result<(), NoMemory>
        requires few { length self.now.design.now.signals.items < 2 ^ 32 }
        requires signals { IsTrue (list_all signal_fits self.now.design.now.signals.items) }
        requires registers { IsRow (register_mask self.now.design.now) (length self.now.design.now.signals.items) self.now.registers.now }
        requires blank { IsBlank (length self.now.design.now.signals.items) assigned.old }
        requires each { length map.old ≡ length self.now.design.now.signals.items }
        requires fits { StatementFits self.now.design.now.signals.items run.now.statement.now }
        ensures ok { OnOk result (nodes_made nodes.new map.new
            ≡ left_made self.now.design.now self.now.block.now run.now.turn run.now.statement.now
            nodes.old assigned.old.both.current.now map.old) }
        ensures each { length map.new ≡ length self.now.design.now.signals.items }
        ensures blank { OnOk result (IsBlank (length self.now.design.now.signals.items) assigned.new) }
        ensures both { OnOk result (assigned.new.both ≡ assigned.old.both) }
    {
        self.mark(assigned)?;
        self.left(nodes, map, assigned, run)?;
        self.unmark(assigned);
        assigned.both.undo();
        Ok(())
    }

    /// The values of the reset where it is active.
    #[tactic(auto, using(crate::proofs::OwnSteps::reset_steps))]
    pub(crate) fn reset(
        &self,
        nodes: &mut Nodes,
        map: &mut Items<u32>,
        assigned: &mut Assigned,
    ) -> Result<(), NoMemory>
        requires few { length self.now.design.now.signals.items < 2 ^ 32 }
        requires signals { IsTrue (list_all signal_fits self.now.design.now.signals.items) }
        requires registers { IsRow (register_mask self.now.design.now) (length self.now.design.now.signals.items) self.now.registers.now }
        requires blank { IsBlank (length self.now.design.now.signals.items) assigned.old }
        requires each { length map.old ≡ length self.now.design.now.signals.items }
        requires fits { BlockFits self.now.design.now self.now.block.now }
        ensures ok { OnOk result (nodes_made nodes.new map.new
            ≡ reset_made self.now.design.now assigned.old.both.current.now self.now.block.now self.now.block.now.reset
            nodes.old map.old) }
        ensures each { length map.new ≡ length self.now.design.now.signals.items }
        ensures blank { OnOk result (IsBlank (length self.now.design.now.signals.items) assigned.new) }
        ensures both { OnOk result (assigned.new.both ≡ assigned.old.both) }
    {
        match &self.block.reset {
            Some(reset) => {
                let test = active(nodes, assigned.both.current.as_slice(), reset)?;
                let run = Run {
                    turn: Turn::When(test),
                    statement: &reset.values,
                };
                self.run(nodes, map, assigned, &run)
            }
            None => Ok(()),
        }
    }

    /// The next states where the reset isn't active.
    #[tactic(auto, using(crate::proofs::OwnSteps::body_steps))]
    pub(crate) fn body(
        &self,
        nodes: &mut Nodes,
        map: &mut Items<u32>,
        assigned: &mut Assigned,
    ) -> Result<(), NoMemory>
        requires few { length self.now.design.now.signals.items < 2 ^ 32 }
        requires signals { IsTrue (list_all signal_fits self.now.design.now.signals.items) }
        requires registers { IsRow (register_mask self.now.design.now) (length self.now.design.now.signals.items) self.now.registers.now }
        requires blank { IsBlank (length self.now.design.now.signals.items) assigned.old }
        requires each { length map.old ≡ length self.now.design.now.signals.items }
        requires fits { BlockFits self.now.design.now self.now.block.now }
        ensures ok { OnOk result (nodes_made nodes.new map.new
            ≡ body_made self.now.design.now assigned.old.both.current.now self.now.block.now self.now.block.now.reset
            nodes.old map.old) }
        ensures each { length map.new ≡ length self.now.design.now.signals.items }
        ensures blank { OnOk result (IsBlank (length self.now.design.now.signals.items) assigned.new) }
        ensures both { OnOk result (assigned.new.both ≡ assigned.old.both) }
    {
        match &self.block.reset {
            Some(reset) => {
                let test = active(nodes, assigned.both.current.as_slice(), reset)?;
                let run = Run {
                    turn: Turn::Unless(test),
                    statement: &self.block.body,
                };
                self.run(nodes, map, assigned, &run)
            }
            None => {
                let run = Run {
                    turn: Turn::Always,
                    statement: &self.block.body,
                };
                self.run(nodes, map, assigned, &run)
            }
        }
    }
}
