//! What a clocked block assigns while it becomes nodes, kept from block to block.
ghost use Rattle.std.specs.Prelude.{◌≡◌, ◌^◌, ◌<◌, length, All, IfOk};
ghost use Rattle.design_core.specs.Drives.{block_assigns_later};
ghost use Rattle.v_synth.specs.Owned.{IsBlank};
ghost use Rattle.v_synth.specs.Rows.{Marked};

use crate::marks::mark_block;
use design_bits::BitSet;
use design_core::Clocked;
use loc_base::NoMemory;
use node_map::Pair;
use std::alloc::Global;

/// The bits that a clocked block drives, whether it assigns each signal by `<=`, and the node of each signal that a statement
/// of it leaves. Between two blocks nothing is assigned, so a block costs what it assigns, however many signals there are.
pub(crate) struct Assigned {
    pub drives: BitSet,
    pub later: Vec<bool>,
    pub both: Pair,
}

impl Drop for Assigned {
    fn drop(self) {
        let Assigned {
            drives: _,
            later: _,
            both: _,
        } = self;
    }
}

impl Assigned {
    /// Nothing is assigned yet, and each signal has the node that blocks begin with.
    #[tactic(auto, using(crate::proofs::AssignedSteps::blank_steps))]
    pub(crate) fn new(alloc: Global, from: &[u32]) -> Result<Assigned, NoMemory>
        ensures blank { IfOk result (IsBlank (length from.now)) }
        ensures from { IfOk result (λ assigned. assigned.both.current.now ≡ from.now) }
    {
        Ok(Assigned {
            drives: BitSet::new(alloc, from.len())?,
            later: vec![in alloc; false; from.len()]?,
            both: Pair::new(alloc, from)?,
        })
    }

    /// Puts a mark at each signal that a block assigns by `<=`.
    pub(crate) fn mark(&mut self, mark: bool, block: &Clocked)
        ensures marked { Marked mark self.old.later.items self.new.later.items (λ s. block_assigns_later s block.now) }
        ensures drives { self.new.drives ≡ self.old.drives }
        ensures both { self.new.both ≡ self.old.both }
    {
        mark_block(&mut self.later, mark, block);
    }
}

/// The numbers of signals in 32 bits.
pub(crate) fn numbers(alloc: Global, signals: &[usize]) -> Result<Vec<u32>, NoMemory>
    requires { All (λ s. s < 2 ^ 32) signals.now }
    ensures { IfOk result (λ numbers. numbers.items ≡ signals.now) }
{
    let mut numbers = Vec::new(alloc);
    for i in 0..signals.len() {
        numbers.push(signals[i] as u32)?;
    }
    Ok(numbers)
}
