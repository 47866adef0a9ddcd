//! Where expressions are read, and how nodes are made.
ghost use Rattle.std.specs.Prelude.{◌≡◌, ◌<◌, length, IfOk};
ghost use Rattle.word_net.specs.Build.{made, pushed};
ghost use Rattle.synth_parts.specs.Expression.{left_at, operand, right_at, select_of, signal_read, truth_made, unsigned};
ghost use Rattle.design_core.specs.Valuation.{width_at};

use design_core::{Signal, UnaryOp};
use loc_base::{Items, NoMemory};
use std::alloc::Global;
use word_net::{Operand, Operation, Select, WordNode};

/// The nodes of a net that is being made.
pub type Nodes = Items<WordNode>;

/// The signals, and the node of each.
#[derive(Clone, Copy)]
pub(crate) struct Scene<'a> {
    pub alloc: Global,
    pub signals: &'a [Signal],
    pub nodes_of: &'a [u32],
}

/// A new node, by its number. More than 4,294,967,295 nodes find no memory.
#[inline(never)]
#[tactic(auto, unfolding(word_net::specs::Build::pushed))]
pub fn push(nodes: &mut Nodes, width: u8, operation: Operation) -> Result<u32, NoMemory>
    ensures { IfOk result (λ n. made nodes.new n ≡ pushed nodes.old width operation) }
{
    let Ok(number) = u32::try_from(nodes.len()) else {
        return Err(NoMemory);
    };
    nodes.push(WordNode { width, operation })?;
    Ok(number)
}

/// A node as it is read, without a sign.
pub fn unsigned(node: u32, width: u8) -> Operand
    ensures { result ≡ unsigned node width }
{
    Operand {
        node,
        width,
        signed: false,
    }
}

/// The truth value of a word: the OR of its bits.
#[inline(never)]
#[tactic(auto, unfolding(crate::specs::Expression::truth_made))]
pub(crate) fn truth(nodes: &mut Nodes, word: u32, width: u8) -> Result<u32, NoMemory>
    ensures { IfOk result (λ n. made nodes.new n ≡ truth_made nodes.old word width) }
{
    let arg = unsigned(word, width);
    push(
        nodes,
        1,
        Operation::Unary {
            op: UnaryOp::ReduceOr,
            arg,
        },
    )
}

impl Scene<'_> {
    /// The node of a signal as it is read.
    #[tactic(auto, using(crate::proofs::Scenes::signals_at))]
    pub(crate) fn read(&self, signal: u32) -> Operand
        requires signal { signal < length self.now.signals.now }
        requires each { length self.now.nodes_of.now ≡ length self.now.signals.now }
        ensures { result ≡ signal_read self.now.signals.now self.now.nodes_of.now signal }
    {
        unsigned(
            self.nodes_of[signal as usize],
            self.signals[signal as usize].width,
        )
    }

    /// Bits of a signal by a variable index.
    #[inline(never)]
    #[tactic(auto, using(crate::proofs::Scenes::signals_at))]
    pub(crate) fn select(
        &self,
        signal: u32,
        index: Operand,
        offsets: &[i32],
    ) -> Result<Select, NoMemory>
        requires { signal < length self.now.signals.now }
        ensures { IfOk result (λ select. select ≡ select_of self.now.signals.now signal index offsets.now) }
    {
        let signal = &self.signals[signal as usize];
        Ok(Select {
            index,
            left: signal.left,
            right: signal.right,
            offsets: Items::copy_of(self.alloc, offsets)?,
        })
    }
}
