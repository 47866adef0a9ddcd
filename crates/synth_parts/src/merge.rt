//! Two arms of a statement become one.
ghost use Rattle.std.specs.Prelude.{◌≡◌, ◌^◌, ◌<◌, length, set, IfOk, OnOk};
ghost use Rattle.node_map.specs.Entries.{AreWithin};
ghost use Rattle.word_net.specs.Build.{made};
ghost use Rattle.synth_parts.specs.Statement.{chosen_made, maps};
ghost use Rattle.synth_parts.specs.Store.{nodes_made};
ghost use Rattle.synth_parts.specs.Rows.{entry_row, rows_merged};

use crate::scene::{Nodes, push, unsigned};
use design_core::Signal;
use loc_base::NoMemory;
use node_map::{Kept, NodeMap, Pair};
use word_net::Operation;

/// A choice for one signal: the node of the condition, the signal, and its width.
#[derive(Clone, Copy)]
struct Fork {
    test: u32,
    width: u8,
    signal: u32,
}

/// One of two words, where they differ.
#[tactic(auto, unfolding(crate::specs::Statement::chosen_made))]
fn chosen(nodes: &mut Nodes, fork: Fork, one: u32, other: u32) -> Result<u32, NoMemory>
    ensures { IfOk result (λ n. made nodes.new n ≡ chosen_made nodes.old fork.test fork.width one other) }
{
    if one == other {
        return Ok(other);
    }
    let choose = Operation::Choose {
        cond: unsigned(fork.test, 1),
        yes: unsigned(one, fork.width),
        no: unsigned(other, fork.width),
    };
    push(nodes, fork.width, choose)
}

/// The node that one arm left for a signal is merged into the map of the other.
#[tactic(auto, unfolding(crate::specs::Rows::entry_row))]
fn row(nodes: &mut Nodes, fork: Fork, one: u32, map: &mut NodeMap) -> Result<(), NoMemory>
    requires { fork.signal < length map.old.now }
    ensures ok { OnOk result (nodes_made nodes.new map.new.now ≡ entry_row nodes.old fork.test fork.width fork.signal one map.old.now) }
    ensures base { map.new.base ≡ map.old.base }
    ensures each { length map.new.now ≡ length map.old.now }
{
    let other = map.as_slice()[fork.signal as usize];
    let node = chosen(nodes, fork, one, other)?;
    map.set(fork.signal, node)
}

/// Two arms become one: what one arm left at some signals is merged into the maps of the other, signal by signal, the map
/// that is read before that of later updates.
#[tactic(auto, using(crate::proofs::RowSteps::steps, crate::proofs::Scenes::signals_at))]
pub(crate) fn merge(
    nodes: &mut Nodes,
    signals: &[Signal],
    test: u32,
    arm: &Kept,
    other: &mut Pair,
) -> Result<(), NoMemory>
    requires few { length signals.now < 2 ^ 32 }
    requires within { AreWithin (length signals.now) arm.now.current }
    requires both { length arm.now.later ≡ length arm.now.current }
    requires current { length other.old.current.now ≡ length signals.now }
    requires later { length other.old.later.now ≡ length signals.now }
    ensures ok { OnOk result (maps nodes.new other.new.current.now other.new.later.now ≡ rows_merged signals.now test arm.now.current arm.now.later (maps nodes.old other.old.current.now other.old.later.now)) }
    ensures base { other.new.current.base ≡ other.old.current.base }
    ensures base_later { other.new.later.base ≡ other.old.later.base }
    ensures current { length other.new.current.now ≡ length signals.now }
    ensures later { length other.new.later.now ≡ length signals.now }
{
    for i in 0..arm.current.len() {
        let one = arm.current[i];
        let fork = Fork {
            test,
            width: signals[one.signal as usize].width,
            signal: one.signal,
        };
        row(nodes, fork, one.node, &mut other.current)?;
        row(nodes, fork, arm.later[i].node, &mut other.later)?;
    }
    Ok(())
}
