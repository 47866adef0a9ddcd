//! Items as they are written (IEEE 1364-2005, clauses 6, 7 and 9.9.1).
ghost use Rattle.std.specs.Prelude.{◌≡◌, map, Ok, OnOk, IfErr};
ghost use Rattle.v_syntax.specs.ItemTree as tree;
ghost use Rattle.v_binding.specs.Steps.{each};
ghost use Rattle.v_binding.specs.Assignments.{declarator_of, assignment_of};
ghost use Rattle.v_binding.specs.Gates.{gate_of};
ghost use Rattle.v_binding.specs.Items.{written_of};
ghost use Rattle.v_binding.specs.Seen.{names_in};
ghost use Rattle.bind_scopes.specs.Refuses.{Refuses};
ghost use Rattle.v_binding.specs.Homes.{home_of};
ghost use Rattle.bind_items.specs.Grounds.{ground_of};

use crate::declarations::{Declared, declarator};
use crate::ground::Ground;
use crate::initials::initial_block;
use crate::{Scene, WrittenGate, assignment, gate};
use bind_clocks::Bound;
use v_binding::{BindErr, Names};
use v_syntax::{Declarator, GateInstance, GateKind, Item, NetAssignment, NetKind};

/// The names of a declaration.
#[derive(Clone, Copy)]
struct Declarators<'a> {
    kind: NetKind,
    names: &'a [Declarator],
}

/// A declaration of nets or registers, each name in its turn.
fn declaration(
    scene: Scene<'_>,
    names: &Names<'_>,
    written: Declarators<'_>,
    bound: &mut Bound,
) -> Result<(), BindErr>
    ensures ok { OnOk result (each (declarator_of scene.entry.frame.now (home_of scene.entry.home) (names_in names.now) written.entry.kind) (map tree.declarator_of written.entry.names.now) bound.old ≡ Ok bound.new) }
    ensures err { IfErr result (λ e. Refuses (each (declarator_of scene.entry.frame.now (home_of scene.entry.home) (names_in names.now) written.entry.kind) (map tree.declarator_of written.entry.names.now) bound.old) e) }
{
    let Declarators { kind, names: list } = written;
    for one in list {
        let declared = Declared {
            kind,
            declarator: one,
        };
        declarator(scene, names, declared, bound)?;
    }
    Ok(())
}

/// Continuous assignments, each in its turn.
fn assignments(
    scene: Scene<'_>,
    names: &Names<'_>,
    list: &[NetAssignment],
    bound: &mut Bound,
) -> Result<(), BindErr>
    ensures ok { OnOk result (each (assignment_of scene.entry.frame.now (home_of scene.entry.home) (names_in names.now)) (map tree.assignment_of list.now) bound.old ≡ Ok bound.new) }
    ensures err { IfErr result (λ e. Refuses (each (assignment_of scene.entry.frame.now (home_of scene.entry.home) (names_in names.now)) (map tree.assignment_of list.now) bound.old) e) }
{
    for one in list {
        assignment(scene, names, one, bound)?;
    }
    Ok(())
}

/// Gates of one kind.
#[derive(Clone, Copy)]
struct GateList<'a> {
    kind: GateKind,
    list: &'a [GateInstance],
}

/// Gates of one kind, each in its turn.
fn gates(
    scene: Scene<'_>,
    names: &Names<'_>,
    written: GateList<'_>,
    bound: &mut Bound,
) -> Result<(), BindErr>
    ensures ok { OnOk result (each (gate_of scene.entry.frame.now (home_of scene.entry.home) (names_in names.now) written.entry.kind) (map tree.gate_of written.entry.list.now) bound.old ≡ Ok bound.new) }
    ensures err { IfErr result (λ e. Refuses (each (gate_of scene.entry.frame.now (home_of scene.entry.home) (names_in names.now) written.entry.kind) (map tree.gate_of written.entry.list.now) bound.old) e) }
{
    let GateList { kind, list } = written;
    for one in list {
        let own = WrittenGate { kind, written: one };
        gate(scene, names, own, bound)?;
    }
    Ok(())
}

/// An item as it is written.
#[tactic(auto, using(v_hierarchy::proofs::ItemSteps::item_steps))]
pub fn written_item(
    ground: Ground<'_>,
    names: &Names<'_>,
    item: &Item,
    bound: &mut Bound,
) -> Result<(), BindErr>
    ensures ok { OnOk result (written_of (ground_of ground.entry) (names_in names.now) (tree.item_of item.now) bound.old ≡ Ok bound.new) }
    ensures err { IfErr result (λ e. Refuses (written_of (ground_of ground.entry) (names_in names.now) (tree.item_of item.now) bound.old) e) }
{
    match item {
        Item::Declaration {
            site,
            net,
            names: list,
            ..
        } => {
            let written = Declarators {
                kind: *net,
                names: list.as_slice(),
            };
            declaration(ground.scene(*site), names, written, bound)
        }
        Item::Assigns {
            site,
            assignments: list,
            ..
        } => assignments(ground.scene(*site), names, list.as_slice(), bound),
        Item::Gates {
            site,
            kind,
            gates: list,
            ..
        } => {
            let written = GateList {
                kind: *kind,
                list: list.as_slice(),
            };
            gates(ground.scene(*site), names, written, bound)
        }
        Item::Initial { body, .. } => initial_block(names, body, bound),
        Item::Port { .. }
        | Item::Integers { .. }
        | Item::Genvars { .. }
        | Item::Parameters { .. }
        | Item::Always { .. }
        | Item::Instances { .. }
        | Item::Generate { .. }
        | Item::GenerateFor { .. }
        | Item::GenerateIf { .. } => Ok(()),
    }
}
