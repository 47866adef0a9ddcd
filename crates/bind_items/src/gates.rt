//! Gates (IEEE 1364-2005, 7.1 to 7.3): each output is a place.
ghost use Rattle.std.specs.Prelude.{◌≡◌, Ok, IfOk, OnOk, IfErr};
ghost use Rattle.std.specs.Option.{option_map_or};
ghost use Rattle.v_syntax.specs.ItemTree as tree;
ghost use Rattle.v_hierarchy.specs.Paths.{below, line_part};
ghost use Rattle.v_binding.specs.Gates.{gate_of};
ghost use Rattle.v_binding.specs.Seen.{names_in};
ghost use Rattle.bind_scopes.specs.Refuses.{Refuses};
ghost use Rattle.v_binding.specs.Homes.{home_of};

use crate::inputs::inputs_at;
use crate::outputs::{Given, drive, outputs_at};
use crate::scene::Scene;
use crate::{gate_value, inputs_of, outputs_of, terminals_fit};
use bind_clocks::Bound;
use itoa::Buffer;
use loc_base::{Bytes, Name, NoMemory};
use std::alloc::Global;
use v_binding::{BindErr, Names};
use v_hierarchy::below;
use v_syntax::{GateInstance, GateKind, Site};

/// `@line`
#[tactic(auto, using(v_hierarchy::proofs::PathNames::line_name))]
fn line_part(alloc: Global, site: Site) -> Result<Name, NoMemory>
    ensures { IfOk result (λ n. n ≡ line_part site) }
{
    let mut buffer = Buffer::new();
    let mut text = Bytes::new(alloc);
    text.push(b'@')?;
    text.append(buffer.format(site.line).as_bytes())?;
    let name = Name::new(alloc, text.as_slice())?;
    Ok(name.unwrap())
}

/// The path of a gate; one without a name has its line.
fn gate_path(alloc: Global, path: &Name, gate: &GateInstance) -> Result<Name, NoMemory>
    ensures { IfOk result (λ n. n ≡ below path.now (option_map_or (λ name. name) gate.now.name (line_part gate.now.site))) }
{
    match &gate.name {
        Some(name) => below(alloc, path, name),
        None => {
            let line = line_part(alloc, gate.site)?;
            below(alloc, path, &line)
        }
    }
}

/// A gate as it is written.
#[derive(Clone, Copy)]
pub struct WrittenGate<'a> {
    pub kind: GateKind,
    pub written: &'a GateInstance,
}

/// A gate: outputs first, then inputs; then each output is driven.
pub fn gate(
    scene: Scene<'_>,
    names: &Names<'_>,
    gate: WrittenGate<'_>,
    bound: &mut Bound,
) -> Result<(), BindErr>
    ensures ok { OnOk result (gate_of scene.entry.frame.now (home_of scene.entry.home) (names_in names.now) gate.entry.kind (tree.gate_of gate.entry.written.now) bound.old ≡ Ok bound.new) }
    ensures err { IfErr result (λ e. Refuses (gate_of scene.entry.frame.now (home_of scene.entry.home) (names_in names.now) gate.entry.kind (tree.gate_of gate.entry.written.now) bound.old) e) }
{
    let WrittenGate { kind, written } = gate;
    let alloc = names.allocator();
    terminals_fit(kind, written)?;
    let terminals = written.terminals.as_slice();
    let outputs = outputs_at(names, outputs_of(kind, terminals))?;
    let inputs = inputs_at(names, kind, inputs_of(kind, terminals))?;
    let value = gate_value(alloc, kind, inputs)?;
    let path = gate_path(alloc, scene.home.path, written)?;
    let own = scene.at(&path);
    let given = Given {
        alloc,
        span: written.site.span,
        copy: bound.place_count()?,
        value: &value,
    };
    drive(own, &given, outputs, bound)?;
    Ok(())
}
