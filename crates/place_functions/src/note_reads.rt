ghost use Rattle.std.specs.Prelude.{OnOk};
ghost use Rattle.std.specs.List.{list_any};
ghost use Rattle.design_core.specs.Reads.{reads};
ghost use Rattle.design_bits.specs.Operands.{operands_read};
ghost use Rattle.place_functions.specs.Notes.{AddsNotes, of_place};

use crate::note::{Note, note_own};
use design_core::{Node, Signal, Typed};
use loc_base::NoMemory;

/// Notes the bits that an expression reads.
#[cycle(note_reads)]
pub(crate) fn note_reads(
    notes: &mut Vec<Note>,
    place: u32,
    signals: &[Signal],
    read: &Typed,
) -> Result<(), NoMemory>
    ensures { OnOk result (AddsNotes notes.old.items notes.new.items (of_place place (λ s b. reads signals.now s b read.now))) }
{
    note_own(notes, place, signals, read)?;
    note_parts(notes, place, signals, &read.node)
}

/// Notes the bits that the operands of a node read.
#[cycle(note_reads)]
fn note_parts(
    notes: &mut Vec<Note>,
    place: u32,
    signals: &[Signal],
    node: &Node,
) -> Result<(), NoMemory>
    ensures { OnOk result (AddsNotes notes.old.items notes.new.items (of_place place (λ s b. operands_read signals.now s b node.now))) }
{
    match node {
        Node::Const(_) | Node::Whole(_) | Node::Slice { .. } => Ok(()),
        Node::Pick { index, .. } => note_reads(notes, place, signals, index),
        Node::Word { index, .. } => note_reads(notes, place, signals, index),
        Node::Unary { arg, .. } => note_reads(notes, place, signals, arg),
        Node::Binary { left, right, .. } => {
            note_reads(notes, place, signals, left)?;
            note_reads(notes, place, signals, right)
        }
        Node::Choose { cond, yes, no } => {
            note_reads(notes, place, signals, cond)?;
            note_reads(notes, place, signals, yes)?;
            note_reads(notes, place, signals, no)
        }
        Node::Join(parts) => note_all(notes, place, signals, parts),
        Node::Repeat { part, .. } => note_reads(notes, place, signals, part),
        Node::Resize(arg) => note_reads(notes, place, signals, arg),
    }
}

/// Notes the bits that some expressions read.
#[cycle(note_reads)]
fn note_all(
    notes: &mut Vec<Note>,
    place: u32,
    signals: &[Signal],
    parts: &[Typed],
) -> Result<(), NoMemory>
    ensures { OnOk result (AddsNotes notes.old.items notes.new.items (of_place place (λ s b. list_any (reads signals.now s b) parts.now))) }
{
    for part in parts {
        note_reads(notes, place, signals, part)?;
    }
    Ok(())
}
