ghost use Rattle.std.specs.Prelude.{◌≡◌, ◌==◌, ◌&&◌, ◌+ℤ◌, ℕ, IfSome, OnOk, option_map};
ghost use Rattle.loc_base.specs.Bits.{width_of, value_of};
ghost use Rattle.design_core.specs.Constant.{constant_of};
ghost use Rattle.design_core.specs.Drives.{is_among};
ghost use Rattle.design_core.specs.Operator.{integer_of};
ghost use Rattle.design_core.specs.Pick.{has_bit, is_at, may_pick};
ghost use Rattle.design_core.specs.Valuation.{position_at};
ghost use Rattle.design_bits.specs.Operands.{own_reads};
ghost use Rattle.place_functions.specs.Notes.{AddsNotes, note_has, of_place};

use design_core::{Node, Signal, Typed};
use loc_base::{Bits, NoMemory};
use plain_values::{position_from, width_at};

/// What the right side of a place reads: the same bits of each of so many signals from one on.
#[derive(Clone, Copy)]
pub(crate) struct Note {
    pub(crate) place: u32,
    pub(crate) first: u32,
    pub(crate) count: u32,
    pub(crate) from: u32,
    pub(crate) width: u32,
}

/// A signal of which the right side of a place has a part.
#[derive(Clone, Copy)]
pub(crate) struct Picked {
    pub(crate) place: u32,
    pub(crate) signal: u32,
}

impl Picked {
    /// A part of a signal that the right side of a place has.
    fn of(place: u32, signal: u32) -> Picked
        ensures { result ≡ record { place = place; signal = signal } }
    {
        Picked { place, signal }
    }
}

/// A constant index into a signal, and its sign, as the right side of a place has it.
#[derive(Clone, Copy)]
pub(crate) struct Fixed {
    pub(crate) place: u32,
    pub(crate) signal: u32,
    pub(crate) index: Bits,
    pub(crate) signed: bool,
}

impl Note {
    /// Bits of one signal, from a position on.
    #[tactic(auto, using(crate::proofs::NoteSteps::notes_of_one))]
    fn of(place: u32, signal: u32, from: u32, width: u32) -> Note
        ensures { (p s b : ℕ) → note_has p s b result ≡ of_place place (λ s b. s == signal && is_among from width b) p s b }
    {
        Note {
            place,
            first: signal,
            count: 1,
            from,
            width,
        }
    }
}

/// One note more.
#[tactic(auto, using(crate::proofs::NoteSteps::notes_pushed))]
fn push(notes: &mut Vec<Note>, note: Note) -> Result<(), NoMemory>
    ensures { OnOk result (AddsNotes notes.old.items notes.new.items (λ p s b. note_has p s b note)) }
{
    notes.push(note)?;
    Ok(())
}

/// The word of an index that is a constant.
fn constant_of(index: &Typed) -> Option<Bits>
    ensures value { option_map value_of result ≡ constant_of index.now.width index.now.node }
    ensures width { IfSome result (λ word. width_of word ≡ index.now.width) }
{
    match &index.node {
        Node::Const(word) if word.width() == index.width => Some(*word),
        _ => None,
    }
}

/// The position that a constant index with an offset has, where there is one.
fn position_at(signals: &[Signal], fixed: Fixed, offset: i32) -> Option<u32>
    ensures { result ≡ position_at signals.now fixed.signal (integer_of fixed.signed (width_of fixed.index) (value_of fixed.index) +ℤ offset) }
{
    match signals.get(fixed.signal as usize) {
        Some(declared) => position_from(declared, fixed.index, fixed.signed, offset),
        None => None,
    }
}

/// Notes the bit that a constant index with an offset has.
fn note_at(
    notes: &mut Vec<Note>,
    signals: &[Signal],
    fixed: Fixed,
    offset: i32,
) -> Result<(), NoMemory>
    ensures { OnOk result (AddsNotes notes.old.items notes.new.items (of_place fixed.place (λ s b. s == fixed.signal && is_at b (position_at signals.now fixed.signal (integer_of fixed.signed (width_of fixed.index) (value_of fixed.index) +ℤ offset))))) }
{
    match position_at(signals, fixed, offset) {
        Some(position) => push(notes, Note::of(fixed.place, fixed.signal, position, 1)),
        None => Ok(()),
    }
}

/// Notes the bits that a constant index has with some offsets.
fn note_fixed(
    notes: &mut Vec<Note>,
    signals: &[Signal],
    fixed: Fixed,
    offsets: &[i32],
) -> Result<(), NoMemory>
    ensures { OnOk result (AddsNotes notes.old.items notes.new.items (of_place fixed.place (λ s b. s == fixed.signal && has_bit signals.now fixed.signal (integer_of fixed.signed (width_of fixed.index) (value_of fixed.index)) offsets.now b))) }
{
    for offset in offsets {
        note_at(notes, signals, fixed, *offset)?;
    }
    Ok(())
}

/// Notes the bits that a part of a signal by an index may have (IEEE 1364-2005, 5.2.1).
fn note_pick(
    notes: &mut Vec<Note>,
    signals: &[Signal],
    picked: Picked,
    index: &Typed,
    offsets: &[i32],
) -> Result<(), NoMemory>
    ensures { OnOk result (AddsNotes notes.old.items notes.new.items (of_place picked.place (λ s b. s == picked.signal && may_pick signals.now picked.signal index.now.width index.now.signed index.now.node offsets.now b))) }
{
    match constant_of(index) {
        Some(word) => note_fixed(
            notes,
            signals,
            Fixed {
                place: picked.place,
                signal: picked.signal,
                index: word,
                signed: index.signed,
            },
            offsets,
        ),
        None => push(
            notes,
            Note::of(
                picked.place,
                picked.signal,
                0,
                u32::from(width_at(signals, picked.signal as usize)),
            ),
        ),
    }
}

/// Notes bits of a signal, from a position on.
fn note_bits(notes: &mut Vec<Note>, picked: Picked, from: u32, width: u32) -> Result<(), NoMemory>
    ensures { OnOk result (AddsNotes notes.old.items notes.new.items (of_place picked.place (λ s b. s == picked.signal && is_among from width b))) }
{
    push(notes, Note::of(picked.place, picked.signal, from, width))
}

/// Notes the bits that an expression's node reads itself.
pub(crate) fn note_own(
    notes: &mut Vec<Note>,
    place: u32,
    signals: &[Signal],
    read: &Typed,
) -> Result<(), NoMemory>
    ensures { OnOk result (AddsNotes notes.old.items notes.new.items (of_place place (λ s b. own_reads signals.now s b read.now.width read.now.node))) }
{
    match &read.node {
        Node::Whole(signal) => note_bits(
            notes,
            Picked::of(place, *signal),
            0,
            u32::from(read.width),
        ),
        Node::Slice {
            signal,
            from,
            width,
        } => note_bits(
            notes,
            Picked::of(place, *signal),
            u32::from(*from),
            u32::from(*width),
        ),
        Node::Pick {
            signal,
            index,
            offsets,
        } => note_pick(notes, signals, Picked::of(place, *signal), index, offsets),
        Node::Word {
            first,
            count,
            from,
            width,
            ..
        } => push(
            notes,
            Note {
                place,
                first: *first,
                count: *count,
                from: u32::from(*from),
                width: u32::from(*width),
            },
        ),
        Node::Const(_)
        | Node::Unary { .. }
        | Node::Binary { .. }
        | Node::Choose { .. }
        | Node::Join(_)
        | Node::Repeat { .. }
        | Node::Resize(_) => Ok(()),
    }
}
