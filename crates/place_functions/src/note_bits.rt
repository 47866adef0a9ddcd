//! The bits that notes name.

ghost use Rattle.std.specs.Prelude.{◌≡◌, ◌==◌, ◌&&◌, ◌<◌, ◌≤◌, ◌^◌, ℕ, IfOk, OnOk, length, nat_lt};
ghost use Rattle.design_core.specs.Drives.{is_among};
ghost use Rattle.design_core.specs.Valuation.{width_at};
ghost use Rattle.place_functions.specs.Operands.{all_passing};
ghost use Rattle.place_functions.specs.Notes.{AddsBits, between, note_reads, some_reads};

use crate::note::Note;
use crate::signal_bit::SignalBit;
use design_core::Signal;
use loc_base::NoMemory;
use std::alloc::Global;

/// The end of so many numbers from one on, as far as they are below a limit.
#[tactic(auto, using(crate::proofs::BitSteps::ends))]
fn end_of(first: u32, count: u32, limit: u32) -> u32
    ensures among { (n : ℕ) → between first result n ≡ (is_among first count n && nat_lt n limit) }
    ensures order { first ≤ result }
    ensures within { first < result → result ≤ limit }
{
    first.saturating_add(count).min(limit).max(first)
}

/// Adds the bits that a note has in a signal of a width.
#[tactic(auto, using(crate::proofs::BitSteps::note_steps))]
fn add_signal(
    bits: &mut Vec<SignalBit>,
    note: &Note,
    signal: u32,
    width: u8,
) -> Result<(), NoMemory>
    ensures { OnOk result (AddsBits bits.old.items bits.new.items (λ s b. (signal == s) && (is_among note.now.from note.now.width b && nat_lt b width))) }
{
    let end = end_of(note.from, note.width, u32::from(width));
    for position in note.from..end {
        bits.push(SignalBit {
            signal,
            position: position as u8,
        })?;
    }
    Ok(())
}

/// Adds the bits that a note has in some signals.
#[tactic(auto, using(crate::proofs::BitSteps::note_steps))]
fn add_note(bits: &mut Vec<SignalBit>, signals: &[Signal], note: &Note) -> Result<(), NoMemory>
    requires { length signals.now < 2 ^ 32 }
    ensures { OnOk result (AddsBits bits.old.items bits.new.items (λ s b. note_reads s b note.now && nat_lt b (width_at signals.now s))) }
{
    let end = end_of(note.first, note.count, signals.len() as u32);
    for signal in note.first..end {
        add_signal(bits, note, signal, signals[signal as usize].width)?;
    }
    Ok(())
}

/// Adds the bits that notes have in some signals.
#[tactic(auto, using(crate::proofs::BitSteps::note_steps))]
fn add_notes(bits: &mut Vec<SignalBit>, signals: &[Signal], notes: &[Note]) -> Result<(), NoMemory>
    requires { length signals.now < 2 ^ 32 }
    ensures { OnOk result (AddsBits bits.old.items bits.new.items (λ s b. some_reads notes.now s b && nat_lt b (width_at signals.now s))) }
{
    for note in notes {
        add_note(bits, signals, note)?;
    }
    Ok(())
}

/// The bits of signals that notes have, each once, by signal and then position.
pub(crate) fn bits_of(
    alloc: Global,
    signals: &[Signal],
    notes: &[Note],
) -> Result<Vec<SignalBit>, NoMemory>
    requires { length signals.now < 2 ^ 32 }
    ensures { IfOk result (λ bits. bits.items ≡ all_passing (some_reads notes.now) 0 signals.now) }
{
    let mut bits = Vec::new(alloc);
    add_notes(&mut bits, signals, notes)?;
    bits.sort_unstable();
    bits.dedup();
    Ok(bits)
}
