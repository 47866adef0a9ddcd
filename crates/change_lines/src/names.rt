//! What a change is called by: the suspect, the line and the signal of a place, and a signal with a value.
ghost use Rattle.std.specs.Prelude.{◌≡◌, ◌++◌, OnOk, decimal, map};
ghost use Rattle.std.specs.List.{flat_map};
ghost use Rattle.design_core.specs.Explained.{is_one_of};
ghost use Rattle.design_core.specs.Words.{AreWordsOf, valuation_of};
ghost use Rattle.design_core.specs.Works.{suspect_has};
ghost use Rattle.printed_text.specs.Numerals.{value_text};
ghost use Rattle.change_lines.specs.Lines.{line_of, member_of, name_at, name_of, operands_text, shown, shown_text};
ghost use Rattle.change_lines.specs.Telling.{places_in};

use design_core::Design;
use loc_base::{Bits, NoMemory};
use printed_text::{push_bytes, push_number, push_value};
use suspect_map::Group;

/// Whether a place is one of some.
fn is_one_of(places: &[u32], place: u32) -> bool
    ensures { result ≡ is_one_of places.now place }
{
    for own in places {
        if *own == place {
            return true;
        }
    }
    false
}

/// Whether a suspect has a place.
fn has(groups: &[Group], place: u32, suspect: u32) -> bool
    ensures { result ≡ suspect_has (map places_in groups.now) place suspect }
{
    if suspect < 1 {
        return false;
    }
    match groups.get(suspect as usize - 1) {
        Some(group) => is_one_of(group.places.as_slice(), place),
        None => false,
    }
}

/// The first of some members that has a place, 0 where none has.
pub(crate) fn member_of(groups: &[Group], members: &[u32], place: u32) -> u32
    ensures { result ≡ member_of (map places_in groups.now) members.now place }
{
    for member in members {
        if has(groups, place, *member) {
            return *member;
        }
    }
    0
}

/// The line of a place.
pub(crate) fn line_of(design: &Design, place: u32) -> u32
    ensures { result ≡ line_of design.now place }
{
    match design.places.get(place as usize) {
        Some(place) => place.line,
        None => 0,
    }
}

/// Appends the name of a signal.
fn push_signal(text: &mut Vec<u8>, design: &Design, signal: usize) -> Result<(), NoMemory>
    ensures { OnOk result (text.new.items ≡ text.old.items ++ name_at design.now signal) }
{
    match design.signals.get(signal) {
        Some(signal) => push_bytes(text, signal.path.as_bytes()),
        None => Ok(()),
    }
}

/// Appends the name of the first signal that a place's left side names.
pub(crate) fn push_place(text: &mut Vec<u8>, design: &Design, place: u32) -> Result<(), NoMemory>
    ensures { OnOk result (text.new.items ≡ text.old.items ++ name_of design.now place) }
{
    match design.places.get(place as usize) {
        Some(place) => push_signal(text, design, place.signal as usize),
        None => Ok(()),
    }
}

/// Appends the word of a signal.
fn push_word(
    text: &mut Vec<u8>,
    design: &Design,
    words: &[Bits],
    signal: usize,
) -> Result<(), NoMemory>
    requires { AreWordsOf design.now.signals.items words.now }
    ensures { OnOk result (text.new.items ≡ text.old.items
        ++ value_text (shown design.now (valuation_of words.now) signal).width (shown design.now (valuation_of words.now) signal).value) }
{
    match words.get(signal) {
        Some(word) => push_value(text, *word),
        None => Ok(()),
    }
}

/// Appends a signal with its value.
fn push_shown(
    text: &mut Vec<u8>,
    design: &Design,
    words: &[Bits],
    signal: usize,
) -> Result<(), NoMemory>
    requires { AreWordsOf design.now.signals.items words.now }
    ensures { OnOk result (text.new.items ≡ text.old.items ++ shown_text (shown design.now (valuation_of words.now) signal)) }
{
    push_bytes(text, b" ")?;
    push_signal(text, design, signal)?;
    push_bytes(text, b"=")?;
    push_word(text, design, words, signal)
}

/// Appends signals with their values.
fn push_all_shown(
    text: &mut Vec<u8>,
    design: &Design,
    words: &[Bits],
    signals: &[usize],
) -> Result<(), NoMemory>
    requires { AreWordsOf design.now.signals.items words.now }
    ensures { OnOk result (text.new.items ≡ text.old.items
        ++ flat_map (λ s. shown_text (shown design.now (valuation_of words.now) s)) signals.now) }
{
    for signal in signals {
        push_shown(text, design, words, *signal)?;
    }
    Ok(())
}

/// Appends `; NAME=HEX ..`, and nothing where there are no signals.
#[tactic(auto, using(crate::proofs::ShownLaws::operand_texts))]
pub(crate) fn push_operands(
    text: &mut Vec<u8>,
    design: &Design,
    words: &[Bits],
    signals: &[usize],
) -> Result<(), NoMemory>
    requires { AreWordsOf design.now.signals.items words.now }
    ensures { OnOk result (text.new.items ≡ text.old.items
        ++ operands_text (map (shown design.now (valuation_of words.now)) signals.now)) }
{
    if signals.is_empty() {
        return Ok(());
    }
    push_bytes(text, b";")?;
    push_all_shown(text, design, words, signals)
}

/// Appends a piece, and then a number.
pub(crate) fn push_numbered(text: &mut Vec<u8>, piece: &[u8], number: u32) -> Result<(), NoMemory>
    ensures { OnOk result (text.new.items ≡ text.old.items ++ piece.now ++ decimal number) }
{
    push_bytes(text, piece)?;
    push_number(text, u64::from(number))
}
