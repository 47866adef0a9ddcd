ghost use Rattle.std.specs.Prelude.{◌≡◌, ◌<◌, length, IsTrue, ◌∷◌, []};
ghost use Rattle.std.specs.List.{list_all};
ghost use Rattle.loc_base.specs.Bits.{width_of, value_of};
ghost use Rattle.design_core.specs.Operator.{integer_of};
ghost use Rattle.design_core.specs.Valuation.{Valuation, bit};
ghost use Rattle.design_core.specs.Store.{part_width, store_part, with_picked};
ghost use Rattle.design_core.specs.After.{after_set};
ghost use Rattle.design_core.specs.declared.statement.Part.TheVariants.{Whole};
ghost use Rattle.design_core.specs.WellFormed.{part_fits};
ghost use Rattle.design_core.specs.Words.{valuation_of, AreWordsOf};
ghost use Rattle.plain_values.specs.Evaluate.{part_index, as_index};

use crate::expression::value;
use crate::select::{array_word, position_from};
use crate::signals::signal_at;
use crate::write::write;
use design_core::{Part, Signal};
use loc_base::Bits;

/// The number of bits of a part of a left side.
fn part_width(signals: &[Signal], part: &Part) -> u8
    requires { IsTrue (part_fits signals.now part.now) }
    ensures { result ≡ part_width signals.now part.now }
{
    match part {
        Part::Whole(signal) => signal_at(signals, *signal as usize).width,
        Part::Slice { width, .. } | Part::Word { width, .. } => *width,
        Part::Pick { offsets, .. } => offsets.len() as u8,
    }
}

/// The word of the variable index of a part; any word where it has none.
fn part_index(signals: &[Signal], words: &[Bits], part: &Part) -> Bits
    requires words { AreWordsOf signals.now words.now }
    requires fits { IsTrue (part_fits signals.now part.now) }
    ensures { as_index part.now result ≡ part_index signals.now (valuation_of words.now) part.now }
{
    match part {
        Part::Pick { index, .. } | Part::Word { index, .. } => value(signals, words, index),
        _ => Bits::zero(1),
    }
}

/// Replaces each bit of a signal that has an index and one of the offsets, where there is one, by a bit of a value.
fn write_picked(
    signals: &[Signal],
    words: &mut [Bits],
    signal: usize,
    at: Bits,
    signed: bool,
    offsets: &[i32],
    value: Bits,
)
    requires words { AreWordsOf signals.now words.old }
    requires signal { signal < length signals.now }
    ensures words { AreWordsOf signals.now words.new }
    ensures value { let index = integer_of signed (width_of at) (value_of at) in
        valuation_of words.new
        ≡ with_picked signals.now (valuation_of words.old) signal index 0 offsets.now (bit (value_of value)) }
{
    let declared = signal_at(signals, signal);
    for (b, offset) in offsets.iter().enumerate() {
        if let Some(position) = position_from(declared, at, signed, *offset) {
            write(
                words,
                signal,
                position as u8,
                1,
                value.shift_right(b as u128),
            );
        }
    }
}

/// Stores the lowest bits of a value into a part of a left side, whose variable index is a word that was read before.
fn store_part(signals: &[Signal], words: &mut [Bits], part: &Part, at: Bits, value: Bits)
    requires words { AreWordsOf signals.now words.old }
    requires fits { IsTrue (part_fits signals.now part.now) }
    ensures words { AreWordsOf signals.now words.new }
    ensures value { (E : Valuation) → as_index part.now at ≡ part_index signals.now E part.now
        → valuation_of words.new ≡ store_part signals.now E (valuation_of words.old) part.now (bit (value_of value)) }
{
    match part {
        Part::Whole(signal) => {
            let width = signal_at(signals, *signal as usize).width;
            write(words, *signal as usize, 0, width, value);
        }
        Part::Slice {
            signal,
            from,
            width,
        } => write(words, *signal as usize, *from, *width, value),
        Part::Pick {
            signal,
            index,
            offsets,
        } => {
            write_picked(
                signals,
                words,
                *signal as usize,
                at,
                index.signed,
                offsets,
                value,
            );
        }
        Part::Word {
            first,
            count,
            low,
            index,
            from,
            width,
        } => {
            if let Some(signal) = array_word(*first, *count, *low, at, index.signed) {
                write(words, signal, *from, *width, value);
            }
        }
    }
}

/// Assigns a value to a signal as a whole.
fn assign_whole(
    signals: &[Signal],
    now: &mut [Bits],
    later: &mut [Bits],
    signal: u32,
    value: Bits,
    is_later: bool,
)
    requires now { AreWordsOf signals.now now.old }
    requires later { AreWordsOf signals.now later.old }
    requires signal { signal < length signals.now }
    ensures now_words { AreWordsOf signals.now now.new }
    ensures later_words { AreWordsOf signals.now later.new }
    ensures value { record { now = valuation_of now.new; later = valuation_of later.new }
        ≡ after_set signals.now (Whole signal ∷ []) (bit (value_of value)) is_later
        (record { now = valuation_of now.old; later = valuation_of later.old }) }
{
    let width = signal_at(signals, signal as usize).width;
    if is_later {
        write(later, signal as usize, 0, width, value);
    } else {
        write(now, signal as usize, 0, width, value);
    }
}

/// Assigns a value to a left side of one part by its index, which is read before it is stored.
#[inline(never)]
fn assign_part(
    signals: &[Signal],
    now: &mut [Bits],
    later: &mut [Bits],
    part: &Part,
    value: Bits,
    is_later: bool,
)
    requires now { AreWordsOf signals.now now.old }
    requires later { AreWordsOf signals.now later.old }
    requires fits { IsTrue (part_fits signals.now part.now) }
    ensures now_words { AreWordsOf signals.now now.new }
    ensures later_words { AreWordsOf signals.now later.new }
    ensures value { record { now = valuation_of now.new; later = valuation_of later.new }
        ≡ after_set signals.now (part.now ∷ []) (bit (value_of value)) is_later
        (record { now = valuation_of now.old; later = valuation_of later.old }) }
{
    let at = part_index(signals, now, part);
    if is_later {
        store_part(signals, later, part, at, value);
    } else {
        store_part(signals, now, part, at, value);
    }
}

/// Assigns a value to a left side of one part, whose index is read before it is stored. Most are whole signals, which have none.
fn assign_one(
    signals: &[Signal],
    now: &mut [Bits],
    later: &mut [Bits],
    part: &Part,
    value: Bits,
    is_later: bool,
)
    requires now { AreWordsOf signals.now now.old }
    requires later { AreWordsOf signals.now later.old }
    requires fits { IsTrue (part_fits signals.now part.now) }
    ensures now_words { AreWordsOf signals.now now.new }
    ensures later_words { AreWordsOf signals.now later.new }
    ensures value { record { now = valuation_of now.new; later = valuation_of later.new }
        ≡ after_set signals.now (part.now ∷ []) (bit (value_of value)) is_later
        (record { now = valuation_of now.old; later = valuation_of later.old }) }
{
    match part {
        Part::Whole(signal) => assign_whole(signals, now, later, *signal, value, is_later),
        _ => assign_part(signals, now, later, part, value, is_later),
    }
}

/// Assigns a value to a left side (IEEE 1364-2005, 9.2), its parts from the left, each index read before the first of
/// them is stored: into the words of later updates where `is_later` is true, else into those that are read.
pub fn assign(
    signals: &[Signal],
    now: &mut [Bits],
    later: &mut [Bits],
    parts: &[Part],
    value: Bits,
    is_later: bool,
)
    requires now { AreWordsOf signals.now now.old }
    requires later { AreWordsOf signals.now later.old }
    requires fits { IsTrue (list_all (part_fits signals.now) parts.now) }
    ensures now_words { AreWordsOf signals.now now.new }
    ensures later_words { AreWordsOf signals.now later.new }
    ensures value { record { now = valuation_of now.new; later = valuation_of later.new }
        ≡ after_set signals.now parts.now (bit (value_of value)) is_later
        (record { now = valuation_of now.old; later = valuation_of later.old }) }
{
    if let [only] = parts {
        assign_one(signals, now, later, only, value, is_later);
    } else if let Some((last, left)) = parts.split_last() {
        let at = part_index(signals, now, last);
        let high = value.shift_right(u128::from(part_width(signals, last)));
        assign(signals, now, later, left, high, is_later);
        if is_later {
            store_part(signals, later, last, at, value);
        } else {
            store_part(signals, now, last, at, value);
        }
    }
}
