//! What a name with its selects is by itself (IEEE 1364-2005, 5.2, 5.4.1 and 5.5.1).
ghost use Rattle.std.specs.Prelude.{◌≡◌, ◌≤◌, ◌∷◌, ℕ, true, false, Some, not, [], ◌+◌, ℤ, if◌then◌else◌, map};
ghost use Rattle.std.specs.List.{list_all};
ghost use Rattle.v_sizes.specs.declared.meaning.Meaning.{Meaning};
ghost use Rattle.v_sizes.specs.declared.meaning.Meaning.TheVariants as meaning;
ghost use Rattle.design_core.specs.Constant.{zeros};
ghost use Rattle.design_core.specs.Valuation.{word_at};
ghost use Rattle.v_sizes.specs.Context.{IsMeaning};
ghost use Rattle.v_sizes.specs.Sizing.{own, known, is_none, is_chosen_by_constants, names_no_bit, one_bit, meaning_sizing, name_sizing};
ghost use Rattle.v_selects.specs.Named.{chosen_in};
ghost use Rattle.v_selects.specs.Sizes.{IsSizeOf};
ghost use Rattle.v_selects.specs.Taken.{taken};

use crate::closed::{Closed, Picked};
use crate::name_node::Words;
use crate::part_select::value_of_part;
use crate::places::word_at;
use crate::selected::Bounds;
use crate::taken::known;
use v_sizes::{Const, Meaning};

/// A width and a sign, whether it reads no signal, and the number that it then is.
#[derive(Clone, Copy)]
pub(crate) struct OwnSize {
    pub width: u8,
    pub signed: bool,
    pub constant: bool,
    pub number: u128,
}

/// What reads a signal.
fn variable(width: u8, signed: bool) -> OwnSize
    ensures { result ≡ record { width = width; signed = signed; constant = false; number = 0 } }
{
    OwnSize {
        width,
        signed,
        constant: false,
        number: 0,
    }
}

/// Whether all numbers of some selects are constants.
fn are_constant(chosen: &[Picked]) -> bool
    ensures { result ≡ list_all is_chosen_by_constants (map chosen_in chosen.now) }
{
    for one in chosen {
        if !one.is_constant() {
            return false;
        }
    }
    true
}

/// A parameter or a loop's variable by itself.
fn whole_constant(value: Const) -> OwnSize
    ensures { (left right : ℤ) → IsSizeOf result (meaning_sizing (meaning.Constant value left right) []) }
{
    OwnSize {
        width: value.bits.width(),
        signed: value.signed,
        constant: true,
        number: value.bits.value(),
    }
}

/// A parameter or a loop's variable with its select.
#[tactic(auto, using(crate::proofs::NameLaws::constants))]
fn constant_size(value: Const, bounds: Bounds, chosen: &[Picked]) -> OwnSize
    ensures { IsSizeOf result (meaning_sizing (meaning.Constant value bounds.left bounds.right) (map chosen_in chosen.now)) }
{
    match chosen.split_first() {
        None => whole_constant(value),
        Some((one, _)) => OwnSize {
            width: one.width(),
            signed: false,
            constant: are_constant(chosen),
            number: value_of_part(value.bits, bounds, one.as_part()),
        },
    }
}

/// Whether the first select is by constants and names no bit of a word.
fn names_no_bit(width: u8, bounds: Bounds, chosen: &[Picked]) -> bool
    ensures { result ≡ names_no_bit width bounds.left bounds.right (map chosen_in chosen.now) }
{
    match chosen.split_first() {
        None => false,
        Some((one, _)) => one.is_constant() && one.has_no_bit(width, bounds),
    }
}

/// Whether a word with its select has no bit that is there.
fn has_no_bit(words: Words, index: &Closed, rest: &[Picked]) -> bool
    requires { words.first + words.count ≤ 4294967295 }
    ensures { result ≡ (if index.now.constant then is_none (word_at words.first words.count words.low (known (taken index.now))) else names_no_bit words.width words.bounds.left words.bounds.right (map chosen_in rest.now)) }
{
    if index.constant {
        !is_word(words, index)
    } else {
        names_no_bit(words.width, words.bounds, rest)
    }
}

/// A word of an array with its select. It is a constant only where no bit of it is there.
fn word_size(words: Words, signed: bool, index: &Closed, rest: &[Picked]) -> OwnSize
    requires { words.first + words.count ≤ 4294967295 }
    ensures { IsSizeOf result (meaning_sizing (meaning.Array words.first words.count words.low words.width signed words.bounds.left words.bounds.right) (one_bit (taken index.now) ∷ map chosen_in rest.now)) }
{
    let constant = has_no_bit(words, index, rest);
    match rest.split_first() {
        None => OwnSize {
            width: words.width,
            signed,
            constant,
            number: 0,
        },
        Some((one, _)) => OwnSize {
            width: one.width(),
            signed: false,
            constant,
            number: 0,
        },
    }
}

/// Whether an index is an address of an array.
fn is_word(words: Words, index: &Closed) -> bool
    requires { words.first + words.count ≤ 4294967295 }
    ensures { result ≡ not (is_none (word_at words.first words.count words.low (known (taken index.now)))) }
{
    match word_at(words.first, words.count, words.low, known(index)) {
        Some(_) => true,
        None => false,
    }
}

/// A signal with its select.
fn signal_size(width: u8, signed: bool, chosen: &[Picked]) -> OwnSize
    ensures { (signal : ℕ) (left right : ℤ) → IsSizeOf result (meaning_sizing (meaning.Signal signal width signed left right) (map chosen_in chosen.now)) }
{
    match chosen.split_first() {
        None => variable(width, signed),
        Some((one, _)) => variable(one.width(), false),
    }
}

/// A name of an array with its selects.
fn array_size(words: Words, signed: bool, chosen: &[Picked]) -> OwnSize
    requires { words.first + words.count ≤ 4294967295 }
    ensures { IsSizeOf result (meaning_sizing (meaning.Array words.first words.count words.low words.width signed words.bounds.left words.bounds.right) (map chosen_in chosen.now)) }
{
    match chosen.split_first() {
        None => variable(words.width, false),
        Some((one, rest)) => match one {
            Picked::Bit(index) => word_size(words, signed, index.get(), rest),
            Picked::Part {
                kind: _,
                one: _,
                other: _,
            } => variable(words.width, false),
        },
    }
}

/// What a name with its selects is by itself; one that the scope lacks counts as 1 bit.
pub(crate) fn name_size(meaning: Option<Meaning>, chosen: &[Picked]) -> OwnSize
    requires { (m : Meaning) → meaning ≡ Some m → IsMeaning m }
    ensures { IsSizeOf result (name_sizing meaning (map chosen_in chosen.now)) }
{
    let Some(meaning) = meaning else {
        return variable(1, false);
    };
    match meaning {
        Meaning::Constant { value, left, right } => {
            constant_size(value, Bounds { left, right }, chosen)
        }
        Meaning::Signal {
            signal: _,
            width,
            signed,
            left: _,
            right: _,
        } => signal_size(width, signed, chosen),
        Meaning::Array {
            first,
            count,
            low,
            width,
            signed,
            left,
            right,
        } => {
            let words = Words {
                first,
                count,
                low,
                width,
                bounds: Bounds { left, right },
            };
            array_size(words, signed, chosen)
        }
    }
}
