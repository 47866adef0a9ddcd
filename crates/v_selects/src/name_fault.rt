//! What is wrong with a name by itself (IEEE 1364-2005, 4.9, 5.2).
ghost use Rattle.std.specs.Prelude.{◌≡◌, true, map};
ghost use Rattle.v_sizes.specs.Refusals.{chosen_fault, word_fault, name_fault};
ghost use Rattle.v_sizes.specs.Selected.{descends};
ghost use Rattle.v_selects.specs.Picked.{array_fault};
ghost use Rattle.v_selects.specs.Named.{chosen_in};

use crate::closed::Picked;
use crate::selected::{Bounds, descends};
use loc_base::Span;
use v_sizes::{Meaning, WidthErr};

/// What a word wants of its select, and of the expression in which it stands.
#[derive(Clone, Copy)]
struct Wants {
    /// Whether it is a signal where constants alone may stand.
    constant: bool,
    /// Whether each index must be a constant.
    all: bool,
    /// Whether the range of the word descends.
    down: bool,
}

/// What a word of a range wants.
fn wants_of(constant: bool, all: bool, bounds: Bounds) -> Wants
    ensures { result ≡ record { constant = constant; all = all; down = descends bounds.left bounds.right } }
{
    Wants {
        constant,
        all,
        down: descends(bounds),
    }
}

/// What is wrong with the select of a word.
fn chosen_fault(span: Span, wants: Wants, chosen: &Picked) -> Option<WidthErr>
    ensures { result ≡ chosen_fault span wants.all wants.down (chosen_in chosen.now) }
{
    if !chosen.has_known_size() || wants.all && !chosen.is_constant() {
        Some(WidthErr::NotConstant(span))
    } else if chosen.is_bad(wants.down) {
        Some(WidthErr::Range(span))
    } else {
        None
    }
}

/// What is wrong with a word and its selects: it has at most one.
fn word_fault(span: Span, wants: Wants, chosen: &[Picked]) -> Option<WidthErr>
    ensures { result ≡ word_fault span wants.constant wants.all wants.down (map chosen_in chosen.now) }
{
    match chosen.split_first() {
        None => {
            if wants.constant {
                Some(WidthErr::NotConstant(span))
            } else {
                None
            }
        }
        Some((one, rest)) => match rest.split_first() {
            None => {
                if wants.constant {
                    Some(WidthErr::NotConstant(span))
                } else {
                    chosen_fault(span, wants, one)
                }
            }
            Some((_, _)) => Some(WidthErr::UnknownName(span)),
        },
    }
}

/// What is wrong with a word of an array, by its index and what stands behind.
fn array_fault(span: Span, wants: Wants, chosen: &[Picked]) -> Option<WidthErr>
    requires { wants.all ≡ true }
    ensures { result ≡ array_fault span wants.constant wants.down (map chosen_in chosen.now) }
{
    match chosen.split_first() {
        None => Some(WidthErr::UnknownName(span)),
        Some((one, rest)) => match one {
            Picked::Bit(_) => word_fault(span, wants, rest),
            Picked::Part {
                kind: _,
                one: _,
                other: _,
            } => Some(WidthErr::UnknownName(span)),
        },
    }
}

/// What is wrong with a name by itself; `only` where constants alone are wanted.
#[tactic(auto, using(crate::proofs::Picking::array_faults))]
pub(crate) fn name_fault(
    span: Span,
    only: bool,
    meaning: Option<Meaning>,
    chosen: &[Picked],
) -> Option<WidthErr>
    ensures { result ≡ name_fault span only meaning (map chosen_in chosen.now) }
{
    let Some(meaning) = meaning else {
        return Some(WidthErr::UnknownName(span));
    };
    match meaning {
        Meaning::Constant { left, right, .. } => {
            word_fault(span, wants_of(false, true, Bounds { left, right }), chosen)
        }
        Meaning::Signal { left, right, .. } => {
            word_fault(span, wants_of(only, false, Bounds { left, right }), chosen)
        }
        Meaning::Array { left, right, .. } => {
            array_fault(span, wants_of(only, true, Bounds { left, right }), chosen)
        }
    }
}
