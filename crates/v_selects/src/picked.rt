//! The selects of a name, their operands finished (IEEE 1364-2005, 5.2.1).
ghost use Rattle.std.specs.Prelude.{◌≡◌};

use crate::closed::{Closed, Picked};
use crate::integer::Integer;
use crate::part_select::{PartBits, distance_at};
use crate::places::bits_within;
use crate::selected::{Bounds, base_index, part_count, runs_along};
use crate::taken::known;
use design_core::Typed;
use loc_base::Boxed;
use v_sizes::numbers::limited;
use v_syntax::PartKind;

impl Picked {
    ghost use Rattle.std.specs.Prelude.{◌≡◌, ◌≤◌, ◌==◌};
    ghost use Rattle.design_core.specs.Valuation.{distance_of};
    ghost use Rattle.v_sizes.specs.Sizing.{chosen_width, is_chosen_by_constants, has_known_size, has_no_bit};
    ghost use Rattle.v_sizes.specs.Refusals.{is_bad_part};
    ghost use Rattle.v_selects.specs.Integer.{whole};
    ghost use Rattle.v_selects.specs.Capped.{capped};
    ghost use Rattle.v_selects.specs.Named.{chosen_in};
    ghost use Rattle.v_selects.specs.Picked.{kind_of, known_base, first_distance, has_known_base, base_in};

    /// Whether all its numbers are constants.
    pub(crate) fn is_constant(&self) -> bool
        ensures { result ≡ is_chosen_by_constants (chosen_in self.now) }
    {
        match self {
            Picked::Bit(index) => index.constant,
            Picked::Part {
                kind: _,
                one,
                other,
            } => one.constant && other.constant,
        }
    }

    /// Whether what it must know is constant: both bounds of a range, or the count alone.
    pub(crate) fn has_known_size(&self) -> bool
        ensures { result ≡ has_known_size (chosen_in self.now) }
    {
        match self {
            Picked::Bit(_) => true,
            Picked::Part { kind, one, other } => match kind {
                PartKind::Range => one.constant && other.constant,
                PartKind::Up | PartKind::Down => other.constant,
            },
        }
    }

    /// The number of its bits; 1 where it isn't known, and 128 where there are more.
    pub(crate) fn width(&self) -> u8
        ensures value { result ≡ chosen_width (chosen_in self.now) }
        ensures least { 1 ≤ result }
        ensures most { result ≤ 128 }
    {
        match self {
            Picked::Bit(_) => 1,
            Picked::Part { kind, one, other } => {
                if self.has_known_size() {
                    limited(part_count(*kind, known(one.get()), known(other.get())))
                } else {
                    1
                }
            }
        }
    }

    /// Whether a part-select runs against its range, or has no width.
    pub(crate) fn is_bad(&self, down: bool) -> bool
        ensures { result ≡ is_bad_part down (chosen_in self.now) }
    {
        match self {
            Picked::Bit(_) => false,
            Picked::Part { kind, one, other } => {
                let (one, other) = (known(one.get()), known(other.get()));
                let count = part_count(*kind, one, other);
                !runs_along(*kind, down, one, other) || count == 0 || count > 128
            }
        }
    }

    fn kind(&self) -> PartKind
        ensures { result ≡ kind_of (chosen_in self.now) }
    {
        match self {
            Picked::Bit(_) => PartKind::Up,
            Picked::Part {
                kind,
                one: _,
                other: _,
            } => *kind,
        }
    }

    /// The index from which those of its bits are counted; 0 where that isn't constant.
    fn base(&self) -> Integer
        ensures { whole result ≡ known_base (chosen_in self.now) }
    {
        match self {
            Picked::Bit(index) => known(index.get()),
            Picked::Part { kind, one, other } => base_index(
                *kind,
                known(one.get()),
                known(other.get()),
            ),
        }
    }

    /// A bit as a part of one bit, and a part as it is.
    pub(crate) fn as_part(&self) -> PartBits
        ensures kind { result.kind ≡ kind_of (chosen_in self.now) }
        ensures base { whole result.base ≡ known_base (chosen_in self.now) }
        ensures count { result.count ≡ chosen_width (chosen_in self.now) }
        ensures least { 1 ≤ result.count }
        ensures most { result.count ≤ 128 }
    {
        PartBits {
            kind: self.kind(),
            base: self.base(),
            count: self.width(),
        }
    }

    /// How far its first bit lies from the rightmost bit of its word.
    pub(crate) fn distance(&self, bounds: Bounds) -> i64
        ensures { result ≡ capped (first_distance bounds.left bounds.right (chosen_in self.now)) }
    {
        distance_at(bounds, self.as_part(), 0)
    }

    /// Whether a word has none of its bits.
    #[tactic(auto, using(crate::proofs::Picking::none_within))]
    pub(crate) fn has_no_bit(&self, width: u8, bounds: Bounds) -> bool
        ensures { result ≡ has_no_bit width bounds.left bounds.right (chosen_in self.now) }
    {
        bits_within(width, self.width(), self.distance(bounds)) == 0
    }

    /// Whether the index from which its bits are counted is a constant.
    pub(crate) fn has_known_base(&self) -> bool
        ensures { result ≡ has_known_base self.now }
    {
        match self {
            Picked::Bit(index) => index.constant,
            Picked::Part { kind, one, other } => match kind {
                PartKind::Range => other.constant,
                PartKind::Up | PartKind::Down => one.constant,
            },
        }
    }

    /// That index, sized by itself.
    pub(crate) fn into_base(self) -> Typed
        ensures { result ≡ base_in self }
    {
        match self {
            Picked::Bit(index) => typed_of(index),
            Picked::Part { kind, one, other } => match kind {
                PartKind::Range => typed_of(other),
                PartKind::Up | PartKind::Down => typed_of(one),
            },
        }
    }
}

/// The sized expression of a finished operand.
pub fn typed_of(e: Boxed<Closed>) -> Typed
    ensures { result ≡ e.typed }
{
    let Closed {
        typed,
        constant: _,
        fault: _,
    } = e.into_inner();
    typed
}
