//! The indexes that ranges of declarations are written with (IEEE 1364-2005, 4.3.1).
ghost use Rattle.std.specs.Prelude.{◌≡◌, Some, None, if◌then◌else◌};
ghost use Rattle.v_hierarchy.specs.Constants.{integer, is_index};

use v_sizes::Const;
use v_sizes::numbers::{is_below_0, magnitude};

/// The whole number that a constant means, where it is an index: one of 32 bits.
#[tactic(auto, using(crate::proofs::Indexes::index_laws))]
pub fn index_of(value: Const) -> Option<i32>
    ensures { result ≡ (if is_index (integer value) then Some (integer value) else None) }
{
    let distance = magnitude(value.bits, value.signed);
    if 2147483648 < distance {
        return None;
    }
    let distance = distance as i64;
    if is_below_0(value.bits, value.signed) {
        return Some((0 - distance) as i32);
    }
    if distance < 2147483648 {
        Some(distance as i32)
    } else {
        None
    }
}
