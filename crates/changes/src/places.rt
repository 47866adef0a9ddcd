//! Words in the width of a place.

ghost use Rattle.std.specs.Prelude.{◌≡◌, ◌≤◌, ◌%◌, ◌^◌};
ghost use Rattle.loc_base.specs.Bits.{value_of, width_of};
ghost use Rattle.design_core.specs.Explained.{place_width};

use design_core::Design;
use loc_base::Bits;

/// The width of a place, 0 where there is none.
fn place_width(design: &Design, place: u32) -> u8
    ensures { result ≡ place_width design.now place }
{
    match design.places.get(place as usize) {
        Some(place) => place.width,
        None => 0,
    }
}

/// The low bits of a word, as many as a place has.
pub(crate) fn fitted(design: &Design, place: u32, computed: Bits) -> Bits
    requires least { 1 ≤ place_width design.now place }
    requires most { place_width design.now place ≤ width_of computed }
    ensures width { width_of result ≡ place_width design.now place }
    ensures value { value_of result ≡ value_of computed % 2 ^ place_width design.now place }
{
    computed.cut(place_width(design, place))
}
