ghost use Rattle.std.specs.Prelude.{◌≡◌, ◌&&◌, true};
ghost use Rattle.std.specs.List.{list_all};
ghost use Rattle.std.specs.Option.{option_map_or};
ghost use Rattle.design_core.specs.Store.{part_width, parts_width};
ghost use Rattle.design_core.specs.WellFormed.{part_fits, place_fits, assignment_fits};
ghost use Rattle.design_fits.specs.Fits.{small_width};

use crate::expression::typed_fits;
use crate::widths::{is_signal, is_width, slice_fits, words_fit};
use design_core::{Part, Place, Signal, Typed};
use plain_values::width_at;

/// Whether a part of a left side is one of the design's.
fn part_fits(signals: &[Signal], part: &Part) -> bool
    ensures { result ≡ part_fits signals.now part.now }
{
    match part {
        Part::Whole(signal) => is_signal(signals, *signal),
        Part::Slice {
            signal,
            from,
            width,
        } => slice_fits(signals, *signal, *from, *width),
        Part::Pick {
            signal,
            index,
            offsets,
        } => {
            is_signal(signals, *signal) && is_width(offsets.len()) && typed_fits(signals, index)
        }
        Part::Word {
            first,
            count,
            index,
            from,
            width,
            ..
        } => words_fit(signals, *first, *count, *from, *width) && typed_fits(signals, index),
    }
}

/// Whether all parts of a left side are the design's.
fn parts_fit(signals: &[Signal], parts: &[Part]) -> bool
    ensures { result ≡ list_all (part_fits signals.now) parts.now }
{
    parts.iter().all(|part| part_fits(signals, part))
}

/// The number of bits of a part of a left side.
fn part_width(signals: &[Signal], part: &Part) -> usize
    ensures { result ≡ part_width signals.now part.now }
{
    match part {
        Part::Whole(signal) => usize::from(width_at(signals, *signal as usize)),
        Part::Slice { width, .. } | Part::Word { width, .. } => usize::from(*width),
        Part::Pick { offsets, .. } => offsets.len(),
    }
}

/// The number of bits of a left side, where it is 1 to 128.
fn parts_width(signals: &[Signal], parts: &[Part]) -> Option<usize>
    ensures { result ≡ small_width (parts_width signals.now parts.now) }
{
    let mut total: usize = 0;
    for part in parts {
        let width = part_width(signals, part);
        if 128 - total < width {
            return None;
        }
        total += width;
    }
    if total == 0 { None } else { Some(total) }
}

/// Whether a place, where there is one, has a width.
fn place_fits(places: &[Place], width: usize, place: Option<u32>) -> bool
    ensures { result ≡ option_map_or (place_fits places.now width) place true }
{
    match place {
        Some(p) => { (p as usize) < places.len() && usize::from(places[p as usize].width) == width }
        None => true,
    }
}

/// Whether an assignment fits, and its place where it has one.
pub(crate) fn set_fits(
    signals: &[Signal],
    places: &[Place],
    place: Option<u32>,
    parts: &[Part],
    value: &Typed,
) -> bool
    ensures { result ≡ (assignment_fits signals.now parts.now value.now && option_map_or (place_fits places.now (parts_width signals.now parts.now)) place true) }
{
    match parts_width(signals, parts) {
        Some(width) => {
            parts_fit(signals, parts)
                && typed_fits(signals, value)
                && width <= usize::from(value.width)
                && place_fits(places, width, place)
        }
        None => false,
    }
}
