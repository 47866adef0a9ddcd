//! The lines of a cycle.
ghost use Rattle.std.specs.Prelude.{◌≡◌, ◌<◌, ◌++◌, All, OnOk, length, map, option_to_list};
ghost use Rattle.loc_base.specs.Bits.{value_of, width_of};
ghost use Rattle.design_core.specs.Explained.{place_width};
ghost use Rattle.changes.specs.Moments.{IsMoment, choice_in, values_in};
ghost use Rattle.change_lines.specs.Lines.{change_at, change_text, cycle_changes};
ghost use Rattle.change_lines.specs.Telling.{IsTaken, site_in};

use crate::change::{Change, Site, line};
use changes::executed_at;
use loc_base::{Bits, Bytes, NoMemory};
use std::alloc::Global;

/// The word that a place takes, in the width of the one that it computes.
fn taken(site: &Site<'_>, place: u32, computes: Bits) -> Bits
    requires width { width_of computes ≡ place_width site.now.moment.design.now place }
    requires place { place < length site.now.moment.chosen.now }
    requires taken { IsTaken site.now place }
    ensures width { width_of result ≡ place_width site.now.moment.design.now place }
    ensures value { value_of result ≡ (choice_in site.now.moment).chosen place }
{
    let chosen = site.moment.chosen[place as usize];
    Bits::new(computes.width(), chosen.value()).unwrap()
}

/// Appends the line of a place, where the place takes another word than it computes.
fn push_place(
    alloc: Global,
    lines: &mut Vec<Bytes>,
    site: &Site<'_>,
    place: u32,
) -> Result<(), NoMemory>
    requires moment { IsMoment site.now.moment }
    requires place { place < length site.now.moment.chosen.now }
    requires taken { IsTaken site.now place }
    ensures { OnOk result (lines.new.items ≡ lines.old.items
        ++ map change_text (option_to_list (change_at (site_in site.now) (choice_in site.now.moment) (values_in site.now.moment) place))) }
{
    let Some(executed) = executed_at(alloc, &site.moment, place)? else {
        return Ok(());
    };
    let computes = executed.computes(site.moment.design, place);
    let takes = taken(site, place, computes);
    if computes.value() != takes.value() {
        let change = Change {
            place,
            computes,
            takes,
        };
        lines.push(line(alloc, site, &executed, &change)?)?;
    }
    Ok(())
}

/// Appends the lines of places, in their order.
pub(crate) fn push_changes(
    alloc: Global,
    lines: &mut Vec<Bytes>,
    site: &Site<'_>,
    places: &[u32],
) -> Result<(), NoMemory>
    requires moment { IsMoment site.now.moment }
    requires places { All (λ p. p < length site.now.moment.chosen.now) places.now }
    requires taken { All (IsTaken site.now) places.now }
    ensures { OnOk result (lines.new.items ≡ lines.old.items
        ++ map change_text (cycle_changes (site_in site.now) (choice_in site.now.moment) (values_in site.now.moment) places.now)) }
{
    for place in places {
        push_place(alloc, lines, site, *place)?;
    }
    Ok(())
}
