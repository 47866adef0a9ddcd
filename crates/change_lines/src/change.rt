//! The line of a change.
ghost use Rattle.std.specs.Prelude.{◌≡◌, ◌++◌, IfOk, OnOk, map};
ghost use Rattle.loc_base.specs.Bits.{value_of, width_of};
ghost use Rattle.design_core.specs.Explained.{place_width};
ghost use Rattle.changes.specs.Execution.{computes_at};
ghost use Rattle.changes.specs.Moments.{IsExecuted, execution_of};
ghost use Rattle.change_lines.specs.Lines.{change_line, change_text, cycle_text, line_of, member_of, name_of, place_text, words_text};
ghost use Rattle.change_lines.specs.Telling.{places_in, site_in};

use crate::names::{line_of, member_of, push_numbered, push_operands, push_place};
use crate::operands::named_below;
use changes::{Executed, Moment};
use loc_base::{Bits, Bytes, Items, NoMemory};
use printed_text::{push_bytes, push_value};
use std::alloc::Global;
use suspect_map::Group;

/// Where changes are told of: a cycle of a trace of a number, from 1, and a set of suspects by its members.
#[derive(Clone, Copy)]
pub(crate) struct Site<'a> {
    pub(crate) moment: Moment<'a>,
    pub(crate) groups: &'a [Group],
    pub(crate) members: &'a [u32],
    pub(crate) trace: u32,
    pub(crate) cycle: u32,
}

/// What a place computes, and what it takes.
#[derive(Clone, Copy)]
pub(crate) struct Change {
    pub(crate) place: u32,
    pub(crate) computes: Bits,
    pub(crate) takes: Bits,
}

/// Appends the suspect, the line and the name of a place.
fn push_suspect(text: &mut Vec<u8>, site: &Site<'_>, place: u32) -> Result<(), NoMemory>
    ensures { OnOk result (text.new.items ≡ text.old.items
        ++ place_text (member_of (map places_in site.now.groups.now) site.now.members.now place) (line_of site.now.moment.design.now place)
        (name_of site.now.moment.design.now place)) }
{
    let design = site.moment.design;
    push_numbered(text, b"  ", member_of(site.groups, site.members, place))?;
    push_numbered(text, b" line ", line_of(design, place))?;
    push_bytes(text, b" ")?;
    push_place(text, design, place)
}

/// Appends the trace and the cycle.
fn push_cycle(text: &mut Vec<u8>, site: &Site<'_>) -> Result<(), NoMemory>
    ensures { OnOk result (text.new.items ≡ text.old.items ++ cycle_text site.now.trace site.now.cycle) }
{
    push_numbered(text, b" trace ", site.trace)?;
    push_numbered(text, b" cycle ", site.cycle)
}

/// Appends the words.
fn push_words(text: &mut Vec<u8>, change: &Change) -> Result<(), NoMemory>
    requires { width_of change.now.computes ≡ width_of change.now.takes }
    ensures { OnOk result (text.new.items ≡ text.old.items
        ++ words_text (width_of change.now.computes) (value_of change.now.computes) (value_of change.now.takes)) }
{
    push_bytes(text, b": computes ")?;
    push_value(text, change.computes)?;
    push_bytes(text, b", takes ")?;
    push_value(text, change.takes)
}

/// The line of a change.
pub(crate) fn line(
    alloc: Global,
    site: &Site<'_>,
    executed: &Executed<'_>,
    change: &Change,
) -> Result<Bytes, NoMemory>
    requires executed { IsExecuted site.now.moment.design.now change.now.place executed.now }
    requires computes { width_of change.now.computes ≡ place_width site.now.moment.design.now change.now.place }
    requires takes { width_of change.now.takes ≡ place_width site.now.moment.design.now change.now.place }
    requires value { value_of change.now.computes ≡ computes_at site.now.moment.design.now change.now.place (execution_of executed.now) }
    ensures { IfOk result (λ text. text ≡ change_text (change_line (site_in site.now) change.now.place (execution_of executed.now) (value_of change.now.takes))) }
{
    let design = site.moment.design;
    let signals = named_below(alloc, design.signals.len(), executed.side)?;
    let mut text = Vec::new(alloc);
    push_suspect(&mut text, site, change.place)?;
    push_cycle(&mut text, site)?;
    push_words(&mut text, change)?;
    push_operands(&mut text, design, &executed.words, &signals)?;
    push_bytes(&mut text, b"\n")?;
    Ok(Items::from_vec(text))
}
