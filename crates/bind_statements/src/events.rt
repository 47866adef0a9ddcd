//! The events of an always block (IEEE 1364-2005, 9.7.2).
ghost use Rattle.std.specs.Prelude.{◌≡◌, map, Ok, IfErr, OnOk, option_map};
ghost use Rattle.v_syntax.specs.Tree.{selection_of, selections_of};
ghost use Rattle.v_syntax.specs.ItemTree.{event_of, sensitivity_of};
ghost use Rattle.v_binding.specs.Blocks.{one_select, event_at, is_edge, has_edge, events_of};
ghost use Rattle.v_binding.specs.Steps.{each};
ghost use Rattle.bind_scopes.specs.Refuses.{Refuses};
ghost use Rattle.v_binding.specs.Seen.{names_in};

use bind_scopes::named;
use std::slice;
use v_binding::{BindErr, Names};
use v_syntax::{Event, Select, Sensitivity};

/// At most one select, as a slice.
fn selects_of(select: &Option<Select>) -> &[Select]
    ensures { selections_of (map selection_of result.now) ≡ one_select (option_map selection_of select.now) }
{
    match select {
        Some(select) => slice::from_ref(select),
        None => &[],
    }
}

/// The name of an event is one that could be read.
fn event_at(names: &Names<'_>, event: &Event) -> Result<(), BindErr>
    ensures ok { OnOk result (event_at (names_in names.now) (event_of event.now) tt ≡ Ok tt) }
    ensures err { IfErr result (λ e. Refuses (event_at (names_in names.now) (event_of event.now) tt) e) }
{
    match event {
        Event::Edge { site, name, .. } => {
            let _read = named(names, *site, name, &[])?;
            Ok(())
        }
        Event::Change { site, name, select } => {
            let _read = named(names, *site, name, selects_of(select))?;
            Ok(())
        }
    }
}

/// The names of all events are ones that could be read.
pub(crate) fn events_at(names: &Names<'_>, events: &[Event]) -> Result<(), BindErr>
    ensures ok { OnOk result (each (event_at (names_in names.now)) (map event_of events.now) tt ≡ Ok tt) }
    ensures err { IfErr result (λ e. Refuses (each (event_at (names_in names.now)) (map event_of events.now) tt) e) }
{
    for event in events {
        event_at(names, event)?;
    }
    Ok(())
}

/// Whether an event is an edge.
fn is_edge(event: &Event) -> bool
    ensures { result ≡ is_edge (event_of event.now) }
{
    match event {
        Event::Edge { .. } => true,
        Event::Change { .. } => false,
    }
}

/// Whether some event is an edge.
pub(crate) fn has_edge(events: &[Event]) -> bool
    ensures { result ≡ has_edge (map event_of events.now) }
{
    for event in events {
        if is_edge(event) {
            return true;
        }
    }
    false
}

/// The events of an event list.
pub(crate) fn events_of<'t>(sensitivity: &'t Sensitivity) -> &'t [Event]
    ensures { map event_of result.now ≡ events_of (sensitivity_of sensitivity.now) }
{
    match sensitivity {
        Sensitivity::All { .. } => &[],
        Sensitivity::Events { events, .. } => events,
    }
}
