//! The edges of an event list (IEEE 1364-2005, 9.7.2).
ghost use Rattle.std.specs.Prelude.{◌≡◌, ◌++◌, [], map, IfOk, OnOk};
ghost use Rattle.v_syntax.specs.ItemTree.{event_of};
ghost use Rattle.v_binding.specs.Clocks.{is_rising, waited, edges, wait_for};
ghost use Rattle.v_binding.specs.Seen.{names_in};
ghost use Rattle.bind_clocks.specs.Waits.{waited_of, wait_of};

use crate::Bound;
use crate::wait::{Wait, Waited, of_one, of_two};
use loc_base::{Items, NoMemory};
use std::alloc::Global;
use v_binding::Names;
use v_syntax::{Edge, Event};

/// Whether an edge is a rising one.
fn is_rising(edge: Edge) -> bool
    ensures { result ≡ is_rising edge }
{
    match edge {
        Edge::Posedge => true,
        Edge::Negedge => false,
    }
}

/// Adds an event, where it is an edge.
fn add_edge<'t>(
    list: &mut Items<Waited<'t>>,
    bound: &Bound,
    names: &Names<'_>,
    event: &'t Event,
) -> Result<(), NoMemory>
    ensures { OnOk result (map waited_of list.new ≡ map waited_of list.old ++ waited bound.now.roots (names_in names.now) (event_of event.now) []) }
{
    match event {
        Event::Edge { edge, name, .. } => list.push(Waited {
            rising: is_rising(*edge),
            text: name,
            root: bound.root_named(names, name),
        }),
        Event::Change { .. } => Ok(()),
    }
}

/// The edges of an event list.
fn edges<'t>(
    alloc: Global,
    bound: &Bound,
    names: &Names<'_>,
    events: &'t [Event],
) -> Result<Items<Waited<'t>>, NoMemory>
    ensures { IfOk result (λ list. map waited_of list ≡ edges bound.now.roots (names_in names.now) (map event_of events.now)) }
{
    let mut list = Items::new(alloc);
    for event in events {
        add_edge(&mut list, bound, names, event)?;
    }
    Ok(list)
}

/// What edges are together.
fn together<'t>(clock: Option<u32>, edges: &[Waited<'t>]) -> Wait<'t>
    ensures { wait_of result ≡ wait_for clock (map waited_of edges.now) }
{
    if edges.len() == 1 {
        of_one(clock, edges[0])
    } else if edges.len() == 2 {
        of_two(clock, edges[0], edges[1])
    } else {
        Wait::Others
    }
}

/// What a block with an event list waits for.
pub fn wait_for<'t>(
    bound: &Bound,
    clock: Option<u32>,
    names: &Names<'_>,
    events: &'t [Event],
) -> Result<Wait<'t>, NoMemory>
    ensures { IfOk result (λ wait. wait_of wait ≡ wait_for clock (edges bound.now.roots (names_in names.now) (map event_of events.now))) }
{
    let edges = edges(names.allocator(), bound, names, events)?;
    Ok(together(clock, edges.as_slice()))
}
