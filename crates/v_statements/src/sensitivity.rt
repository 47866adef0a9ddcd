//! What an always block waits for (IEEE 1364-2005, 9.7.2, 9.7.5 and A.6.5).
ghost use Rattle.std.specs.Prelude.{◌≡◌, ◌+◌, ◌<◌, ◌≤◌, ◌^◌, length, map, [], ◌∷◌, IfOk};
ghost use Rattle.v_tree.specs.Faults.{Gives};
ghost use Rattle.v_lexer.specs.declared.types.terminal.Terminal.TheVariants as marks;
ghost use Rattle.v_parts.specs.Seen.{as_is, Inside};
ghost use Rattle.v_parts.specs.Reading.{optional_at};
ghost use Rattle.v_syntax.specs.ItemTree.{event_of};
ghost use Rattle.v_statements.specs.Sensitivities.{is_posedge};
ghost use Rattle.v_statements.specs.SensitivitySeen.{seen_event, seen_events, seen_index_if, seen_sensitivity};
ghost use Rattle.v_statements.specs.SensitivityReading.{edge_at, separator_at, edge_event_at, index_at, change_at, next_change_at, more_changes_at, changes_at, lone_edge_at, edges_end_at, close_edges_at, second_edge_at, edges_at, events_at, listed_at, star_close_at, sensitivity_at};

use loc_base::NoMemory;
use std::alloc::Global;
use v_lexer::types::Token;
use v_parts::{INDEX_LEVELS, Read, name};
use v_syntax::{Edge, Event, Select, Sensitivity};
use v_tree::{Fault, Stop, Terminal, expect, no_place, select, site_of, stands};

/// `'posedge' | 'negedge'`
#[tactic(auto, unfolding(crate::specs::SensitivityReading::edge_at))]
fn edge(tokens: &[Token], at: usize) -> Read<Edge>
    ensures gives { Gives as_is result (edge_at tokens.now at) }
    ensures inside { IfOk result (Inside tokens.now) }
{
    if stands(tokens, at, Terminal::Posedge) {
        return Ok((Edge::Posedge, at + 1));
    }
    if stands(tokens, at, Terminal::Negedge) {
        return Ok((Edge::Negedge, at + 1));
    }
    Err(Stop::Fault(no_place(tokens, at)))
}

/// `'or' | ','`, and which of them.
#[tactic(auto, unfolding(crate::specs::SensitivityReading::separator_at))]
fn separator(tokens: &[Token], at: usize) -> Read<bool>
    ensures gives { Gives as_is result (separator_at tokens.now at) }
    ensures inside { IfOk result (Inside tokens.now) }
{
    if stands(tokens, at, Terminal::Or) {
        return Ok((true, at + 1));
    }
    if stands(tokens, at, Terminal::Comma) {
        return Ok((false, at + 1));
    }
    Err(Stop::Fault(no_place(tokens, at)))
}

/// `('posedge' | 'negedge') NAME`, with the site of the name.
#[tactic(auto, unfolding(crate::specs::SensitivityReading::edge_event_at))]
fn edge_event(alloc: Global, tokens: &[Token], at: usize) -> Read<Event>
    requires short { length tokens.now < 2 ^ 32 }
    requires inside { at ≤ length tokens.now }
    ensures gives { Gives seen_event result (edge_event_at tokens.now at) }
    ensures inside { IfOk result (Inside tokens.now) }
{
    let (edge, next) = edge(tokens, at)?;
    let (name, end) = name(alloc, tokens, next)?;
    let site = site_of(tokens, next, end);
    Ok((Event::Edge { site, edge, name }, end))
}

/// `select?`
#[tactic(auto, unfolding(v_parts::specs::Reading::optional_at))]
fn index_if(alloc: Global, tokens: &[Token], at: usize, nesting_left: u32) -> Read<Option<Select>>
    requires short { length tokens.now < 2 ^ 32 }
    requires inside { at ≤ length tokens.now }
    ensures gives { Gives seen_index_if result (optional_at tokens.now marks.OpenBracket (index_at tokens.now nesting_left) at) }
    ensures inside { IfOk result (Inside tokens.now) }
{
    if !stands(tokens, at, Terminal::OpenBracket) {
        return Ok((None, at));
    }
    let found = select(alloc, tokens, at, nesting_left, INDEX_LEVELS)?;
    Ok((Some(found.tree), found.end))
}

/// `NAME select?`
#[tactic(auto, unfolding(crate::specs::SensitivityReading::change_at))]
fn change(alloc: Global, tokens: &[Token], at: usize, nesting_left: u32) -> Read<Event>
    requires short { length tokens.now < 2 ^ 32 }
    requires inside { at ≤ length tokens.now }
    ensures gives { Gives seen_event result (change_at tokens.now nesting_left at) }
    ensures inside { IfOk result (Inside tokens.now) }
{
    let (name, next) = name(alloc, tokens, at)?;
    let (select, end) = index_if(alloc, tokens, next, nesting_left)?;
    let site = site_of(tokens, at, end);
    Ok((Event::Change { site, name, select }, end))
}

/// `('or' | ',') NAME select?`, where an edge is left out.
#[tactic(auto, unfolding(crate::specs::SensitivityReading::next_change_at))]
fn next_change(alloc: Global, tokens: &[Token], at: usize, nesting_left: u32) -> Read<Event>
    requires short { length tokens.now < 2 ^ 32 }
    requires inside { at ≤ length tokens.now }
    ensures gives { Gives seen_event result (next_change_at tokens.now nesting_left at) }
    ensures inside { IfOk result (Inside tokens.now) }
{
    let (_is_or, next) = separator(tokens, at)?;
    if stands(tokens, next, Terminal::Posedge) {
        return Err(Stop::Fault(Fault::Unsupported(next)));
    }
    if stands(tokens, next, Terminal::Negedge) {
        return Err(Stop::Fault(Fault::Unsupported(next)));
    }
    change(alloc, tokens, next, nesting_left)
}

/// `(('or' | ',') change)* ')'` behind the first.
#[tactic(auto, unfolding(crate::specs::SensitivityReading::more_changes_at))]
fn more_changes(
    alloc: Global,
    tokens: &[Token],
    at: usize,
    nesting_left: u32,
    first: Event,
) -> Read<Vec<Event>>
    requires short { length tokens.now < 2 ^ 32 }
    requires inside { at ≤ length tokens.now }
    ensures gives { Gives seen_events result (more_changes_at tokens.now nesting_left (event_of first) at) }
    ensures inside { IfOk result (Inside tokens.now) }
{
    let mut list = Vec::new(alloc);
    let mut end = at;
    list.push(first)?;
    for _ in 0..tokens.len() {
        if stands(tokens, end, Terminal::Close) {
            return Ok((list, end + 1));
        }
        let (part, next) = next_change(alloc, tokens, end, nesting_left)?;
        list.push(part)?;
        end = next;
    }
    Err(Stop::Fault(no_place(tokens, end)))
}

/// `change (('or' | ',') change)* ')'`
#[tactic(auto, unfolding(crate::specs::SensitivityReading::changes_at))]
fn changes(alloc: Global, tokens: &[Token], at: usize, nesting_left: u32) -> Read<Vec<Event>>
    requires short { length tokens.now < 2 ^ 32 }
    requires inside { at ≤ length tokens.now }
    ensures gives { Gives seen_events result (changes_at tokens.now nesting_left at) }
    ensures inside { IfOk result (Inside tokens.now) }
{
    let (first, next) = change(alloc, tokens, at, nesting_left)?;
    more_changes(alloc, tokens, next, nesting_left, first)
}

fn is_posedge(event: &Event) -> bool
    ensures { result ≡ is_posedge (event_of event.now) }
{
    matches!(
        event,
        Event::Edge {
            edge: Edge::Posedge,
            ..
        }
    )
}

/// `')'` behind a lone edge, which is a `posedge`.
#[tactic(auto, unfolding(crate::specs::SensitivityReading::lone_edge_at))]
fn lone_edge(alloc: Global, tokens: &[Token], first: Event, at: usize) -> Read<Vec<Event>>
    requires inside { at < length tokens.now }
    ensures gives { Gives seen_events result (lone_edge_at tokens.now (event_of first) at) }
    ensures inside { IfOk result (Inside tokens.now) }
{
    if !is_posedge(&first) {
        return Err(Stop::Fault(Fault::Unsupported(at)));
    }
    let mut events = Vec::new(alloc);
    events.push(first)?;
    Ok((events, at + 1))
}

/// The place behind the `')'` of two edges, where a third one is left out.
#[tactic(auto, unfolding(crate::specs::SensitivityReading::edges_end_at))]
fn edges_end(tokens: &[Token], at: usize) -> Result<usize, Stop>
    ensures gives { Gives (λ n. n) result (edges_end_at tokens.now at) }
    ensures inside { IfOk result (λ n. n ≤ length tokens.now) }
{
    if stands(tokens, at, Terminal::Or) {
        return Err(Stop::Fault(Fault::Unsupported(at)));
    }
    if stands(tokens, at, Terminal::Comma) {
        return Err(Stop::Fault(Fault::Unsupported(at)));
    }
    expect(tokens, Terminal::Close, at)
}

/// The list of two events.
fn both(alloc: Global, first: Event, second: Event) -> Result<Vec<Event>, NoMemory>
    ensures { IfOk result (λ x. map event_of x.items ≡ event_of first ∷ event_of second ∷ []) }
{
    let mut events = Vec::new(alloc);
    events.push(first)?;
    events.push(second)?;
    Ok(events)
}

/// `')'` behind two edges.
#[tactic(auto, unfolding(crate::specs::SensitivityReading::close_edges_at))]
fn close_edges(
    alloc: Global,
    tokens: &[Token],
    first: Event,
    second: Event,
    at: usize,
) -> Read<Vec<Event>>
    ensures gives { Gives seen_events result (close_edges_at tokens.now (event_of first) (event_of second) at) }
    ensures inside { IfOk result (Inside tokens.now) }
{
    let end = edges_end(tokens, at)?;
    let events = both(alloc, first, second)?;
    Ok((events, end))
}

/// `('or' | ',') edge ')'` behind an edge.
#[tactic(auto, unfolding(crate::specs::SensitivityReading::second_edge_at))]
fn second_edge(alloc: Global, tokens: &[Token], first: Event, at: usize) -> Read<Vec<Event>>
    requires short { length tokens.now < 2 ^ 32 }
    ensures gives { Gives seen_events result (second_edge_at tokens.now (event_of first) at) }
    ensures inside { IfOk result (Inside tokens.now) }
{
    let (_is_or, next) = separator(tokens, at)?;
    if stands(tokens, next, Terminal::Name) {
        return Err(Stop::Fault(Fault::Unsupported(next)));
    }
    let (second, end) = edge_event(alloc, tokens, next)?;
    close_edges(alloc, tokens, first, second, end)
}

/// One `posedge`, or two events with edges, and `')'`.
#[tactic(auto, unfolding(crate::specs::SensitivityReading::edges_at))]
fn edges(alloc: Global, tokens: &[Token], at: usize) -> Read<Vec<Event>>
    requires short { length tokens.now < 2 ^ 32 }
    requires inside { at ≤ length tokens.now }
    ensures gives { Gives seen_events result (edges_at tokens.now at) }
    ensures inside { IfOk result (Inside tokens.now) }
{
    let (first, next) = edge_event(alloc, tokens, at)?;
    if stands(tokens, next, Terminal::Close) {
        return lone_edge(alloc, tokens, first, next);
    }
    second_edge(alloc, tokens, first, next)
}

/// The events of a list, and `')'`.
#[tactic(auto, unfolding(crate::specs::SensitivityReading::events_at))]
fn events(alloc: Global, tokens: &[Token], at: usize, nesting_left: u32) -> Read<Vec<Event>>
    requires short { length tokens.now < 2 ^ 32 }
    requires inside { at ≤ length tokens.now }
    ensures gives { Gives seen_events result (events_at tokens.now nesting_left at) }
    ensures inside { IfOk result (Inside tokens.now) }
{
    if stands(tokens, at, Terminal::Posedge) {
        return edges(alloc, tokens, at);
    }
    if stands(tokens, at, Terminal::Negedge) {
        return edges(alloc, tokens, at);
    }
    changes(alloc, tokens, at, nesting_left)
}

/// The events behind the `(` at `from`.
#[tactic(auto, unfolding(crate::specs::SensitivityReading::listed_at))]
fn listed(
    alloc: Global,
    tokens: &[Token],
    from: usize,
    at: usize,
    nesting_left: u32,
) -> Read<Sensitivity>
    requires short { length tokens.now < 2 ^ 32 }
    requires before { from < 2 ^ 32 }
    requires inside { at ≤ length tokens.now }
    ensures gives { Gives seen_sensitivity result (listed_at tokens.now nesting_left from at) }
    ensures inside { IfOk result (Inside tokens.now) }
{
    let (events, end) = events(alloc, tokens, at, nesting_left)?;
    let site = site_of(tokens, from, end);
    Ok((Sensitivity::Events { site, events }, end))
}

/// `'*' ')'` behind the `(` at `from`.
#[tactic(auto, unfolding(crate::specs::SensitivityReading::star_close_at))]
fn star_close(tokens: &[Token], from: usize, at: usize) -> Read<Sensitivity>
    requires before { from < 2 ^ 32 }
    requires inside { at < length tokens.now }
    ensures gives { Gives seen_sensitivity result (star_close_at tokens.now from at) }
    ensures inside { IfOk result (Inside tokens.now) }
{
    let end = expect(tokens, Terminal::Close, at + 1)?;
    let site = site_of(tokens, from, end);
    Ok((Sensitivity::All { site }, end))
}

/// `'*' | '(' '*' ')' | '(' events ')'`
#[tactic(auto, unfolding(crate::specs::SensitivityReading::sensitivity_at))]
pub fn sensitivity(
    alloc: Global,
    tokens: &[Token],
    at: usize,
    nesting_left: u32,
) -> Read<Sensitivity>
    requires short { length tokens.now < 2 ^ 32 }
    requires inside { at ≤ length tokens.now }
    ensures gives { Gives seen_sensitivity result (sensitivity_at tokens.now nesting_left at) }
    ensures inside { IfOk result (Inside tokens.now) }
{
    if stands(tokens, at, Terminal::Star) {
        let site = site_of(tokens, at, at + 1);
        return Ok((Sensitivity::All { site }, at + 1));
    }
    let open = expect(tokens, Terminal::Open, at)?;
    if stands(tokens, open, Terminal::Star) {
        return star_close(tokens, at, open);
    }
    listed(alloc, tokens, at, open, nesting_left)
}
