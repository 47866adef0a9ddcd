//! Always blocks (IEEE 1364-2005, 9.7.5 and 9.9).
ghost use Rattle.std.specs.Prelude.{◌≡◌, Ok, IfErr, OnOk};
ghost use Rattle.v_syntax.specs.ItemTree.{sensitivity_of};
ghost use Rattle.v_hierarchy.specs.Views.{steps_of};
ghost use Rattle.v_binding.specs.Blocks.{combinational, clocked, block_of, events_of, always_block};
ghost use Rattle.bind_scopes.specs.Refuses.{Refuses};
ghost use Rattle.v_binding.specs.Seen.{names_in};
ghost use Rattle.v_binding.specs.Homes.{home_of};
ghost use Rattle.v_binding.specs.Turns.{FitTurns};

use crate::clocked::{Judged, clocked_of};
use crate::events::{events_at, events_of, has_edge};
use crate::statement::bound as bound_steps;
use bind_clocks::{Bound, Frame, wait_for};
use design_core::{Clocked, Driver, Stmt};
use loc_base::NoMemory;
use std::mem;
use v_binding::{BindErr, Home, Names};
use v_hierarchy::Steps;
use v_syntax::{Sensitivity, Site};

/// An always block with its loops unrolled.
#[derive(Clone, Copy)]
pub struct Always<'t, 's> {
    pub home: Home<'s>,
    pub site: Site,
    pub sensitivity: &'t Sensitivity,
    pub body: &'s Steps<'t>,
}

/// A combinational block.
fn combinational(bound: &mut Bound, frame: &Frame, site: Site, body: Stmt) -> Result<(), NoMemory>
    ensures { OnOk result (bound.new ≡ combinational frame.now site body bound.old) }
{
    let driver = Driver::Comb {
        body,
        span: site.span,
    };
    bound.driven(frame, site.span, driver)
}

/// The signals of the design and its clock, and the names that are seen.
#[derive(Clone, Copy)]
struct Seen<'a, 't> {
    frame: &'a Frame,
    names: &'a Names<'t>,
}

/// A clocked block: what it reads as it stands, then its reset.
fn clocked(
    bound: &mut Bound,
    seen: Seen<'_, '_>,
    block: Always<'_, '_>,
    body: Stmt,
) -> Result<(), NoMemory>
    ensures { OnOk result (bound.new ≡ clocked seen.entry.frame.now (names_in seen.entry.names.now) block.entry.site (events_of (sensitivity_of block.entry.sensitivity.now)) (steps_of block.entry.body.now) body bound.old) }
{
    let mut whole = Clocked { reset: None, body };
    let reads = bound.block_reads_clock(seen.frame, &whole)?;
    let body = mem::replace(&mut whole.body, Stmt::Nothing);
    let events = events_of(block.sensitivity);
    let wait = wait_for(bound, seen.frame.clock(), seen.names, events)?;
    let Judged {
        block: made,
        breaks,
    } = clocked_of(seen.names, wait, block.body, body)?;
    bound.add_clocked(made)?;
    bound.note_misclocked(breaks, block.site.span);
    bound.note_clock_read(reads, block.site.span);
    Ok(())
}

/// A block by its events.
fn block_of(
    bound: &mut Bound,
    seen: Seen<'_, '_>,
    block: Always<'_, '_>,
    body: Stmt,
) -> Result<(), NoMemory>
    ensures { OnOk result (bound.new ≡ block_of seen.entry.frame.now (names_in seen.entry.names.now) block.entry.site (events_of (sensitivity_of block.entry.sensitivity.now)) (steps_of block.entry.body.now) body bound.old) }
{
    if has_edge(events_of(block.sensitivity)) {
        clocked(bound, seen, block, body)
    } else {
        combinational(bound, seen.frame, block.site, body)
    }
}

/// An always block: its events, then its statements.
pub fn always_block<'t>(
    bound: &mut Bound,
    frame: &Frame,
    names: &mut Names<'t>,
    block: Always<'t, '_>,
) -> Result<(), BindErr>
    requires { FitTurns (steps_of block.body.now) }
    ensures ok { OnOk result (always_block frame.now (home_of block.entry.home) (names_in names.old) block.entry.site (sensitivity_of block.entry.sensitivity.now) (steps_of block.entry.body.now) bound.old ≡ Ok bound.new) }
    ensures err { IfErr result (λ e. Refuses (always_block frame.now (home_of block.entry.home) (names_in names.old) block.entry.site (sensitivity_of block.entry.sensitivity.now) (steps_of block.entry.body.now) bound.old) e) }
    ensures same { OnOk result (names_in names.new ≡ names_in names.old) }
{
    events_at(names, events_of(block.sensitivity))?;
    let mut places = bound.take_places();
    let body = bound_steps(block.home, names, block.body, &mut places)?;
    bound.put_places(places);
    block_of(bound, Seen { frame, names }, block, body)?;
    Ok(())
}
