//! What a clocked block assigns by `=` and others use.

use crate::build::{add_assign, add_clocked, design_of, set, slice};
use assign_rules::first_race;
use design_core::{Design, SignalKind};
use design_fits::can_run;
use std::alloc::Global;
use std::test::Fail;

/// The first signal that races, where the last two are words of one array.
fn racing(alloc: Global, design: &Design) -> Result<Option<usize>, Fail> {
    if !can_run(design) || design.signals.len() != 4 {
        return Err(Fail::new("the design does not fit"));
    }
    Ok(first_race(alloc, design, &[0, 1, 2, 2])?)
}

/// An input, a net, and an array of two words, of which a clocked block assigns one.
fn array_with(alloc: Global, word: u32, later: bool) -> Result<Design, Fail> {
    let signals = [
        (1, SignalKind::Input),
        (1, SignalKind::Net),
        (1, SignalKind::Reg),
        (1, SignalKind::Reg),
    ];
    let mut design = design_of(alloc, &signals, &[])?;
    let body = set(alloc, &mut design, word, later)?;
    add_clocked(&mut design, body)?;
    Ok(design)
}

#[test]
fn what_a_block_assigns_at_once_is_used_by_no_other(rt: HostRuntime) -> Result<(), Fail> {
    let alloc = rt.alloc();
    let mut design = array_with(alloc, 3, false)?;
    assert_eq!(rt; racing(alloc, &design)?, None);
    add_assign(alloc, &mut design, (1, 0), slice(2, 0))?;
    assert_eq!(rt; racing(alloc, &design)?, Some(2));
    Ok(())
}

#[test]
fn what_a_block_assigns_later_may_be_used_by_others(rt: HostRuntime) -> Result<(), Fail> {
    let alloc = rt.alloc();
    let mut design = array_with(alloc, 3, true)?;
    add_assign(alloc, &mut design, (1, 0), slice(3, 0))?;
    assert_eq!(rt; racing(alloc, &design)?, None);
    Ok(())
}

#[test]
fn an_output_is_used(rt: HostRuntime) -> Result<(), Fail> {
    let alloc = rt.alloc();
    let mut design = array_with(alloc, 2, false)?;
    design.outputs.push(2)?;
    assert_eq!(rt; racing(alloc, &design)?, Some(2));
    Ok(())
}
