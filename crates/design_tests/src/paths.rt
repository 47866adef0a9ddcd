//! Blocks that hold a value, and signals that are assigned in two ways.

use crate::build::{add_assign, add_block, case_of, design_of, either, item, set, slice};
use assign_rules::first_misassigned;
use design_core::{Design, SignalKind, Stmt};
use design_fits::can_run;
use design_rules::first_latch;
use loc_base::Items;
use std::alloc::Global;
use std::test::Fail;

/// An input and a variable.
fn variable(alloc: Global) -> Result<Design, Fail> {
    design_of(alloc, &[(1, SignalKind::Input), (1, SignalKind::Reg)], &[])
}

/// The first block of a design that holds a value.
fn held(alloc: Global, design: &Design) -> Result<Option<usize>, Fail> {
    if !can_run(design) {
        return Err(Fail::new("the design does not fit"));
    }
    Ok(first_latch(alloc, design)?)
}

#[test]
fn an_if_without_an_else_holds_a_value(rt: HostRuntime) -> Result<(), Fail> {
    let alloc = rt.alloc();
    let mut design = variable(alloc)?;
    let yes = set(alloc, &mut design, 1, false)?;
    let no = set(alloc, &mut design, 1, true)?;
    let body = either(alloc, yes, no)?;
    add_block(&mut design, body)?;
    assert_eq!(rt; held(alloc, &design)?, None);
    let yes = set(alloc, &mut design, 1, false)?;
    let body = either(alloc, yes, Stmt::Nothing)?;
    add_block(&mut design, body)?;
    assert_eq!(rt; held(alloc, &design)?, Some(1));
    Ok(())
}

/// A block with a case on one bit that has items for these values.
fn with_items(alloc: Global, values: &[u128]) -> Result<Design, Fail> {
    let mut design = variable(alloc)?;
    let mut items = Items::new(alloc);
    for value in values {
        let body = set(alloc, &mut design, 1, false)?;
        items.push(item(alloc, *value, body)?)?;
    }
    let body = case_of(alloc, items)?;
    add_block(&mut design, body)?;
    Ok(design)
}

#[test]
fn a_case_without_a_default_holds_a_value_that_it_has_no_item_for(
    rt: HostRuntime,
) -> Result<(), Fail> {
    let alloc = rt.alloc();
    assert_eq!(rt; held(alloc, &with_items(alloc, &[0, 1])?)?, None);
    assert_eq!(rt; held(alloc, &with_items(alloc, &[1])?)?, Some(0));
    Ok(())
}

/// The first signal that is assigned in two ways, where each is its own home.
fn mixed(alloc: Global, design: &Design) -> Result<Option<usize>, Fail> {
    if !can_run(design) || design.signals.len() != 2 {
        return Err(Fail::new("the design does not fit"));
    }
    Ok(first_misassigned(alloc, design, &[0, 1])?)
}

#[test]
fn a_variable_is_assigned_in_one_way(rt: HostRuntime) -> Result<(), Fail> {
    let alloc = rt.alloc();
    let mut design = variable(alloc)?;
    let body = set(alloc, &mut design, 1, false)?;
    add_block(&mut design, body)?;
    assert_eq!(rt; mixed(alloc, &design)?, None);
    add_assign(alloc, &mut design, (1, 0), slice(0, 0))?;
    assert_eq!(rt; mixed(alloc, &design)?, Some(1));
    Ok(())
}

#[test]
fn a_combinational_block_assigns_at_once(rt: HostRuntime) -> Result<(), Fail> {
    let alloc = rt.alloc();
    let mut design = variable(alloc)?;
    let body = set(alloc, &mut design, 1, true)?;
    add_block(&mut design, body)?;
    assert_eq!(rt; mixed(alloc, &design)?, Some(1));
    Ok(())
}
