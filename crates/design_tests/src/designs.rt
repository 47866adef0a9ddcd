//! Designs, the orders of their drivers, and drivers that depend on each other in a circle.

use crate::build::{add_assign, add_block, design_of, set_bit, slice};
use design_core::{Design, SignalKind, Stmt};
use design_fits::can_run;
use design_order::{OrderErr, order};
use loc_base::Items;
use std::alloc::Global;
use std::test::Fail;

/// A bit of a signal: the number of the signal, and the position in it.
type Bit = (u32, u8);

/// The first signal of the designs, an input.
const IN: Bit = (0, 0);

/// Assignments, each with its target before its value, and the order of their drivers where `true` stands before it, else
/// their circle.
type Row = (&'static [(Bit, Bit)], bool, &'static [u32]);

/// Whether the drivers of a design have the order, or the circle, of a row.
fn is_ordered(alloc: Global, design: &Design, row: &Row) -> Result<bool, Fail> {
    let (_, is_order, wanted) = *row;
    if !can_run(design) || design.drivers.len() > 1_000_000 {
        return Err(Fail::new("the design does not fit"));
    }
    match order(alloc, design) {
        Ok(order) => Ok(is_order && order.as_slice() == wanted),
        Err(OrderErr::Circle { drivers }) => Ok(!is_order && drivers.as_slice() == wanted),
        Err(OrderErr::NoMemory) => Err(Fail::new("no memory")),
    }
}

/// An input of one bit, and two signals of two.
fn signals(alloc: Global, kind: SignalKind) -> Result<Design, Fail> {
    design_of(alloc, &[(1, SignalKind::Input), (2, kind), (2, kind)], &[])
}

/// A design of continuous assignments.
fn assigned(alloc: Global, pairs: &[(Bit, Bit)]) -> Result<Design, Fail> {
    let mut design = signals(alloc, SignalKind::Net)?;
    for (target, (signal, position)) in pairs {
        add_assign(alloc, &mut design, *target, slice(*signal, *position))?;
    }
    Ok(design)
}

/// A design of one combinational block of assignments by `=`.
fn in_block(alloc: Global, pairs: &[(Bit, Bit)]) -> Result<Design, Fail> {
    let mut design = signals(alloc, SignalKind::Reg)?;
    let mut statements = Items::new(alloc);
    for (target, (signal, position)) in pairs {
        let value = slice(*signal, *position);
        statements.push(set_bit(alloc, &mut design, *target, value)?)?;
    }
    add_block(&mut design, Stmt::Block(statements))?;
    Ok(design)
}

/// Whether continuous assignments have the orders and the circles of rows.
fn are_ordered(alloc: Global, rows: &[Row]) -> Result<bool, Fail> {
    for row in rows {
        if !is_ordered(alloc, &assigned(alloc, row.0)?, row)? {
            return Ok(false);
        }
    }
    Ok(true)
}

const BEHIND: [Row; 2] = [
    (&[((1, 0), (2, 0)), ((2, 0), IN)], true, &[1, 0]),
    (&[((1, 0), IN), ((2, 0), IN)], true, &[0, 1]),
];

#[test]
fn a_driver_comes_behind_those_of_the_bits_it_reads(rt: HostRuntime) -> Result<(), Fail> {
    assert!(rt; are_ordered(rt.alloc(), &BEHIND)?);
    Ok(())
}

const CIRCLES: [Row; 2] = [
    (&[((1, 0), (2, 0)), ((2, 0), (1, 0))], false, &[0, 1]),
    (&[((1, 0), (1, 0))], false, &[0]),
];

#[test]
fn drivers_that_read_each_other_are_a_circle(rt: HostRuntime) -> Result<(), Fail> {
    assert!(rt; are_ordered(rt.alloc(), &CIRCLES)?);
    Ok(())
}

const BITS: [Row; 1] = [(&[((1, 0), (1, 1)), ((1, 1), IN)], true, &[1, 0])];

#[test]
fn bits_of_one_signal_are_told_apart(rt: HostRuntime) -> Result<(), Fail> {
    assert!(rt; are_ordered(rt.alloc(), &BITS)?);
    Ok(())
}

const BLOCKS: [Row; 2] = [
    (&[((1, 0), IN), ((2, 0), (1, 0))], true, &[0]),
    (&[((2, 0), (1, 0)), ((1, 0), IN)], false, &[0]),
];

#[test]
fn a_block_does_not_wait_for_what_it_assigned_before(rt: HostRuntime) -> Result<(), Fail> {
    let alloc = rt.alloc();
    for row in &BLOCKS {
        assert!(rt; is_ordered(alloc, &in_block(alloc, row.0)?, row)?);
    }
    Ok(())
}
