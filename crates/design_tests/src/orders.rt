//! Rows of needs, their orders, and circles.

use design_order::{OrderErr, are_within, least_order};
use loc_base::Rows;
use std::alloc::Global;
use std::test::Fail;

/// The row of a number: what it needs by some pairs, of which the first number needs the second.
fn row_of(alloc: Global, number: u32, pairs: &[(u32, u32)]) -> Result<Vec<u32>, Fail> {
    let mut row = Vec::new(alloc);
    for (one, other) in pairs {
        if *one == number {
            row.push(*other)?;
        }
    }
    Ok(row)
}

/// The rows of so many numbers.
fn rows_of(alloc: Global, count: u32, pairs: &[(u32, u32)]) -> Result<Rows<u32>, Fail> {
    let mut rows = Rows::new(alloc);
    for number in 0..count {
        let row = row_of(alloc, number, pairs)?;
        rows.push(&row)?;
    }
    Ok(rows)
}

/// The order of rows, or their circle, the former behind `true`.
fn answer(alloc: Global, rows: &Rows<u32>) -> Result<(bool, Vec<u32>), Fail> {
    if rows.len() > 1_000_000 || !are_within(rows) {
        return Err(Fail::new("no rows of numbers"));
    }
    match least_order(alloc, rows) {
        Ok(order) => Ok((true, order)),
        Err(OrderErr::Circle { drivers }) => Ok((false, drivers)),
        Err(OrderErr::NoMemory) => Err(Fail::new("no memory")),
    }
}

/// So many numbers with pairs of them, and their order where `true` stands before it, else their circle.
type Row = (u32, &'static [(u32, u32)], bool, &'static [u32]);

/// Whether numbers have the orders and the circles of rows.
fn are_ordered(alloc: Global, rows: &[Row]) -> Result<bool, Fail> {
    for (count, pairs, is_order, wanted) in rows {
        let (found, numbers) = answer(alloc, &rows_of(alloc, *count, pairs)?)?;
        if found != *is_order || numbers.as_slice() != *wanted {
            return Ok(false);
        }
    }
    Ok(true)
}

const NEEDS: [Row; 2] = [
    (3, &[(0, 1), (1, 2)], true, &[2, 1, 0]),
    (4, &[(3, 1), (3, 2), (1, 0), (2, 0)], true, &[0, 1, 2, 3]),
];

#[test]
fn what_is_needed_comes_first(rt: HostRuntime) -> Result<(), Fail> {
    assert!(rt; are_ordered(rt.alloc(), &NEEDS)?);
    Ok(())
}

const READY: [Row; 3] = [
    (4, &[], true, &[0, 1, 2, 3]),
    (4, &[(0, 3), (3, 2)], true, &[1, 2, 3, 0]),
    (3, &[(0, 2), (0, 2)], true, &[1, 2, 0]),
];

#[test]
fn of_those_that_are_ready_the_least_is_taken(rt: HostRuntime) -> Result<(), Fail> {
    assert!(rt; are_ordered(rt.alloc(), &READY)?);
    Ok(())
}

const CIRCLES: [Row; 2] = [
    (2, &[(1, 1)], false, &[1]),
    (4, &[(0, 1), (1, 2), (2, 3), (3, 1)], false, &[1, 2, 3]),
];

#[test]
fn numbers_that_need_each_other_are_answered_as_a_circle(rt: HostRuntime) -> Result<(), Fail> {
    assert!(rt; are_ordered(rt.alloc(), &CIRCLES)?);
    Ok(())
}

#[test]
fn a_row_that_needs_a_number_without_a_row_is_none(rt: HostRuntime) -> Result<(), Fail> {
    assert!(rt; !are_within(&rows_of(rt.alloc(), 2, &[(0, 2)])?));
    Ok(())
}

#[test]
fn a_long_chain_has_an_order(rt: HostRuntime) -> Result<(), Fail> {
    let alloc = rt.alloc();
    let mut rows = Rows::new(alloc);
    for number in 0..65_535u32 {
        rows.push(&[number + 1])?;
    }
    rows.push(&[])?;
    let (found, order) = answer(alloc, &rows)?;
    assert!(rt; found);
    assert_eq!(rt; order.len(), 65_536);
    Ok(())
}
