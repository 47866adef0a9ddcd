//! Values of constants.
use crate::cases::{
    COMPARISONS, CONSTANTS, CONTEXTS, INDEXED, JOINED, OPERATORS, Row, SELECTS, expression,
};
use std::alloc::Global;
use std::test::Fail;
use v_widths::{Const, Scope, constant_in};

/// The width, the sign and the value of a constant.
pub fn is_of(found: Const) -> (u8, bool, u128) {
    (found.bits.width(), found.signed, found.bits.value())
}

/// What a row's expression is over parameters.
fn found_of(alloc: Global, scope: &Scope<'_>, row: &Row) -> Result<(u8, bool, u128), Fail> {
    let (text, context, _) = *row;
    if context > 128 {
        return Err(Fail::new("too wide a context"));
    }
    let e = expression(alloc, text)?;
    Ok(is_of(constant_in(alloc, &e, scope, context)?))
}

/// The number of the first row of a table whose expression isn't what it says.
fn wrong_row(alloc: Global, scope: &Scope<'_>, rows: &[Row]) -> Result<Option<usize>, Fail> {
    for (number, row) in rows.iter().enumerate() {
        if found_of(alloc, scope, row)? != row.2 {
            return Ok(Some(number));
        }
    }
    Ok(None)
}

/// The tables, each of which Icarus gave.
const TABLES: [&[Row]; 7] = [
    &OPERATORS,
    &COMPARISONS,
    &JOINED,
    &SELECTS,
    &INDEXED,
    &CONTEXTS,
    &CONSTANTS,
];

/// The numbers of the first table with a wrong row, and of that row.
pub fn first_wrong(alloc: Global, scope: &Scope<'_>) -> Result<Option<(usize, usize)>, Fail> {
    for (table, rows) in TABLES.iter().enumerate() {
        if let Some(row) = wrong_row(alloc, scope, rows)? {
            return Ok(Some((table, row)));
        }
    }
    Ok(None)
}
