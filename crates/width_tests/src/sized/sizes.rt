//! Widths, signs and values of expressions over signals.
use crate::cases::{
    ARRAYS, COMPARISONS, CONTEXTS, INDEXED, JOINED, OPERATORS, Row, SELECTS, UNSIGNED, expression,
};
use crate::sized::simulated::value_of;
use std::alloc::Global;
use std::test::Fail;
use v_widths::{Scope, typed};

/// What a row's expression is over signals, in a context that is unsigned where `unsigned` says so.
fn found_of(
    alloc: Global,
    scope: &Scope<'_>,
    row: &Row,
    unsigned: bool,
) -> Result<(u8, bool, u128), Fail> {
    let (text, context, _) = *row;
    if context > 128 {
        return Err(Fail::new("too wide a context"));
    }
    let e = expression(alloc, text)?;
    let found = typed(alloc, &e, scope, context, unsigned)?;
    let (width, signed) = (found.width, found.signed);
    Ok((width, signed, value_of(alloc, found)?))
}

/// The number of the first row whose expression isn't what it says.
fn wrong_row(
    alloc: Global,
    scope: &Scope<'_>,
    rows: &[Row],
    unsigned: bool,
) -> Result<Option<usize>, Fail> {
    for (number, row) in rows.iter().enumerate() {
        if found_of(alloc, scope, row, unsigned)? != row.2 {
            return Ok(Some(number));
        }
    }
    Ok(None)
}

/// The tables, each of which Icarus gave, and whether something beside the expressions makes them unsigned.
const TABLES: [(&[Row], bool); 8] = [
    (&OPERATORS, false),
    (&COMPARISONS, false),
    (&JOINED, false),
    (&SELECTS, false),
    (&INDEXED, false),
    (&ARRAYS, false),
    (&CONTEXTS, false),
    (&UNSIGNED, true),
];

/// The numbers of the first table with a wrong row, and of that row.
pub fn first_wrong(alloc: Global, scope: &Scope<'_>) -> Result<Option<(usize, usize)>, Fail> {
    for (table, (rows, unsigned)) in TABLES.iter().enumerate() {
        if let Some(row) = wrong_row(alloc, scope, rows, *unsigned)? {
            return Ok(Some((table, row)));
        }
    }
    Ok(None)
}
