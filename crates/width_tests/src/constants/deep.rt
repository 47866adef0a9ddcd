//! Constants of many levels.
use crate::cases::deep_expression;
use crate::constants::values::is_of;
use std::alloc::Global;
use std::test::Fail;
use v_widths::{Scope, constant};

/// How many levels, what opens and closes them, and what stands in the middle.
type Levels = (u32, (&'static [u8], &'static [u8], &'static [u8]));

/// What a constant of levels is.
fn found_of(alloc: Global, scope: &Scope<'_>, levels: Levels) -> Result<(u8, bool, u128), Fail> {
    let e = deep_expression(alloc, levels.0, levels.1)?;
    Ok(is_of(constant(alloc, &e, scope)?))
}

/// Levels of counts in counts, of replications in replications, of bounds in bounds and of bases in bases, each looked
/// at once: a constant that is computed anew at each level above it would never come to an end. The last is a sum from
/// the left.
const DEEP: [(Levels, (u8, bool, u128)); 5] = [
    ((100, (b"{", b"1", b"{1'b1}}")), (1, false, 1)),
    ((100, (b"{1{", b"n", b"}}")), (4, false, 9)),
    ((100, (b"a[", b"0", b":0]")), (1, false, 0)),
    ((250, (b"(", b"s", b") ** 1")), (8, true, 156)),
    ((4000, (b"n + ", b"n", b"")), (4, false, 9)),
];

/// The number of the first row whose levels aren't what it says.
pub fn first_wrong(alloc: Global, scope: &Scope<'_>) -> Result<Option<usize>, Fail> {
    for (row, (levels, want)) in DEEP.iter().enumerate() {
        if found_of(alloc, scope, *levels)? != *want {
            return Ok(Some(row));
        }
    }
    Ok(None)
}
