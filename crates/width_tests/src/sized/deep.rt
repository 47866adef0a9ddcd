//! Expressions of many levels.
use crate::cases::deep_expression;
use std::alloc::Global;
use std::test::Fail;
use v_widths::{Scope, typed};

/// How many levels, what opens and closes them, and what stands in the middle.
type Levels = (u32, (&'static [u8], &'static [u8], &'static [u8]));

/// The width and the sign of levels.
fn size_of(alloc: Global, scope: &Scope<'_>, levels: Levels) -> Result<(u8, bool), Fail> {
    let e = deep_expression(alloc, levels.0, levels.1)?;
    let found = typed(alloc, &e, scope, 0, false)?;
    Ok((found.width, found.signed))
}

/// Chains of 4,000 operators, which are trees of as many levels, and nests of 120 and 240, in which a part that is
/// looked at twice at each level would never come to an end.
const DEEP: [(Levels, (u8, bool)); 12] = [
    ((4000, (b"n + ", b"n", b"")), (4, false)),
    ((4000, (b"", b"s", b" - t")), (8, true)),
    ((4000, (b"", b"s", b" <<< k")), (8, true)),
    ((4000, (b"", b"s", b" < t")), (1, false)),
    ((4000, (b"", b"s", b" && t")), (1, false)),
    ((120, (b"k ? s : ", b"t", b"")), (8, true)),
    ((120, (b"~(", b"m", b")")), (4, true)),
    ((120, (b"!(", b"m", b")")), (1, false)),
    ((240, (b"{", b"m", b"}")), (4, false)),
    ((120, (b"{1{", b"m", b"}}")), (4, false)),
    ((120, (b"$signed(", b"a", b")")), (8, true)),
    ((240, (b"a[", b"n", b"]")), (1, false)),
];

/// The number of the first row whose levels aren't of its size.
pub fn first_wrong(alloc: Global, scope: &Scope<'_>) -> Result<Option<usize>, Fail> {
    for (row, (levels, want)) in DEEP.iter().enumerate() {
        if size_of(alloc, scope, *levels)? != *want {
            return Ok(Some(row));
        }
    }
    Ok(None)
}
