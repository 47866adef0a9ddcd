//! Each refusal, and pairs of parts that are wrong: the leftmost counts, and of one part the first fault.
use crate::cases::Refusal::{NotConstant, Range, UnknownName, ZeroDivisor};
use crate::cases::{Refusal, error_of, expression};
use std::alloc::Global;
use std::test::Fail;
use v_widths::{Scope, WidthErr, typed};

/// The refusal of an expression by itself, if it is refused.
fn refusal_of(alloc: Global, scope: &Scope<'_>, text: &[u8]) -> Result<Option<WidthErr>, Fail> {
    let e = expression(alloc, text)?;
    Ok(typed(alloc, &e, scope, 0, false).err())
}

/// The number of the first row of a table whose text isn't refused as it says.
fn wrong_row(
    alloc: Global,
    scope: &Scope<'_>,
    table: &[(&[u8], Refusal)],
) -> Result<Option<usize>, Fail> {
    for (row, (text, refusal)) in table.iter().enumerate() {
        if refusal_of(alloc, scope, text)? != Some(error_of(*refusal)) {
            return Ok(Some(row));
        }
    }
    Ok(None)
}

/// Over signals: one part is wrong.
const REFUSED: [(&[u8], Refusal); 27] = [
    (b"x", UnknownName(0, 1)),
    (b"a + x", UnknownName(4, 5)),
    (b"a[1][2]", UnknownName(0, 7)),
    (b"mem", UnknownName(0, 3)),
    (b"mem[1:0]", UnknownName(0, 8)),
    (b"mem[n +: 2]", UnknownName(0, 11)),
    (b"mem[n][k]", NotConstant(7, 8)),
    (b"mem[n][2:5]", Range(0, 11)),
    (b"a / b", NotConstant(0, 5)),
    (b"a % 2", NotConstant(0, 5)),
    (b"a ** 2", NotConstant(0, 6)),
    (b"2 ** a", NotConstant(0, 6)),
    (b"2 ** -1", NotConstant(0, 7)),
    (b"$clog2(a)", NotConstant(0, 9)),
    (b"a[b:0]", NotConstant(2, 3)),
    (b"a[0 +: n]", NotConstant(7, 8)),
    (b"{a{n}}", NotConstant(1, 2)),
    (b"1 / 0", ZeroDivisor(0, 5)),
    (b"4'd1 % (4'd8 + 4'd8)", ZeroDivisor(0, 20)),
    (b"{100{2'b11}}", Range(0, 12)),
    (b"{0{n}}", Range(0, 6)),
    (b"{-1{n}}", Range(0, 7)),
    (b"a[0:7]", Range(0, 6)),
    (b"u[7:0]", Range(0, 6)),
    (b"v[4:11]", Range(0, 7)),
    (b"a[0 +: 0]", Range(0, 9)),
    (b"a[0 -: 129]", Range(0, 11)),
];

/// Over signals: two parts are wrong, or one in two ways.
const REFUSED_TWICE: [(&[u8], Refusal); 11] = [
    (b"1 / 0 + x", ZeroDivisor(0, 5)),
    (b"x + 1 / 0", UnknownName(0, 1)),
    (b"{0{n}} + 1 / 0", Range(0, 6)),
    (b"1 / 0 + {0{n}}", ZeroDivisor(0, 5)),
    (b"a / 0", NotConstant(0, 5)),
    (b"x / 0", UnknownName(0, 1)),
    (b"a[x:0] + x", UnknownName(2, 3)),
    (b"{x{1 / 0}}", UnknownName(1, 2)),
    (b"{a, {0{n}}, x}", Range(4, 10)),
    (b"a[1 / 0][x]", ZeroDivisor(2, 7)),
    (b"k ? {0{n}} : x", Range(4, 10)),
];

/// Over parameters.
const REFUSED_OF_PARAMETERS: [(&[u8], Refusal); 4] = [
    (b"a[3:0] + a[0:3]", Range(9, 15)),
    (b"a[x +: 200]", UnknownName(2, 3)),
    (b"a[0 +: 200]", Range(0, 11)),
    (b"a[m][n]", UnknownName(0, 7)),
];

/// The number of the first row over signals that is wrong, of both tables.
pub fn first_wrong(alloc: Global, scope: &Scope<'_>) -> Result<Option<usize>, Fail> {
    match wrong_row(alloc, scope, &REFUSED)? {
        None => wrong_row(alloc, scope, &REFUSED_TWICE),
        found => Ok(found),
    }
}

/// The number of the first row over parameters that is wrong.
pub fn first_wrong_of_parameters(alloc: Global, scope: &Scope<'_>) -> Result<Option<usize>, Fail> {
    wrong_row(alloc, scope, &REFUSED_OF_PARAMETERS)
}
