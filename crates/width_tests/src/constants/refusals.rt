//! Why an expression is no constant: the leftmost part that is wrong, and of one part the first fault.
use crate::cases::Refusal::{NotConstant, Range, UnknownName, ZeroDivisor};
use crate::cases::{Refusal, error_of, expression};
use std::alloc::Global;
use std::test::Fail;
use v_widths::{Scope, WidthErr, constant};

/// The refusal of a constant, if it is refused.
fn refusal_of(alloc: Global, scope: &Scope<'_>, text: &[u8]) -> Result<Option<WidthErr>, Fail> {
    let e = expression(alloc, text)?;
    Ok(constant(alloc, &e, scope).err())
}

/// The number of the first row of a table whose text isn't refused as it says.
fn wrong_row(
    alloc: Global,
    scope: &Scope<'_>,
    table: &[(&[u8], Refusal)],
) -> Result<Option<usize>, Fail> {
    for (row, (text, refusal)) in table.iter().enumerate() {
        if refusal_of(alloc, scope, text)? != Some(error_of(*refusal)) {
            return Ok(Some(row));
        }
    }
    Ok(None)
}

/// Over parameters.
const OF_PARAMETERS: [(&[u8], Refusal); 18] = [
    (b"x", UnknownName(0, 1)),
    (b"mem[2]", UnknownName(0, 6)),
    (b"a[1][2]", UnknownName(0, 7)),
    (b"2 ** -1", NotConstant(0, 7)),
    (b"2 ** m", NotConstant(0, 6)),
    (b"1 / 0", ZeroDivisor(0, 5)),
    (b"7 % (a - a)", ZeroDivisor(0, 11)),
    (b"{0{a}}", Range(0, 6)),
    (b"{m{a}}", Range(0, 6)),
    (b"{17{a}}", Range(0, 7)),
    (b"{a[3:0], a[0:3]}", Range(9, 15)),
    (b"a[0 +: k - 1]", Range(0, 13)),
    (b"1 / 0 + x", ZeroDivisor(0, 5)),
    (b"x + 1 / 0", UnknownName(0, 1)),
    (b"2 ** -1 + 1 / 0", NotConstant(0, 7)),
    (b"1 / 0 + 2 ** -1", ZeroDivisor(0, 5)),
    (b"(1 / 0) ** -1", ZeroDivisor(1, 6)),
    (b"k ? 1 : 1 / 0", ZeroDivisor(8, 13)),
];

/// Over signals: each name of one is a part that is no constant.
const OF_SIGNALS: [(&[u8], Refusal); 15] = [
    (b"a", NotConstant(0, 1)),
    (b"3 + n", NotConstant(4, 5)),
    (b"n[1]", NotConstant(0, 4)),
    (b"n[x]", UnknownName(2, 3)),
    (b"n[m]", NotConstant(2, 3)),
    (b"mem", UnknownName(0, 3)),
    (b"mem[9]", NotConstant(0, 6)),
    (b"mem[2]", NotConstant(0, 6)),
    (b"k ? 1 : 2", NotConstant(0, 1)),
    (b"1 / n", NotConstant(4, 5)),
    (b"2 ** n", NotConstant(5, 6)),
    (b"$clog2(n)", NotConstant(7, 8)),
    (b"{n{1'b1}}", NotConstant(1, 2)),
    (b"n + x", NotConstant(0, 1)),
    (b"x + n", UnknownName(0, 1)),
];

/// The number of the first row over parameters that is wrong.
pub fn first_wrong_of_parameters(alloc: Global, scope: &Scope<'_>) -> Result<Option<usize>, Fail> {
    wrong_row(alloc, scope, &OF_PARAMETERS)
}

/// The number of the first row over signals that is wrong.
pub fn first_wrong_of_signals(alloc: Global, scope: &Scope<'_>) -> Result<Option<usize>, Fail> {
    wrong_row(alloc, scope, &OF_SIGNALS)
}
