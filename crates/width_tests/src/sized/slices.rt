//! Names whose selects are slices.
use crate::cases::expression;
use design_core::Node;
use std::alloc::Global;
use std::test::Fail;
use v_widths::{Scope, typed};

/// The signal, the lowest bit and the width of a slice.
type Slice = (u32, u8, u8);

/// The slice that an expression is, where it is one.
fn slice_of(alloc: Global, scope: &Scope<'_>, text: &[u8]) -> Result<Option<Slice>, Fail> {
    let e = expression(alloc, text)?;
    let found = typed(alloc, &e, scope, 0, false)?;
    match &found.node {
        Node::Slice {
            signal,
            from,
            width,
        } => Ok(Some((*signal, *from, *width))),
        _ => Ok(None),
    }
}

/// A constant chooses bits that are there, but for the last two.
const SLICES: [(&[u8], Option<Slice>); 8] = [
    (b"a[3'd3]", Some((0, 3, 1))),
    (b"a[3'd3 + 4'd1]", Some((0, 4, 1))),
    (b"v[9:6]", Some((8, 2, 4))),
    (b"u[0]", Some((7, 7, 1))),
    (b"mem[3'd1 + 4'd8]", Some((11, 0, 8))),
    (b"mem[9][5:2]", Some((11, 2, 4))),
    (b"a[n]", None),
    (b"a[9]", None),
];

/// The number of the first row whose name isn't the slice that it says.
pub fn first_wrong(alloc: Global, scope: &Scope<'_>) -> Result<Option<usize>, Fail> {
    for (row, (text, want)) in SLICES.iter().enumerate() {
        if slice_of(alloc, scope, text)? != *want {
            return Ok(Some(row));
        }
    }
    Ok(None)
}
