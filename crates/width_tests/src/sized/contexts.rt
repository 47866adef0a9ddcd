//! What a context does to operands, and what it does not.
use crate::cases::expression;
use design_core::Node;
use std::alloc::Global;
use std::test::Fail;
use v_widths::{Scope, typed};

/// The width and the sign of an expression, and those of the left operand of its operator.
type Sizes = (u8, bool, u8, bool);

/// The sizes of an expression in a context of 8 bits.
fn sized(alloc: Global, scope: &Scope<'_>, text: &[u8], unsigned: bool) -> Result<Sizes, Fail> {
    let e = expression(alloc, text)?;
    let found = typed(alloc, &e, scope, 8, unsigned)?;
    match &found.node {
        Node::Binary {
            op: _,
            left,
            right: _,
        } => Ok((found.width, found.signed, left.width, left.signed)),
        _ => Err(Fail::new("no operator")),
    }
}

/// Expressions, whether something beside them makes them unsigned, and their sizes.
const SIZES: [(&[u8], bool, Sizes); 7] = [
    (b"(a + b) >> 1", false, (8, false, 8, false)),
    (b"(a + b + 0) >> 1", false, (32, false, 32, false)),
    (b"m >>> 1", false, (8, true, 8, true)),
    (b"m >>> 1", true, (8, false, 8, false)),
    (b"m >>> n", false, (8, true, 8, true)),
    (b"(m >>> 1) + 4'd0", false, (8, false, 8, false)),
    (b"s + t", true, (8, false, 8, false)),
];

/// The number of the first row whose expression isn't of its sizes.
pub fn first_wrong(alloc: Global, scope: &Scope<'_>) -> Result<Option<usize>, Fail> {
    for (row, (text, unsigned, want)) in SIZES.iter().enumerate() {
        if sized(alloc, scope, text, *unsigned)? != *want {
            return Ok(Some(row));
        }
    }
    Ok(None)
}
