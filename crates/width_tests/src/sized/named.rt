//! Names where no expression stands, and sizes of what is refused.
use crate::cases::expression;
use std::alloc::Global;
use std::test::Fail;
use v_syntax::Expr;
use v_widths::{Scope, Size, WidthErr, own_size, typed, typed_name};

/// The width and the sign that a name with its selects has by itself.
fn size_of_name(alloc: Global, scope: &Scope<'_>, text: &[u8]) -> Result<(u8, bool), Fail> {
    let e = expression(alloc, text)?;
    match &e {
        Expr::Name {
            site,
            name,
            selects,
        } => {
            let found = typed_name(alloc, scope, *site, name, selects.as_slice())?;
            Ok((found.width, found.signed))
        }
        _ => Err(Fail::new("no name")),
    }
}

const NAMES: [(&[u8], (u8, bool)); 5] = [
    (b"s", (8, true)),
    (b"a[6:3]", (4, false)),
    (b"a[n]", (1, false)),
    (b"mem[n]", (8, true)),
    (b"mem[n][5:2]", (4, false)),
];

/// The size of a division, which is refused where its operands are no constants.
pub fn size_of_refused(alloc: Global, scope: &Scope<'_>) -> Result<Size, Fail> {
    let e = expression(alloc, b"s / t")?;
    match typed(alloc, &e, scope, 0, false) {
        Err(WidthErr::NotConstant(_)) => Ok(own_size(alloc, &e, scope)?),
        _ => Err(Fail::new("not refused")),
    }
}

/// The number of the first row whose name isn't of its size.
pub fn first_wrong(alloc: Global, scope: &Scope<'_>) -> Result<Option<usize>, Fail> {
    for (row, (text, want)) in NAMES.iter().enumerate() {
        if size_of_name(alloc, scope, text)? != *want {
            return Ok(Some(row));
        }
    }
    Ok(None)
}
