//! Expressions of texts.
use std::alloc::Global;
use std::test::Fail;
use v_lexer::tokens;
use v_syntax::Expr;
use v_tree::expr;

/// The expression of a text.
pub fn expression(alloc: Global, text: &[u8]) -> Result<Expr, Fail> {
    let found = tokens(alloc, text)?;
    if found.len() >= 4_000_000_000 {
        return Err(Fail::new("too many tokens"));
    }
    let (tree, end) = expr(alloc, found.as_slice(), 0)?;
    if end != found.len() {
        return Err(Fail::new("tokens are left"));
    }
    Ok(tree)
}

/// The expression of a text that is opened and closed so often around its middle.
pub fn deep_expression(
    alloc: Global,
    levels: u32,
    (open, middle, close): (&[u8], &[u8], &[u8]),
) -> Result<Expr, Fail> {
    let mut text = Vec::new(alloc);
    for _ in 0..levels {
        text.extend_from_slice(open)?;
    }
    text.extend_from_slice(middle)?;
    for _ in 0..levels {
        text.extend_from_slice(close)?;
    }
    expression(alloc, text.as_slice())
}
