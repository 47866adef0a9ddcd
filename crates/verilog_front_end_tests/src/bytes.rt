//! How many bytes a text may have.
use std::alloc::Global;
use std::test::Fail;
use v_lexer::tokens;
use v_lexer::types::LexErr;

/// So many of one byte.
fn many(alloc: Global, byte: u8, count: usize) -> Result<Vec<u8>, Fail> {
    let mut bytes = Vec::with_capacity(alloc, count)?;
    for _ in 0..count {
        bytes.push(byte)?;
    }
    Ok(bytes)
}

/// Spaces are no tokens, and a quotation mark begins none: the length is judged before the first byte.
#[test]
fn a_text_has_16777216_bytes_at_most(rt: HostRuntime) -> Result<(), Fail> {
    let alloc = rt.alloc();
    let most = many(alloc, b' ', 16_777_216)?;
    assert!(rt; tokens(alloc, most.as_slice()).is_ok());
    let more = many(alloc, b'"', 16_777_217)?;
    assert!(rt; matches!(tokens(alloc, more.as_slice()), Err(LexErr::TooLong(_))));
    Ok(())
}
