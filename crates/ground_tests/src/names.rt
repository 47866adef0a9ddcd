//! Names, their numbers, and classes of bytes.

use crate::same::same;
use loc_base::{FreeGate, Gate, Name, NameTable, is_decimal, is_visible, is_white};
use std::test::Fail;

#[test]
fn no_bytes_and_a_space_make_no_name(rt: HostRuntime) -> Result<(), Fail> {
    for bytes in &["", "a b", "a\n", "\x7f", "é"] {
        let name = Name::new(rt.alloc(), bytes.as_bytes())?;
        same(&rt, bytes, &name.is_none(), &true);
    }
    Ok(())
}

#[test]
fn printable_bytes_make_a_name_and_its_copy(rt: HostRuntime) -> Result<(), Fail> {
    for bytes in &["a", "u1.q[3]", "!", "~"] {
        let name = Name::new(rt.alloc(), bytes.as_bytes())?.expect(&rt, "a name");
        same(&rt, bytes, &name.as_bytes(), &bytes.as_bytes());
        let copy = name.copied(rt.alloc())?;
        same(&rt, bytes, &copy.as_bytes(), &bytes.as_bytes());
    }
    Ok(())
}

#[test]
fn a_name_keeps_its_first_number(rt: HostRuntime) -> Result<(), Fail> {
    let mut table = NameTable::new(rt.alloc());
    assert!(rt; table.add(b"clk", 7)?);
    assert!(rt; table.add(b"rst", 0)?);
    assert!(rt; !table.add(b"clk", 8)?);
    for row in &[
        ("clk", Some(7)),
        ("rst", Some(0)),
        ("CLK", None),
        ("", None),
    ] {
        same(&rt, row, &table.find(row.0.as_bytes()), &row.1);
    }
    Ok(())
}

#[test]
fn classes_of_bytes_have_their_bytes(rt: HostRuntime) {
    for byte in 0..=255u8 {
        let found = (is_white(byte), is_decimal(byte), is_visible(byte));
        let wanted = (
            b" \t\n\x0c\r".contains(&byte),
            b"0123456789".contains(&byte),
            byte.is_ascii_graphic(),
        );
        same(&rt, &byte, &found, &wanted);
    }
}

#[test]
fn the_free_gate_lets_each_piece_begin(rt: HostRuntime) {
    let gate = FreeGate;
    gate.enter(0);
    gate.enter(u32::MAX);
    assert!(rt; gate == FreeGate);
}
