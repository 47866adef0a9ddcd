//! Lists, lists of lists, and boxes.

use loc_base::{Boxed, Bytes, Items, Rows};
use std::test::Fail;

#[test]
fn bytes_grow_at_their_end(rt: HostRuntime) -> Result<(), Fail> {
    let mut bytes = Bytes::new(rt.alloc());
    assert!(rt; bytes.is_empty());
    bytes.push(b'a')?;
    bytes.append(b"bc")?;
    assert!(rt; bytes.len() == 3);
    assert!(rt; bytes.as_slice() == b"abc".as_slice());
    Ok(())
}

#[test]
fn lists_are_made_of_a_slice_and_of_a_vector(rt: HostRuntime) -> Result<(), Fail> {
    let copy = Items::copy_of(rt.alloc(), &[7u32, 9])?;
    assert!(rt; copy.as_slice() == [7, 9].as_slice());
    let words = Items::from_vec(vec![in rt.alloc(); 1u64, 2]?);
    assert!(rt; matches!(words.get(1), Some(2)));
    assert!(rt; words.get(2).is_none());
    assert!(rt; words.into_vec().as_slice() == [1, 2].as_slice());
    Ok(())
}

#[test]
fn an_element_is_put_in_place_and_the_last_is_taken(rt: HostRuntime) -> Result<(), Fail> {
    let mut list = Items::copy_of(rt.alloc(), &[1u8, 2])?;
    list.set(0, 5);
    assert!(rt; matches!(list.pop(), Some(2)));
    assert!(rt; matches!(list.pop(), Some(5)));
    assert!(rt; list.pop().is_none());
    Ok(())
}

#[test]
fn rows_of_any_length_stand_one_behind_the_other(rt: HostRuntime) -> Result<(), Fail> {
    let mut rows = Rows::new(rt.alloc());
    rows.push(&[1u8, 2])?;
    rows.push(&[])?;
    rows.push(&[3])?;
    assert!(rt; rows.len() == 3);
    assert!(rt; rows.row(0) == [1, 2].as_slice());
    assert!(rt; rows.row(1).is_empty());
    assert!(rt; rows.row(2) == [3].as_slice());
    rows.pop();
    assert!(rt; rows.len() == 2);
    Ok(())
}

#[test]
fn a_box_gives_its_value_back(rt: HostRuntime) -> Result<(), Fail> {
    let boxed = Boxed::new(rt.alloc(), 7u8)?;
    assert!(rt; *boxed.get() == 7);
    assert!(rt; boxed.into_inner() == 7);
    Ok(())
}
