//! A shelf in memory.

use io_ports::{FaultKind, LoadErr, MemShelf, Numbers, PutErr, Shelf, Texts};
use loc_base::Bytes;
use std::alloc::Global;
use std::test::Fail;

/// A shelf with the texts `a`, which is `abcd`, and `b`, which is empty, and with calls that are to fail.
fn shelf(alloc: Global, fails: &[u64]) -> Result<MemShelf, Fail> {
    let mut texts = Texts::new(alloc);
    texts.add("a", Bytes::copy_of(alloc, b"abcd")?)?;
    texts.add("b", Bytes::new(alloc))?;
    texts.add("a", Bytes::copy_of(alloc, b"later")?)?;
    let mut numbers = Numbers::new(alloc);
    for number in fails {
        numbers.push(*number)?;
    }
    Ok(MemShelf::new(alloc, texts, numbers))
}

/// Whether a text was begun under a name, and is this.
fn has_text(shelf: &MemShelf, name: &str, text: &[u8]) -> bool {
    match shelf.text(name) {
        Some(found) => found.as_slice() == text,
        None => false,
    }
}

#[test]
fn the_first_text_of_a_name_counts(rt: HostRuntime) -> Result<(), Fail> {
    let mut shelf = shelf(rt.alloc(), &[])?;
    let text = shelf.load(rt.alloc(), "a", 4)?;
    assert!(rt; text.as_slice() == b"abcd".as_slice());
    let text = shelf.load(rt.alloc(), "b", 0)?;
    assert!(rt; text.is_empty());
    Ok(())
}

#[test]
fn a_text_over_the_limit_is_too_big_and_no_fault(rt: HostRuntime) -> Result<(), Fail> {
    let mut shelf = shelf(rt.alloc(), &[])?;
    assert!(rt; matches!(shelf.load(rt.alloc(), "a", 3), Err(LoadErr::TooBig)));
    assert!(rt; shelf.faults() == 0);
    Ok(())
}

#[test]
fn an_absent_name_fails_and_is_a_fault(rt: HostRuntime) -> Result<(), Fail> {
    let mut shelf = shelf(rt.alloc(), &[])?;
    assert!(rt;
        matches!(
            shelf.load(rt.alloc(), "c", 100),
            Err(LoadErr::Failed(FaultKind::Other))
        )
    );
    assert!(rt; shelf.faults() == 1);
    assert!(rt; shelf.write_faults() == 0);
    Ok(())
}

#[test]
fn calls_fail_by_their_numbers(rt: HostRuntime) -> Result<(), Fail> {
    let mut shelf = shelf(rt.alloc(), &[3, 0])?;
    assert!(rt;
        matches!(
            shelf.load(rt.alloc(), "a", 9),
            Err(LoadErr::Failed(FaultKind::Other))
        )
    );
    assert!(rt; shelf.load(rt.alloc(), "b", 9).is_ok());
    shelf.begin("log")?;
    assert!(rt; matches!(shelf.begin("log"), Err(PutErr::Failed(FaultKind::Other))));
    shelf.begin("log")?;
    assert!(rt; shelf.faults() == 2);
    assert!(rt; shelf.write_faults() == 1);
    Ok(())
}

#[test]
fn asking_is_a_call_and_begins_nothing(rt: HostRuntime) -> Result<(), Fail> {
    let mut shelf = shelf(rt.alloc(), &[1])?;
    shelf.can_begin("log")?;
    assert!(rt; shelf.text("log").is_none());
    assert!(rt;
        matches!(
            shelf.can_begin("log"),
            Err(PutErr::Failed(FaultKind::Other))
        )
    );
    assert!(rt; shelf.write_faults() == 1);
    shelf.begin("log")?;
    shelf.put("log", b"one")?;
    shelf.can_begin("log")?;
    assert!(rt; has_text(&shelf, "log", b"one"));
    Ok(())
}

#[test]
fn pieces_are_appended_and_begin_empties(rt: HostRuntime) -> Result<(), Fail> {
    let mut shelf = shelf(rt.alloc(), &[])?;
    shelf.begin("log")?;
    shelf.put("log", b"one")?;
    shelf.put("log", b"two")?;
    assert!(rt; has_text(&shelf, "log", b"onetwo"));
    shelf.begin("log")?;
    assert!(rt; has_text(&shelf, "log", b""));
    assert!(rt; shelf.text("a").is_none());
    Ok(())
}

#[test]
fn a_put_that_fails_leaves_a_front(rt: HostRuntime) -> Result<(), Fail> {
    let mut shelf = shelf(rt.alloc(), &[2])?;
    shelf.begin("log")?;
    shelf.put("log", b"one")?;
    assert!(rt;
        matches!(
            shelf.put("log", b"twos"),
            Err(PutErr::Failed(FaultKind::Other))
        )
    );
    assert!(rt; has_text(&shelf, "log", b"onetw"));
    assert!(rt; shelf.faults() == 1);
    assert!(rt; shelf.write_faults() == 1);
    Ok(())
}
