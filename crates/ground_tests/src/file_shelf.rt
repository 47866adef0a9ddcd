//! The system's files as a shelf.

use crate::same::same;
use io_ports::{FaultKind, FileShelf, LoadErr, PutErr, Shelf};
use std::alloc::Global;
use std::fs;
use std::io::ErrorKind;
use std::os::unix::fs::symlink;
use std::test::Fail;

#[test]
fn what_is_written_is_loaded(rt: HostRuntime) -> Result<(), Fail> {
    let mut shelf = FileShelf::new(&rt, rt.alloc());
    shelf.begin("written.txt")?;
    shelf.put("written.txt", b"one")?;
    shelf.begin("other.txt")?;
    shelf.put("written.txt", b"two")?;
    let text = shelf.load(rt.alloc(), "written.txt", 6)?;
    assert!(rt; text.as_slice() == b"onetwo".as_slice());
    assert!(rt; shelf.load(rt.alloc(), "other.txt", 0)?.is_empty());
    fs::remove_file(&rt, "written.txt")?;
    fs::remove_file(&rt, "other.txt")?;
    Ok(())
}

#[test]
fn begin_empties_a_file(rt: HostRuntime) -> Result<(), Fail> {
    let mut shelf = FileShelf::new(&rt, rt.alloc());
    fs::write(&rt, "emptied.txt", "old")?;
    shelf.begin("emptied.txt")?;
    assert!(rt; shelf.load(rt.alloc(), "emptied.txt", 0)?.is_empty());
    fs::remove_file(&rt, "emptied.txt")?;
    Ok(())
}

#[test]
fn a_file_over_the_limit_is_too_big_and_no_fault(rt: HostRuntime) -> Result<(), Fail> {
    let mut shelf = FileShelf::new(&rt, rt.alloc());
    fs::write(&rt, "big.txt", "abcd")?;
    assert!(rt; matches!(shelf.load(rt.alloc(), "big.txt", 3), Err(LoadErr::TooBig)));
    fs::remove_file(&rt, "big.txt")?;
    Ok(())
}

#[test]
fn a_file_longer_than_a_read_gives_is_whole_for_every_reader(rt: HostRuntime) -> Result<(), Fail> {
    let mut shelf = FileShelf::new(&rt, rt.alloc());
    let mut long = vec![in rt.alloc(); b'x'; 600_000]?;
    shelf.begin("long.txt")?;
    shelf.put("long.txt", long.as_slice())?;
    shelf.put("long.txt", b"end")?;
    long.extend_from_slice(b"end")?;
    let text = shelf.load(rt.alloc(), "long.txt", 600_003)?;
    assert!(rt; text.as_slice() == long.as_slice());
    assert!(rt; fs::read(&rt, "long.txt")?.as_slice() == long.as_slice());
    assert!(rt;
        matches!(
            shelf.load(rt.alloc(), "long.txt", 300_000),
            Err(LoadErr::TooBig)
        )
    );
    assert!(rt;
        matches!(
            shelf.load(rt.alloc(), "long.txt", 600_002),
            Err(LoadErr::TooBig)
        )
    );
    fs::remove_file(&rt, "long.txt")?;
    Ok(())
}

/// Other names of the file `used.txt`.
const OTHER_NAMES: [&str; 3] = ["used.link", "used.hard", "./used.txt"];

/// The file `used.txt` with a text, a link to it, and a second name.
fn make_used(rt: &HostRuntime) -> Result<(), Fail> {
    fs::write(rt, "used.txt", "old")?;
    symlink(rt, "used.txt", "used.link")?;
    fs::hard_link(rt, "used.txt", "used.hard")?;
    Ok(())
}

fn remove_used(rt: &HostRuntime) -> Result<(), Fail> {
    fs::remove_file(rt, "used.txt")?;
    fs::remove_file(rt, "used.link")?;
    fs::remove_file(rt, "used.hard")?;
    Ok(())
}

/// The fault of a name whose file is in use under another one.
const IN_USE: Result<(), PutErr> = Err(PutErr::Failed(FaultKind::InUse));

#[test]
fn a_loaded_file_is_begun_under_no_name(rt: HostRuntime) -> Result<(), Fail> {
    let mut shelf = FileShelf::new(&rt, rt.alloc());
    make_used(&rt)?;
    shelf.load(rt.alloc(), "used.txt", 3)?;
    assert!(rt; shelf.begin("used.txt") == IN_USE);
    for name in &OTHER_NAMES {
        same(&rt, name, &shelf.can_begin(*name), &IN_USE);
        same(&rt, name, &shelf.begin(*name), &IN_USE);
    }
    assert!(rt; fs::read(&rt, "used.txt")?.as_slice() == b"old".as_slice());
    remove_used(&rt)
}

#[test]
fn a_begun_file_is_begun_again_under_its_own_name_alone(rt: HostRuntime) -> Result<(), Fail> {
    let mut shelf = FileShelf::new(&rt, rt.alloc());
    make_used(&rt)?;
    shelf.begin("used.txt")?;
    shelf.put("used.txt", b"new")?;
    for name in &OTHER_NAMES {
        same(&rt, name, &shelf.can_begin(*name), &IN_USE);
        same(&rt, name, &shelf.begin(*name), &IN_USE);
    }
    assert!(rt; fs::read(&rt, "used.txt")?.as_slice() == b"new".as_slice());
    shelf.begin("used.txt")?;
    assert!(rt; fs::read(&rt, "used.txt")?.is_empty());
    remove_used(&rt)
}

#[test]
fn names_that_are_asked_for_have_files_of_their_own(rt: HostRuntime) -> Result<(), Fail> {
    let mut shelf = FileShelf::new(&rt, rt.alloc());
    shelf.can_begin("first.txt")?;
    assert!(rt; shelf.can_begin("./first.txt") == IN_USE);
    shelf.can_begin("first.txt")?;
    shelf.can_begin("second.txt")?;
    assert!(rt; !fs::exists(&rt, "first.txt")?);
    Ok(())
}

#[test]
fn a_file_that_is_gone_is_in_use_no_more(rt: HostRuntime) -> Result<(), Fail> {
    let mut shelf = FileShelf::new(&rt, rt.alloc());
    fs::write(&rt, "gone.txt", "old")?;
    shelf.load(rt.alloc(), "gone.txt", 3)?;
    fs::rename(&rt, "gone.txt", "kept.txt")?;
    shelf.begin("kept.txt")?;
    fs::remove_file(&rt, "kept.txt")?;
    Ok(())
}

/// Whether a load of a name fails, with this kind of fault.
fn fails_to_load<S: Shelf>(shelf: &mut S, alloc: Global, name: &str, kind: FaultKind) -> bool {
    match shelf.load(alloc, name, 9) {
        Err(LoadErr::Failed(found)) => found == kind,
        _ => false,
    }
}

#[test]
fn what_the_system_refuses_is_a_fault_with_its_kind(rt: HostRuntime) {
    let mut shelf = FileShelf::new(&rt, rt.alloc());
    assert!(rt; fails_to_load(&mut shelf, rt.alloc(), "absent.txt", FaultKind::NotFound));
    assert!(rt; fails_to_load(&mut shelf, rt.alloc(), ".", FaultKind::IsFolder));
    assert!(rt; shelf.begin("absent/log.txt") == Err(PutErr::Failed(FaultKind::NotFound)));
    assert!(rt; shelf.put("absent/log.txt", b"x") == Err(PutErr::Failed(FaultKind::NotFound)));
    assert!(rt; shelf.begin(".") == Err(PutErr::Failed(FaultKind::IsFolder)));
}

#[test]
fn asking_leaves_a_file_as_it_is_and_makes_none(rt: HostRuntime) -> Result<(), Fail> {
    let mut shelf = FileShelf::new(&rt, rt.alloc());
    fs::write(&rt, "asked.txt", "old")?;
    shelf.can_begin("asked.txt")?;
    assert!(rt; shelf.load(rt.alloc(), "asked.txt", 3)?.as_slice() == b"old".as_slice());
    fs::remove_file(&rt, "asked.txt")?;
    shelf.can_begin("asked.txt")?;
    assert!(rt; !fs::exists(&rt, "asked.txt")?);
    assert!(rt; shelf.can_begin("absent/log.txt") == Err(PutErr::Failed(FaultKind::NotFound)));
    assert!(rt; shelf.can_begin(".") == Err(PutErr::Failed(FaultKind::IsFolder)));
    Ok(())
}

/// What the system says, and what a user reads.
const SAID: [(ErrorKind, &str); 8] = [
    (ErrorKind::NotFound, "there is no such file or folder"),
    (ErrorKind::NotADirectory, "there is no such file or folder"),
    (ErrorKind::PermissionDenied, "permission is denied"),
    (ErrorKind::IsADirectory, "it is a folder"),
    (ErrorKind::StorageFull, "no space is left"),
    (ErrorKind::QuotaExceeded, "no space is left"),
    (
        ErrorKind::BrokenPipe,
        "the reader of the output has closed it",
    ),
    (ErrorKind::TimedOut, "it failed for another reason"),
];

#[test]
fn a_fault_says_what_the_system_said(rt: HostRuntime) -> Result<(), Fail> {
    for row in &SAID {
        let (kind, want) = *row;
        let fault = LoadErr::Failed(FaultKind::from(kind));
        let said = format!(in rt.alloc(); "{fault}")?;
        same(&rt, row, &said.as_str(), &want);
    }
    Ok(())
}
