//! The suspects of the granularities that are asked for.

use crate::own::{Crowd, Everything};
use crate::places::shared_inverter;
use crate::shown::reads;
use design_core::Place;
use loc_base::{Name, NoMemory};
use std::alloc::Global;
use std::test::Fail;
use suspect_map::{ChooseErr, Granularity, Groups, Modules, Statements, chosen};

/// The names of these texts. One that is no name is answered as want of memory, so that no test passes by it.
fn names(alloc: Global, texts: &[&str]) -> Result<Vec<Name>, NoMemory> {
    let mut names = Vec::new(alloc);
    for text in texts {
        match Name::new(alloc, text.as_bytes())? {
            Some(name) => names.push(name)?,
            None => return Err(NoMemory),
        }
    }
    Ok(names)
}

/// What is chosen by these names.
fn asked(
    alloc: Global,
    kinds: &[Box<dyn Granularity>],
    texts: &[&str],
    places: &[Place],
) -> Result<Groups, ChooseErr> {
    let names = names(alloc, texts)?;
    if places.len() < 1000 {
        chosen(alloc, kinds, &names, places)
    } else {
        Err(ChooseErr::NoMemory)
    }
}

/// Whether these are the suspects that are chosen.
fn gives(alloc: Global, chosen: Result<Groups, ChooseErr>, wanted: &str) -> bool {
    match chosen {
        Ok(groups) => reads(alloc, &groups, wanted),
        Err(_) => false,
    }
}

/// Whether this is the name that is refused.
fn refuses(chosen: Result<Groups, ChooseErr>, wanted: &str) -> bool {
    match chosen {
        Err(ChooseErr::UnknownKind { name }) => name.as_bytes() == wanted.as_bytes(),
        _ => false,
    }
}

/// Whether there are too many suspects.
fn has_too_many(chosen: Result<Groups, ChooseErr>) -> bool {
    match chosen {
        Err(ChooseErr::Suspects) => true,
        _ => false,
    }
}

#[test]
fn suspects_come_in_the_order_of_the_names(rt: HostRuntime) -> Result<(), Fail> {
    let alloc = rt.alloc();
    let mut kinds: Vec<Box<dyn Granularity>> = Vec::new(alloc);
    kinds.push(Box::new(alloc, Statements)?)?;
    kinds.push(Box::new(alloc, Modules)?)?;
    kinds.push(Box::new(alloc, Everything)?)?;
    let places = shared_inverter(alloc)?;
    for (texts, wanted) in [
        (
            ["stmt", "module"],
            "stmt inv 2 3; module m 0 1; module inv 2 3; ",
        ),
        (
            ["module", "stmt"],
            "module m 0 1; module inv 2 3; stmt inv 2 3; ",
        ),
        (
            ["all", "module"],
            "all all 0 1 2 3; module m 0 1; module inv 2 3; ",
        ),
        (["stmt", "stmt"], "stmt inv 2 3; stmt inv 2 3; "),
    ] {
        assert!(rt; gives(alloc, asked(alloc, &kinds, &texts, &places), wanted));
    }
    assert!(rt; gives(alloc, asked(alloc, &kinds, &[], &places), ""));
    Ok(())
}

#[test]
fn the_first_granularity_of_a_name_counts(rt: HostRuntime) -> Result<(), Fail> {
    let alloc = rt.alloc();
    let mut kinds: Vec<Box<dyn Granularity>> = Vec::new(alloc);
    kinds.push(Box::new(alloc, Crowd { count: 2 })?)?;
    kinds.push(Box::new(alloc, Statements)?)?;
    let places = shared_inverter(alloc)?;
    let chosen = asked(alloc, &kinds, &["stmt"], &places);
    assert!(rt; gives(alloc, chosen, "stmt stmt; stmt stmt; "));
    Ok(())
}

#[test]
fn a_later_granularity_of_a_name_does_not(rt: HostRuntime) -> Result<(), Fail> {
    let alloc = rt.alloc();
    let mut kinds: Vec<Box<dyn Granularity>> = Vec::new(alloc);
    kinds.push(Box::new(alloc, Statements)?)?;
    kinds.push(Box::new(alloc, Crowd { count: 2 })?)?;
    let places = shared_inverter(alloc)?;
    let chosen = asked(alloc, &kinds, &["stmt"], &places);
    assert!(rt; gives(alloc, chosen, "stmt inv 2 3; "));
    Ok(())
}

#[test]
fn the_first_unknown_name_is_refused(rt: HostRuntime) -> Result<(), Fail> {
    let alloc = rt.alloc();
    let mut kinds: Vec<Box<dyn Granularity>> = Vec::new(alloc);
    kinds.push(Box::new(alloc, Crowd { count: 4097 })?)?;
    let places = shared_inverter(alloc)?;
    for (texts, wanted) in [
        (["gates", "modules", "stmt"], "gates"),
        (["stmt", "gate", "modules"], "gate"),
        (["stmt", "stmt", "stm"], "stm"),
    ] {
        assert!(rt; refuses(asked(alloc, &kinds, &texts, &places), wanted));
    }
    assert!(rt; has_too_many(asked(alloc, &kinds, &["stmt"], &places)));
    Ok(())
}

#[test]
fn more_than_4096_suspects_are_refused(rt: HostRuntime) -> Result<(), Fail> {
    let alloc = rt.alloc();
    let mut kinds: Vec<Box<dyn Granularity>> = Vec::new(alloc);
    kinds.push(Box::new(alloc, Crowd { count: 4096 })?)?;
    kinds.push(Box::new(alloc, Everything)?)?;
    let places = shared_inverter(alloc)?;
    match asked(alloc, &kinds, &["stmt"], &places) {
        Ok(groups) => assert_eq!(rt; groups.len(), 4096),
        Err(_) => return Err(Fail::new("4,096 suspects are refused")),
    }
    assert!(rt; has_too_many(asked(alloc, &kinds, &["all", "stmt"], &places)));
    Ok(())
}
