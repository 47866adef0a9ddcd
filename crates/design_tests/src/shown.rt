//! Suspects as texts.

use design_core::Place;
use loc_base::{Bytes, NoMemory};
use std::alloc::Global;
use suspect_map::{Granularity, Group, Groups};

/// Appends a suspect's kind and label, and the numbers of its places, which are digits here.
fn show(text: &mut Bytes, group: &Group) -> Result<(), NoMemory> {
    text.append(group.kind.as_bytes())?;
    text.append(b" ")?;
    text.append(group.label.as_bytes())?;
    for place in group.places.as_slice() {
        text.append(b" ")?;
        text.push(b'0' + (*place % 10) as u8)?;
    }
    text.append(b"; ")?;
    Ok(())
}

fn shown(alloc: Global, groups: &Groups) -> Result<Bytes, NoMemory> {
    let mut text = Bytes::new(alloc);
    for group in groups.as_slice() {
        show(&mut text, group)?;
    }
    Ok(text)
}

/// Whether suspects read so.
pub fn reads(alloc: Global, groups: &Groups, wanted: &str) -> bool {
    match shown(alloc, groups) {
        Ok(text) => text.as_slice() == wanted.as_bytes(),
        Err(_) => false,
    }
}

/// Whether these are the suspects that a granularity makes of places.
pub fn makes<G: Granularity>(alloc: Global, kind: &G, places: &[Place], wanted: &str) -> bool {
    if places.len() >= 1000 {
        return false;
    }
    match kind.groups(alloc, places) {
        Ok(groups) => reads(alloc, &groups, wanted),
        Err(_) => false,
    }
}
