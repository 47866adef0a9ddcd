ghost use Rattle.std.specs.Prelude.{◌≡◌, ◌++◌, ◌-◌, ◌<◌, All, IfOk, OnOk, Some, decimal, codes, length, slice_get};
ghost use Rattle.std.specs.List.{flat_map};
ghost use Rattle.report_doc.specs.Lines.{AreWithin, IsMemberOf, group_line, line_of, member_line, set_line, set_lines};

use design_core::{Place, SetWithValues};
use loc_base::{Bytes, Items, NoMemory};
use printed_text::{push_bytes, push_number};
use std::alloc::Global;
use suspect_map::{Group, Groups};

/// Appends `,` and a number for each of some.
fn push_others(text: &mut Vec<u8>, numbers: &[u32]) -> Result<(), NoMemory>
    ensures { OnOk result (text.new.items ≡ text.old.items ++ flat_map (λ n. codes "," ++ decimal n) numbers.now) }
{
    for number in numbers {
        push_bytes(text, b",")?;
        push_number(text, u64::from(*number))?;
    }
    Ok(())
}

/// Appends `set {1,2}`.
fn push_set(text: &mut Vec<u8>, members: &[u32]) -> Result<(), NoMemory>
    ensures { OnOk result (text.new.items ≡ text.old.items ++ set_line members.now) }
{
    push_bytes(text, b"set {")?;
    if let Some((first, others)) = members.split_first() {
        push_number(text, u64::from(*first))?;
        push_others(text, others)?;
    }
    push_bytes(text, b"}\n")
}

/// The line of the first of some places, and 0 where there are none.
pub fn line_of(places: &[Place], numbers: &[u32]) -> u32
    requires { All (λ place. place < length places.now) numbers.now }
    ensures { result ≡ line_of places.now numbers.now }
{
    match numbers.first() {
        Some(first) => places[*first as usize].line,
        None => 0,
    }
}

/// Appends the line of a suspect.
fn push_group(
    text: &mut Vec<u8>,
    places: &[Place],
    number: u32,
    group: &Group,
) -> Result<(), NoMemory>
    requires { All (λ place. place < length places.now) group.now.places }
    ensures { OnOk result (text.new.items ≡ text.old.items ++ group_line places.now number group.now) }
{
    push_bytes(text, b"  ")?;
    push_number(text, u64::from(number))?;
    push_bytes(text, b" ")?;
    push_bytes(text, group.kind.as_bytes())?;
    push_bytes(text, b" ")?;
    push_number(text, u64::from(line_of(places, group.places.as_slice())))?;
    push_bytes(text, b" ")?;
    push_bytes(text, group.label.as_bytes())?;
    push_bytes(text, b"\n")
}

/// The suspect of that number.
fn group_of(groups: &[Group], number: u32) -> &Group
    requires { IsMemberOf groups.now number }
    ensures { slice_get groups.now (number - 1) ≡ Some result.now }
{
    &groups[number as usize - 1]
}

/// Appends the line of the suspect of that number.
fn push_member(
    text: &mut Vec<u8>,
    groups: &[Group],
    places: &[Place],
    number: u32,
) -> Result<(), NoMemory>
    requires member { IsMemberOf groups.now number }
    requires within { AreWithin places.now groups.now }
    ensures { OnOk result (text.new.items ≡ text.old.items ++ member_line groups.now places.now number) }
{
    push_group(text, places, number, group_of(groups, number))
}

/// Appends the line of each member of a set.
fn push_members(
    text: &mut Vec<u8>,
    groups: &[Group],
    places: &[Place],
    members: &[u32],
) -> Result<(), NoMemory>
    requires members { All (IsMemberOf groups.now) members.now }
    requires within { AreWithin places.now groups.now }
    ensures { OnOk result (text.new.items ≡ text.old.items ++ flat_map (member_line groups.now places.now) members.now) }
{
    for number in members {
        push_member(text, groups, places, *number)?;
    }
    Ok(())
}

/// The lines that are printed of a set: its members, and for each its number, its kind, the line of its first place (the least,
/// since a group's places ascend) and its label.
pub fn set_lines(
    alloc: Global,
    set: &SetWithValues,
    groups: &Groups,
    places: &[Place],
) -> Result<Bytes, NoMemory>
    requires members { All (IsMemberOf groups.now) set.now.members }
    requires within { AreWithin places.now groups.now }
    ensures { IfOk result (λ text. text ≡ set_lines groups.now places.now set.now.members) }
{
    let mut text = Vec::new(alloc);
    push_set(&mut text, set.members.as_slice())?;
    push_members(&mut text, groups.as_slice(), places, set.members.as_slice())?;
    Ok(Items::from_vec(text))
}
