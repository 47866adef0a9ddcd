//! The suspects of the granularities that are asked for.
ghost use Rattle.std.specs.Prelude.{◌≡◌, ◌<◌, ◌≤◌, ◌^◌, None, length, option_map, nat_eq, IfOk, IfErr, IfSome, IsAscii};
ghost use Rattle.std.specs.Cmp.Lexicographic.{pointwise};
ghost use Rattle.suspect_map.specs.Groups.{AreAscending, AreWithin};
ghost use Rattle.suspect_map.specs.Choose.{ChooseCause, joined, named, unknown};
ghost use Rattle.suspect_map.specs.declared.choose.ChooseErr.TheVariants as error;

use crate::granularity::Granularity;
use crate::group::Groups;
use design_core::Place;
use loc_base::{Items, Name, NoMemory};
use std::alloc::{AllocError, AllocFailed, Global};
use thiserror::Error;

/// The most suspects that are looked at together.
const MOST_SUSPECTS: usize = 4096;

/// Why no suspects are given.
#[derive(Debug, Drop, Error)]
pub enum ChooseErr {
    #[error("out of memory")]
    NoMemory,
    /// No granularity has the name.
    #[error("no kind of suspects is called {kind}", kind = text_of(.name))]
    UnknownKind { name: Name },
    /// There are more than 4,096 suspects.
    #[error("more than 4,096 suspects")]
    Suspects,
}

/// The text of bytes that are ASCII.
#[tactic(auto, using(crate::proofs::NameText::name_text))]
fn text_of_bytes(bytes: &[u8]) -> &str
    requires { IsAscii bytes.now }
    ensures { result.now ≡ bytes.now }
{
    match std::str::from_utf8(bytes) {
        Ok(text) => text,
        Err(_) => unreachable!(),
    }
}

/// The text of a name.
#[tactic(auto, using(crate::proofs::NameText::name_text))]
fn text_of(name: &Name) -> &str
    ensures { result.now ≡ name.now }
{
    text_of_bytes(name.as_bytes())
}

impl From<NoMemory> for ChooseErr {
    ghost from_gives = { λ _ e. e ≡ error.NoMemory };

    fn from(_error: NoMemory) -> ChooseErr {
        ChooseErr::NoMemory
    }
}

impl<T: Drop> From<AllocFailed<T>> for ChooseErr {
    ghost from_gives = { λ _ e. e ≡ error.NoMemory };

    fn from(_failed: AllocFailed<T>) -> ChooseErr {
        ChooseErr::NoMemory
    }
}

impl From<AllocError> for ChooseErr {
    ghost from_gives = { λ _ e. e ≡ error.NoMemory };

    fn from(_error: AllocError) -> ChooseErr {
        ChooseErr::NoMemory
    }
}

fn is_called(kind: &Box<dyn Granularity>, name: &Name) -> bool
    ensures { result ≡ pointwise nat_eq (called kind.now) name.now }
{
    kind.name().as_bytes() == name.as_bytes()
}

fn groups_by(
    alloc: Global,
    kind: &Box<dyn Granularity>,
    places: &[Place],
) -> Result<Groups, NoMemory>
    requires few { length places.now < 2 ^ 32 }
    ensures lists { IfOk result (λ groups. groups ≡ lists kind.now places.now) }
    ensures within { IfOk result (AreWithin (length places.now)) }
    ensures ascending { IfOk result AreAscending }
{
    kind.groups(alloc, places)
}

/// The suspects of the first granularity of a name, where one has it.
fn groups_named(
    alloc: Global,
    kinds: &[Box<dyn Granularity>],
    name: &Name,
    places: &[Place],
) -> Result<Option<Groups>, NoMemory>
    requires few { length places.now < 2 ^ 32 }
    ensures lists { IfOk result (λ found. found ≡ option_map (λ kind. lists kind places.now) (named (λ kind. called kind) kinds.now name.now)) }
    ensures within { IfOk result (λ found. IfSome found (AreWithin (length places.now))) }
    ensures ascending { IfOk result (λ found. IfSome found AreAscending) }
{
    for kind in kinds {
        if is_called(kind, name) {
            return Ok(Some(groups_by(alloc, kind, places)?));
        }
    }
    Ok(None)
}

/// The suspects of the first granularity of each name, one behind the other.
///
/// `UnknownKind` comes exactly where some name is that of none of them, with the first such name; `Suspects` where all
/// names are known and there are more than 4,096 suspects.
pub fn chosen(
    alloc: Global,
    kinds: &[Box<dyn Granularity>],
    names: &[Name],
    places: &[Place],
) -> Result<Groups, ChooseErr>
    requires few { length places.now < 2 ^ 32 }
    ensures known { IfOk result (λ _. unknown (λ kind. called kind) kinds.now names.now ≡ None) }
    ensures groups { IfOk result (λ groups. groups ≡ joined (λ kind. called kind) (λ kind. lists kind) kinds.now names.now places.now) }
    ensures count { IfOk result (λ groups. length groups ≤ 4096) }
    ensures within { IfOk result (AreWithin (length places.now)) }
    ensures ascending { IfOk result AreAscending }
    ensures refused { IfErr result (ChooseCause (unknown (λ kind. called kind) kinds.now names.now) (length (joined (λ kind. called kind) (λ kind. lists kind) kinds.now names.now places.now))) }
{
    let mut groups = Vec::new(alloc);
    for name in names {
        match groups_named(alloc, kinds, name, places)? {
            Some(more) => groups.append(&mut more.into_vec())?,
            None => {
                return Err(ChooseErr::UnknownKind {
                    name: name.copied(alloc)?,
                });
            }
        }
    }
    if groups.len() > MOST_SUSPECTS {
        return Err(ChooseErr::Suspects);
    }
    Ok(Items::from_vec(groups))
}
