ghost use Rattle.std.specs.Prelude.{◌≡◌, ◌<◌, ◌^◌, ℕ, List, length, map, nat_eq, option_copied, IfOk, OnOk, codes};
ghost use Rattle.std.specs.Cmp.Lexicographic.{pointwise};
ghost use Rattle.loc_base.specs.NameTable.{number_of};
ghost use Rattle.suspect_map.specs.Groups.{groups_of};
ghost use Rattle.suspect_map.specs.Grouping.{after, firsts_by, met, PointsWithin};
ghost use Rattle.suspect_map.specs.Modules.{module_key, modules};

use crate::granularity::Granularity;
use crate::group::Groups;
use crate::grouping::Grain;
use crate::label::Label;
use design_core::{Place, PlaceKind};
use loc_base::{NameTable, NoMemory};
use std::alloc::Global;

/// A suspect for each module of the text that has a place, with all places whose text stands in it, but for conditions and
/// input connections. It is called `module`, and its label is the module's name.
#[derive(Clone, Copy, Drop)]
pub struct Modules;

/// The name of the module that a place counts to.
fn module_of(place: &Place) -> Option<&[u8]>
    ensures { option_copied result ≡ module_key place.now place.now.kind }
{
    match place.kind {
        PlaceKind::Cond | PlaceKind::PortIn => None,
        PlaceKind::Assign
        | PlaceKind::Step
        | PlaceKind::Gate
        | PlaceKind::PortOut
        | PlaceKind::And => Some(place.module.as_bytes()),
    }
}

/// The number of a name: the one that it has, which is the given one from now on where it had none.
fn meet<'a>(
    table: &mut NameTable<'a>,
    name: Option<&'a [u8]>,
    new: u32,
) -> Result<Option<u32>, NoMemory>
    ensures number { IfOk result (λ number. number ≡ met (number_of table.old) new (option_copied name.entry)) }
    ensures table { OnOk result ((q : List ℕ) → number_of table.new q ≡ after (pointwise nat_eq) (number_of table.old) new (option_copied name.entry) q) }
{
    let Some(name) = name else {
        return Ok(None);
    };
    if let Some(number) = table.find(name) {
        return Ok(Some(number));
    }
    table.add(name, new)?;
    Ok(Some(new))
}

/// For each place, the first place of its module.
fn firsts_by_module(alloc: Global, places: &[Place]) -> Result<Vec<Option<u32>>, NoMemory>
    requires few { length places.now < 2 ^ 32 }
    ensures firsts { IfOk result (λ firsts. firsts.items ≡ firsts_by (pointwise nat_eq) (map modules.key places.now)) }
    ensures within { IfOk result (λ firsts. PointsWithin (length firsts.items) firsts.items) }
{
    let mut firsts = Vec::new(alloc);
    let mut table = NameTable::new(alloc);
    for at in 0..places.len() {
        let first = meet(&mut table, module_of(&places[at]), at as u32)?;
        firsts.push(first)?;
    }
    Ok(firsts)
}

impl Granularity for Modules {
    ghost called = { λ _. codes "module" };

    ghost lists = { λ _ places. groups_of modules (codes "module") places };

    fn name(&self) -> &str {
        "module"
    }

    fn groups(&self, alloc: Global, places: &[Place]) -> Result<Groups, NoMemory> {
        let firsts = firsts_by_module(alloc, places)?;
        let grain = Grain {
            kind: "module",
            label: Label::Module,
            places,
        };
        grain.groups(alloc, &firsts)
    }
}
