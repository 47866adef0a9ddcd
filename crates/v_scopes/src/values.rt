//! The values that an instance gives to parameters, found by name (IEEE 1364-2005, 12.2.2).
ghost use Rattle.std.specs.Prelude.{◌≡◌, map, IfOk};
ghost use Rattle.v_scopes.specs.Listed.{listed};

use crate::name_list::NameList;
use loc_base::{Items, Name, NoMemory};
use std::alloc::Global;
use v_hierarchy::Given;
use v_sizes::Const;

/// The values that an instance gives, of which the first of a name counts. To find one takes one look into a table.
pub struct Values<'t> {
    list: Items<Given<'t>>,
    names: NameList<'t>,
    pub ghost same: { listed names ≡ map (λ g. g.name.now) list },
}

// A `drop` is written out, so that it is proved once, here.
impl<'t> Drop for Values<'t> {
    fn drop(self) {
        let Values { list: _, names: _ } = self;
    }
}

/// The names of values, in their order.
fn names_of<'t>(alloc: Global, list: &[Given<'t>]) -> Result<NameList<'t>, NoMemory>
    ensures { IfOk result (λ names. listed names ≡ map (λ g. g.name.now) list.now) }
{
    let mut names = NameList::new(alloc);
    for given in list {
        names.push(given.name)?;
    }
    Ok(names)
}

impl<'t> Values<'t> {
    ghost use Rattle.v_hierarchy.specs.Parameters.{given};
    ghost use Rattle.v_hierarchy.specs.Views.{given_of};
    ghost use Rattle.v_scopes.specs.Valued.{values_of};

    /// The values of a list.
    pub fn new(alloc: Global, list: &[Given<'t>]) -> Result<Values<'t>, NoMemory>
        ensures { IfOk result (λ values. values_of values ≡ map given_of list.now) }
    {
        let names = names_of(alloc, list)?;
        let list = Items::copy_of(alloc, list)?;
        Ok(Values { list, names })
    }

    /// The value that is given to a parameter, if one is.
    pub fn given(&self, name: &Name) -> Option<Const>
        ensures { result ≡ given (values_of self.now) name.now }
    {
        let Some(place) = self.names.place(name) else {
            return None;
        };
        Some(self.list.as_slice()[place].value)
    }
}
