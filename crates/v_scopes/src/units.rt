//! The modules of a text, found by name (IEEE 1364-2005, 12.1).
ghost use Rattle.std.specs.Prelude.{◌≡◌, map, option_map, IfOk};
ghost use Rattle.v_scopes.specs.Listed.{listed};

use crate::name_list::NameList;
use loc_base::{Name, NoMemory};
use std::alloc::Global;
use v_syntax::Module;

/// The modules of a text. To find one takes one look into a table.
pub struct Units<'t> {
    list: &'t [Module],
    names: NameList<'t>,
    pub ghost same: { listed names ≡ map (λ m. m.name.name) list.now },
}

// A `drop` is written out, so that it is proved once, here.
impl<'t> Drop for Units<'t> {
    fn drop(self) {
        let Units { list: _, names: _ } = self;
    }
}

impl<'t> Units<'t> {
    ghost use Rattle.v_syntax.specs.ModuleTree.{module_of};
    ghost use Rattle.v_hierarchy.specs.Items.{module_named};
    ghost use Rattle.v_scopes.specs.Units.{units_of};

    /// The modules of a list.
    pub fn new(alloc: Global, list: &'t [Module]) -> Result<Units<'t>, NoMemory>
        ensures { IfOk result (λ units. units_of units ≡ map module_of list.now) }
    {
        let mut names = NameList::new(alloc);
        for unit in list {
            names.push(&unit.name.name)?;
        }
        Ok(Units { list, names })
    }

    /// The first module of a name, where one has it.
    pub fn find(&self, name: &Name) -> Option<&'t Module>
        ensures { option_map (λ m. module_of m.now) result ≡ module_named name.now (units_of self.now) }
    {
        let Some(place) = self.names.place(name) else {
            return None;
        };
        Some(&self.list[place])
    }
}
