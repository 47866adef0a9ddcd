//! The names of the ports of an instance, found by one look into a table.
ghost use Rattle.std.specs.Prelude.{◌≡◌, ℕ, List, IfOk};
ghost use Rattle.v_hierarchy.specs.Parameters.{is_among};
ghost use Rattle.bind_signals.specs.Tables.{is_in};
ghost use Rattle.bind_signals.specs.Ported.{port_names};
ghost use Rattle.bind_signals.specs.LoopNames.{named};

use crate::names::table_of;
use loc_base::{Items, Name, NoMemory};
use std::alloc::Global;
use v_hierarchy::{Places, Port};

/// The names of these ports.
fn names_of<'t>(alloc: Global, ports: &[Port<'t>]) -> Result<Items<&'t Name>, NoMemory>
    ensures { IfOk result (λ names. named names ≡ port_names ports.now) }
{
    let mut names = Items::new(alloc);
    for port in ports {
        names.push(&port.name.name)?;
    }
    Ok(names)
}

/// The ports of an instance.
pub(crate) struct Ported<'a, 't> {
    pub(crate) ports: &'a [Port<'t>],
    table: Places<'t>,
    pub ghost tells: { (q : List ℕ) → is_in table q ≡ is_among q (port_names ports.now) },
}

// A `drop` is written out, so that it is proved once, here.
impl<'a, 't> Drop for Ported<'a, 't> {
    fn drop(self) {
        let Ported { ports: _, table: _ } = self;
    }
}

impl<'a, 't> Ported<'a, 't> {
    pub(crate) fn new(alloc: Global, ports: &'a [Port<'t>]) -> Result<Ported<'a, 't>, NoMemory>
        ensures { IfOk result (λ ported. ported.ports.now ≡ ports.now) }
    {
        let names = names_of(alloc, ports)?;
        let table = table_of(alloc, names.as_slice())?;
        Ok(Ported { ports, table })
    }

    /// Whether one of them has a name.
    pub(crate) fn contains(&self, name: &Name) -> bool
        ensures { result ≡ is_among name.now (port_names self.now.ports.now) }
    {
        self.table.find(name.as_bytes()).is_some()
    }
}
