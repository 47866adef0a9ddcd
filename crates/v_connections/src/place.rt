//! Where the items of a scope stand.
ghost use Rattle.std.specs.Prelude.{◌≡◌, map, IfOk};
ghost use Rattle.v_syntax.specs.ModuleTree.{ports_of};
ghost use Rattle.v_hierarchy.specs.Headers.{port_names};
ghost use Rattle.v_hierarchy.specs.Views.{given_of};
ghost use Rattle.v_scopes.specs.Listed.{listed};
ghost use Rattle.v_scopes.specs.Valued.{values_of};

use loc_base::{Name, NoMemory};
use std::alloc::Global;
use v_hierarchy::Given;
use v_scopes::{NameList, Units, Values, port_names};
use v_syntax::Ports;

/// The header of a module: its ports, and the values that an instance gives to its parameters.
pub struct Header<'t> {
    ports: &'t Ports,
    names: NameList<'t>,
    values: Values<'t>,
    pub ghost tells: { listed names ≡ port_names (ports_of ports.now) },
}

// A `drop` is written out, so that it is proved once, here.
impl<'t> Drop for Header<'t> {
    fn drop(self) {
        let Header {
            ports: _,
            names: _,
            values: _,
        } = self;
    }
}

impl<'t> Header<'t> {
    ghost use Rattle.std.specs.Prelude.{Option};
    ghost use Rattle.v_sizes.specs.declared.meaning.Const.{Const as PlainConst};
    ghost use Rattle.v_hierarchy.specs.Parameters.{given, is_among};
    ghost use Rattle.v_connections.specs.Headed.{header_of};

    /// The header of a module with these ports and these values of its parameters.
    pub fn new(
        alloc: Global,
        ports: &'t Ports,
        values: &[Given<'t>],
    ) -> Result<Header<'t>, NoMemory>
        ensures { IfOk result (λ header. header_of header ≡ (ports_of ports.now, map given_of values.now)) }
    {
        let names = port_names(alloc, ports)?;
        let values = Values::new(alloc, values)?;
        Ok(Header {
            ports,
            names,
            values,
        })
    }

    /// Whether it has a port of this name.
    pub(crate) fn has_port(&self, name: &Name) -> bool
        ensures { result ≡ is_among name.now (port_names (header_of self.now).0) }
    {
        self.names.contains(name)
    }

    /// The values that are given to its parameters.
    pub fn values(&self) -> &Values<'t>
        ensures { values_of result.now ≡ (header_of self.now).1 }
    {
        &self.values
    }
}

/// Where items stand: in a module, with its header, or in a generate block.
#[derive(Clone, Copy)]
pub struct Place<'u, 'n, 'h, 't> {
    pub units: &'u Units<'t>,
    /// How many levels of instances may stand below.
    pub levels: u32,
    pub path: &'n Name,
    /// Nothing in a generate block.
    pub header: Option<&'h Header<'t>>,
}
