//! The nodes of a module's header, once what stands in it is read.
ghost use Rattle.std.specs.Prelude.{◌≡◌, map, option_map};
ghost use Rattle.v_syntax.specs.Tree.{tree_of};
ghost use Rattle.v_syntax.specs.PartTree.{range_of};
ghost use Rattle.v_declarations.specs.Headers.{is_reg};
ghost use Rattle.v_syntax.specs.ModuleTree as tree;
ghost use Rattle.v_syntax.specs.ModuleTree.{port_of, ports_of};

use crate::types::is_output_reg;
use v_syntax::{Direction, Expr, Identifier, NetKind, Port, Ports, Range, Site};

pub fn declared_port(
    site: Site,
    direction: Direction,
    net: Option<NetKind>,
    signed: bool,
    range: Option<Range>,
    name: Identifier,
    value: Option<Expr>,
) -> Port
    ensures { port_of result ≡ tree.declared_port site direction net signed (option_map range_of range) name (option_map tree_of value) }
{
    Port::Declared {
        site,
        direction,
        net,
        signed,
        range,
        name,
        value,
    }
}

pub fn same_port(site: Site, name: Identifier, value: Option<Expr>) -> Port
    ensures { port_of result ≡ tree.same_port site name (option_map tree_of value) }
{
    Port::Same { site, name, value }
}

/// Whether a port is an `output reg`, by its own words or those of the port before.
pub fn is_reg(before: bool, port: &Port) -> bool
    ensures { result ≡ is_reg before (port_of port.now) }
{
    match port {
        Port::Declared { direction, net, .. } => is_output_reg(*direction, *net),
        Port::Same { .. } => before,
    }
}

pub fn name_ports(names: Vec<Identifier>) -> Ports
    ensures { ports_of result ≡ tree.name_ports names.items }
{
    Ports::Names { names }
}

pub fn declared_ports(ports: Vec<Port>) -> Ports
    ensures { ports_of result ≡ tree.declared_ports (map port_of ports.items) }
{
    Ports::Declared { ports }
}
