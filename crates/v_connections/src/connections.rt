//! What the ports of an instance are connected to (IEEE 1364-2005, 12.3.5 and 12.3.6).
ghost use Rattle.std.specs.Prelude.{◌≡◌, length, map, option_map, slice_get, Ok, IfErr, OnOk};
ghost use Rattle.std.specs.Option.{option_copied};
ghost use Rattle.v_syntax.specs.Tree.{tree_of};
ghost use Rattle.v_syntax.specs.ItemTree.{connection_of, connections_of};
ghost use Rattle.v_syntax.specs.ModuleTree.{module_of, ports_of};
ghost use Rattle.v_hierarchy.specs.Frames.{Refuses};
ghost use Rattle.v_hierarchy.specs.Headers.{port_names};
ghost use Rattle.v_hierarchy.specs.Items.{few, connected, connections_fit};
ghost use Rattle.v_scopes.specs.Listed.{listed};
ghost use Rattle.v_connections.specs.Connected.{past_ports, all_connected};

use loc_base::Span;
use std::alloc::Global;
use v_hierarchy::{ElabErr, site_of};
use v_scopes::{NameList, port_names};
use v_syntax::{Connections, Expr, Module, NamedConnection, Ports};

/// How many ports a header has.
fn port_count(ports: &Ports) -> usize
    ensures { result ≡ length (port_names (ports_of ports.now)) }
{
    match ports {
        Ports::None => 0,
        Ports::Names { names } => names.len(),
        Ports::Declared { ports } => ports.len(),
    }
}

/// Refuses the connection behind the last port, where there is one.
fn past_ports(span: Span, value: Option<&Option<Expr>>) -> Result<(), ElabErr>
    ensures { result ≡ past_ports span (option_map (option_map tree_of) (option_copied value.entry)) }
{
    match value {
        None => Ok(()),
        Some(Some(e)) => Err(ElabErr::PortName(site_of(e).span)),
        Some(None) => Err(ElabErr::PortName(span)),
    }
}

/// The connection at a place, counted from 0, where there is one.
fn connection_at(values: &[Option<Expr>], place: usize) -> Option<&Option<Expr>>
    ensures { option_copied result ≡ slice_get values.now place }
{
    values.get(place)
}

/// Refuses more connections than ports.
fn few(span: Span, ports: &Ports, values: &[Option<Expr>]) -> Result<(), ElabErr>
    ensures { result ≡ few span (port_names (ports_of ports.now)) (map (option_map tree_of) values.now) }
{
    past_ports(span, connection_at(values, port_count(ports)))
}

/// Refuses a connection to no port, or to one that is among those connected.
fn connected<'t>(
    ports: &NameList<'_>,
    connection: &'t NamedConnection,
    seen: &mut NameList<'t>,
) -> Result<(), ElabErr>
    ensures ok { OnOk result (connected (listed ports.now) (connection_of connection.now) (listed seen.old) ≡ Ok (listed seen.new)) }
    ensures err { IfErr result (λ fault. Refuses (connected (listed ports.now) (connection_of connection.now) (listed seen.old)) fault) }
{
    let name = &connection.name.name;
    if !ports.contains(name) || seen.contains(name) {
        return Err(ElabErr::PortName(connection.name.site.span));
    }
    seen.push(name)?;
    Ok(())
}

/// Each to a port, once.
fn all_connected<'t>(
    alloc: Global,
    ports: &NameList<'_>,
    connections: &'t [NamedConnection],
) -> Result<(), ElabErr>
    ensures ok { OnOk result (all_connected (listed ports.now) (map connection_of connections.now) ≡ Ok tt) }
    ensures err { IfErr result (λ fault. Refuses (all_connected (listed ports.now) (map connection_of connections.now)) fault) }
{
    let mut seen = NameList::new(alloc);
    for connection in connections {
        connected(ports, connection, &mut seen)?;
    }
    Ok(())
}

/// Refuses connections that don't fit the ports of a module.
pub fn connections_fit<'t>(
    alloc: Global,
    span: Span,
    unit: &'t Module,
    connections: &'t Connections,
) -> Result<(), ElabErr>
    ensures ok { OnOk result (connections_fit span (module_of unit.now) (connections_of connections.now) ≡ Ok tt) }
    ensures err { IfErr result (λ fault. Refuses (connections_fit span (module_of unit.now) (connections_of connections.now)) fault) }
{
    match connections {
        Connections::Ordered { values } => few(span, &unit.ports, values.as_slice()),
        Connections::Named { values } => {
            let ports = port_names(alloc, &unit.ports)?;
            all_connected(alloc, &ports, values.as_slice())
        }
    }
}
