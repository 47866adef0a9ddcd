//! The ports of a module (IEEE 1364-2005, 12.3): those that its header declares, and those that its header names and its items
//! declare.
ghost use Rattle.std.specs.Prelude.{◌≡◌, ◌++◌, [], map, option_map, Ok, IfOk, IfErr, OnOk};
ghost use Rattle.v_syntax.specs.ModuleTree.{module_of, port_of, name_ports, declared_ports, ports_of as plain_ports};
ghost use Rattle.v_syntax.specs.Tree.{tree_of};
ghost use Rattle.v_hierarchy.specs.Names.{find};
ghost use Rattle.v_hierarchy.specs.Views.{port_of as instance_port};
ghost use Rattle.v_scopes.specs.Around.{names_in, outer_of};
ghost use Rattle.v_hierarchy.specs.Frames.{Refuses};
ghost use Rattle.v_hierarchy.specs.Headers.{named_port, nothing_before, port_name, port_names, port_names_fit, ported, port_at, declared_ports_of, header_ports, signal_of, ports_of};
ghost use Rattle.v_scopes.specs.Listed.{listed};
ghost use Rattle.v_hierarchy.specs.Stands.{IsRangeIf};

use crate::name_list::NameList;
use crate::open_names::{add_names, directed_names};
use crate::scope_stack::Scopes;
use loc_base::{Items, Name, NoMemory};
use std::alloc::Global;
use v_hierarchy::{ElabErr, Entry, Port as InstancePort, Signal, Standing};
use v_syntax::{Expr, Identifier, Module, Port, Ports};

/// A name of a header, which is named once and has a direction.
fn port_name<'t>(
    directed: &NameList<'t>,
    name: &'t Identifier,
    seen: &mut NameList<'t>,
) -> Result<(), ElabErr>
    ensures ok { OnOk result (port_name (listed directed.now) name.now (listed seen.old) ≡ Ok (listed seen.new)) }
    ensures err { IfErr result (λ fault. Refuses (port_name (listed directed.now) name.now (listed seen.old)) fault) }
{
    if seen.contains(&name.name) {
        return Err(ElabErr::DoubleName(name.site.span));
    }
    if !directed.contains(&name.name) {
        return Err(ElabErr::PortName(name.site.span));
    }
    seen.push(&name.name)?;
    Ok(())
}

/// The names of a header, against those to which items give a direction.
fn port_names_fit<'t>(
    alloc: Global,
    directed: &NameList<'t>,
    names: &'t [Identifier],
) -> Result<(), ElabErr>
    ensures ok { OnOk result (port_names_fit (listed directed.now) names.now ≡ Ok tt) }
    ensures err { IfErr result (λ fault. Refuses (port_names_fit (listed directed.now) names.now) fault) }
{
    let mut seen = NameList::new(alloc);
    for name in names {
        port_name(directed, name, &mut seen)?;
    }
    Ok(())
}

/// The names of declarations in a header, at the end of a list.
fn add_declared<'t>(list: &mut NameList<'t>, ports: &'t [Port]) -> Result<(), NoMemory>
    ensures { OnOk result (listed list.new ≡ listed list.old ++ map (λ p. p.0.name) (map named_port (map port_of ports.now))) }
{
    for port in ports {
        list.push(&name_of(port).name)?;
    }
    Ok(())
}

/// The name of a declaration in a header.
fn name_of(port: &Port) -> &Identifier
    ensures { result.now ≡ (named_port (port_of port.now)).0 }
{
    match port {
        Port::Declared { name, .. } | Port::Same { name, .. } => name,
    }
}

/// The start value of a declaration in a header.
fn start_of(port: &Port) -> Option<&Expr>
    ensures { option_map (λ e. tree_of e.now) result ≡ (named_port (port_of port.now)).1 }
{
    match port {
        Port::Declared { value, .. } | Port::Same { value, .. } => value.as_ref(),
    }
}

/// The names of the ports of a header, at the end of a list.
#[tactic(auto, using(crate::proofs::TableLaws::names_ports))]
fn add_ports<'t>(list: &mut NameList<'t>, ports: &'t Ports) -> Result<(), NoMemory>
    ensures { OnOk result (listed list.new ≡ listed list.old ++ port_names (plain_ports ports.now)) }
{
    match ports {
        Ports::None => Ok(()),
        Ports::Names { names } => add_names(list, names.as_slice()),
        Ports::Declared { ports } => add_declared(list, ports.as_slice()),
    }
}

/// The names of the ports of a header, in their order.
pub fn port_names<'t>(alloc: Global, ports: &'t Ports) -> Result<NameList<'t>, NoMemory>
    ensures { IfOk result (λ list. listed list ≡ port_names (plain_ports ports.now)) }
{
    let mut list = NameList::new(alloc);
    add_ports(&mut list, ports)?;
    Ok(list)
}

/// What stands before the first port of a header.
fn nothing_before() -> Signal
    ensures { result ≡ nothing_before }
{
    Signal {
        direction: None,
        kind: None,
        signed: false,
        bounds: None,
    }
}

impl<'t> Scopes<'t> {
    /// Declares a port in the innermost scope.
    fn ported(&mut self, name: &'t Identifier, signal: Signal) -> Result<Signal, ElabErr>
        requires { IsRangeIf signal.bounds }
        ensures ok { IfOk result (λ s. ported name.now signal (names_in self.old) ≡ Ok (record { before = s; names = names_in self.new })) }
        ensures err { IfErr result (λ fault. Refuses (ported name.now signal (names_in self.old)) fault) }
        ensures around { outer_of self.new ≡ outer_of self.old }
        ensures fits { IfOk result (λ s. IsRangeIf s.bounds) }
    {
        self.declare(Entry {
            name,
            standing: Standing::Signal(signal),
        })?;
        Ok(signal)
    }

    /// Declares a port of a header. One without words of its own has the direction and the type of the port before.
    fn port_at(&mut self, port: &'t Port, before: Signal) -> Result<Signal, ElabErr>
        requires alone { outer_of self.old ≡ [] }
        requires fits { IsRangeIf before.bounds }
        ensures ok { IfOk result (λ s. port_at (port_of port.now) (record { before = before; names = names_in self.old }) ≡ Ok (record { before = s; names = names_in self.new })) }
        ensures err { IfErr result (λ fault. Refuses (port_at (port_of port.now) (record { before = before; names = names_in self.old })) fault) }
        ensures around { outer_of self.new ≡ outer_of self.old }
        ensures fits { IfOk result (λ s. IsRangeIf s.bounds) }
    {
        match port {
            Port::Declared {
                direction,
                net,
                signed,
                range,
                name,
                ..
            } => {
                let bounds = self.bounds_if(range)?;
                let signal = Signal {
                    direction: Some(*direction),
                    kind: *net,
                    signed: *signed,
                    bounds,
                };
                self.ported(name, signal)
            }
            Port::Same { name, .. } => self.ported(name, before),
        }
    }

    /// Declares the ports of a header.
    fn declare_ports(&mut self, ports: &'t [Port]) -> Result<(), ElabErr>
        requires { outer_of self.old ≡ [] }
        ensures ok { OnOk result (declared_ports_of (map port_of ports.now) (names_in self.old) ≡ Ok (names_in self.new)) }
        ensures err { IfErr result (λ fault. Refuses (declared_ports_of (map port_of ports.now) (names_in self.old)) fault) }
        ensures around { outer_of self.new ≡ outer_of self.old }
    {
        let mut before = nothing_before();
        for port in ports {
            before = self.port_at(port, before)?;
        }
        Ok(())
    }

    /// The ports that a module's header declares, beside its parameters: names of a scope that no other is around.
    pub fn header_ports(&mut self, unit: &'t Module) -> Result<(), ElabErr>
        requires { outer_of self.old ≡ [] }
        ensures ok { OnOk result (header_ports (module_of unit.now) (names_in self.old) ≡ Ok (names_in self.new)) }
        ensures err { IfErr result (λ fault. Refuses (header_ports (module_of unit.now) (names_in self.old)) fault) }
        ensures around { outer_of self.new ≡ outer_of self.old }
    {
        match &unit.ports {
            Ports::None => Ok(()),
            Ports::Names { names } => {
                let directed = directed_names(self.allocator(), unit.items.as_slice())?;
                port_names_fit(self.allocator(), &directed, names.as_slice())
            }
            Ports::Declared { ports } => self.declare_ports(ports.as_slice()),
        }
    }

    /// The port or signal that a name of the innermost scope is; nothing is said of any other.
    fn signal_of(&self, name: &Name) -> Signal
        ensures { result ≡ signal_of (find name.now (names_in self.now)) }
    {
        match self.find_here(name) {
            Some(Standing::Signal(signal)) => signal,
            _ => nothing_before(),
        }
    }

    /// The ports of a header that only has names.
    fn ports_by_name(&self, names: &'t [Identifier]) -> Result<Items<InstancePort<'t>>, NoMemory>
        ensures { IfOk result (λ list. map instance_port list ≡ ports_of (name_ports names.now) (names_in self.now)) }
    {
        let mut list = Items::new(self.allocator());
        for name in names {
            list.push(InstancePort {
                name,
                signal: self.signal_of(&name.name),
                start: None,
            })?;
        }
        Ok(list)
    }

    /// The ports of a header that declares them.
    fn ports_declared(&self, ports: &'t [Port]) -> Result<Items<InstancePort<'t>>, NoMemory>
        ensures { IfOk result (λ list. map instance_port list ≡ ports_of (declared_ports (map port_of ports.now)) (names_in self.now)) }
    {
        let mut list = Items::new(self.allocator());
        for port in ports {
            let name = name_of(port);
            list.push(InstancePort {
                name,
                signal: self.signal_of(&name.name),
                start: start_of(port),
            })?;
        }
        Ok(list)
    }

    /// The ports of a header in their order, once all of the module is declared in the innermost scope.
    pub fn ports_of(&self, ports: &'t Ports) -> Result<Items<InstancePort<'t>>, NoMemory>
        ensures { IfOk result (λ list. map instance_port list ≡ ports_of (plain_ports ports.now) (names_in self.now)) }
    {
        match ports {
            Ports::None => Ok(Items::new(self.allocator())),
            Ports::Names { names } => self.ports_by_name(names.as_slice()),
            Ports::Declared { ports } => self.ports_declared(ports.as_slice()),
        }
    }
}
