//! One port of an instance, connected (IEEE 1364-2005, 12.3.9): an input is assigned an expression, and an output drives a left side,
//! which is a place.
ghost use Rattle.std.specs.Prelude.{◌≡◌, ◌∷◌, [], max, option_map, Ok, OnOk, IfOk, IfErr};
ghost use Rattle.v_syntax.specs.Tree.{tree_of};
ghost use Rattle.design_core.specs.declared.statement.Part.TheVariants as part;
ghost use Rattle.v_binding.specs.Connections.{plain_name, handed_on, input_of, output_value, output_of, connection};
ghost use Rattle.v_binding.specs.Seen.{names_in};
ghost use Rattle.bind_scopes.specs.Refuses.{Refuses};
ghost use Rattle.v_binding.specs.Homes.{home_of};
ghost use Rattle.bind_scopes.specs.Views.{socket_of};
ghost use Rattle.bind_items.specs.Wires.{wire_in};

use crate::scene::Scene;
use crate::wires::Wire;
use bind_clocks::{Bound, Made};
use bind_scopes::{Socket, assigned, output};
use design_core::{Driver, Node, Part, PlaceKind, Target, Typed};
use loc_base::{Items, Name, NoMemory};
use std::alloc::Global;
use v_binding::{BindErr, Names, Root, Start};
use v_selects::node::{sized, with_width};
use v_syntax::Expr;

/// A port of an instance with what it is connected to, if it is, and the first place of the instance.
#[derive(Clone, Copy)]
pub(crate) struct Port<'a> {
    pub socket: Socket<'a>,
    pub wire: Option<Wire<'a>>,
    pub copy: u32,
}

/// A port that is connected.
#[derive(Clone, Copy)]
struct Link<'a> {
    socket: Socket<'a>,
    wire: Wire<'a>,
    copy: u32,
}

/// The name that an expression is, if it is one without selects.
fn plain_name(e: &Expr) -> Option<&Name>
    ensures { option_map (λ name. name.now) result ≡ plain_name (tree_of e.now) }
{
    match e {
        Expr::Name {
            site: _,
            name,
            selects,
        } => { if selects.is_empty() { Some(name) } else { None } }
        _ => None,
    }
}

/// The input of the top that a port hands on: one of a bit that is connected to a plain name of it.
fn handed_on(names: &Names<'_>, bound: &Bound, socket: Socket<'_>, e: &Expr) -> Option<u32>
    ensures { result ≡ handed_on (names_in names.now) bound.now (socket_of socket.entry) (tree_of e.now) }
{
    if socket.width != 1 {
        return None;
    }
    match plain_name(e) {
        Some(name) => bound.root_named(names, name),
        None => None,
    }
}

/// All of a signal as a left side.
fn whole(alloc: Global, signal: u32) -> Result<Target, NoMemory>
    ensures { IfOk result (λ t. t ≡ record { parts = part.Whole signal ∷ [] }) }
{
    let mut parts = Items::new(alloc);
    parts.push(Part::Whole(signal))?;
    Ok(Target { parts })
}

/// An input, which is assigned an expression. One that hands on an input of the top does not read it.
fn input(
    scene: Scene<'_>,
    names: &Names<'_>,
    link: Link<'_>,
    bound: &mut Bound,
) -> Result<(), BindErr>
    ensures ok { OnOk result (input_of scene.entry.frame.now (names_in names.now) (socket_of link.entry.socket) (wire_in link.entry.wire) bound.old ≡ Ok bound.new) }
    ensures err { IfErr result (λ e. Refuses (input_of scene.entry.frame.now (names_in names.now) (socket_of link.entry.socket) (wire_in link.entry.wire) bound.old) e) }
{
    let Link {
        socket,
        wire,
        copy: _,
    } = link;
    let value = assigned(names, wire.value, socket.width)?;
    let target = whole(names.allocator(), socket.signal)?;
    let driver = Driver::Cont {
        target,
        value,
        place: None,
        span: wire.site.span,
    };
    match handed_on(names, bound, socket, wire.value) {
        Some(input) => {
            bound.add_driver(driver)?;
            bound.add_root(Root::new(socket.signal, input))?;
            Ok(())
        }
        None => {
            bound.driven(scene.frame, wire.site.span, driver)?;
            Ok(())
        }
    }
}

/// The value of an output for a left side of a width.
fn output_value(alloc: Global, socket: Socket<'_>, width: u8) -> Result<Typed, NoMemory>
    ensures { IfOk result (λ e. e ≡ output_value (socket_of socket.entry) width) }
{
    let whole = sized(socket.width, socket.signed, Node::Whole(socket.signal));
    with_width(alloc, width.max(socket.width), whole)
}

/// An output, which drives a left side.
fn drive_out(
    scene: Scene<'_>,
    names: &Names<'_>,
    link: Link<'_>,
    bound: &mut Bound,
) -> Result<(), BindErr>
    ensures ok { OnOk result (output_of scene.entry.frame.now (home_of scene.entry.home) (names_in names.now) link.entry.copy (socket_of link.entry.socket) (wire_in link.entry.wire) bound.old ≡ Ok bound.new) }
    ensures err { IfErr result (λ e. Refuses (output_of scene.entry.frame.now (home_of scene.entry.home) (names_in names.now) link.entry.copy (socket_of link.entry.socket) (wire_in link.entry.wire) bound.old) e) }
{
    let alloc = names.allocator();
    let left = output(names, link.wire.value)?;
    let value = output_value(alloc, link.socket, left.width)?;
    let made = Made {
        start: Start {
            kind: PlaceKind::PortOut,
            site: link.wire.site,
            copy: link.copy,
        },
        span: link.wire.site.span,
        left,
        value,
    };
    bound.driven_at(scene.frame, scene.home, made)?;
    Ok(())
}

/// A port of an instance, connected.
pub(crate) fn connected(
    scene: Scene<'_>,
    names: &Names<'_>,
    port: Port<'_>,
    bound: &mut Bound,
) -> Result<(), BindErr>
    ensures ok { OnOk result (connection scene.entry.frame.now (home_of scene.entry.home) (names_in names.now) port.entry.copy (socket_of port.entry.socket) (option_map wire_in port.entry.wire) bound.old ≡ Ok bound.new) }
    ensures err { IfErr result (λ e. Refuses (connection scene.entry.frame.now (home_of scene.entry.home) (names_in names.now) port.entry.copy (socket_of port.entry.socket) (option_map wire_in port.entry.wire) bound.old) e) }
{
    let Port { socket, wire, copy } = port;
    let Some(wire) = wire else {
        return Ok(());
    };
    let link = Link { socket, wire, copy };
    if socket.input {
        input(scene, names, link, bound)
    } else {
        drive_out(scene, names, link, bound)
    }
}
