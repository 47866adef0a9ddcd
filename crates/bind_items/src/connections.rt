//! The connections of a module instance, in the order of its ports (IEEE 1364-2005, 12.3.9).
ghost use Rattle.std.specs.Prelude.{◌≡◌, map, option_map, Ok, OnOk, IfErr};
ghost use Rattle.v_syntax.specs.Tree.{tree_of};
ghost use Rattle.v_syntax.specs.ItemTree.{connection_of};
ghost use Rattle.v_hierarchy.specs.Views as view;
ghost use Rattle.v_binding.specs.Connections.{by_order, by_name, connected, child_of};
ghost use Rattle.v_binding.specs.Seen.{names_in};
ghost use Rattle.bind_scopes.specs.Refuses.{Refuses};
ghost use Rattle.v_binding.specs.Homes.{home_of};
ghost use Rattle.bind_scopes.specs.Views.{socket_of};

use crate::ports::{Port, connected};
use crate::scene::Scene;
use crate::wires::{Wires, wire_at};
use bind_clocks::Bound;
use bind_scopes::Socket;
use v_binding::{BindErr, Names};
use v_hierarchy::Child;
use v_syntax::{Connections, Expr, NamedConnection};

/// The ports of an instance with its connections by order, and its first place.
#[derive(Clone, Copy)]
struct Ordered<'a> {
    ports: &'a [Socket<'a>],
    values: &'a [Option<Expr>],
    copy: u32,
}

/// Connections by order.
#[tactic(auto, using(crate::proofs::OrderLaws::order_laws))]
fn by_order(
    scene: Scene<'_>,
    names: &Names<'_>,
    all: Ordered<'_>,
    bound: &mut Bound,
) -> Result<(), BindErr>
    ensures ok { OnOk result (by_order scene.entry.frame.now (home_of scene.entry.home) (names_in names.now) all.entry.copy (map socket_of all.entry.ports.now) (map (option_map tree_of) all.entry.values.now) bound.old ≡ Ok bound.new) }
    ensures err { IfErr result (λ e. Refuses (by_order scene.entry.frame.now (home_of scene.entry.home) (names_in names.now) all.entry.copy (map socket_of all.entry.ports.now) (map (option_map tree_of) all.entry.values.now) bound.old) e) }
{
    let count = all.ports.len().min(all.values.len());
    for i in 0..count {
        let port = Port {
            socket: all.ports[i],
            wire: wire_at(&all.values[i]),
            copy: all.copy,
        };
        connected(scene, names, port, bound)?;
    }
    Ok(())
}

/// The ports of an instance with its connections by name, and its first place.
#[derive(Clone, Copy)]
struct ByName<'a> {
    ports: &'a [Socket<'a>],
    list: &'a [NamedConnection],
    copy: u32,
}

/// Connections by name.
fn by_name(
    scene: Scene<'_>,
    names: &Names<'_>,
    all: ByName<'_>,
    bound: &mut Bound,
) -> Result<(), BindErr>
    ensures ok { OnOk result (by_name scene.entry.frame.now (home_of scene.entry.home) (names_in names.now) all.entry.copy (map connection_of all.entry.list.now) (map socket_of all.entry.ports.now) bound.old ≡ Ok bound.new) }
    ensures err { IfErr result (λ e. Refuses (by_name scene.entry.frame.now (home_of scene.entry.home) (names_in names.now) all.entry.copy (map connection_of all.entry.list.now) (map socket_of all.entry.ports.now) bound.old) e) }
{
    let wires = Wires::new(names.allocator(), all.list)?;
    for i in 0..all.ports.len() {
        let socket = all.ports[i];
        let port = Port {
            socket,
            wire: wires.find(socket.name),
            copy: all.copy,
        };
        connected(scene, names, port, bound)?;
    }
    Ok(())
}

/// An instance with its ports.
#[derive(Clone, Copy)]
pub struct Joined<'t, 'a> {
    pub child: &'a Child<'t>,
    pub ports: &'a [Socket<'t>],
}

/// The connections of an instance, each at home in the instance.
pub fn child(
    scene: Scene<'_>,
    names: &Names<'_>,
    joined: Joined<'_, '_>,
    bound: &mut Bound,
) -> Result<(), BindErr>
    ensures ok { OnOk result (child_of scene.entry.frame.now (home_of scene.entry.home) (names_in names.now) (map socket_of joined.entry.ports.now) (view.child_of joined.entry.child.now) bound.old ≡ Ok bound.new) }
    ensures err { IfErr result (λ e. Refuses (child_of scene.entry.frame.now (home_of scene.entry.home) (names_in names.now) (map socket_of joined.entry.ports.now) (view.child_of joined.entry.child.now) bound.old) e) }
{
    let own = scene.at(&joined.child.path);
    let copy = bound.place_count()?;
    match joined.child.connections {
        None => Ok(()),
        Some(Connections::Ordered { values }) => {
            let all = Ordered {
                ports: joined.ports,
                values: values.as_slice(),
                copy,
            };
            by_order(own, names, all, bound)
        }
        Some(Connections::Named { values }) => {
            let all = ByName {
                ports: joined.ports,
                list: values.as_slice(),
                copy,
            };
            by_name(own, names, all, bound)
        }
    }
}
