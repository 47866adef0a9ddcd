//! What the ports of an instance are connected to, by name (IEEE 1364-2005, 12.3.6).
ghost use Rattle.std.specs.Prelude.{◌≡◌, ℕ, List, map, option_map, Some, None, if◌then◌else◌, IfOk, OnOk};
ghost use Rattle.std.specs.Option.{option_or, option_map_or};
ghost use Rattle.v_syntax.specs.Tree.{tree_of};
ghost use Rattle.v_hierarchy.specs.Names.{same_name};
ghost use Rattle.v_syntax.specs.ItemTree.{connection_of};
ghost use Rattle.v_hierarchy.specs.Places.{place_in};
ghost use Rattle.v_binding.specs.Connections.{wire_at, wire_of, wire_named};
ghost use Rattle.bind_items.specs.Wires.{wire_in, first_named};

use loc_base::{Name, NoMemory};
use std::alloc::Global;
use v_hierarchy::{Places, site_of};
use v_syntax::{Expr, NamedConnection, Site};

/// What a port is connected to: where the connection stands, and its expression.
#[derive(Clone, Copy)]
pub(crate) struct Wire<'a> {
    pub site: Site,
    pub value: &'a Expr,
}

/// A connection by order, if it has an expression.
pub(crate) fn wire_at(value: &Option<Expr>) -> Option<Wire<'_>>
    ensures { option_map wire_in result ≡ option_map_or (λ e. Some (wire_at e)) (option_map tree_of value.now) None }
{
    match value {
        Some(value) => Some(Wire {
            site: site_of(value),
            value,
        }),
        None => None,
    }
}

/// A connection by name, if it has an expression.
fn wire_of(connection: &NamedConnection) -> Option<Wire<'_>>
    ensures { option_map wire_in result ≡ wire_of (connection_of connection.now) }
{
    match &connection.value {
        Some(value) => Some(Wire {
            site: connection.site,
            value,
        }),
        None => None,
    }
}

/// The connections of an instance by name, each found by one look into a table.
pub(crate) struct Wires<'t> {
    list: &'t [NamedConnection],
    places: Places<'t>,
    pub ghost tells: { (name : List ℕ) → place_in places name ≡ first_named name (map connection_of list.now) },
}

impl<'t> Drop for Wires<'t> {
    fn drop(self) {
        let Wires { list: _, places: _ } = self;
    }
}

/// Lets a name stand at a place, where it stands at none.
#[tactic(auto, using(crate::proofs::WireLaws::put_laws))]
fn put_first<'t>(places: &mut Places<'t>, name: &'t Name, place: usize) -> Result<(), NoMemory>
    ensures { OnOk result ((other : List ℕ) → place_in places.new other ≡ option_or (place_in places.old other) (if same_name name.now other then Some place else None)) }
{
    match places.find(name.as_bytes()) {
        Some(_) => Ok(()),
        None => places.put(name.as_bytes(), place),
    }
}

/// Where each name stands first in a list of connections.
fn places_of<'t>(alloc: Global, list: &'t [NamedConnection]) -> Result<Places<'t>, NoMemory>
    ensures { IfOk result (λ places. (name : List ℕ) → place_in places name ≡ first_named name (map connection_of list.now)) }
{
    let mut places = Places::new(alloc);
    for i in 0..list.len() {
        put_first(&mut places, &list[i].name.name, i)?;
    }
    Ok(places)
}

impl<'t> Wires<'t> {
    /// The connections of a list.
    pub fn new(alloc: Global, list: &'t [NamedConnection]) -> Result<Wires<'t>, NoMemory>
        ensures { IfOk result (λ wires. wires.list.now ≡ list.now) }
    {
        let places = places_of(alloc, list)?;
        Ok(Wires { list, places })
    }

    /// What the port of a name is connected to.
    pub fn find(&self, name: &Name) -> Option<Wire<'t>>
        ensures { option_map wire_in result ≡ wire_named name.now (map connection_of self.now.list.now) }
    {
        match self.places.find(name.as_bytes()) {
            Some(place) => match self.list.get(place) {
                Some(connection) => wire_of(connection),
                None => None,
            },
            None => None,
        }
    }
}
