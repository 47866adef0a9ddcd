//! The values that an instance gives to the parameters of its module (IEEE 1364-2005, 12.2.2).
ghost use Rattle.std.specs.Prelude.{◌≡◌, map, option_map, Ok, IfOk, IfErr, OnOk};
ghost use Rattle.v_syntax.specs.Tree.{tree_of};
ghost use Rattle.v_syntax.specs.ItemTree.{connection_of, connections_of};
ghost use Rattle.v_syntax.specs.ModuleTree.{module_of};
ghost use Rattle.v_scopes.specs.Around.{frames_of};
ghost use Rattle.v_hierarchy.specs.Frames.{Refuses};
ghost use Rattle.v_hierarchy.specs.Names.{look_in};
ghost use Rattle.v_hierarchy.specs.Parameters.{no_value, given_by_names, given_by_order, given_value, given_by_name, given_at};
ghost use Rattle.v_hierarchy.specs.Views.{given_of};
ghost use Rattle.v_scopes.specs.Listed.{listed};
ghost use Rattle.v_scopes.specs.NamedValues.{naming_of};
ghost use Rattle.v_scopes.specs.ValueFor.{value_for};

use crate::name_list::NameList;
use crate::open_names::open_names;
use crate::scope_stack::Scopes;
use loc_base::{Items, Name};
use v_hierarchy::{ElabErr, Given, site_of};
use v_syntax::{Connections, Expr, Module, NamedConnection};

/// The names that are met, and the values that are given.
struct Naming<'t> {
    seen: NameList<'t>,
    done: Items<Given<'t>>,
}

// A `drop` is written out, so that it is proved once, here.
impl<'t> Drop for Naming<'t> {
    fn drop(self) {
        let Naming { seen: _, done: _ } = self;
    }
}

impl<'t> Naming<'t> {
    /// The values that are given.
    fn into_values(self) -> Items<Given<'t>>
        ensures { result ≡ self.entry.done }
    {
        let Naming { seen: _, done } = self;
        done
    }
}

/// Refuses a value beyond the parameters.
fn no_value(value: &Option<Expr>) -> Result<(), ElabErr>
    ensures { result ≡ no_value (option_map tree_of value.now) }
{
    match value {
        Some(e) => Err(ElabErr::Parameter(site_of(e).span)),
        None => Ok(()),
    }
}

impl<'t> Scopes<'t> {
    /// The value of a parameter, at the end of those that are given, where one is written.
    fn give(
        &self,
        name: &'t Name,
        value: &Option<Expr>,
        done: &mut Items<Given<'t>>,
    ) -> Result<(), ElabErr>
        ensures ok { OnOk result (given_value (look_in (frames_of self.now)) name.now (option_map tree_of value.now) (map given_of done.old) ≡ Ok (map given_of done.new)) }
        ensures err { IfErr result (λ fault. Refuses (given_value (look_in (frames_of self.now)) name.now (option_map tree_of value.now) (map given_of done.old)) fault) }
    {
        let Some(e) = value else {
            return Ok(());
        };
        let value = self.constant_at(0, e)?;
        done.push(Given { name, value })?;
        Ok(())
    }

    /// The value at a place of a list, for the name at that place, at the end of those that are given.
    fn give_at(
        &self,
        name: Option<&'t Name>,
        value: &Option<Expr>,
        done: &mut Items<Given<'t>>,
    ) -> Result<(), ElabErr>
        ensures ok { OnOk result (value_for (look_in (frames_of self.now)) (option_map (λ n. n.now) name.entry) (option_map tree_of value.now) (map given_of done.old) ≡ Ok (map given_of done.new)) }
        ensures err { IfErr result (λ fault. Refuses (value_for (look_in (frames_of self.now)) (option_map (λ n. n.now) name.entry) (option_map tree_of value.now) (map given_of done.old)) fault) }
    {
        match name {
            Some(name) => self.give(name, value, done),
            None => no_value(value),
        }
    }

    /// Values by order, for these names.
    fn given_by_order(
        &self,
        names: &NameList<'t>,
        values: &[Option<Expr>],
    ) -> Result<Items<Given<'t>>, ElabErr>
        ensures ok { IfOk result (λ list. given_by_order (look_in (frames_of self.now)) (listed names.now) (map (option_map tree_of) values.now) ≡ Ok (map given_of list)) }
        ensures err { IfErr result (λ fault. Refuses (given_by_order (look_in (frames_of self.now)) (listed names.now) (map (option_map tree_of) values.now)) fault) }
    {
        let mut done = Items::new(self.allocator());
        for at in 0..values.len() {
            self.give_at(names.get(at), &values[at], &mut done)?;
        }
        Ok(done)
    }

    /// A value by name: of a parameter that may be given, once.
    fn give_by_name(
        &self,
        names: &NameList<'t>,
        connection: &'t NamedConnection,
        met: &mut Naming<'t>,
    ) -> Result<(), ElabErr>
        ensures ok { OnOk result (given_by_name (look_in (frames_of self.now)) (listed names.now) (connection_of connection.now) (naming_of met.old) ≡ Ok (naming_of met.new)) }
        ensures err { IfErr result (λ fault. Refuses (given_by_name (look_in (frames_of self.now)) (listed names.now) (connection_of connection.now) (naming_of met.old)) fault) }
    {
        let name = &connection.name.name;
        if !names.contains(name) || met.seen.contains(name) {
            return Err(ElabErr::Parameter(connection.name.site.span));
        }
        self.give(name, &connection.value, &mut met.done)?;
        met.seen.push(name)?;
        Ok(())
    }

    /// Values by name, of these names.
    fn given_by_names(
        &self,
        names: &NameList<'t>,
        connections: &'t [NamedConnection],
    ) -> Result<Items<Given<'t>>, ElabErr>
        ensures ok { IfOk result (λ list. given_by_names (look_in (frames_of self.now)) (listed names.now) (map connection_of connections.now) ≡ Ok (map given_of list)) }
        ensures err { IfErr result (λ fault. Refuses (given_by_names (look_in (frames_of self.now)) (listed names.now) (map connection_of connections.now)) fault) }
    {
        let mut met = Naming {
            seen: NameList::new(self.allocator()),
            done: Items::new(self.allocator()),
        };
        for connection in connections {
            self.give_by_name(names, connection, &mut met)?;
        }
        Ok(met.into_values())
    }

    /// The values that an instance of a module gives to its parameters, where its text has any.
    pub fn given_at(
        &self,
        unit: &'t Module,
        parameters: &'t Option<Connections>,
    ) -> Result<Items<Given<'t>>, ElabErr>
        ensures ok { IfOk result (λ list. given_at (look_in (frames_of self.now)) (module_of unit.now) (option_map connections_of parameters.now) ≡ Ok (map given_of list)) }
        ensures err { IfErr result (λ fault. Refuses (given_at (look_in (frames_of self.now)) (module_of unit.now) (option_map connections_of parameters.now)) fault) }
    {
        let Some(parameters) = parameters else {
            return Ok(Items::new(self.allocator()));
        };
        let names = open_names(self.allocator(), unit)?;
        match parameters {
            Connections::Ordered { values } => self.given_by_order(&names, values.as_slice()),
            Connections::Named { values } => self.given_by_names(&names, values.as_slice()),
        }
    }
}
