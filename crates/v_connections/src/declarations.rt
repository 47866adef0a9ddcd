//! Declarations of ports, nets, registers, integers, genvars and parameters (IEEE 1364-2005, clause 4 and 12.3.3).
ghost use Rattle.std.specs.Prelude.{◌≡◌, map, option_map, Ok, IfErr, OnOk};
ghost use Rattle.std.specs.Option.{option_map_or};
ghost use Rattle.v_sizes.specs.Context.{IsMeaning};
ghost use Rattle.v_syntax.specs.PartTree.{range_of, named_of};
ghost use Rattle.v_syntax.specs.ItemTree.{declarator_of, parameter_type_of};
ghost use Rattle.v_hierarchy.specs.Frames.{Refuses};
ghost use Rattle.v_hierarchy.specs.Items.{direction_of, net_of, named_as, parameter_of};
ghost use Rattle.v_hierarchy.specs.Names.{signal as signal_standing, array as array_standing, meaning_of};
ghost use Rattle.v_hierarchy.specs.Parameters.{is_among};
ghost use Rattle.v_hierarchy.specs.Stands.{IsKind, IsRangeIf};
ghost use Rattle.v_hierarchy.specs.Steps.{each};
ghost use Rattle.v_hierarchy.specs.Views.{standing_of};
ghost use Rattle.v_scopes.specs.Around.{names_in, outer_of};
ghost use Rattle.v_connections.specs.Declarations.{with_bounds, ports_declared, nets_declared, parameters_declared};
ghost use Rattle.v_connections.specs.Places.{place_of, ports_at, outside_at};

use crate::place::Place;
use loc_base::Name;
use v_hierarchy::{Bounds, ElabErr, Entry, Kind, Signal, Standing};
use v_scopes::Scopes;
use v_sizes::Const;
use v_syntax::{Declarator, Identifier, NamedValue, ParameterKind, ParameterType, Range};

/// What a name of a declaration of nets or registers is declared as: with a range of its own an array.
fn net_standing<'t>(signal: Signal, range: &'t Option<Range>) -> Standing<'t>
    requires { IsRangeIf signal.bounds }
    ensures standing { standing_of result ≡ option_map_or (array_standing signal) (option_map range_of range.now) (signal_standing signal) }
    ensures stands { IsMeaning (meaning_of (standing_of result)) }
{
    match range {
        Some(range) => Standing::Array(signal, range),
        None => Standing::Signal(signal),
    }
}

/// Declares nets or registers of one range.
fn nets<'t>(scopes: &mut Scopes<'t>, signal: Signal, names: &'t [Declarator]) -> Result<(), ElabErr>
    requires { IsRangeIf signal.bounds }
    ensures ok { OnOk result (each (net_of signal) (map declarator_of names.now) (names_in scopes.old) ≡ Ok (names_in scopes.new)) }
    ensures err { IfErr result (λ fault. Refuses (each (net_of signal) (map declarator_of names.now) (names_in scopes.old)) fault) }
    ensures around { outer_of scopes.new ≡ outer_of scopes.old }
{
    for declarator in names {
        let name = &declarator.name;
        let standing = net_standing(signal, &declarator.range);
        scopes.declare(Entry { name, standing })?;
    }
    Ok(())
}

/// Declares nets or registers: the range first, then the names.
pub fn declare_nets<'t>(
    scopes: &mut Scopes<'t>,
    signal: Signal,
    range: &Option<Range>,
    names: &'t [Declarator],
) -> Result<(), ElabErr>
    ensures ok { OnOk result (nets_declared (outer_of scopes.old) signal (option_map range_of range.now) (map declarator_of names.now) (names_in scopes.old) ≡ Ok (names_in scopes.new)) }
    ensures err { IfErr result (λ fault. Refuses (nets_declared (outer_of scopes.old) signal (option_map range_of range.now) (map declarator_of names.now) (names_in scopes.old)) fault) }
    ensures around { outer_of scopes.new ≡ outer_of scopes.old }
{
    let bounds = scopes.bounds_if(range)?;
    nets(scopes, with_bounds(signal, bounds), names)
}

/// Declares integers or genvars.
pub fn declare_names<'t>(
    scopes: &mut Scopes<'t>,
    standing: Standing<'t>,
    names: &'t [Identifier],
) -> Result<(), ElabErr>
    requires { IsMeaning (meaning_of (standing_of standing)) }
    ensures ok { OnOk result (each (named_as (standing_of standing.entry)) names.now (names_in scopes.old) ≡ Ok (names_in scopes.new)) }
    ensures err { IfErr result (λ fault. Refuses (each (named_as (standing_of standing.entry)) names.now (names_in scopes.old)) fault) }
    ensures around { outer_of scopes.new ≡ outer_of scopes.old }
{
    for name in names {
        scopes.declare(Entry { name, standing })?;
    }
    Ok(())
}

/// A signal with these bounds.
fn with_bounds(signal: Signal, bounds: Option<Bounds>) -> Signal
    ensures { result ≡ with_bounds signal bounds }
{
    Signal {
        direction: signal.direction,
        kind: signal.kind,
        signed: signal.signed,
        bounds,
    }
}

impl<'u, 'n, 'h, 't> Place<'u, 'n, 'h, 't> {
    /// Whether a name stands in the module's header.
    fn is_port(&self, name: &Name) -> bool
        ensures { result ≡ is_among name.now (ports_at self.now) }
    {
        match self.header {
            Some(header) => header.has_port(name),
            None => false,
        }
    }

    /// The value that is given to a parameter from outside.
    fn outside_value(&self, kind: ParameterKind, name: &Name) -> Option<Const>
        ensures { result ≡ outside_at self.now kind name.now }
    {
        match kind {
            ParameterKind::Local => None,
            ParameterKind::Parameter => match self.header {
                Some(header) => header.values().given(name),
                None => None,
            },
        }
    }

    /// Gives a direction to a name of the header.
    fn direction(
        &self,
        scopes: &mut Scopes<'t>,
        signal: Signal,
        name: &'t Identifier,
    ) -> Result<(), ElabErr>
        requires { IsRangeIf signal.bounds }
        ensures ok { OnOk result (direction_of (ports_at self.now) signal name.now (names_in scopes.old) ≡ Ok (names_in scopes.new)) }
        ensures err { IfErr result (λ fault. Refuses (direction_of (ports_at self.now) signal name.now (names_in scopes.old)) fault) }
        ensures around { outer_of scopes.new ≡ outer_of scopes.old }
    {
        if !self.is_port(&name.name) {
            return Err(ElabErr::PortName(name.site.span));
        }
        scopes.declare(Entry {
            name,
            standing: Standing::Signal(signal),
        })
    }

    /// Gives directions of one range to names of the header.
    fn directions(
        &self,
        scopes: &mut Scopes<'t>,
        signal: Signal,
        names: &'t [Identifier],
    ) -> Result<(), ElabErr>
        requires { IsRangeIf signal.bounds }
        ensures ok { OnOk result (each (direction_of (ports_at self.now) signal) names.now (names_in scopes.old) ≡ Ok (names_in scopes.new)) }
        ensures err { IfErr result (λ fault. Refuses (each (direction_of (ports_at self.now) signal) names.now (names_in scopes.old)) fault) }
        ensures around { outer_of scopes.new ≡ outer_of scopes.old }
    {
        for name in names {
            self.direction(scopes, signal, name)?;
        }
        Ok(())
    }

    /// Gives directions to names of the header: the range first, then the names.
    pub fn declare_ports(
        &self,
        scopes: &mut Scopes<'t>,
        signal: Signal,
        range: &Option<Range>,
        names: &'t [Identifier],
    ) -> Result<(), ElabErr>
        ensures ok { OnOk result (ports_declared (place_of self.now (outer_of scopes.old)) signal (option_map range_of range.now) names.now (names_in scopes.old) ≡ Ok (names_in scopes.new)) }
        ensures err { IfErr result (λ fault. Refuses (ports_declared (place_of self.now (outer_of scopes.old)) signal (option_map range_of range.now) names.now (names_in scopes.old)) fault) }
        ensures around { outer_of scopes.new ≡ outer_of scopes.old }
    {
        let bounds = scopes.bounds_if(range)?;
        self.directions(scopes, with_bounds(signal, bounds), names)
    }

    /// Declares parameters of one type, with the values that are given to them, else their own.
    #[tactic(auto, using(crate::proofs::PlaceLaws::outside_rules))]
    fn parameters(
        &self,
        scopes: &mut Scopes<'t>,
        kind: ParameterKind,
        type_of: Kind,
        values: &'t [NamedValue],
    ) -> Result<(), ElabErr>
        requires { IsKind type_of }
        ensures ok { OnOk result (each (parameter_of (place_of self.now (outer_of scopes.old)) kind type_of) (map named_of values.now) (names_in scopes.old) ≡ Ok (names_in scopes.new)) }
        ensures err { IfErr result (λ fault. Refuses (each (parameter_of (place_of self.now (outer_of scopes.old)) kind type_of) (map named_of values.now) (names_in scopes.old)) fault) }
        ensures around { outer_of scopes.new ≡ outer_of scopes.old }
    {
        for value in values {
            let outside = self.outside_value(kind, &value.name.name);
            scopes.parameter(type_of, outside, &value.name, &value.value)?;
        }
        Ok(())
    }

    /// Declares parameters: the type first, then each with its value.
    pub fn declare_parameters(
        &self,
        scopes: &mut Scopes<'t>,
        kind: ParameterKind,
        type_of: &ParameterType,
        values: &'t [NamedValue],
    ) -> Result<(), ElabErr>
        ensures ok { OnOk result (parameters_declared (place_of self.now (outer_of scopes.old)) kind (parameter_type_of type_of.now) (map named_of values.now) (names_in scopes.old) ≡ Ok (names_in scopes.new)) }
        ensures err { IfErr result (λ fault. Refuses (parameters_declared (place_of self.now (outer_of scopes.old)) kind (parameter_type_of type_of.now) (map named_of values.now) (names_in scopes.old)) fault) }
        ensures around { outer_of scopes.new ≡ outer_of scopes.old }
    {
        let type_of = scopes.kind_at(type_of)?;
        self.parameters(scopes, kind, type_of, values)
    }
}
