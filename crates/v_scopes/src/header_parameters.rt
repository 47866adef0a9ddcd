//! The parameters of a module's header (IEEE 1364-2005, 12.2).
ghost use Rattle.std.specs.Prelude.{◌≡◌, [], map, Ok, IfOk, IfErr, OnOk};
ghost use Rattle.v_syntax.specs.ModuleTree.{header_parameter_of};
ghost use Rattle.v_scopes.specs.Around.{names_in, outer_of};
ghost use Rattle.v_hierarchy.specs.Frames.{Refuses};
ghost use Rattle.v_hierarchy.specs.Parameters.{heading_kind, header_parameter, header_parameters};
ghost use Rattle.v_hierarchy.specs.Stands.{IsKind};
ghost use Rattle.v_scopes.specs.Valued.{values_of};

use crate::scope_stack::Scopes;
use crate::values::Values;
use v_hierarchy::{ElabErr, Kind, is_written};
use v_syntax::HeaderParameter;

impl<'t> Scopes<'t> {
    /// The type of a parameter: one without a type of its own has that of the one before it.
    fn heading_kind(&self, parameter: &HeaderParameter, before: Kind) -> Result<Kind, ElabErr>
        requires alone { outer_of self.now ≡ [] }
        requires fits { IsKind before }
        ensures ok { IfOk result (λ kind. heading_kind (header_parameter_of parameter.now) (record { kind = before; names = names_in self.now }) ≡ Ok kind) }
        ensures err { IfErr result (λ fault. Refuses (heading_kind (header_parameter_of parameter.now) (record { kind = before; names = names_in self.now })) fault) }
        ensures fits { IfOk result IsKind }
    {
        if parameter.opens || is_written(&parameter.type_of) {
            self.kind_at(&parameter.type_of)
        } else {
            Ok(before)
        }
    }

    /// Declares a parameter of a header.
    fn header_parameter(
        &mut self,
        values: &Values<'_>,
        parameter: &'t HeaderParameter,
        before: Kind,
    ) -> Result<Kind, ElabErr>
        requires alone { outer_of self.old ≡ [] }
        requires fits { IsKind before }
        ensures ok { IfOk result (λ kind. header_parameter (values_of values.now) (header_parameter_of parameter.now) (record { kind = before; names = names_in self.old }) ≡ Ok (record { kind = kind; names = names_in self.new })) }
        ensures err { IfErr result (λ fault. Refuses (header_parameter (values_of values.now) (header_parameter_of parameter.now) (record { kind = before; names = names_in self.old })) fault) }
        ensures around { outer_of self.new ≡ outer_of self.old }
        ensures fits { IfOk result IsKind }
    {
        let kind = self.heading_kind(parameter, before)?;
        let value = values.given(&parameter.name.name);
        self.parameter(kind, value, &parameter.name, &parameter.value)?;
        Ok(kind)
    }

    /// Declares the parameters of a header, with the values that are given to them, in the scope that begins with them.
    pub fn header_parameters(
        &mut self,
        values: &Values<'_>,
        parameters: &'t [HeaderParameter],
    ) -> Result<(), ElabErr>
        requires empty { names_in self.old ≡ [] }
        requires alone { outer_of self.old ≡ [] }
        ensures ok { OnOk result (header_parameters (values_of values.now) (map header_parameter_of parameters.now) ≡ Ok (names_in self.new)) }
        ensures err { IfErr result (λ fault. Refuses (header_parameters (values_of values.now) (map header_parameter_of parameters.now)) fault) }
        ensures around { outer_of self.new ≡ [] }
    {
        let mut kind = Kind::AsValue;
        for parameter in parameters {
            kind = self.header_parameter(values, parameter, kind)?;
        }
        Ok(())
    }
}
