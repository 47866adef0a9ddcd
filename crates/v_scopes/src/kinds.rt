//! The types that are written of parameters (IEEE 1364-2005, 4.10).
ghost use Rattle.std.specs.Prelude.{◌≡◌, Ok, IfOk, IfErr};
ghost use Rattle.v_syntax.specs.ItemTree.{parameter_type_of};
ghost use Rattle.v_sizes.specs.Scopes.{look_of};
ghost use Rattle.v_hierarchy.specs.Parameters.{kind_of, kind_at};
ghost use Rattle.v_hierarchy.specs.Frames.{Refuses};
ghost use Rattle.v_hierarchy.specs.Stands.{IsKind, IsRangeIf};

use crate::ranges::bounds_if;
use std::alloc::Global;
use v_hierarchy::{Bounds, ElabErr, Kind};
use v_sizes::Scope;
use v_syntax::ParameterType;

/// A sign and a range that are written, if any is.
fn kind_of(signed: bool, bounds: Option<Bounds>) -> Kind
    requires { IsRangeIf bounds }
    ensures kind { result ≡ kind_of signed bounds }
    ensures fits { IsKind result }
{
    if !signed && bounds.is_none() {
        return Kind::AsValue;
    }
    Kind::Typed { signed, bounds }
}

/// The type that is written of a parameter.
pub fn kind_at(alloc: Global, scope: &Scope<'_>, type_of: &ParameterType) -> Result<Kind, ElabErr>
    ensures ok { IfOk result (λ kind. kind_at (look_of scope.now) (parameter_type_of type_of.now) ≡ Ok kind) }
    ensures err { IfErr result (λ fault. Refuses (kind_at (look_of scope.now) (parameter_type_of type_of.now)) fault) }
    ensures fits { IfOk result IsKind }
{
    match type_of {
        ParameterType::Vector { signed, range } => {
            let bounds = bounds_if(alloc, scope, range)?;
            Ok(kind_of(*signed, bounds))
        }
        ParameterType::Integer => Ok(Kind::Typed {
            signed: true,
            bounds: Some(Bounds { left: 31, right: 0 }),
        }),
    }
}
