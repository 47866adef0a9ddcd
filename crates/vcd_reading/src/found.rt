//! The scope whose variables are a design's ports (IEEE 1364-2005, 18.2.3): the first that declares every port, or the first
//! that has a path.
ghost use Rattle.std.specs.Prelude.{◌≡◌, IfOk, length, map};
ghost use Rattle.vcd_reading.specs.Header.{Header as TheHeader};
ghost use Rattle.vcd_reading.specs.HeaderView.{header_of, variable_of};
ghost use Rattle.vcd_reading.specs.PortView.{ports_in, sought_of};
ghost use Rattle.vcd_reading.specs.Scopes.{first_scope, scope_of};
ghost use Rattle.vcd_reading.specs.Found.{IsIndex};

use crate::header::{Header, Variable};
use crate::names::{Key, Names};
use crate::paths::scope_at;
use crate::place::Scope;
use crate::ports::{Port, Sought};
use loc_base::NoMemory;
use std::alloc::Global;

/// The variables of a header by scope and name.
pub fn index<'a>(alloc: Global, variables: &[Variable<'a>]) -> Result<Names<'a>, NoMemory>
    ensures { IfOk result (λ names. IsIndex (map variable_of variables.now) names) }
{
    let mut names = Names::new(alloc);
    for (i, variable) in variables.iter().enumerate() {
        if let Some(scope) = variable.scope {
            let key = Key {
                scope,
                name: variable.name,
            };
            names.add(key, i)?;
        }
    }
    Ok(names)
}

/// The first of some scopes that declares every port.
fn first_scope<'b, 'a>(
    variables: &'b [Variable<'a>],
    names: &'b Names<'a>,
    ports: &[Port<'_>],
    scopes: usize,
) -> Option<usize>
    ensures { (h : TheHeader) → h.variables ≡ map variable_of variables.now → IsIndex h.variables names.now → length h.scopes ≡ scopes → result ≡ first_scope h (ports_in ports.now) }
{
    for number in 0..scopes {
        let scope = Scope {
            variables,
            names,
            number,
        };
        if scope.declares(ports) {
            return Some(number);
        }
    }
    None
}

/// The scope of the ports that are looked for, in a header whose variables have their numbers by scope and name.
pub fn scope_of<'b, 'a>(
    alloc: Global,
    header: &'b Header<'a>,
    names: &'b Names<'a>,
    sought: &Sought<'_, '_>,
) -> Result<Option<usize>, NoMemory>
    requires { IsIndex (map variable_of header.now.variables.items) names.now }
    ensures { IfOk result (λ found. found ≡ scope_of (header_of header.now) (sought_of sought.now)) }
{
    let variables = header.variables.as_slice();
    let scopes = header.scopes.as_slice();
    let Some(path) = sought.scope else {
        return Ok(first_scope(variables, names, sought.ports, scopes.len()));
    };
    let Some(number) = scope_at(alloc, scopes, path)? else {
        return Ok(None);
    };
    let scope = Scope {
        variables,
        names,
        number,
    };
    Ok(scope.declares(sought.ports).then_some(number))
}
