//! Start values of declarations (IEEE 1364-2005, 6.2.1): constants that are assigned to registers.
ghost use Rattle.std.specs.Prelude.{◌≡◌, ◌≤◌, Ok, OnOk, IfErr};
ghost use Rattle.v_syntax.specs.Tree.{tree_of};
ghost use Rattle.v_sizes.specs.Scopes.{look_of};
ghost use Rattle.v_binding.specs.Names.{find};
ghost use Rattle.v_binding.specs.Assignments.{width_of, number_of, start_at};
ghost use Rattle.v_binding.specs.Seen.{names_in};
ghost use Rattle.bind_scopes.specs.Refuses.{Refuses};
ghost use Rattle.bind_items.specs.Registers.{number_in, width_in};

use bind_clocks::Bound;
use bind_scopes::constant_at;
use loc_base::Name;
use v_binding::{BindErr, Names, StartValue};
use v_sizes::{Meaning, Scope};
use v_syntax::Expr;

/// A signal that has a value at the start, with its number of bits.
#[derive(Clone, Copy)]
pub(crate) struct Register {
    pub signal: u32,
    pub width: u8,
    pub ghost least: { 1 ≤ width },
    pub ghost most: { width ≤ 128 },
}

/// One bit that is of no signal.
fn no_register() -> Register
    ensures signal { result.signal ≡ 0 }
    ensures width { result.width ≡ 1 }
{
    Register {
        signal: 0,
        width: 1,
    }
}

/// A signal of so many bits.
fn sized_register(signal: u32, width: u8) -> Register
    requires least { 1 ≤ width }
    requires most { width ≤ 128 }
    ensures signal { result.signal ≡ signal }
    ensures width { result.width ≡ width }
{
    Register { signal, width }
}

/// What a name stands for; one bit where it is no signal.
fn looked_up(scope: &Scope<'_>, name: &Name) -> Register
    ensures signal { result.signal ≡ number_in (look_of scope.now name.now) }
    ensures width { result.width ≡ width_in (look_of scope.now name.now) }
{
    match scope.find(name) {
        Some(
            Meaning::Signal {
                signal,
                width,
                signed: _,
                left: _,
                right: _,
            },
        ) => sized_register(signal, width),
        _ => no_register(),
    }
}

/// What a name stands for where it stands; one bit where it is no signal.
pub(crate) fn register_of(names: &Names<'_>, name: &Name) -> Register
    ensures signal { result.signal ≡ number_of (find (names_in names.now) name.now) }
    ensures width { result.width ≡ width_of (find (names_in names.now) name.now) }
{
    looked_up(names.scope(), name)
}

/// The start value of a register by its declaration.
pub fn start_at(
    names: &Names<'_>,
    name: &Name,
    value: &Expr,
    bound: &mut Bound,
) -> Result<(), BindErr>
    ensures ok { OnOk result (start_at (names_in names.now) name.now (tree_of value.now) bound.old ≡ Ok bound.new) }
    ensures err { IfErr result (λ e. Refuses (start_at (names_in names.now) name.now (tree_of value.now) bound.old) e) }
{
    let own = register_of(names, name);
    let value = constant_at(names, value, own.width)?;
    bound.add_declared(StartValue::new(own.signal, own.width, value))?;
    Ok(())
}
