//! What the two names stand for.
ghost use Rattle.std.specs.Prelude.{IfOk};
ghost use Rattle.v_sizes.specs.Context.{IsMeaning};

use crate::failure::Failure;
use loc_base::{Bits, Name};
use std::alloc::Global;
use v_widths::{Const, Meaning, Scope};

/// A name of a text.
pub fn name(alloc: Global, text: &[u8]) -> Result<Name, Failure> {
    match Name::new(alloc, text)? {
        Some(name) => Ok(name),
        None => Err(Failure::Words),
    }
}

fn signal(number: u32, signed: bool) -> Meaning
    ensures { IsMeaning result }
{
    Meaning::Signal {
        signal: number,
        width: 8,
        signed,
        left: 7,
        right: 0,
    }
}

/// Both names as signals of 8 bits.
pub fn signals<'a>(alloc: Global, a: &'a Name, s: &'a Name) -> Result<Scope<'a>, Failure> {
    let mut scope = Scope::new(alloc);
    let _ = scope.add(a, signal(0, false))?;
    let _ = scope.add(s, signal(1, true))?;
    Ok(scope)
}

fn parameter(signed: bool) -> Result<Meaning, Failure>
    ensures { IfOk result IsMeaning }
{
    let Some(bits) = Bits::new(8, 9) else {
        return Err(Failure::Words);
    };
    let value = Const { bits, signed };
    Ok(Meaning::Constant {
        value,
        left: 7,
        right: 0,
    })
}

/// Both names as parameters of 8 bits with the value 9.
pub fn parameters<'a>(alloc: Global, a: &'a Name, s: &'a Name) -> Result<Scope<'a>, Failure> {
    let mut scope = Scope::new(alloc);
    let _ = scope.add(a, parameter(false)?)?;
    let _ = scope.add(s, parameter(true)?)?;
    Ok(scope)
}
