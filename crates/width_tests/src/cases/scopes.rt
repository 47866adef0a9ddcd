//! The names of the expressions.
ghost use Rattle.std.specs.Prelude.{◌≡◌, ◌≤◌, IfOk, true};
ghost use Rattle.design_core.specs.Valuation.{distance_of};
ghost use Rattle.design_core.specs.WellFormed.{spans};
ghost use Rattle.v_sizes.specs.Context.{IsMeaning};

use design_core::{Signal, SignalKind};
use loc_base::{Bits, Name};
use std::alloc::Global;
use std::test::Fail;
use v_widths::{Const, Meaning, Scope};

/// A name, the width and the value of its word, whether it is signed, and its range: its least index, and whether it
/// ascends.
type Declared = (&'static [u8], (u8, u128), bool, (u8, bool));

const DECLARED: [Declared; 9] = [
    (b"a", (8, 200), false, (0, false)),
    (b"b", (8, 100), false, (0, false)),
    (b"s", (8, 156), true, (0, false)),
    (b"t", (8, 50), true, (0, false)),
    (b"n", (4, 9), false, (0, false)),
    (b"m", (4, 13), true, (0, false)),
    (b"k", (1, 1), false, (0, false)),
    (b"u", (8, 165), false, (0, true)),
    (b"v", (8, 60), false, (4, false)),
];

/// The words of the signed array `mem`, each of 8 bits, at the addresses from 7 on.
const WORDS: [u128; 6] = [11, 150, 173, 60, 255, 1];

/// The indexes of the leftmost and the rightmost bit.
fn range(width: u8, low: u8, ascends: bool) -> (i32, i32)
    requires { 1 ≤ width }
    ensures { spans width (distance_of result.0 result.1 result.0) ≡ true }
{
    let low = i32::from(low);
    let high = low + i32::from(width) - 1;
    if ascends { (low, high) } else { (high, low) }
}

fn word(width: u8, value: u128) -> Result<Bits, Fail> {
    Ok(Bits::new(width, value).ok_or("no such word")?)
}

fn name(alloc: Global, text: &[u8]) -> Result<Name, Fail> {
    Ok(Name::new(alloc, text)?.ok_or("no name")?)
}

/// The names, in the table's order, and then that of the array.
pub fn names(alloc: Global) -> Result<Vec<Name>, Fail> {
    let mut names = Vec::new(alloc);
    for declared in &DECLARED {
        names.push(name(alloc, declared.0)?)?;
    }
    names.push(name(alloc, b"mem")?)?;
    Ok(names)
}

fn parameter(declared: &Declared) -> Result<Meaning, Fail>
    ensures { IfOk result IsMeaning }
{
    let (_, (width, value), signed, (low, ascends)) = *declared;
    let bits = word(width, value)?;
    let (left, right) = range(bits.width(), low, ascends);
    let value = Const { bits, signed };
    Ok(Meaning::Constant { value, left, right })
}

/// All names but the array's as parameters.
pub fn parameters<'a>(alloc: Global, names: &'a [Name]) -> Result<Scope<'a>, Fail> {
    let mut scope = Scope::new(alloc);
    for (name, declared) in names.iter().zip(&DECLARED) {
        let _ = scope.add(name, parameter(declared)?)?;
    }
    Ok(scope)
}

fn signal(number: u32, declared: &Declared) -> Result<Meaning, Fail>
    ensures { IfOk result IsMeaning }
{
    let (_, (width, value), signed, (low, ascends)) = *declared;
    let width = word(width, value)?.width();
    let (left, right) = range(width, low, ascends);
    Ok(Meaning::Signal {
        signal: number,
        width,
        signed,
        left,
        right,
    })
}

/// The words of the array are the signals behind those of the other names.
fn array() -> Meaning
    ensures { IsMeaning result }
{
    Meaning::Array {
        first: 9,
        count: 6,
        low: 7,
        width: 8,
        signed: true,
        left: 7,
        right: 0,
    }
}

/// All names as signals, numbered in the table's order.
pub fn signals<'a>(alloc: Global, names: &'a [Name]) -> Result<Scope<'a>, Fail> {
    let mut scope = Scope::new(alloc);
    let mut number = 0u32;
    for (name, declared) in names.iter().zip(&DECLARED) {
        let _ = scope.add(name, signal(number, declared)?)?;
        number = number.wrapping_add(1);
    }
    if let Some(name) = names.get(DECLARED.len()) {
        let _ = scope.add(name, array())?;
    }
    Ok(scope)
}

/// A register that begins with its word.
fn register(alloc: Global, declared: &Declared) -> Result<Signal, Fail> {
    let (path, (width, value), signed, (low, ascends)) = *declared;
    let start = word(width, value)?;
    let (left, right) = range(start.width(), low, ascends);
    Ok(Signal {
        path: name(alloc, path)?,
        width,
        signed,
        left,
        right,
        kind: SignalKind::Reg,
        start,
    })
}

/// The signals that the names as signals stand for: registers that begin with their words.
pub fn registers(alloc: Global) -> Result<Vec<Signal>, Fail> {
    let mut signals = Vec::new(alloc);
    for declared in &DECLARED {
        signals.push(register(alloc, declared)?)?;
    }
    for value in WORDS {
        let word: Declared = (b"mem", (8, value), true, (0, false));
        signals.push(register(alloc, &word)?)?;
    }
    Ok(signals)
}
