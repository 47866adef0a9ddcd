//! The variables of a wave: the ports of the top in port order, and the freed places.
ghost use Rattle.std.specs.Prelude.{◌≡◌, ◌<◌, ◌≤◌, ◌++◌, ◌∷◌, List, length, drop, slice_get, Some, IfOk};
ghost use Rattle.design_core.specs.Valuation.{width_at};
ghost use Rattle.vcd_waves.specs.Variables.{clock_of, place_width, clock_signal, width_in, listed, clock_variables, placed_among, merged, port_variables};

use crate::wave::Wave;
use design_core::{Design, Signal};
use loc_base::{Name, NoMemory};
use std::alloc::Global;

/// Which list of a wave a variable is of.
#[derive(Clone, Copy)]
pub enum Kind {
    Clock,
    Input,
    Output,
    Freed,
}

/// A variable of a wave.
#[derive(Clone, Copy)]
pub struct Variable {
    pub kind: Kind,
    /// Its place in the list of its kind.
    pub place: usize,
    /// The number of the port's signal, or that of the freed place.
    pub number: usize,
    pub width: u8,
}

/// The width of a signal.
fn signal_width(design: &Design, number: usize) -> u8
    ensures { result ≡ width_at design.now.signals.items number }
{
    match design.signals.get(number) {
        Some(signal) => signal.width,
        None => 0,
    }
}

/// The width of a place.
fn place_width(design: &Design, number: usize) -> u8
    ensures { result ≡ place_width design.now.places.items number }
{
    match design.places.get(number) {
        Some(place) => place.width,
        None => 0,
    }
}

/// The width of the variable of a number.
fn width_in(design: &Design, kind: Kind, number: usize) -> u8
    ensures { result ≡ width_in design.now kind number }
{
    match kind {
        Kind::Clock => 1,
        Kind::Input | Kind::Output => signal_width(design, number),
        Kind::Freed => place_width(design, number),
    }
}

/// The variables of a list of numbers.
#[tactic(auto, using(crate::proofs::ListSteps::list_steps))]
pub(crate) fn listed(
    alloc: Global,
    design: &Design,
    kind: Kind,
    numbers: &[u32],
) -> Result<Vec<Variable>, NoMemory>
    ensures { IfOk result (λ list. list.items ≡ listed design.now kind 0 numbers.now) }
{
    let mut list = Vec::new(alloc);
    for (place, number) in numbers.iter().enumerate() {
        let number = *number as usize;
        let width = width_in(design, kind, number);
        list.push(Variable {
            kind,
            place,
            number,
            width,
        })?;
    }
    Ok(list)
}

/// The number of the first signal of a name.
#[tactic(auto, using(crate::proofs::ListSteps::clock_steps))]
fn clock_signal(signals: &[Signal], name: &Name) -> usize
    ensures { result ≡ clock_signal signals.now name.now }
{
    for (number, signal) in signals.iter().enumerate() {
        if signal.path.as_bytes() == name.as_bytes() {
            return number;
        }
    }
    signals.len()
}

/// The variable of the clock, where there is one.
fn clock_variables(alloc: Global, wave: &Wave<'_>) -> Result<Vec<Variable>, NoMemory>
    ensures { IfOk result (λ list. list.items ≡ clock_variables wave.now.design.now (clock_of wave.now)) }
{
    let mut list = Vec::new(alloc);
    if let Some(name) = wave.clock {
        list.push(Variable {
            kind: Kind::Clock,
            place: 0,
            number: clock_signal(&wave.design.signals, name),
            width: 1,
        })?;
    }
    Ok(list)
}

/// The variable at a place.
pub(crate) fn variable_at(variables: &[Variable], place: usize) -> Variable
    requires { place < length variables.now }
    ensures { slice_get variables.now place ≡ Some result }
{
    variables[place]
}

/// Appends the variables from a place on that have a number below another's. Gives the place behind them.
#[tactic(auto, using(crate::proofs::ListSteps::list_steps))]
fn take_below(
    list: &mut Vec<Variable>,
    others: &[Variable],
    from: usize,
    variable: Variable,
) -> Result<usize, NoMemory>
    requires { from ≤ length others.now }
    ensures bound { IfOk result (λ next. next ≤ length others.now) }
    ensures taken { IfOk result (λ next. (behind : List Variable → List Variable)
        → list.old.items ++ placed_among variable behind (drop from others.now)
        ≡ list.new.items ++ variable ∷ behind (drop next others.now)) }
{
    for at in from..others.len() {
        let other = variable_at(others, at);
        if variable.number <= other.number {
            return Ok(at);
        }
        list.push(other)?;
    }
    Ok(others.len())
}

/// Two lists of variables as one, by their numbers.
#[tactic(auto, using(crate::proofs::ListSteps::list_steps))]
fn merged(
    alloc: Global,
    variables: &[Variable],
    others: &[Variable],
) -> Result<Vec<Variable>, NoMemory>
    ensures { IfOk result (λ list. list.items ≡ merged variables.now others.now) }
{
    let mut list = Vec::new(alloc);
    let mut taken = 0;
    for place in 0..variables.len() {
        let variable = variable_at(variables, place);
        taken = take_below(&mut list, others, taken, variable)?;
        list.push(variable)?;
    }
    list.extend_from_slice(&others[taken..])?;
    Ok(list)
}

/// The ports of the top in port order, the clock among them.
pub(crate) fn port_variables(alloc: Global, wave: &Wave<'_>) -> Result<Vec<Variable>, NoMemory>
    ensures { IfOk result (λ list. list.items ≡ port_variables wave.now.design.now (clock_of wave.now)) }
{
    let clock = clock_variables(alloc, wave)?;
    let inputs = listed(alloc, wave.design, Kind::Input, &wave.design.inputs)?;
    let outputs = listed(alloc, wave.design, Kind::Output, &wave.design.outputs)?;
    let others = merged(alloc, &inputs, &outputs)?;
    merged(alloc, &clock, &others)
}
