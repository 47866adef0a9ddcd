//! The ports of the top (IEEE 1364-2005, 12.1.1 and 12.3).
ghost use Rattle.std.specs.Prelude.{◌≡◌, map, option_map, IfOk};
ghost use Rattle.v_binding.specs.Binding.{clock_among, clock_of, top_roots, is_the_clock, inputs_of, outputs_of};
ghost use Rattle.bind_scopes.specs.Views.{socket_of};

use crate::Socket;
use loc_base::{Items, Name, NoMemory};
use std::alloc::Global;
use v_binding::Root;

/// The number of the input of one bit with a name.
fn clock_among(name: &Name, ports: &[Socket<'_>]) -> Option<u32>
    ensures { result ≡ clock_among name.now (map socket_of ports.now) }
{
    for port in ports {
        if port.input && port.width == 1 && port.name.as_bytes() == name.as_bytes() {
            return Some(port.signal);
        }
    }
    None
}

/// The number of the clock, where one is named that is an input of one bit.
pub fn clock_of(clock: Option<&Name>, ports: &[Socket<'_>]) -> Option<u32>
    ensures { result ≡ clock_of (option_map (λ n. n.now) clock.entry) (map socket_of ports.now) }
{
    match clock {
        Some(name) => clock_among(name, ports),
        None => None,
    }
}

/// Each input of one bit, connected to itself.
pub fn top_roots(alloc: Global, ports: &[Socket<'_>]) -> Result<Items<Root>, NoMemory>
    ensures { IfOk result (λ roots. roots ≡ top_roots (map socket_of ports.now)) }
{
    let mut roots = Items::new(alloc);
    for port in ports {
        if port.input && port.width == 1 {
            roots.push(Root::new(port.signal, port.signal))?;
        }
    }
    Ok(roots)
}

/// Whether a signal is the clock.
fn is_the_clock(clock: Option<u32>, signal: u32) -> bool
    ensures { result ≡ is_the_clock clock signal }
{
    match clock {
        Some(number) => number == signal,
        None => false,
    }
}

/// The inputs without the clock, in the order of the ports.
pub fn inputs_of(
    alloc: Global,
    clock: Option<u32>,
    ports: &[Socket<'_>],
) -> Result<Items<u32>, NoMemory>
    ensures { IfOk result (λ inputs. inputs ≡ inputs_of clock (map socket_of ports.now)) }
{
    let mut inputs = Items::new(alloc);
    for port in ports {
        if port.input && !is_the_clock(clock, port.signal) {
            inputs.push(port.signal)?;
        }
    }
    Ok(inputs)
}

/// The outputs, in the order of the ports.
pub fn outputs_of(alloc: Global, ports: &[Socket<'_>]) -> Result<Items<u32>, NoMemory>
    ensures { IfOk result (λ outputs. outputs ≡ outputs_of (map socket_of ports.now)) }
{
    let mut outputs = Items::new(alloc);
    for port in ports {
        if !port.input {
            outputs.push(port.signal)?;
        }
    }
    Ok(outputs)
}
