//! The ports of a design's top, as a dump names them.
ghost use Rattle.std.specs.Prelude.{◌≡◌, ◌++◌, ◌<◌, ◌^◌, OnOk, IfOk, length, map};
ghost use Rattle.std.specs.List.{position_or_len};
ghost use Rattle.std.specs.Option.{option_copied, option_map};
ghost use Rattle.design_core.specs.Valuation.{width_at};
ghost use Rattle.design_core.specs.declared.signal.Signal.{Signal as TheSignal};
ghost use Rattle.vcd_reading.specs.Commands.{same_bytes};
ghost use Rattle.vcd_reading.specs.Scopes.{name_at, port_at, port_bit, clock_port, ports_of};
ghost use Rattle.vcd_reading.specs.PortView.{bit_of, port_of, ports_in};

use crate::bits::{BitName, bit_in};
use design_core::{Design, Signal};
use loc_base::{Name, NoMemory};
use std::alloc::Global;

/// A port: the number of its signal, its width, its name, and the bit of a variable that it may be.
#[derive(Clone, Copy)]
pub struct Port<'a> {
    pub signal: u32,
    pub width: u8,
    pub name: &'a [u8],
    pub bit: Option<BitName<'a>>,
}

/// What is looked for in a dump: the ports, and the path of the scope in which they are to stand, where one is named.
#[derive(Clone, Copy)]
pub struct Sought<'b, 'a> {
    pub scope: Option<&'b [u8]>,
    pub ports: &'b [Port<'a>],
}

/// The bit of a variable that a port of one bit may be, by its name.
fn port_bit(width: u8, name: &[u8]) -> Option<BitName<'_>>
    ensures { option_map bit_of result ≡ port_bit width name.now }
{
    if width == 1 { bit_in(name) } else { None }
}

/// The port of a signal.
fn port_at(design: &Design, signal: u32) -> Port<'_>
    ensures { port_of result ≡ port_at design.now signal }
{
    match design.signals.get(signal as usize) {
        None => Port {
            signal,
            width: 0,
            name: &[],
            bit: None,
        },
        Some(found) => Port {
            signal,
            width: found.width,
            name: found.path.as_bytes(),
            bit: port_bit(found.width, found.path.as_bytes()),
        },
    }
}

/// The number of the first signal of a name, and that of all signals where there is none.
#[tactic(auto, using(crate::proofs::PortSteps::signal_steps))]
fn signal_named(signals: &[Signal], name: &[u8]) -> u32
    requires { length signals.now < 2 ^ 32 }
    ensures { result ≡ position_or_len (λ (signal : TheSignal). same_bytes signal.path name.now) signals.now }
{
    for (i, signal) in signals.iter().enumerate() {
        if signal.path.as_bytes() == name {
            return i as u32;
        }
    }
    signals.len() as u32
}

/// The ports of some signals, behind others.
#[tactic(auto, using(crate::proofs::ListSteps::list_steps))]
fn push_ports<'a>(
    ports: &mut Vec<Port<'a>>,
    design: &'a Design,
    signals: &[u32],
) -> Result<(), NoMemory>
    ensures { OnOk result (map port_of ports.new.items ≡ map port_of ports.old.items ++ map (port_at design.now) signals.now) }
{
    for signal in signals {
        ports.push(port_at(design, *signal))?;
    }
    Ok(())
}

/// The port of the clock.
fn clock_port<'a>(design: &'a Design, name: &'a Name) -> Port<'a>
    requires { length design.now.signals.items < 2 ^ 32 }
    ensures { port_of result ≡ clock_port design.now name.now }
{
    Port {
        signal: signal_named(design.signals.as_slice(), name.as_bytes()),
        width: 1,
        name: name.as_bytes(),
        bit: None,
    }
}

/// The ports of a design: its inputs, its outputs, and the clock, if there is one.
pub fn top_ports<'a>(
    alloc: Global,
    design: &'a Design,
    clock: Option<&'a Name>,
) -> Result<Vec<Port<'a>>, NoMemory>
    requires { length design.now.signals.items < 2 ^ 32 }
    ensures { IfOk result (λ ports. map port_of ports.items ≡ ports_of design.now (option_copied clock.entry)) }
{
    let mut ports = Vec::new(alloc);
    push_ports(&mut ports, design, design.inputs.as_slice())?;
    push_ports(&mut ports, design, design.outputs.as_slice())?;
    if let Some(name) = clock {
        ports.push(clock_port(design, name))?;
    }
    Ok(ports)
}
