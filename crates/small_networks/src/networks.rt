//! Networks, as texts of Verilog.
ghost use Rattle.std.specs.Prelude.{◌≡◌, IfOk, not, is_some};
ghost use Rattle.std.specs.List.{list_all};
ghost use Rattle.design_core.specs.Drives.{is_reg};
ghost use Rattle.front_end.specs.Means.{IsReady};
ghost use Rattle.plain_list.specs.Assignments.{is_whole};
ghost use Rattle.plain_list.specs.Network.{IsNetwork, whole_of};

use crate::error::NetworkErr;
use crate::letters::name;
use design_core::{Driver, Part, Signal, SignalKind};
use front_end::{Format, FrontEnd, Ordered, ReadBy};
use plain_list::laws::is_network;
use std::alloc::Global;
use verilog_front_end::Verilog;

/// An inverted OR, by a net between.
pub const OR_NOT: &[u8] =
    b"module m(input a, input b, output y);\nwire n;\nassign n = a | b;\nassign y = ~n;\nendmodule\n";

/// Two outputs, each a copy of an input.
pub const TWO_COPIES: &[u8] =
    b"module m(input a, input b, output x, output y);\nassign x = a;\nassign y = b;\nendmodule\n";

/// A net that goes to two outputs.
pub const FAN_OUT: &[u8] =
    b"module m(input a, input b, output y, output x);\nwire n;\nassign n = a;\nassign y = n | b;\nassign x = n;\nendmodule\n";

/// The design of a text whose top is `m`, without a clock.
fn read(alloc: Global, text: &[u8]) -> Result<Ordered, NetworkErr>
    ensures { IfOk result (λ o. IsReady o.design o.order) }
{
    let top = name(alloc, "m")?;
    let by = ReadBy {
        format: Format::Verilog,
        top: &top,
        clock: None,
    };
    match Verilog.read(alloc, text, &by) {
        Ok(ordered) => Ok(ordered),
        Err(_) => Err(NetworkErr::Unfit),
    }
}

fn is_one_net(parts: &[Part]) -> bool
    ensures { result ≡ is_some (whole_of parts.now) }
{
    match parts {
        [Part::Whole(_signal)] => true,
        _ => false,
    }
}

fn is_whole(driver: &Driver) -> bool
    ensures { result ≡ is_whole driver.now }
{
    match driver {
        Driver::Cont { target, .. } => is_one_net(target.parts.as_slice()),
        Driver::Comb { .. } => false,
    }
}

fn are_whole(drivers: &[Driver]) -> bool
    ensures { result ≡ list_all is_whole drivers.now }
{
    for driver in drivers {
        if !is_whole(driver) {
            return false;
        }
    }
    true
}

fn has_no_registers(signals: &[Signal]) -> bool
    ensures { result ≡ list_all (λ signal. not (is_reg signal.kind)) signals.now }
{
    for signal in signals {
        if signal.kind == SignalKind::Reg {
            return false;
        }
    }
    true
}

/// The network that a text means, its top being the module `m`, with the order of its drivers.
pub fn network(alloc: Global, text: &[u8]) -> Result<Ordered, NetworkErr>
    ensures ready { IfOk result (λ o. IsReady o.design o.order) }
    ensures network { IfOk result (λ o. IsNetwork o.design o.order) }
{
    let ordered = read(alloc, text)?;
    let design = &ordered.design;
    if !are_whole(&design.drivers)
        || !design.clocked.is_empty()
        || !has_no_registers(&design.signals)
    {
        return Err(NetworkErr::Unfit);
    }
    is_network(design, ordered.order.as_slice());
    Ok(ordered)
}
