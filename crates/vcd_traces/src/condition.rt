//! The condition under which a design is sampled.
ghost use Rattle.std.specs.Prelude.{◌≡◌, ◌↔◌, IsTrue};
ghost use Rattle.std.specs.List.{list_all};
ghost use Rattle.vcd_traces.specs.Ports.{is_port as says_port, HasPorts, FormedHasPorts};

use design_core::Design;

/// Whether a number is that of a signal of 1 to 128 bits.
fn is_port(design: &Design, signal: u32) -> bool
    ensures { result ≡ says_port design.now signal }
{
    match design.signals.get(signal as usize) {
        None => false,
        Some(found) => 1 <= found.width && found.width <= 128,
    }
}

/// Whether numbers are those of signals of 1 to 128 bits.
fn are_ports(design: &Design, signals: &[u32]) -> bool
    ensures { result ≡ list_all (says_port design.now) signals.now }
{
    signals.iter().all(|signal| is_port(design, *signal))
}

/// Whether the inputs and outputs of a design are signals of 1 to 128 bits.
pub fn has_ports(design: &Design) -> bool
    ensures { IsTrue result ↔ HasPorts design.now }
{
    design.signals.as_slice().len() <= u32::MAX as usize
        && are_ports(design, design.inputs.as_slice())
        && are_ports(design, design.outputs.as_slice())
}

/// A well formed design has ports.
#[tactic(auto, using(crate::proofs::PortLaws::port_laws))]
pub fn formed_has_ports()
    ensures { FormedHasPorts }
{}
