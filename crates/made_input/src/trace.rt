//! The text of the made trace: a wave (IEEE 1364-2005, 18.2).
ghost use Rattle.std.specs.Prelude.{◌≡◌, ◌+◌, ◌*◌, ◌≤◌, ◌≢◌, ◌<◌, ◌^◌, ◌++◌, IfOk, OnOk};
ghost use Rattle.loc_base.specs.Bits.{width_of, value_of};
ghost use Rattle.vcd_words.specs.Lines.{line_text, text_of};
ghost use Rattle.vcd_waves.specs.Lines.{change_line, time_line, variable_line};
ghost use Rattle.made_input.specs.Made.{cycle_lines, header_lines, lines_before, port_lines, trace_text, whole, width};

use crate::numbers::{cycles, stages, width, write_number};
use crate::values::{a_in, b_in, held, z_in};
use loc_base::{Bits, Bytes, NoMemory};
use std::alloc::Global;
use vcd_words::{write_code, write_digits};

/// Appends the line that declares a port.
#[tactic(auto, using(crate::proofs::Pieces::pieces))]
fn write_variable(text: &mut Bytes, code: u64, width: u8, name: &[u8]) -> Result<(), NoMemory>
    ensures { OnOk result (text.new ≡ text.old ++ line_text (variable_line code width name.now)) }
{
    text.append(b"$var wire ")?;
    write_number(text, u32::from(width))?;
    text.append(b" ")?;
    write_code(text, code)?;
    text.append(b" ")?;
    text.append(name)?;
    text.append(b" $end\n")?;
    Ok(())
}

/// Appends the header.
#[tactic(auto, using(crate::proofs::Pieces::pieces))]
fn write_header(text: &mut Bytes, number: u32) -> Result<(), NoMemory>
    ensures { OnOk result (text.new ≡ text.old ++ text_of (header_lines number)) }
{
    let width = width(number);
    text.append(b"$timescale 1ns $end\n$scope module made $end\n")?;
    write_variable(text, 0, 1, b"clk")?;
    write_variable(text, 1, width, b"a")?;
    write_variable(text, 2, width, b"b")?;
    write_variable(text, 3, width, b"y")?;
    write_variable(text, 4, width, b"z")?;
    text.append(b"$upscope $end\n$enddefinitions $end\n")?;
    Ok(())
}

/// Appends the line of a time.
#[tactic(auto, using(crate::proofs::Pieces::pieces))]
fn write_time(text: &mut Bytes, time: u32) -> Result<(), NoMemory>
    ensures { OnOk result (text.new ≡ text.old ++ line_text (time_line time)) }
{
    text.append(b"#")?;
    write_number(text, time)?;
    text.append(b"\n")?;
    Ok(())
}

/// Appends the change of a port of more than one bit.
#[tactic(auto, using(crate::proofs::Pieces::pieces))]
fn write_change(text: &mut Bytes, code: u64, value: Bits) -> Result<(), NoMemory>
    requires { 2 ≤ width_of value }
    ensures { OnOk result (text.new ≡ text.old ++ line_text (change_line code (whole (width_of value) (value_of value)))) }
{
    text.append(b"b")?;
    write_digits(text, value, u128::MAX)?;
    text.append(b" ")?;
    write_code(text, code)?;
    text.append(b"\n")?;
    Ok(())
}

/// Appends the changes of the ports in a cycle, but for the clock's.
#[tactic(auto, using(crate::proofs::Pieces::pieces))]
fn write_ports(text: &mut Bytes, number: u32, cycle: u32) -> Result<(), NoMemory>
    requires { cycle < 2 ^ 16 }
    ensures { OnOk result (text.new ≡ text.old ++ text_of (port_lines number cycle)) }
{
    write_change(text, 1, a_in(number, cycle))?;
    write_change(text, 2, b_in(number, cycle))?;
    write_change(text, 3, held(number, cycle, stages(number)))?;
    write_change(text, 4, z_in(number, cycle))?;
    Ok(())
}

/// Appends a cycle.
#[tactic(auto, using(crate::proofs::Pieces::pieces))]
fn write_cycle(text: &mut Bytes, number: u32, cycle: u32) -> Result<(), NoMemory>
    requires { cycle < 2 ^ 16 }
    ensures { OnOk result (text.new ≡ text.old ++ text_of (cycle_lines number cycle)) }
{
    write_time(text, 10 * cycle)?;
    text.append(b"0!\n")?;
    write_ports(text, number, cycle)?;
    write_time(text, 10 * cycle + 5)?;
    text.append(b"1!\n")?;
    Ok(())
}

/// Appends so many cycles.
#[tactic(auto, using(crate::proofs::Pieces::cycle_steps))]
fn write_cycles(text: &mut Bytes, number: u32, count: u32) -> Result<(), NoMemory>
    requires { count < 2 ^ 16 }
    ensures { OnOk result (text.new ≡ text.old ++ text_of (lines_before number count)) }
{
    for cycle in 0..count {
        write_cycle(text, number, cycle)?;
    }
    Ok(())
}

/// The text of the made trace of a number: the wave of the made design's ports, with the outputs that it has with no stage wrong.
#[tactic(auto, using(crate::proofs::Pieces::pieces))]
pub fn trace_text(alloc: Global, number: u32) -> Result<Bytes, NoMemory>
    ensures { IfOk result (λ text. text ≡ trace_text number) }
{
    let mut text = Bytes::new(alloc);
    write_header(&mut text, number)?;
    write_cycles(&mut text, number, cycles(number))?;
    Ok(text)
}
