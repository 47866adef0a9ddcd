//! The text of the made design.
ghost use Rattle.std.specs.Prelude.{◌≡◌, ◌≤◌, ◌<◌, ◌^◌, ◌++◌, IfOk, OnOk};
ghost use Rattle.made_input.specs.Made.{block_text, constant_text, design_text, more_registers, outputs_text, ports_text};
ghost use Rattle.made_input.specs.Made.{range_text, register, registers_text};
ghost use Rattle.made_input.specs.Made.{sign, stage_line, stage_lines};

use crate::numbers::{constant, stages, width, write_number, wrong_stage};
use loc_base::{Bytes, NoMemory};
use std::alloc::Global;

/// Appends the range of all values.
#[tactic(auto, using(crate::proofs::Pieces::pieces))]
fn write_range(text: &mut Bytes, number: u32) -> Result<(), NoMemory>
    ensures { OnOk result (text.new ≡ text.old ++ range_text number) }
{
    text.append(b"[")?;
    write_number(text, u32::from(width(number)) - 1)?;
    text.append(b":0]")?;
    Ok(())
}

/// Appends the name of the register of a stage.
#[tactic(auto, using(crate::proofs::Pieces::pieces))]
fn write_register(text: &mut Bytes, stage: u32) -> Result<(), NoMemory>
    ensures { OnOk result (text.new ≡ text.old ++ register stage) }
{
    text.append(b"r")?;
    write_number(text, stage)?;
    Ok(())
}

/// Appends the names of so many registers behind the first.
#[tactic(auto, using(crate::proofs::Pieces::register_steps))]
fn write_more_registers(text: &mut Bytes, count: u32) -> Result<(), NoMemory>
    requires { count < 2 ^ 16 }
    ensures { OnOk result (text.new ≡ text.old ++ more_registers count) }
{
    for done in 0..count {
        text.append(b", ")?;
        write_register(text, done + 2)?;
    }
    Ok(())
}

/// Appends the sign of a stage.
fn write_sign(text: &mut Bytes, number: u32, stage: u32) -> Result<(), NoMemory>
    ensures { OnOk result (text.new ≡ text.old ++ sign number stage) }
{
    if stage == wrong_stage(number) {
        text.append(b" - ")
    } else {
        text.append(b" + ")
    }
}

/// Appends what a stage adds: a constant of the width of all values.
#[tactic(auto, using(crate::proofs::Pieces::pieces))]
fn write_constant(text: &mut Bytes, number: u32, stage: u32) -> Result<(), NoMemory>
    requires { stage < 2 ^ 16 }
    ensures { OnOk result (text.new ≡ text.old ++ constant_text number stage) }
{
    write_number(text, u32::from(width(number)))?;
    text.append(b"'d")?;
    write_number(text, constant(stage))?;
    Ok(())
}

/// Appends the line of a stage behind the first.
#[tactic(auto, using(crate::proofs::Pieces::pieces))]
fn write_stage(text: &mut Bytes, number: u32, stage: u32) -> Result<(), NoMemory>
    requires least { 1 ≤ stage }
    requires most { stage < 2 ^ 16 }
    ensures { OnOk result (text.new ≡ text.old ++ stage_line number stage) }
{
    write_register(text, stage)?;
    text.append(b" <= ")?;
    write_register(text, stage - 1)?;
    write_sign(text, number, stage)?;
    write_constant(text, number, stage)?;
    text.append(b";\n")?;
    Ok(())
}

/// Appends the lines of so many stages behind the first.
#[tactic(auto, using(crate::proofs::Pieces::stage_steps))]
fn write_stages(text: &mut Bytes, number: u32, count: u32) -> Result<(), NoMemory>
    requires { count < 2 ^ 15 }
    ensures { OnOk result (text.new ≡ text.old ++ stage_lines number count) }
{
    for done in 0..count {
        write_stage(text, number, done + 2)?;
    }
    Ok(())
}

/// Appends the module's head.
#[tactic(auto, using(crate::proofs::Pieces::pieces))]
fn write_ports(text: &mut Bytes, number: u32) -> Result<(), NoMemory>
    ensures { OnOk result (text.new ≡ text.old ++ ports_text number) }
{
    text.append(b"module made(clk, a, b, y, z);\ninput clk;\ninput ")?;
    write_range(text, number)?;
    text.append(b" a, b;\noutput ")?;
    write_range(text, number)?;
    text.append(b" y, z;\n")?;
    Ok(())
}

/// Appends the names of all registers, with their range.
#[tactic(auto, using(crate::proofs::Pieces::pieces))]
fn write_registers(text: &mut Bytes, number: u32) -> Result<(), NoMemory>
    ensures { OnOk result (text.new ≡ text.old ++ registers_text number) }
{
    text.append(b"reg ")?;
    write_range(text, number)?;
    text.append(b" r1")?;
    write_more_registers(text, stages(number) - 1)?;
    text.append(b";\n")?;
    Ok(())
}

/// Appends the assignments of the outputs.
#[tactic(auto, using(crate::proofs::Pieces::pieces))]
fn write_outputs(text: &mut Bytes, number: u32) -> Result<(), NoMemory>
    ensures { OnOk result (text.new ≡ text.old ++ outputs_text number) }
{
    text.append(b"assign z = a ^ b;\nassign y = ")?;
    write_register(text, stages(number))?;
    text.append(b";\n")?;
    Ok(())
}

/// Appends the block of the clock.
#[tactic(auto, using(crate::proofs::Pieces::pieces))]
fn write_block(text: &mut Bytes, number: u32) -> Result<(), NoMemory>
    ensures { OnOk result (text.new ≡ text.old ++ block_text number) }
{
    text.append(b"always @(posedge clk) begin\nr1 <= a + b;\n")?;
    write_stages(text, number, stages(number) - 1)?;
    text.append(b"end\nendmodule\n")?;
    Ok(())
}

/// The text of the made design of a number: a chain of registers, of which one stage subtracts where it should add.
#[tactic(auto, using(crate::proofs::Pieces::pieces))]
pub fn design_text(alloc: Global, number: u32) -> Result<Bytes, NoMemory>
    ensures { IfOk result (λ text. text ≡ design_text number) }
{
    let mut text = Bytes::new(alloc);
    write_ports(&mut text, number)?;
    write_registers(&mut text, number)?;
    write_outputs(&mut text, number)?;
    write_block(&mut text, number)?;
    Ok(text)
}
