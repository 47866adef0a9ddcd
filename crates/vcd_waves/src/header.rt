//! The header of a wave (IEEE 1364-2005, 18.2.3).
ghost use Rattle.std.specs.Prelude.{◌≡◌, ◌+◌, ◌<◌, ◌^◌, ◌++◌, ◌∷◌, [], length, decimal, OnOk};
ghost use Rattle.vcd_words.specs.Lines.{line_text, text_of};
ghost use Rattle.vcd_waves.specs.Variables.{clock_of, name_at, name_of};
ghost use Rattle.vcd_waves.specs.Lines.{timescale_line, scope_line, upscope_line, end_line, variable_line, variable_lines, freed_lines, header_lines};

use crate::variable::{Kind, Variable, variable_at};
use crate::wave::Wave;
use design_core::Design;
use itoa::Buffer;
use loc_base::{Bytes, NoMemory};
use vcd_words::write_code;

/// Appends a number in decimal.
pub(crate) fn write_number(text: &mut Bytes, number: u64) -> Result<(), NoMemory>
    ensures { OnOk result (text.new ≡ text.old ++ decimal number) }
{
    let mut buffer = Buffer::new();
    text.append(buffer.format(number).as_bytes())
}

/// Appends the name of a signal.
fn write_signal_name(text: &mut Bytes, design: &Design, number: usize) -> Result<(), NoMemory>
    ensures { OnOk result (text.new ≡ text.old ++ name_at design.now.signals.items number) }
{
    match design.signals.get(number) {
        Some(signal) => text.append(signal.path.as_bytes()),
        None => Ok(()),
    }
}

/// Appends the name of a variable.
fn write_name(text: &mut Bytes, wave: &Wave<'_>, variable: Variable) -> Result<(), NoMemory>
    ensures { OnOk result (text.new ≡ text.old ++ name_of wave.now.design.now (clock_of wave.now) variable) }
{
    match variable.kind {
        Kind::Clock => match wave.clock {
            Some(name) => text.append(name.as_bytes()),
            None => Ok(()),
        },
        Kind::Input | Kind::Output => write_signal_name(text, wave.design, variable.number),
        Kind::Freed => {
            text.push(b'p')?;
            write_number(text, variable.number as u64)
        }
    }
}

/// Appends the line that opens a scope.
#[tactic(auto, using(crate::proofs::LineSteps::line_steps))]
fn write_scope(text: &mut Bytes, name: &[u8]) -> Result<(), NoMemory>
    ensures { OnOk result (text.new ≡ text.old ++ line_text (scope_line name.now)) }
{
    text.append(b"$scope module ")?;
    text.append(name)?;
    text.append(b" $end\n")?;
    Ok(())
}

/// Appends the line that declares a variable.
#[tactic(auto, using(crate::proofs::LineSteps::line_steps))]
fn write_variable(
    text: &mut Bytes,
    wave: &Wave<'_>,
    number: u64,
    variable: Variable,
) -> Result<(), NoMemory>
    ensures { OnOk result (text.new ≡ text.old
        ++ line_text (variable_line number variable.width (name_of wave.now.design.now (clock_of wave.now) variable))) }
{
    text.append(b"$var wire ")?;
    write_number(text, u64::from(variable.width))?;
    text.push(b' ')?;
    write_code(text, number)?;
    text.push(b' ')?;
    write_name(text, wave, variable)?;
    text.append(b" $end\n")?;
    Ok(())
}

/// Appends the lines that declare variables, counted on from a number.
#[tactic(auto, using(crate::proofs::LineSteps::variable_steps))]
fn write_variables(
    text: &mut Bytes,
    wave: &Wave<'_>,
    first: usize,
    variables: &[Variable],
) -> Result<(), NoMemory>
    requires { first + length variables.now < 2 ^ 64 }
    ensures { OnOk result (text.new ≡ text.old
        ++ text_of (variable_lines wave.now.design.now (clock_of wave.now) first variables.now)) }
{
    for place in 0..variables.len() {
        let variable = variable_at(variables, place);
        write_variable(text, wave, (first + place) as u64, variable)?;
    }
    Ok(())
}

/// Appends the scope of the freed places, where there are any.
fn write_freed(
    text: &mut Bytes,
    wave: &Wave<'_>,
    first: usize,
    freed: &[Variable],
) -> Result<(), NoMemory>
    requires { first + length freed.now < 2 ^ 64 }
    ensures { OnOk result (text.new ≡ text.old
        ++ text_of (freed_lines wave.now.design.now (clock_of wave.now) first freed.now)) }
{
    if freed.is_empty() {
        return Ok(());
    }
    write_scope(text, b"freed")?;
    write_variables(text, wave, first, freed)?;
    text.append(b"$upscope $end\n")?;
    Ok(())
}

/// Appends the header.
pub(crate) fn write_header(
    text: &mut Bytes,
    wave: &Wave<'_>,
    ports: &[Variable],
    freed: &[Variable],
) -> Result<(), NoMemory>
    requires { length ports.now + length freed.now < 2 ^ 64 }
    ensures { OnOk result (text.new ≡ text.old
        ++ text_of (header_lines wave.now.top.now wave.now.design.now (clock_of wave.now) ports.now freed.now)) }
{
    text.append(b"$timescale 1ns $end\n")?;
    write_scope(text, wave.top.as_bytes())?;
    write_variables(text, wave, 0, ports)?;
    write_freed(text, wave, ports.len(), freed)?;
    text.append(b"$upscope $end\n$enddefinitions $end\n")?;
    Ok(())
}
