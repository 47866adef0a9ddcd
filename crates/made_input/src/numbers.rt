//! The numbers of a made input, and how numbers are written.
ghost use Rattle.std.specs.Prelude.{◌≡◌, ◌≤◌, ◌<◌, ◌^◌, ◌++◌, OnOk, decimal};
ghost use Rattle.made_input.specs.Made.{constant, cycles, stages, width, wrong_stage};

use itoa::Buffer;
use loc_base::{Bytes, NoMemory};

/// The number of stages, 3 to 32.
pub(crate) fn stages(number: u32) -> u32
    ensures is { result ≡ stages number }
    ensures least { 3 ≤ result }
    ensures most { result ≤ 32 }
{
    3 + number % 30
}

/// The number of bits of each value, 8 to 32.
pub(crate) fn width(number: u32) -> u8
    ensures is { result ≡ width number }
    ensures least { 8 ≤ result }
    ensures most { result ≤ 32 }
{
    8 + (number % 25) as u8
}

/// The stage that is wrong.
pub(crate) fn wrong_stage(number: u32) -> u32
    ensures { result ≡ wrong_stage number }
{
    2 + number % (stages(number) - 1)
}

/// The number of cycles of the trace, 7 to 36.
pub(crate) fn cycles(number: u32) -> u32
    ensures is { result ≡ cycles number }
    ensures most { result ≤ 36 }
{
    stages(number) + 4
}

/// The number that a stage adds.
pub(crate) fn constant(stage: u32) -> u32
    requires { stage < 2 ^ 16 }
    ensures { result ≡ constant stage }
{
    2 * stage + 1
}

/// Appends a number in decimal.
pub(crate) fn write_number(text: &mut Bytes, number: u32) -> Result<(), NoMemory>
    ensures { OnOk result (text.new ≡ text.old ++ decimal number) }
{
    let mut buffer = Buffer::new();
    text.append(buffer.format(number).as_bytes())
}
