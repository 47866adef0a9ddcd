//! The words behind the code of a line that says what of a list fails.
ghost use Rattle.std.specs.Prelude.{◌≡◌, ◌++◌, OnOk};
ghost use Rattle.load_texts.specs.Dumps.{port_name};
ghost use Rattle.list_session.specs.Words.{miss_words, number_word, output_name, pair_words};

use cycle_sim::Miss;
use design_core::Design;
use loc_base::NoMemory;
use printed_text::{push_bytes, push_number};

/// Appends a space and a number.
pub fn push_word(text: &mut Vec<u8>, number: u64) -> Result<(), NoMemory>
    ensures { OnOk result (text.new.items ≡ text.old.items ++ number_word number) }
{
    push_bytes(text, b" ")?;
    push_number(text, number)
}

/// Appends two numbers, each after a space.
pub fn push_pair(text: &mut Vec<u8>, one: u32, other: u32) -> Result<(), NoMemory>
    ensures { OnOk result (text.new.items ≡ text.old.items ++ pair_words one other) }
{
    push_word(text, u64::from(one))?;
    push_word(text, u64::from(other))
}

/// Appends the name of the output of a number.
fn push_output(text: &mut Vec<u8>, design: &Design, number: u32) -> Result<(), NoMemory>
    ensures { OnOk result (text.new.items ≡ text.old.items ++ output_name design.now number) }
{
    match design.outputs.get(number as usize) {
        Some(output) => push_signal(text, design, *output),
        None => Ok(()),
    }
}

/// Appends the name of a signal.
fn push_signal(text: &mut Vec<u8>, design: &Design, number: u32) -> Result<(), NoMemory>
    ensures { OnOk result (text.new.items ≡ text.old.items ++ port_name design.now.signals.items number) }
{
    match design.signals.get(number as usize) {
        Some(signal) => push_bytes(text, signal.path.as_bytes()),
        None => Ok(()),
    }
}

/// Appends where an output isn't as expected: its trace from 1, its cycle from 0, its name.
pub fn push_miss(text: &mut Vec<u8>, design: &Design, miss: Miss) -> Result<(), NoMemory>
    ensures { OnOk result (text.new.items ≡ text.old.items ++ miss_words design.now miss) }
{
    push_word(text, u64::from(miss.trace) + 1)?;
    push_word(text, u64::from(miss.cycle))?;
    push_bytes(text, b" ")?;
    push_output(text, design, miss.output)
}
