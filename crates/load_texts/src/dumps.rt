//! What is printed where the text of a dump holds no trace.
ghost use Rattle.std.specs.Prelude.{◌≡◌, ◌++◌, ◌⊎◌, IfOk, OnOk, codes, decimal};
ghost use Rattle.printed_text.specs.Numerals.{newline};
ghost use Rattle.command_contract.specs.Contract.{IsInputRefusal};
ghost use Rattle.load_texts.specs.Dumps.{dump_line, dump_status as says_status, port_name, trace_line};

use crate::faults::TraceName;
use design_core::Signal;
use loc_base::NoMemory;
use printed_text::{push_bytes, push_number};
use std::alloc::Global;
use vcd_traces::VcdErr;

/// Appends `input CODE TRACE`.
fn push_head(text: &mut Vec<u8>, code: &str, trace: u32) -> Result<(), NoMemory>
    ensures { OnOk result (text.new.items ≡ text.old.items ++ codes "input " ++ code.now ++ codes " " ++ decimal trace) }
{
    push_bytes(text, b"input ")?;
    push_bytes(text, code.as_bytes())?;
    push_bytes(text, b" ")?;
    push_number(text, u64::from(trace))
}

/// Appends a space and a number.
fn push_after(text: &mut Vec<u8>, number: u64) -> Result<(), NoMemory>
    ensures { OnOk result (text.new.items ≡ text.old.items ++ codes " " ++ decimal number) }
{
    push_bytes(text, b" ")?;
    push_number(text, number)
}

/// Appends a space and the name of a port, by the number of its signal.
fn push_port(text: &mut Vec<u8>, signals: &[Signal], port: u32) -> Result<(), NoMemory>
    ensures { OnOk result (text.new.items ≡ text.old.items ++ codes " " ++ port_name signals.now port) }
{
    push_bytes(text, b" ")?;
    match signals.get(port as usize) {
        Some(signal) => push_bytes(text, signal.path.as_bytes()),
        None => Ok(()),
    }
}

/// Appends the line of a fault without the end of the line.
fn push_named(
    text: &mut Vec<u8>,
    signals: &[Signal],
    trace: u32,
    fault: VcdErr,
) -> Result<(), NoMemory>
    ensures { OnOk result (text.new.items ++ newline ≡ text.old.items ++ dump_line signals.now trace fault) }
{
    match fault {
        VcdErr::Syntax { offset } => {
            push_head(text, "T1", trace)?;
            push_after(text, offset as u64)
        }
        VcdErr::MissingPort => push_head(text, "T2", trace),
        VcdErr::PortWidth { port } => {
            push_head(text, "T3", trace)?;
            push_port(text, signals, port)
        }
        VcdErr::NoCycle => push_head(text, "T4", trace),
        VcdErr::UnknownInput { cycle, port } => {
            push_head(text, "T5", trace)?;
            push_after(text, u64::from(cycle))?;
            push_port(text, signals, port)
        }
        VcdErr::Cycles => push_bytes(text, b"limit Z3"),
        VcdErr::NoMemory => push_bytes(text, b"memory"),
    }
}

/// The line for a dump that holds no trace.
pub(crate) fn dump_text(
    alloc: Global,
    source: &TraceName,
    fault: VcdErr,
) -> Result<Vec<u8>, NoMemory>
    ensures { IfOk result (λ text. text.items ≡ dump_line source.now.signals.now source.now.number fault) }
{
    let mut text = Vec::new(alloc);
    push_named(&mut text, source.signals, source.number, fault)?;
    push_bytes(&mut text, b"\n")?;
    Ok(text)
}

/// The status of the program.
pub(crate) fn dump_status(fault: VcdErr) -> u8
    ensures status { result ≡ says_status fault }
    ensures ends { IsInputRefusal result ⊎ (result ≡ 7) }
{
    match fault {
        VcdErr::Cycles => 4,
        VcdErr::NoMemory => 7,
        _ => 3,
    }
}
