//! Names, words and traces, from letters.
ghost use Rattle.std.specs.Prelude.{All, IfOk};
ghost use Rattle.design_core.specs.TraceFits.{IsTraceOf};

use crate::error::NetworkErr;
use design_core::{Checked, Design, Trace};
use design_fits::is_trace_of;
use loc_base::{Bits, Name};
use std::alloc::Global;

/// The name that a text is.
pub fn name(alloc: Global, text: &str) -> Result<Name, NetworkErr> {
    match Name::new(alloc, text.as_bytes())? {
        Some(name) => Ok(name),
        None => Err(NetworkErr::Unfit),
    }
}

/// A word of one bit.
pub fn word(one: bool) -> Result<Bits, NetworkErr> {
    match Bits::new(1, one as u128) {
        Some(bits) => Ok(bits),
        None => Err(NetworkErr::Unfit),
    }
}

/// What is expected of an output of one bit, by `0`, `1`, or anything else where it is not checked.
pub fn checked(letter: u8) -> Result<Checked, NetworkErr> {
    Ok(Checked {
        value: word(letter == b'1')?,
        mask: word(letter == b'0' || letter == b'1')?,
    })
}

/// A trace by a text for each cycle: a letter for each input, then one for each output.
fn trace(alloc: Global, d: &Design, cycles: &[&str]) -> Result<Trace, NetworkErr>
    ensures { IfOk result (IsTraceOf d.now) }
{
    let mut trace = Trace {
        cycles: 0,
        inputs: Vec::new(alloc),
        expected: Vec::new(alloc),
    };
    for text in cycles {
        let letters = text.as_bytes();
        for i in 0..letters.len() {
            if i < d.inputs.len() {
                trace.inputs.push(word(letters[i] == b'1')?)?;
            } else {
                trace.expected.push(checked(letters[i])?)?;
            }
        }
        trace.cycles = trace.cycles.wrapping_add(1);
    }
    if !is_trace_of(d, &trace) {
        return Err(NetworkErr::Unfit);
    }
    Ok(trace)
}

/// The traces of a design whose signals have one bit each, each trace by its cycles: a letter for each input, then one for each output,
/// `x` where it isn't checked.
pub fn traces(alloc: Global, d: &Design, texts: &[&[&str]]) -> Result<Vec<Trace>, NetworkErr>
    ensures { IfOk result (λ traces. All (IsTraceOf d.now) traces.items) }
{
    let mut traces = Vec::new(alloc);
    for cycles in texts {
        traces.push(trace(alloc, d, *cycles)?)?;
    }
    Ok(traces)
}
