//! The whole text of a wave.
ghost use Rattle.std.specs.Prelude.{◌≡◌, IfOk};
ghost use Rattle.vcd_words.specs.Lines.{text_of};
ghost use Rattle.vcd_waves.specs.Lines.{wave_lines, HasRows};
ghost use Rattle.vcd_waves.specs.ReadBack.{IsReadable, HoldsTrace};

use crate::cycles::write_cycles;
use crate::header::write_header;
use crate::variable::{Kind, listed, port_variables};
use crate::wave::Wave;
use loc_base::{Bytes, NoMemory};
use std::alloc::Global;

/// The text of a wave (IEEE 1364-2005, 18.2): a header with the top's ports in port order and, in a scope of their own,
/// the freed places; then the values of each cycle. With a clock, cycle t has the time 10t, at which the clock is 0, and
/// it rises at 10t + 5; without one it has the time t.
#[tactic(auto, using(crate::proofs::LineSteps::line_steps, crate::proofs::RoundTrip::round_laws))]
pub fn wave_text(alloc: Global, wave: &Wave<'_>) -> Result<Bytes, NoMemory>
    requires { HasRows wave.now }
    ensures text { IfOk result (λ text. text ≡ text_of (wave_lines wave.now)) }
    ensures reads_back { IsReadable wave.now → IfOk result (λ text. HoldsTrace wave.now text) }
{
    let mut variables = port_variables(alloc, wave)?;
    let freed = listed(alloc, wave.design, Kind::Freed, wave.places)?;
    let mut text = Bytes::new(alloc);
    write_header(&mut text, wave, &variables, &freed)?;
    variables.extend_from_slice(&freed)?;
    write_cycles(&mut text, wave, &variables)?;
    Ok(text)
}
