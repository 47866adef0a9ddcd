//! The cycles of a trace, taken stamp by stamp.
ghost use Rattle.std.specs.Prelude.{◌≡◌, ℕ, List, IsTrue, OnOk};
ghost use Rattle.vcd_reading.specs.Events.{Event};
ghost use Rattle.vcd_traces.specs.Samples.{Watches, needed};
ghost use Rattle.vcd_traces.specs.Kept.{AreKept};
ghost use Rattle.vcd_traces.specs.Finish.{Finishes};
ghost use Rattle.std.specs.List.{list_all};
ghost use Rattle.vcd_traces.specs.Moment.{has_width};
ghost use Rattle.vcd_traces.specs.Rows.{pushed, with_samples, rows_of, no_rows, kept_row};

use crate::moment::{Moment, Watch};
use design_core::Trace;
use loc_base::NoMemory;
use std::alloc::Global;
use vcd_reading::VcdErr;

/// How many cycles a trace may have.
pub const MOST_CYCLES: u32 = 100_000;

/// An input that has an unknown bit in a cycle: the number of its signal.
#[derive(Clone, Copy)]
pub struct Unknown {
    pub cycle: u32,
    pub signal: u32,
}

/// The cycles so far, up to the first with an unknown input, of which the count goes up to one more than a trace may
/// have.
#[derive(Drop)]
pub struct Rows {
    pub trace: Trace,
    pub unknown: Option<Unknown>,
}

/// The ports that are sampled: the cell of the clock, if there is one, the inputs and outputs, and whether unknown bits of
/// inputs are read as 0.
#[derive(Drop)]
pub struct Watched {
    pub clock: Option<usize>,
    pub inputs: Vec<Watch>,
    pub outputs: Vec<Watch>,
    pub zero_inputs: bool,
}

impl Watched {
    /// The inputs whose bits must be known.
    fn needed(&self) -> &[Watch]
        requires { IsTrue (list_all has_width self.now.inputs.items) }
        ensures needed { result.now ≡ needed self.now.zero_inputs self.now.inputs.items }
        ensures widths { IsTrue (list_all has_width result.now) }
    {
        if self.zero_inputs {
            &[]
        } else {
            self.inputs.as_slice()
        }
    }
}

impl Rows {
    /// No cycle. It takes no memory.
    pub fn new(alloc: Global) -> Rows
        ensures { rows_of result ≡ no_rows }
    {
        Rows {
            trace: Trace {
                cycles: 0,
                inputs: Vec::new(alloc),
                expected: Vec::new(alloc),
            },
            unknown: None,
        }
    }

    /// The samples of one more cycle.
    fn push_row(&mut self, moment: &Moment<'_>, watched: &Watched) -> Result<(), NoMemory>
        requires inputs { IsTrue (list_all has_width watched.now.inputs.items) }
        requires outputs { IsTrue (list_all has_width watched.now.outputs.items) }
        ensures { OnOk result (rows_of self.new ≡ with_samples (rows_of self.old) (kept_row moment.now watched.now)) }
    {
        moment.push_samples(watched.inputs.as_slice(), &mut self.trace.inputs)?;
        moment.push_expected(watched.outputs.as_slice(), &mut self.trace.expected)?;
        Ok(())
    }

    /// One more cycle.
    pub fn push(&mut self, moment: &Moment<'_>, watched: &Watched) -> Result<(), NoMemory>
        requires inputs { IsTrue (list_all has_width watched.now.inputs.items) }
        requires outputs { IsTrue (list_all has_width watched.now.outputs.items) }
        ensures { OnOk result (rows_of self.new ≡ pushed (rows_of self.old) (kept_row moment.now watched.now)) }
    {
        let cycle = self.trace.cycles;
        if MOST_CYCLES < cycle {
            return Ok(());
        }
        self.trace.cycles = cycle + 1;
        if self.unknown.is_some() || cycle == MOST_CYCLES {
            return Ok(());
        }
        match moment.unknown_in(watched.needed()) {
            None => self.push_row(moment, watched),
            Some(signal) => {
                self.unknown = Some(Unknown { cycle, signal });
                Ok(())
            }
        }
    }

    /// The trace of the cycles that are kept, at a text's end.
    #[tactic(auto, using(crate::proofs::FinishLaws::finish_steps))]
    pub fn finish(self) -> Result<Trace, VcdErr>
        ensures { (w : Watches) (events : List Event) (times : List ℕ) → AreKept w events times (rows_of self) → Finishes w events times result }
    {
        let cycles = self.trace.cycles;
        if cycles == 0 {
            return Err(VcdErr::NoCycle);
        }
        if MOST_CYCLES < cycles {
            return Err(VcdErr::Cycles);
        }
        match self.unknown {
            Some(unknown) => Err(VcdErr::UnknownInput {
                cycle: unknown.cycle,
                port: unknown.signal,
            }),
            None => Ok(self.trace),
        }
    }
}
