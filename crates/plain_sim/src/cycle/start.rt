ghost use Rattle.std.specs.Prelude.{◌≡◌, IfOk, map};
ghost use Rattle.design_core.specs.Words.{valuation_of, AreWordsOf};
ghost use Rattle.design_core.specs.Constant.{zeros};
ghost use Rattle.design_core.specs.Run.{start_state};
ghost use Rattle.design_core.specs.Given.{CanRun};

use crate::cycle::copies::zeros_like;
use crate::cycle::region::Region;
use crate::cycle::take::take;
use design_core::Design;
use loc_base::{Bits, NoMemory};
use std::alloc::Global;

/// The start value of each signal.
fn starts(alloc: Global, design: &Design) -> Result<Vec<Bits>, NoMemory>
    requires design { CanRun design.now }
    ensures words { IfOk result (λ words. AreWordsOf design.now.signals.items words.items) }
    ensures value { IfOk result (λ words. words.items ≡ map (λ signal. signal.start) design.now.signals.items) }
{
    let mut words = Vec::new(alloc);
    for signal in &design.signals {
        words.push(signal.start)?;
    }
    Ok(words)
}

/// Puts the start values of the registers into words that are 0.
fn begin_state(design: &Design, starts: &[Bits], state: &mut [Bits])
    requires starts { AreWordsOf design.now.signals.items starts.now }
    requires values { starts.now ≡ map (λ signal. signal.start) design.now.signals.items }
    requires state { AreWordsOf design.now.signals.items state.old }
    requires zeros { valuation_of state.old ≡ zeros }
    ensures words { AreWordsOf design.now.signals.items state.new }
    ensures value { valuation_of state.new ≡ start_state design.now }
{
    take(design, &[], Region::Registers, state, starts);
}

/// The state before the first cycle: each register has its start value.
pub fn start_words(alloc: Global, design: &Design) -> Result<Vec<Bits>, NoMemory>
    requires design { CanRun design.now }
    ensures words { IfOk result (λ state. AreWordsOf design.now.signals.items state.items) }
    ensures value { IfOk result (λ state. valuation_of state.items ≡ start_state design.now) }
{
    let starts = starts(alloc, design)?;
    let mut state = zeros_like(alloc, design, &starts)?;
    begin_state(design, &starts, &mut state);
    Ok(state)
}
