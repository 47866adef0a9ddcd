//! The outputs of a cycle, every bit of them known.
ghost use Rattle.std.specs.Prelude.{◌≡◌, ◌-◌, ◌^◌, ◌++◌, All, OnOk, length, map, ◌<◌};
ghost use Rattle.loc_base.specs.Bits.{value_of, width_of};
ghost use Rattle.cycle_sim.specs.Simulator.{IsSim, held_by};
ghost use Rattle.vcd_waves.specs.Lines.{expected};
ghost use Rattle.set_waves.specs.Scenes.{given};
ghost use Rattle.set_waves.specs.Making.{all_known};

use cycle_sim::Sim;
use design_core::{Checked, Design};
use loc_base::{Bits, NoMemory};

/// A word of which every bit is known.
fn all_known(word: Bits) -> Checked
    ensures { expected result ≡ all_known word }
{
    Checked {
        value: word,
        mask: Bits::zero(word.width()).not(),
    }
}

/// Appends the outputs of the cycle that was made, in the order of the design's outputs.
pub(crate) fn push_outputs(
    entries: &mut Vec<Checked>,
    design: &Design,
    sim: &Sim,
) -> Result<(), NoMemory>
    requires sim { IsSim sim.now }
    requires design { (held_by sim.now).design ≡ design.now }
    requires outputs { All (λ s. s < length design.now.signals.items) design.now.outputs.items }
    ensures { OnOk result (map expected entries.new.items
        ≡ map expected entries.old.items ++ map (given design.now (held_by sim.now).values) design.now.outputs.items) }
{
    for output in &design.outputs {
        entries.push(all_known(sim.value(*output)))?;
    }
    Ok(())
}
