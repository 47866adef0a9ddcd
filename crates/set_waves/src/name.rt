//! The names of waves.
ghost use Rattle.std.specs.Prelude.{◌≡◌, IfOk, string_bytes};
ghost use Rattle.set_waves.specs.Names.{wave_name};

use loc_base::NoMemory;
use std::alloc::Global;

/// The name of the wave of a set and a trace, by their numbers from 1: `P-S-T.vcd` for the prefix P.
pub fn wave_name(alloc: Global, prefix: &str, set: usize, trace: usize) -> Result<String, NoMemory>
    ensures { IfOk result (λ name. string_bytes name ≡ wave_name prefix.now set trace) }
{
    Ok(format!(in alloc; "{prefix}-{set}-{trace}.vcd")?)
}
