//! Signals by their numbers.
ghost use Rattle.std.specs.Prelude.{◌≡◌, ◌<◌, length, slice_get, Some};
ghost use Rattle.design_core.specs.Drives.{is_listed};
ghost use Rattle.design_core.specs.Valuation.{width_at};

use design_core::{Design, Signal};

/// The signal of a number.
#[tactic(auto, using(crate::proofs::EvaluateWords::slice_get_at))]
pub fn signal_at(signals: &[Signal], signal: usize) -> &Signal
    requires { signal < length signals.now }
    ensures { slice_get signals.now signal ≡ Some result.now }
{
    &signals[signal]
}

/// The width of a signal, 0 where there is none.
pub fn width_at(signals: &[Signal], signal: usize) -> u8
    ensures { result ≡ width_at signals.now signal }
{
    match signals.get(signal) {
        Some(declared) => declared.width,
        None => 0,
    }
}

/// Whether a signal is an input that traces give.
pub fn is_listed(design: &Design, s: usize) -> bool
    ensures { result ≡ is_listed design.now s }
{
    design.inputs.iter().any(|input| *input as usize == s)
}
