//! Start values, in their places among the signals (IEEE 1364-2005, 6.2.1 and 9.9.1).
ghost use Rattle.std.specs.Prelude.{◌≡◌, ◌++◌, map};
ghost use Rattle.v_binding.specs.Starts.{started};
ghost use Rattle.v_binding.specs.Steps.{through};

use design_core::Signal;
use loc_base::Items;
use v_binding::{Initial, StartValue};

/// A signal's start value, if there is a signal of its number.
#[tactic(auto, using(crate::proofs::StartLaws::start_laws))]
fn put(start: &StartValue, signals: &mut Vec<Signal>)
    ensures { signals.new.items ≡ started start.now signals.old.items }
{
    let place = start.signal() as usize;
    if place < signals.len() {
        signals[place].start = start.value();
    }
}

/// The start values of declarations: of several for one signal the last counts.
fn put_declared(starts: &[StartValue], signals: &mut Vec<Signal>)
    ensures { signals.new.items ≡ through started starts.now signals.old.items }
{
    for start in starts {
        put(start, signals);
    }
}

/// The start values of initial blocks.
fn put_initial(starts: &[Initial], signals: &mut Vec<Signal>)
    ensures { signals.new.items ≡ through started (map (λ i. i.start) starts.now) signals.old.items }
{
    for initial in starts {
        put(initial.start(), signals);
    }
}

/// The signals with their start values: those of declarations, then those of initial blocks; of several for one signal the last
/// counts.
#[tactic(auto, using(crate::proofs::StartLaws::through_append))]
pub fn all_started(
    declared: &[StartValue],
    initial: &[Initial],
    signals: Items<Signal>,
) -> Items<Signal>
    ensures { result ≡ through started (declared.now ++ map (λ i. i.start) initial.now) signals }
{
    let mut signals = signals.into_vec();
    put_declared(declared, &mut signals);
    put_initial(initial, &mut signals);
    Items::from_vec(signals)
}
