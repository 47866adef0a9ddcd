ghost use Rattle.std.specs.Prelude.{◌≡◌, ◌<◌, ◌≤◌, ◌+◌, ◌-◌, ◌^◌, List, ℕ, length, take, slice_index, slice_set, All, Bool, true, false};
ghost use Rattle.design_core.specs.Words.{AreWordsOf};
ghost use Rattle.design_core.specs.TraceFits.{samples_fit, expected_fit};
ghost use Rattle.design_core.specs.WellFormed.{IsWellFormed};
ghost use Rattle.plain_list.specs.Network.{IsNetwork};
ghost use Rattle.plain_list.specs.Trial.{AreNumbersFor};
ghost use Rattle.design_core.specs.Explained.{place_width};
ghost use Rattle.plain_list.specs.Rightness.{AreRight};

use crate::settle::settle;
use design_core::{Checked, Design};
use loc_base::Bits;
use plain_sim::are_right;

/// The largest number that a place can take.
fn largest_for(d: &Design, place: u32) -> u128
    requires well_formed { IsWellFormed d.now }
    requires place { place < length d.now.places.items }
    ensures { result + 1 ≡ 2 ^ place_width d.now place }
{
    u128::MAX >> (128 - d.places[place as usize].width)
}

/// Chooses a number for one of the places.
#[tactic(auto, using(crate::proofs::Trying::choose_rules))]
fn choose(d: &Design, places: &[u32], numbers: &mut [u128], next: usize, number: u128)
    requires numbers { AreNumbersFor d.now places.now numbers.old }
    requires next { next < length numbers.old }
    requires range { number < 2 ^ place_width d.now (slice_index places.now next) }
    ensures numbers { AreNumbersFor d.now places.now numbers.new }
    ensures set { numbers.new ≡ slice_set numbers.old next number }
{
    numbers[next] = number;
}

/// Tries every choice of numbers for the places from `next` on, the others being as they are, until one makes the
/// outputs as expected.
#[tactic(auto, using(crate::proofs::Trying::try_rules))]
pub(crate) fn try_values(
    d: &Design,
    order: &[u32],
    samples: &[Bits],
    expected: &[Checked],
    places: &[u32],
    numbers: &mut [u128],
    next: usize,
    words: &mut [Bits],
) -> bool
    requires network { IsNetwork d.now order.now }
    requires samples { samples_fit d.now.signals.items d.now.inputs.items samples.now ≡ true }
    requires expected { expected_fit d.now.signals.items d.now.outputs.items expected.now ≡ true }
    requires places { All (λ p. p < length d.now.places.items) places.now }
    requires numbers { AreNumbersFor d.now places.now numbers.old }
    requires next { next ≤ length numbers.old }
    requires words { AreWordsOf d.now.signals.items words.old }
    ensures words { AreWordsOf d.now.signals.items words.new }
    ensures numbers { AreNumbersFor d.now places.now numbers.new }
    ensures others { take next numbers.new ≡ take next numbers.old }
    ensures right { result ≡ true → AreRight d.now order.now samples.now expected.now places.now numbers.new }
    ensures none { result ≡ false → (tried : List ℕ) → AreNumbersFor d.now places.now tried → take next tried ≡ take next numbers.old
        → ¬ AreRight d.now order.now samples.now expected.now places.now tried }
{
    if next == numbers.len() {
        settle(d, order, samples, places, numbers, words);
        return are_right(d, expected, words);
    }
    let largest = largest_for(d, places[next]);
    let mut number = 0;
    loop {
        choose(d, places, numbers, next, number);
        if try_values(
            d,
            order,
            samples,
            expected,
            places,
            numbers,
            next + 1,
            words,
        ) {
            return true;
        }
        if number == largest {
            return false;
        }
        number += 1;
    }
}
