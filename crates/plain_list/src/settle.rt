ghost use Rattle.std.specs.Prelude.{◌≡◌, ◌<◌, ◌≤◌, ◌%◌, ◌^◌, ℕ, Bool, true, false, length, IsTrue, IfSome, IfNone, Option, slice_get, Some};
ghost use Rattle.loc_base.specs.Bits.{width_of, value_of};
ghost use Rattle.design_core.specs.Words.{valuation_of, AreWordsOf};
ghost use Rattle.design_core.specs.Cycle.{cont_assigned};
ghost use Rattle.design_core.specs.WellFormed.{IsWellFormed};
ghost use Rattle.plain_list.specs.Network.{whole_of, IsNetwork, step, settled};
ghost use Rattle.design_core.specs.TraceFits.{samples_fit};
ghost use Rattle.plain_list.specs.Trial.{choice_of, AreNumbersFor};
ghost use Rattle.design_core.specs.Explained.{is_one_of, number_for, place_width};

use crate::samples::load_samples;
use design_core::{Design, Driver, Part};
use loc_base::Bits;
use plain_values::value;

/// The number chosen for a place, if it is one of those that are freed.
#[tactic(auto, using(crate::proofs::Numbers::search_rules))]
fn number_for(places: &[u32], numbers: &[u128], place: u32) -> Option<u128>
    requires { length places.now ≡ length numbers.now }
    ensures some { IfSome result (λ number. (is_one_of places.now place ≡ true) × (number ≡ number_for places.now numbers.now place)) }
    ensures none { IfNone result (is_one_of places.now place ≡ false) }
{
    for i in 0..places.len() {
        if places[i] == place {
            return Some(numbers[i]);
        }
    }
    None
}

/// What a continuous assignment gives its net: the chosen number where its place is freed, else what it computes, cut.
fn assigned_word(
    place: Option<u32>,
    computed: Bits,
    width: u8,
    places: &[u32],
    numbers: &[u128],
) -> Bits
    requires least { 1 ≤ width }
    requires most { width ≤ width_of computed }
    requires numbers { length places.now ≡ length numbers.now }
    requires range { (p : ℕ) → place ≡ Some p → is_one_of places.now p ≡ true → number_for places.now numbers.now p < 2 ^ width }
    ensures width { width_of result ≡ width }
    ensures value { value_of result ≡ cont_assigned (choice_of places.now numbers.now) place (value_of computed) % 2 ^ width }
{
    match place {
        None => computed.cut(width),
        Some(p) => match number_for(places, numbers, p) {
            None => computed.cut(width),
            Some(number) => Bits::new(width, number).unwrap(),
        },
    }
}

/// The net that a left side of one whole net names.
fn whole_of(parts: &[Part]) -> Option<u32>
    ensures { result ≡ whole_of parts.now }
{
    match parts {
        [Part::Whole(signal)] => Some(*signal),
        _ => None,
    }
}

/// Carries out the driver of a number.
pub(crate) fn carry_out(
    d: &Design,
    driver: u32,
    places: &[u32],
    numbers: &[u128],
    words: &mut [Bits],
)
    requires well_formed { IsWellFormed d.now }
    requires driver { driver < length d.now.drivers.items }
    requires numbers { AreNumbersFor d.now places.now numbers.now }
    requires words { AreWordsOf d.now.signals.items words.old }
    ensures words { AreWordsOf d.now.signals.items words.new }
    ensures value { valuation_of words.new ≡ step d.now (choice_of places.now numbers.now) (valuation_of words.old) driver }
{
    match &d.drivers[driver as usize] {
        Driver::Cont {
            target,
            value: computed,
            place,
            ..
        } => {
            if let Some(net) = whole_of(&target.parts) {
                let computed = value(&d.signals, words, computed);
                let width = d.signals[net as usize].width;
                words[net as usize] = assigned_word(*place, computed, width, places, numbers);
            }
        }
        Driver::Comb { .. } => {}
    }
}

/// The words of a cycle of a network: the samples, and what its drivers give, carried out in the order.
pub(crate) fn settle(
    d: &Design,
    order: &[u32],
    samples: &[Bits],
    places: &[u32],
    numbers: &[u128],
    words: &mut [Bits],
)
    requires network { IsNetwork d.now order.now }
    requires samples { samples_fit d.now.signals.items d.now.inputs.items samples.now ≡ true }
    requires numbers { AreNumbersFor d.now places.now numbers.now }
    requires words { AreWordsOf d.now.signals.items words.old }
    ensures words { AreWordsOf d.now.signals.items words.new }
    ensures value { valuation_of words.new ≡ settled d.now order.now samples.now (choice_of places.now numbers.now) }
{
    load_samples(&d.signals, &d.inputs, samples, words);
    for i in 0..order.len() {
        carry_out(d, order[i], places, numbers, words);
    }
}
