ghost use Rattle.std.specs.Prelude.{◌≡◌, ◌≤◌, ◌<◌, length};
ghost use Rattle.loc_base.specs.Bits.{width_of, value_of};
ghost use Rattle.design_core.specs.Valuation.{bit, number};
ghost use Rattle.design_core.specs.After.{assigned};
ghost use Rattle.design_core.specs.Words.{choice_of};
ghost use Rattle.word_net.specs.Given.{HasWord, number_at};

use loc_base::Bits;
use plain_values::assigned;

/// What a cycle of a net is given: its states, its inputs, which places are freed, and the values chosen for them.
#[derive(Clone, Copy, Drop)]
pub(crate) struct Cycle<'a> {
    pub(crate) states: &'a [Bits],
    pub(crate) inputs: &'a [Bits],
    pub(crate) freed: &'a [bool],
    pub(crate) chosen: &'a [Bits],
}

/// The word of a number.
#[tactic(auto, using(crate::proofs::Words::word_steps))]
pub(crate) fn nth(words: &[Bits], number: u32, width: u8) -> Bits
    requires { HasWord words.now number width }
    ensures width { width_of result ≡ width }
    ensures value { value_of result ≡ number_at words.now number }
{
    words[number as usize]
}

impl Cycle<'_> {
    /// What a place assigns: the chosen value where it is freed, else the low bits of the computed word.
    #[tactic(auto, using(crate::proofs::Words::assign_steps))]
    pub(crate) fn assigned(&self, place: u32, computed: Bits, width: u8) -> Bits
        requires least { 1 ≤ width }
        requires narrower { width ≤ width_of computed }
        requires freed { place < length self.now.freed.now }
        requires chosen { HasWord self.now.chosen.now place width }
        ensures width { width_of result ≡ width }
        ensures value { value_of result ≡ number width (bit (assigned (choice_of self.now.freed.now self.now.chosen.now) place (value_of computed))) }
    {
        assigned(self.freed, self.chosen, place, computed).cut(width)
    }
}
