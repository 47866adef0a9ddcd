ghost use Rattle.std.specs.Prelude.{◌≡◌, ◌<◌, ◌&&◌, ◌||◌, ℕ, not, nat_lt};
ghost use Rattle.design_core.specs.Drives.{is_among};
ghost use Rattle.design_core.specs.Valuation.{bit};
ghost use Rattle.design_bits.specs.Masks.{exceeds, share_bit};

/// The lowest bits, as many as there are below 128.
#[tactic(auto, using(crate::proofs::Masks::ones_bits))]
pub(crate) fn ones(width: u16) -> u128
    ensures { (b : ℕ) → b < 128 → bit result b ≡ nat_lt b width }
{
    if width < 128 {
        (1 << u32::from(width)) - 1
    } else {
        u128::MAX
    }
}

/// The bits from a place on, so many of them.
#[tactic(auto, using(crate::proofs::Masks::mask_bits))]
pub(crate) fn run(from: u8, width: u8) -> u128
    ensures { (b : ℕ) → b < 128 → bit result b ≡ is_among from width b }
{
    let below = ones(u16::from(from));
    ones(u16::from(from) + u16::from(width)) & !below
}

/// Whether two masks have a bit in common.
#[tactic(auto, using(crate::proofs::ShareLaws::share_steps))]
pub fn share_bit(one: u128, other: u128) -> bool
    ensures { result ≡ share_bit one other }
{
    one & other != 0
}

/// Whether a mask has a bit that another lacks.
#[tactic(auto, using(crate::proofs::ShareLaws::exceed_steps))]
pub fn exceeds(one: u128, other: u128) -> bool
    ensures { result ≡ exceeds one other }
{
    share_bit(one, !other)
}
