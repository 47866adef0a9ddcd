//! The values of the made trace.
ghost use Rattle.std.specs.Prelude.{◌≡◌, ◌+◌, ◌*◌, ◌%◌, ◌≤◌, ◌<◌, ◌^◌};
ghost use Rattle.loc_base.specs.Bits.{width_of, value_of};
ghost use Rattle.made_input.specs.Made.{a_in, b_in, drawn, held, width, z_in};

use crate::numbers::{constant, width};
use loc_base::Bits;

/// The low bits of a number.
fn low_bits(width: u8, number: u64) -> Bits
    requires least { 1 ≤ width }
    requires most { width ≤ 64 }
    ensures width { width_of result ≡ width }
    ensures value { value_of result ≡ number % 2 ^ width }
{
    match Bits::new(64, u128::from(number)) {
        Some(bits) => bits.cut(width),
        None => unreachable!(),
    }
}

/// The number that is drawn behind another.
fn next_drawn(number: u64) -> u64
    requires { number < 2 ^ 32 }
    ensures is { result ≡ (1103515245 * number + 12345) % 2 ^ 31 }
    ensures fits { result < 2 ^ 32 }
{
    (1_103_515_245 * number + 12_345) % 2_147_483_648
}

/// The number that is drawn behind so many.
#[tactic(auto, using(crate::proofs::Steps::drawn_steps))]
fn drawn(number: u32, count: u32) -> u64
    ensures { result ≡ drawn number count }
{
    let mut last = u64::from(number);
    for _done in 0..count {
        last = next_drawn(last);
    }
    last
}

/// The input `a` in a cycle.
pub(crate) fn a_in(number: u32, cycle: u32) -> Bits
    requires { cycle < 2 ^ 16 }
    ensures width { width_of result ≡ width number }
    ensures value { value_of result ≡ a_in number cycle }
{
    low_bits(width(number), drawn(number, 2 * cycle + 1))
}

/// The input `b` in a cycle.
pub(crate) fn b_in(number: u32, cycle: u32) -> Bits
    requires { cycle < 2 ^ 16 }
    ensures width { width_of result ≡ width number }
    ensures value { value_of result ≡ b_in number cycle }
{
    low_bits(width(number), drawn(number, 2 * cycle + 2))
}

/// What the register of a stage holds in a cycle, were no stage wrong.
#[tactic(auto, using(crate::proofs::Steps::held_steps))]
pub(crate) fn held(number: u32, cycle: u32, stage: u32) -> Bits
    requires cycle { cycle < 2 ^ 16 }
    requires stage { stage < 2 ^ 16 }
    ensures width { width_of result ≡ width number }
    ensures value { value_of result ≡ held number cycle stage }
{
    if cycle == 0 {
        return Bits::zero(width(number));
    }
    if stage == 1 {
        return a_in(number, cycle - 1).add(b_in(number, cycle - 1));
    }
    let before = held(number, cycle - 1, stage.saturating_sub(1));
    before.add(low_bits(width(number), u64::from(constant(stage))))
}

/// The output `z` in a cycle.
pub(crate) fn z_in(number: u32, cycle: u32) -> Bits
    requires { cycle < 2 ^ 16 }
    ensures width { width_of result ≡ width number }
    ensures value { value_of result ≡ z_in number cycle }
{
    a_in(number, cycle).xor(b_in(number, cycle))
}
