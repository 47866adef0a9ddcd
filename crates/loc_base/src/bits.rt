ghost use Rattle.std.specs.Prelude.{◌≡◌, ◌+◌, ◌-◌, ◌*◌, ◌/◌, ◌%◌, ◌^◌, ◌<◌, ◌≤◌, ◌<ℤ◌, ◌↔◌, IsTrue, IsSome, IfSome, if◌then◌else◌};
ghost use Rattle.std.specs.Prelude.{bit_and, bit_or, bit_xor};
ghost use Rattle.loc_base.specs.Word.{is_negative, signed_value, extended, shifted_signed};

/// A word of 1 to 128 bits, as the whole number that its bits mean. Every operation is exact modulo 2^width, and
/// none takes memory.
#[derive(Clone, Copy, Debug, PartialEq, Eq)]
pub struct Bits {
    width: u8,
    value: u128,
    pub ghost at_least_one: { 1 ≤ width },
    pub ghost at_most_128: { width ≤ 128 },
    pub ghost in_range: { value < 2 ^ width },
}

/// The greatest number of `width` bits.
#[tactic(auto, using(crate::proofs::Modulo::ones_of))]
fn ones(width: u8) -> u128
    requires least { 1 ≤ width }
    requires most { width ≤ 128 }
    ensures { result ≡ 2 ^ width - 1 }
{
    u128::MAX >> (128 - width)
}

impl Bits {
    ghost use Rattle.loc_base.specs.Bits.{width_of, value_of};

    /// The word with this width and value, and `None` exactly where the width is not 1 to 128 or the value has more
    /// bits than it.
    pub fn new(width: u8, value: u128) -> Option<Bits>
        ensures some { IsSome result ↔ ((1 ≤ width) × (width ≤ 128) × (value < 2 ^ width)) }
        ensures width { IfSome result (λ bits. width_of bits ≡ width) }
        ensures value { IfSome result (λ bits. value_of bits ≡ value) }
    {
        if width < 1 || 128 < width || ones(width) < value {
            return None;
        }
        Some(Bits { width, value })
    }

    /// The word of this width whose bits are all 0.
    pub fn zero(width: u8) -> Bits
        requires least { 1 ≤ width }
        requires most { width ≤ 128 }
        ensures width { width_of result ≡ width }
        ensures value { value_of result ≡ 0 }
    {
        Bits { width, value: 0 }
    }

    /// The word of one bit that is 1 exactly where `bit` is true.
    pub fn from_bool(bit: bool) -> Bits
        ensures width { width_of result ≡ 1 }
        ensures value { value_of result ≡ (if bit then 1 else 0) }
    {
        Bits {
            width: 1,
            value: u128::from(bit),
        }
    }

    /// The number of bits, from 1 to 128.
    pub fn width(self) -> u8
        ensures { result ≡ width_of self }
    {
        self.width
    }

    /// The whole number that the bits mean, less than 2^width.
    pub fn value(self) -> u128
        ensures { result ≡ value_of self }
    {
        self.value
    }

    /// Takes the value of another word of its width. The width stays where it is, so that less is written than by an assignment
    /// of the whole word.
    #[inline(always)]
    pub fn take(&mut self, other: Bits)
        requires { width_of self.old ≡ width_of other }
        ensures { self.new ≡ other }
    {
        self.value = other.value;
    }

    /// The low `width` bits of a number.
    #[tactic(auto, using(crate::proofs::Modulo::and_ones))]
    fn low_of(width: u8, value: u128) -> Bits
        requires least { 1 ≤ width }
        requires most { width ≤ 128 }
        ensures width { width_of result ≡ width }
        ensures value { value_of result ≡ value % 2 ^ width }
    {
        Bits {
            width,
            value: value & ones(width),
        }
    }

    /// Whether the highest bit is 1.
    fn is_negative(self) -> bool
        ensures { result ≡ is_negative (width_of self) (value_of self) }
    {
        self.value >= 1 << (self.width - 1)
    }

    /// The word carried to a width that is not less: by copies of its highest bit where `signed` is true, else by
    /// zeros (IEEE 1364-2005, 5.5.2).
    #[tactic(auto, using(crate::proofs::Modulo::wider))]
    pub fn extend(self, width: u8, signed: bool) -> Bits
        requires wider { width_of self ≤ width }
        requires most { width ≤ 128 }
        ensures width { width_of result ≡ width }
        ensures value { value_of result ≡ extended signed (width_of self) width (value_of self) }
    {
        let filled = if signed && self.is_negative() {
            ones(width) - ones(self.width)
        } else {
            0
        };
        Bits {
            width,
            value: self.value + filled,
        }
    }

    /// The low `width` bits.
    pub fn cut(self, width: u8) -> Bits
        requires least { 1 ≤ width }
        requires narrower { width ≤ width_of self }
        ensures width { width_of result ≡ width }
        ensures value { value_of result ≡ value_of self % 2 ^ width }
    {
        Bits::low_of(width, self.value)
    }

    /// The sum modulo 2^width.
    #[tactic(auto, using(crate::proofs::Modulo::mod_mod_of))]
    pub fn add(self, other: Bits) -> Bits
        requires { width_of self ≡ width_of other }
        ensures width { width_of result ≡ width_of self }
        ensures value { value_of result ≡ (value_of self + value_of other) % 2 ^ width_of self }
    {
        Bits::low_of(self.width, self.value.wrapping_add(other.value))
    }

    /// The difference modulo 2^width.
    #[tactic(auto, using(crate::proofs::Modulo::difference_of))]
    pub fn sub(self, other: Bits) -> Bits
        requires { width_of self ≡ width_of other }
        ensures width { width_of result ≡ width_of self }
        ensures value { value_of result ≡ (value_of self + (2 ^ width_of self - value_of other)) % 2 ^ width_of self }
    {
        Bits::low_of(self.width, self.value.wrapping_sub(other.value))
    }

    /// The product modulo 2^width.
    #[tactic(auto, using(crate::proofs::Modulo::mod_mod_of))]
    pub fn mul(self, other: Bits) -> Bits
        requires { width_of self ≡ width_of other }
        ensures width { width_of result ≡ width_of self }
        ensures value { value_of result ≡ (value_of self * value_of other) % 2 ^ width_of self }
    {
        Bits::low_of(self.width, self.value.wrapping_mul(other.value))
    }

    /// 1 in each place where both words have 1.
    pub fn and(self, other: Bits) -> Bits
        requires { width_of self ≡ width_of other }
        ensures width { width_of result ≡ width_of self }
        ensures value { value_of result ≡ bit_and (value_of self) (value_of other) }
    {
        Bits {
            width: self.width,
            value: self.value & other.value,
        }
    }

    /// 1 in each place where one of the words has 1.
    #[tactic(auto, using(crate::proofs::Modulo::or_below))]
    pub fn or(self, other: Bits) -> Bits
        requires { width_of self ≡ width_of other }
        ensures width { width_of result ≡ width_of self }
        ensures value { value_of result ≡ bit_or (value_of self) (value_of other) }
    {
        Bits {
            width: self.width,
            value: self.value | other.value,
        }
    }

    /// 1 in each place where exactly one of the words has 1.
    #[tactic(auto, using(crate::proofs::Modulo::xor_below))]
    pub fn xor(self, other: Bits) -> Bits
        requires { width_of self ≡ width_of other }
        ensures width { width_of result ≡ width_of self }
        ensures value { value_of result ≡ bit_xor (value_of self) (value_of other) }
    {
        Bits {
            width: self.width,
            value: self.value ^ other.value,
        }
    }

    /// 1 in each place where the word has 0.
    pub fn not(self) -> Bits
        ensures width { width_of result ≡ width_of self }
        ensures value { value_of result ≡ (2 ^ width_of self - 1) - value_of self }
    {
        Bits {
            width: self.width,
            value: ones(self.width) - self.value,
        }
    }

    /// The bits moved `by` places up, with zeros below them. Those that leave the word are lost.
    #[tactic(auto, using(crate::proofs::Modulo::mod_mod_of, crate::proofs::Modulo::shifted_out))]
    pub fn shift_left(self, by: u128) -> Bits
        ensures width { width_of result ≡ width_of self }
        ensures value { value_of result ≡ (value_of self * 2 ^ by) % 2 ^ width_of self }
    {
        let shifted = if by < 128 { self.value << by } else { 0 };
        Bits::low_of(self.width, shifted)
    }

    /// The bits moved `by` places down, with zeros above them. Those that leave the word are lost.
    #[tactic(auto, using(crate::proofs::Modulo::shifted_down))]
    pub fn shift_right(self, by: u128) -> Bits
        ensures width { width_of result ≡ width_of self }
        ensures value { value_of result ≡ value_of self / 2 ^ by }
    {
        Bits {
            width: self.width,
            value: if by < 128 { self.value >> by } else { 0 },
        }
    }

    /// The bits moved `by` places down, with copies of the highest bit above them (IEEE 1364-2005, 5.1.12).
    pub fn shift_right_signed(self, by: u128) -> Bits
        ensures width { width_of result ≡ width_of self }
        ensures value { value_of result ≡ shifted_signed (width_of self) (value_of self) by }
    {
        if self.is_negative() {
            self.not().shift_right(by).not()
        } else {
            self.shift_right(by)
        }
    }

    /// Whether the word is less than another, both without a sign.
    pub fn less(self, other: Bits) -> bool
        requires { width_of self ≡ width_of other }
        ensures { IsTrue result ↔ (value_of self < value_of other) }
    {
        self.value < other.value
    }

    /// Whether the word is less than another, both as two's complement.
    pub fn less_signed(self, other: Bits) -> bool
        requires { width_of self ≡ width_of other }
        ensures { IsTrue result ↔ (signed_value (width_of self) (value_of self) <ℤ signed_value (width_of other) (value_of other)) }
    {
        match (self.is_negative(), other.is_negative()) {
            (true, false) => true,
            (false, true) => false,
            _ => self.value < other.value,
        }
    }

    /// The `width` bits from the place `from` on; the lowest place is 0.
    pub fn part(self, from: u8, width: u8) -> Bits
        requires least { 1 ≤ width }
        requires within { from + width ≤ width_of self }
        ensures width { width_of result ≡ width }
        ensures value { value_of result ≡ (value_of self / 2 ^ from) % 2 ^ width }
    {
        Bits::low_of(width, self.value >> from)
    }

    /// The word with another one below it.
    #[tactic(auto, using(crate::proofs::Modulo::joined, crate::proofs::Modulo::joined_below))]
    pub fn join(self, low: Bits) -> Bits
        requires { width_of self + width_of low ≤ 128 }
        ensures width { width_of result ≡ width_of self + width_of low }
        ensures value { value_of result ≡ value_of self * 2 ^ width_of low + value_of low }
    {
        Bits {
            width: self.width + low.width,
            value: (self.value << low.width) | low.value,
        }
    }
}
