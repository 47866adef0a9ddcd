ghost use Rattle.std.specs.Prelude.{◌≡◌, ℕ, ◌<◌, ◌+ℤ◌, length, IsTrue};
ghost use Rattle.loc_base.specs.Bits.{width_of, value_of};
ghost use Rattle.design_core.specs.Operator.{integer_of};
ghost use Rattle.design_core.specs.Valuation.{bit, bit_or_zero, number, place_within};
ghost use Rattle.design_core.specs.WellFormed.{is_width};
ghost use Rattle.word_net.specs.Selects.{picked_bit, position_in, put_bit, put_picked};
ghost use Rattle.plain_values.specs.Evaluate.{near_of};

use crate::bits::is_negative;
use loc_base::Bits;
use plain_values::{bit_of, distance_of, replaced, with_next};

/// Every index that is named by a range and an offset of 32 bits lies below this, and above its negation.
const FAR: u128 = 1_099_511_627_776;

/// A word whose bits have indexes, from the one declared leftmost to the one declared rightmost.
#[derive(Clone, Copy)]
pub(crate) struct Ranged {
    pub(crate) word: Bits,
    pub(crate) left: i32,
    pub(crate) right: i32,
}

/// An index, which may be signed.
#[derive(Clone, Copy)]
pub(crate) struct Index {
    pub(crate) word: Bits,
    pub(crate) signed: bool,
}

impl Index {
    /// The number that it is, where it lies near enough to 0 to name something.
    #[tactic(auto, using(plain_values::proofs::EvaluateSelect::near_index))]
    fn near(self) -> Option<i64>
        ensures { result ≡ near_of (integer_of self.signed (width_of self.word) (value_of self.word)) }
    {
        let below = self.signed && is_negative(self.word);
        let size = if below {
            self.word.not().value()
        } else {
            self.word.value()
        };
        if size >= FAR {
            None
        } else if below {
            Some(-1 - size as i64)
        } else {
            Some(size as i64)
        }
    }
}

/// A distance as a place among a number of places.
fn place_within(places: u8, distance: i64) -> Option<u8>
    ensures { result ≡ place_within places distance }
{
    if 0 <= distance && distance < i64::from(places) {
        Some(distance as u8)
    } else {
        None
    }
}

impl Ranged {
    /// The position of the bit that has an index and an offset.
    #[tactic(auto, using(crate::proofs::Picked::position_steps, std::proofs::lemmas::Int::ints))]
    fn position(self, index: Index, offset: i32) -> Option<u8>
        ensures { result ≡ position_in (record { width = width_of self.word; left = self.left; right = self.right }) (integer_of index.signed (width_of index.word) (value_of index.word) +ℤ offset) }
    {
        let width = self.word.width();
        let left = self.left;
        let right = self.right;
        let Some(near) = index.near() else {
            return None;
        };
        place_within(width, distance_of(left, right, near + i64::from(offset)))
    }

    /// Another word of this one's range with the bit that has an index and an offset replaced, where there is one, by the lowest
    /// bit of a value.
    #[tactic(auto, using(crate::proofs::Picked::bit_steps))]
    fn with_bit(self, word: Bits, index: Index, offset: i32, value: Bits) -> Bits
        requires { width_of word ≡ width_of self.word }
        ensures width { width_of result ≡ width_of self.word }
        ensures bits { (p : ℕ) → p < width_of self.word → bit (value_of result) p
            ≡ put_bit (bit (value_of word)) (position_in (record { width = width_of self.word; left = self.left; right = self.right }) (integer_of index.signed (width_of index.word) (value_of index.word) +ℤ offset)) (bit (value_of value) 0) p }
    {
        match self.position(index, offset) {
            Some(position) => replaced(word, position, 1, value),
            None => word,
        }
    }

    /// Whether the bit that has an index and an offset is there and is 1.
    fn picks(self, index: Index, offset: i32) -> bool
        ensures { result ≡ bit_or_zero (bit (value_of self.word)) (position_in (record { width = width_of self.word; left = self.left; right = self.right }) (integer_of index.signed (width_of index.word) (value_of index.word) +ℤ offset)) }
    {
        match self.position(index, offset) {
            Some(position) => bit_of(self.word, u32::from(position)),
            None => false,
        }
    }

    /// The bits that have an index and each of the offsets. Those that the word lacks are 0.
    #[tactic(auto, using(crate::proofs::Picked::picked_steps))]
    pub(crate) fn picked(self, index: Index, offsets: &[i32]) -> Bits
        requires { IsTrue (is_width (length offsets.now)) }
        ensures width { width_of result ≡ length offsets.now }
        ensures value { value_of result ≡ number (length offsets.now)
            (picked_bit (record { width = width_of self.word; left = self.left; right = self.right }) (bit (value_of self.word)) (integer_of index.signed (width_of index.word) (value_of index.word)) offsets.now) }
    {
        let mut value: u128 = 0;
        for b in 0..offsets.len() {
            value = with_next(value, b, self.picks(index, offsets[b]));
        }
        Bits::new(offsets.len() as u8, value).unwrap()
    }

    /// The word with the bits that have an index and each of the offsets replaced, the lowest first, by those of another. What
    /// the word lacks is stored nowhere.
    #[tactic(auto, using(crate::proofs::Picked::put_steps))]
    pub(crate) fn put(self, index: Index, offsets: &[i32], bits: Bits) -> Bits
        ensures width { width_of result ≡ width_of self.word }
        ensures value { value_of result ≡ number (width_of self.word)
            (put_picked (record { width = width_of self.word; left = self.left; right = self.right }) (bit (value_of self.word)) (integer_of index.signed (width_of index.word) (value_of index.word)) 0 offsets.now (bit (value_of bits))) }
    {
        let mut word = self.word;
        for b in 0..offsets.len() {
            word = self.with_bit(word, index, offsets[b], bits.shift_right(b as u128));
        }
        word
    }
}
