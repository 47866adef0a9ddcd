ghost use Rattle.std.specs.Prelude.{◌≡◌, ◌≢◌, ◌<◌, ◌^◌, ℕ, All, Contains, length, replicate, slice_index, slice_set, bit_or, IfOk, OnOk, OnErr};

use loc_base::NoMemory;
use std::alloc::Global;
use std::marker::Model;

/// A set of bits of the signals of a design: a mask for each signal. Contracts see it as the list of the masks.
pub struct BitSet {
    masks: Vec<u128>,
    /// The signals that have a bit, in the order in which they came.
    touched: Vec<usize>,
}

// A `drop` is written out, so that it is proved once, here: a derived one is proved again by each crate that lets a value go.
impl Drop for BitSet {
    fn drop(self) {
        let BitSet {
            masks: _,
            touched: _,
        } = self;
    }
}

impl Model for BitSet {
    ghost use Rattle.std.specs.Prelude.{ℕ, List};
    ghost use Rattle.design_bits.specs.Masks.{AreTouched};

    ghost Value = { List ℕ };

    ghost view = { λ s. s.masks.items };

    ghost invariant = { λ s. AreTouched s.masks.items s.touched.items };
}

impl BitSet {
    /// No bit of any of so many signals.
    pub fn new(alloc: Global, signals: usize) -> Result<BitSet, NoMemory>
        ensures { IfOk result (λ set. set ≡ replicate signals 0) }
    {
        let masks = vec![in alloc; 0; signals]?;
        Ok(BitSet {
            masks,
            touched: Vec::new(alloc),
        })
    }

    /// The number of signals.
    pub fn len(&self) -> usize
        ensures { result ≡ length self.now }
    {
        self.masks.len()
    }

    /// The bits of a signal.
    pub fn mask(&self, signal: usize) -> u128
        requires { signal < length self.now }
        ensures { result ≡ slice_index self.now signal }
    {
        self.masks[signal]
    }

    /// Signals among which are all that have a bit.
    pub fn signals(&self) -> &[usize]
        ensures within { All (λ s. s < length self.now) result.now }
        ensures all { (s : ℕ) → slice_index self.now s ≢ 0 → Contains result.now s }
    {
        self.touched.as_slice()
    }

    /// Adds bits of a signal. Unchanged after `NoMemory`.
    pub fn add(&mut self, signal: usize, mask: u128) -> Result<(), NoMemory>
        requires { signal < length self.old }
        ensures ok { OnOk result (self.new ≡ slice_set self.old signal (bit_or (slice_index self.old signal) mask)) }
        ensures err { OnErr result (self.new ≡ self.old) }
    {
        let before = self.masks[signal];
        if before == 0 {
            self.touched.push(signal)?;
        }
        self.masks[signal] = before | mask;
        Ok(())
    }

    /// Takes all bits out.
    pub fn clear(&mut self)
        ensures long { length self.new ≡ length self.old }
        ensures none { (s : ℕ) → slice_index self.new s ≡ 0 }
    {
        zero_all(&mut self.masks, &self.touched);
        self.touched.truncate(0);
    }
}

/// Puts 0 at some places.
fn zero_all(masks: &mut [u128], places: &[usize])
    requires { All (λ s. s < length masks.old) places.now }
    ensures { (s : ℕ) → slice_index masks.new s ≢ 0 → (slice_index masks.old s ≢ 0) × ¬ Contains places.now s }
{
    for place in places {
        masks[*place] = 0;
    }
}
