ghost use Rattle.std.specs.Prelude.{◌≡◌, ◌<◌, ◌++◌, ◌∷◌, [], length, slice_index, slice_index_or, IfOk, OnOk};

use loc_base::{NoMemory, Rows};
use std::alloc::Global;
use std::marker::Model;

/// Texts for each cycle of a trace, all of them in one piece of memory. Contracts see the list of the lists of texts.
pub struct CycleTexts {
    texts: Rows<u8>,
    ends: Vec<usize>,
}

impl Drop for CycleTexts {
    fn drop(self) {
        let CycleTexts { texts: _, ends: _ } = self;
    }
}

impl Model for CycleTexts {
    ghost use Rattle.std.specs.Prelude.{ℕ, List, length};
    ghost use Rattle.loc_base.specs.Rows.{cut, EndsAscend};

    ghost Value = { List (List (List ℕ)) };

    ghost view = { λ c. cut c.texts 0 c.ends.items };

    ghost invariant = { λ c. EndsAscend 0 c.ends.items (length c.texts) };
}

/// Where the texts of a cycle begin, the ends of all cycles being given.
fn start_of(ends: &[usize], cycle: usize) -> usize
    requires { cycle < length ends.now }
    ensures { result ≡ slice_index (0 ∷ ends.now) cycle }
{
    if cycle == 0 { 0 } else { ends[cycle - 1] }
}

/// Appends rows.
fn append(texts: &mut Rows<u8>, rows: &Rows<u8>) -> Result<(), NoMemory>
    ensures { OnOk result (texts.new ≡ texts.old ++ rows.now) }
{
    for number in 0..rows.len() {
        texts.push(rows.row(number))?;
    }
    Ok(())
}

#[tactic(auto, using(crate::proofs::Texts::texts))]
impl CycleTexts {
    /// No cycles. It takes no memory.
    pub fn new(alloc: Global) -> CycleTexts
        ensures { result ≡ [] }
    {
        CycleTexts {
            texts: Rows::new(alloc),
            ends: Vec::new(alloc),
        }
    }

    /// The number of cycles.
    pub fn len(&self) -> usize
        ensures { result ≡ length self.now }
    {
        self.ends.len()
    }

    /// The number of texts in a cycle, counted from 0.
    pub fn count(&self, cycle: usize) -> usize
        requires { cycle < length self.now }
        ensures { result ≡ length (slice_index_or self.now cycle []) }
    {
        self.ends[cycle] - start_of(&self.ends, cycle)
    }

    /// A text of a cycle, both counted from 0.
    pub fn text(&self, cycle: usize, place: usize) -> &[u8]
        requires cycle { cycle < length self.now }
        requires place { place < length (slice_index_or self.now cycle []) }
        ensures { result.now ≡ slice_index_or (slice_index_or self.now cycle []) place [] }
    {
        let left = self.count(cycle) - place;
        self.texts.row(self.ends[cycle] - left)
    }

    /// The cycles and one more, with these texts.
    pub fn with(self, cycle: &Rows<u8>) -> Result<CycleTexts, NoMemory>
        ensures { IfOk result (λ more. more ≡ self ++ cycle.now ∷ []) }
    {
        let CycleTexts {
            mut texts,
            mut ends,
        } = self;
        ends.reserve(1)?;
        append(&mut texts, cycle)?;
        let end = texts.len();
        ends.push(end).unwrap();
        Ok(CycleTexts { texts, ends })
    }
}
