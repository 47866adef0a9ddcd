ghost use Rattle.std.specs.Prelude.{◌≡◌, ◌≢◌, ◌≤◌, ℕ, List, length, Bool, true, Option, IsSome, IfOk};
ghost use Rattle.io_ports.specs.Faults.{FaultCounts};
ghost use Rattle.io_ports.specs.Shelf.{LoadCause, Loads, PutCause, Begins, Appends};

use crate::errors::{LoadErr, PutErr};
use loc_base::Bytes;
use std::alloc::Global;

/// Texts by their names: some to be loaded, and some that are written.
///
/// Its meaning: `texts` are those to be loaded, which no call changes; `written` are those that were begun; `faults`
/// counts the failures, all of them and those of writes, which are `can_begin`, `begin` and `put`, and has the name of the
/// text whose load failed last, which a shelf need not hold in memory. A shelf need not tell its texts: what the clauses say of them holds where `tells` is true. What they
/// say of the faults holds always.
pub trait Shelf {
    ghost tells: { Self → Bool };

    ghost texts: { Self → List ℕ → Option (List ℕ) };

    ghost written: { Self → List ℕ → Option (List ℕ) };

    ghost faults: { Self → FaultCounts };

    /// The text under a name, of at most `limit` bytes. `TooBig` comes exactly where the text has more and the call
    /// neither fails nor wants memory. At an absent name it fails, or wants memory.
    fn load(&mut self, alloc: Global, name: &str, limit: u64) -> Result<Bytes, LoadErr>
        ensures tells { tells self.new ≡ tells self.old }
        ensures texts { texts self.new ≡ texts self.old }
        ensures written { written self.new ≡ written self.old }
        ensures text { tells self.old ≡ true → Loads (texts self.old name.now) limit result }
        ensures limit { IfOk result (λ text. length text ≤ limit) }
        ensures cause { LoadCause name.now (faults self.old) (faults self.new) result };

    /// Asks whether a text can be begun under a name, before there is anything to write. No text changes, and `begin` may
    /// still fail.
    fn can_begin(&mut self, name: &str) -> Result<(), PutErr>
        ensures tells { tells self.new ≡ tells self.old }
        ensures texts { texts self.new ≡ texts self.old }
        ensures written { written self.new ≡ written self.old }
        ensures cause { PutCause (faults self.old) (faults self.new) result };

    /// Makes the written text under a name empty. After `Failed` it is as before or empty, after `NoMemory` as before.
    fn begin(&mut self, name: &str) -> Result<(), PutErr>
        ensures tells { tells self.new ≡ tells self.old }
        ensures texts { texts self.new ≡ texts self.old }
        ensures text { tells self.old ≡ true → Begins (written self.old name.now) (written self.new name.now) result }
        ensures others { (other : List ℕ) → other ≢ name.now → written self.new other ≡ written self.old other }
        ensures cause { PutCause (faults self.old) (faults self.new) result };

    /// Appends a piece to the written text under a name that was begun. After `Failed` a front of the piece was
    /// appended, after `NoMemory` nothing.
    fn put(&mut self, name: &str, piece: &[u8]) -> Result<(), PutErr>
        requires begun { tells self.old ≡ true → IsSome (written self.old name.now) }
        ensures tells { tells self.new ≡ tells self.old }
        ensures texts { texts self.new ≡ texts self.old }
        ensures text { tells self.old ≡ true → Appends piece.now (written self.old name.now) (written self.new name.now) result }
        ensures others { (other : List ℕ) → other ≢ name.now → written self.new other ≡ written self.old other }
        ensures cause { PutCause (faults self.old) (faults self.new) result };
}
