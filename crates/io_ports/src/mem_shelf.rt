ghost use Rattle.std.specs.Prelude.{◌≡◌, ◌≢◌, ◌≤◌, ◌↔◌, ◌⊎◌, ℕ, List, [], length, None, IsSome, IfOk, IsTrue, false, option_copied};
ghost use Rattle.std.specs.List.Sorted.{IsPermutation};
ghost use Rattle.io_ports.specs.Faults.{LoadRoseOf, WriteRose};
ghost use Rattle.io_ports.specs.Shelf.{LoadCause, Loads, IsFailedLoad, PutCause, Begins, Appends, IsFailedWrite};
ghost use Rattle.io_ports.specs.Texts.{text_of};

use crate::Numbers;
use crate::errors::{LoadErr, PutErr};
use crate::fault_kind::FaultKind;
use crate::fault_plan::FaultPlan;
use crate::kept_name::KeptName;
use crate::shelf::Shelf;
use crate::texts::Texts;
use loc_base::Bytes;
use std::alloc::Global;

/// A shelf in memory. It tells its texts. A call fails exactly where it was told to, and a load at absent names too. The kind
/// of each fault is `Other`.
#[derive(Drop)]
pub struct MemShelf {
    texts: Texts,
    written: Texts,
    plan: FaultPlan,
    write_faults: u64,
    failed_name: KeptName,
}

impl MemShelf {
    ghost use Rattle.io_ports.specs.MemShelf.{texts_of, written_of, faults_of, write_faults_of, failed_name_of, fault_counts_of, calls_of, failing_calls, IsToFail, CountsCall};

    /// The shelf with these texts. The numbers name the calls that are to fail, counted from 0, in any order. It takes
    /// no memory.
    pub fn new(alloc: Global, texts: Texts, fails: Numbers) -> MemShelf
        ensures texts { texts_of result ≡ text_of texts }
        ensures written { (name : List ℕ) → written_of result name ≡ None }
        ensures fails { IsPermutation fails (failing_calls result) }
        ensures calls { calls_of result ≡ 0 }
        ensures faults { faults_of result ≡ 0 }
        ensures write_faults { write_faults_of result ≡ 0 }
        ensures failed_name { failed_name_of result ≡ [] }
    {
        MemShelf {
            texts,
            written: Texts::new(alloc),
            plan: FaultPlan::new(fails),
            write_faults: 0,
            failed_name: KeptName::of(b""),
        }
    }

    /// The written text under a name, and `None` exactly where no `begin` of it answered `Ok` and none left it empty.
    pub fn text(&self, name: &str) -> Option<&Bytes>
        ensures { option_copied result ≡ written_of self.now name.now }
    {
        self.written.get(name)
    }

    /// How many calls failed.
    pub fn faults(&self) -> u64
        ensures { result ≡ faults_of self.now }
    {
        self.plan.faults()
    }

    /// How many writes failed.
    pub fn write_faults(&self) -> u64
        ensures { result ≡ write_faults_of self.now }
    {
        self.write_faults
    }

    /// Counts a fault of a load of the text under a name.
    fn load_fault(&mut self, name: &str) -> LoadErr
        ensures texts { self.new.texts ≡ self.old.texts }
        ensures written { self.new.written ≡ self.old.written }
        ensures calls { calls_of self.new ≡ calls_of self.old }
        ensures fails { failing_calls self.new ≡ failing_calls self.old }
        ensures answer { result ≡ LoadErr.Failed FaultKind.Other }
        ensures cause { LoadRoseOf name.now (fault_counts_of self.old) (fault_counts_of self.new) }
    {
        self.failed_name = KeptName::of(name.as_bytes());
        self.plan.fault();
        LoadErr::Failed(FaultKind::Other)
    }

    /// Counts one call of `can_begin`, `begin` or `put`, and a fault where it is to fail, as the answer says.
    fn write_fails(&mut self) -> bool
        ensures texts { self.new.texts ≡ self.old.texts }
        ensures written { self.new.written ≡ self.old.written }
        ensures fails { IsTrue result ↔ IsToFail self.old }
        ensures counted { CountsCall self.old self.new }
        ensures fault { IsTrue result → WriteRose (fault_counts_of self.old) (fault_counts_of self.new) }
        ensures none { result ≡ false → fault_counts_of self.new ≡ fault_counts_of self.old }
    {
        let fails = self.plan.call_fails();
        if fails {
            self.write_faults = self.write_faults.saturating_add(1);
        }
        fails
    }
}

impl Shelf for MemShelf {
    ghost use Rattle.std.specs.Prelude.{true};
    ghost use Rattle.io_ports.specs.MemShelf.{texts_of, written_of, fault_counts_of, IsToFail, CountsCall};

    ghost tells = { λ _. true };

    ghost texts = { texts_of };

    ghost written = { written_of };

    ghost faults = { fault_counts_of };

    fn load(&mut self, alloc: Global, name: &str, limit: u64) -> Result<Bytes, LoadErr>
        ensures texts { texts_of self.new ≡ texts_of self.old }
        ensures written { written_of self.new ≡ written_of self.old }
        ensures text { Loads (texts_of self.old name.now) limit result }
        ensures limit { IfOk result (λ text. length text ≤ limit) }
        ensures cause { LoadCause name.now (fault_counts_of self.old) (fault_counts_of self.new) result }

        // It fails exactly where it was told to and at an absent name.
        ensures failed { IsFailedLoad result ↔ IsToFail self.old ⊎ (texts_of self.old name.now ≡ None) }
        ensures counted { CountsCall self.old self.new }
    {
        if self.plan.call_is_to_fail() {
            return Err(self.load_fault(name));
        }
        let Some(text) = self.texts.get(name) else {
            return Err(self.load_fault(name));
        };
        if text.len() as u64 > limit {
            return Err(LoadErr::TooBig);
        }
        let copy = Bytes::copy_of(alloc, text.as_slice())?;
        Ok(copy)
    }

    /// It is a call like the others, whatever the name.
    fn can_begin(&mut self, _name: &str) -> Result<(), PutErr>
        ensures texts { texts_of self.new ≡ texts_of self.old }
        ensures written { written_of self.new ≡ written_of self.old }
        ensures cause { PutCause (fault_counts_of self.old) (fault_counts_of self.new) result }

        // It fails exactly where it was told to.
        ensures failed { IsFailedWrite result ↔ IsToFail self.old }
        ensures counted { CountsCall self.old self.new }
    {
        let fails = self.write_fails();
        if fails {
            return Err(PutErr::Failed(FaultKind::Other));
        }
        Ok(())
    }

    fn begin(&mut self, name: &str) -> Result<(), PutErr>
        ensures texts { texts_of self.new ≡ texts_of self.old }
        ensures text { Begins (written_of self.old name.now) (written_of self.new name.now) result }
        ensures others { (other : List ℕ) → other ≢ name.now → written_of self.new other ≡ written_of self.old other }
        ensures cause { PutCause (fault_counts_of self.old) (fault_counts_of self.new) result }

        // It fails exactly where it was told to.
        ensures failed { IsFailedWrite result ↔ IsToFail self.old }
        ensures counted { CountsCall self.old self.new }
    {
        if self.write_fails() {
            return Err(PutErr::Failed(FaultKind::Other));
        }
        self.written.clear(name)?;
        Ok(())
    }

    /// A call that is to fail appends a front of the piece.
    fn put(&mut self, name: &str, piece: &[u8]) -> Result<(), PutErr>
        requires begun { IsSome (written_of self.old name.now) }
        ensures texts { texts_of self.new ≡ texts_of self.old }
        ensures text { Appends piece.now (written_of self.old name.now) (written_of self.new name.now) result }
        ensures others { (other : List ℕ) → other ≢ name.now → written_of self.new other ≡ written_of self.old other }
        ensures cause { PutCause (fault_counts_of self.old) (fault_counts_of self.new) result }

        // It fails exactly where it was told to.
        ensures failed { IsFailedWrite result ↔ IsToFail self.old }
        ensures counted { CountsCall self.old self.new }
    {
        if self.write_fails() {
            let _ = self.written.append(name, &piece[..piece.len() / 2]);
            return Err(PutErr::Failed(FaultKind::Other));
        }
        self.written.append(name, piece)?;
        Ok(())
    }
}
