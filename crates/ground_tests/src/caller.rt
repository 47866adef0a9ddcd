//! A caller that knows the shelf by its trait alone, proved from the trait's clauses: a fault ends it, and what it has
//! written then is a front of what was due.
ghost use Rattle.std.specs.Prelude.{◌≡◌, ◌≢◌, ◌⊎◌, ◌++◌, ℕ, List, [], true, Some, unwrap_or, OnOk, IsErrOf, IsSomeAnd};
ghost use Rattle.std.specs.Io.{StartsWith};
ghost use Rattle.io_ports.specs.Faults.{LoadRoseOf, WriteRose};

use crate::same::same;
use io_ports::{LoadErr, MemShelf, Numbers, PutErr, Shelf, Texts};
use loc_base::Bytes;
use std::alloc::Global;
use std::test::Fail;

/// Why the caller stopped.
#[derive(Clone, Copy, Debug, PartialEq, Eq)]
enum Stop {
    ReadFault,
    WriteFault,
    Size,
    Memory,
}

impl From<PutErr> for Stop {
    ghost use Rattle.io_ports.specs.declared.errors.PutErr.TheVariants as put;
    ghost use Rattle.io_ports.specs.declared.fault_kind.FaultKind.{FaultKind};
    ghost use Rattle.ground_tests.specs.declared.caller.Stop.TheVariants as stop;

    ghost from_gives = { λ e s. ((kind : FaultKind) → e ≡ put.Failed kind → s ≡ stop.WriteFault) × (e ≡ put.NoMemory → s ≡ stop.Memory) };

    fn from(error: PutErr) -> Stop {
        match error {
            PutErr::Failed(_) => Stop::WriteFault,
            PutErr::NoMemory => Stop::Memory,
        }
    }
}

/// Writes a text twice under another name.
fn copy_twice<S: Shelf>(shelf: &mut S, alloc: Global, from: &str, to: &str) -> Result<(), Stop>
    // What is due is the text twice, and what was written is due, or a front of it, or as before.
    ensures due { S.tells shelf.old ≡ true → OnOk result (let text = unwrap_or (S.texts shelf.old from.now) [] in S.written shelf.new to.now ≡ Some (text ++ text)) }
    ensures front { S.tells shelf.old ≡ true → let text = unwrap_or (S.texts shelf.old from.now) [] in
        (S.written shelf.new to.now ≡ S.written shelf.old to.now) ⊎ IsSomeAnd (S.written shelf.new to.now) (StartsWith (text ++ text)) }
    ensures others { (other : List ℕ) → other ≢ to.now → S.written shelf.new other ≡ S.written shelf.old other }

    // A read fault is answered only where the load of the text failed in this call, a write fault only where a write did.
    ensures read { IsErrOf result Stop.ReadFault → LoadRoseOf from.now (S.faults shelf.old) (S.faults shelf.new) }
    ensures write { IsErrOf result Stop.WriteFault → WriteRose (S.faults shelf.old) (S.faults shelf.new) }
    ensures memory { IsErrOf result Stop.Memory → S.faults shelf.new ≡ S.faults shelf.old }
    ensures ok { OnOk result (S.faults shelf.new ≡ S.faults shelf.old) }
{
    let text = match shelf.load(alloc, from, 100) {
        Ok(text) => text,
        Err(LoadErr::Failed(_)) => return Err(Stop::ReadFault),
        Err(LoadErr::TooBig) => return Err(Stop::Size),
        Err(LoadErr::NoMemory) => return Err(Stop::Memory),
    };
    shelf.begin(to)?;
    shelf.put(to, text.as_slice())?;
    shelf.put(to, text.as_slice())?;
    Ok(())
}

/// What a caller that is stopped by the call of a number leaves under `to`.
fn left_by(alloc: Global, fails: u64) -> Result<(Result<(), Stop>, MemShelf), Fail> {
    let mut texts = Texts::new(alloc);
    texts.add("from", Bytes::copy_of(alloc, b"abcd")?)?;
    let mut numbers = Numbers::new(alloc);
    numbers.push(fails)?;
    let mut shelf = MemShelf::new(alloc, texts, numbers);
    let answer = copy_twice(&mut shelf, alloc, "from", "to");
    Ok((answer, shelf))
}

/// The call that fails, the answer, and what is left.
const STOPPED: [(u64, Result<(), Stop>, Option<&[u8]>); 5] = [
    (0, Err(Stop::ReadFault), None),
    (1, Err(Stop::WriteFault), None),
    (2, Err(Stop::WriteFault), Some(b"ab")),
    (3, Err(Stop::WriteFault), Some(b"abcdab")),
    (4, Ok(()), Some(b"abcdabcd")),
];

#[test]
fn the_first_fault_ends_a_caller(rt: HostRuntime) -> Result<(), Fail> {
    for row in &STOPPED {
        let (fails, want, left) = *row;
        let (answer, shelf) = left_by(rt.alloc(), fails)?;
        same(&rt, row, &answer, &want);
        same(&rt, row, &shelf.text("to").map(Bytes::as_slice), &left);
    }
    Ok(())
}
