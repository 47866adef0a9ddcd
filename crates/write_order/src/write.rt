//! The three writes.
ghost use Rattle.std.specs.Prelude.{◌≡◌, [], ◌∷◌, ℕ, List, true, Option, IsSome, OnOk};
ghost use Rattle.write_order.specs.Writes.{Leaves, PrintCause, WriteCause, begin_text, on_shelf, on_sink, print_piece, put_piece};

use io_ports::{PutErr, Shelf, Sink, SinkFault};
use refusal::{Note, Notes};
use thiserror::Error;

/// Why a write isn't carried out.
#[derive(Clone, Copy, Debug, PartialEq, Eq, Error)]
pub enum WriteErr {
    /// The shelf or the sink failed. Its count of faults rose.
    #[error("a write failed")]
    Failed,
    /// Memory was refused.
    #[error("out of memory")]
    NoMemory,
}

/// Makes the text under a name empty. Where that fails it is told.
#[tactic(auto, using(crate::proofs::Carried::one_write))]
pub fn begin_text<S: Shelf, N: Notes>(
    shelf: &mut S,
    name: &str,
    notes: &mut N,
) -> Result<(), WriteErr>
    ensures tells { S.tells shelf.new ≡ S.tells shelf.old }
    ensures texts { S.texts shelf.new ≡ S.texts shelf.old }
    ensures left { S.tells shelf.old ≡ true → (printed : List ℕ)
        → Leaves (begin_text name.now ∷ []) (on_shelf (S.written shelf.old) (S.written shelf.new) printed) result }
    ensures begun { S.tells shelf.old ≡ true → OnOk result (IsSome (S.written shelf.new name.now)) }
    ensures cause { WriteCause (S.faults shelf.old) (S.faults shelf.new) result }
{
    match shelf.begin(name) {
        Ok(()) => Ok(()),
        Err(PutErr::Failed(cause)) => {
            notes.note(&Note::Unwritten { name, cause });
            Err(WriteErr::Failed)
        }
        Err(PutErr::NoMemory) => Err(WriteErr::NoMemory),
    }
}

/// Puts a piece behind the text under a name that was begun. Where that fails it is told.
#[tactic(auto, using(crate::proofs::Carried::one_write))]
pub fn put_piece<S: Shelf, N: Notes>(
    shelf: &mut S,
    name: &str,
    piece: &[u8],
    notes: &mut N,
) -> Result<(), WriteErr>
    requires begun { S.tells shelf.old ≡ true → IsSome (S.written shelf.old name.now) }
    ensures tells { S.tells shelf.new ≡ S.tells shelf.old }
    ensures texts { S.texts shelf.new ≡ S.texts shelf.old }
    ensures left { S.tells shelf.old ≡ true → (printed : List ℕ)
        → Leaves (put_piece name.now piece.now ∷ []) (on_shelf (S.written shelf.old) (S.written shelf.new) printed) result }
    ensures begun { S.tells shelf.old ≡ true → OnOk result (IsSome (S.written shelf.new name.now)) }
    ensures cause { WriteCause (S.faults shelf.old) (S.faults shelf.new) result }
{
    match shelf.put(name, piece) {
        Ok(()) => Ok(()),
        Err(PutErr::Failed(cause)) => {
            notes.note(&Note::Unwritten { name, cause });
            Err(WriteErr::Failed)
        }
        Err(PutErr::NoMemory) => Err(WriteErr::NoMemory),
    }
}

/// Prints a piece. That it is about to is told, and where it fails.
#[tactic(auto, using(crate::proofs::Carried::one_write))]
pub fn print_piece<O: Sink, N: Notes>(
    out: &mut O,
    piece: &[u8],
    notes: &mut N,
) -> Result<(), WriteErr>
    ensures tells { O.tells out.new ≡ O.tells out.old }
    ensures left { O.tells out.old ≡ true → (written : List ℕ → Option (List ℕ))
        → Leaves (print_piece piece.now ∷ []) (on_sink written (O.written out.old) (O.written out.new)) result }
    ensures cause { PrintCause (O.faults out.old) (O.faults out.new) result }
{
    notes.note(&Note::Printing);
    match out.put(piece) {
        Ok(()) => Ok(()),
        Err(SinkFault::Failed(cause)) => {
            // The output has no name.
            notes.note(&Note::Unwritten { name: "", cause });
            Err(WriteErr::Failed)
        }
        Err(SinkFault::NoMemory) => Err(WriteErr::NoMemory),
    }
}
