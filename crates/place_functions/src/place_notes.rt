//! What right sides read, by their places.

ghost use Rattle.std.specs.Prelude.{◌≡◌, ℕ};
ghost use Rattle.std.specs.List.Sorted.{IsNonDecreasingBy};
ghost use Rattle.place_functions.specs.Notes.{notes_have, place_of, some_reads};

use crate::note::Note;

/// Puts notes in the order of their places.
pub(crate) fn by_place(notes: &mut Vec<Note>)
    ensures ordered { IsNonDecreasingBy place_of notes.new.items }
    ensures same { (p s b : ℕ) → notes_have notes.new.items p s b ≡ notes_have notes.old.items p s b }
{
    notes.sort_unstable_by_key(|note| note.place);
}

/// Those of a place.
pub(crate) fn notes_at(notes: &[Note], place: u32) -> &[Note]
    requires { IsNonDecreasingBy place_of notes.now }
    ensures { (s b : ℕ) → some_reads result.now s b ≡ notes_have notes.now place s b }
{
    let (_, rest) = notes.split_at(notes.partition_point(|note| note.place < place));
    let (own, _) = rest.split_at(rest.partition_point(|note| note.place <= place));
    own
}
