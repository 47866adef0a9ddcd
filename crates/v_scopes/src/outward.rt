//! The scopes around the innermost one, as a stack of which the last is the innermost.
ghost use Rattle.std.specs.Prelude.{◌≡◌, ◌∷◌, ℕ, List, map, option_map, true, IfSome};
ghost use Rattle.v_sizes.specs.Context.{IsMeaning};
ghost use Rattle.v_sizes.specs.Scopes.{look_of, has_entry};
ghost use Rattle.v_hierarchy.specs.Names.{find_in, look_in, meaning_of};
ghost use Rattle.v_hierarchy.specs.Views.{standing_of, entry_of};
ghost use Rattle.v_scopes.specs.Outer.{around};

use loc_base::Name;
use v_hierarchy::{Entry, Frame, Standing};
use v_sizes::{Meaning, Scope};

/// What a name is declared as in the innermost of the scopes that has it.
pub(crate) fn find_around<'t>(frames: &[Frame<'t>], name: &Name) -> Option<Standing<'t>>
    ensures found { option_map standing_of result ≡ find_in (around frames.now) name.now }
    ensures stands { IfSome result (λ s. IsMeaning (meaning_of (standing_of s))) }
{
    let mut found = None;
    for frame in frames {
        if let Some(standing) = frame.find(name) {
            found = Some(standing);
        }
    }
    found
}

/// What a name stands for in these scopes.
fn meaning_around(frames: &[Frame<'_>], name: &Name) -> Option<Meaning>
    ensures found { result ≡ look_in (around frames.now) name.now }
    ensures stands { IfSome result IsMeaning }
{
    let standing = find_around(frames, name)?;
    Some(standing.meaning())
}

/// Lets each of these names, which are those of the scope inside, stand for what it does in the scopes around it.
pub(crate) fn put_back<'t>(meanings: &mut Scope<'t>, names: &[Entry<'t>], frames: &[Frame<'t>])
    requires { (name : List ℕ) → look_of meanings.old name ≡ look_in (map entry_of names.now ∷ around frames.now) name }
    ensures { (name : List ℕ) → look_of meanings.new name ≡ look_in (around frames.now) name }
{
    for entry in names {
        let name = &entry.name.name;
        meanings.set(name, meaning_around(frames, name));
    }
}
