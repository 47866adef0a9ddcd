//! The table of the variables that a line has.

ghost use Rattle.std.specs.Prelude.{◌≡◌, ℕ, ◌<◌, ◌&&◌, ◌==◌, false, not, length, slice_index_or, OnOk};
ghost use Rattle.clause_base.specs.Literal.{has_variable};

use clause_base::Lit;
use loc_base::NoMemory;

/// Whether the variable is marked. One past the table's end isn't.
pub(crate) fn is_seen(seen: &[bool], var: u32) -> bool
    ensures { result ≡ slice_index_or seen.now var false }
{
    (var as usize) < seen.len() && seen[var as usize]
}

/// Makes a place for the variable's mark.
pub(crate) fn make_place(seen: &mut Vec<bool>, var: u32) -> Result<(), NoMemory>
    ensures same { (v : ℕ) → slice_index_or seen.new.items v false ≡ slice_index_or seen.old.items v false }
    ensures place { OnOk result (var < length seen.new.items) }
{
    if var as usize >= seen.len() {
        seen.resize(var as usize + 1, false)?;
    }
    Ok(())
}

/// Makes the marks of the literals' variables false again.
#[tactic(auto, using(crate::proofs::Seen::forgetting))]
pub(crate) fn forget(seen: &mut [bool], literals: &[Lit])
    requires { (v : ℕ) → slice_index_or seen.old v false ≡ has_variable literals.now v }
    ensures { (v : ℕ) → slice_index_or seen.new v false ≡ false }
{
    for literal in literals {
        unsee(seen, literal.var);
    }
}

/// Makes the mark of the variable false.
#[tactic(auto, using(crate::proofs::Seen::unseen))]
fn unsee(seen: &mut [bool], var: u32)
    ensures { (v : ℕ) → slice_index_or seen.new v false ≡ (slice_index_or seen.old v false && not (v == var)) }
{
    if var as usize >= seen.len() {
        return;
    }
    seen[var as usize] = false;
}
