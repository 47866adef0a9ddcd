ghost use Rattle.std.specs.Prelude.{◌≡◌};

use loc_base::NoMemory as WantOfMemory;
use std::alloc::AllocFailed;
use thiserror::Error;

/// Why there is no form: its clauses would have too many literals, or want of memory.
#[derive(Clone, Copy, Debug, PartialEq, Eq, Error)]
pub enum FormErr {
    #[error("more literals of the clauses than are allowed")]
    Literals,
    #[error("out of memory")]
    NoMemory,
}

impl From<WantOfMemory> for FormErr {
    ghost use Rattle.clause_form.specs.declared.error.FormErr.TheVariants as cause;

    ghost from_gives = { λ _ e. e ≡ cause.NoMemory };

    fn from(_error: WantOfMemory) -> FormErr {
        FormErr::NoMemory
    }
}

impl<T: Drop> From<AllocFailed<T>> for FormErr {
    ghost use Rattle.clause_form.specs.declared.error.FormErr.TheVariants as cause;

    ghost from_gives = { λ _ e. e ≡ cause.NoMemory };

    fn from(_failed: AllocFailed<T>) -> FormErr {
        FormErr::NoMemory
    }
}
