ghost use Rattle.std.specs.Prelude.{◌≡◌};
ghost use Rattle.v_sizes.specs.declared.error.WidthErr.TheVariants.{NoMemory as OutOfMemory};

use loc_base::{NoMemory, Span};
use thiserror::Error;

/// Why an expression has no width, or no value as a constant, and where: the leftmost part that is wrong by itself.
#[derive(Clone, Copy, Debug, PartialEq, Eq, Error)]
pub enum WidthErr {
    /// The scope lacks the name, or the name stands with selects that it can't have.
    #[error("an unknown name, or one that can't stand here or with these selects")]
    UnknownName(Span),
    /// A constant is wanted here.
    #[error("a constant is wanted here, or a loop's variable isn't one or is out of place")]
    NotConstant(Span),
    /// A division by 0.
    #[error("a division by 0")]
    ZeroDivisor(Span),
    /// A width that isn't 1 to 128, or a part-select against the direction of its range.
    #[error("a width not of 1 to 128, a bound not of 32 bits, or a part-select against its range")]
    Range(Span),
    /// Want of memory.
    #[error("out of memory")]
    NoMemory,
}

impl From<NoMemory> for WidthErr {
    ghost from_gives = { λ _ e. e ≡ OutOfMemory };

    fn from(_error: NoMemory) -> WidthErr {
        WidthErr::NoMemory
    }
}
