ghost use Rattle.std.specs.Prelude.{◌≡◌};
ghost use Rattle.v_hierarchy.specs.declared.error.ElabErr.TheVariants.{NoMemory as OutOfMemory};

use loc_base::{NoMemory, Span};
use thiserror::Error;

/// Why a text means no instances, and where: the first rule that the walk meets and finds broken.
#[derive(Clone, Copy, Debug, PartialEq, Eq, Error)]
pub enum ElabErr {
    /// No declaration that stands before has this name.
    #[error("an unknown name, or one that can't stand here or with these selects")]
    UnknownName(Span),
    /// A constant is wanted here, or a loop's variable isn't one.
    #[error("a constant is wanted here, or a loop's variable isn't one or is out of place")]
    NotConstant(Span),
    /// A division by 0.
    #[error("a division by 0")]
    ZeroDivisor(Span),
    /// A width that isn't 1 to 128, a bound that isn't of 32 bits, or a part-select against the direction of its range.
    #[error("a width not of 1 to 128, a bound not of 32 bits, or a part-select against its range")]
    Range(Span),
    /// No module has the top's name.
    #[error("no module has the name of the top")]
    NoTop,
    /// No module has this name.
    #[error("a module that the text doesn't have")]
    UnknownModule(Span),
    /// A name is declared twice in its scope, or a module twice in the text.
    #[error("a name that is declared twice, or a second module of one name")]
    DoubleName(Span),
    /// A port without a direction, a direction without a port, or a connection to no port or to one that has one.
    #[error("a port without a direction, a direction without a port, or a connection to no port or a second one")]
    PortName(Span),
    /// An instance more than 64 levels below the top.
    #[error("an instance more than 64 levels below the top")]
    Depth(Span),
    /// More than 65,536 turns of loops, or module instances, in the design.
    #[error("more than 65,536 turns of loops, or more than 65,536 instances")]
    Turns(Span),
    /// A value for no parameter, for a local one, or a second one.
    #[error("a value for no parameter, for a local one, or a second value for one")]
    Parameter(Span),
    /// Want of memory.
    #[error("out of memory")]
    NoMemory,
}

impl From<NoMemory> for ElabErr {
    ghost from_gives = { λ _ e. e ≡ OutOfMemory };

    fn from(_error: NoMemory) -> ElabErr {
        ElabErr::NoMemory
    }
}
