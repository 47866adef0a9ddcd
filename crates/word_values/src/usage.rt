//! Why words give no request.
ghost use Rattle.std.specs.Prelude.{◌≡◌};
ghost use Rattle.word_values.specs.declared.usage.WordsErr.TheVariants as words_err;

use loc_base::NoMemory;
use std::alloc::AllocError;
use thiserror::Error;

/// The first thing that is wrong with the words; each stands for all that come before it.
#[derive(Clone, Copy, Debug, PartialEq, Eq, Error)]
pub enum Usage {
    /// There is no command of this name.
    #[error("there is no such command")]
    Command,
    /// The words don't stand as the command's words do.
    #[error("a word that is missing, one too many, or not known")]
    Words,
    /// A value that is to be a number isn't one, or not in its range.
    #[error("a number that is out of its range, or isn't 1 to 10 decimal digits")]
    Number,
    /// A value that is to be a name isn't one, or is one that is taken; of a session one name is given alone; or there are too many names.
    #[error("a name that can't be one or is taken, one name of a session without the other, or more than 256 dumps")]
    Name,
    /// A kind of suspects isn't known, or is named twice.
    #[error("a kind of suspects that isn't known or is named twice")]
    Kind,
}

/// Why there is no request.
#[derive(Clone, Copy, Debug, PartialEq, Eq, Error)]
pub enum WordsErr {
    /// The words ask for nothing.
    #[error(transparent)]
    Usage(Usage),
    /// Memory was refused.
    #[error("out of memory")]
    NoMemory,
}

impl From<Usage> for WordsErr {
    ghost from_gives = { λ usage e. e ≡ words_err.Usage usage };

    fn from(usage: Usage) -> WordsErr {
        WordsErr::Usage(usage)
    }
}

impl From<NoMemory> for WordsErr {
    ghost from_gives = { λ _ e. e ≡ words_err.NoMemory };

    fn from(_error: NoMemory) -> WordsErr {
        WordsErr::NoMemory
    }
}

impl From<AllocError> for WordsErr {
    ghost from_gives = { λ _ e. e ≡ words_err.NoMemory };

    fn from(_error: AllocError) -> WordsErr {
        WordsErr::NoMemory
    }
}
