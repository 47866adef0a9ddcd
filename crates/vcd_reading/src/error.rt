ghost use Rattle.std.specs.Prelude.{◌≡◌};
ghost use Rattle.vcd_reading.specs.declared.error.VcdErr.TheVariants.{NoMemory as OutOfMemory};

use loc_base::NoMemory;
use thiserror::Error;

/// Why the text of a dump holds no trace of a design. Where several hold, the first of this list counts, but that
/// `Cycles` stands before `UnknownInput`.
#[derive(Clone, Copy, Debug, PartialEq, Eq, Error)]
pub enum VcdErr {
    /// A word that has no place in a dump: the offset of its first byte, or the text's length where the text ends too
    /// soon.
    #[error("a word at byte {offset} that can't stand there, or a text that ends there too soon")]
    Syntax { offset: usize },
    /// No scope declares every port of the top.
    #[error("no scope declares every port of the top")]
    MissingPort,
    /// A port's variable hasn't the port's width, or is a real: the number of the port's signal.
    #[error("a port whose variable is real or has another width")]
    PortWidth { port: u32 },
    /// There is no cycle.
    #[error("there is no cycle")]
    NoCycle,
    /// An input has an unknown bit at a sample: the cycle, and the number of the input's signal.
    #[error("an input with an unknown bit in cycle {cycle}")]
    UnknownInput { cycle: u32, port: u32 },
    /// There are more than 100,000 cycles.
    #[error("more than 100,000 cycles")]
    Cycles,
    /// Want of memory.
    #[error("out of memory")]
    NoMemory,
}

impl From<NoMemory> for VcdErr {
    ghost from_gives = { λ _ e. e ≡ OutOfMemory };

    fn from(_error: NoMemory) -> VcdErr {
        VcdErr::NoMemory
    }
}
