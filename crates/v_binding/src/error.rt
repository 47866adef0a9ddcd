ghost use Rattle.std.specs.Prelude.{◌≡◌};
ghost use Rattle.v_binding.specs.declared.error.BindErr.TheVariants.{NoMemory as OutOfMemory};
ghost use Rattle.v_binding.specs.Faults.{fault_of};

use loc_base::{NoMemory, Span};
use thiserror::Error;
use v_sizes::WidthErr;

/// Why instances mean no design, and where: the first rule that is broken.
#[derive(Clone, Copy, Debug, PartialEq, Eq, Error)]
pub enum BindErr {
    /// No scope around has the name, or the name stands with selects that it can't have, or is a constant on a left side.
    #[error("an unknown name, or one that can't stand here or with these selects")]
    UnknownName(Span),
    /// A constant is wanted here, or a loop's variable stands outside its loop or on a left side.
    #[error("a constant is wanted here, or a loop's variable isn't one or is out of place")]
    NotConstant(Span),
    /// A division by 0.
    #[error("a division by 0")]
    ZeroDivisor(Span),
    /// A width that isn't 1 to 128, more than 1,024 words in an array or 65,536 in all of them, an address that isn't of 32 bits,
    /// or a part-select against the direction of its range.
    #[error("a width not of 1 to 128, a bound not of 32 bits, a part-select against its range, or over 1,024 words (65,536 in all arrays)")]
    Range(Span),
    /// An output that is connected to what can't be a left side, or a gate with too few or too many terminals.
    #[error("an output connected to what can't be a left side, or a gate with too few terminals or more than 4,096 inputs")]
    PortName(Span),
    /// More places, signals, or drivers and clocked blocks than a design may have.
    #[error("more than 65,536 places, 1,048,576 signals, or 1,048,576 drivers and clocked blocks")]
    Places,
    /// A bit has two drivers, or an input of the top has one.
    #[error("a signal of which a bit has two drivers, or an input of the top that has one")]
    MultiDriver(Span),
    /// A bit of a net that is used has no driver.
    #[error("a net of which a bit is used and has no driver")]
    Undriven(Span),
    /// A combinational block holds a bit.
    #[error("a latch: a combinational block that keeps a value on some path")]
    Latch(Span),
    /// The clock is no 1-bit input, is read, or a block waits for another edge or has a reset of another form.
    #[error("a clock that is no 1-bit input of the top or that is read, or a block with other edges or another form of reset")]
    Clock(Span),
    /// A signal is assigned in two ways, or in one that it can't be.
    #[error("a signal assigned both by `=` and `<=`, a register assigned outside a block, or a net inside one")]
    MixedAssign(Span),
    /// What a clocked block assigns by `=` is used elsewhere.
    #[error("a signal that a clocked block assigns by `=` and that is used outside of it")]
    RaceRead(Span),
    /// Want of memory.
    #[error("out of memory")]
    NoMemory,
}

impl From<NoMemory> for BindErr {
    ghost from_gives = { λ _ e. e ≡ OutOfMemory };

    fn from(_error: NoMemory) -> BindErr {
        BindErr::NoMemory
    }
}

impl From<WidthErr> for BindErr {
    ghost from_gives = { λ error e. e ≡ fault_of error };

    fn from(error: WidthErr) -> BindErr {
        match error {
            WidthErr::UnknownName(span) => BindErr::UnknownName(span),
            WidthErr::NotConstant(span) => BindErr::NotConstant(span),
            WidthErr::ZeroDivisor(span) => BindErr::ZeroDivisor(span),
            WidthErr::Range(span) => BindErr::Range(span),
            WidthErr::NoMemory => BindErr::NoMemory,
        }
    }
}
