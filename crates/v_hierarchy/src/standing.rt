//! What names are declared as.
ghost use Rattle.std.specs.Prelude.{◌≡◌, ◌≤◌, pos};
ghost use Rattle.v_sizes.specs.Context.{IsMeaning};
ghost use Rattle.v_sizes.specs.declared.meaning.Meaning.TheVariants as meaning;
ghost use Rattle.v_hierarchy.specs.Constants.{width};
ghost use Rattle.v_hierarchy.specs.Names.{meaning_of};
ghost use Rattle.v_hierarchy.specs.Views.{standing_of};

use crate::bounds::Bounds;
use crate::signal::Signal;
use v_sizes::{Const, Meaning};
use v_syntax::{Identifier, Range};

/// What a name is declared as.
#[derive(Clone, Copy)]
pub enum Standing<'t> {
    /// A port, a net or a register.
    Signal(Signal),
    /// Words, with the range of addresses as it is written (4.9).
    Array(Signal, &'t Range),
    Integer,
    Genvar,
    /// A parameter, or a loop's variable at one turn.
    Constant { value: Const, bounds: Bounds },
}

/// A name with what it is declared as.
#[derive(Clone, Copy)]
pub struct Entry<'t> {
    pub name: &'t Identifier,
    pub standing: Standing<'t>,
}

/// A register or a net of a width and a range, that has no number yet.
fn signal_of(signed: bool, bounds: Bounds) -> Meaning
    requires { width bounds ≤ 128 }
    ensures { result ≡ meaning.Signal 0 (width bounds) signed bounds.left bounds.right }
{
    Meaning::Signal {
        signal: 0,
        width: bounds.width(),
        signed,
        left: bounds.left,
        right: bounds.right,
    }
}

/// One word of a width and a range, that has no number yet.
fn array_of(signed: bool, bounds: Bounds) -> Meaning
    requires { width bounds ≤ 128 }
    ensures { result ≡ meaning.Array 0 1 (pos 0) (width bounds) signed bounds.left bounds.right }
{
    Meaning::Array {
        first: 0,
        count: 1,
        low: 0,
        width: bounds.width(),
        signed,
        left: bounds.left,
        right: bounds.right,
    }
}

impl<'t> Standing<'t> {
    /// What it stands for while constants are wanted: nothing has a number yet.
    pub fn meaning(&self) -> Meaning
        requires { IsMeaning (meaning_of (standing_of self.now)) }
        ensures { result ≡ meaning_of (standing_of self.now) }
    {
        match self {
            Standing::Signal(signal) => signal_of(signal.signed, signal.range()),
            Standing::Array(signal, _) => array_of(signal.signed, signal.range()),
            Standing::Integer | Standing::Genvar => signal_of(true, Bounds { left: 31, right: 0 }),
            Standing::Constant { value, bounds } => Meaning::Constant {
                value: *value,
                left: bounds.left,
                right: bounds.right,
            },
        }
    }
}
