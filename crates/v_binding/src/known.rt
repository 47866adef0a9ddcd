//! Names with what they stand for (IEEE 1364-2005, 12.7).
ghost use Rattle.std.specs.Prelude.{◌≡◌};
ghost use Rattle.v_sizes.specs.Context.{IsMeaning};
ghost use Rattle.v_binding.specs.Uses.{bare_meaning, IsUse-prop};

use loc_base::Name;
use v_sizes::{Const, Meaning};

/// What a name stands for.
#[derive(Clone, Copy)]
pub enum Use {
    /// A parameter, a signal or an array.
    Stands(Meaning),
    /// The variable of a loop at one turn.
    AtTurn(Const),
    /// A genvar, or an integer that loops use, outside their turns.
    Outside,
}

impl Use {
    ghost use Rattle.std.specs.Prelude.{None};
    ghost use Rattle.v_binding.specs.Uses.{meaning_of};

    /// As an expression has it: the variable of a loop is nothing outside its turns.
    pub fn meaning(self) -> Option<Meaning>
        ensures { result ≡ meaning_of self }
    {
        match self {
            Use::Outside => None,
            Use::Stands(_) | Use::AtTurn(_) => Some(self.bare_meaning()),
        }
    }

    /// The same, where the variable of a loop is a register outside its turns.
    pub fn bare_meaning(self) -> Meaning
        ensures { result ≡ bare_meaning self }
    {
        match self {
            Use::Stands(meaning) => meaning,
            Use::AtTurn(value) => Meaning::Constant {
                value,
                left: 31,
                right: 0,
            },
            Use::Outside => Meaning::Signal {
                signal: 0,
                width: 32,
                signed: true,
                left: 31,
                right: 0,
            },
        }
    }
}

/// A name with what it stands for.
#[derive(Clone, Copy)]
pub struct Known<'t> {
    pub name: &'t Name,
    pub use_of: Use,
    pub ghost stands: { IsMeaning (bare_meaning use_of) } by { IsUse-prop use_of },
}

impl<'t> Known<'t> {
    /// A name that stands for something of 1 to 128 bits.
    pub fn new(name: &'t Name, use_of: Use) -> Known<'t>
        requires { IsMeaning (bare_meaning use_of) }
        ensures name { result.name.now ≡ name.now }
        ensures is { result.use_of ≡ use_of }
    {
        Known { name, use_of }
    }
}
