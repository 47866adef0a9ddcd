//! Inputs of the top that plain names hand on (IEEE 1364-2005, 12.3.9).
ghost use Rattle.std.specs.Prelude.{◌≡◌};

use std::marker::Model;

/// A signal with the input of the top that it is, or is connected to by plain names. Contracts see it as the record of the
/// definitions.
#[derive(Clone, Copy)]
pub struct Root {
    signal: u32,
    input: u32,
}

impl Model for Root {
    ghost use Rattle.v_binding.specs.Bound.{Root as Plain};

    ghost Value = { Plain };

    ghost view = { λ r. record { signal = r.signal; input = r.input } };

    ghost inverse = { λ r. record { signal = r.signal; input = r.input } };
}

impl Root {
    /// A signal that is an input of the top, or is connected to it.
    pub fn new(signal: u32, input: u32) -> Root
        ensures { result ≡ record { signal = signal; input = input } }
    {
        Root { signal, input }
    }

    pub fn signal(&self) -> u32
        ensures { result ≡ self.now.signal }
    {
        self.signal
    }

    pub fn input(&self) -> u32
        ensures { result ≡ self.now.input }
    {
        self.input
    }
}
