//! Start values of registers (IEEE 1364-2005, 6.2.1 and 9.9.1).
ghost use Rattle.std.specs.Prelude.{◌≡◌, ◌≤◌};
ghost use Rattle.v_binding.specs.Starts.{start, initially};

use loc_base::{Bits, Span};
use std::marker::Model;
use v_hierarchy::assigned;
use v_sizes::Const;

/// A signal with a value that it has at the start. Contracts see it as the record of the definitions.
pub struct StartValue {
    signal: u32,
    value: Bits,
}

/// A start value of an initial block, with the name that it assigns. Contracts see it as the record of the definitions.
pub struct Initial {
    start: StartValue,
    span: Span,
}

impl Model for StartValue {
    ghost use Rattle.v_binding.specs.Starts.{Start as Plain};

    ghost Value = { Plain };

    ghost view = { λ s. record { signal = s.signal; value = s.value } };
}

impl Model for Initial {
    ghost use Rattle.v_binding.specs.Starts.{Initial as Plain};

    ghost Value = { Plain };

    ghost view = { λ i. record { start = i.start; span = i.span } };
}

// A `drop` is written out, so that it is proved once, here: a derived one is proved again by each crate that lets a value go.
impl Drop for StartValue {
    fn drop(self) {
        let StartValue {
            signal: _,
            value: _,
        } = self;
    }
}

impl Drop for Initial {
    fn drop(self) {
        let Initial { start: _, span: _ } = self;
    }
}

impl StartValue {
    /// A constant that is assigned to so many bits.
    pub fn new(signal: u32, width: u8, value: Const) -> StartValue
        requires least { 1 ≤ width }
        requires most { width ≤ 128 }
        ensures { result ≡ start signal width value }
    {
        StartValue {
            signal,
            value: assigned(width, value.signed, value).bits,
        }
    }

    pub fn signal(&self) -> u32
        ensures { result ≡ self.now.signal }
    {
        self.signal
    }

    pub fn value(&self) -> Bits
        ensures { result ≡ self.now.value }
    {
        self.value
    }
}

impl Initial {
    /// A start value that the initial block with this name gives.
    pub fn new(span: Span, start: StartValue) -> Initial
        ensures { result ≡ initially span start }
    {
        Initial { start, span }
    }

    pub fn start(&self) -> &StartValue
        ensures { result.now ≡ self.now.start }
    {
        &self.start
    }

    pub fn span(&self) -> Span
        ensures { result ≡ self.now.span }
    {
        self.span
    }
}
