//! The signals of a design and its clock.
ghost use Rattle.std.specs.Prelude.{◌≡◌};

use design_core::Signal;
use loc_base::Items;
use std::marker::Model;

/// The signals of a design and the number of its clock, if it has one. Contracts see it as the record of the definitions.
pub struct Frame {
    signals: Items<Signal>,
    clock: Option<u32>,
}

impl Model for Frame {
    ghost use Rattle.v_binding.specs.Blocks.{Frame as Plain};

    ghost Value = { Plain };

    ghost view = { λ f. record { signals = f.signals; clock = f.clock } };
}

// A `drop` is written out, so that it is proved once, here: a derived one is proved again by each crate that lets a value go.
impl Drop for Frame {
    fn drop(self) {
        let Frame {
            signals: _,
            clock: _,
        } = self;
    }
}

impl Frame {
    pub fn new(signals: Items<Signal>, clock: Option<u32>) -> Frame
        ensures { result ≡ record { signals = signals; clock = clock } }
    {
        Frame { signals, clock }
    }

    pub fn signals(&self) -> &[Signal]
        ensures { result.now ≡ self.now.signals }
    {
        self.signals.as_slice()
    }

    pub fn clock(&self) -> Option<u32>
        ensures { result ≡ self.now.clock }
    {
        self.clock
    }

    pub fn into_signals(self) -> Items<Signal>
        ensures { result ≡ self.signals }
    {
        let Frame { signals, clock: _ } = self;
        signals
    }
}
