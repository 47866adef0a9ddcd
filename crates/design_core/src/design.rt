use crate::driver::{Clocked, Driver};
use crate::place::Place;
use crate::signal::Signal;

/// An elaborated design. Signals, drivers and places are numbered from 0 by their places in these lists.
pub struct Design {
    pub signals: Vec<Signal>,
    pub drivers: Vec<Driver>,
    pub clocked: Vec<Clocked>,
    pub places: Vec<Place>,
    /// The inputs of the top in port order, without the clock.
    pub inputs: Vec<u32>,
    /// The outputs of the top in port order.
    pub outputs: Vec<u32>,
}

// A `drop` is written out, so that it is proved once, here: a derived one is proved again by each crate that lets a value go.
impl Drop for Design {
    fn drop(self) {
        let Design {
            signals: _,
            drivers: _,
            clocked: _,
            places: _,
            inputs: _,
            outputs: _,
        } = self;
    }
}
