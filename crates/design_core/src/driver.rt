use crate::expression::Typed;
use crate::statement::{Stmt, Target};
use loc_base::Span;

/// What gives bits their values within a cycle.
pub enum Driver {
    /// A continuous assignment (IEEE 1364-2005, 6.1), an output of a gate (7.2), or a port connection (12.3.9).
    Cont {
        target: Target,
        value: Typed,
        place: Option<u32>,
        span: Span,
    },
    /// A combinational always block (IEEE 1364-2005, 9.9), which follows everything that it reads.
    Comb {
        body: Stmt,
        span: Span,
    },
}

/// The asynchronous reset of a clocked block (IEEE 1364.1-2002, 5.2.2.1). It is active where the signal, a 1-bit
/// input of the top, is 1 where `level` is true, else where it is 0. `values` assigns constants alone.
pub struct Reset {
    pub signal: u32,
    pub level: bool,
    pub values: Stmt,
}

/// A clocked always block (IEEE 1364.1-2002, 5.2.2).
pub struct Clocked {
    pub reset: Option<Reset>,
    pub body: Stmt,
}

// A `drop` is written out, so that it is proved once, here: a derived one is proved again by each crate that lets a value go.
impl Drop for Driver {
    fn drop(self) {
        match self {
            Driver::Cont {
                target: _,
                value: _,
                place: _,
                span: _,
            } => {}
            Driver::Comb { body: _, span: _ } => {}
        }
    }
}

impl Drop for Reset {
    fn drop(self) {
        let Reset {
            signal: _,
            level: _,
            values: _,
        } = self;
    }
}

impl Drop for Clocked {
    fn drop(self) {
        let Clocked { reset: _, body: _ } = self;
    }
}
