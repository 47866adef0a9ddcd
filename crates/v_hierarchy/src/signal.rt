//! Ports, nets and registers by what their declarations say of them (IEEE 1364-2005, clause 4 and 12.3.3).
ghost use Rattle.std.specs.Prelude.{◌≡◌};
ghost use Rattle.v_hierarchy.specs.Names.{bounds_of, may_join, joined};

use crate::bounds::{Bounds, agree};
use v_syntax::{Direction, NetKind};

/// A port, a net or a register: what its declarations say of it together.
#[derive(Clone, Copy)]
pub struct Signal {
    /// Nothing where it is no port.
    pub direction: Option<Direction>,
    /// Nothing where neither `wire` nor `reg` stands.
    pub kind: Option<NetKind>,
    pub signed: bool,
    /// Nothing where it has one bit without an index.
    pub bounds: Option<Bounds>,
}

impl Signal {
    /// Its range; `[0:0]` where none is written.
    pub fn range(self) -> Bounds
        ensures { result ≡ bounds_of self }
    {
        self.bounds.unwrap_or(Bounds { left: 0, right: 0 })
    }

    /// Whether another declaration may say the rest of it.
    pub(crate) fn may_join(self, other: Signal) -> bool
        ensures { result ≡ may_join self other }
    {
        !(self.direction.is_some() && other.direction.is_some())
            && !(self.kind.is_some() && other.kind.is_some())
            && agree(self.bounds, other.bounds)
    }

    /// What two declarations say of it together.
    pub(crate) fn joined(self, other: Signal) -> Signal
        ensures { result ≡ joined self other }
    {
        Signal {
            direction: self.direction.or(other.direction),
            kind: self.kind.or(other.kind),
            signed: self.signed || other.signed,
            bounds: self.bounds.or(other.bounds),
        }
    }
}
