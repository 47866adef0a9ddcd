//! The parts that declarations, assignments and statements share (IEEE 1364-2005, A.2, A.6 and A.8.5).
use crate::expression::{Expr, Select};
use crate::literal::Number;
use crate::site::Site;
use loc_base::Name;

/// A name that is declared, or that stands without selects.
pub struct Identifier {
    pub site: Site,
    pub name: Name,
}

/// `[left : right]` of a declaration.
pub struct Range {
    pub site: Site,
    pub left: Expr,
    pub right: Expr,
}

/// A delay, which is read and has no effect.
pub enum Delay {
    /// `#number`
    Number { site: Site, number: Number },
    /// `#name`
    Name { site: Site, name: Name },
    /// `#(value)`
    Parens { site: Site, value: Expr },
}

/// The left side of an assignment.
pub enum Left {
    /// A name with at most two selects.
    Name {
        site: Site,
        name: Name,
        selects: Vec<Select>,
    },
    /// `{left, ..}`, at least one part.
    Concat {
        site: Site,
        parts: Vec<Left>,
    },
}

/// `variable = start; condition; next = step` of a loop.
pub struct LoopHead {
    pub site: Site,
    pub variable: Identifier,
    pub start: Expr,
    pub condition: Expr,
    pub next: Identifier,
    pub step: Expr,
}

/// `name = value`
pub struct NamedValue {
    pub site: Site,
    pub name: Identifier,
    pub value: Expr,
}

// Each node's `drop` is written out, so that it is proved once, here: a derived one is proved again by each crate that lets a
// node go.
impl Drop for Identifier {
    fn drop(self) {
        let Identifier { site: _, name: _ } = self;
    }
}

impl Drop for Range {
    fn drop(self) {
        let Range {
            site: _,
            left: _,
            right: _,
        } = self;
    }
}

impl Drop for Delay {
    fn drop(self) {
        match self {
            Delay::Number { site: _, number: _ } => {}
            Delay::Name { site: _, name: _ } => {}
            Delay::Parens { site: _, value: _ } => {}
        }
    }
}

impl Drop for Left {
    fn drop(self) {
        match self {
            Left::Name {
                site: _,
                name: _,
                selects: _,
            } => {}
            Left::Concat { site: _, parts: _ } => {}
        }
    }
}

impl Drop for LoopHead {
    fn drop(self) {
        let LoopHead {
            site: _,
            variable: _,
            start: _,
            condition: _,
            next: _,
            step: _,
        } = self;
    }
}

impl Drop for NamedValue {
    fn drop(self) {
        let NamedValue {
            site: _,
            name: _,
            value: _,
        } = self;
    }
}
