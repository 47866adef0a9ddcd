//! The tree of expressions (IEEE 1364-2005, A.8), a variant for each production.
use crate::literal::{Number, WildNumber};
use crate::operator::{Binary, SystemFunction, Unary};
use crate::site::Site;
use loc_base::Name;

/// How a part-select names its bits.
#[derive(Clone, Copy, PartialEq, Eq)]
pub enum PartKind {
    /// `[left : right]`
    Range,
    /// `[left +: right]`
    Up,
    /// `[left -: right]`
    Down,
}

/// A select behind a name (IEEE 1364-2005, 5.2.1 and 5.2.2).
#[cycle(syntax)]
pub enum Select {
    /// `[index]`
    Bit {
        site: Site,
        index: Expr,
    },
    /// `[left : right]`, `[left +: right]` or `[left -: right]`
    Part {
        site: Site,
        kind: PartKind,
        left: Expr,
        right: Expr,
    },
}

/// An expression (IEEE 1364-2005, clause 5).
#[cycle(syntax)]
pub enum Expr {
    Number {
        site: Site,
        number: Number,
    },
    /// A number with wildcard digits, which only stands as a whole label of a `casez`.
    Wild {
        site: Site,
        number: WildNumber,
    },
    /// A name with at most two selects.
    Name {
        site: Site,
        name: Name,
        selects: Vec<Select>,
    },
    /// `(inner)`
    Parens {
        site: Site,
        inner: Box<Expr>,
    },
    /// `{part, ..}`, at least one part.
    Concat {
        site: Site,
        parts: Vec<Expr>,
    },
    /// `{count{part, ..}}`, at least one part.
    Repeat {
        site: Site,
        count: Box<Expr>,
        parts: Vec<Expr>,
    },
    /// `$signed(argument)` and the like.
    System {
        site: Site,
        function: SystemFunction,
        argument: Box<Expr>,
    },
    Unary {
        site: Site,
        operator: Unary,
        operand: Box<Expr>,
    },
    Binary {
        site: Site,
        operator: Binary,
        left: Box<Expr>,
        right: Box<Expr>,
    },
    /// `condition ? then : other`
    Conditional {
        site: Site,
        condition: Box<Expr>,
        then: Box<Expr>,
        other: Box<Expr>,
    },
}

// Each node's `drop` is written out, so that it is proved once, here: a derived one is proved again by each crate that lets a
// node go.
impl Drop for Select {
    #[cycle(syntax)]
    fn drop(self) {
        match self {
            Select::Bit { site: _, index: _ } => {}
            Select::Part {
                site: _,
                kind: _,
                left: _,
                right: _,
            } => {}
        }
    }
}

impl Drop for Expr {
    #[cycle(syntax)]
    fn drop(self) {
        match self {
            Expr::Number { site: _, number: _ } => {}
            Expr::Wild { site: _, number: _ } => {}
            Expr::Name {
                site: _,
                name: _,
                selects: _,
            } => {}
            Expr::Parens { site: _, inner: _ } => {}
            Expr::Concat { site: _, parts: _ } => {}
            Expr::Repeat {
                site: _,
                count: _,
                parts: _,
            } => {}
            Expr::System {
                site: _,
                function: _,
                argument: _,
            } => {}
            Expr::Unary {
                site: _,
                operator: _,
                operand: _,
            } => {}
            Expr::Binary {
                site: _,
                operator: _,
                left: _,
                right: _,
            } => {}
            Expr::Conditional {
                site: _,
                condition: _,
                then: _,
                other: _,
            } => {}
        }
    }
}
