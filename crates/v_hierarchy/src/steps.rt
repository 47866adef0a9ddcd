//! Statements whose loops are unrolled (IEEE 1364-2005, 9.6).
use loc_base::{Boxed, Items};
use v_sizes::Const;
use v_syntax::{CaseKind, Expr, Identifier, Statement};

/// A statement with its loops unrolled.
#[cycle(steps)]
#[derive(Drop)]
pub enum Steps<'t> {
    Nothing,
    /// An assignment, as it is written.
    Still(&'t Statement),
    Run(Items<Steps<'t>>),
    Branch {
        condition: &'t Expr,
        then: Boxed<Steps<'t>>,
        other: Boxed<Steps<'t>>,
    },
    Choose {
        kind: CaseKind,
        subject: &'t Expr,
        arms: Items<Arm<'t>>,
    },
    Repeated {
        variable: &'t Identifier,
        turns: Items<Turn<'t>>,
    },
}

/// An arm of a case.
#[cycle(steps)]
#[derive(Drop)]
pub enum Arm<'t> {
    Labels {
        labels: &'t Vec<Expr>,
        body: Steps<'t>,
    },
    Default(Steps<'t>),
}

/// A turn of a loop, with its variable's value.
#[cycle(steps)]
#[derive(Drop)]
pub struct Turn<'t> {
    pub value: Const,
    pub body: Steps<'t>,
}
