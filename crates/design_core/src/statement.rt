use crate::expression::Typed;
use loc_base::{Bits, Boxed, Items};

/// One part of a left side (IEEE 1364-2005, 6.1 and 9.2). The fields are those of the nodes of the same names.
pub enum Part {
    Whole(u32),
    Slice {
        signal: u32,
        from: u8,
        width: u8,
    },
    Pick {
        signal: u32,
        index: Typed,
        offsets: Items<i32>,
    },
    Word {
        first: u32,
        count: u32,
        low: i32,
        index: Typed,
        from: u8,
        width: u8,
    },
}

/// A left side: its parts from the left.
pub struct Target {
    pub parts: Items<Part>,
}

/// A label of a case item. `wild` has a 1 for each bit that is not compared.
pub struct Label {
    pub value: Typed,
    pub wild: Bits,
}

/// The labels of a case item and the statement for them.
#[cycle(statement)]
#[derive(Drop)]
pub struct CaseItem {
    pub labels: Items<Label>,
    pub body: Stmt,
}

/// A statement (IEEE 1364-2005, clause 9), its loops unrolled.
#[cycle(statement)]
#[derive(Drop)]
pub enum Stmt {
    Nothing,
    Block(Items<Stmt>),
    If {
        cond: Typed,
        yes: Boxed<Stmt>,
        no: Boxed<Stmt>,
    },
    /// The first item with a label that is equal to the subject, else `other`. `wild` is true for `casez`.
    Case {
        subject: Typed,
        items: Items<CaseItem>,
        other: Boxed<Stmt>,
        wild: bool,
    },
    /// A procedural assignment: `<=` where `later` is true, else `=`.
    Set {
        place: u32,
        target: Target,
        value: Typed,
        later: bool,
    },
}

// A `drop` is written out where that can be, so that it is proved once, here: a derived one is proved again by each crate that lets
// a value go.
impl Drop for Part {
    fn drop(self) {
        match self {
            Part::Whole(_) => {}
            Part::Slice {
                signal: _,
                from: _,
                width: _,
            } => {}
            Part::Pick {
                signal: _,
                index: _,
                offsets: _,
            } => {}
            Part::Word {
                first: _,
                count: _,
                low: _,
                index: _,
                from: _,
                width: _,
            } => {}
        }
    }
}

impl Drop for Target {
    fn drop(self) {
        let Target { parts: _ } = self;
    }
}

impl Drop for Label {
    fn drop(self) {
        let Label { value: _, wild: _ } = self;
    }
}
