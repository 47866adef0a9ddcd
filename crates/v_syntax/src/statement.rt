//! Statements (IEEE 1364-2005, clause 9 and A.6), a variant for each production.
use crate::declaration::{Delay, Identifier, Left, LoopHead};
use crate::expression::{Expr, Select};
use crate::site::Site;
use loc_base::Name;

/// Which assignment stands inside a procedure.
#[derive(Clone, Copy, PartialEq, Eq)]
pub enum AssignKind {
    /// `=`
    Blocking,
    /// `<=`
    Nonblocking,
}

/// Which word opens a case statement.
#[derive(Clone, Copy, PartialEq, Eq)]
pub enum CaseKind {
    /// `case`
    Case,
    /// `casez`
    Casez,
}

/// A statement.
#[cycle(procedure)]
pub enum Statement {
    /// `;`
    Empty {
        site: Site,
    },
    /// `begin : label .. end`
    Block {
        site: Site,
        label: Option<Identifier>,
        body: Vec<Statement>,
    },
    /// A delay before a statement.
    Delayed {
        site: Site,
        delay: Delay,
        body: Box<Statement>,
    },
    /// `if (condition) then else other`
    If {
        site: Site,
        condition: Expr,
        then: Box<Statement>,
        other: Option<Box<Statement>>,
    },
    /// `case (subject) .. endcase`, at least one item.
    Case {
        site: Site,
        kind: CaseKind,
        subject: Expr,
        items: Vec<CaseItem>,
    },
    /// `for (head) body`
    For {
        site: Site,
        head: LoopHead,
        body: Box<Statement>,
    },
    /// `target = value;` or `target <= value;`
    Assign {
        site: Site,
        target: Left,
        kind: AssignKind,
        delay: Option<Delay>,
        value: Expr,
    },
}

/// An item of a case statement.
#[cycle(procedure)]
pub enum CaseItem {
    /// `label, .. : body`, at least one label.
    Labels {
        site: Site,
        labels: Vec<Expr>,
        body: Statement,
    },
    /// `default : body`
    Default {
        site: Site,
        body: Statement,
    },
}

/// Which edge an event waits for.
#[derive(Clone, Copy, PartialEq, Eq)]
pub enum Edge {
    Posedge,
    Negedge,
}

/// An event of a sensitivity list.
pub enum Event {
    /// An edge of a name.
    Edge {
        site: Site,
        edge: Edge,
        name: Name,
    },
    /// A name with at most one select.
    Change {
        site: Site,
        name: Name,
        select: Option<Select>,
    },
}

/// What an always block waits for.
pub enum Sensitivity {
    /// `*` or `(*)`
    All { site: Site },
    /// `(event or event ..)`, at least one event.
    Events { site: Site, events: Vec<Event> },
}

// Each node's `drop` is written out, so that it is proved once, here: a derived one is proved again by each crate that lets a
// node go.
impl Drop for Statement {
    #[cycle(procedure)]
    fn drop(self) {
        match self {
            Statement::Empty { site: _ } => {}
            Statement::Block {
                site: _,
                label: _,
                body: _,
            } => {}
            Statement::Delayed {
                site: _,
                delay: _,
                body: _,
            } => {}
            Statement::If {
                site: _,
                condition: _,
                then: _,
                other: _,
            } => {}
            Statement::Case {
                site: _,
                kind: _,
                subject: _,
                items: _,
            } => {}
            Statement::For {
                site: _,
                head: _,
                body: _,
            } => {}
            Statement::Assign {
                site: _,
                target: _,
                kind: _,
                delay: _,
                value: _,
            } => {}
        }
    }
}

impl Drop for CaseItem {
    #[cycle(procedure)]
    fn drop(self) {
        match self {
            CaseItem::Labels {
                site: _,
                labels: _,
                body: _,
            } => {}
            CaseItem::Default { site: _, body: _ } => {}
        }
    }
}

impl Drop for Event {
    fn drop(self) {
        match self {
            Event::Edge {
                site: _,
                edge: _,
                name: _,
            } => {}
            Event::Change {
                site: _,
                name: _,
                select: _,
            } => {}
        }
    }
}

impl Drop for Sensitivity {
    fn drop(self) {
        match self {
            Sensitivity::All { site: _ } => {}
            Sensitivity::Events { site: _, events: _ } => {}
        }
    }
}
