//! Modules and the whole text (IEEE 1364-2005, 12.1 and A.1).
use crate::declaration::{Identifier, Range};
use crate::expression::Expr;
use crate::item::{Direction, Item, NetKind, ParameterType};
use crate::site::Site;

/// A parameter of a module's header.
pub struct HeaderParameter {
    pub site: Site,
    /// Whether the word `parameter` stands before it.
    pub opens: bool,
    pub type_of: ParameterType,
    pub name: Identifier,
    pub value: Expr,
}

/// A port that a module's header declares.
pub enum Port {
    /// `output reg signed [7:0] name = value`
    Declared {
        site: Site,
        direction: Direction,
        net: Option<NetKind>,
        signed: bool,
        range: Option<Range>,
        name: Identifier,
        value: Option<Expr>,
    },
    /// `name = value`, with the direction and the type of the port before.
    Same {
        site: Site,
        name: Identifier,
        value: Option<Expr>,
    },
}

/// The ports of a module's header.
pub enum Ports {
    /// No list, or an empty one.
    None,
    /// Names, which items declare.
    Names { names: Vec<Identifier> },
    /// Declarations.
    Declared { ports: Vec<Port> },
}

/// A module.
pub struct Module {
    pub site: Site,
    pub name: Identifier,
    pub parameters: Vec<HeaderParameter>,
    pub ports: Ports,
    pub items: Vec<Item>,
}

/// The modules of a text, in its order.
pub struct SourceTree {
    pub modules: Vec<Module>,
}

// Each node's `drop` is written out, so that it is proved once, here: a derived one is proved again by each crate that lets a
// node go.
impl Drop for HeaderParameter {
    fn drop(self) {
        let HeaderParameter {
            site: _,
            opens: _,
            type_of: _,
            name: _,
            value: _,
        } = self;
    }
}

impl Drop for Port {
    fn drop(self) {
        match self {
            Port::Declared {
                site: _,
                direction: _,
                net: _,
                signed: _,
                range: _,
                name: _,
                value: _,
            } => {}
            Port::Same {
                site: _,
                name: _,
                value: _,
            } => {}
        }
    }
}

impl Drop for Ports {
    fn drop(self) {
        match self {
            Ports::None => {}
            Ports::Names { names: _ } => {}
            Ports::Declared { ports: _ } => {}
        }
    }
}

impl Drop for Module {
    fn drop(self) {
        let Module {
            site: _,
            name: _,
            parameters: _,
            ports: _,
            items: _,
        } = self;
    }
}

impl Drop for SourceTree {
    fn drop(self) {
        let SourceTree { modules: _ } = self;
    }
}
