//! The items of a module (IEEE 1364-2005, clauses 4, 6, 7, 12 and A.1 to A.4), a variant for each production.
use crate::declaration::{Delay, Identifier, Left, LoopHead, NamedValue, Range};
use crate::expression::Expr;
use crate::site::Site;
use crate::statement::{Sensitivity, Statement};
use loc_base::Name;

/// The direction of a port.
#[derive(Clone, Copy, PartialEq, Eq)]
pub enum Direction {
    Input,
    Output,
}

/// What a declaration makes.
#[derive(Clone, Copy, PartialEq, Eq)]
pub enum NetKind {
    Wire,
    Reg,
}

/// Whether a parameter may be overridden.
#[derive(Clone, Copy, PartialEq, Eq)]
pub enum ParameterKind {
    /// `parameter`
    Parameter,
    /// `localparam`
    Local,
}

/// A gate (IEEE 1364-2005, 7.2 and 7.3).
#[derive(Clone, Copy, PartialEq, Eq)]
pub enum GateKind {
    And,
    Or,
    Nand,
    Nor,
    Xor,
    Xnor,
    Buf,
    Not,
}

/// The type of a parameter.
pub enum ParameterType {
    /// Nothing, or a sign, a range or both.
    Vector { signed: bool, range: Option<Range> },
    /// `integer`
    Integer,
}

/// A name of a wire or reg declaration: with a second range it is an array.
pub struct Declarator {
    pub site: Site,
    pub name: Identifier,
    pub range: Option<Range>,
    pub value: Option<Expr>,
}

/// `target = value` of a continuous assignment.
pub struct NetAssignment {
    pub site: Site,
    pub target: Left,
    pub value: Expr,
}

/// `name (terminal, ..)` of a gate, at least one terminal.
pub struct GateInstance {
    pub site: Site,
    pub name: Option<Name>,
    pub terminals: Vec<Expr>,
}

/// `.name(value)`
pub struct NamedConnection {
    pub site: Site,
    pub name: Identifier,
    pub value: Option<Expr>,
}

/// The connections of an instance, or the overrides of its parameters.
pub enum Connections {
    /// By order. One that is left out is `None`; `()` has none at all.
    Ordered { values: Vec<Option<Expr>> },
    /// By name, at least one.
    Named { values: Vec<NamedConnection> },
}

/// `name (connections)` of a module instance.
pub struct Instance {
    pub site: Site,
    pub name: Identifier,
    pub connections: Connections,
}

/// An item of a module.
#[cycle(module_item)]
pub enum Item {
    /// `input wire signed [7:0] name, ..;`
    Port {
        site: Site,
        direction: Direction,
        net: Option<NetKind>,
        signed: bool,
        range: Option<Range>,
        names: Vec<Identifier>,
    },
    /// `wire signed [7:0] #delay name = value, ..;`
    Declaration {
        site: Site,
        net: NetKind,
        signed: bool,
        range: Option<Range>,
        delay: Option<Delay>,
        names: Vec<Declarator>,
    },
    /// `integer name, ..;`
    Integers {
        site: Site,
        names: Vec<Identifier>,
    },
    /// `genvar name, ..;`
    Genvars {
        site: Site,
        names: Vec<Identifier>,
    },
    /// `parameter signed [7:0] name = value, ..;`
    Parameters {
        site: Site,
        kind: ParameterKind,
        type_of: ParameterType,
        values: Vec<NamedValue>,
    },
    /// `assign #delay target = value, ..;`
    Assigns {
        site: Site,
        delay: Option<Delay>,
        assignments: Vec<NetAssignment>,
    },
    /// `and #delay name (terminal, ..), ..;`
    Gates {
        site: Site,
        kind: GateKind,
        delay: Option<Delay>,
        gates: Vec<GateInstance>,
    },
    /// `always @(..) body`
    Always {
        site: Site,
        sensitivity: Sensitivity,
        body: Statement,
    },
    /// `initial body`
    Initial {
        site: Site,
        body: Statement,
    },
    /// `module #(parameters) name (connections), ..;`
    Instances {
        site: Site,
        module: Identifier,
        parameters: Option<Connections>,
        instances: Vec<Instance>,
    },
    /// `generate .. endgenerate`
    Generate {
        site: Site,
        items: Vec<Item>,
    },
    /// `for (head) body`
    GenerateFor {
        site: Site,
        head: LoopHead,
        body: GenerateBlock,
    },
    /// `if (condition) then else other`
    GenerateIf {
        site: Site,
        condition: Expr,
        then: GenerateBlock,
        other: Option<GenerateBlock>,
    },
}

/// What a generate loop or condition holds.
#[cycle(module_item)]
pub enum GenerateBlock {
    /// One item.
    Item {
        site: Site,
        item: Box<Item>,
    },
    /// `begin : label .. end`
    Block {
        site: Site,
        label: Option<Identifier>,
        items: Vec<Item>,
    },
}

// Each node's `drop` is written out, so that it is proved once, here: a derived one is proved again by each crate that lets a
// node go.
impl Drop for ParameterType {
    fn drop(self) {
        match self {
            ParameterType::Vector {
                signed: _,
                range: _,
            } => {}
            ParameterType::Integer => {}
        }
    }
}

impl Drop for Declarator {
    fn drop(self) {
        let Declarator {
            site: _,
            name: _,
            range: _,
            value: _,
        } = self;
    }
}

impl Drop for NetAssignment {
    fn drop(self) {
        let NetAssignment {
            site: _,
            target: _,
            value: _,
        } = self;
    }
}

impl Drop for GateInstance {
    fn drop(self) {
        let GateInstance {
            site: _,
            name: _,
            terminals: _,
        } = self;
    }
}

impl Drop for NamedConnection {
    fn drop(self) {
        let NamedConnection {
            site: _,
            name: _,
            value: _,
        } = self;
    }
}

impl Drop for Connections {
    fn drop(self) {
        match self {
            Connections::Ordered { values: _ } => {}
            Connections::Named { values: _ } => {}
        }
    }
}

impl Drop for Instance {
    fn drop(self) {
        let Instance {
            site: _,
            name: _,
            connections: _,
        } = self;
    }
}

impl Drop for Item {
    #[cycle(module_item)]
    fn drop(self) {
        match self {
            Item::Port {
                site: _,
                direction: _,
                net: _,
                signed: _,
                range: _,
                names: _,
            } => {}
            Item::Declaration {
                site: _,
                net: _,
                signed: _,
                range: _,
                delay: _,
                names: _,
            } => {}
            Item::Integers { site: _, names: _ } => {}
            Item::Genvars { site: _, names: _ } => {}
            Item::Parameters {
                site: _,
                kind: _,
                type_of: _,
                values: _,
            } => {}
            Item::Assigns {
                site: _,
                delay: _,
                assignments: _,
            } => {}
            Item::Gates {
                site: _,
                kind: _,
                delay: _,
                gates: _,
            } => {}
            Item::Always {
                site: _,
                sensitivity: _,
                body: _,
            } => {}
            Item::Initial { site: _, body: _ } => {}
            Item::Instances {
                site: _,
                module: _,
                parameters: _,
                instances: _,
            } => {}
            Item::Generate { site: _, items: _ } => {}
            Item::GenerateFor {
                site: _,
                head: _,
                body: _,
            } => {}
            Item::GenerateIf {
                site: _,
                condition: _,
                then: _,
                other: _,
            } => {}
        }
    }
}

impl Drop for GenerateBlock {
    #[cycle(module_item)]
    fn drop(self) {
        match self {
            GenerateBlock::Item { site: _, item: _ } => {}
            GenerateBlock::Block {
                site: _,
                label: _,
                items: _,
            } => {}
        }
    }
}
