//! What a Verilog text is made of: the kinds of tokens, numbers as they are written, and the syntax tree (IEEE 1364-2005, clauses
//! 3 to 7, 9 and 12).
#![tactic(auto)]

mod declaration;
mod expression;
mod item;
mod literal;
mod module;
mod operator;
mod site;
mod statement;
mod token_kind;

pub use declaration::{Delay, Identifier, Left, LoopHead, NamedValue, Range};
pub use expression::{Expr, PartKind, Select};
pub use item::{
    Connections, Declarator, Direction, GateInstance, GateKind, GenerateBlock, Instance, Item,
    NamedConnection, NetAssignment, NetKind, ParameterKind, ParameterType,
};
pub use literal::{Number, NumberFault, WildNumber};
pub use module::{HeaderParameter, Module, Port, Ports, SourceTree};
pub use operator::{Binary, SystemFunction, Unary};
pub use site::Site;
pub use statement::{AssignKind, CaseItem, CaseKind, Edge, Event, Sensitivity, Statement};
pub use token_kind::TokenKind;
