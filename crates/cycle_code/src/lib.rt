//! A flat list of instructions on cells, each a word, and its run: what the expressions and statements of a design are turned
//! into, so that a cycle takes no walk over trees. What an instruction does is one definition by cases (`specs/Effects`).
#![tactic(auto)]

mod assigning;
mod cell;
mod choices;
mod code;
mod common;
mod instruction;
mod operating;
mod range;
mod running;

pub use choices::Choices;
pub use code::Code;
pub use instruction::Instruction;
pub use range::Range;
pub use running::run;
