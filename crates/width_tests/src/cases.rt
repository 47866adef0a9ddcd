//! Expressions with what they have to be, and the names that stand in them.

mod refusal;
mod rows;
mod scopes;
mod texts;

pub use refusal::{Refusal, error_of};
pub use rows::{
    ARRAYS, COMPARISONS, CONSTANTS, CONTEXTS, INDEXED, JOINED, OPERATORS, Row, SELECTS, UNSIGNED,
};
pub use scopes::{names, parameters, registers, signals};
pub use texts::{deep_expression, expression};
