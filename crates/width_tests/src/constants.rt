//! Constants, and what names stand for.

mod deep;
mod refusals;
mod scopes;
mod tests;
mod values;
