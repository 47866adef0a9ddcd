//! The reading of declarations and of the header of a module, and of continuous assignments, gates and module instances (IEEE
//! 1364-2005, clauses 4, 6, 7 and 12, A.1 to A.4 and A.6.1).
#![tactic(auto)]

mod assigns;
mod declaration_nodes;
mod declarations;
mod gates;
mod header_nodes;
mod headers;
mod instances;
mod structure_nodes;
mod structures;
mod types;

pub use declarations::declaration;
pub use headers::{header_parameters, header_ports};
pub use structures::structure;
