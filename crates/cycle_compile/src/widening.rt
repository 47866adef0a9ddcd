//! Unsigned widenings, which leave the number of what they widen.

ghost use Rattle.cycle_compile.specs.Computing.{IsBare};

use design_core::{Node, Typed};

/// The expression inside the unsigned widenings around one.
pub(crate) fn bare<'a>(e: &'a Typed) -> &'a Typed
    ensures bare { IsBare e.now result.now }
{
    match &e.node {
        Node::Resize(arg) if !arg.signed && arg.width <= e.width => bare(arg),
        _ => e,
    }
}
