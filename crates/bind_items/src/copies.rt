//! Copies of expressions.
ghost use Rattle.std.specs.Prelude.{◌≡◌, IfOk};

use design_core::{Node, Typed};
use loc_base::{Boxed, Items, NoMemory};
use std::alloc::Global;

/// A copy of an expression.
#[cycle(copy)]
pub fn copied(alloc: Global, e: &Typed) -> Result<Typed, NoMemory>
    ensures { IfOk result (λ copy. copy ≡ e.now) }
{
    let node = copied_node(alloc, &e.node)?;
    Ok(Typed {
        width: e.width,
        signed: e.signed,
        node,
    })
}

/// A copy of an operand, in a place of its own.
#[cycle(copy)]
fn copied_box(alloc: Global, e: &Typed) -> Result<Boxed<Typed>, NoMemory>
    ensures { IfOk result (λ copy. copy ≡ e.now) }
{
    let e = copied(alloc, e)?;
    Boxed::new(alloc, e)
}

/// Copies of the parts of a concatenation.
#[cycle(copy)]
fn copied_parts(alloc: Global, parts: &[Typed]) -> Result<Items<Typed>, NoMemory>
    ensures { IfOk result (λ copy. copy ≡ parts.now) }
{
    let mut copy = Items::new(alloc);
    for part in parts {
        copy.push(copied(alloc, part)?)?;
    }
    Ok(copy)
}

/// A copy of what an expression is made of.
#[cycle(copy)]
fn copied_node(alloc: Global, node: &Node) -> Result<Node, NoMemory>
    ensures { IfOk result (λ copy. copy ≡ node.now) }
{
    match node {
        Node::Const(word) => Ok(Node::Const(*word)),
        Node::Whole(signal) => Ok(Node::Whole(*signal)),
        Node::Slice {
            signal,
            from,
            width,
        } => Ok(Node::Slice {
            signal: *signal,
            from: *from,
            width: *width,
        }),
        Node::Pick {
            signal,
            index,
            offsets,
        } => Ok(Node::Pick {
            signal: *signal,
            index: copied_box(alloc, index)?,
            offsets: Items::copy_of(alloc, offsets)?,
        }),
        Node::Word {
            first,
            count,
            low,
            index,
            from,
            width,
        } => Ok(Node::Word {
            first: *first,
            count: *count,
            low: *low,
            index: copied_box(alloc, index)?,
            from: *from,
            width: *width,
        }),
        Node::Unary { op, arg } => Ok(Node::Unary {
            op: *op,
            arg: copied_box(alloc, arg)?,
        }),
        Node::Binary { op, left, right } => Ok(Node::Binary {
            op: *op,
            left: copied_box(alloc, left)?,
            right: copied_box(alloc, right)?,
        }),
        Node::Choose { cond, yes, no } => Ok(Node::Choose {
            cond: copied_box(alloc, cond)?,
            yes: copied_box(alloc, yes)?,
            no: copied_box(alloc, no)?,
        }),
        Node::Join(parts) => {
            let parts = copied_parts(alloc, parts)?;
            Ok(Node::Join(parts))
        }
        Node::Repeat { times, part } => Ok(Node::Repeat {
            times: *times,
            part: copied_box(alloc, part)?,
        }),
        Node::Resize(arg) => Ok(Node::Resize(copied_box(alloc, arg)?)),
    }
}
