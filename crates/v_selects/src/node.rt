//! Sized expressions, a function a shape.
ghost use Rattle.std.specs.Prelude.{◌≡◌, ◌%◌, ◌^◌, ◌≤◌, IfOk};
ghost use Rattle.loc_base.specs.Bits.{width_of, value_of};
ghost use Rattle.design_core.specs.declared.expression.Node.TheVariants as node;
ghost use Rattle.v_sizes.specs.Sized.{sized, constant, with_sign, with_width};
ghost use Rattle.v_selects.specs.Folding.{number_in, const_number, const_width};

use design_core::{BinaryOp, Node, Typed, UnaryOp};
use loc_base::{Bits, Boxed, NoMemory};
use std::alloc::Global;
use v_sizes::numbers::low_bits;

pub fn sized(width: u8, signed: bool, node: Node) -> Typed
    ensures { result ≡ sized width signed node }
{
    Typed {
        width,
        signed,
        node,
    }
}

/// The constant that a word is.
#[tactic(auto, using(v_sizes::proofs::SameWord::words))]
pub fn constant(signed: bool, word: Bits) -> Typed
    ensures { result ≡ constant (width_of word) signed (value_of word) }
{
    let width = word.width();
    sized(width, signed, Node::Const(word))
}

/// The word of a constant's node, and some word of a node that is none.
pub fn word_of_node(node: &Node) -> Bits
    ensures width { width_of result ≡ const_width node.now }
    ensures value { value_of result ≡ const_number node.now }
{
    match node {
        Node::Const(word) => *word,
        _ => Bits::zero(1),
    }
}

/// The word of a constant, and some word of an expression that is none.
pub fn word_in(e: &Typed) -> Bits
    ensures width { width_of result ≡ const_width e.now.node }
    ensures value { value_of result ≡ number_in e.now }
{
    word_of_node(&e.node)
}

/// The low bits of a constant.
pub fn low_in(size: u8, e: &Typed) -> Bits
    requires least { 1 ≤ size }
    requires most { size ≤ 128 }
    ensures width { width_of result ≡ size }
    ensures value { value_of result ≡ number_in e.now % 2 ^ size }
{
    low_bits(size, word_in(e).value())
}

fn resize(alloc: Global, width: u8, signed: bool, e: Typed) -> Result<Typed, NoMemory>
    ensures { IfOk result (λ t. t ≡ sized width signed (node.Resize e)) }
{
    let e = Boxed::new(alloc, e)?;
    Ok(sized(width, signed, Node::Resize(e)))
}

/// An expression with a sign.
pub fn with_sign(alloc: Global, signed: bool, e: Typed) -> Result<Typed, NoMemory>
    ensures { IfOk result (λ t. t ≡ with_sign signed e) }
{
    if e.signed == signed {
        return Ok(e);
    }
    let width = e.width;
    resize(alloc, width, signed, e)
}

/// An expression with a width, to which its sign extends it.
pub fn with_width(alloc: Global, width: u8, e: Typed) -> Result<Typed, NoMemory>
    ensures { IfOk result (λ t. t ≡ with_width width e) }
{
    if e.width == width {
        return Ok(e);
    }
    let signed = e.signed;
    resize(alloc, width, signed, e)
}

pub fn unary_node(alloc: Global, op: UnaryOp, arg: Typed) -> Result<Node, NoMemory>
    ensures { IfOk result (λ n. n ≡ node.Unary op arg) }
{
    let arg = Boxed::new(alloc, arg)?;
    Ok(Node::Unary { op, arg })
}

pub fn binary_node(alloc: Global, op: BinaryOp, left: Typed, right: Typed) -> Result<Node, NoMemory>
    ensures { IfOk result (λ n. n ≡ node.Binary op left right) }
{
    let left = Boxed::new(alloc, left)?;
    let right = Boxed::new(alloc, right)?;
    Ok(Node::Binary { op, left, right })
}

pub fn choose_node(alloc: Global, cond: Typed, yes: Typed, no: Typed) -> Result<Node, NoMemory>
    ensures { IfOk result (λ n. n ≡ node.Choose cond yes no) }
{
    let cond = Boxed::new(alloc, cond)?;
    let yes = Boxed::new(alloc, yes)?;
    let no = Boxed::new(alloc, no)?;
    Ok(Node::Choose { cond, yes, no })
}
