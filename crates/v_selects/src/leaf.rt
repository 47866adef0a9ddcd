//! What no context sizes.
ghost use Rattle.std.specs.Prelude.{◌≡◌, if◌then◌else◌, Some, None, is_some};
ghost use Rattle.design_core.specs.declared.expression.Node.TheVariants as node;
ghost use Rattle.v_sizes.specs.Word.{word};

use design_core::Node;
use v_sizes::WidthErr;
use v_sizes::numbers::{limited, low_bits};

/// What has its width and its sign by itself: a constant's word, else the node of its width.
#[derive(Drop)]
pub struct Leaf {
    pub width: u8,
    pub signed: bool,
    /// Whether it reads no signal.
    pub constant: bool,
    pub node: Node,
    pub fault: Option<WidthErr>,
}

/// The node of a constant's word.
#[tactic(auto, using(crate::proofs::NameLaws::limited_words))]
pub fn word_node(width: u8, number: u128) -> Node
    ensures { result ≡ node.Const (word width number) }
{
    Node::Const(low_bits(limited(width), number))
}

/// The node of what is a constant, or refused: nothing is kept of a refused one.
pub fn settled(width: u8, constant: bool, fault: Option<WidthErr>, number: u128) -> Option<Node>
    ensures { result ≡ (if constant then Some (node.Const (word width number)) else if is_some fault then Some (node.Whole 0) else None) }
{
    if constant {
        Some(word_node(width, number))
    } else if fault.is_some() {
        Some(Node::Whole(0))
    } else {
        None
    }
}
