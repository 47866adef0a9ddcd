//! A name with its selects (IEEE 1364-2005, 4.9, 5.2).
ghost use Rattle.std.specs.Prelude.{◌≡◌, Some, IfOk, map};
ghost use Rattle.v_sizes.specs.declared.meaning.Meaning.{Meaning};
ghost use Rattle.v_sizes.specs.Context.{IsMeaning};
ghost use Rattle.v_sizes.specs.Sized.{name_node};
ghost use Rattle.v_selects.specs.Named.{named_leaf, select_in, picked_fault, picked_faults};
ghost use Rattle.v_selects.specs.Picked.{IsReadable};

use crate::closed::Picked;
use crate::leaf::{Leaf, word_node};
use crate::name_fault::name_fault;
use crate::name_node::meaning_node;
use crate::name_size::name_size;
use design_core::Node;
use loc_base::{Items, NoMemory, Span};
use std::alloc::Global;
use v_sizes::{Meaning, WidthErr};

/// The leftmost fault of a select's indexes.
fn picked_fault(one: &Picked) -> Option<WidthErr>
    ensures { result ≡ picked_fault one.now }
{
    match one {
        Picked::Bit(index) => index.fault,
        Picked::Part {
            kind: _,
            one,
            other,
        } => one.fault.or(other.fault),
    }
}

/// The leftmost fault of the indexes of some selects.
fn picked_faults(selects: &[Picked]) -> Option<WidthErr>
    ensures { result ≡ picked_faults selects.now }
{
    for one in selects {
        if let Some(fault) = picked_fault(one) {
            return Some(fault);
        }
    }
    None
}

/// The node of a name that isn't refused and is no constant.
fn name_node(
    alloc: Global,
    meaning: Option<Meaning>,
    selects: Items<Picked>,
) -> Result<Node, NoMemory>
    requires is { (m : Meaning) → meaning ≡ Some m → IsMeaning m }
    requires readable { (m : Meaning) → meaning ≡ Some m → IsReadable m selects }
    ensures { IfOk result (λ n. n ≡ name_node meaning (map select_in selects)) }
{
    match meaning {
        Some(meaning) => meaning_node(alloc, meaning, selects),
        None => Ok(Node::Whole(0)),
    }
}

/// Where a name stands, and whether constants alone may stand there.
#[derive(Clone, Copy)]
pub struct At {
    pub span: Span,
    pub only: bool,
}

/// A name with its selects.
pub fn named(
    alloc: Global,
    at: At,
    meaning: Option<Meaning>,
    selects: Items<Picked>,
) -> Result<Leaf, NoMemory>
    requires { (m : Meaning) → meaning ≡ Some m → IsMeaning m }
    ensures { IfOk result (λ leaf. leaf ≡ named_leaf at.span at.only meaning selects) }
{
    let own = name_fault(at.span, at.only, meaning, selects.as_slice());
    let fault = picked_faults(selects.as_slice()).or(own);
    let size = name_size(meaning, selects.as_slice());
    let node = if size.constant {
        word_node(size.width, size.number)
    } else if fault.is_some() {
        Node::Whole(0)
    } else {
        name_node(alloc, meaning, selects)?
    };
    Ok(Leaf {
        width: size.width,
        signed: size.signed,
        constant: size.constant,
        node,
        fault,
    })
}
