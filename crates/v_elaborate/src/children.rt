//! The children that a scope makes (IEEE 1364-2005, 12.1).
ghost use Rattle.std.specs.Prelude.{◌≡◌, ◌++◌, map, IfOk, OnOk};
ghost use Rattle.v_hierarchy.specs.Instances.{children, made_by};
ghost use Rattle.v_hierarchy.specs.Views.{copied_of, copies_of, child_of};

use loc_base::{Items, NoMemory};
use std::alloc::Global;
use v_hierarchy::{Child, Copied};

/// The children that one of the things makes that items make, at the end of a list.
#[cycle(below)]
#[tactic(auto, using(crate::proofs::CopiedViews::copied_steps))]
fn add_child<'t>(
    alloc: Global,
    copied: &Copied<'t>,
    list: &mut Items<Child<'t>>,
) -> Result<(), NoMemory>
    ensures { OnOk result (map child_of list.new ≡ map child_of list.old ++ made_by (copied_of copied.now)) }
{
    match copied {
        Copied::Written(_) | Copied::Always { .. } => Ok(()),
        Copied::Child { child, .. } => {
            let child = child.copied(alloc)?;
            list.push(child)
        }
        Copied::Inner(block) | Copied::Turn { block, .. } => {
            add_children(alloc, block.copies.as_slice(), list)
        }
    }
}

/// The children that a scope makes, in the order of its items, at the end of a list.
#[cycle(below)]
fn add_children<'t>(
    alloc: Global,
    copies: &[Copied<'t>],
    list: &mut Items<Child<'t>>,
) -> Result<(), NoMemory>
    ensures { OnOk result (map child_of list.new ≡ map child_of list.old ++ children (copies_of (map copied_of copies.now))) }
{
    for copied in copies {
        add_child(alloc, copied, list)?;
    }
    Ok(())
}

/// The children that a scope makes.
pub(crate) fn children_of<'t>(
    alloc: Global,
    copies: &[Copied<'t>],
) -> Result<Items<Child<'t>>, NoMemory>
    ensures { IfOk result (λ list. map child_of list ≡ children (copies_of (map copied_of copies.now))) }
{
    let mut list = Items::new(alloc);
    add_children(alloc, copies, &mut list)?;
    Ok(list)
}
