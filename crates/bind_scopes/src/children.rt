//! The instances that stand right in each instance (IEEE 1364-2005, 12.1).
ghost use Rattle.std.specs.Prelude.{◌≡◌, ℕ, ◌<◌, [], length, map, replicate, slice_get, Some, OnOk, IfOk};
ghost use Rattle.v_hierarchy.specs.Views.{instance_of, instances_of};
ghost use Rattle.bind_scopes.specs.Children.{numbers_from, with_child, rows_of};

use loc_base::{Items, NoMemory};
use std::alloc::Global;
use v_hierarchy::{Instance, Instances};

/// So many empty lists.
#[tactic(auto, using(crate::proofs::ChildLaws::one_row))]
fn empty_rows(alloc: Global, count: usize) -> Result<Vec<Items<usize>>, NoMemory>
    ensures { IfOk result (λ rows. rows.items ≡ replicate count []) }
{
    let mut rows = Vec::new(alloc);
    for _row in 0..count {
        rows.push(Items::new(alloc))?;
    }
    Ok(rows)
}

/// One child more, in the list of the instance that it stands in.
fn add_child(parent: Option<usize>, at: usize, rows: &mut Vec<Items<usize>>) -> Result<(), NoMemory>
    ensures { OnOk result (rows.new.items ≡ with_child parent at rows.old.items) }
{
    let Some(parent) = parent else {
        return Ok(());
    };
    if parent < rows.len() {
        rows[parent].push(at)?;
    }
    Ok(())
}

/// The same of all instances.
fn rows_of(alloc: Global, list: &[Instance<'_>]) -> Result<Vec<Items<usize>>, NoMemory>
    ensures { IfOk result (λ rows. rows.items ≡ rows_of (map instance_of list.now)) }
{
    let mut rows = empty_rows(alloc, list.len())?;
    let mut at = 0;
    for instance in list {
        add_child(instance.parent, at, &mut rows)?;
        at += 1;
    }
    Ok(rows)
}

/// The numbers of the instances that stand right in each instance, in their order.
#[tactic(auto, using(crate::proofs::ChildLaws::each_row))]
pub fn children_numbers(
    alloc: Global,
    instances: &Instances<'_>,
) -> Result<Items<Items<usize>>, NoMemory>
    ensures { IfOk result (λ rows. (n : ℕ) → n < length instances.now.list → slice_get rows n ≡ Some (numbers_from n 0 (instances_of instances.now))) }
{
    let rows = rows_of(alloc, instances.list.as_slice())?;
    Ok(Items::from_vec(rows))
}
