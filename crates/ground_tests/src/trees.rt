//! A type that holds itself through lists and boxes.

ghost use Rattle.std.specs.Prelude.{◌≡◌, IfOk};

use loc_base::{Boxed, Items, NoMemory};
use std::alloc::Global;
use std::test::Fail;

/// A sum of numbers.
#[derive(Debug, Drop)]
enum Sum {
    Number(u32),
    Twice(Boxed<Sum>),
    Each(Items<Sum>),
}

/// What a sum is, modulo 2^32.
fn value(sum: &Sum) -> u32 {
    match sum {
        Sum::Number(number) => *number,
        Sum::Twice(half) => value(half).wrapping_mul(2),
        Sum::Each(parts) => {
            let mut total: u32 = 0;
            for part in parts.iter() {
                total = total.wrapping_add(value(part));
            }
            total
        }
    }
}

/// The sum that is twice a number.
fn twice(alloc: Global, number: u32) -> Result<Sum, NoMemory>
    ensures { IfOk result (λ sum. sum ≡ Sum.Twice (Sum.Number number)) }
{
    Ok(Sum::Twice(Boxed::new(alloc, Sum::Number(number))?))
}

#[test]
fn a_tree_of_lists_and_boxes_is_read_by_recursion(rt: HostRuntime) -> Result<(), Fail> {
    let mut parts = Items::new(rt.alloc());
    parts.push(Sum::Number(1))?;
    parts.push(twice(rt.alloc(), 20)?)?;
    parts.push(Sum::Each(Items::new(rt.alloc())))?;
    assert!(rt; value(&Sum::Each(parts)) == 41);
    Ok(())
}
