//! The least place of each suspect: the first that has its key.
ghost use Rattle.std.specs.Prelude.{◌≡◌, ◌<◌, ◌^◌, ℕ, length, IfOk, OnOk, nat_eq};
ghost use Rattle.suspect_map.specs.Grouping.{after, firsts_by, met, under, PointsWithin};

use loc_base::NoMemory;
use std::alloc::Global;
use std::collections::HashMap;

/// The number of a key: the one under it, which is the given one from now on where there was none.
fn meet(table: &mut HashMap<u32, u32>, key: Option<u32>, new: u32) -> Result<Option<u32>, NoMemory>
    ensures number { IfOk result (λ number. number ≡ met (under table.old) new key) }
    ensures table { OnOk result ((q : ℕ) → under table.new q ≡ after nat_eq (under table.old) new key q) }
{
    let Some(key) = key else {
        return Ok(None);
    };
    if let Some(number) = table.get(&key) {
        return Ok(Some(*number));
    }
    table.insert(key, new)?;
    Ok(Some(new))
}

/// For each key, the number of the first that is the same.
pub(crate) fn firsts_by_number(
    alloc: Global,
    keys: &[Option<u32>],
) -> Result<Vec<Option<u32>>, NoMemory>
    requires few { length keys.now < 2 ^ 32 }
    ensures firsts { IfOk result (λ firsts. firsts.items ≡ firsts_by nat_eq keys.now) }
    ensures within { IfOk result (λ firsts. PointsWithin (length firsts.items) firsts.items) }
{
    let mut firsts = Vec::new(alloc);
    let mut table = HashMap::new(alloc);
    for at in 0..keys.len() {
        let first = meet(&mut table, keys[at], at as u32)?;
        firsts.push(first)?;
    }
    Ok(firsts)
}
