ghost use Rattle.std.specs.Prelude.{◌≡◌, ◌++◌, ◌+◌, ◌-◌, ◌<◌, ◌≤◌, ◌^◌, [], map, length, IfOk, OnOk};
ghost use Rattle.plain_list.specs.Candidates.{combinations, numbers_from, candidates_of, behind};

use design_core::Members;
use loc_base::NoMemory;
use std::alloc::Global;

/// All sets of at most `k` of the numbers 1 to `n`, by size and then by members.
#[tactic(auto, using(crate::proofs::Chosen::candidate_rules))]
pub fn candidates(alloc: Global, n: u32, k: u32) -> Result<Vec<Members>, NoMemory>
    requires numbers { n + 1 < 2 ^ 32 }
    requires size { k + 1 < 2 ^ 32 }
    ensures { IfOk result (λ sets. sets.items ≡ candidates_of n k) }
{
    let mut sets = Vec::new(alloc);
    add_combinations(alloc, &mut sets, &[], 0, 1, n)?;
    for size in 1..k + 1 {
        add_combinations(alloc, &mut sets, &[], size, 1, n)?;
    }
    Ok(sets)
}

/// Appends the members so far with every way to choose `size` more of the `count` numbers from `first` on.
#[tactic(auto, using(crate::proofs::Chosen::chosen_rules))]
fn add_combinations(
    alloc: Global,
    sets: &mut Vec<Members>,
    chosen: &[u32],
    size: u32,
    first: u32,
    count: u32,
) -> Result<(), NoMemory>
    requires { first + count < 2 ^ 32 }
    ensures { OnOk result (sets.new.items ≡ sets.old.items ++ behind chosen.now (combinations size (numbers_from first count))) }
{
    if size == 0 {
        sets.push(Members::copy_of(alloc, chosen)?)?;
        return Ok(());
    }
    if count == 0 {
        return Ok(());
    }
    let mut with_first = Members::copy_of(alloc, chosen)?;
    with_first.push(first)?;
    add_combinations(
        alloc,
        sets,
        with_first.as_slice(),
        size - 1,
        first + 1,
        count - 1,
    )?;
    add_combinations(alloc, sets, chosen, size, first + 1, count - 1)?;
    Ok(())
}
