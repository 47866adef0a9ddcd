ghost use Rattle.std.specs.Prelude.{◌≡◌, ℕ, Contains};
ghost use Rattle.std.specs.List.Sorted.{IsStrictlyIncreasing};

/// Numbers in ascending order, each once.
pub fn ascending(numbers: &mut Vec<u32>)
    ensures rises { IsStrictlyIncreasing numbers.new.items }
    ensures keeps { (x : ℕ) → Contains numbers.old.items x → Contains numbers.new.items x }
    ensures adds_none { (x : ℕ) → Contains numbers.new.items x → Contains numbers.old.items x }
{
    numbers.sort_unstable();
    numbers.dedup();
}
