ghost use Rattle.std.specs.Prelude.{◌≡◌, ◌<◌, ◌&&◌, ℕ, length};
ghost use Rattle.design_bits.specs.Masks.{Adds, has};

use design_bits::BitSet;

/// Adds the bits of a set.
pub(crate) fn join(table: &mut [u128], own: &BitSet)
    requires { length table.old ≡ length own.now }
    ensures { Adds table.old table.new (λ s b. has own.now s b) }
{
    for signal in own.signals() {
        table[*signal] |= own.mask(*signal);
    }
}

/// Adds the bits of a set that a table has.
pub(crate) fn join_common(twice: &mut [u128], once: &[u128], own: &BitSet)
    requires long { length twice.old ≡ length own.now }
    requires once { length once.now ≡ length own.now }
    ensures { Adds twice.old twice.new (λ s b. has once.now s b && has own.now s b) }
{
    for signal in own.signals() {
        twice[*signal] |= once[*signal] & own.mask(*signal);
    }
}
