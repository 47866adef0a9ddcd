//! What is known of a design that instances mean.
ghost use Rattle.std.specs.Prelude.{List, Option, map, ℕ};
ghost use Rattle.design_core.specs.declared.design.Design.{Design};
ghost use Rattle.v_hierarchy.specs.Instances.{Instance};
ghost use Rattle.design_rules.specs.Sound.{IsSound};
ghost use Rattle.v_design.specs.Means.{IsMeant};

/// A design that instances mean is no larger than it may be, no bit of it has two drivers, no used bit of a net is without one, no
/// combinational block holds a bit, no signal is assigned in two ways, and there is no race.
pub fn meant_is_sound()
    ensures { (instances : List Instance) (clock : Option (List ℕ)) (d : Design) (meant : IsMeant instances clock d)
        → IsSound d (map (λ n. n.home) meant.is.lists.numbered) }
{}
