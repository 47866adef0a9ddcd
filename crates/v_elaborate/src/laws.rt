//! Laws of the definitions. Each is the contract of a function that does nothing, over values that no code holds.
ghost use Rattle.std.specs.Prelude.{◌≡◌, ◌≤◌, ℕ, List, length, Ok};
ghost use Rattle.v_hierarchy.specs.Items.{Child};
ghost use Rattle.v_hierarchy.specs.Instances.{instances, top_child, top_of};
ghost use Rattle.v_hierarchy.specs.Hierarchy.{IsAt};
ghost use Rattle.v_elaborate.specs.Laws.{design_turns, Listed, IsHierarchy};

/// The list of a design's instances is the hierarchy: what stands at any path is in it, and each entry stands at some path.
pub fn list_is_hierarchy()
    ghost of: { Listed }
    requires named { top_of of.units of.name ≡ Ok of.top }
    requires list { instances of.units of.name ≡ Ok of.list }
    ensures { IsHierarchy of.units of.top of.list }
{}

/// No instance stands more than 64 levels below the top.
pub fn no_instance_is_deeper()
    ghost of: { Listed }
    requires named { top_of of.units of.name ≡ Ok of.top }
    requires list { instances of.units of.name ≡ Ok of.list }
    ensures { (path : List ℕ) (c : Child) → IsAt of.units (top_child of.top) path c → length path ≤ 64 }
{}

/// There are at most 65,536 instances.
pub fn instances_are_few()
    ghost of: { Listed }
    requires named { top_of of.units of.name ≡ Ok of.top }
    requires list { instances of.units of.name ≡ Ok of.list }
    ensures { length of.list ≤ 65536 }
{}

/// There are at most 65,536 turns of loops in all instances together.
pub fn turns_are_few()
    ghost of: { Listed }
    requires named { top_of of.units of.name ≡ Ok of.top }
    requires list { instances of.units of.name ≡ Ok of.list }
    ensures { design_turns of.list ≤ 65536 }
{}
