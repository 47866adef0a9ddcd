//! Laws of the definitions. Each is the contract of a function that does nothing, over values that no code holds.

ghost use Rattle.std.specs.Prelude.{◌≡◌, ◌++◌, Contains, false, length, List, true, ℕ};
ghost use Rattle.std.specs.List.{list_all, list_any};
ghost use Rattle.design_core.specs.Valuation.{Valuation};
ghost use Rattle.design_core.specs.Store.{store};
ghost use Rattle.design_core.specs.After.{after};
ghost use Rattle.design_core.specs.Drives.{is_driven, part_drives, statement_drives};
ghost use Rattle.design_core.specs.DrivenOnce.{IsDrivenOnce};
ghost use Rattle.design_core.specs.Order.{HasCircle, IsLeastOrder};
ghost use Rattle.design_core.specs.Steps.{with_drivers};
ghost use Rattle.design_core.specs.Cycle.{Cycle};
ghost use Rattle.design_core.specs.Run.{IsRun};
ghost use Rattle.design_core.specs.Reads.{IsOrder};
ghost use Rattle.design_core.specs.Listing.{IsEntry, IsFront, IsList};
ghost use Rattle.design_core.specs.Laws.{Done, OneCycle, OneRun, Stored, TwoBegun, TwoCycles, TwoLists, TwoOrders, TwoRuns, TwoSets};
ghost use Rattle.design_core.specs.WellFormed.{IsWellFormed, part_fits, statement_fits};
ghost use Rattle.design_core.specs.Works.{IsWithin, Works};

/// A design has one list: two lists of its minimal sets are equal.
pub fn same_list()
    ghost of: { TwoLists }
    requires one { IsList of.design of.traces of.groups of.size of.one }
    requires other { IsList of.design of.traces of.groups of.size of.other }
    ensures { of.one ≡ of.other }
{}

/// A front is a prefix of the list.
pub fn front_is_prefix()
    ghost of: { TwoLists }
    requires front { IsFront of.design of.traces of.groups of.size of.one }
    requires list { IsList of.design of.traces of.groups of.size of.other }
    ensures { (rest : List (List ℕ)) × (of.other ≡ of.one ++ rest) }
{}

/// A front that is as long as the list is the list.
pub fn front_as_long()
    ghost of: { TwoLists }
    requires front { IsFront of.design of.traces of.groups of.size of.one }
    requires list { IsList of.design of.traces of.groups of.size of.other }
    requires as_long { length of.one ≡ length of.other }
    ensures { of.one ≡ of.other }
{}

/// A front that every minimal set stands in is the list.
pub fn complete_front()
    ghost of: { TwoLists }
    requires front { IsFront of.design of.traces of.groups of.size of.one }
    requires complete { (set : List ℕ) → IsEntry of.design of.traces of.groups of.size set → Contains of.one set }
    requires list { IsList of.design of.traces of.groups of.size of.other }
    ensures whole { IsList of.design of.traces of.groups of.size of.one }
    ensures same { of.one ≡ of.other }
{}

/// The list is a front.
pub fn list_is_front()
    ghost of: { TwoLists }
    requires { IsList of.design of.traces of.groups of.size of.one }
    ensures { IsFront of.design of.traces of.groups of.size of.one }
{}

/// A set that contains a working set works, in a well-formed design.
pub fn more_works()
    ghost of: { TwoSets }
    requires well_formed { IsWellFormed of.design }
    requires within { IsWithin of.inner of.outer }
    requires works { Works of.design of.traces of.groups of.inner }
    ensures { Works of.design of.traces of.groups of.outer }
{}

/// In a design whose drivers can be ordered so that none depends on itself or on a later one, the values of all bits in
/// a cycle, and the next states, are determined by the samples, the states and the choice.
pub fn same_cycle()
    ghost of: { TwoCycles }
    requires well_formed { IsWellFormed of.design }
    requires order { IsOrder of.design of.order }
    requires one { Cycle of.design of.samples of.state of.choice of.one of.one_next }
    requires other { Cycle of.design of.samples of.state of.choice of.other of.other_next }
    ensures values { of.one ≡ of.other }
    ensures next { of.one_next ≡ of.other_next }
{}

/// In such a design a trace has one run at most, for given choices.
pub fn same_run()
    ghost of: { TwoRuns }
    requires well_formed { IsWellFormed of.design }
    requires order { IsOrder of.design of.order }
    requires one { IsRun of.design of.trace of.freed of.choices of.one }
    requires other { IsRun of.design of.trace of.freed of.choices of.other }
    ensures { of.one ≡ of.other }
{}

/// In a well-formed design in which each bit gets its value once, and whose drivers stand in an order, there is a cycle
/// for all samples, states and choices.
pub fn some_cycle()
    ghost of: { OneCycle }
    requires well_formed { IsWellFormed of.design }
    requires once { IsDrivenOnce of.design }
    requires order { IsOrder of.design of.order }
    ensures { (V : Valuation) × (next : Valuation) × Cycle of.design of.samples of.state of.choice V next }
{}

/// In such a design a trace has a run, for all choices.
pub fn some_run()
    ghost of: { OneRun }
    requires well_formed { IsWellFormed of.design }
    requires once { IsDrivenOnce of.design }
    requires order { IsOrder of.design of.order }
    ensures { (run : List Valuation) × IsRun of.design of.trace of.freed of.choices run }
{}

/// What the drivers of such a design leave in an order does not depend on what their bits were before.
pub fn drivers_forget()
    ghost of: { TwoBegun }
    requires well_formed { IsWellFormed of.design }
    requires order { IsOrder of.design of.order }
    requires same { (s b : ℕ) → is_driven of.design s b ≡ false → of.one s b ≡ of.other s b }
    ensures { with_drivers of.design of.choice of.order of.one ≡ with_drivers of.design of.choice of.order of.other }
{}

/// A left side of parts of the design stores nothing into a bit that it does not drive.
pub fn store_outside()
    ghost of: { Stored }
    requires fits { list_all (part_fits of.signals) of.parts ≡ true }
    requires outside { list_any (part_drives of.signals of.signal of.position) of.parts ≡ false }
    ensures { store of.signals of.reads of.writes of.parts of.bits of.signal of.position ≡ of.writes of.signal of.position }
{}

/// A statement leaves the bits that it does not assign, in what is read and in the later updates.
pub fn statement_leaves()
    ghost of: { Done }
    requires fits { statement_fits of.signals of.places of.statement ≡ true }
    requires outside { statement_drives of.signals of.signal of.position of.statement ≡ false }
    ensures now { (after of.signals of.choice of.statement of.updates).now of.signal of.position ≡ of.updates.now of.signal of.position }
    ensures later { (after of.signals of.choice of.statement of.updates).later of.signal of.position ≡ of.updates.later of.signal of.position }
{}

/// The least order of a design's drivers is an order in which none depends on itself or on a later one.
pub fn least_order_is_order()
    ghost of: { TwoOrders }
    requires { IsLeastOrder of.design of.one }
    ensures { IsOrder of.design of.one }
{}

/// It is the only one.
pub fn same_least_order()
    ghost of: { TwoOrders }
    requires one { IsLeastOrder of.design of.one }
    requires other { IsLeastOrder of.design of.other }
    ensures { of.one ≡ of.other }
{}

/// Where drivers depend on each other in a circle there is none.
pub fn no_order_in_a_circle()
    ghost of: { TwoOrders }
    requires { HasCircle of.design }
    ensures { ¬ IsLeastOrder of.design of.one }
{}
