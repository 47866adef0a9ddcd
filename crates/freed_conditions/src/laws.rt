//! Laws of the definitions. Each is the contract of a function that does nothing, over values that no code holds.

ghost use Rattle.std.specs.Prelude.{◌≡◌, ◌++◌, ◌↔◌, false, length, true};
ghost use Rattle.design_core.specs.After.{after};
ghost use Rattle.design_core.specs.Cycle.{Cycle};
ghost use Rattle.design_core.specs.DrivenOnce.{IsDrivenOnce};
ghost use Rattle.design_core.specs.Listing.{IsFront, IsList};
ghost use Rattle.design_core.specs.Operator.{is_true};
ghost use Rattle.design_core.specs.Order.{IsLeastOrder};
ghost use Rattle.design_core.specs.Reads.{IsOrder};
ghost use Rattle.design_core.specs.Valuation.{Valuation, width_at};
ghost use Rattle.design_core.specs.Value.{value};
ghost use Rattle.design_core.specs.WellFormed.{IsWellFormed, statement_fits, typed_fits};
ghost use Rattle.design_core.specs.Works.{Works};
ghost use Rattle.freed_conditions.specs.Alike.{Alike, Room};
ghost use Rattle.freed_conditions.specs.Freed.{freed};
ghost use Rattle.freed_conditions.specs.IsFreed.{IsFreed};
ghost use Rattle.freed_conditions.specs.Kept.{keep, kept_of, subject_of, truth, whole};
ghost use Rattle.freed_conditions.specs.Laws.{GoesByItsNet, MoreSignals, OneCondition, OneStatement, TwoCycles, TwoDesigns, TwoLists, TwoStatements};
ghost use Rattle.freed_conditions.specs.Old.{AreOld, FreesOld, IsRunnable, old_bits};
ghost use Rattle.freed_conditions.specs.Widths.{widths};

/// The value of an expression over a design's signals is the same with more signals behind them.
pub fn value_with_more_signals()
    ghost of: { MoreSignals }
    requires fits { typed_fits of.signals of.expression ≡ true }
    ensures { value (of.signals ++ of.hidden) of.values of.expression ≡ value of.signals of.values of.expression }
{}

/// Where the place of the condition of an `if` isn't freed, the net in which it is kept names the arm that the condition does.
pub fn same_arm()
    ghost of: { OneCondition }
    requires wide { width_at of.signals of.next.signal ≡ 1 }
    requires unfreed { of.choice.frees of.next.place ≡ false }
    ensures { is_true (value of.signals (after of.signals of.choice (keep of.next (truth of.condition)) of.updates).now (whole 1 false of.next.signal))
        ≡ is_true (value of.signals of.updates.now of.condition) }
{}

/// Where the place of a subject isn't freed, the subject by the net in which it is kept has its value.
pub fn same_subject()
    ghost of: { OneCondition }
    requires fits { typed_fits of.signals of.condition ≡ true }
    requires wide { width_at (of.signals ++ of.hidden) of.next.signal ≡ (kept_of of.condition).width }
    requires unfreed { of.choice.frees of.next.place ≡ false }
    ensures { value (of.signals ++ of.hidden)
        (after (of.signals ++ of.hidden) of.choice (keep of.next (kept_of of.condition)) of.updates).now
        (subject_of of.condition of.next.signal)
        ≡ value of.signals of.updates.now of.condition }
{}

/// A freed `if` and a freed `case` go by the value in the net, computed or chosen.
pub fn after_freed()
    ghost of: { OneStatement }
    ensures { GoesByItsNet of.signals of.choice of.next of.updates of.statement }
{}

/// Where none of its new places is freed, a freed statement leaves the bits of a design's own signals as the statement leaves them.
pub fn freed_statement_agrees()
    ghost two: { TwoStatements }
    requires fits { statement_fits two.of.signals two.of.places two.of.statement ≡ true }
    requires room { Room two.of.signals two.of.hidden two.of.choice.frees two.of.next (widths two.of.statement) }
    requires begins { Alike (length two.of.signals) two.freed two.of.updates }
    ensures { Alike (length two.of.signals)
        (after (two.of.signals ++ two.of.hidden) two.of.choice (freed two.of.next two.of.statement) two.freed)
        (after two.of.signals two.of.choice two.of.statement two.of.updates) }
{}

/// The freed design is well formed where the design is.
pub fn freed_is_well_formed()
    ghost two: { TwoDesigns }
    requires well_formed { IsWellFormed two.design }
    requires freed { IsFreed two.design two.freed }
    ensures { IsWellFormed two.freed }
{}

/// And each of its bits gets its value once where each of the design's does.
pub fn freed_is_driven_once()
    ghost two: { TwoDesigns }
    requires well_formed { IsWellFormed two.design }
    requires once { IsDrivenOnce two.design }
    requires freed { IsFreed two.design two.freed }
    ensures { IsDrivenOnce two.freed }
{}

/// The drivers of the freed design have the orders that the design's have, and the same least one.
pub fn same_orders()
    ghost two: { TwoDesigns }
    requires well_formed { IsWellFormed two.design }
    requires freed { IsFreed two.design two.freed }
    ensures order { IsOrder two.design two.order ↔ IsOrder two.freed two.order }
    ensures least { IsLeastOrder two.design two.order ↔ IsLeastOrder two.freed two.order }
{}

/// Where no new place is freed, the design's own bits of a cycle of the freed design are a cycle of the design.
pub fn cycle_of_freed()
    ghost two: { TwoCycles }
    requires well_formed { IsWellFormed two.of.design }
    requires freed { IsFreed two.of.design two.of.freed }
    requires old { FreesOld two.of.design two.choice.frees }
    requires cycle { Cycle two.of.freed two.samples two.state two.choice two.values two.next }
    ensures { Cycle two.of.design two.samples (old_bits two.of.design two.state) two.choice (old_bits two.of.design two.values) (old_bits two.of.design two.next) }
{}

/// And each cycle of the design is that of one of the freed design, where the design can be run.
pub fn cycle_of_design()
    ghost two: { TwoCycles }
    requires runnable { IsRunnable two.of.design two.of.order }
    requires freed { IsFreed two.of.design two.of.freed }
    requires old { FreesOld two.of.design two.choice.frees }
    requires cycle { Cycle two.of.design two.samples (old_bits two.of.design two.state) two.choice two.values two.next }
    ensures { (V : Valuation) × (next : Valuation) × Cycle two.of.freed two.samples two.state two.choice V next
        × (old_bits two.of.design V ≡ two.values) × (old_bits two.of.design next ≡ two.next) }
{}

/// A set of the design's own suspects that works in the freed design works in the design.
pub fn works_of_freed()
    ghost two: { TwoLists }
    requires well_formed { IsWellFormed two.of.design }
    requires freed { IsFreed two.of.design two.of.freed }
    requires old { AreOld two.of.design two.groups }
    requires works { Works two.of.freed two.traces two.groups two.set }
    ensures { Works two.of.design two.traces two.groups two.set }
{}

/// A set of the design's own suspects works in both designs or in none, and both have one list and the same fronts, where the design can be
/// run.
pub fn same_lists()
    ghost two: { TwoLists }
    requires runnable { IsRunnable two.of.design two.of.order }
    requires freed { IsFreed two.of.design two.of.freed }
    requires old { AreOld two.of.design two.groups }
    ensures works { Works two.of.design two.traces two.groups two.set ↔ Works two.of.freed two.traces two.groups two.set }
    ensures list { IsList two.of.design two.traces two.groups two.size two.sets ↔ IsList two.of.freed two.traces two.groups two.size two.sets }
    ensures front { IsFront two.of.design two.traces two.groups two.size two.sets ↔ IsFront two.of.freed two.traces two.groups two.size two.sets }
{}
