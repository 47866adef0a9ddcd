//! A law of the definitions: the contract of a function that does nothing.

ghost use Rattle.design_core.specs.WellFormed.{IsWellFormed};
ghost use Rattle.design_core.specs.Reads.{IsOrder};
ghost use Rattle.plain_list.specs.Assignments.{IsOfAssignments};
ghost use Rattle.plain_list.specs.Network.{IsNetwork};

use design_core::Design;

/// A well-formed design of assignments to whole nets is a network, by each order of its drivers.
pub fn is_network(_design: &Design, _order: &[u32])
    requires well_formed { IsWellFormed _design.now }
    requires assignments { IsOfAssignments _design.now }
    requires order { IsOrder _design.now _order.now }
    ensures { IsNetwork _design.now _order.now }
{}
