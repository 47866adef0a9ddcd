//! What signals are assigned by (IEEE 1364-2005, 6.1, 9.2 and 12.3.9; IEEE 1364.1-2002, 5.1 and 5.2).
ghost use Rattle.std.specs.Prelude.{◌≡◌, ◌==◌, ◌<◌, ◌&&◌, not, true, length, if◌then◌else◌, IfOk, OnOk};
ghost use Rattle.std.specs.List.{list_any};
ghost use Rattle.design_core.specs.Drives.{some_set, is_reg};
ghost use Rattle.design_bits.specs.Masks.{Adds};
ghost use Rattle.design_bits.specs.Rows.{item_passes};
ghost use Rattle.design_rules.specs.Assignments.{blocks_set, part_of, driver_sets, clocked_sets, connects, is_misassigned};
ghost use Rattle.design_rules.specs.Entries.{is_variable};
ghost use Rattle.design_rules.specs.First.{IsFirst};
ghost use Rattle.assign_rules.specs.Ways.{AreWays, Has, by_way, is_home, is_mixed};

use crate::homes::{Homes, part_home};
use design_bits::{BitSet, add_one, share_bit};
use design_core::{CaseItem, Clocked, Design, Driver, Part, Signal, SignalKind, Stmt};
use loc_base::NoMemory;
use std::alloc::Global;

/// Adds a home to a set of homes.
fn add_home(set: &mut BitSet, home: u32) -> Result<(), NoMemory>
    ensures { OnOk result (Adds set.old set.new (λ h b. home == h)) }
{
    add_one(set, home, u128::MAX)
}

/// Adds the homes of the parts of a left side.
pub(crate) fn add_parts(set: &mut BitSet, homes: &[u32], parts: &[Part]) -> Result<(), NoMemory>
    ensures { OnOk result (Adds set.old set.new (λ h b. list_any (part_of homes.now h) parts.now)) }
{
    for part in parts {
        add_home(set, part_home(homes, part))?;
    }
    Ok(())
}

/// Whether an assignment is one by `<=` where that is asked for, and else one by `=`.
fn is_way(way: bool, later: bool) -> bool
    ensures { result ≡ (if way then later else not later) }
{
    if way { later } else { !later }
}

/// Adds the homes of what an assignment assigns, where it is one in that way.
fn add_set(set: &mut BitSet, homes: &[u32], parts: &[Part], is_asked: bool) -> Result<(), NoMemory>
    ensures { OnOk result (Adds set.old set.new (λ h b. is_asked && list_any (part_of homes.now h) parts.now)) }
{
    if is_asked {
        add_parts(set, homes, parts)
    } else {
        Ok(())
    }
}

/// Adds the homes of what a statement assigns by `<=` where `way` is true, and else by `=`.
#[cycle(ways)]
pub(crate) fn add_statement(
    set: &mut BitSet,
    homes: &[u32],
    way: bool,
    statement: &Stmt,
) -> Result<(), NoMemory>
    ensures { OnOk result (Adds set.old set.new (λ h b. some_set (by_way way homes.now h) statement.now)) }
{
    match statement {
        Stmt::Nothing => Ok(()),
        Stmt::Block(statements) => add_statements(set, homes, way, statements),
        Stmt::If { yes, no, .. } => {
            add_statement(set, homes, way, yes)?;
            add_statement(set, homes, way, no)
        }
        Stmt::Case { items, other, .. } => {
            add_items(set, homes, way, items)?;
            add_statement(set, homes, way, other)
        }
        Stmt::Set { target, later, .. } => add_set(set, homes, &target.parts, is_way(way, *later)),
    }
}

#[cycle(ways)]
fn add_statements(
    set: &mut BitSet,
    homes: &[u32],
    way: bool,
    statements: &[Stmt],
) -> Result<(), NoMemory>
    ensures { OnOk result (Adds set.old set.new (λ h b. list_any (some_set (by_way way homes.now h)) statements.now)) }
{
    for statement in statements {
        add_statement(set, homes, way, statement)?;
    }
    Ok(())
}

#[cycle(ways)]
fn add_items(set: &mut BitSet, homes: &[u32], way: bool, items: &[CaseItem]) -> Result<(), NoMemory>
    ensures { OnOk result (Adds set.old set.new (λ h b. list_any (item_passes (by_way way homes.now h)) items.now)) }
{
    for item in items {
        add_statement(set, homes, way, &item.body)?;
    }
    Ok(())
}

/// Adds the homes of what a driver assigns in that way, where it is a combinational block.
fn add_driver(set: &mut BitSet, homes: &[u32], way: bool, driver: &Driver) -> Result<(), NoMemory>
    ensures { OnOk result (Adds set.old set.new (λ h b. driver_sets (by_way way homes.now h) driver.now)) }
{
    match driver {
        Driver::Cont { .. } => Ok(()),
        Driver::Comb { body, .. } => add_statement(set, homes, way, body),
    }
}

/// Adds the homes of what a clocked block assigns in that way, in its body or its reset's values.
pub(crate) fn add_clocked(
    set: &mut BitSet,
    homes: &[u32],
    way: bool,
    block: &Clocked,
) -> Result<(), NoMemory>
    ensures { OnOk result (Adds set.old set.new (λ h b. clocked_sets (by_way way homes.now h) block.now)) }
{
    add_statement(set, homes, way, &block.body)?;
    match &block.reset {
        Some(reset) => add_statement(set, homes, way, &reset.values),
        None => Ok(()),
    }
}

/// Adds the homes of what combinational blocks assign in that way.
fn add_drivers(
    set: &mut BitSet,
    homes: &[u32],
    way: bool,
    drivers: &[Driver],
) -> Result<(), NoMemory>
    ensures { OnOk result (Adds set.old set.new (λ h b. list_any (driver_sets (by_way way homes.now h)) drivers.now)) }
{
    for driver in drivers {
        add_driver(set, homes, way, driver)?;
    }
    Ok(())
}

/// Adds the homes of what clocked blocks assign in that way.
fn add_blocks(
    set: &mut BitSet,
    homes: &[u32],
    way: bool,
    blocks: &[Clocked],
) -> Result<(), NoMemory>
    ensures { OnOk result (Adds set.old set.new (λ h b. list_any (clocked_sets (by_way way homes.now h)) blocks.now)) }
{
    for block in blocks {
        add_clocked(set, homes, way, block)?;
    }
    Ok(())
}

/// Adds the homes of what one driver drives, where it is none of a block.
fn add_connection(set: &mut BitSet, homes: &[u32], driver: &Driver) -> Result<(), NoMemory>
    ensures { OnOk result (Adds set.old set.new (λ h b. connects homes.now h driver.now)) }
{
    match driver {
        Driver::Cont { target, .. } => add_parts(set, homes, &target.parts),
        Driver::Comb { .. } => Ok(()),
    }
}

/// Adds the homes of what continuous assignments, gates and connections drive.
fn add_connections(set: &mut BitSet, homes: &[u32], drivers: &[Driver]) -> Result<(), NoMemory>
    ensures { OnOk result (Adds set.old set.new (λ h b. list_any (connects homes.now h) drivers.now)) }
{
    for driver in drivers {
        add_connection(set, homes, driver)?;
    }
    Ok(())
}

/// In which ways signals are assigned, as sets of homes: by `=` and by `<=` in blocks, by `<=` in combinational blocks, and from outside
/// of blocks.
#[derive(Drop)]
pub(crate) struct Ways {
    pub(crate) equals: BitSet,
    pub(crate) arrows: BitSet,
    pub(crate) comb_arrows: BitSet,
    pub(crate) connected: BitSet,
}

/// What blocks assign in that way, of so many homes.
fn blocks_of(
    alloc: Global,
    design: &Design,
    homes: Homes<'_>,
    way: bool,
) -> Result<BitSet, NoMemory>
    ensures { IfOk result (Has homes.entry.count (λ h. blocks_set (by_way way homes.entry.list.now h) design.now)) }
{
    let mut set = BitSet::new(alloc, homes.count)?;
    add_drivers(&mut set, homes.list, way, &design.drivers)?;
    add_blocks(&mut set, homes.list, way, &design.clocked)?;
    Ok(set)
}

/// What combinational blocks assign by `<=`.
fn comb_arrows_of(alloc: Global, design: &Design, homes: Homes<'_>) -> Result<BitSet, NoMemory>
    ensures { IfOk result (Has homes.entry.count (λ h. list_any (driver_sets (by_way true homes.entry.list.now h)) design.now.drivers.items)) }
{
    let mut set = BitSet::new(alloc, homes.count)?;
    add_drivers(&mut set, homes.list, true, &design.drivers)?;
    Ok(set)
}

/// What is driven from outside of blocks.
fn connected_of(alloc: Global, design: &Design, homes: Homes<'_>) -> Result<BitSet, NoMemory>
    ensures { IfOk result (Has homes.entry.count (λ h. list_any (connects homes.entry.list.now h) design.now.drivers.items)) }
{
    let mut set = BitSet::new(alloc, homes.count)?;
    add_connections(&mut set, homes.list, &design.drivers)?;
    Ok(set)
}

/// In which ways the signals of a design are assigned.
fn ways_of(alloc: Global, design: &Design, homes: Homes<'_>) -> Result<Ways, NoMemory>
    ensures { IfOk result (AreWays design.now homes.entry.list.now homes.entry.count) }
{
    Ok(Ways {
        equals: blocks_of(alloc, design, homes, false)?,
        arrows: blocks_of(alloc, design, homes, true)?,
        comb_arrows: comb_arrows_of(alloc, design, homes)?,
        connected: connected_of(alloc, design, homes)?,
    })
}

/// Whether a set of homes has one.
#[tactic(auto, using(crate::proofs::WayLaws::home_tested))]
pub(crate) fn is_home(set: &BitSet, home: usize) -> bool
    requires { home < length set.now }
    ensures { result ≡ is_home set.now home }
{
    share_bit(set.mask(home), 1)
}

/// Whether a kind is that of a variable.
fn is_reg(kind: SignalKind) -> bool
    ensures { result ≡ is_reg kind }
{
    match kind {
        SignalKind::Reg => true,
        SignalKind::Input | SignalKind::Net => false,
    }
}

/// Whether a signal is a variable.
pub fn is_variable(signals: &[Signal], signal: usize) -> bool
    ensures { result ≡ is_variable signals.now signal }
{
    match signals.get(signal) {
        Some(signal) => is_reg(signal.kind),
        None => false,
    }
}

/// Whether a signal breaks the rule on assignments.
fn is_mixed(ways: &Ways, variable: bool, home: usize) -> bool
    requires equals { home < length ways.now.equals }
    requires arrows { home < length ways.now.arrows }
    requires comb { home < length ways.now.comb_arrows }
    requires connected { home < length ways.now.connected }
    ensures { result ≡ is_mixed variable ways.now home }
{
    let equals = is_home(&ways.equals, home);
    let arrows = is_home(&ways.arrows, home);
    let other = if variable {
        is_home(&ways.connected, home)
    } else {
        equals || arrows
    };
    (equals && arrows) || is_home(&ways.comb_arrows, home) || other
}

/// The first signal that is assigned both by `=` and by `<=`; by `<=` in a combinational block; from outside of blocks though it is a
/// variable; or in a block though it is none. `None` where there is none. `homes` has for each signal the first word of its array,
/// and the signal itself where it is no word of one: an array is one signal here.
pub fn first_misassigned(
    alloc: Global,
    design: &Design,
    homes: &[u32],
) -> Result<Option<usize>, NoMemory>
    ensures { IfOk result (IsFirst (λ h. is_misassigned design.now homes.now h ≡ true)) }
{
    let all = Homes::of(homes, design.signals.len());
    let ways = ways_of(alloc, design, all)?;
    for home in 0..all.count {
        if is_mixed(&ways, is_variable(&design.signals, home), home) {
            return Ok(Some(home));
        }
    }
    Ok(None)
}
