ghost use Rattle.std.specs.Prelude.{◌≡◌, ◌&&◌, ◌<◌, ◌+ℤ◌, option_map, IfSome};
ghost use Rattle.std.specs.List.{list_any};
ghost use Rattle.design_core.specs.Drives.{is_among, part_drives, part_names, some_set, driver_drives, is_driven, block_drives, block_assigns_later, is_reg, is_register_bit};
ghost use Rattle.plain_sim.specs.EvaluateCycle.{asked_of, item_passes, block_passes};
ghost use Rattle.loc_base.specs.Bits.{width_of, value_of};
ghost use Rattle.design_core.specs.Valuation.{position_at};
ghost use Rattle.design_core.specs.Operator.{integer_of};
ghost use Rattle.design_core.specs.Constant.{constant_of};
ghost use Rattle.design_core.specs.Pick.{is_at, has_bit, may_pick};

use design_core::{CaseItem, Clocked, Design, Driver, Node, Part, Signal, SignalKind, Stmt, Typed};
use loc_base::Bits;
use plain_values::{position_from, signal_at, width_at};

/// What is asked of an assignment: whether it assigns a bit, or whether it assigns a signal by `<=`.
#[derive(Clone, Copy)]
pub(crate) enum Asked {
    Bit { signal: usize, position: u8 },
    Later { signal: usize },
}

/// Whether a number is one of `count` from `first` on.
fn is_among(first: usize, count: usize, n: usize) -> bool
    ensures { result ≡ is_among first count n }
{
    first <= n && n - first < count
}

/// The word of an index that is a constant.
fn constant_of(index: &Typed) -> Option<Bits>
    ensures value { option_map value_of result ≡ constant_of index.now.width index.now.node }
    ensures width { IfSome result (λ word. width_of word ≡ index.now.width) }
{
    match &index.node {
        Node::Const(word) if word.width() == index.width => Some(*word),
        _ => None,
    }
}

/// Whether a bit of a signal has an index and an offset.
fn is_at(signals: &[Signal], signal: usize, at: Bits, signed: bool, offset: i32, b: u8) -> bool
    ensures { result ≡ is_at b (position_at signals.now signal (integer_of signed (width_of at) (value_of at) +ℤ offset)) }
{
    if signal >= signals.len() {
        return false;
    }
    match position_from(signal_at(signals, signal), at, signed, offset) {
        Some(position) => position == u32::from(b),
        None => false,
    }
}

/// Whether a bit of a signal has an index and one of the offsets.
fn has_bit(
    signals: &[Signal],
    signal: usize,
    at: Bits,
    signed: bool,
    offsets: &[i32],
    b: u8,
) -> bool
    ensures { result ≡ has_bit signals.now signal (integer_of signed (width_of at) (value_of at)) offsets.now b }
{
    offsets
        .iter()
        .any(|offset| is_at(signals, signal, at, signed, *offset, b))
}

/// Whether a part of a signal, by an index and offsets, may have a bit (IEEE 1364-2005, 5.2.1).
fn may_pick(signals: &[Signal], signal: usize, index: &Typed, offsets: &[i32], b: u8) -> bool
    ensures { result ≡ may_pick signals.now signal index.now.width index.now.signed index.now.node offsets.now b }
{
    match constant_of(index) {
        Some(at) => has_bit(signals, signal, at, index.signed, offsets, b),
        None => b < width_at(signals, signal),
    }
}

/// Whether a part of a left side drives a bit.
pub fn part_drives(signals: &[Signal], s: usize, b: u8, part: &Part) -> bool
    ensures { result ≡ part_drives signals.now s b part.now }
{
    match part {
        Part::Whole(signal) => s == *signal as usize && b < width_at(signals, s),
        Part::Pick {
            signal,
            index,
            offsets,
        } => s == *signal as usize && may_pick(signals, s, index, offsets, b),
        Part::Slice {
            signal,
            from,
            width,
        } => {
            s == *signal as usize
                && is_among(usize::from(*from), usize::from(*width), usize::from(b))
        }
        Part::Word { first, count, .. } => is_among(*first as usize, *count as usize, s)
            && b < width_at(signals, s),
    }
}

/// Whether a part of a left side names a signal.
fn part_names(s: usize, part: &Part) -> bool
    ensures { result ≡ part_names s part.now }
{
    match part {
        Part::Whole(signal) | Part::Slice { signal, .. } | Part::Pick { signal, .. } => s
            == *signal as usize,
        Part::Word { first, count, .. } => is_among(*first as usize, *count as usize, s),
    }
}

/// Whether a left side drives a bit.
fn parts_drive(signals: &[Signal], s: usize, b: u8, parts: &[Part]) -> bool
    ensures { result ≡ list_any (part_drives signals.now s b) parts.now }
{
    parts.iter().any(|part| part_drives(signals, s, b, part))
}

/// Whether a left side names a signal.
fn parts_name(s: usize, parts: &[Part]) -> bool
    ensures { result ≡ list_any (part_names s) parts.now }
{
    parts.iter().any(|part| part_names(s, part))
}

/// Whether an assignment passes.
fn set_passes(signals: &[Signal], asked: Asked, parts: &[Part], later: bool) -> bool
    ensures { result ≡ asked_of signals.now asked parts.now later }
{
    match asked {
        Asked::Bit { signal, position } => parts_drive(signals, signal, position, parts),
        Asked::Later { signal } => later && parts_name(signal, parts),
    }
}

/// Whether some assignment in a statement passes.
#[cycle(sets)]
fn some_set(signals: &[Signal], asked: Asked, statement: &Stmt) -> bool
    ensures { result ≡ some_set (asked_of signals.now asked) statement.now }
{
    match statement {
        Stmt::Nothing => false,
        Stmt::Block(statements) => some_set_of(signals, asked, statements),
        Stmt::If { yes, no, .. } => some_set(signals, asked, yes) | some_set(signals, asked, no),
        Stmt::Case { items, other, .. } => some_set_in(signals, asked, items)
            || some_set(signals, asked, other),
        Stmt::Set { target, later, .. } => set_passes(signals, asked, &target.parts, *later),
    }
}

#[cycle(sets)]
fn some_set_of(signals: &[Signal], asked: Asked, statements: &[Stmt]) -> bool
    ensures { result ≡ list_any (some_set (asked_of signals.now asked)) statements.now }
{
    for statement in statements {
        if some_set(signals, asked, statement) {
            return true;
        }
    }
    false
}

#[cycle(sets)]
fn some_set_in(signals: &[Signal], asked: Asked, items: &[CaseItem]) -> bool
    ensures { result ≡ list_any (item_passes (asked_of signals.now asked)) items.now }
{
    for item in items {
        if some_set(signals, asked, &item.body) {
            return true;
        }
    }
    false
}

/// Whether a driver drives a bit.
pub(crate) fn driver_drives(signals: &[Signal], s: usize, b: u8, driver: &Driver) -> bool
    ensures { result ≡ driver_drives signals.now s b driver.now }
{
    let asked = Asked::Bit {
        signal: s,
        position: b,
    };
    match driver {
        Driver::Cont { target, .. } => set_passes(signals, asked, &target.parts, false),
        Driver::Comb { body, .. } => some_set(signals, asked, body),
    }
}

/// Whether a clocked block passes, by its body or by its reset's values.
fn block_passes(signals: &[Signal], asked: Asked, block: &Clocked) -> bool
    ensures { result ≡ block_passes signals.now asked block.now }
{
    some_set(signals, asked, &block.body)
        || match &block.reset {
            Some(reset) => some_set(signals, asked, &reset.values),
            None => false,
        }
}

/// Whether a clocked block drives a bit.
pub(crate) fn block_drives(signals: &[Signal], s: usize, b: u8, block: &Clocked) -> bool
    ensures { result ≡ block_drives signals.now s b block.now }
{
    block_passes(
        signals,
        Asked::Bit {
            signal: s,
            position: b,
        },
        block,
    )
}

/// Whether a clocked block assigns a signal by `<=`.
pub fn block_assigns_later(signals: &[Signal], s: usize, block: &Clocked) -> bool
    ensures { result ≡ block_assigns_later s block.now }
{
    block_passes(signals, Asked::Later { signal: s }, block)
}

/// Whether a driver of the design drives a bit.
pub(crate) fn is_driven(design: &Design, s: usize, b: u8) -> bool
    ensures { result ≡ is_driven design.now s b }
{
    design
        .drivers
        .iter()
        .any(|driver| driver_drives(&design.signals, s, b, driver))
}

/// Whether a signal is a variable.
fn is_reg(kind: SignalKind) -> bool
    ensures { result ≡ is_reg kind }
{
    match kind {
        SignalKind::Input | SignalKind::Net => false,
        SignalKind::Reg => true,
    }
}

/// Whether a bit is one of a register.
pub(crate) fn is_register_bit(design: &Design, s: usize, b: u8) -> bool
    ensures { result ≡ is_register_bit design.now s b }
{
    match design.signals.get(s) {
        Some(signal) => is_reg(signal.kind) && !is_driven(design, s, b),
        None => false,
    }
}
