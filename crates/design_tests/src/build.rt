//! What the designs of the tests of rules and of orders are made of.

use design_core::{
    CaseItem, Clocked, Design, Driver, Label, Node, Part, Place, PlaceKind, Signal, SignalKind,
    Stmt, Target, Typed,
};
use loc_base::{Bits, Boxed, Items, Name, Span};
use std::alloc::Global;
use std::test::Fail;

fn bits(width: u8, value: u128) -> Result<Bits, Fail> {
    match Bits::new(width, value) {
        Some(word) => Ok(word),
        None => Err(Fail::new("no such word")),
    }
}

fn name(alloc: Global, text: &str) -> Result<Name, Fail> {
    match Name::new(alloc, text.as_bytes())? {
        Some(name) => Ok(name),
        None => Err(Fail::new("no name")),
    }
}

/// Adds a signal with the range from `width - 1` to 0.
fn add_signal(alloc: Global, design: &mut Design, width: u8, kind: SignalKind) -> Result<(), Fail> {
    let start = bits(width, 0)?;
    let path = name(alloc, "s")?;
    design.signals.push(Signal {
        path,
        width,
        signed: false,
        left: i32::from(width) - 1,
        right: 0,
        kind,
        start,
    })?;
    Ok(())
}

/// A design without drivers: its signals by width and kind, and its outputs. The first signal is its input.
pub(super) fn design_of(
    alloc: Global,
    signals: &[(u8, SignalKind)],
    outputs: &[u32],
) -> Result<Design, Fail> {
    let mut design = Design {
        signals: Vec::new(alloc),
        drivers: Vec::new(alloc),
        clocked: Vec::new(alloc),
        places: Vec::new(alloc),
        inputs: [0].to_vec(alloc)?,
        outputs: outputs.to_vec(alloc)?,
    };
    for (width, kind) in signals {
        add_signal(alloc, &mut design, *width, *kind)?;
    }
    Ok(design)
}

/// One bit of a signal.
pub(super) fn slice(signal: u32, position: u8) -> Typed {
    Typed {
        width: 1,
        signed: false,
        node: Node::Slice {
            signal,
            from: position,
            width: 1,
        },
    }
}

fn target_of(alloc: Global, signal: u32, position: u8) -> Result<Target, Fail> {
    let mut parts = Items::new(alloc);
    parts.push(Part::Slice {
        signal,
        from: position,
        width: 1,
    })?;
    Ok(Target { parts })
}

/// Adds `assign signal[position] = value;`.
pub(super) fn add_assign(
    alloc: Global,
    design: &mut Design,
    target: (u32, u8),
    value: Typed,
) -> Result<(), Fail> {
    let (signal, position) = target;
    let target = target_of(alloc, signal, position)?;
    design.drivers.push(Driver::Cont {
        target,
        value,
        place: None,
        span: Span { from: 0, to: 0 },
    })?;
    Ok(())
}

/// Adds the place of an assignment of one bit of a signal.
pub(super) fn add_place(alloc: Global, design: &mut Design, signal: u32) -> Result<u32, Fail> {
    let module = name(alloc, "m")?;
    let path = name(alloc, "m")?;
    let Ok(number) = u32::try_from(design.places.len()) else {
        return Err(Fail::new("too many places"));
    };
    design.places.push(Place {
        kind: PlaceKind::Step,
        width: 1,
        site: 0,
        home: 0,
        copy: 0,
        line: 1,
        module,
        path,
        signal,
    })?;
    Ok(number)
}

/// `signal[position] = value`.
pub(super) fn set_bit(
    alloc: Global,
    design: &mut Design,
    target: (u32, u8),
    value: Typed,
) -> Result<Stmt, Fail> {
    let (signal, position) = target;
    let place = add_place(alloc, design, signal)?;
    let target = target_of(alloc, signal, position)?;
    Ok(Stmt::Set {
        place,
        target,
        value,
        later: false,
    })
}

/// `signal[0] = x[0]`, or `signal[0] <= x[0]`, of the input x.
pub(super) fn set(
    alloc: Global,
    design: &mut Design,
    signal: u32,
    later: bool,
) -> Result<Stmt, Fail> {
    let place = add_place(alloc, design, signal)?;
    let target = target_of(alloc, signal, 0)?;
    Ok(Stmt::Set {
        place,
        target,
        value: slice(0, 0),
        later,
    })
}

/// `if (x[0]) yes; else no;` of the input x.
pub(super) fn either(alloc: Global, yes: Stmt, no: Stmt) -> Result<Stmt, Fail> {
    let yes = Boxed::new(alloc, yes)?;
    let no = Boxed::new(alloc, no)?;
    Ok(Stmt::If {
        cond: slice(0, 0),
        yes,
        no,
    })
}

/// `VALUE: body` of a case on one bit.
pub(super) fn item(alloc: Global, value: u128, body: Stmt) -> Result<CaseItem, Fail> {
    let mut labels = Items::new(alloc);
    let word = bits(1, value)?;
    let wild = bits(1, 0)?;
    let value = Typed {
        width: 1,
        signed: false,
        node: Node::Const(word),
    };
    labels.push(Label { value, wild })?;
    Ok(CaseItem { labels, body })
}

/// `case (x[0]) items endcase` of the input x, without a default.
pub(super) fn case_of(alloc: Global, items: Items<CaseItem>) -> Result<Stmt, Fail> {
    let other = Boxed::new(alloc, Stmt::Nothing)?;
    Ok(Stmt::Case {
        subject: slice(0, 0),
        items,
        other,
        wild: false,
    })
}

/// Adds a combinational block.
pub(super) fn add_block(design: &mut Design, body: Stmt) -> Result<(), Fail> {
    design.drivers.push(Driver::Comb {
        body,
        span: Span { from: 0, to: 0 },
    })?;
    Ok(())
}

/// Adds a clocked block without a reset.
pub(super) fn add_clocked(design: &mut Design, body: Stmt) -> Result<(), Fail> {
    design.clocked.push(Clocked { reset: None, body })?;
    Ok(())
}
