//! One driver a bit, no used bit without one, and how large a design may be.

use crate::build::{add_assign, add_place, design_of, slice};
use design_core::{Design, SignalKind};
use design_fits::can_run;
use design_rules::{first_driven_twice, first_undriven, is_too_large};
use std::alloc::Global;
use std::test::Fail;

/// The first signal with two drivers, and the first that is used without one.
fn found(alloc: Global, design: &Design) -> Result<(Option<usize>, Option<usize>), Fail> {
    if !can_run(design) {
        return Err(Fail::new("the design does not fit"));
    }
    let twice = first_driven_twice(alloc, design)?;
    let undriven = first_undriven(alloc, design)?;
    Ok((twice, undriven))
}

/// An input and a net of two bits that is an output, with these bits of it assigned.
fn net_with(alloc: Global, positions: &[u8]) -> Result<Design, Fail> {
    let mut design = design_of(alloc, &[(1, SignalKind::Input), (2, SignalKind::Net)], &[1])?;
    for position in positions {
        add_assign(alloc, &mut design, (1, *position), slice(0, 0))?;
    }
    Ok(design)
}

#[test]
fn each_bit_of_an_output_has_one_driver(rt: HostRuntime) -> Result<(), Fail> {
    let alloc = rt.alloc();
    assert_eq!(rt; found(alloc, &net_with(alloc, &[0, 1])?)?, (None, None));
    assert_eq!(rt;
        found(alloc, &net_with(alloc, &[0, 1, 1])?)?,
        (Some(1), None)
    );
    assert_eq!(rt; found(alloc, &net_with(alloc, &[0])?)?, (None, Some(1)));
    Ok(())
}

#[test]
fn an_input_has_no_driver(rt: HostRuntime) -> Result<(), Fail> {
    let alloc = rt.alloc();
    let mut design = net_with(alloc, &[0, 1])?;
    add_assign(alloc, &mut design, (0, 0), slice(1, 0))?;
    assert_eq!(rt; found(alloc, &design)?, (Some(0), None));
    Ok(())
}

/// An input, and two nets: the first bit of the second is read, and is driven or not.
fn reading(alloc: Global, is_driven: bool) -> Result<Design, Fail> {
    let signals = [
        (1, SignalKind::Input),
        (1, SignalKind::Net),
        (2, SignalKind::Net),
    ];
    let mut design = design_of(alloc, &signals, &[])?;
    add_assign(alloc, &mut design, (1, 0), slice(2, 0))?;
    if is_driven {
        add_assign(alloc, &mut design, (2, 0), slice(0, 0))?;
    }
    Ok(design)
}

#[test]
fn a_bit_that_is_read_has_a_driver(rt: HostRuntime) -> Result<(), Fail> {
    let alloc = rt.alloc();
    assert_eq!(rt; found(alloc, &reading(alloc, true)?)?, (None, None));
    assert_eq!(rt; found(alloc, &reading(alloc, false)?)?, (None, Some(2)));
    Ok(())
}

#[test]
fn there_are_at_most_65536_places(rt: HostRuntime) -> Result<(), Fail> {
    let alloc = rt.alloc();
    let mut design = net_with(alloc, &[0, 1])?;
    for _place in 0..65_536u32 {
        add_place(alloc, &mut design, 1)?;
    }
    assert!(rt; !is_too_large(&design));
    add_place(alloc, &mut design, 1)?;
    assert!(rt; is_too_large(&design));
    Ok(())
}
