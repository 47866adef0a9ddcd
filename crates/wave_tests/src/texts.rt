//! The text of a wave with bits that are not checked, written down by hand.
use crate::design::{add_place, add_signal, empty, expect, name, trace, word};
use design_core::{Design, SignalKind};
use loc_base::Name;
use std::alloc::Global;
use std::process::Abort;
use std::test::Fail;
use vcd_waves::{Wave, has_rows, wave_text};

/// The clock of a design that has none.
fn no_clock(_top: &Name) -> Option<&Name> {
    None
}

/// An output of 1 bit before an input of 2 bits and an output of 3 bits, and three places.
fn mixed(rt: &impl Abort, alloc: Global) -> Result<Design, Fail> {
    let mut design = empty(alloc);
    add_signal(&mut design, name(rt, alloc, "y")?, 1, SignalKind::Net)?;
    add_signal(&mut design, name(rt, alloc, "a")?, 2, SignalKind::Input)?;
    add_signal(&mut design, name(rt, alloc, "z")?, 3, SignalKind::Net)?;
    design.inputs.push(1)?;
    design.outputs.push(0)?;
    design.outputs.push(2)?;
    for width in [3, 1, 2] {
        add_place(
            &mut design,
            name(rt, alloc, "m")?,
            name(rt, alloc, "m")?,
            width,
        )?;
    }
    Ok(design)
}

const MIXED: &str = "$timescale 1ns $end
$scope module top $end
$var wire 1 ! y $end
$var wire 2 \" a $end
$var wire 3 # z $end
$scope module freed $end
$var wire 1 $ p1 $end
$var wire 2 % p2 $end
$upscope $end
$upscope $end
$enddefinitions $end
#0
1!
b10 \"
bx1x #
1$
b01 %
#1
x!
b11 \"
b000 #
0$
b11 %
";

#[test]
fn ports_are_in_port_order_and_freed_places_in_their_own_scope(
    rt: HostRuntime,
) -> Result<(), Fail> {
    let design = mixed(&rt, rt.alloc())?;
    let top = name(&rt, rt.alloc(), "top")?;
    let mut trace = trace(rt.alloc(), 2);
    trace.inputs.push(word(&rt, 2, 2))?;
    trace.inputs.push(word(&rt, 2, 3))?;
    expect(&mut trace, word(&rt, 1, 1), word(&rt, 1, 1))?;
    expect(&mut trace, word(&rt, 3, 2), word(&rt, 3, 2))?;
    expect(&mut trace, word(&rt, 1, 0), word(&rt, 1, 0))?;
    expect(&mut trace, word(&rt, 3, 0), word(&rt, 3, 7))?;
    let chosen = [
        word(&rt, 1, 1),
        word(&rt, 2, 1),
        word(&rt, 1, 0),
        word(&rt, 2, 3),
    ];
    let clock = no_clock(&top);
    let wave = Wave {
        top: &top,
        design: &design,
        clock,
        trace: &trace,
        places: &[1, 2],
        chosen: &chosen,
    };
    assert!(rt; has_rows(&wave));
    assert_eq!(rt; wave_text(rt.alloc(), &wave)?.as_slice(), MIXED.as_bytes());
    let without_values = Wave {
        chosen: &[],
        ..wave
    };
    assert!(rt; !has_rows(&without_values));
    Ok(())
}
