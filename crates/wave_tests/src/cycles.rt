//! How many cycles a dump may have.
use crate::design::{add_signal, empty, name};
use design_core::{Design, SignalKind};
use std::alloc::Global;
use std::test::Fail;
use vcd_traces::{SampleBy, VcdErr, has_ports, samples};

/// A dump of an output `q` of 1 bit that has so many stamps.
fn stamps(alloc: Global, count: u32) -> Result<Vec<u8>, Fail> {
    let header = "$scope module m $end $var wire 1 ! q $end $upscope $end $enddefinitions $end";
    let mut text = header.as_bytes().to_vec(alloc)?;
    for time in 0..count {
        text.extend_from_slice(b" #")?;
        for place in [100_000, 10_000, 1000, 100, 10, 1] {
            text.push(b'0' + (time / place % 10) as u8)?;
        }
    }
    Ok(text)
}

/// How many cycles a dump without a clock has.
fn cycles(alloc: Global, design: &Design, text: &[u8]) -> Result<u32, VcdErr> {
    if !has_ports(design) {
        return Ok(0);
    }
    let by = SampleBy {
        design,
        clock: None,
        scope: None,
        zero_inputs: false,
    };
    let trace = samples(alloc, text, &by)?;
    Ok(trace.cycles)
}

#[test]
fn a_hundred_thousand_cycles_are_a_trace(rt: HostRuntime) -> Result<(), Fail> {
    let alloc = rt.alloc();
    let mut design = empty(alloc);
    add_signal(&mut design, name(&rt, alloc, "q")?, 1, SignalKind::Net)?;
    design.outputs.push(0)?;
    let text = stamps(alloc, 100_000)?;
    assert_eq!(rt; cycles(alloc, &design, &text), Ok(100_000));
    let text = stamps(alloc, 100_001)?;
    assert_eq!(rt; cycles(alloc, &design, &text), Err(VcdErr::Cycles));
    design.inputs.push(0)?;
    assert_eq!(rt; cycles(alloc, &design, &text), Err(VcdErr::Cycles));
    Ok(())
}
