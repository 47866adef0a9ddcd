//! Calls of the plain simulator by themselves, on a register that toggles and has an asynchronous reset, and on three assignments.

use design_fits::{are_chosen, can_run, is_trace_of, samples_fit};
use front_end::{Format, FrontEnd, Ordered, ReadBy};
use loc_base::Bits;
use plain_sim::{compute_cycle, is_cycle, meets, start_words};
use plain_values::run_statement;
use small_networks::{FAN_OUT, name, network, traces};
use std::alloc::Global;
use std::test::Fail;
use verilog_front_end::Verilog;

const TOGGLE: &[u8] =
    b"module m(input clk, input rst, output reg q = 1'b1); always @(posedge clk or posedge rst) if (rst) q <= 1'b0; else q <= ~q; endmodule";

fn toggle(alloc: Global) -> Result<Ordered, Fail> {
    let (top, clk) = (name(alloc, "m")?, name(alloc, "clk")?);
    let clock = Some(&clk);
    let by = ReadBy {
        format: Format::Verilog,
        top: &top,
        clock,
    };
    match Verilog.read(alloc, TOGGLE, &by) {
        Ok(found) => Ok(found),
        Err(_) => Err(Fail::new("no design")),
    }
}

/// The body of the block leaves q at 1 and updates it to 0 later.
#[test]
fn a_nonblocking_assignment_updates_later(rt: HostRuntime) -> Result<(), Fail> {
    let alloc = rt.alloc();
    let found = toggle(alloc)?;
    let design = &found.design;
    assert!(rt; can_run(design));
    assert!(rt; design.places.len() == 2);
    assert!(rt; design.clocked.len() == 1);
    let mut now = start_words(alloc, design)?;
    let mut later = start_words(alloc, design)?;
    let zero = Bits::zero(1);
    let body = &design.clocked[0].body;
    run_statement(
        design,
        &[false, false],
        &[zero, zero],
        &mut now,
        &mut later,
        body,
    );
    assert!(rt; now.len() == 3 && later.len() == 3);
    assert!(rt; now[2].value() == 1);
    assert!(rt; later[2].value() == 0);
    Ok(())
}

/// With the reset at 0 the register has its state, 1, in this cycle, and its next state is 0; with any other word of
/// these it is no cycle.
#[test]
fn a_cycle_is_computed_and_recognized(rt: HostRuntime) -> Result<(), Fail> {
    let alloc = rt.alloc();
    let found = toggle(alloc)?;
    let (design, zero) = (&found.design, Bits::zero(1));
    let samples = [zero];
    let freed = [false, false];
    let chosen = [zero, zero];
    assert!(rt; can_run(design));
    assert!(rt; design.places.len() == 2);
    assert!(rt; samples_fit(&design.signals, &design.inputs, &samples));
    let state = start_words(alloc, design)?;
    let Some(words) = compute_cycle(alloc, design, &[], &samples, &state, &freed, &chosen)? else {
        return Err(Fail::new("no cycle"));
    };
    assert!(rt; words.now.len() == 3 && words.next.len() == 3);
    assert!(rt; words.now[2].value() == 1);
    assert!(rt; words.next[2].value() == 0);
    assert!(rt;
        is_cycle(
            alloc,
            design,
            &samples,
            &state,
            &freed,
            &chosen,
            &words.now,
            &words.next
        )?
    );
    assert!(rt;
        !is_cycle(
            alloc, design, &samples, &state, &freed, &chosen, &words.now, &words.now
        )?
    );
    assert!(rt;
        !is_cycle(
            alloc,
            design,
            &samples,
            &state,
            &freed,
            &chosen,
            &words.next,
            &words.next
        )?
    );
    Ok(())
}

/// Orders of the drivers, and whether each comes behind those that it reads.
const ORDERS: [(&[u32], bool); 2] = [(&[0, 2, 1], true), (&[2, 1, 0], false)];

/// Of `n = a; y = n | b; x = n;` with a at 1: where a driver is computed before one that it reads, what comes out is no cycle.
#[test]
fn an_order_that_is_none_finds_no_cycle(rt: HostRuntime) -> Result<(), Fail> {
    let alloc = rt.alloc();
    let found = network(alloc, FAN_OUT)?;
    let design = &found.design;
    let traces = traces(alloc, design, &[&["1011"]])?;
    let zero = Bits::zero(1);
    let (freed, chosen) = ([false, false, false], [zero, zero, zero]);
    assert!(rt; can_run(design));
    assert!(rt; traces.len() == 1);
    let trace = &traces[0];
    assert!(rt; is_trace_of(design, trace));
    assert!(rt; are_chosen(design, trace, &freed, &chosen));
    for (order, is_right) in &ORDERS {
        let found = meets(alloc, design, *order, trace, &freed, &chosen)?;
        assert!(rt; found == *is_right);
    }
    Ok(())
}
