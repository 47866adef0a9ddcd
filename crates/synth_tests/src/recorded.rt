//! Designs with a trap each over traces of their own: outputs and next states, by the net and by the simulator.

ghost use Rattle.std.specs.Prelude.{◌≡◌};
ghost use Rattle.cycle_sim.specs.Simulator.{IsSim, held_by};

use crate::build::{bits, net_of, read_clocked};
use crate::run::{add_values, chosen_of, eval, step, words_at};
use cycle_sim::{Sim, can_simulate};
use design_core::Design;
use front_end::Ordered;
use loc_base::Bits;
use std::alloc::Global;
use std::process::Abort;
use std::test::Fail;
use word_net::WordNet;

/// One cycle: the samples of the inputs, the outputs in port order, and the next states of the registers in signal order.
#[derive(Clone, Copy)]
struct Cycle<'a> {
    samples: &'a [u128],
    outputs: &'a [u128],
    next: &'a [u128],
}

/// A design, the numbers of its registers' signals, and its cycles.
#[derive(Clone, Copy)]
struct Recorded<'a> {
    text: &'a str,
    registers: &'a [u32],
    cycles: &'a [Cycle<'a>],
}

/// The outputs and the next states of some cycles, one cycle behind the other.
#[derive(Debug, PartialEq, Eq, Drop)]
struct Seen {
    outputs: Vec<u128>,
    next: Vec<u128>,
}

fn wanted(alloc: Global, cycles: &[Cycle<'_>]) -> Result<Seen, Fail> {
    let mut outputs = Vec::new(alloc);
    let mut next = Vec::new(alloc);
    for cycle in cycles {
        outputs.extend_from_slice(cycle.outputs)?;
        next.extend_from_slice(cycle.next)?;
    }
    Ok(Seen { outputs, next })
}

/// The samples of a cycle as words of the inputs' widths.
fn samples_of(alloc: Global, design: &Design, samples: &[u128]) -> Result<Vec<Bits>, Fail> {
    let mut words = Vec::new(alloc);
    for (input, sample) in design.inputs.iter().zip(samples) {
        match design.signals.get(*input as usize) {
            Some(signal) => words.push(bits(signal.width, *sample)?)?,
            None => return Err(Fail::new("no such signal")),
        }
    }
    Ok(words)
}

fn by_net(
    alloc: Global,
    design: &Design,
    net: &WordNet,
    cycles: &[Cycle<'_>],
) -> Result<Seen, Fail> {
    let chosen = chosen_of(alloc, design, 0)?;
    let mut outputs = Vec::new(alloc);
    let mut next = Vec::new(alloc);
    let mut state = net.start().to_vec(alloc)?;
    let mut out = vec![in alloc; bits(1, 0)?; net.nodes().len()]?;
    for cycle in cycles {
        let samples = samples_of(alloc, design, cycle.samples)?;
        eval(net, &state, &samples, &chosen, &mut out)?;
        add_values(&words_at(alloc, &out, net.outputs())?, &mut outputs)?;
        state = words_at(alloc, &out, net.next())?;
        add_values(&state, &mut next)?;
    }
    Ok(Seen { outputs, next })
}

/// Appends the values of registers.
fn add_registers(
    sim: &Sim,
    design: &Design,
    registers: &[u32],
    values: &mut Vec<u128>,
) -> Result<(), Fail>
    requires sim { IsSim sim.now }
    requires design { (held_by sim.now).design ≡ design.now }
{
    for register in registers {
        if *register as usize >= design.signals.len() {
            return Err(Fail::new("no such register"));
        }
        values.push(sim.value(*register).value())?;
    }
    Ok(())
}

/// The next states of a cycle are the values of the registers in the one that follows, since no register has an asynchronous reset: so
/// one more cycle follows the last.
fn by_simulator(alloc: Global, ready: &Ordered, case: &Recorded<'_>) -> Result<Seen, Fail> {
    let design = &ready.design;
    if !can_simulate(design, &ready.order) {
        return Err(Fail::new("the design does not fit"));
    }
    let chosen = chosen_of(alloc, design, 0)?;
    let mut sim = Sim::new(alloc, design, &ready.order)?;
    let mut outputs = Vec::new(alloc);
    let mut next = Vec::new(alloc);
    let mut last = Vec::new(alloc);
    for cycle in 0..case.cycles.len() {
        let samples = samples_of(alloc, design, case.cycles[cycle].samples)?;
        step(&mut sim, design, &samples, &chosen, &mut outputs)?;
        if cycle > 0 {
            add_registers(&sim, design, case.registers, &mut next)?;
        }
        last = samples;
    }
    step(&mut sim, design, &last, &chosen, &mut Vec::new(alloc))?;
    add_registers(&sim, design, case.registers, &mut next)?;
    Ok(Seen { outputs, next })
}

/// Asserts that net and simulator give the cycles that are written down.
fn check(rt: &impl Abort, alloc: Global, case: &Recorded<'_>) -> Result<(), Fail> {
    let ready = read_clocked(alloc, case.text)?;
    let net = net_of(alloc, &ready)?;
    let want = wanted(alloc, case.cycles)?;
    assert_eq!(rt;
        by_net(alloc, &ready.design, &net, case.cycles)?,
        want,
        "{}",
        case.text
    );
    assert_eq!(rt; by_simulator(alloc, &ready, case)?, want, "{}", case.text);
    Ok(())
}

#[test]
fn a_counter_by_two(rt: HostRuntime) -> Result<(), Fail> {
    let case = Recorded {
        text: "module m(input clk, output reg [3:0] q);
            always @(posedge clk)
            q <= q + 2;
            endmodule",
        registers: &[1],
        cycles: &[
            Cycle {
                samples: &[],
                outputs: &[0],
                next: &[2],
            },
            Cycle {
                samples: &[],
                outputs: &[2],
                next: &[4],
            },
            Cycle {
                samples: &[],
                outputs: &[4],
                next: &[6],
            },
        ],
    };
    check(&rt, rt.alloc(), &case)
}

/// 255 + 1 is 0 in 8 bits, and 256 where an unsized 0 stands beside it. There is no register.
#[test]
fn a_lost_carry(rt: HostRuntime) -> Result<(), Fail> {
    let case = Recorded {
        text: "module m(input clk, input [7:0] a, input [7:0] b, output [7:0] y, output [7:0] z);
            assign y = (a + b) >> 1; assign z = (a + b + 0) >> 1; endmodule",
        registers: &[],
        cycles: &[Cycle {
            samples: &[255, 1],
            outputs: &[0, 0x80],
            next: &[],
        }],
    };
    check(&rt, rt.alloc(), &case)
}

/// -4 shifted is -2 where it stands alone, and 6 beside an unsigned word. What is never assigned is a register that keeps its value.
#[test]
fn an_arithmetic_shift(rt: HostRuntime) -> Result<(), Fail> {
    let case = Recorded {
        text: "module m(input clk, output [3:0] y, output [3:0] z);
            reg signed [3:0] a = -4; assign y = a >>> 1; assign z = (a >>> 1) + 4'd0; endmodule",
        registers: &[3],
        cycles: &[Cycle {
            samples: &[],
            outputs: &[0xe, 6],
            next: &[0xc],
        }],
    };
    check(&rt, rt.alloc(), &case)
}

/// 200 + 100 is 256 + 44.
#[test]
fn a_ripple_adder(rt: HostRuntime) -> Result<(), Fail> {
    let case = Recorded {
        text: "module m(input clk, input [7:0] a, input [7:0] b, output [7:0] s, output co);
            wire [8:0] c; assign c[0] = 1'b0;
            genvar i; generate for (i = 0; i < 8; i = i + 1) begin : bits
              assign s[i] = a[i] ^ b[i] ^ c[i];
              assign c[i+1] = a[i] & b[i] | c[i] & (a[i] ^ b[i]);
            end endgenerate
            assign co = c[8]; endmodule",
        registers: &[],
        cycles: &[Cycle {
            samples: &[200, 100],
            outputs: &[0x2c, 1],
            next: &[],
        }],
    };
    check(&rt, rt.alloc(), &case)
}

/// Bit 9 of 8 is 0 where it is read and nothing where it is written; two registers change places.
#[test]
fn indexes_out_of_range(rt: HostRuntime) -> Result<(), Fail> {
    let case = Recorded {
        text: "module m(input clk, input [7:0] a, input [3:0] i, output y, output reg [7:0] w, output reg p, output reg q);
            initial begin p = 1'b1; q = 1'b0; end
            assign y = a[i];
            always @* begin w = 8'h00; w[i] = 1'b1; end
            always @(posedge clk) begin p <= q; q <= p; end endmodule",
        registers: &[5, 6],
        cycles: &[
            Cycle {
                samples: &[255, 9],
                outputs: &[0, 0, 1, 0],
                next: &[0, 1],
            },
            Cycle {
                samples: &[255, 9],
                outputs: &[0, 0, 0, 1],
                next: &[1, 0],
            },
        ],
    };
    check(&rt, rt.alloc(), &case)
}

/// The registers are the output and the count, in this order; the fifth cycle has the count 3, so the sixth has the tick.
#[test]
fn a_divider_with_a_reset(rt: HostRuntime) -> Result<(), Fail> {
    let case = Recorded {
        text: "module m #(parameter W = 2) (input wire clk, input wire rst, input wire en, output reg tick);
            reg [W-1:0] cnt;
            always @(posedge clk) begin
              if (rst) begin
                cnt <= 0;
                tick <= 1'b0;
              end else if (en) begin
                if (cnt == 3) begin
                  cnt <= 0;
                  tick <= 1'b1;
                end else begin
                  cnt <= cnt + 1'b1;
                  tick <= 1'b0;
                end
              end
            end
            endmodule",
        registers: &[3, 4],
        cycles: &[
            Cycle {
                samples: &[1, 1],
                outputs: &[0],
                next: &[0, 0],
            },
            Cycle {
                samples: &[0, 1],
                outputs: &[0],
                next: &[0, 1],
            },
            Cycle {
                samples: &[0, 1],
                outputs: &[0],
                next: &[0, 2],
            },
            Cycle {
                samples: &[0, 1],
                outputs: &[0],
                next: &[0, 3],
            },
            Cycle {
                samples: &[0, 1],
                outputs: &[0],
                next: &[1, 0],
            },
            Cycle {
                samples: &[0, 1],
                outputs: &[1],
                next: &[0, 1],
            },
            Cycle {
                samples: &[0, 1],
                outputs: &[0],
                next: &[0, 2],
            },
        ],
    };
    check(&rt, rt.alloc(), &case)
}
