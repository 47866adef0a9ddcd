//! Cycles of designs: those of the net beside those of the simulator, with no place freed and with some.

use crate::build::{net_of, read_clocked};
use crate::run::{by_net, by_simulator, chosen_of};
use std::alloc::Global;
use std::test::Fail;

/// Whether not all values are the same.
fn differ(values: &[u128]) -> bool {
    for i in 1..values.len() {
        if values[i] != values[i - 1] {
            return true;
        }
    }
    false
}

/// Whether net and simulator give the same outputs in twelve cycles, which are not all the same, whichever of the first places are
/// freed.
pub(super) fn agree(alloc: Global, text: &str) -> Result<bool, Fail> {
    let ready = read_clocked(alloc, text)?;
    let net = net_of(alloc, &ready)?;
    for free in [0, 1, 2] {
        let chosen = chosen_of(alloc, &ready.design, free)?;
        let one = by_net(alloc, &ready.design, &net, 12, &chosen)?;
        let other = by_simulator(alloc, &ready.design, &ready.order, 12, &chosen)?;
        if one != other || !(free > 0 || differ(&one)) {
            return Ok(false);
        }
    }
    Ok(true)
}

#[test]
fn a_counter_with_a_reset_of_each_level(rt: HostRuntime) -> Result<(), Fail> {
    let alloc = rt.alloc();
    assert!(rt;
        agree(
            alloc,
            "module m(input clk, input rst, input [3:0] d, output reg [3:0] q);
        always @(posedge clk or posedge rst) if (rst) q <= 4'd5; else q <= q + d; endmodule"
        )?
    );
    assert!(rt;
        agree(
            alloc,
            "module m(input clk, input rst, input [3:0] d, output reg [3:0] q);
        always @(posedge clk or negedge rst) if (!rst) q <= 4'd9; else q <= q + d; endmodule"
        )?
    );
    Ok(())
}

#[test]
fn an_array_that_is_written_and_read(rt: HostRuntime) -> Result<(), Fail> {
    let alloc = rt.alloc();
    assert!(rt;
        agree(
            alloc,
            "module m(input clk, input we, input [2:0] wa, input [2:0] ra, input [7:0] d, output [7:0] y, output [3:0] z);
        reg [7:0] mem [1:5];
        always @(posedge clk) if (we) mem[wa] <= d; else mem[wa][3 -: 2] <= d[1:0];
        assign y = mem[ra]; assign z = mem[wa][5:2]; endmodule"
        )?
    );
    Ok(())
}

#[test]
fn blocks_with_choices_and_both_assignments(rt: HostRuntime) -> Result<(), Fail> {
    let alloc = rt.alloc();
    assert!(rt;
        agree(
            alloc,
            "module m(input clk, input [2:0] op, input signed [7:0] a, input [7:0] b, output reg [7:0] y, output reg [7:0] q, output c);
        reg [7:0] t;
        always @(*) begin
          t = a ^ b;
          casez (op)
            3'b000: t = a + b;
            3'b001, 3'b010: begin t = a - b; if (t[7]) t = t >>> 1; end
            3'b1?1: t = {t[3:0], b[7:4]};
            default: if (a < $signed(b)) t = a >>> 2;
          endcase
          y = t;
        end
        always @(posedge clk) begin
          q <= q + y;
          if (op[0]) q[3:0] <= b[3:0]; else begin q[b[2:0]] <= 1'b1; {q[7], q[0]} <= a[1:0]; end
        end
        assign c = &q || ^y; endmodule"
        )?
    );
    Ok(())
}

#[test]
fn selects_by_variable_indexes(rt: HostRuntime) -> Result<(), Fail> {
    let alloc = rt.alloc();
    assert!(rt;
        agree(
            alloc,
            "module m(input clk, input [2:0] i, input signed [3:0] s, input [7:0] d, output reg [0:7] q, output [2:0] y, output [1:0] z);
        reg [7:0] r;
        always @(posedge clk) begin r[s +: 3] <= d[2:0]; q[i] <= d[0]; q[i +: 2] <= d[2:1]; end
        assign y = r[i -: 3]; assign z = q[s +: 2]; endmodule"
        )?
    );
    Ok(())
}
