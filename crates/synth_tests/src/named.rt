//! Cycles of designs with a trap each: the net beside the simulator.

use crate::cycles::agree;
use std::test::Fail;

#[test]
fn a_counter_by_two(rt: HostRuntime) -> Result<(), Fail> {
    let text =
        "module m(input clk, output reg [3:0] q); always @(posedge clk) q <= q + 2; endmodule";
    assert!(rt; agree(rt.alloc(), text)?);
    Ok(())
}

/// The carry is lost where the context has 8 bits, and kept where an unsized 0 makes it 32 bits wide.
#[test]
fn a_lost_carry(rt: HostRuntime) -> Result<(), Fail> {
    let text = "module m(input clk, input [7:0] a, input [7:0] b, output [7:0] y, output [7:0] z);
        assign y = (a + b + 8'd200) >> 1; assign z = (a + b + 8'd200 + 0) >> 1; endmodule";
    assert!(rt; agree(rt.alloc(), text)?);
    Ok(())
}

/// A signed word keeps its sign where it is shifted alone, and loses it beside an unsigned one.
#[test]
fn an_arithmetic_shift(rt: HostRuntime) -> Result<(), Fail> {
    let text = "module m(input clk, input [3:0] d, output [3:0] y, output [3:0] z);
        reg signed [3:0] a = -4; always @(posedge clk) a <= d;
        assign y = a >>> 1; assign z = (a >>> 1) + 4'd0; endmodule";
    assert!(rt; agree(rt.alloc(), text)?);
    Ok(())
}

#[test]
fn a_ripple_adder(rt: HostRuntime) -> Result<(), Fail> {
    let text = "module m(input clk, input [7:0] a, input [7:0] b, output [7:0] s, output co);
        wire [8:0] c; assign c[0] = 1'b0; assign co = c[8];
        genvar i; generate for (i = 0; i < 8; i = i + 1) begin : bits
          assign s[i] = a[i] ^ b[i] ^ c[i];
          assign c[i+1] = a[i] & b[i] | c[i] & (a[i] ^ b[i]);
        end endgenerate endmodule";
    assert!(rt; agree(rt.alloc(), text)?);
    Ok(())
}

/// A bit behind the last one is 0 where it is read, and nothing where it is written; registers that change places.
#[test]
fn indexes_out_of_range(rt: HostRuntime) -> Result<(), Fail> {
    let text =
        "module m(input clk, input [7:0] a, input [3:0] i, output y, output reg [7:0] w, output reg p, output reg q);
        initial begin p = 1'b1; q = 1'b0; end
        assign y = a[i];
        always @* begin w = 8'h00; w[i] = 1'b1; end
        always @(posedge clk) begin p <= q; q <= p; end endmodule";
    assert!(rt; agree(rt.alloc(), text)?);
    Ok(())
}

#[test]
fn a_divider_with_a_reset(rt: HostRuntime) -> Result<(), Fail> {
    let text = "module m(input clk, input [2:0] r, output tick);
        div3 u(.clk(clk), .rst(&r), .en(|r), .tick(tick)); endmodule
        module div3 #(parameter W = 2) (input wire clk, input wire rst, input wire en, output reg tick);
          reg [W-1:0] cnt;
          always @(posedge clk) begin
            if (rst) begin cnt <= 0; tick <= 1'b0; end
            else if (en) begin
              if (cnt == 3) begin cnt <= 0; tick <= 1'b1; end
              else begin cnt <= cnt + 1'b1; tick <= 1'b0; end
            end
          end
        endmodule";
    assert!(rt; agree(rt.alloc(), text)?);
    Ok(())
}
