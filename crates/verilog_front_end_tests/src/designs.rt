//! Designs, each as it is printed. The numbers are worked out by hand from the rules of the numbering: the ports of an instance before
//! its other signals, its items before the instances in it; a place by the numbers of its first token and of its item's.
use crate::printed::printed;
use std::test::Fail;

/// What a row shows, a text, whether its input `clk` is the clock, and its design.
struct Row {
    shows: &'static str,
    text: &'static [u8],
    is_clocked: bool,
    lines: &'static [u8],
}

/// Two instances, by order and by name, and a gate.
const HALVES: Row = Row {
    shows: "an instance has its own signals and places",
    text: b"module half(input a, input b, output s, output c);
  assign s = a ^ b;
  assign c = a & b;
endmodule
module top(input x, input y, input z, output s, output c);
  wire p, q, r;
  half h1(x, y, p, q);
  half h2(.s(s), .c(r), .a(p), .b(z));
  or o1(c, q, r);
endmodule
",
    is_clocked: false,
    lines: b" x input 1 0 0 0
 y input 1 0 0 0
 z input 1 0 0 0
 s net 1 0 0 0
 c net 1 0 0 0
 p net 1 0 0 0
 q net 1 0 0 0
 r net 1 0 0 0
 top.h1.a net 1 0 0 0
 top.h1.b net 1 0 0 0
 top.h1.s net 1 0 0 0
 top.h1.c net 1 0 0 0
 top.h2.a net 1 0 0 0
 top.h2.b net 1 0 0 0
 top.h2.s net 1 0 0 0
 top.h2.c net 1 0 0 0
 output top top.h1 1 64 57 7 0 5
 output top top.h1 1 66 57 7 0 6
 output top top.h2 1 72 69 8 2 3
 output top top.h2 1 78 69 8 2 7
 gate top top.o1 1 100 97 9 4 4
 assign half top.h1 1 17 16 2 0 10
 assign half top.h1 1 24 23 3 0 11
 assign half top.h2 1 17 16 2 0 14
 assign half top.h2 1 24 23 3 0 15
 drivers input input 0 1 input input 2 3 4 5 6 7 8
 clocked
 inputs 0 1 2
 outputs 3 4
 order 0 1 5 9 2 4 10 3 11 6 12 7 8
",
};

/// A generate loop with a condition, whose blocks have a label or none.
const PARTS: Row = Row {
    shows: "a generate block stands where it is written",
    text: b"module top(input [2:0] a, output [2:0] y);
  genvar i;
  wire [2:0] c;
  for (i = 0; i < 3; i = i + 1) begin : part
    wire t;
    assign t = a[i];
    if (i == 0)
      assign c[i] = t;
    else begin : more
      assign c[i] = t ^ c[i - 1];
    end
  end
  assign y = c;
endmodule
",
    is_clocked: false,
    lines: b" a input 3 2 0 0
 y net 3 2 0 0
 c net 3 2 0 0
 top.part[0].t net 1 0 0 0
 top.part[1].t net 1 0 0 0
 top.part[2].t net 1 0 0 0
 assign top top.part[0] 1 54 53 6 0 3
 assign top top.part[0].@8 1 68 67 8 0 2
 assign top top.part[1] 1 54 53 6 0 4
 assign top top.part[1].more 1 80 79 10 0 2
 assign top top.part[2] 1 54 53 6 0 5
 assign top top.part[2].more 1 80 79 10 0 2
 assign top top 3 97 96 13 0 1
 drivers 0 1 2 3 4 5 6
 clocked
 inputs 0
 outputs 1
 order 0 1 2 3 4 5 6
",
};

/// An array.
const MEMORY: Row = Row {
    shows: "an array has a signal for each word",
    text: b"module top(input clk, input a, input [3:0] d, output [3:0] q);
  reg [3:0] mem [2:1];
  always @(posedge clk) mem[a] <= d;
  assign q = mem[a];
endmodule
",
    is_clocked: true,
    lines: b" clk input 1 0 0 0
 a input 1 0 0 0
 d input 4 3 0 0
 q net 4 3 0 0
 mem[1] reg 4 3 0 0
 mem[2] reg 4 3 0 0
 step top top 4 45 39 3 0 4
 assign top top 4 53 52 4 0 3
 drivers 1
 clocked plain
 inputs 1 2
 outputs 3
 order 0
",
};

/// Start values, a clocked block with a reset, and one without.
const RESETS: Row = Row {
    shows: "a reset is a signal with a level",
    text: b"module top(input clk, input rn, input d, output reg q, output reg [3:0] n);
  initial q = 1;
  reg [3:0] s = 4'd3;
  initial s = 4'd5;
  reg [3:0] t = 2;
  always @(posedge clk or negedge rn)
    if (!rn) n <= 4'd9;
    else n <= n + s;
  always @(posedge clk) q <= d ^ t[1];
endmodule
",
    is_clocked: true,
    lines: b" clk input 1 0 0 0
 rn input 1 0 0 0
 d input 1 0 0 0
 q reg 1 0 0 1
 n reg 4 3 0 0
 s reg 4 3 0 5
 t reg 4 3 0 2
 step top top 4 70 56 7 0 4
 step top top 4 75 56 8 0 4
 step top top 1 87 81 9 0 3
 drivers
 clocked 1 0 plain
 inputs 1 2
 outputs 3 4
 order
",
};

/// A procedural loop, and a case.
const LOOPS: Row = Row {
    shows: "a loop has a place for each turn",
    text: b"module top(input [1:0] s, input [3:0] a, output reg [3:0] q, output reg z);
  integer i;
  always @* begin
    for (i = 3; i >= 2; i = i - 1) q[i] = a[3 - i];
    q[1:0] = a[3:2];
  end
  always @(s)
    case (s)
      2'd1: z = 1;
      default: z = s[0];
    endcase
endmodule
",
    is_clocked: false,
    lines: b" s input 2 1 0 0
 a input 4 3 0 0
 q reg 4 3 0 0
 z reg 1 0 0 0
 step top top 1 56 36 4 0 2
 step top top 1 56 36 4 0 2
 step top top 2 68 36 5 0 2
 step top top 1 94 83 9 0 3
 step top top 1 100 83 10 0 3
 drivers block block
 clocked
 inputs 0 1
 outputs 2 3
 order 0 1
",
};

/// An output connected to a concatenation, an open output, and inputs connected to expressions.
const CONNECTED: Row = Row {
    shows: "an output connection is a place",
    text: b"module child(output [2:0] o, input i, output open, input [1:0] wide);
  assign o = {i, wide};
  assign open = i;
endmodule
module top(input [1:0] a, output [1:0] y, output z);
  child u(.wide(a + 2'd1), .o({z, y}), .i(a[1]));
endmodule
",
    is_clocked: false,
    lines: b" a input 2 1 0 0
 y net 2 1 0 0
 z net 1 0 0 0
 top.u.o net 3 2 0 0
 top.u.i net 1 0 0 0
 top.u.open net 1 0 0 0
 top.u.wide net 2 1 0 0
 output top top.u 3 75 64 6 0 2
 assign child top.u 3 27 26 2 0 3
 assign child top.u 1 36 35 3 0 5
 drivers 0 input input 1 2
 clocked
 inputs 0
 outputs 1 2
 order 1 2 3 0 4
",
};

/// Gates with a name and without one, with two outputs, and in a block.
const GATES: Row = Row {
    shows: "each output of a gate is a place",
    text: b"module top(input a, b, output [1:0] y, output w);
  not (y[1], y[0], a);
  if (1) begin : inner
    xnor x1(w, a, b, a);
  end
endmodule
",
    is_clocked: false,
    lines: b" a input 1 0 0 0
 b input 1 0 0 0
 y net 2 1 0 0
 w net 1 0 0 0
 gate top top.@2 1 22 20 2 0 2
 gate top top.@2 1 27 20 2 0 2
 gate top top.inner.x1 1 45 42 4 2 3
 drivers 0 1 2
 clocked
 inputs 0 1
 outputs 2 3
 order 0 1 2
",
};

/// Parameters, signed nets and ascending ranges.
const SIZED: Row = Row {
    shows: "parameters give widths",
    text: b"module leaf #(parameter W = 2, parameter signed [0:3] S = -1) (input signed [0:W-1] d, output [W:1] q);
  wire signed [W-1:0] n = S;
  assign q = d + n;
endmodule
module top(input [2:0] a, output [1:0] y, output [2:0] z);
  leaf u(.d(a), .q(y));
  leaf #(.S(3), .W(3)) v(.d(a), .q(z));
endmodule
",
    is_clocked: false,
    lines: b" a input 3 2 0 0
 y net 2 1 0 0
 z net 3 2 0 0
 top.u.d net 2 0 1 signed 0
 top.u.q net 2 2 1 0
 top.u.n net 2 1 0 signed 0
 top.v.d net 3 0 2 signed 0
 top.v.q net 3 3 1 0
 top.v.n net 3 2 0 signed 0
 output top top.u 2 100 91 6 0 1
 output top top.v 3 130 107 7 1 2
 assign leaf top.u 2 51 42 2 0 5
 assign leaf top.u 2 56 55 3 0 4
 assign leaf top.v 3 51 42 2 0 8
 assign leaf top.v 3 56 55 3 0 7
 drivers input 0 input 1 2 3 4 5
 clocked
 inputs 0
 outputs 1 2
 order 0 2 4 5 1 6 7 3
",
};

const DESIGNS: [Row; 8] = [
    HALVES, PARTS, MEMORY, RESETS, LOOPS, CONNECTED, GATES, SIZED,
];

#[test]
fn each_design_is_printed_as_its_row_says(rt: HostRuntime) -> Result<(), Fail> {
    for row in &DESIGNS {
        let lines = printed(rt.alloc(), row.text, row.is_clocked)?;
        if lines.as_slice() != row.lines {
            return Err(Fail::new(row.shows));
        }
    }
    Ok(())
}
