//! Operators at the ends of their widths, by the net of a design; the values are those that Icarus Verilog gives.

use crate::build::{net_of, read_clocked};
use crate::run::{by_net, chosen_of};
use std::alloc::Global;
use std::test::Fail;

/// The outputs of the only cycle of a design without inputs but the clock.
fn outputs_of(alloc: Global, text: &str) -> Result<Vec<u128>, Fail> {
    let ready = read_clocked(alloc, text)?;
    let net = net_of(alloc, &ready)?;
    let chosen = chosen_of(alloc, &ready.design, 0)?;
    by_net(alloc, &ready.design, &net, 1, &chosen)
}

#[test]
fn operators_on_one_bit(rt: HostRuntime) -> Result<(), Fail> {
    let text = "module m(input clk,
        output [0:0] y0, output [0:0] y1, output [0:0] y2, output [0:0] y3, output [0:0] y4, output [0:0] y5, output [0:0] y6,
        output [0:0] y7, output [0:0] y8, output [0:0] y9, output [0:0] y10, output [0:0] y11, output [0:0] y12,
        output [0:0] y13, output [0:0] y14, output [0:0] y15, output [0:0] y16, output [0:0] y17, output [0:0] y18,
        output [0:0] y19, output [0:0] y20, output [0:0] y21, output [0:0] y22, output [0:0] y23, output [0:0] y24,
        output [0:0] y25, output [0:0] y26, output [0:0] y27, output [0:0] y28, output [0:0] y29, output [0:0] y30,
        output [0:0] y31, output [0:0] y32);
        reg [0:0] a = 1'h1; reg [0:0] b = 1'h0; reg [1:0] k = 2'd3;
        assign y0 = a + b; assign y1 = a - b; assign y2 = a * b; assign y3 = a & b; assign y4 = a | b; assign y5 = a ^ b;
        assign y6 = a ~^ b; assign y7 = ~a; assign y8 = -a; assign y9 = !a; assign y10 = &a; assign y11 = ~&a;
        assign y12 = |a; assign y13 = ~|a; assign y14 = ^a; assign y15 = ~^a; assign y16 = a && b; assign y17 = a || b;
        assign y18 = a < b; assign y19 = a <= b; assign y20 = a > b; assign y21 = a >= b; assign y22 = a == b;
        assign y23 = a != b; assign y24 = a << k; assign y25 = a >> k; assign y26 = a <<< k; assign y27 = a >>> k;
        assign y28 = $signed(a) >>> k; assign y29 = $signed(a) < $signed(b); assign y30 = $signed(a) >= $signed(b);
        assign y31 = k ? a : b; assign y32 = {a, b} >> k; endmodule";
    let want: [u128; 33] = [
        0x1, 0x1, 0x0, 0x0, 0x1, 0x1, 0x0, 0x0, 0x1, 0x0, 0x1, 0x0, 0x1, 0x0, 0x1, 0x0, 0x0, 0x1,
        0x0, 0x0, 0x1, 0x1, 0x0, 0x1, 0x0, 0x0, 0x0, 0x0, 0x1, 0x1, 0x0, 0x1, 0x0,
    ];
    assert_eq!(rt; outputs_of(rt.alloc(), text)?.as_slice(), want.as_slice());
    Ok(())
}

#[test]
fn operators_on_seven_bits(rt: HostRuntime) -> Result<(), Fail> {
    let text = "module m(input clk,
        output [6:0] y0, output [6:0] y1, output [6:0] y2, output [6:0] y3, output [6:0] y4, output [6:0] y5, output [6:0] y6,
        output [6:0] y7, output [6:0] y8, output [6:0] y9, output [6:0] y10, output [6:0] y11, output [6:0] y12,
        output [6:0] y13, output [6:0] y14, output [6:0] y15, output [6:0] y16, output [6:0] y17, output [6:0] y18,
        output [6:0] y19, output [6:0] y20, output [6:0] y21, output [6:0] y22, output [6:0] y23, output [6:0] y24,
        output [6:0] y25, output [6:0] y26, output [6:0] y27, output [6:0] y28, output [6:0] y29, output [6:0] y30,
        output [6:0] y31, output [6:0] y32);
        reg [6:0] a = 7'h69; reg [6:0] b = 7'h39; reg [1:0] k = 2'd3;
        assign y0 = a + b; assign y1 = a - b; assign y2 = a * b; assign y3 = a & b; assign y4 = a | b; assign y5 = a ^ b;
        assign y6 = a ~^ b; assign y7 = ~a; assign y8 = -a; assign y9 = !a; assign y10 = &a; assign y11 = ~&a;
        assign y12 = |a; assign y13 = ~|a; assign y14 = ^a; assign y15 = ~^a; assign y16 = a && b; assign y17 = a || b;
        assign y18 = a < b; assign y19 = a <= b; assign y20 = a > b; assign y21 = a >= b; assign y22 = a == b;
        assign y23 = a != b; assign y24 = a << k; assign y25 = a >> k; assign y26 = a <<< k; assign y27 = a >>> k;
        assign y28 = $signed(a) >>> k; assign y29 = $signed(a) < $signed(b); assign y30 = $signed(a) >= $signed(b);
        assign y31 = k ? a : b; assign y32 = {a, b} >> k; endmodule";
    let want: [u128; 33] = [
        0x22, 0x30, 0x61, 0x29, 0x79, 0x50, 0x2f, 0x16, 0x17, 0x0, 0x0, 0x1, 0x1, 0x0, 0x0, 0x1,
        0x1, 0x1, 0x0, 0x0, 0x1, 0x1, 0x0, 0x1, 0x48, 0xd, 0x48, 0xd, 0x7d, 0x1, 0x0, 0x69, 0x17,
    ];
    assert_eq!(rt; outputs_of(rt.alloc(), text)?.as_slice(), want.as_slice());
    Ok(())
}

#[test]
fn operators_on_64_bits(rt: HostRuntime) -> Result<(), Fail> {
    let text = "module m(input clk,
        output [63:0] y0, output [63:0] y1, output [63:0] y2, output [63:0] y3, output [63:0] y4, output [63:0] y5,
        output [63:0] y6, output [63:0] y7, output [63:0] y8, output [63:0] y9, output [63:0] y10, output [63:0] y11,
        output [63:0] y12, output [63:0] y13, output [63:0] y14, output [63:0] y15, output [63:0] y16, output [63:0] y17,
        output [63:0] y18, output [63:0] y19, output [63:0] y20, output [63:0] y21, output [63:0] y22, output [63:0] y23,
        output [63:0] y24, output [63:0] y25, output [63:0] y26, output [63:0] y27, output [63:0] y28, output [63:0] y29,
        output [63:0] y30, output [63:0] y31, output [63:0] y32);
        reg [63:0] a = 64'he513270e269e0d37; reg [63:0] b = 64'hc5c7fd0a6a3a450; reg [1:0] k = 2'd3;
        assign y0 = a + b; assign y1 = a - b; assign y2 = a * b; assign y3 = a & b; assign y4 = a | b; assign y5 = a ^ b;
        assign y6 = a ~^ b; assign y7 = ~a; assign y8 = -a; assign y9 = !a; assign y10 = &a; assign y11 = ~&a;
        assign y12 = |a; assign y13 = ~|a; assign y14 = ^a; assign y15 = ~^a; assign y16 = a && b; assign y17 = a || b;
        assign y18 = a < b; assign y19 = a <= b; assign y20 = a > b; assign y21 = a >= b; assign y22 = a == b;
        assign y23 = a != b; assign y24 = a << k; assign y25 = a >> k; assign y26 = a <<< k; assign y27 = a >>> k;
        assign y28 = $signed(a) >>> k; assign y29 = $signed(a) < $signed(b); assign y30 = $signed(a) >= $signed(b);
        assign y31 = k ? a : b; assign y32 = {a, b} >> k; endmodule";
    let want: [u128; 33] = [
        0xf16fa6decd41b187,
        0xd8b6a73d7ffa68e7,
        0x2cb5e0d65e05d30,
        0x410270026820410,
        0xed5f7fdea6bfad77,
        0xe94f58de803da967,
        0x16b0a7217fc25698,
        0x1aecd8f1d961f2c8,
        0x1aecd8f1d961f2c9,
        0x0,
        0x0,
        0x1,
        0x1,
        0x0,
        0x1,
        0x0,
        0x1,
        0x1,
        0x0,
        0x0,
        0x1,
        0x1,
        0x0,
        0x1,
        0x2899387134f069b8,
        0x1ca264e1c4d3c1a6,
        0x2899387134f069b8,
        0x1ca264e1c4d3c1a6,
        0xfca264e1c4d3c1a6,
        0x1,
        0x0,
        0xe513270e269e0d37,
        0xe18b8ffa14d4748a,
    ];
    assert_eq!(rt; outputs_of(rt.alloc(), text)?.as_slice(), want.as_slice());
    Ok(())
}

#[test]
fn operators_on_128_bits(rt: HostRuntime) -> Result<(), Fail> {
    let text = "module m(input clk,
        output [127:0] y0, output [127:0] y1, output [127:0] y2, output [127:0] y3, output [127:0] y4, output [127:0] y5,
        output [127:0] y6, output [127:0] y7, output [127:0] y8, output [127:0] y9, output [127:0] y10, output [127:0] y11,
        output [127:0] y12, output [127:0] y13, output [127:0] y14, output [127:0] y15, output [127:0] y16,
        output [127:0] y17, output [127:0] y18, output [127:0] y19, output [127:0] y20, output [127:0] y21,
        output [127:0] y22, output [127:0] y23, output [127:0] y24, output [127:0] y25, output [127:0] y26,
        output [127:0] y27, output [127:0] y28, output [127:0] y29, output [127:0] y30, output [127:0] y31);
        reg [127:0] a = 128'h9818e811892f902bd23f0824128b2f33; reg [127:0] b = 128'h68e25d940ed904759531985d5d9dc9f8; reg [1:0] k = 2'd3;
        assign y0 = a + b; assign y1 = a - b; assign y2 = a * b; assign y3 = a & b; assign y4 = a | b; assign y5 = a ^ b;
        assign y6 = a ~^ b; assign y7 = ~a; assign y8 = -a; assign y9 = !a; assign y10 = &a; assign y11 = ~&a;
        assign y12 = |a; assign y13 = ~|a; assign y14 = ^a; assign y15 = ~^a; assign y16 = a && b; assign y17 = a || b;
        assign y18 = a < b; assign y19 = a <= b; assign y20 = a > b; assign y21 = a >= b; assign y22 = a == b;
        assign y23 = a != b; assign y24 = a << k; assign y25 = a >> k; assign y26 = a <<< k; assign y27 = a >>> k;
        assign y28 = $signed(a) >>> k; assign y29 = $signed(a) < $signed(b); assign y30 = $signed(a) >= $signed(b);
        assign y31 = k ? a : b; endmodule";
    let want: [u128; 32] = [
        0xfb45a5980894a16770a0817028f92b,
        0x2f368a7d7a568bb63d0d6fc6b4ed653b,
        0x63babf9f628936ad5ba99289b82bc468,
        0x8004810080900219031080410890930,
        0xf8fafd958fff947fd73f987d5f9feffb,
        0xf0fab58587f6945e470e90794f16e6cb,
        0xf054a7a78096ba1b8f16f86b0e91934,
        0x67e717ee76d06fd42dc0f7dbed74d0cc,
        0x67e717ee76d06fd42dc0f7dbed74d0cd,
        0x0,
        0x0,
        0x1,
        0x1,
        0x0,
        0x1,
        0x0,
        0x1,
        0x1,
        0x0,
        0x0,
        0x1,
        0x1,
        0x0,
        0x1,
        0xc0c7408c497c815e91f8412094597998,
        0x13031d023125f2057a47e104825165e6,
        0xc0c7408c497c815e91f8412094597998,
        0x13031d023125f2057a47e104825165e6,
        0xf3031d023125f2057a47e104825165e6,
        0x1,
        0x0,
        0x9818e811892f902bd23f0824128b2f33,
    ];
    assert_eq!(rt; outputs_of(rt.alloc(), text)?.as_slice(), want.as_slice());
    Ok(())
}
