//! The most AND and free nodes of a circuit: 4,000,000.
//!
//! A product of 128 bits has 80,394 ANDs: 128 + 127 + .. + 1 for its rows, and 9 m - 8 for a sum of m columns that have bits, m from 127
//! down to 2, and 3 for that of one column. Each bit that is assigned is one free node more.

use crate::build::{net_of, read};
use bit_circuit::{BlastErr, blast};
use std::alloc::Global;
use std::test::Fail;

/// How many nodes the circuit of the design of a text has; None where these are too many.
fn nodes_of(alloc: Global, text: &str) -> Result<Option<usize>, Fail> {
    let ready = read(alloc, text)?;
    let net = net_of(alloc, &ready)?;
    match blast(alloc, &net) {
        Ok(circuit) => Ok(Some(circuit.nodes().len())),
        Err(BlastErr::Nodes) => Ok(None),
        Err(BlastErr::NoMemory) => Err(Fail::new("no memory")),
    }
}

#[test]
fn a_hundred_products_of_128_bits(rt: HostRuntime) -> Result<(), Fail> {
    let alloc = rt.alloc();
    let text = "module m(input [127:0] a, input [127:0] b, output y);
        genvar g;
        generate for (g = 0; g < 100; g = g + 1) begin : p
          wire [127:0] y; assign y = a * b;
        end endgenerate
        assign y = a[0]; endmodule";
    assert_eq!(rt; nodes_of(alloc, text)?, None);
    Ok(())
}

/// 49 products, 425 copies of 128 bits, one of 21 and one of 1: 4,000,000 nodes beside the 256 bits of the inputs.
#[test]
fn as_many_nodes_as_there_may_be(rt: HostRuntime) -> Result<(), Fail> {
    let alloc = rt.alloc();
    let text = "module m(input [127:0] a, input [127:0] b, output y);
        genvar g;
        generate for (g = 0; g < 49; g = g + 1) begin : p
          wire [127:0] y; assign y = a * b;
        end
        for (g = 0; g < 425; g = g + 1) begin : c
          wire [127:0] y; assign y = a;
        end endgenerate
        wire [20:0] z; assign z = a[20:0];
        assign y = a[0]; endmodule";
    assert_eq!(rt; nodes_of(alloc, text)?, Some(4_000_256));
    Ok(())
}

/// One bit more.
#[test]
fn one_node_more(rt: HostRuntime) -> Result<(), Fail> {
    let alloc = rt.alloc();
    let text = "module m(input [127:0] a, input [127:0] b, output y);
        genvar g;
        generate for (g = 0; g < 49; g = g + 1) begin : p
          wire [127:0] y; assign y = a * b;
        end
        for (g = 0; g < 425; g = g + 1) begin : c
          wire [127:0] y; assign y = a;
        end endgenerate
        wire [21:0] z; assign z = a[21:0];
        assign y = a[0]; endmodule";
    assert_eq!(rt; nodes_of(alloc, text)?, None);
    Ok(())
}
