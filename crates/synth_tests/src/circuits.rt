//! Circuits of designs, node by node: inputs, then states, then what each construct makes, arguments from the left first and bits
//! from 0 upwards.

use crate::build::{
    and, circuit, free, has_next, has_output, input, not, of, read, read_clocked, state,
};
use gate_base::Literal;
use std::test::Fail;

/// `~(a | b)` in two assignments: the OR is an AND of the negated inputs, and each assignment has a free bit.
#[test]
fn an_or_and_its_opposite(rt: HostRuntime) -> Result<(), Fail> {
    let alloc = rt.alloc();
    let text =
        "module m(input a, input b, output y); wire n; assign n = a | b; assign y = ~n; endmodule";
    let made = circuit(alloc, &read(alloc, text)?)?;
    let want = [
        input(0, 0),
        input(1, 0),
        and(not(0), not(1)),
        free(0, not(2)),
        free(1, not(3)),
    ];
    assert_eq!(rt; made.nodes(), want.as_slice());
    assert!(rt; has_output(&made, &[of(4)]));
    Ok(())
}

/// A bit by a variable index: for each position an AND of the bit and of whether the index is its, and the OR chain of these.
#[test]
fn a_pick_that_is_read(rt: HostRuntime) -> Result<(), Fail> {
    let alloc = rt.alloc();
    let text = "module m(input [1:0] a, input i, output y); assign y = a[i]; endmodule";
    let made = circuit(alloc, &read(alloc, text)?)?;
    let want = [
        input(0, 0),
        input(0, 1),
        input(1, 0),
        and(of(0), not(2)),
        and(of(1), of(2)),
        and(not(3), not(4)),
        free(0, not(5)),
    ];
    assert_eq!(rt; made.nodes(), want.as_slice());
    assert!(rt; has_output(&made, &[of(6)]));
    Ok(())
}

/// A bit that is stored by a variable index: the free bit first, then a choice for each position.
#[test]
fn a_pick_that_is_stored(rt: HostRuntime) -> Result<(), Fail> {
    let alloc = rt.alloc();
    let text =
        "module m(input clk, input i, input v, output reg [1:0] q); always @(posedge clk) q[i] <= v; endmodule";
    let made = circuit(alloc, &read_clocked(alloc, text)?)?;
    let want = [
        input(0, 0),
        input(1, 0),
        state(0, 0),
        state(0, 1),
        free(0, of(1)),
        and(not(0), of(4)),
        and(of(0), of(2)),
        and(not(5), not(6)),
        and(of(0), of(4)),
        and(not(0), of(3)),
        and(not(8), not(9)),
    ];
    assert_eq!(rt; made.nodes(), want.as_slice());
    assert!(rt; has_output(&made, &[of(2), of(3)]));
    assert!(rt; has_next(&made, &[not(7), not(10)]));
    Ok(())
}

/// A word of an array: from false on, a choice for each address.
#[test]
fn a_word_of_an_array(rt: HostRuntime) -> Result<(), Fail> {
    let alloc = rt.alloc();
    let text = "module m(input i, output y); reg mem [0:1]; assign y = mem[i]; endmodule";
    let made = circuit(alloc, &read(alloc, text)?)?;
    let want = [
        input(0, 0),
        state(0, 0),
        state(1, 0),
        and(not(0), of(1)),
        and(of(0), of(2)),
        and(not(0), of(3)),
        and(not(4), not(5)),
        free(0, not(6)),
    ];
    assert_eq!(rt; made.nodes(), want.as_slice());
    assert!(rt; has_output(&made, &[of(7)]));
    Ok(())
}

/// A case whose label has a wild bit: the other bit alone is the condition; the item before the default, and then the choice.
#[test]
fn a_case_with_wild_bits(rt: HostRuntime) -> Result<(), Fail> {
    let alloc = rt.alloc();
    let text =
        "module m(input [1:0] a, output reg y); always @(*) casez (a) 2'b1?: y = 1'b1; default: y = 1'b0; endcase endmodule";
    let made = circuit(alloc, &read(alloc, text)?)?;
    let want = [
        input(0, 0),
        input(0, 1),
        free(0, Literal::Known(true)),
        free(1, Literal::Known(false)),
        and(of(1), of(2)),
        and(not(1), of(3)),
        and(not(4), not(5)),
    ];
    assert_eq!(rt; made.nodes(), want.as_slice());
    assert!(rt; has_output(&made, &[not(6)]));
    Ok(())
}

/// A reset's value is chosen in its own cycle, before the body; the next state is that of the body where the reset is not active.
#[test]
fn a_reset_and_a_logical_and(rt: HostRuntime) -> Result<(), Fail> {
    let alloc = rt.alloc();
    let text = "module m(input clk, input rst, input a, input b, output reg q);
        always @(posedge clk or posedge rst) if (rst) q <= 1'b0; else q <= a && b; endmodule";
    let made = circuit(alloc, &read_clocked(alloc, text)?)?;
    let want = [
        input(0, 0),
        input(1, 0),
        input(2, 0),
        state(0, 0),
        free(0, Literal::Known(false)),
        and(of(0), of(4)),
        and(not(0), of(3)),
        and(not(5), not(6)),
        and(of(1), of(2)),
        free(1, of(8)),
        and(of(0), not(7)),
        and(not(0), of(9)),
        and(not(10), not(11)),
    ];
    assert_eq!(rt; made.nodes(), want.as_slice());
    assert!(rt; has_output(&made, &[not(7)]));
    assert!(rt; has_next(&made, &[not(12)]));
    Ok(())
}
