//! What the constructs of a text make, node by node: a text, and the nodes, outputs and next states that follow from the definitions of
//! the operators and of the statements.

use crate::build::{circuit, read_clocked};
use crate::shown::{spaced, text_of};
use std::alloc::Global;
use std::process::Abort;
use std::test::Fail;

/// Asserts that the circuits of texts are these.
fn check(rt: &impl Abort, alloc: Global, rows: &[(&str, &str)]) -> Result<(), Fail> {
    for (text, want) in rows {
        let made = circuit(alloc, &read_clocked(alloc, text)?)?;
        assert_eq!(rt; text_of(alloc, &made)?, spaced(alloc, want)?, "{text}");
    }
    Ok(())
}

/// The right word is negated and the first carry is true, so that the first bit needs no node behind its XOR.
#[test]
fn a_difference_is_a_sum_with_the_negated_word_and_a_carry(rt: HostRuntime) -> Result<(), Fail> {
    let rows = [(
        "module m(input clk, input [1:0] a, input [1:0] b, output [1:0] y); assign y = a - b; endmodule",
        "0: input 0 0  1: input 0 1  2: input 1 0  3: input 1 1
            4: and 0 2  5: and -0 -2  6: and -4 -5
            7: and 0 -2  8: and -7 6
            9: and 1 3  10: and -1 -3  11: and -9 -10
            12: and -11 8  13: and 11 -8  14: and -12 -13
            15: free 0 0 6  16: free 0 1 -14
            output: 15 16",
    )];
    check(&rt, rt.alloc(), &rows)
}

/// The second bit's XOR is made before the AND with the first's.
#[test]
fn equal_words_have_no_bit_that_differs(rt: HostRuntime) -> Result<(), Fail> {
    let rows = [(
        "module m(input clk, input [1:0] a, input [1:0] b, output y, output z); assign y = a == b; assign z = a != b; endmodule",
        "0: input 0 0  1: input 0 1  2: input 1 0  3: input 1 1
            4: and 0 -2  5: and -0 2  6: and -4 -5
            7: and 1 -3  8: and -1 3  9: and -7 -8
            10: and 6 9  11: free 0 0 10
            12: and 0 -2  13: and -0 2  14: and -12 -13
            15: and 1 -3  16: and -1 3  17: and -15 -16
            18: and 14 17  19: free 1 0 -18
            output: 11  output: 19",
    )];
    check(&rt, rt.alloc(), &rows)
}

#[test]
fn reductions_are_chains_and_their_negations_negated_literals(rt: HostRuntime) -> Result<(), Fail> {
    let rows = [(
        "module m(input clk, input [2:0] a, output s, output t, output u, output v, output w, output x);
        assign s = &a; assign t = |a; assign u = ^a; assign v = ~&a; assign w = ~|a; assign x = ~^a; endmodule",
        "0: input 0 0  1: input 0 1  2: input 0 2
            3: and 0 1  4: and 3 2  5: free 0 0 4
            6: and -0 -1  7: and 6 -2  8: free 1 0 -7
            9: and 0 -1  10: and -0 1  11: and -9 -10
            12: and -11 -2  13: and 11 2  14: and -12 -13  15: free 2 0 -14
            16: and 0 1  17: and 16 2  18: free 3 0 -17
            19: and -0 -1  20: and 19 -2  21: free 4 0 20
            22: and 0 -1  23: and -0 1  24: and -22 -23
            25: and -24 -2  26: and 24 2  27: and -25 -26  28: free 5 0 27
            output: 5  output: 8  output: 15  output: 18  output: 21  output: 28",
    )];
    check(&rt, rt.alloc(), &rows)
}

/// The fill is false, but the top bit where a signed word is shifted by `>>>`. A bit of the count from the width on gives the fill.
#[test]
fn shifts_to_the_right_by_a_word(rt: HostRuntime) -> Result<(), Fail> {
    let rows = [
        (
            "module m(input clk, input [1:0] a, input [1:0] b, output [1:0] y); assign y = a >> b; endmodule",
            "0: input 0 0  1: input 0 1  2: input 1 0  3: input 1 1
            4: and 2 1  5: and -2 0  6: and -4 -5
            7: and -2 1
            8: and -3 -6  9: and -3 7
            10: free 0 0 8  11: free 0 1 9
            output: 10 11",
        ),
        (
            "module m(input clk, input signed [1:0] a, input [1:0] b, output [1:0] y); assign y = a >>> b; endmodule",
            "0: input 0 0  1: input 0 1  2: input 1 0  3: input 1 1
            4: and 2 1  5: and -2 0  6: and -4 -5
            7: and 3 1  8: and -3 -6  9: and -7 -8
            10: free 0 0 -9  11: free 0 1 1
            output: 10 11",
        ),
        (
            "module m(input clk, input signed [2:0] a, input [1:0] b, output [2:0] y); assign y = a >>> b; endmodule",
            "0: input 0 0  1: input 0 1  2: input 0 2  3: input 1 0  4: input 1 1
            5: and 3 1  6: and -3 0  7: and -5 -6
            8: and 3 2  9: and -3 1  10: and -8 -9
            11: and 4 2  12: and -4 -7  13: and -11 -12
            14: and 4 2  15: and -4 -10  16: and -14 -15
            17: free 0 0 -13  18: free 0 1 -16  19: free 0 2 2
            output: 17 18 19",
        ),
        (
            "module m(input clk, input [1:0] a, input b, output [1:0] y); assign y = a >>> b; endmodule",
            "0: input 0 0  1: input 0 1  2: input 1 0
            3: and 2 1  4: and -2 0  5: and -3 -4
            6: and -2 1
            7: free 0 0 -5  8: free 0 1 6
            output: 7 8",
        ),
    ];
    check(&rt, rt.alloc(), &rows)
}

/// Both top bits are negated, and there are the carries alone.
#[test]
fn a_signed_word_is_less_by_its_negated_top_bit(rt: HostRuntime) -> Result<(), Fail> {
    let rows = [(
        "module m(input clk, input signed [1:0] a, input signed [1:0] b, output y); assign y = a < b; endmodule",
        "0: input 0 0  1: input 0 1  2: input 1 0  3: input 1 1
            4: and 0 2  5: and -0 -2  6: and -4 -5
            7: and 0 -2  8: and -7 6
            9: and -1 -3  10: and 1 3  11: and -9 -10
            12: and -1 3  13: and -8 -11  14: and -12 -13
            15: free 0 0 14
            output: 15",
    )];
    check(&rt, rt.alloc(), &rows)
}

/// Each operand is a truth value first: the OR of its bits.
#[test]
fn truth_values_of_words_and_a_choice_by_one(rt: HostRuntime) -> Result<(), Fail> {
    let rows = [
        (
            "module m(input clk, input [1:0] a, input [1:0] b, output y, output z); assign y = a || b; assign z = !a; endmodule",
            "0: input 0 0  1: input 0 1  2: input 1 0  3: input 1 1
            4: and -0 -1  5: and -2 -3  6: and 4 5  7: free 0 0 -6
            8: and -0 -1  9: free 1 0 8
            output: 7  output: 9",
        ),
        (
            "module m(input clk, input [1:0] c, input [1:0] a, input [1:0] b, output [1:0] y); assign y = c ? a & b : a | b; endmodule",
            "0: input 0 0  1: input 0 1  2: input 1 0  3: input 1 1  4: input 2 0  5: input 2 1
            6: and -0 -1
            7: and 2 4  8: and 3 5
            9: and -2 -4  10: and -3 -5
            11: and -6 7  12: and 6 -9  13: and -11 -12
            14: and -6 8  15: and 6 -10  16: and -14 -15
            17: free 0 0 -13  18: free 0 1 -16
            output: 17 18",
        ),
    ];
    check(&rt, rt.alloc(), &rows)
}

/// Both arms first, each in its own order, and then the choices by signal and bit.
#[test]
fn an_if_with_both_arms_chooses_behind_them(rt: HostRuntime) -> Result<(), Fail> {
    let rows = [(
        "module m(input clk, input c, input [1:0] a, input b, output reg [1:0] y, output reg z);
        always @(*) if (c) begin z = b; y = a; end else begin y = 2'd1; z = a[0]; end endmodule",
        "0: input 0 0  1: input 1 0  2: input 1 1  3: input 2 0
            4: free 0 0 3  5: free 1 0 1  6: free 1 1 2
            7: free 2 0 true  8: free 2 1 false  9: free 3 0 1
            10: and 0 5  11: and -0 7  12: and -10 -11
            13: and 0 6  14: and -0 8  15: and -13 -14
            16: and 0 4  17: and -0 9  18: and -16 -17
            output: -12 -15  output: -18",
    )];
    check(&rt, rt.alloc(), &rows)
}

/// What stood before is the other arm: the states. The choices go by signal, whichever way it is assigned.
#[test]
fn an_if_without_else_keeps_what_stood_before(rt: HostRuntime) -> Result<(), Fail> {
    let rows = [
        (
            "module m(input clk, input [1:0] c, input [1:0] d, output reg [1:0] q); always @(posedge clk) if (c) q <= d; endmodule",
            "0: input 0 0  1: input 0 1  2: input 1 0  3: input 1 1  4: state 0 0  5: state 0 1
            6: and -0 -1  7: free 0 0 2  8: free 0 1 3
            9: and -6 7  10: and 6 4  11: and -9 -10
            12: and -6 8  13: and 6 5  14: and -12 -13
            output: 4 5  next: -11 -14",
        ),
        (
            "module m(input clk, input c, input d, output reg q);
        reg t; always @(posedge clk) if (c) begin t = d; q <= t; end endmodule",
            "0: input 0 0  1: input 1 0  2: state 0 0  3: state 1 0
            4: free 0 0 1  5: free 1 0 4
            6: and 0 5  7: and -0 2  8: and -6 -7
            9: and 0 4  10: and -0 3  11: and -9 -10
            output: 2  next: -8  next: -11",
        ),
    ];
    check(&rt, rt.alloc(), &rows)
}

/// Whether the index is an address is made once, before the choices for that word's bits.
#[test]
fn a_word_of_an_array_that_is_stored(rt: HostRuntime) -> Result<(), Fail> {
    let rows = [(
        "module m(input clk, input [1:0] i, input [1:0] x); reg [1:0] mem [0:1]; always @(posedge clk) mem[i] <= x; endmodule",
        "0: input 0 0  1: input 0 1  2: input 1 0  3: input 1 1
            4: state 0 0  5: state 0 1  6: state 1 0  7: state 1 1
            8: free 0 0 2  9: free 0 1 3
            10: and -0 -1
            11: and 10 8  12: and -10 4  13: and -11 -12
            14: and 10 9  15: and -10 5  16: and -14 -15
            17: and 0 -1
            18: and 17 8  19: and -17 6  20: and -18 -19
            21: and 17 9  22: and -17 7  23: and -21 -22
            next: -13 -16  next: -20 -23",
    )];
    check(&rt, rt.alloc(), &rows)
}

/// The free bits, then both indexes from the left, and then the stores from the left, each over what the one before it left.
#[test]
fn two_bits_that_are_stored_by_variable_indexes(rt: HostRuntime) -> Result<(), Fail> {
    let rows = [(
        "module m(input clk, input i, input j, input k, input [1:0] x, output reg [1:0] q);
        always @(posedge clk) {q[i & k], q[j | k]} <= x; endmodule",
        "0: input 0 0  1: input 1 0  2: input 2 0  3: input 3 0  4: input 3 1  5: state 0 0  6: state 0 1
            7: free 0 0 3  8: free 0 1 4
            9: and 0 2  10: and -1 -2
            11: and -9 8  12: and 9 5  13: and -11 -12
            14: and 9 8  15: and -9 6  16: and -14 -15
            17: and 10 7  18: and -10 -13  19: and -17 -18
            20: and -10 7  21: and 10 -16  22: and -20 -21
            output: 5 6  next: -19 -22",
    )];
    check(&rt, rt.alloc(), &rows)
}

#[test]
fn a_reset_that_is_active_at_0_chooses_by_the_negated_signal(rt: HostRuntime) -> Result<(), Fail> {
    let rows = [(
        "module m(input clk, input rst_n, input d, output reg q);
        always @(posedge clk or negedge rst_n) if (!rst_n) q <= 1'b1; else q <= d; endmodule",
        "0: input 0 0  1: input 1 0  2: state 0 0
            3: free 0 0 true
            4: and -0 3  5: and 0 2  6: and -4 -5
            7: free 1 0 1
            8: and -0 -6  9: and 0 7  10: and -8 -9
            output: -6  next: -10",
    )];
    check(&rt, rt.alloc(), &rows)
}

/// Conditions and bodies in the order of the text, the default last, and then the choices from the last item to the first.
#[test]
fn a_case_with_two_items_chooses_for_the_last_one_first(rt: HostRuntime) -> Result<(), Fail> {
    let rows = [(
        "module m(input clk, input [1:0] a, input b, input c, input d, output reg y);
        always @(*) case (a) 2'd0, 2'd3: y = b; 2'd1: y = c; default: y = d; endcase endmodule",
        "0: input 0 0  1: input 0 1  2: input 1 0  3: input 2 0  4: input 3 0
            5: and -0 -1  6: and 0 1  7: and -5 -6  8: free 0 0 2
            9: and 0 -1  10: free 1 0 3
            11: free 2 0 4
            12: and 9 10  13: and -9 11  14: and -12 -13
            15: and -7 8  16: and 7 -14  17: and -15 -16
            output: -17",
    )];
    check(&rt, rt.alloc(), &rows)
}

/// A sum makes no last carry, a product each row before its sum, and `>` and `>=` are a `<` the other way and its negation.
#[test]
fn sums_products_shifts_and_comparisons_of_two_bits(rt: HostRuntime) -> Result<(), Fail> {
    let rows = [
        (
            "module m(input clk, input [1:0] a, input [1:0] b, output [1:0] y); assign y = a + b; endmodule",
            "0: input 0 0  1: input 0 1  2: input 1 0  3: input 1 1
            4: and 0 -2  5: and -0 2  6: and -4 -5
            7: and 0 2
            8: and 1 -3  9: and -1 3  10: and -8 -9
            11: and -10 -7  12: and 10 7  13: and -11 -12
            14: free 0 0 -6  15: free 0 1 -13
            output: 14 15",
        ),
        (
            "module m(input clk, input [1:0] a, output [1:0] y); assign y = -a; endmodule",
            "0: input 0 0  1: input 0 1
            2: and -1 0  3: and 1 -0  4: and -2 -3
            5: free 0 0 0  6: free 0 1 -4
            output: 5 6",
        ),
        (
            "module m(input clk, input [1:0] a, input [1:0] b, output [1:0] y); assign y = a * b; endmodule",
            "0: input 0 0  1: input 0 1  2: input 1 0  3: input 1 1
            4: and 0 2  5: and 1 2
            6: and 0 3
            7: and 5 -6  8: and -5 6  9: and -7 -8
            10: free 0 0 4  11: free 0 1 -9
            output: 10 11",
        ),
        (
            "module m(input clk, input [1:0] a, input [1:0] b, output [1:0] y); assign y = a << b; endmodule",
            "0: input 0 0  1: input 0 1  2: input 1 0  3: input 1 1
            4: and -2 0
            5: and 2 0  6: and -2 1  7: and -5 -6
            8: and -3 4  9: and -3 -7
            10: free 0 0 8  11: free 0 1 9
            output: 10 11",
        ),
        (
            "module m(input clk, input [1:0] a, input [1:0] b, output y, output z); assign y = a > b; assign z = a >= b; endmodule",
            "0: input 0 0  1: input 0 1  2: input 1 0  3: input 1 1
            4: and 2 0  5: and -2 -0  6: and -4 -5
            7: and 2 -0  8: and -7 6
            9: and 3 1  10: and -3 -1  11: and -9 -10
            12: and 3 -1  13: and -8 -11  14: and -12 -13
            15: free 0 0 14
            16: and 0 2  17: and -0 -2  18: and -16 -17
            19: and 0 -2  20: and -19 18
            21: and 1 3  22: and -1 -3  23: and -21 -22
            24: and 1 -3  25: and -20 -23  26: and -24 -25
            27: free 1 0 -26
            output: 15  output: 27",
        ),
        (
            "module m(input clk, input [1:0] a, input [1:0] b, output [1:0] y, output [1:0] z); assign y = a ^ b; assign z = a ~^ b; endmodule",
            "0: input 0 0  1: input 0 1  2: input 1 0  3: input 1 1
            4: and 0 -2  5: and -0 2  6: and -4 -5
            7: and 1 -3  8: and -1 3  9: and -7 -8
            10: free 0 0 -6  11: free 0 1 -9
            12: and 0 -2  13: and -0 2  14: and -12 -13
            15: and 1 -3  16: and -1 3  17: and -15 -16
            18: free 1 0 14  19: free 1 1 17
            output: 10 11  output: 18 19",
        ),
    ];
    check(&rt, rt.alloc(), &rows)
}

/// Each bit of a part has its own matches, and a number that the index can't mean has none; so has an address of an array.
#[test]
fn parts_by_a_variable_index_and_addresses_that_it_cannot_mean(
    rt: HostRuntime,
) -> Result<(), Fail> {
    let rows = [
        (
            "module m(input clk, input [2:0] a, input i, output [1:0] y); assign y = a[i +: 2]; endmodule",
            "0: input 0 0  1: input 0 1  2: input 0 2  3: input 1 0
            4: and 0 -3  5: and 1 3  6: and -4 -5
            7: and 1 -3  8: and 2 3  9: and -7 -8
            10: free 0 0 -6  11: free 0 1 -9
            output: 10 11",
        ),
        (
            "module m(input clk, input i, input [1:0] v, output reg [2:0] q); always @(posedge clk) q[i +: 2] <= v; endmodule",
            "0: input 0 0  1: input 1 0  2: input 1 1  3: state 0 0  4: state 0 1  5: state 0 2
            6: free 0 0 1  7: free 0 1 2
            8: and -0 6  9: and 0 3  10: and -8 -9
            11: and 0 6  12: and -0 4  13: and -11 -12
            14: and -0 7  15: and 0 -13  16: and -14 -15
            17: and 0 7  18: and -0 5  19: and -17 -18
            output: 3 4 5  next: -10 -16 -19",
        ),
        (
            "module m(input clk, input i, output y); reg mem [0:2]; assign y = mem[i]; endmodule",
            "0: input 0 0  1: state 0 0  2: state 1 0  3: state 2 0
            4: and -0 1
            5: and 0 2  6: and -0 4  7: and -5 -6
            8: free 0 0 -7
            output: 8  next: 1  next: 2  next: 3",
        ),
    ];
    check(&rt, rt.alloc(), &rows)
}
