//! Small designs with their traces: for each set of at most so many suspects, the form beside the trial.

use crate::asked::Asked;
use crate::build::{circuit, read, suspects, traces};
use crate::form::{Clauses, clauses_of, values_by_form};
use crate::trial::{is_right, works};
use std::alloc::Global;
use std::test::Fail;

/// Whether the form says of members what the trial says, `true` where they work; the values that it has are right.
fn says(
    alloc: Global,
    clauses: &Clauses,
    asked: &Asked,
    members: &[u32],
    works_too: bool,
) -> Result<bool, Fail> {
    match values_by_form(alloc, clauses, asked, members)? {
        Some(values) => Ok(works_too && is_right(alloc, asked, &values)?),
        None => Ok(!works_too),
    }
}

/// The members whose bits are set in a number.
fn members_of(alloc: Global, number: u32) -> Result<Vec<u32>, Fail> {
    let mut members = Vec::new(alloc);
    for i in 0..8u32 {
        if number >> i & 1 == 1 {
            members.push(i + 1)?;
        }
    }
    Ok(members)
}

/// What is asked of a design: its text, its traces, and the places of each suspect.
#[derive(Clone, Copy, Debug)]
struct Case<'a> {
    text: &'a str,
    traces: &'a [&'a [&'a str]],
    suspects: &'a [&'a [u32]],
}

/// The working sets of at most two suspects, each as the number whose bits are its members, where form and trial agree on each.
fn working(alloc: Global, case: &Case<'_>) -> Result<Vec<u32>, Fail> {
    let ready = read(alloc, case.text)?;
    let circuit = circuit(alloc, &ready)?;
    let asked = Asked {
        traces: traces(alloc, &ready.design, case.traces)?,
        groups: suspects(alloc, case.suspects)?,
        ready,
    };
    let clauses = clauses_of(alloc, &circuit, &asked, 2)?;
    let mut found = Vec::new(alloc);
    let sets: u32 = 1 << asked.groups.len().min(8);
    for number in 0..sets {
        let members = members_of(alloc, number)?;
        if members.len() <= 2 {
            let works = works(alloc, &asked, &members)?;
            if !says(alloc, &clauses, &asked, &members, works)? {
                return Err(Fail::new("form and trial differ"));
            }
            if works {
                found.push(number)?;
            }
        }
    }
    Ok(found)
}

/// Whether these are the working sets of at most two suspects.
fn are_working(alloc: Global, case: &Case<'_>, sets: &[u32]) -> Result<bool, Fail> {
    Ok(working(alloc, case)?.as_slice() == sets)
}

#[test]
fn one_assignment_reads_the_other(rt: HostRuntime) -> Result<(), Fail> {
    let case = Case {
        text: "module m(input clk, input a, input b, output y); wire n; assign n = a | b; assign y = ~n; endmodule",
        traces: &[&["001", "011", "101", "110"]],
        suspects: &[&[0], &[1]],
    };
    assert!(rt; are_working(rt.alloc(), &case, &[1, 2, 3])?);
    Ok(())
}

#[test]
fn two_outputs_are_wrong(rt: HostRuntime) -> Result<(), Fail> {
    let case = Case {
        text: "module m(input clk, input a, input b, output x, output y, output z); assign x = a; assign y = b; assign z = a & b; endmodule",
        traces: &[&["1001-"], &["1110-", "0010-"]],
        suspects: &[&[0], &[1], &[2]],
    };
    assert!(rt; are_working(rt.alloc(), &case, &[3])?);
    Ok(())
}

#[test]
fn words_of_two_bits(rt: HostRuntime) -> Result<(), Fail> {
    let case = Case {
        text: "module m(input clk, input [1:0] a, input [1:0] b, output [1:0] y, output [1:0] z); assign y = a + b; assign z = y ^ b; endmodule",
        traces: &[&["1123", "3102"]],
        suspects: &[&[0], &[1]],
    };
    assert!(rt; are_working(rt.alloc(), &case, &[2, 3])?);
    Ok(())
}

/// The register begins with 0, so that nothing explains a 1 in the first cycle; a later one can be.
#[test]
fn a_register_that_is_negated(rt: HostRuntime) -> Result<(), Fail> {
    let text = "module m(input clk, output reg q); always @(posedge clk) q <= ~q; endmodule";
    let later = Case {
        text,
        traces: &[&["0", "0", "1"]],
        suspects: &[&[0]],
    };
    let first = Case {
        text,
        traces: &[&["1"]],
        suspects: &[&[0]],
    };
    assert!(rt; are_working(rt.alloc(), &later, &[1])?);
    assert!(rt; are_working(rt.alloc(), &first, &[])?);
    Ok(())
}

/// With nothing wrong the empty set works too.
#[test]
fn a_register_that_begins_with_one(rt: HostRuntime) -> Result<(), Fail> {
    let case = Case {
        text: "module m(input clk, output reg q); initial q = 1'b1; always @(posedge clk) q <= ~q; endmodule",
        traces: &[&["1", "0", "1"]],
        suspects: &[&[0]],
    };
    assert!(rt; are_working(rt.alloc(), &case, &[0, 1])?);
    Ok(())
}

/// The reset's value is wrong in its own cycle, and the body's one cycle later.
#[test]
fn a_reset_and_a_body(rt: HostRuntime) -> Result<(), Fail> {
    let case = Case {
        text: "module m(input clk, input rst, input d, output reg q);
            always @(posedge clk or posedge rst) if (rst) q <= 1'b1; else q <= d; endmodule",
        traces: &[&["100", "010", "000"]],
        suspects: &[&[0], &[1]],
    };
    assert!(rt; are_working(rt.alloc(), &case, &[3])?);
    Ok(())
}

/// Either register can be the one that is wrong, and the suspect of both.
#[test]
fn two_registers_one_behind_the_other(rt: HostRuntime) -> Result<(), Fail> {
    let case = Case {
        text: "module m(input clk, input d, output reg q); reg p; always @(posedge clk) begin p <= d; q <= p; end endmodule",
        traces: &[&["10", "00", "00"]],
        suspects: &[&[0], &[1], &[0, 1]],
    };
    assert!(rt; are_working(rt.alloc(), &case, &[1, 2, 3, 4, 5, 6])?);
    Ok(())
}

#[test]
fn one_arm_of_a_choice(rt: HostRuntime) -> Result<(), Fail> {
    let case = Case {
        text: "module m(input clk, input s, input a, input b, output reg y); always @(*) if (s) y = a; else y = b; endmodule",
        traces: &[&["1100", "0011"]],
        suspects: &[&[0], &[1]],
    };
    assert!(rt; are_working(rt.alloc(), &case, &[1, 3])?);
    Ok(())
}

#[test]
fn two_items_of_a_case(rt: HostRuntime) -> Result<(), Fail> {
    let case = Case {
        text: "module m(input clk, input [1:0] c, input a, output reg y);
            always @(*) case (c) 2'd0: y = a; 2'd1: y = ~a; default: y = 1'b0; endcase endmodule",
        traces: &[&["010", "211", "110"]],
        suspects: &[&[0], &[1], &[2]],
    };
    assert!(rt; are_working(rt.alloc(), &case, &[5])?);
    Ok(())
}

/// The register is right, so it is the bit that is read.
#[test]
fn a_bit_that_is_stored_and_read(rt: HostRuntime) -> Result<(), Fail> {
    let case = Case {
        text: "module m(input clk, input i, input v, input j, output reg [1:0] q, output y);
            always @(posedge clk) q[i] <= v; assign y = q[j]; endmodule",
        traces: &[&["01000", "00010"]],
        suspects: &[&[0], &[1]],
    };
    assert!(rt; are_working(rt.alloc(), &case, &[2, 3])?);
    Ok(())
}

/// The word is read twice, wrong the first time, and not written between.
#[test]
fn a_word_of_an_array(rt: HostRuntime) -> Result<(), Fail> {
    let case = Case {
        text: "module m(input clk, input w, input d, input r, output y); reg mem [0:1];
            always @(posedge clk) mem[w] <= d; assign y = mem[r]; endmodule",
        traces: &[&["1100", "0010", "0011"]],
        suspects: &[&[0], &[1]],
    };
    assert!(rt; are_working(rt.alloc(), &case, &[2, 3])?);
    Ok(())
}
