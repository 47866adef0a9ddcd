//! Forms, clause by clause.

use crate::build::{bits, circuit, expected, is_clause, node, suspects, unchecked, word};
use bit_circuit::Circuit;
use clause_base::Lit;
use clause_form::form;
use design_core::{BinaryOp, Checked, Trace, UnaryOp};
use loc_base::Bits;
use std::alloc::Global;
use std::process::Abort;
use std::test::Fail;
use unroller::{UnrolledLit, are_traces, unroll};
use word_net::Operation;

/// n = a | b and y = ~n.
pub fn or_not(rt: &impl Abort, alloc: Global) -> Result<Circuit, Fail> {
    let nodes = vec![in alloc;
        node(1, Operation::Input(0)),
        node(1, Operation::Input(1)),
        node(
            1,
            Operation::Binary {
                op: BinaryOp::Or,
                left: word(0, 1),
                right: word(1, 1)
            }
        ),
        node(
            1,
            Operation::Free {
                place: 0,
                computed: word(2, 1)
            }
        ),
        node(
            1,
            Operation::Unary {
                op: UnaryOp::Not,
                arg: word(3, 1)
            }
        ),
        node(
            1,
            Operation::Free {
                place: 1,
                computed: word(4, 1)
            }
        ),
    ]?;
    circuit(rt, alloc, nodes, vec![in alloc]?, vec![in alloc]?)
}

/// Four cycles with a b y = 001, 011, 101, 110.
pub fn four_cycles(rt: &impl Abort, alloc: Global) -> Result<Trace, Fail> {
    let mut inputs = vec![in alloc]?;
    let mut wanted = vec![in alloc]?;
    for (a, b, y) in [(0, 0, 1), (0, 1, 1), (1, 0, 1), (1, 1, 0)] {
        inputs.push(bits(rt, 1, a))?;
        inputs.push(bits(rt, 1, b))?;
        wanted.push(expected(rt, y))?;
    }
    Ok(Trace {
        cycles: 4,
        inputs,
        expected: wanted,
    })
}

#[test]
fn two_suspects_in_four_cycles_have_thirteen_variables_and_twenty_clauses(
    rt: HostRuntime,
) -> Result<(), Fail> {
    let alloc = rt.alloc();
    let circuit = or_not(&rt, alloc)?;
    let traces = vec![in alloc; four_cycles(&rt, alloc)?]?;
    let groups = suspects(&rt, alloc, &[0, 1])?;
    assert!(rt; are_traces(&circuit, &traces));
    let unrolled = match unroll(alloc, &circuit, &traces, &groups, 2) {
        Ok(unrolled) => unrolled,
        Err(e) => panic!(rt; "{e:?}"),
    };
    let form = match form(alloc, &unrolled, &groups, 2) {
        Ok(form) => form,
        Err(e) => panic!(rt; "{e:?}"),
    };
    assert_eq!(rt; form.vars, 13);
    assert_eq!(rt; form.clauses.len(), 20);
    let want: [&[i32]; 20] = [
        &[-1, 3],
        &[-3, 4],
        &[-2, 4],
        &[-2, -3, 5],
        &[-6, 1],
        &[-7, -6, 2],
        &[7, 6, 2],
        &[7],
        &[8, 1],
        &[-9, -8, 2],
        &[9, 8, 2],
        &[9],
        &[10, 1],
        &[-11, -10, 2],
        &[11, 10, 2],
        &[11],
        &[12, 1],
        &[-13, -12, 2],
        &[13, 12, 2],
        &[-13],
    ];
    for place in 0..want.len() {
        assert!(rt; is_clause(&form.clauses, place, want[place]));
    }
    Ok(())
}

#[test]
fn what_is_read_of_a_form_are_its_literals(rt: HostRuntime) -> Result<(), Fail> {
    let alloc = rt.alloc();
    let circuit = or_not(&rt, alloc)?;
    let traces = vec![in alloc; four_cycles(&rt, alloc)?]?;
    let groups = suspects(&rt, alloc, &[1])?;
    assert!(rt; are_traces(&circuit, &traces));
    let unrolled = match unroll(alloc, &circuit, &traces, &groups, 2) {
        Ok(unrolled) => unrolled,
        Err(e) => panic!(rt; "{e:?}"),
    };
    let last = UnrolledLit::Of(Lit {
        var: 6,
        negated: false,
    });
    assert_eq!(rt; unrolled.variables(), 6);
    assert!(rt; unrolled.has_output(0, 3, 0, 0));
    assert_eq!(rt; unrolled.output(0, 3, 0, 0), last);
    assert!(rt; !unrolled.has_cycle(0, 4) && !unrolled.has_free(1, 1));
    assert!(rt; unrolled.has_cycle(0, 0));
    assert!(rt; unrolled.has_cycle(0, 3));
    assert!(rt; unrolled.has_free(0, 0));
    assert!(rt; unrolled.has_free(1, 0));
    assert_eq!(rt; unrolled.free(0, 3, 1, 0), last);
    assert_eq!(rt; unrolled.free(0, 3, 0, 0), UnrolledLit::Const(true));
    assert_eq!(rt; unrolled.free(0, 0, 0, 0), UnrolledLit::Const(false));
    Ok(())
}

/// The clauses of y = 0 in a cycle with something expected. What is assigned is a place that no suspect holds.
fn constant_output(
    rt: &impl Abort,
    alloc: Global,
    wanted: Checked,
) -> Result<clause_base::Form, Fail> {
    let nodes = vec![in alloc;
        node(1, Operation::Const(0)),
        node(
            1,
            Operation::Free {
                place: 0,
                computed: word(0, 1)
            }
        ),
    ]?;
    let circuit = circuit(rt, alloc, nodes, vec![in alloc]?, vec![in alloc]?)?;
    let traces = vec![in alloc;
        Trace {
            cycles: 1,
            inputs: vec![in alloc]?,
            expected: vec![in alloc; wanted]?
        },
    ]?;
    let groups = suspects(rt, alloc, &[])?;
    assert!(rt; are_traces(&circuit, &traces));
    match unroll(alloc, &circuit, &traces, &groups, 2) {
        Ok(unrolled) => match form(alloc, &unrolled, &groups, 2) {
            Ok(form) => Ok(form),
            Err(e) => panic!(rt; "{e:?}"),
        },
        Err(e) => panic!(rt; "{e:?}"),
    }
}

#[test]
fn a_constant_that_is_wrong_gives_the_empty_clause(rt: HostRuntime) -> Result<(), Fail> {
    let alloc = rt.alloc();
    for (wanted, count) in [
        (expected(&rt, 1), 1),
        (expected(&rt, 0), 0),
        (unchecked(&rt), 0),
    ] {
        let form = constant_output(&rt, alloc, wanted)?;
        assert_eq!(rt; form.vars, 0);
        assert_eq!(rt; form.clauses.len(), count);
        assert!(rt; count == 0 || is_clause(&form.clauses, 0, &[]));
    }
    Ok(())
}
