//! Operators, node by node.

use crate::circuits::build::{
    FALSE, and, circuit, free, has_output, held, input, node, not, of, signed, word,
};
use design_core::{BinaryOp, UnaryOp};
use gate_base::{Literal, Node};
use loc_base::Bits;
use std::test::Fail;
use word_net::Operation;

#[test]
fn an_or_and_its_opposite_have_an_and_and_two_free_bits(rt: HostRuntime) -> Result<(), Fail> {
    let nodes = vec![in rt.alloc();
        node(1, Operation::Input(0)),
        node(1, Operation::Input(1)),
        node(
            1,
            Operation::Binary {
                op: BinaryOp::Or,
                left: word(0, 1),
                right: word(1, 1)
            }
        ),
        node(
            1,
            Operation::Free {
                place: 0,
                computed: word(2, 1)
            }
        ),
        node(
            1,
            Operation::Unary {
                op: UnaryOp::Not,
                arg: word(3, 1)
            }
        ),
        node(
            1,
            Operation::Free {
                place: 1,
                computed: word(4, 1)
            }
        ),
    ]?;
    let made = circuit(&rt, rt.alloc(), nodes)?;
    let want = [
        input(0, 0),
        input(1, 0),
        and(not(0), not(1)),
        free(0, not(2)),
        free(1, not(3)),
    ];
    assert_eq!(rt; made.nodes(), want.as_slice());
    assert!(rt; has_output(&made, &[of(4)]));
    Ok(())
}

#[test]
fn less_or_equal_is_no_less_the_other_way(rt: HostRuntime) -> Result<(), Fail> {
    let nodes = vec![in rt.alloc();
        node(1, Operation::Input(0)),
        node(1, Operation::Input(1)),
        node(
            1,
            Operation::Binary {
                op: BinaryOp::LessEqual,
                left: signed(0, 1),
                right: signed(1, 1)
            }
        ),
    ]?;
    let made = circuit(&rt, rt.alloc(), nodes)?;
    let want = [
        input(0, 0),
        input(1, 0),
        and(not(1), not(0)),
        and(of(1), of(0)),
        and(not(2), not(3)),
        and(not(1), of(0)),
        and(not(5), of(4)),
    ];
    assert_eq!(rt; made.nodes(), want.as_slice());
    assert!(rt; has_output(&made, &[not(6)]));
    Ok(())
}

#[test]
fn minus_a_word_is_its_difference_from_zero(rt: HostRuntime) -> Result<(), Fail> {
    let nodes = vec![in rt.alloc();
        node(2, Operation::Input(0)),
        node(
            2,
            Operation::Unary {
                op: UnaryOp::Minus,
                arg: word(0, 2)
            }
        ),
    ]?;
    let made = circuit(&rt, rt.alloc(), nodes)?;
    let want = [
        input(0, 0),
        input(0, 1),
        and(not(1), of(0)),
        and(of(1), not(0)),
        and(not(2), not(3)),
    ];
    assert_eq!(rt; made.nodes(), want.as_slice());
    assert!(rt; has_output(&made, &[of(0), not(4)]));
    Ok(())
}

#[test]
fn words_that_are_joined_cut_extended_or_blended_make_no_nodes(
    rt: HostRuntime,
) -> Result<(), Fail> {
    let nodes = vec![in rt.alloc();
        node(2, Operation::Input(0)),
        node(3, Operation::Resize(signed(0, 2))),
        node(
            6,
            Operation::Repeat {
                times: 2,
                part: word(1, 3)
            }
        ),
        node(
            2,
            Operation::Slice {
                word: word(2, 6),
                from: 2
            }
        ),
        node(
            4,
            Operation::Join {
                high: word(3, 2),
                low: word(0, 2)
            }
        ),
        node(4, Operation::Const(10)),
        node(
            4,
            Operation::Blend {
                mask: 6,
                one: word(4, 4),
                other: word(5, 4)
            }
        ),
        node(
            4,
            Operation::Put {
                old: word(6, 4),
                from: 3,
                size: 1,
                word: word(0, 2),
                offset: 0
            }
        ),
    ]?;
    let made = circuit(&rt, rt.alloc(), nodes)?;
    assert_eq!(rt; made.nodes(), [input(0, 0), input(0, 1)].as_slice());
    assert!(rt; has_output(&made, &[FALSE, of(1), of(1), of(0)]));
    Ok(())
}

#[test]
fn a_register_keeps_its_literal_under_a_reset(rt: HostRuntime) -> Result<(), Fail> {
    let nodes = vec![in rt.alloc();
        node(1, Operation::Input(0)),
        node(1, Operation::Input(1)),
        node(1, Operation::State(0)),
        node(
            1,
            Operation::Choose {
                cond: word(0, 1),
                yes: word(2, 1),
                no: word(1, 1)
            }
        ),
    ]?;
    let start = match Bits::new(1, 1) {
        Some(bits) => bits,
        None => Bits::zero(1),
    };
    let made = held(
        &rt,
        rt.alloc(),
        nodes,
        vec![in rt.alloc(); 3]?,
        vec![in rt.alloc(); start]?,
    )?;
    let want = [
        input(0, 0),
        input(1, 0),
        Node::State { state: 0, bit: 0 },
        and(of(0), of(2)),
        and(not(0), of(1)),
        and(not(3), not(4)),
    ];
    assert_eq!(rt; made.nodes(), want.as_slice());
    assert!(rt; has_output(&made, &[not(5)]));
    assert!(rt; made.next().len() == 1);
    assert_eq!(rt; made.next().row(0), [not(5)].as_slice());
    assert_eq!(rt; made.start(), [start].as_slice());
    Ok(())
}
