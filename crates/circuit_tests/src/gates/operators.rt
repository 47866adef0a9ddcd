//! Each operator node by node, and the literals that need no node.

use gate_base::{Literal, Maker, Node};
use loc_base::NoMemory;
use std::alloc::Global;
use std::process::Abort;
use std::test::Fail;

/// A bit of input 0.
pub fn source(rt: &impl Abort, maker: &mut Maker, bit: u8) -> Result<Literal, NoMemory> {
    assert!(rt; maker.sources() < 1000);
    maker.input(0, bit)
}

fn of(node: u32) -> Literal {
    Literal::Of {
        node,
        negated: false,
    }
}

fn not(node: u32) -> Literal {
    Literal::Of {
        node,
        negated: true,
    }
}

fn and(left: Literal, right: Literal) -> Node {
    Node::And { left, right }
}

fn input(bit: u8) -> Node {
    Node::Input { input: 0, bit }
}

const FALSE: Literal = Literal::Known(false);

const TRUE: Literal = Literal::Known(true);

#[test]
fn what_needs_no_node(rt: HostRuntime) {
    for (left, right, want) in [
        (FALSE, of(1), Some(FALSE)),
        (of(1), FALSE, Some(FALSE)),
        (TRUE, not(1), Some(not(1))),
        (not(1), TRUE, Some(not(1))),
        (TRUE, TRUE, Some(TRUE)),
        (TRUE, FALSE, Some(FALSE)),
        (of(1), of(1), Some(of(1))),
        (not(1), not(1), Some(not(1))),
        (of(1), not(1), Some(FALSE)),
        (of(1), of(2), None),
        (not(2), of(1), None),
    ] {
        assert_eq!(rt; left.folded(right), want, "{left:?} {right:?}");
    }
}

#[test]
fn an_or_is_a_negated_and(rt: HostRuntime) -> Result<(), Fail> {
    let mut maker = Maker::new(rt.alloc(), 9);
    let x = source(&rt, &mut maker, 0)?;
    let y = source(&rt, &mut maker, 1)?;
    let made = maker.or(x, y).ok().expect(&rt, "an OR");
    assert_eq!(rt; made, not(2));
    assert_eq!(rt;
        maker.nodes(),
        [input(0), input(1), and(not(0), not(1))].as_slice()
    );
    Ok(())
}

#[test]
fn an_xor_makes_the_left_alone_then_the_right_alone(rt: HostRuntime) -> Result<(), Fail> {
    let mut maker = Maker::new(rt.alloc(), 9);
    let x = source(&rt, &mut maker, 0)?;
    let y = source(&rt, &mut maker, 1)?;
    let made = maker.xor(x, y).ok().expect(&rt, "an XOR");
    assert_eq!(rt; made, not(4));
    let want = [
        input(0),
        input(1),
        and(of(0), not(1)),
        and(not(0), of(1)),
        and(not(2), not(3)),
    ];
    assert_eq!(rt; maker.nodes(), want.as_slice());
    Ok(())
}

#[test]
fn a_mux_makes_the_chosen_arm_first(rt: HostRuntime) -> Result<(), Fail> {
    let mut maker = Maker::new(rt.alloc(), 9);
    let c = source(&rt, &mut maker, 0)?;
    let x = source(&rt, &mut maker, 1)?;
    let y = source(&rt, &mut maker, 2)?;
    let made = maker.mux(c, x, y).ok().expect(&rt, "a MUX");
    assert_eq!(rt; made, not(5));
    let want = [
        input(0),
        input(1),
        input(2),
        and(of(0), of(1)),
        and(not(0), of(2)),
        and(not(3), not(4)),
    ];
    assert_eq!(rt; maker.nodes(), want.as_slice());
    Ok(())
}

#[test]
fn a_mux_of_equal_arms_makes_nothing_and_one_of_opposite_arms_makes_three(
    rt: HostRuntime,
) -> Result<(), Fail> {
    let mut maker = Maker::new(rt.alloc(), 9);
    let c = source(&rt, &mut maker, 0)?;
    let x = source(&rt, &mut maker, 1)?;
    assert_eq!(rt; maker.mux(c, x, x).ok(), Some(x));
    assert_eq!(rt; maker.mux(c, TRUE, TRUE).ok(), Some(TRUE));
    assert_eq!(rt; maker.len(), 2);
    assert_eq!(rt; maker.mux(c, x, x.opposite()).ok(), Some(not(4)));
    let want = [
        input(0),
        input(1),
        and(of(0), of(1)),
        and(not(0), not(1)),
        and(not(2), not(3)),
    ];
    assert_eq!(rt; maker.nodes(), want.as_slice());
    Ok(())
}

#[test]
fn a_mux_of_constants_is_the_condition(rt: HostRuntime) -> Result<(), Fail> {
    let mut maker = Maker::new(rt.alloc(), 9);
    let c = source(&rt, &mut maker, 0)?;
    assert_eq!(rt; maker.mux(c, TRUE, FALSE).ok(), Some(c));
    assert_eq!(rt; maker.mux(c, FALSE, TRUE).ok(), Some(not(0)));
    assert_eq!(rt; maker.len(), 1);
    Ok(())
}

/// A maker of three bits of an input.
fn three(rt: &impl Abort, alloc: Global) -> Result<Maker, Fail> {
    let mut maker = Maker::new(alloc, 99);
    for bit in 0..3u8 {
        let _bit = source(rt, &mut maker, bit)?;
    }
    Ok(maker)
}

#[test]
fn a_chain_of_ands_goes_from_the_first_on(rt: HostRuntime) -> Result<(), Fail> {
    let mut maker = three(&rt, rt.alloc())?;
    let made = maker.and_all([of(2), not(0), of(1)].as_slice());
    assert_eq!(rt; made.ok(), Some(of(4)));
    let want = [
        input(0),
        input(1),
        input(2),
        and(of(2), not(0)),
        and(of(3), of(1)),
    ];
    assert_eq!(rt; maker.nodes(), want.as_slice());
    Ok(())
}

#[test]
fn a_chain_of_ors_negates_its_members(rt: HostRuntime) -> Result<(), Fail> {
    let mut maker = three(&rt, rt.alloc())?;
    let made = maker.or_all([of(0), FALSE, of(1), of(2)].as_slice());
    assert_eq!(rt; made.ok(), Some(not(4)));
    let want = [
        input(0),
        input(1),
        input(2),
        and(not(0), not(1)),
        and(of(3), not(2)),
    ];
    assert_eq!(rt; maker.nodes(), want.as_slice());
    Ok(())
}

#[test]
fn a_chain_of_xors_makes_three_nodes_a_member(rt: HostRuntime) -> Result<(), Fail> {
    let mut maker = three(&rt, rt.alloc())?;
    let made = maker.xor_all([of(0), of(1), of(2)].as_slice());
    assert_eq!(rt; made.ok(), Some(not(8)));
    let want = [
        input(0),
        input(1),
        input(2),
        and(of(0), not(1)),
        and(not(0), of(1)),
        and(not(3), not(4)),
        and(not(5), not(2)),
        and(of(5), of(2)),
        and(not(6), not(7)),
    ];
    assert_eq!(rt; maker.nodes(), want.as_slice());
    Ok(())
}

#[test]
fn chains_of_nothing_are_constants(rt: HostRuntime) {
    let mut maker = Maker::new(rt.alloc(), 0);
    let none: [Literal; 0] = [];
    assert_eq!(rt; maker.and_all(none.as_slice()).ok(), Some(TRUE));
    assert_eq!(rt; maker.or_all(none.as_slice()).ok(), Some(FALSE));
    assert_eq!(rt; maker.xor_all(none.as_slice()).ok(), Some(FALSE));
}

#[test]
fn a_bit_of_a_place_is_always_a_node(rt: HostRuntime) -> Result<(), Fail> {
    let mut maker = Maker::new(rt.alloc(), 2);
    for moment in [0, 0] {
        let made = maker.free(moment, 7, 3, TRUE).ok().expect(&rt, "a node");
        assert!(rt; made != TRUE);
    }
    let want = Node::Free {
        moment: 0,
        place: 7,
        bit: 3,
        computed: TRUE,
    };
    assert_eq!(rt; maker.nodes(), [want, want].as_slice());
    Ok(())
}
