//! Operators on words of two bits: those of x are the nodes 0 and 1, those of y the nodes 2 and 3.

use bit_words::{Direction, Shift, WordMaker};
use gate_base::{Literal, Maker, Node};
use loc_base::Items;
use std::alloc::Global;
use std::process::Abort;
use std::test::Fail;

const FALSE: Literal = Literal::Known(false);

fn of(node: u32) -> Literal {
    Literal::Of {
        node,
        negated: false,
    }
}

fn not(node: u32) -> Literal {
    Literal::Of {
        node,
        negated: true,
    }
}

fn and(left: Literal, right: Literal) -> Node {
    Node::And { left, right }
}

fn input(bit: u8) -> Node {
    Node::Input { input: 0, bit }
}

/// A maker of the four bits.
fn four(rt: &impl Abort, alloc: Global) -> Result<WordMaker, Fail> {
    let mut maker = Maker::new(alloc, 99);
    for bit in 0..4u8 {
        assert!(rt; maker.sources() < 9);
        let _bit = maker.input(0, bit)?;
    }
    Ok(WordMaker {
        maker,
        bits: Items::new(alloc),
    })
}

#[test]
fn a_sum_makes_each_bit_and_then_its_carry_but_the_last(rt: HostRuntime) -> Result<(), Fail> {
    let mut words = four(&rt, rt.alloc())?;
    let made = words.add([of(0), of(1)].as_slice(), [of(2), of(3)].as_slice(), FALSE);
    assert!(rt; made.is_ok());
    assert_eq!(rt; words.bits.as_slice(), [not(6), not(13)].as_slice());
    let want = [
        input(0),
        input(1),
        input(2),
        input(3),
        and(of(0), not(2)),
        and(not(0), of(2)),
        and(not(4), not(5)),
        and(of(0), of(2)),
        and(of(1), not(3)),
        and(not(1), of(3)),
        and(not(8), not(9)),
        and(not(10), not(7)),
        and(of(10), of(7)),
        and(not(11), not(12)),
    ];
    assert_eq!(rt; words.maker.nodes(), want.as_slice());
    Ok(())
}

#[test]
fn less_makes_all_carries_of_the_difference_and_no_sum(rt: HostRuntime) -> Result<(), Fail> {
    let mut words = four(&rt, rt.alloc())?;
    let made = words.less(false, [of(0), of(1)].as_slice(), [of(2), of(3)].as_slice());
    assert_eq!(rt; made.ok(), Some(of(14)));
    let want = [
        input(0),
        input(1),
        input(2),
        input(3),
        and(of(0), of(2)),
        and(not(0), not(2)),
        and(not(4), not(5)),
        and(of(0), not(2)),
        and(not(7), of(6)),
        and(of(1), of(3)),
        and(not(1), not(3)),
        and(not(9), not(10)),
        and(of(1), not(3)),
        and(not(8), not(11)),
        and(not(12), not(13)),
    ];
    assert_eq!(rt; words.maker.nodes(), want.as_slice());
    Ok(())
}

#[test]
fn a_product_makes_a_row_before_its_sum_and_nothing_for_the_first(
    rt: HostRuntime,
) -> Result<(), Fail> {
    let mut words = four(&rt, rt.alloc())?;
    let made = words.multiply(
        rt.alloc(),
        [of(0), of(1)].as_slice(),
        [of(2), of(3)].as_slice(),
    );
    assert!(rt; made.is_ok());
    assert_eq!(rt; words.bits.as_slice(), [of(4), not(9)].as_slice());
    let want = [
        input(0),
        input(1),
        input(2),
        input(3),
        and(of(0), of(2)),
        and(of(1), of(2)),
        and(of(0), of(3)),
        and(of(5), not(6)),
        and(not(5), of(6)),
        and(not(7), not(8)),
    ];
    assert_eq!(rt; words.maker.nodes(), want.as_slice());
    Ok(())
}

#[test]
fn a_shift_moves_by_each_power_below_the_width_and_then_fills(rt: HostRuntime) -> Result<(), Fail> {
    let mut words = four(&rt, rt.alloc())?;
    let left = Shift {
        direction: Direction::Left,
        fill: FALSE,
    };
    let made = words.shift(
        rt.alloc(),
        left,
        [of(0), of(1)].as_slice(),
        [of(2), of(3)].as_slice(),
    );
    assert!(rt; made.is_ok());
    assert_eq!(rt; words.bits.as_slice(), [of(8), of(9)].as_slice());
    let want = [
        input(0),
        input(1),
        input(2),
        input(3),
        and(not(2), of(0)),
        and(of(2), of(0)),
        and(not(2), of(1)),
        and(not(5), not(6)),
        and(not(3), of(4)),
        and(not(3), not(7)),
    ];
    assert_eq!(rt; words.maker.nodes(), want.as_slice());
    Ok(())
}

#[test]
fn a_read_by_an_index_makes_each_match_before_its_bit(rt: HostRuntime) -> Result<(), Fail> {
    let mut words = four(&rt, rt.alloc())?;
    let names = [Some(0), Some(2), None];
    let made = words.pick(
        [of(2), of(3)].as_slice(),
        [of(0), of(1), of(1)].as_slice(),
        names.as_slice(),
    );
    assert_eq!(rt; made.ok(), Some(not(8)));
    let want = [
        input(0),
        input(1),
        input(2),
        input(3),
        and(not(2), not(3)),
        and(of(0), of(4)),
        and(not(2), of(3)),
        and(of(1), of(6)),
        and(not(5), not(7)),
    ];
    assert_eq!(rt; words.maker.nodes(), want.as_slice());
    Ok(())
}
