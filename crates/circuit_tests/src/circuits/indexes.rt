//! Bits and words by a variable index.

use crate::circuits::build::{and, circuit, has_output, input, node, not, of, signed, word};
use loc_base::Items;
use std::test::Fail;
use word_net::{Operation, Select};

#[test]
fn a_read_takes_each_bit_where_the_index_names_it(rt: HostRuntime) -> Result<(), Fail> {
    let select = Select {
        index: word(1, 1),
        left: 1,
        right: 0,
        offsets: Items::from_vec(vec![in rt.alloc(); 0]?),
    };
    let nodes = vec![in rt.alloc();
        node(2, Operation::Input(0)),
        node(1, Operation::Input(1)),
        node(
            1,
            Operation::Pick {
                word: word(0, 2),
                select
            }
        ),
    ]?;
    let made = circuit(&rt, rt.alloc(), nodes)?;
    let want = [
        input(0, 0),
        input(0, 1),
        input(1, 0),
        and(of(0), not(2)),
        and(of(1), of(2)),
        and(not(3), not(4)),
    ];
    assert_eq!(rt; made.nodes(), want.as_slice());
    assert!(rt; has_output(&made, &[not(5)]));
    Ok(())
}

#[test]
fn a_signed_index_names_bits_below_zero_and_none_that_it_cannot_mean(
    rt: HostRuntime,
) -> Result<(), Fail> {
    let select = Select {
        index: signed(1, 1),
        left: -1,
        right: 1,
        offsets: Items::from_vec(vec![in rt.alloc(); 0]?),
    };
    let nodes = vec![in rt.alloc();
        node(3, Operation::Input(0)),
        node(1, Operation::Input(1)),
        node(
            1,
            Operation::Pick {
                word: word(0, 3),
                select
            }
        ),
    ]?;
    let made = circuit(&rt, rt.alloc(), nodes)?;
    let want = [
        input(0, 0),
        input(0, 1),
        input(0, 2),
        input(1, 0),
        and(of(1), not(3)),
        and(of(2), of(3)),
        and(not(4), not(5)),
    ];
    assert_eq!(rt; made.nodes(), want.as_slice());
    assert!(rt; has_output(&made, &[not(6)]));
    Ok(())
}

#[test]
fn a_store_keeps_what_the_index_does_not_name(rt: HostRuntime) -> Result<(), Fail> {
    let select = Select {
        index: word(1, 1),
        left: 1,
        right: 0,
        offsets: Items::from_vec(vec![in rt.alloc(); 0]?),
    };
    let nodes = vec![in rt.alloc();
        node(2, Operation::Input(0)),
        node(1, Operation::Input(1)),
        node(1, Operation::Input(2)),
        node(
            2,
            Operation::PutPick {
                old: word(0, 2),
                select,
                word: word(2, 1),
                offset: 0
            }
        ),
    ]?;
    let made = circuit(&rt, rt.alloc(), nodes)?;
    let want = [
        input(0, 0),
        input(0, 1),
        input(1, 0),
        input(2, 0),
        and(not(2), of(3)),
        and(of(2), of(0)),
        and(not(4), not(5)),
        and(of(2), of(3)),
        and(not(2), of(1)),
        and(not(7), not(8)),
    ];
    assert_eq!(rt; made.nodes(), want.as_slice());
    assert!(rt; has_output(&made, &[not(6), not(9)]));
    Ok(())
}

#[test]
fn a_word_of_an_array_is_chosen_address_by_address(rt: HostRuntime) -> Result<(), Fail> {
    let nodes = vec![in rt.alloc();
        node(1, Operation::Input(0)),
        node(1, Operation::Input(1)),
        node(1, Operation::Input(2)),
        node(1, Operation::Const(0)),
        node(
            1,
            Operation::Is {
                index: word(2, 1),
                number: 0
            }
        ),
        node(
            1,
            Operation::Choose {
                cond: word(4, 1),
                yes: word(0, 1),
                no: word(3, 1)
            }
        ),
        node(
            1,
            Operation::Is {
                index: word(2, 1),
                number: 1
            }
        ),
        node(
            1,
            Operation::Choose {
                cond: word(6, 1),
                yes: word(1, 1),
                no: word(5, 1)
            }
        ),
    ]?;
    let made = circuit(&rt, rt.alloc(), nodes)?;
    let want = [
        input(0, 0),
        input(1, 0),
        input(2, 0),
        and(not(2), of(0)),
        and(of(2), of(1)),
        and(not(2), of(3)),
        and(not(4), not(5)),
    ];
    assert_eq!(rt; made.nodes(), want.as_slice());
    assert!(rt; has_output(&made, &[not(6)]));
    Ok(())
}
