//! A net of one hundred products has too many nodes.

use crate::circuits::build::{node, word};
use bit_circuit::{BlastErr, blast};
use design_core::BinaryOp;
use net_checks::Parts;
use std::test::Fail;
use word_net::Operation;

#[test]
fn one_hundred_products_of_128_bits_are_refused_and_twenty_are_not(
    rt: HostRuntime,
) -> Result<(), Fail> {
    for (products, want) in [(20, None), (100, Some(BlastErr::Nodes))] {
        let mut nodes = vec![in rt.alloc();
            node(128, Operation::Input(0)),
            node(128, Operation::Input(1)),
        ]?;
        for _ in 0..products {
            nodes.push(node(
                128,
                Operation::Binary {
                    op: BinaryOp::Multiply,
                    left: word(0, 128),
                    right: word(1, 128),
                },
            ))?;
        }
        let parts = Parts {
            nodes,
            outputs: vec![in rt.alloc()]?,
            next: vec![in rt.alloc()]?,
            start: vec![in rt.alloc()]?,
        };
        match parts.into_net(rt.alloc())? {
            Some(net) => assert_eq!(rt; blast(rt.alloc(), &net).err(), want),
            None => panic!(rt; "no net"),
        }
    }
    Ok(())
}
