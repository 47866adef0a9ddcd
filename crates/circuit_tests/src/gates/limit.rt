//! A node is refused exactly where the count of AND and free nodes would pass the limit.

use crate::gates::operators::source;
use gate_base::{Literal, MakeErr, Maker};
use std::test::Fail;

#[test]
fn an_xor_of_three_nodes_passes_a_limit_of_two(rt: HostRuntime) -> Result<(), Fail> {
    for (limit, want) in [(0, false), (2, false), (3, true), (4, true)] {
        let mut maker = Maker::new(rt.alloc(), limit);
        let x = source(&rt, &mut maker, 0)?;
        let y = source(&rt, &mut maker, 1)?;
        assert_eq!(rt; maker.xor(x, y).is_ok(), want, "limit {limit}");
    }
    Ok(())
}

#[test]
fn the_refusal_is_the_limit_and_leaves_what_was_made(rt: HostRuntime) -> Result<(), Fail> {
    let mut maker = Maker::new(rt.alloc(), 1);
    let x = source(&rt, &mut maker, 0)?;
    let y = source(&rt, &mut maker, 1)?;
    assert_eq!(rt; maker.xor(x, y).err(), Some(MakeErr::Limit));
    assert_eq!(rt; maker.len(), 3);
    assert_eq!(rt; maker.sources(), 2);
    Ok(())
}

#[test]
fn bits_of_inputs_and_states_are_not_counted(rt: HostRuntime) -> Result<(), Fail> {
    let mut maker = Maker::new(rt.alloc(), 0);
    let x = source(&rt, &mut maker, 0)?;
    assert!(rt; maker.sources() < 9);
    let y = maker.state(0, 0)?;
    assert_eq!(rt; maker.and(x, Literal::Known(true)).ok(), Some(x));
    assert_eq!(rt; maker.and(x, y).err(), Some(MakeErr::Limit));
    assert_eq!(rt; maker.free(0, 0, 0, x).err(), Some(MakeErr::Limit));
    Ok(())
}
