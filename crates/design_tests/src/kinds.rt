//! What each granularity makes of some places.

use crate::own::Everything;
use crate::places::{or_not, shared_inverter, two_blocks, two_gates};
use crate::shown::makes;
use std::test::Fail;
use suspect_map::{Blocks, Gates, InstanceOutputs, Modules, Statements};

#[test]
fn a_shared_statement_is_one_suspect_with_all_its_copies(rt: HostRuntime) -> Result<(), Fail> {
    let alloc = rt.alloc();
    let places = shared_inverter(alloc)?;
    assert!(rt; makes(alloc, &Statements, &places, "stmt inv 2 3; "));
    assert!(rt; makes(alloc, &Blocks, &places, ""));
    assert!(rt; makes(alloc, &Gates, &places, ""));
    assert!(rt;
        makes(
            alloc,
            &InstanceOutputs,
            &places,
            "instance m.u 0; instance m.v 1; "
        )
    );
    assert!(rt; makes(alloc, &Modules, &places, "module m 0 1; module inv 2 3; "));
    assert!(rt; makes(alloc, &Everything, &places, "all all 0 1 2 3; "));
    Ok(())
}

#[test]
fn each_gate_is_a_suspect(rt: HostRuntime) -> Result<(), Fail> {
    let alloc = rt.alloc();
    let places = or_not(alloc)?;
    assert!(rt; makes(alloc, &Statements, &places, ""));
    assert!(rt; makes(alloc, &Blocks, &places, ""));
    assert!(rt; makes(alloc, &Gates, &places, "gate m.g1 0; gate m.g2 1; "));
    assert!(rt; makes(alloc, &InstanceOutputs, &places, ""));
    assert!(rt; makes(alloc, &Modules, &places, "module m 0 1; "));
    assert!(rt; makes(alloc, &Everything, &places, "all all 0 1; "));
    Ok(())
}

#[test]
fn a_gate_is_a_suspect_with_all_its_outputs(rt: HostRuntime) -> Result<(), Fail> {
    let alloc = rt.alloc();
    let places = two_gates(alloc)?;
    assert!(rt; makes(alloc, &Gates, &places, "gate m.g1 0; gate m.g2 1 2; "));
    assert!(rt; makes(alloc, &Modules, &places, "module m 0 1 2; "));
    Ok(())
}

#[test]
fn a_block_is_a_suspect_with_all_assignments_of_all_its_copies(
    rt: HostRuntime,
) -> Result<(), Fail> {
    let alloc = rt.alloc();
    let places = two_blocks(alloc)?;
    assert!(rt; makes(alloc, &Blocks, &places, "block c 0 1 3 4; block c 2 5; "));
    assert!(rt;
        makes(
            alloc,
            &Statements,
            &places,
            "stmt c 0 3; stmt c 1 4; stmt c 2 5; "
        )
    );
    Ok(())
}
