//! What models of forms give to places.

use crate::build::{bits, circuit, node, suspects, word};
use crate::forms::{four_cycles, or_not};
use bit_circuit::Circuit;
use design_core::{Checked, Trace, Values};
use form_values::{are_places, has_one_column_each, values};
use std::alloc::Global;
use std::process::Abort;
use std::test::Fail;
use suspect_map::Groups;
use unroller::{Unrolled, are_traces, unroll};
use word_net::Operation;

/// The unrolled form of a circuit for a trace.
fn unrolled(
    rt: &impl Abort,
    alloc: Global,
    circuit: &Circuit,
    trace: Trace,
    groups: &Groups,
) -> Result<Unrolled, Fail> {
    let traces = vec![in alloc; trace]?;
    assert!(rt; are_traces(circuit, &traces));
    match unroll(alloc, circuit, &traces, groups, 2) {
        Ok(unrolled) => Ok(unrolled),
        Err(e) => panic!(rt; "{e:?}"),
    }
}

/// The values that a model gives to the places of a member.
fn values_of(
    rt: &impl Abort,
    alloc: Global,
    model: &[bool],
    form: &Unrolled,
    groups: &Groups,
    member: u32,
) -> Result<Values, Fail> {
    assert!(rt; has_one_column_each(form));
    assert!(rt; are_places(form, groups));
    assert!(rt; 1 <= member && member as usize <= groups.len());
    Ok(values(alloc, model, form, groups, &[member])?)
}

#[test]
fn a_model_gives_a_place_a_bit_in_each_cycle(rt: HostRuntime) -> Result<(), Fail> {
    let alloc = rt.alloc();
    let circuit = or_not(&rt, alloc)?;
    let groups = suspects(&rt, alloc, &[0, 1])?;
    let form = unrolled(&rt, alloc, &circuit, four_cycles(&rt, alloc)?, &groups)?;
    let model = [
        true, false, true, true, false, false, true, false, true, false, true, true, false,
    ];
    let first = values_of(&rt, alloc, &model, &form, &groups, 1)?;
    let second = values_of(&rt, alloc, &model, &form, &groups, 2)?;
    assert!(rt; first.places.len() == 1 && first.places[0] == 0);
    assert!(rt; second.places.len() == 1 && second.places[0] == 1);
    assert_eq!(rt; first.rows.len(), 4);
    assert_eq!(rt; second.rows.len(), 4);
    for (cycle, wanted) in [(0, 0), (1, 0), (2, 0), (3, 1)] {
        assert_eq!(rt; first.rows[cycle], bits(&rt, 1, wanted));
        assert_eq!(rt; second.rows[cycle], bits(&rt, 1, 1 - wanted));
    }
    Ok(())
}

#[test]
fn the_bits_of_a_word_stand_from_the_lowest_on(rt: HostRuntime) -> Result<(), Fail> {
    let alloc = rt.alloc();
    let nodes = vec![in alloc;
        node(3, Operation::Const(0)),
        node(
            3,
            Operation::Free {
                place: 5,
                computed: word(0, 3)
            }
        ),
    ]?;
    let circuit = circuit(&rt, alloc, nodes, vec![in alloc]?, vec![in alloc]?)?;
    let trace = Trace {
        cycles: 1,
        inputs: vec![in alloc]?,
        expected: vec![in alloc;
            Checked {
                value: bits(&rt, 3, 6),
                mask: bits(&rt, 3, 7)
            },
        ]?,
    };
    let groups = suspects(&rt, alloc, &[5])?;
    let form = unrolled(&rt, alloc, &circuit, trace, &groups)?;
    let given = values_of(
        &rt,
        alloc,
        &[true, true, false, true, true],
        &form,
        &groups,
        1,
    )?;
    assert!(rt; given.places.len() == 1 && given.places[0] == 5);
    assert!(rt; given.rows.len() == 1);
    assert_eq!(rt; given.rows[0], bits(&rt, 3, 6));
    Ok(())
}
