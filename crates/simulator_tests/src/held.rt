//! Workers run side by side: the second one begins while the first one is held.

ghost use Rattle.std.specs.Prelude.{All, IsTrue, length, ◌<◌, ◌^◌};
ghost use Rattle.cycle_sim.specs.Misses.{AreValuesFor};

use cycle_sim::can_simulate;
use design_core::{Design, Members, SetWithValues, Trace, Values};
use loc_base::{Gate, Workers};
use parallel_replay::{Trial, are_values_for, replay_all};
use small_networks::{OR_NOT, network, traces, word};
use std::alloc::Global;
use std::sync::atomic::{AtomicBool, Ordering};
use std::test::Fail;

/// A gate that holds piece 0 until piece 1 has entered, for at most 100,000,000 turns, and notes whether it did.
#[derive(Drop)]
struct HoldingGate {
    entered: AtomicBool,
    noted: AtomicBool,
}

impl HoldingGate {
    fn new() -> HoldingGate {
        HoldingGate {
            entered: AtomicBool::new(false),
            noted: AtomicBool::new(false),
        }
    }

    /// Waits for piece 1, and notes that it entered.
    fn hold(&self) {
        for _turn in 0..100_000_000 {
            if self.entered.load(Ordering::SeqCst) {
                self.noted.store(true, Ordering::SeqCst);
                return;
            }
        }
    }
}

impl Gate for HoldingGate {
    fn enter(&self, piece: u32) {
        match piece {
            0 => self.hold(),
            1 => self.entered.store(true, Ordering::SeqCst),
            _ => {}
        }
    }
}

/// A set of one suspect, with values of its only place cycle by cycle.
fn set_of(alloc: Global, suspect: u32, place: u32, words: &[bool]) -> Result<SetWithValues, Fail> {
    let mut members = Members::new(alloc);
    members.push(suspect)?;
    let mut values = Values {
        places: Vec::from_slice(alloc, &[place])?,
        rows: Vec::new(alloc),
    };
    for one in words {
        values.rows.push(word(*one)?)?;
    }
    Ok(SetWithValues { members, values })
}

/// Whether the values of sets are for traces of a design.
#[tactic(auto, using(crate::proofs::Lists::list_rules))]
fn have_values(design: &Design, traces: &[Trace], sets: &[SetWithValues]) -> bool
    requires { length traces.now < 2 ^ 32 }
    ensures { IsTrue result → All (λ set. AreValuesFor design.now traces.now set.values) sets.now }
{
    match sets.split_first() {
        Some((first, rest)) => {
            are_values_for(design, traces, &first.values) && have_values(design, traces, rest)
        }
        None => true,
    }
}

/// Of the traces with a b y: 001, 011, 101, 110, in which y is wrong in the second and third cycles, the two sets that explain it.
fn both_sets(alloc: Global) -> Result<Vec<SetWithValues>, Fail> {
    let mut sets = Vec::new(alloc);
    sets.push(set_of(alloc, 1, 0, &[false, false, false, true])?)?;
    sets.push(set_of(alloc, 2, 1, &[true, true, true, false])?)?;
    Ok(sets)
}

/// The gate's own note says that piece 1 entered while piece 0 was held, and the answer is that both sets are right.
#[test]
fn the_second_worker_begins_while_the_first_is_held(rt: HostRuntime) -> Result<(), Fail> {
    let alloc = rt.alloc();
    let found = network(alloc, OR_NOT)?;
    let design = &found.design;
    let traces = traces(alloc, design, &[&["001", "011", "101", "110"]])?;
    let sets = both_sets(alloc)?;
    assert!(rt; can_simulate(design, &found.order));
    assert!(rt; traces.len() == 1 && sets.len() == 2 && design.outputs.len() == 1);
    assert!(rt; have_values(design, &traces, &sets));
    let gate = HoldingGate::new();
    let workers = Workers {
        runtime: &rt,
        gate: &gate,
        count: 2,
    };
    let trial = Trial {
        design,
        order: &found.order,
        traces: &traces,
    };
    let miss = replay_all(alloc, &workers, &trial, &sets)?;
    assert!(rt; miss.is_none());
    assert!(rt; gate.noted.load(Ordering::SeqCst));
    Ok(())
}
