//! Logs checked in pieces by 1, 2, 7 and 64 workers.

ghost use Rattle.std.specs.Prelude.{◌<◌, ◌≤◌};

use clause_base::{
    Clause, Clauses, Form, Lit, Log, StepKind, are_within, blocks_are_within,
    has_distinct_variables,
};
use loc_base::{FreeGate, Gate, NoMemory, Workers};
use proof_check::{Claim, check_log_parallel};
use std::alloc::Global;
use std::process::Abort;
use std::sync::atomic::{AtomicU64, Ordering};
use std::test::Fail;
use std::thread::Threads;

/// How many workers there are.
pub(super) const WORKERS: [u32; 4] = [1, 2, 7, 64];

/// How many turns a held piece waits for at most.
const TURNS: u32 = 100_000_000;

/// The variables of `ladder`.
const RUNGS: u32 = 101;

fn positive(var: u32) -> Lit {
    Lit {
        var,
        negated: false,
    }
}

/// Appends a clause of distinct variables.
fn push_clause(clauses: &mut Clauses, literals: &[Lit]) -> Result<(), NoMemory> {
    if has_distinct_variables(literals) {
        clauses.push(literals)?;
    }
    Ok(())
}

/// Appends a step of distinct variables.
fn push_step(
    log: &mut Log,
    kind: StepKind,
    literals: &[Lit],
    chain: &[u32],
) -> Result<(), NoMemory> {
    if has_distinct_variables(literals) {
        log.push(kind, literals, chain)?;
    }
    Ok(())
}

/// The first variable, and from each variable the next.
fn ladder(alloc: Global) -> Result<Form, NoMemory> {
    let mut clauses = Clauses::new(alloc);
    push_clause(&mut clauses, &[positive(1)])?;
    for var in 2..RUNGS + 1 {
        let before = Lit {
            var: var - 1,
            negated: true,
        };
        push_clause(&mut clauses, &[before, positive(var)])?;
    }
    Ok(Form {
        vars: RUNGS,
        clauses,
    })
}

/// What is wrong with a step.
#[derive(Clone, Copy, Debug, PartialEq, Eq)]
enum Fault {
    /// A chain that gives another clause.
    Chain,
    /// A variable that the form doesn't have.
    Variable,
    /// A block that isn't listed.
    Block,
    /// A chain that names the step itself.
    Itself,
}

/// A step of a number, and what is wrong with it.
type Wrong = (u32, Fault);

/// The clause of the step that climbs to the variable, and its chain, where nothing is wrong.
fn rung(var: u32) -> (Lit, [u32; 2]) {
    let before = if var == 2 {
        1
    } else {
        RUNGS.wrapping_add(var).wrapping_sub(2)
    };
    (positive(var), [before, var])
}

/// Appends the step that climbs to the variable, wrong in that way.
fn push_wrong(log: &mut Log, var: u32, fault: Fault) -> Result<(), NoMemory> {
    let (literal, chain) = rung(var);
    match fault {
        Fault::Chain => push_step(log, StepKind::Learned, &[literal], &[var, var]),
        Fault::Variable => push_step(log, StepKind::Learned, &[positive(4_000_000)], &chain),
        Fault::Block => push_step(log, StepKind::Block, &[literal], &[]),
        Fault::Itself => {
            let itself = RUNGS.wrapping_add(var).wrapping_sub(1);
            push_step(log, StepKind::Learned, &[literal], &[itself])
        }
    }
}

/// The steps that climb the ladder, each with one variable as its clause; some of them are wrong.
fn climb(alloc: Global, wrong: &[Wrong]) -> Result<Log, NoMemory> {
    let mut log = Log::new(alloc);
    for var in 2..RUNGS + 1 {
        match wrong.iter().find(|w| w.0 == var - 1) {
            Some((_, fault)) => push_wrong(&mut log, var, *fault)?,
            None => {
                let (literal, chain) = rung(var);
                push_step(&mut log, StepKind::Learned, &[literal], &chain)?;
            }
        }
    }
    Ok(log)
}

/// The number of the least refused step, by so many workers; 0 where the log is accepted.
fn refused_by<G: Gate + Sync>(
    rt: &(impl Abort + AllocGlobal + Threads + Sync),
    form: &Form,
    blocks: &[Clause],
    log: &Log,
    workers: u32,
    gate: &G,
) -> Result<u32, NoMemory>
    requires some { 0 < workers }
    requires most { workers ≤ 64 }
{
    assert!(rt; are_within(&form.clauses, form.vars));
    assert!(rt; blocks_are_within(blocks, form.vars));
    assert!(rt; log.len() < 1000);
    let workers = Workers {
        runtime: rt,
        gate,
        count: workers,
    };
    let claim = Claim { form, blocks, log };
    match check_log_parallel(rt.alloc(), &workers, &claim)? {
        Some(bad) => Ok(bad.n),
        None => Ok(0),
    }
}

/// That each number of workers gives that answer.
pub(super) fn assert_all_say(
    rt: &(impl Abort + AllocGlobal + Threads + Sync),
    form: &Form,
    blocks: &[Clause],
    log: &Log,
    want: u32,
) -> Result<(), NoMemory> {
    for workers in WORKERS {
        assert!(rt; 0 < workers && workers <= 64);
        let answer = refused_by(rt, form, blocks, log, workers, &FreeGate)?;
        assert!(rt; answer == want, "{workers} workers");
    }
    Ok(())
}

/// Wrong steps, and the least of them.
const LOGS: [(&[Wrong], u32); 9] = [
    (&[], 0),
    (&[(1, Fault::Chain)], 1),
    (&[(100, Fault::Chain)], 100),
    (&[(51, Fault::Itself), (50, Fault::Chain)], 50),
    (
        &[(99, Fault::Block), (16, Fault::Block), (70, Fault::Block)],
        16,
    ),
    (&[(31, Fault::Variable)], 31),
    (
        &[
            (30, Fault::Chain),
            (31, Fault::Variable),
            (100, Fault::Chain),
        ],
        30,
    ),
    (&[(15, Fault::Variable), (14, Fault::Itself)], 14),
    (&[(2, Fault::Variable), (98, Fault::Variable)], 2),
];

#[test]
fn each_number_of_workers_names_the_least_refused_step(rt: HostRuntime) -> Result<(), Fail> {
    let form = ladder(rt.alloc())?;
    for (wrong, want) in &LOGS {
        let log = climb(rt.alloc(), wrong)?;
        assert_all_say(&rt, &form, &[], &log, *want)?;
    }
    Ok(())
}

#[test]
fn a_block_without_a_step_is_found_behind_all_pieces(rt: HostRuntime) -> Result<(), Fail> {
    let form = ladder(rt.alloc())?;
    let mut blocks = Vec::new(rt.alloc());
    let literals = [positive(8)];
    if has_distinct_variables(&literals) {
        blocks.push(Clause::new(rt.alloc(), &literals)?)?;
    }
    let log = climb(rt.alloc(), &[])?;
    assert_all_say(&rt, &form, &blocks, &log, 101)?;
    assert_all_say(&rt, &form, &blocks, &Log::new(rt.alloc()), 1)?;
    assert_all_say(&rt, &form, &[], &Log::new(rt.alloc()), 0)?;
    Ok(())
}

/// Notes which pieces have entered, each by a bit.
#[derive(Drop)]
struct Noting {
    pieces: AtomicU64,
}

impl Gate for Noting {
    fn enter(&self, piece: u32) {
        self.pieces
            .fetch_add(1u64.wrapping_shl(piece), Ordering::SeqCst);
    }
}

/// Workers, and the pieces of a log of 100 steps, each as a bit: 100, 50, 15 and 2 steps in a piece.
const PIECES: [(u32, u64); 4] = [(1, 1), (2, 3), (7, 127), (64, (1 << 50) - 1)];

#[test]
fn each_piece_passes_the_gate_once(rt: HostRuntime) -> Result<(), Fail> {
    let form = ladder(rt.alloc())?;
    let log = climb(rt.alloc(), &[(3, Fault::Variable)])?;
    for (workers, pieces) in PIECES {
        let gate = Noting {
            pieces: AtomicU64::new(0),
        };
        assert!(rt; 0 < workers && workers <= 64);
        assert!(rt; refused_by(&rt, &form, &[], &log, workers, &gate)? == 3);
        assert!(rt;
            gate.pieces.load(Ordering::SeqCst) == pieces,
            "{workers} workers"
        );
    }
    Ok(())
}

/// Holds piece 0 until piece 1 has entered, and notes that it did.
#[derive(Drop)]
struct Holding {
    entered: AtomicU64,
    note: AtomicU64,
}

impl Holding {
    fn hold(&self) {
        for _ in 0..TURNS {
            if self.entered.load(Ordering::SeqCst) == 1 {
                self.note.store(1, Ordering::SeqCst);
                return;
            }
        }
    }
}

impl Gate for Holding {
    fn enter(&self, piece: u32) {
        match piece {
            0 => self.hold(),
            1 => self.entered.store(1, Ordering::SeqCst),
            _ => {}
        }
    }
}

#[test]
fn a_piece_enters_while_the_one_before_it_is_held(rt: HostRuntime) -> Result<(), Fail> {
    let form = ladder(rt.alloc())?;
    let log = climb(rt.alloc(), &[(80, Fault::Chain)])?;
    let gate = Holding {
        entered: AtomicU64::new(0),
        note: AtomicU64::new(0),
    };
    assert!(rt; refused_by(&rt, &form, &[], &log, 2, &gate)? == 80);
    assert!(rt; gate.note.load(Ordering::SeqCst) == 1);
    Ok(())
}
