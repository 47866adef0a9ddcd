//! Small logs, written and read, and checked beside a second checker that searches through lists.

ghost use Rattle.std.specs.Prelude.{◌≡◌, IfOk};

mod naive;
mod parts;
mod pieces;

use clause_base::{Clause, Clauses, Form, Lit, Log, are_within, blocks_are_within};
use loc_base::NoMemory;
use proof_check::types::LogErr;
use proof_check::{Checker, log_text, named, read_log};
use std::alloc::Global;
use std::process::Abort;
use std::test::Fail;
use std::thread::Threads;

/// The first two lines of a log's text, with a digest of zeros.
const FRONT: &[u8] =
    b"localise-log 1\ninputs 0000000000000000000000000000000000000000000000000000000000000000\n";

/// A log over all four clauses of two variables and the block (-2), with a step of each kind.
const STEPS: &[u8] = b"l 1 : 1 2\nb -2\nl -1 : 3 4\nl 2 : 1 7\nd : 5 7\n";

const ONE: Lit = Lit {
    var: 1,
    negated: false,
};

const NOT_ONE: Lit = Lit {
    var: 1,
    negated: true,
};

const TWO: Lit = Lit {
    var: 2,
    negated: false,
};

const NOT_TWO: Lit = Lit {
    var: 2,
    negated: true,
};

/// All four clauses over two variables.
fn square(alloc: Global) -> Result<Form, NoMemory> {
    let mut clauses = Clauses::new(alloc);
    clauses.push(&[ONE, TWO])?;
    clauses.push(&[ONE, NOT_TWO])?;
    clauses.push(&[NOT_ONE, TWO])?;
    clauses.push(&[NOT_ONE, NOT_TWO])?;
    Ok(Form { vars: 2, clauses })
}

fn with_front(alloc: Global, steps: &[u8]) -> Result<Vec<u8>, NoMemory> {
    let mut text = Vec::from_slice(alloc, FRONT)?;
    text.extend_from_slice(steps)?;
    Ok(text)
}

/// The number of the least refused step by `check_log`; 0 where the log is accepted.
fn refused(rt: &impl Abort, checker: &mut Checker, form: &Form, blocks: &[Clause], log: &Log) -> u32
    requires { form.now.vars ≡ checker.old }
    ensures { checker.new ≡ checker.old }
{
    assert!(rt; are_within(&form.clauses, form.vars));
    assert!(rt; blocks_are_within(blocks, form.vars));
    assert!(rt; log.len() < 1000);
    match checker.check_log(form, blocks, log) {
        Some(bad) => bad.n,
        None => 0,
    }
}

/// The form with the clauses that the log names, and empty ones else.
fn named_form(alloc: Global, form: &Form, log: &Log) -> Result<Form, NoMemory>
    ensures { IfOk result (λ some. some.vars ≡ form.now.vars) }
{
    let marks = named(alloc, log, form.clauses.len())?;
    let mut clauses = Clauses::new(alloc);
    for place in 0..form.clauses.len() {
        match marks.get(place) {
            Some(true) => clauses.push(form.clauses.clause(place))?,
            _ => clauses.push(&[])?,
        }
    }
    Ok(Form {
        vars: form.vars,
        clauses,
    })
}

/// The number of the least refused step of the log whose text this is, over `square`, where the text is a log's; both
/// checkers say the same, and so do the workers, and a check over the clauses that the log names.
fn checked(
    rt: &(impl Abort + AllocGlobal + Threads + Sync),
    text: &[u8],
    blocks: &[Clause],
) -> Result<u32, LogErr> {
    let alloc = rt.alloc();
    let form = square(alloc)?;
    let read = read_log(alloc, text)?;
    let mut checker = Checker::new(alloc, form.vars)?;
    let answer = refused(rt, &mut checker, &form, blocks, &read.log);
    let slow = naive::least_refused(alloc, &form.clauses, blocks, &read.log)?;
    assert!(rt; slow.unwrap_or(0) == answer as usize);
    pieces::assert_all_say(rt, &form, blocks, &read.log, answer)?;
    let some = named_form(alloc, &form, &read.log)?;
    assert!(rt; refused(rt, &mut checker, &some, blocks, &read.log) == answer);
    Ok(answer)
}

/// The same of steps' lines.
fn steps_checked(
    rt: &(impl Abort + AllocGlobal + Threads + Sync),
    steps: &[u8],
    blocks: &[Clause],
) -> Result<u32, LogErr> {
    let text = with_front(rt.alloc(), steps)?;
    checked(rt, text.as_slice(), blocks)
}

fn not_two(alloc: Global) -> Result<Vec<Clause>, NoMemory> {
    let mut blocks = Vec::new(alloc);
    blocks.push(Clause::new(alloc, &[NOT_TWO])?)?;
    Ok(blocks)
}

/// Steps, whether (-2) is the listed block, and the number of the least refused step.
type Row = (&'static [u8], bool, u32);

/// The empty clause from all four; two clashing variables; a missing block after two steps; a log with a listed block, and the
/// same where none is listed; two bad steps; a step that names a later one.
const LOGS: [Row; 7] = [
    (b"l 1 : 1 2\nl -1 : 3 4\nd : 5 6\n", false, 0),
    (b"l : 1 4\n", false, 1),
    (b"l 1 : 1 2\nl -1 : 3 4\n", true, 3),
    (STEPS, true, 0),
    (STEPS, false, 2),
    (b"l 1 : 1 2\nl -1 : 3\nl 2 : 3\n", false, 2),
    (b"d : 6 7\nl 1 : 1 2\nl -1 : 3 4\n", false, 1),
];

#[test]
fn the_least_refused_step_is_named(rt: HostRuntime) -> Result<(), Fail> {
    let listed = not_two(rt.alloc())?;
    for (steps, is_listed, want) in &LOGS {
        let blocks = if *is_listed { listed.as_slice() } else { &[] };
        assert!(rt; steps_checked(&rt, steps, blocks)? == *want, "{steps:?}");
    }
    Ok(())
}

/// The steps' chains name the clauses 1 to 5 and 7, of which the form has four.
#[test]
fn the_numbers_of_all_chains_are_marked(rt: HostRuntime) -> Result<(), Fail> {
    let text = with_front(rt.alloc(), STEPS)?;
    let read = read_log(rt.alloc(), text.as_slice())?;
    let marks = named(rt.alloc(), &read.log, 8)?;
    let want = [true, true, true, true, true, false, true, false];
    assert_eq!(rt; marks.as_slice(), want.as_slice());
    assert_eq!(rt;
        named(rt.alloc(), &read.log, 2)?.as_slice(),
        [true, true].as_slice()
    );
    Ok(())
}

/// Which line is refused; 0 where the text is a log's.
fn bad_line(alloc: Global, text: &[u8]) -> u64 {
    match read_log(alloc, text) {
        Err(LogErr::LogSyntax { line }) => line,
        _ => 0,
    }
}

#[test]
fn a_text_without_its_first_two_lines_is_refused(rt: HostRuntime) {
    assert!(rt; bad_line(rt.alloc(), b"".as_slice()) == 1);
    assert!(rt; bad_line(rt.alloc(), b"localise-log 1\ninputs 00\n".as_slice()) == 2);
}

/// Lines behind the first two, and the line that is refused: empty clauses and blocks, which are read; a line that is cut off;
/// blocks that don't ascend; numbers with leading zeros or out of range; words that are missing or doubled.
const LINES: [(&[u8], u64); 13] = [
    (b"b\nl : 4 7\nd 4000000 : 4294967295\n", 0),
    (b"l 1 : 1 2\nd :", 4),
    (b"b -2 -1\n", 3),
    (b"b 1\n", 3),
    (b"l 01 : 1\n", 3),
    (b"l 4000001 : 1\n", 3),
    (b"l 1 : 0\n", 3),
    (b"l 1 : 4294967296\n", 3),
    (b"l 1 -1 : 1\n", 3),
    (b"l  1 : 1\n", 3),
    (b"l 1 :\n", 3),
    (b"l 1\n", 3),
    (b"\n", 3),
];

#[test]
fn the_first_line_that_is_no_step_is_named(rt: HostRuntime) -> Result<(), Fail> {
    for (steps, want) in &LINES {
        let text = with_front(rt.alloc(), steps)?;
        assert!(rt; bad_line(rt.alloc(), &text) == *want, "{steps:?}");
    }
    Ok(())
}

/// A copy of the steps with the byte at that place replaced.
fn replaced(alloc: Global, place: usize, byte: u8) -> Result<Vec<u8>, NoMemory> {
    let mut text = Vec::new(alloc);
    for (i, b) in STEPS.iter().enumerate() {
        text.push(if i == place { byte } else { *b })?;
    }
    Ok(text)
}

/// A copy of the steps without the bytes at that place and the next.
fn without(alloc: Global, place: usize) -> Result<Vec<u8>, NoMemory> {
    let mut text = Vec::new(alloc);
    for (i, b) in STEPS.iter().enumerate() {
        if i < place || i > place + 1 {
            text.push(*b)?;
        }
    }
    Ok(text)
}

/// How many of the texts are logs; on each the two checkers say the same.
fn compared(
    rt: &(impl Abort + AllocGlobal + Threads + Sync),
    steps: &[u8],
    blocks: &[Clause],
) -> Result<u32, NoMemory> {
    match steps_checked(rt, steps, blocks) {
        Ok(_) => Ok(1),
        Err(LogErr::LogSyntax { line: _ }) => Ok(0),
        Err(LogErr::NoMemory) => Err(NoMemory),
    }
}

#[test]
fn both_checkers_agree_on_logs_with_a_byte_replaced(rt: HostRuntime) -> Result<(), Fail> {
    let blocks = not_two(rt.alloc())?;
    let mut logs = 0u32;
    for place in 0..44 {
        for byte in b" -:123456789bld" {
            let steps = replaced(rt.alloc(), place, *byte)?;
            logs = logs.wrapping_add(compared(&rt, steps.as_slice(), blocks.as_slice())?);
        }
    }
    assert!(rt; logs > 100);
    Ok(())
}

#[test]
fn both_checkers_agree_on_logs_with_a_word_left_out(rt: HostRuntime) -> Result<(), Fail> {
    let blocks = not_two(rt.alloc())?;
    let mut logs = 0u32;
    for place in 0..44 {
        let steps = without(rt.alloc(), place)?;
        logs = logs.wrapping_add(compared(&rt, steps.as_slice(), blocks.as_slice())?);
    }
    assert!(rt; logs > 10);
    Ok(())
}

#[test]
fn a_log_is_written_as_it_was_read(rt: HostRuntime) -> Result<(), Fail> {
    let text = with_front(rt.alloc(), STEPS)?;
    let read = read_log(rt.alloc(), text.as_slice())?;
    let written = log_text(rt.alloc(), &read)?;
    assert_eq!(rt; written.as_slice(), text.as_slice());
    Ok(())
}
