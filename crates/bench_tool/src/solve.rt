//! `bench_tool solve [BUDGET] [--times]`: solves a formula in DIMACS CNF from standard input, checks the log of the solver, and
//! tells what came of it.
ghost use Rattle.std.specs.Prelude.{◌<◌, ◌^◌, length};
ghost use Rattle.clause_base.specs.Literal.{AreWithin};

use clause_base::Form;
use dimacs_solver::{
    Failure, Report, Request, check, failure_status, failure_text, read_form, report_on,
    report_text, request_of, solve, status_of,
};
use loc_base::Bytes;
use std::io::Read;
use std::str;
use std::time::{Duration, Instant};

/// What standard input holds.
fn read_input(rt: &HostRuntime) -> Result<Vec<u8>, Failure> {
    let mut bytes = Vec::new(rt.alloc());
    match rt.reader().read_to_end(&mut bytes) {
        Ok(_) => Ok(bytes),
        Err(_) => Err(Failure::Input),
    }
}

/// Prints a text.
fn print_text(rt: &HostRuntime, text: &Bytes) -> Result<(), Failure> {
    let Ok(text) = str::from_utf8(text.as_slice()) else {
        return Err(Failure::Output);
    };
    rt.print(text)?;
    Ok(())
}

/// `NAME MS`, on standard error.
fn print_time(rt: &HostRuntime, name: &str, time: Duration) -> Result<(), Failure> {
    let micros = time.as_micros();
    let whole = micros / 1000;
    let rest = micros % 1000;
    eprintln!(rt; "{name} {whole}.{rest:03}")?;
    Ok(())
}

/// What came of a formula, and how long solving and checking took.
#[derive(Clone, Copy)]
struct Told {
    report: Report,
    solving: Duration,
    checking: Duration,
}

/// Solves and checks.
fn tell(rt: &HostRuntime, form: &Form, units: u32) -> Result<Told, Failure>
    requires within { AreWithin form.now.vars form.now.clauses }
    requires few { length form.now.clauses < 2 ^ 31 }
    requires units { units < 2 ^ 31 }
{
    let begin = Instant::now(rt)?;
    let solved = solve(rt.alloc(), form, units)?;
    let middle = Instant::now(rt)?;
    let checked = check(rt.alloc(), form, solved.solver.log())?;
    let end = Instant::now(rt)?;
    Ok(Told {
        report: report_on(form, &solved, units, checked),
        solving: middle.duration_since(begin),
        checking: end.duration_since(middle),
    })
}

/// Prints what came of a formula, and the times where they are asked for.
fn print_told(rt: &HostRuntime, told: &Told, times: bool) -> Result<(), Failure> {
    let text = report_text(rt.alloc(), &told.report)?;
    print_text(rt, &text)?;
    if times {
        print_time(rt, "solve", told.solving)?;
        print_time(rt, "check", told.checking)?;
    }
    Ok(())
}

/// Solves, checks, prints, and gives the exit status.
fn answer(rt: &HostRuntime, words: &[String]) -> Result<u8, Failure> {
    let Some(request) = request_of(words) else {
        return Err(Failure::Usage);
    };
    let form = read_form(rt.alloc(), read_input(rt)?)?;
    let told = tell(rt, &form, request.units)?;
    print_told(rt, &told, request.times)?;
    Ok(status_of(&told.report))
}

/// Solves, checks and prints, or prints why there is no answer, and gives the exit status.
pub(crate) fn run(rt: &HostRuntime, words: &[String]) -> u8 {
    match answer(rt, words) {
        Ok(status) => status,
        Err(failure) => {
            let told = failure_text(rt.alloc(), failure);
            if let Ok(text) = told {
                let _printed = rt.print(text);
            }
            failure_status(failure)
        }
    }
}
