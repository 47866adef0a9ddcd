//! `bench_tool form clauses|counts SIZE KINDS CLOCK DESIGN TOP TRACE..`: prints the form in which sets of suspects of a design are
//! searched that make traces right, in DIMACS.
//!
//! KINDS are names of kinds of suspects between commas, CLOCK is the clock's name, or `-` where there is none. `clauses` prints
//! the form; `counts` prints the numbers of nodes, variables, clauses and literals alone, and on standard error the milliseconds
//! that the circuit, the unrolling and the clauses took.
mod make;
mod request;

use crate::failure::Failure;
use crate::form::make::{Made, form_of, read_parts};
use crate::form::request::read_request;
use clause_base::Form;
use std::io::{self, BufWriter, Write};

/// Prints a form in DIMACS.
fn print_clauses(rt: &HostRuntime, form: &Form) -> Result<(), Failure> {
    let mut out = BufWriter::new(rt.alloc(), io::writer(rt))?;
    writeln!(out, "p cnf {} {}", form.vars, form.clauses.len())?;
    for place in 0..form.clauses.len() {
        for literal in form.clauses.clause(place) {
            if literal.negated {
                write!(out, "-")?;
            }
            write!(out, "{} ", literal.var)?;
        }
        writeln!(out, "0")?;
    }
    out.flush()?;
    Ok(())
}

/// How many literals the clauses have together, where an empty clause counts as one.
fn literals_in(form: &Form) -> usize {
    let mut count = 0usize;
    for place in 0..form.clauses.len() {
        count = count.saturating_add(form.clauses.clause(place).len().max(1));
    }
    count
}

/// Prints the numbers of a form.
fn print_counts(rt: &HostRuntime, made: &Made) -> Result<(), Failure> {
    let form = &made.form;
    println!(rt; "nodes {}", made.nodes)?;
    println!(rt; "variables {}", form.vars)?;
    println!(rt; "clauses {}", form.clauses.len())?;
    println!(rt; "literals {}", literals_in(form))?;
    let [circuit, unrolling, clauses] = made.times;
    eprintln!(rt; "circuit {circuit} unrolling {unrolling} clauses {clauses}")?;
    Ok(())
}

/// Makes a form and prints it. The exit status is 0.
pub(crate) fn run(rt: &HostRuntime, words: &[String]) -> Result<u8, Failure> {
    let request = read_request(rt.alloc(), words)?;
    let parts = read_parts(rt, &request)?;
    let made = form_of(rt, &parts, request.size)?;
    if request.counts {
        print_counts(rt, &made)?;
    } else {
        print_clauses(rt, &made.form)?;
    }
    Ok(0)
}
