//! The lines that the program prints, and its exit status.
ghost use Rattle.std.specs.Prelude.{◌≡◌, ◌++◌, IfOk, OnOk, string_bytes};
ghost use Rattle.dimacs_solver.specs.Answer.{answer_line, count_line, log_line, model_line, report_lines, status_of};

use crate::run::Checked;
use itoa::Buffer;
use loc_base::{Bytes, NoMemory};
use sat_core::Verdict;
use std::alloc::{AllocError, Global};

/// What came of a formula: the verdict, the clauses learned, the steps and the chains' numbers of the log, what its check
/// came to, and whether the solver's values satisfy the formula.
#[derive(Clone, Copy, Debug)]
pub struct Report {
    pub verdict: Verdict,
    pub conflicts: u32,
    pub steps: usize,
    pub chain_numbers: u64,
    pub checked: Checked,
    pub satisfied: bool,
}

/// The line for a verdict.
fn answer_line(verdict: Verdict) -> &'static str
    ensures { result.now ≡ answer_line verdict }
{
    match verdict {
        Verdict::Model => "s SATISFIABLE\n",
        Verdict::Closed { step: _ } => "s UNSATISFIABLE\n",
        Verdict::Spent => "s UNKNOWN\n",
    }
}

/// The line for the check of the log.
fn log_line(alloc: Global, checked: Checked) -> Result<String, AllocError>
    ensures { IfOk result (λ line. string_bytes line ≡ log_line checked) }
{
    match checked {
        Checked::Accepted => format!(in alloc; "log accepted\n"),
        Checked::Refused { step } => format!(in alloc; "log refused at {step}\n"),
        Checked::TooLong => format!(in alloc; "log too long\n"),
    }
}

/// The line for a model.
fn model_line(verdict: Verdict, satisfied: bool) -> &'static str
    ensures { result.now ≡ model_line verdict satisfied }
{
    match verdict {
        Verdict::Model => {
            if satisfied {
                "model satisfies every clause\n"
            } else {
                "model leaves a clause false\n"
            }
        }
        Verdict::Closed { step: _ } | Verdict::Spent => "",
    }
}

/// Appends `NAME N` as a line.
fn push_count(text: &mut Bytes, name: &str, count: u64) -> Result<(), NoMemory>
    ensures { OnOk result (text.new ≡ text.old ++ count_line name.now count) }
{
    let mut buffer = Buffer::new();
    text.append(name.as_bytes())?;
    text.append(b" ")?;
    text.append(buffer.format(count).as_bytes())?;
    text.append(b"\n")
}

/// The lines of a report.
pub fn report_text(alloc: Global, report: &Report) -> Result<Bytes, NoMemory>
    ensures { IfOk result (λ text. text ≡ report_lines report.now) }
{
    let mut text = Bytes::new(alloc);
    text.append(answer_line(report.verdict).as_bytes())?;
    push_count(&mut text, "conflicts", u64::from(report.conflicts))?;
    push_count(&mut text, "steps", report.steps as u64)?;
    push_count(&mut text, "chain numbers", report.chain_numbers)?;
    text.append(log_line(alloc, report.checked)?.as_bytes())?;
    text.append(model_line(report.verdict, report.satisfied).as_bytes())?;
    Ok(text)
}

/// 10 for a model, 20 where there is none, 30 where the budget ran out; 1 where the check or the model fails.
pub fn status_of(report: &Report) -> u8
    ensures { result ≡ status_of report.now }
{
    if report.checked != Checked::Accepted {
        return 1;
    }
    match report.verdict {
        Verdict::Model => { if report.satisfied { 10 } else { 1 } }
        Verdict::Closed { step: _ } => 20,
        Verdict::Spent => 30,
    }
}
