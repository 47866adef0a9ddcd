//! The words of `check`.
ghost use Rattle.std.specs.Prelude.{◌≡◌, IfOk, true, map, string_bytes};
ghost use Rattle.word_values.specs.Answers.{Gives, Says};
ghost use Rattle.word_values.specs.Arguments.{IsPlain};
ghost use Rattle.word_values.specs.Numbers.{IsFrom};
ghost use Rattle.word_values.specs.Tables.{arguments_of};
ghost use Rattle.command_words.specs.Check.{IsCheckAsked, are_check_names, check_arguments, check_asked, check_in};
ghost use Rattle.requests.specs.Views.{check_asked as check_asked_of};
ghost use Rattle.command_words.specs.Views.{check_values};

use crate::texts;
use loc_base::NoMemory;
use requests::CheckRequest;
use std::alloc::Global;
use word_values::{
    Given, Sources, Table, Usage, WordsErr, are_source_names, given_by, is_file_name,
    is_reading_known, sources_in, workers_in,
};

/// The values of the command's arguments.
#[derive(Clone, Copy)]
pub(crate) struct CheckValues<'m, 'a> {
    pub(crate) texts: Sources<'m, 'a>,
    pub(crate) report: &'a str,
    pub(crate) log: &'a str,
    pub(crate) workers: u32,
}

#[tactic(auto, unfolding(crate::specs::Check::check_arguments))]
fn check_table() -> Table<'static>
    ensures is { arguments_of result ≡ check_arguments }
    ensures plain { IsPlain (arguments_of result) }
{
    Table {
        command: "check",
        words: &["design", "top", "report", "log"],
        rest: Some("trace"),
        options: &["workers", "format", "scope", "x-inputs"],
        flags: &[],
    }
}

/// The values, with the number of workers that stands where the option isn't given.
fn values_in<'m, 'a>(given: &'m Given<'a>) -> Result<CheckValues<'m, 'a>, Usage>
    ensures says { Says check_values (check_in given.entry.now) result }
    ensures workers { IfOk result (λ values. IsFrom 1 64 values.workers) }
{
    let Some(texts) = sources_in(given) else {
        return Err(Usage::Words);
    };
    let Some(report) = given.value("report") else {
        return Err(Usage::Words);
    };
    let Some(log) = given.value("log") else {
        return Err(Usage::Words);
    };
    let Some(workers) = workers_in(given) else {
        return Err(Usage::Number);
    };
    Ok(CheckValues {
        texts,
        report,
        log,
        workers,
    })
}

/// Whether the names are names, and there are 1 to 256 traces.
fn are_names(values: &CheckValues) -> bool
    ensures { result ≡ are_check_names (check_values values.now) }
{
    are_source_names(&values.texts) && is_file_name(values.report) && is_file_name(values.log)
}

fn copied(alloc: Global, values: &CheckValues) -> Result<CheckRequest, NoMemory>
    requires { are_check_names (check_values values.now) ≡ true }
    ensures { IfOk result (λ request. check_asked_of request ≡ check_values values.now) }
{
    Ok(CheckRequest {
        texts: texts::copied(alloc, &values.texts)?,
        report: String::from_str(alloc, values.report)?,
        log: String::from_str(alloc, values.log)?,
        workers: values.workers,
    })
}

/// What the words of the command ask for, itself the first: `check DESIGN TOP REPORT LOG TRACE.. [--workers N]
/// [--format F] [--scope S] [--x-inputs 0]`, with 1 to 256 traces, 1 to 64 workers (without the option 1), and a design in `verilog` (so
/// too without the option) or in `aiger`.
pub fn check_words(alloc: Global, words: &[String]) -> Result<CheckRequest, WordsErr>
    ensures gives { Gives check_asked_of (check_asked (map string_bytes words.now)) result }
    ensures holds { IfOk result (λ words. IsCheckAsked (check_asked_of words)) }
{
    let Some(given) = given_by(alloc, check_table(), words)? else {
        return Err(WordsErr::Usage(Usage::Words));
    };
    let values = values_in(&given)?;
    if !is_reading_known(&given) || !are_names(&values) {
        return Err(WordsErr::Usage(Usage::Name));
    }
    Ok(copied(alloc, &values)?)
}
