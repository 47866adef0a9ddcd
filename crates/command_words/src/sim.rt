//! The words of `sim`.
ghost use Rattle.std.specs.Prelude.{◌≡◌, IfOk, true, map, string_bytes};
ghost use Rattle.word_values.specs.Answers.{Gives, Says};
ghost use Rattle.word_values.specs.Arguments.{IsPlain};
ghost use Rattle.word_values.specs.Tables.{arguments_of};
ghost use Rattle.requests.specs.Views.{reading_asked, sim_asked as sim_asked_of};
ghost use Rattle.command_words.specs.Sim.{IsSimAsked, are_sim_names, sim_arguments, sim_asked, sim_in};
ghost use Rattle.command_words.specs.Views.{sim_values};

use crate::texts;
use loc_base::NoMemory;
use requests::{Reading, SimRequest};
use std::alloc::Global;
use word_values::{
    Given, Sources, Table, Usage, WordsErr, are_source_names, given_by, is_name_if,
    is_reading_known, name_if, sources_in,
};

/// The values of the command's arguments.
#[derive(Clone, Copy)]
pub(crate) struct SimValues<'m, 'a> {
    pub(crate) texts: Sources<'m, 'a>,
    pub(crate) clock: Option<&'a str>,
}

#[tactic(auto, unfolding(crate::specs::Sim::sim_arguments))]
fn sim_table() -> Table<'static>
    ensures is { arguments_of result ≡ sim_arguments }
    ensures plain { IsPlain (arguments_of result) }
{
    Table {
        command: "sim",
        words: &["design", "top"],
        rest: Some("trace"),
        options: &["clock", "format", "scope", "x-inputs"],
        flags: &["exit-code"],
    }
}

/// The values of the arguments that say what is read.
pub(crate) fn values_in<'m, 'a>(given: &'m Given<'a>) -> Result<SimValues<'m, 'a>, Usage>
    ensures { Says sim_values (sim_in given.entry.now) result }
{
    let Some(texts) = sources_in(given) else {
        return Err(Usage::Words);
    };
    Ok(SimValues {
        texts,
        clock: given.value("clock"),
    })
}

/// Whether the names are names, and there are 1 to 256 traces.
pub(crate) fn are_names(values: &SimValues) -> bool
    ensures { result ≡ are_sim_names (sim_values values.now) }
{
    are_source_names(&values.texts) && is_name_if(values.clock)
}

/// A copy of the values.
pub(crate) fn copied(alloc: Global, values: &SimValues) -> Result<Reading, NoMemory>
    requires { are_sim_names (sim_values values.now) ≡ true }
    ensures { IfOk result (λ reading. reading_asked reading ≡ sim_values values.now) }
{
    Ok(Reading {
        texts: texts::copied(alloc, &values.texts)?,
        clock: name_if(alloc, values.clock)?,
    })
}

/// What the words of the command ask for, itself the first.
pub fn sim_words(alloc: Global, words: &[String]) -> Result<SimRequest, WordsErr>
    ensures gives { Gives sim_asked_of (sim_asked (map string_bytes words.now)) result }
    ensures holds { IfOk result (λ request. IsSimAsked (sim_asked_of request).sources) }
{
    let Some(given) = given_by(alloc, sim_table(), words)? else {
        return Err(WordsErr::Usage(Usage::Words));
    };
    let values = values_in(&given)?;
    if !is_reading_known(&given) || !are_names(&values) {
        return Err(WordsErr::Usage(Usage::Name));
    }
    Ok(SimRequest {
        reading: copied(alloc, &values)?,
        exit_code: given.is_given("exit-code"),
    })
}
