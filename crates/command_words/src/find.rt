//! The words of `find`.
ghost use Rattle.std.specs.Prelude.{◌≡◌, ◌++◌, IfOk, codes, true, map, string_bytes};
ghost use Rattle.std.specs.List.{list_all, list_any};
ghost use Rattle.std.specs.Option.{option_map};
ghost use Rattle.word_values.specs.Answers.{Gives, Says};
ghost use Rattle.word_values.specs.Arguments.{IsPlain};
ghost use Rattle.word_values.specs.Numbers.{AreNumbers};
ghost use Rattle.word_values.specs.Tables.{arguments_of};
ghost use Rattle.word_values.specs.Paths.{path_begins};
ghost use Rattle.word_values.specs.Values.{is_name, kinds_in, option_all};
ghost use Rattle.word_values.specs.Views.{numbers_view};
ghost use Rattle.command_words.specs.Find.{IsFindAsked, are_find_names, are_fronts_apart, are_prefixes_apart, are_written_names, find_arguments};
ghost use Rattle.command_words.specs.Find.{find_asked, find_in, is_own, is_prefix, other_names};
ghost use Rattle.requests.specs.Views.{find_asked as find_asked_of};
ghost use Rattle.command_words.specs.Views.{find_values};

use crate::listing::{self, ListingValues};
use crate::session::{self, SessionValues};
use crate::sim::{self, SimValues};
use loc_base::NoMemory;
use requests::FindRequest;
use std::alloc::Global;
use word_values::{
    Given, Table, Usage, WordsErr, are_kinds, given_by, is_file_name, is_path_of_one,
    is_reading_known, is_same_path, kinds_in, one_path_begins_with, path_begins_with, text_if,
};

/// The values of the command's arguments.
#[derive(Clone, Copy)]
pub(crate) struct FindValues<'m, 'a> {
    /// What is read, as `sim` has it.
    pub(crate) sources: SimValues<'m, 'a>,
    pub(crate) listing: ListingValues<'a>,
    pub(crate) resume: Option<SessionValues<'a>>,
    pub(crate) waves: Option<&'a str>,
    pub(crate) checkpoints: Option<&'a str>,
}

#[tactic(auto, unfolding(crate::specs::Find::find_arguments))]
fn find_table() -> Table<'static>
    ensures is { arguments_of result ≡ find_arguments }
    ensures plain { IsPlain (arguments_of result) }
{
    Table {
        command: "find",
        words: &["design", "top"],
        rest: Some("trace"),
        options: &[
            "clock",
            "size",
            "budget",
            "sets",
            "suspects",
            "workers",
            "log",
            "report",
            "resume",
            "resume-log",
            "waves",
            "checkpoint",
            "format",
            "scope",
            "x-inputs",
        ],
        flags: &[],
    }
}

/// The values, with those that stand where an option isn't given.
fn values_in<'m, 'a>(given: &'m Given<'a>) -> Result<FindValues<'m, 'a>, Usage>
    ensures says { Says find_values (find_in given.entry.now) result }
    ensures numbers { IfOk result (λ values. AreNumbers (numbers_view values.listing.numbers)) }
{
    let sources = sim::values_in(given)?;
    let Some(listing) = listing::values_in(given) else {
        return Err(Usage::Number);
    };
    Ok(FindValues {
        sources,
        listing,
        resume: session::values_in(given)?,
        waves: given.value("waves"),
        checkpoints: given.value("checkpoint"),
    })
}

/// Whether nothing that is read lies there.
#[tactic(auto, using(crate::proofs::ReadNames::name_rules))]
fn is_own(values: &FindValues, name: &str) -> bool
    ensures { result ≡ is_own (find_values values.now) name.now }
{
    !is_same_path(name, values.sources.texts.design)
        && !is_path_of_one(values.sources.texts.traces, name)
        && !session::is_path_of_one(values.resume, name)
}

/// Whether the log and the report have paths of their own.
fn are_written_names(values: &FindValues) -> bool
    ensures { result ≡ are_written_names (find_values values.now) }
{
    is_file_name(values.listing.log)
        && is_file_name(values.listing.report)
        && !is_same_path(values.listing.log, values.listing.report)
        && is_own(values, values.listing.log)
        && is_own(values, values.listing.report)
}

/// What the names of waves, or of checkpoints, begin with: the prefix and `-`.
fn front_of(alloc: Global, prefix: &str) -> Result<String, NoMemory>
    ensures { IfOk result (λ front. string_bytes front ≡ prefix.now ++ codes "-") }
{
    let mut front = String::from_str(alloc, prefix)?;
    front.push_str("-")?;
    Ok(front)
}

/// Whether a name other than a wave's or a checkpoint's begins so, as a path.
#[tactic(auto, using(crate::proofs::ReadNames::name_rules))]
fn one_begins_with(values: &FindValues, front: &str) -> bool
    ensures { result ≡ list_any (path_begins front.now) (other_names (find_values values.now)) }
{
    path_begins_with(values.sources.texts.design, front)
        || path_begins_with(values.listing.log, front)
        || path_begins_with(values.listing.report, front)
        || one_path_begins_with(values.sources.texts.traces, front)
        || session::one_begins_with(values.resume, front)
}

/// Whether the names of waves, or of checkpoints, may begin with it.
fn is_prefix(alloc: Global, values: &FindValues, prefix: &str) -> Result<bool, NoMemory>
    ensures { IfOk result (λ passes. passes ≡ is_prefix (find_values values.now) prefix.now) }
{
    let front = front_of(alloc, prefix)?;
    Ok(is_file_name(prefix) && !one_begins_with(values, front.as_str()))
}

fn is_prefix_if(alloc: Global, values: &FindValues, prefix: Option<&str>) -> Result<bool, NoMemory>
    ensures { IfOk result (λ passes. passes
        ≡ option_all (is_prefix (find_values values.now)) (option_map (λ word. word.now) prefix.entry)) }
{
    match prefix {
        Some(prefix) => is_prefix(alloc, values, prefix),
        None => Ok(true),
    }
}

/// Whether no wave's name can begin as a checkpoint's, nor the other way round, as paths.
fn are_fronts_apart(alloc: Global, waves: &str, checkpoints: &str) -> Result<bool, NoMemory>
    ensures { IfOk result (λ passes. passes ≡ are_fronts_apart waves.now checkpoints.now) }
{
    let waves = front_of(alloc, waves)?;
    let checkpoints = front_of(alloc, checkpoints)?;
    Ok(
        !path_begins_with(waves.as_str(), checkpoints.as_str())
            && !path_begins_with(checkpoints.as_str(), waves.as_str()),
    )
}

fn are_fronts_apart_if(alloc: Global, values: &FindValues) -> Result<bool, NoMemory>
    ensures { IfOk result (λ passes. passes
        ≡ are_prefixes_apart (find_values values.now).waves (find_values values.now).checkpoints) }
{
    match (values.waves, values.checkpoints) {
        (Some(waves), Some(checkpoints)) => are_fronts_apart(alloc, waves, checkpoints),
        _ => Ok(true),
    }
}

fn are_names(alloc: Global, values: &FindValues) -> Result<bool, NoMemory>
    ensures { IfOk result (λ passes. passes ≡ are_find_names (find_values values.now)) }
{
    let waves = is_prefix_if(alloc, values, values.waves)?;
    let checkpoints = is_prefix_if(alloc, values, values.checkpoints)?;
    let apart = are_fronts_apart_if(alloc, values)?;
    Ok(
        sim::are_names(&values.sources)
            && session::are_names(values.resume)
            && are_written_names(values)
            && waves
            && checkpoints
            && apart,
    )
}

fn copied(alloc: Global, values: &FindValues, suspects: &[&str]) -> Result<FindRequest, NoMemory>
    requires names { are_find_names (find_values values.now) ≡ true }
    requires kinds { kinds_in values.now.listing.suspects.now ≡ map (λ w. w.now) suspects.now }
    requires visible { list_all is_name (map (λ w. w.now) suspects.now) ≡ true }
    ensures { IfOk result (λ request. find_asked_of request ≡ find_values values.now) }
{
    Ok(FindRequest {
        reading: sim::copied(alloc, &values.sources)?,
        listing: listing::copied(alloc, &values.listing, suspects)?,
        resume: session::copied(alloc, values.resume)?,
        waves: text_if(alloc, values.waves)?,
        checkpoints: text_if(alloc, values.checkpoints)?,
    })
}

/// What the words of the command ask for, itself the first, where kinds of suspects of these names are known.
#[tactic(auto, using(word_values::proofs::KindNames::kind_rules))]
pub fn find_words(alloc: Global, words: &[String], known: &[&str]) -> Result<FindRequest, WordsErr>
    ensures gives { Gives find_asked_of (find_asked (map (λ w. w.now) known.now) (map string_bytes words.now)) result }
    ensures holds { IfOk result (λ words. IsFindAsked (map (λ w. w.now) known.now) (find_asked_of words)) }
{
    let Some(given) = given_by(alloc, find_table(), words)? else {
        return Err(WordsErr::Usage(Usage::Words));
    };
    let values = values_in(&given)?;
    if !is_reading_known(&given) || !are_names(alloc, &values)? {
        return Err(WordsErr::Usage(Usage::Name));
    }
    let suspects = kinds_in(alloc, values.listing.suspects)?;
    if !are_kinds(&suspects, known) {
        return Err(WordsErr::Usage(Usage::Kind));
    }
    Ok(copied(alloc, &values, &suspects)?)
}
