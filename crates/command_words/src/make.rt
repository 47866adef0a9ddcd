//! The words of `make`.
ghost use Rattle.std.specs.Prelude.{◌≡◌, ◌≤◌, IfOk, true, map, string_bytes};
ghost use Rattle.std.specs.List.{list_all};
ghost use Rattle.word_values.specs.Answers.{Gives, Says};
ghost use Rattle.word_values.specs.Arguments.{IsPlain};
ghost use Rattle.word_values.specs.Numbers.{AreNumbers};
ghost use Rattle.word_values.specs.Tables.{arguments_of};
ghost use Rattle.word_values.specs.Values.{is_name, kinds_in};
ghost use Rattle.word_values.specs.Views.{numbers_view};
ghost use Rattle.command_words.specs.Make.{IsMakeAsked, are_make_names, make_arguments, make_asked, make_in};
ghost use Rattle.requests.specs.Views.{make_asked as make_asked_of};
ghost use Rattle.command_words.specs.Views.{make_values};

use crate::listing::{self, ListingValues};
use loc_base::NoMemory;
use requests::MakeRequest;
use std::alloc::Global;
use word_values::{
    Given, Table, Usage, WordsErr, are_file_names, are_kinds, are_paths_once, given_by, kinds_in,
    number_from,
};

/// The values of the command's arguments.
#[derive(Clone, Copy)]
pub(crate) struct MakeValues<'a> {
    pub(crate) number: u32,
    pub(crate) design: &'a str,
    pub(crate) trace: &'a str,
    pub(crate) listing: ListingValues<'a>,
}

#[tactic(auto, unfolding(crate::specs::Make::make_arguments))]
fn make_table() -> Table<'static>
    ensures is { arguments_of result ≡ make_arguments }
    ensures plain { IsPlain (arguments_of result) }
{
    Table {
        command: "make",
        words: &["number"],
        rest: None,
        options: &[
            "size", "budget", "sets", "suspects", "workers", "log", "report", "design", "trace",
        ],
        flags: &[],
    }
}

/// The values, with those that stand where an option isn't given.
fn values_in<'a>(given: &Given<'a>) -> Result<MakeValues<'a>, Usage>
    ensures says { Says make_values (make_in given.entry.now) result }
    ensures number { IfOk result (λ values. values.number ≤ 9999) }
    ensures numbers { IfOk result (λ values. AreNumbers (numbers_view values.listing.numbers)) }
{
    let Some(word) = given.value("number") else {
        return Err(Usage::Words);
    };
    let Some(number) = number_from(word, 0, 9999) else {
        return Err(Usage::Number);
    };
    let Some(listing) = listing::values_in(given) else {
        return Err(Usage::Number);
    };
    Ok(MakeValues {
        number,
        design: given.value_or("design", "made.v"),
        trace: given.value_or("trace", "made.vcd"),
        listing,
    })
}

/// Whether the four texts that are written have names of their own.
fn are_names(values: &MakeValues) -> bool
    ensures { result ≡ are_make_names (make_values values.now) }
{
    let names = [
        values.listing.log,
        values.listing.report,
        values.design,
        values.trace,
    ];
    are_file_names(&names) && are_paths_once(&names)
}

fn copied(alloc: Global, values: &MakeValues, suspects: &[&str]) -> Result<MakeRequest, NoMemory>
    requires kinds { kinds_in values.now.listing.suspects.now ≡ map (λ w. w.now) suspects.now }
    requires visible { list_all is_name (map (λ w. w.now) suspects.now) ≡ true }
    ensures { IfOk result (λ request. make_asked_of request ≡ make_values values.now) }
{
    Ok(MakeRequest {
        number: values.number,
        design: String::from_str(alloc, values.design)?,
        trace: String::from_str(alloc, values.trace)?,
        listing: listing::copied(alloc, &values.listing, suspects)?,
    })
}

/// What the words of the command ask for, itself the first, where kinds of suspects of these names are known: `make N [--size K]
/// [--budget B] [--sets M] [--suspects A,B] [--workers N] [--log NAME] [--report NAME] [--design NAME] [--trace NAME]`, with a
/// number of 0 to 9999; the design's text is `made.v` and the trace's `made.vcd` where the options aren't given, and the others
/// are as for `find`. The four names are four paths.
#[tactic(auto, using(word_values::proofs::KindNames::kind_rules))]
pub fn make_words(alloc: Global, words: &[String], known: &[&str]) -> Result<MakeRequest, WordsErr>
    ensures gives { Gives make_asked_of (make_asked (map (λ w. w.now) known.now) (map string_bytes words.now)) result }
    ensures holds { IfOk result (λ words. IsMakeAsked (map (λ w. w.now) known.now) (make_asked_of words)) }
{
    let Some(given) = given_by(alloc, make_table(), words)? else {
        return Err(WordsErr::Usage(Usage::Words));
    };
    let values = values_in(&given)?;
    if !are_names(&values) {
        return Err(WordsErr::Usage(Usage::Name));
    }
    let suspects = kinds_in(alloc, values.listing.suspects)?;
    if !are_kinds(&suspects, known) {
        return Err(WordsErr::Usage(Usage::Kind));
    }
    Ok(copied(alloc, &values, &suspects)?)
}
