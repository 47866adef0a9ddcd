//! What a list is asked with.
ghost use Rattle.std.specs.Prelude.{◌≡◌, IfOk, IfSome, option_map, true, map};
ghost use Rattle.std.specs.List.{list_all};
ghost use Rattle.requests.specs.Views.{listing_asked};
ghost use Rattle.word_values.specs.Numbers.{AreNumbers};
ghost use Rattle.word_values.specs.Values.{is_name, kinds_in};
ghost use Rattle.word_values.specs.Views.{numbers_view};
ghost use Rattle.command_words.specs.Listing.{listing_in};
ghost use Rattle.command_words.specs.Views.{listing_values};

use loc_base::NoMemory;
use requests::Listing;
use std::alloc::Global;
use word_values::{Given, Numbers, names_of, numbers_in};

/// The values of a list's options.
#[derive(Clone, Copy)]
pub(crate) struct ListingValues<'a> {
    pub(crate) suspects: &'a str,
    pub(crate) numbers: Numbers,
    pub(crate) log: &'a str,
    pub(crate) report: &'a str,
}

/// The values, with those that stand where an option isn't given.
pub(crate) fn values_in<'a>(given: &Given<'a>) -> Option<ListingValues<'a>>
    ensures values { option_map listing_values result ≡ listing_in given.now }
    ensures numbers { IfSome result (λ values. AreNumbers (numbers_view values.numbers)) }
{
    Some(ListingValues {
        suspects: given.value_or("suspects", "stmt"),
        numbers: numbers_in(given)?,
        log: given.value_or("log", "localise.log"),
        report: given.value_or("report", "localise.json"),
    })
}

/// A copy of the values, with the kinds of suspects that they name.
pub(crate) fn copied(
    alloc: Global,
    values: &ListingValues,
    suspects: &[&str],
) -> Result<Listing, NoMemory>
    requires kinds { kinds_in values.now.suspects.now ≡ map (λ w. w.now) suspects.now }
    requires visible { list_all is_name (map (λ w. w.now) suspects.now) ≡ true }
    ensures { IfOk result (λ copy. listing_asked copy ≡ listing_values values.now) }
{
    Ok(Listing {
        suspects: names_of(alloc, suspects)?,
        size: values.numbers.size,
        budget: values.numbers.budget,
        sets: values.numbers.sets,
        workers: values.numbers.workers,
        log: String::from_str(alloc, values.log)?,
        report: String::from_str(alloc, values.report)?,
    })
}
