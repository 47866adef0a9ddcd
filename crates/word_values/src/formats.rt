//! How texts are read: the format of the design's, and whether unknown inputs of the traces are 0.
ghost use Rattle.std.specs.Prelude.{◌≡◌};
ghost use Rattle.word_values.specs.Formats.{are_zero_inputs, format_of, format_word, is_format, is_reading_known, is_zero_word};

use crate::given::Given;
use front_end::Format;

/// What the option names; `verilog`, where it isn't given.
fn format_word<'a>(given: &Given<'a>) -> &'a str
    ensures { result.now ≡ format_word given.now }
{
    given.value_or("format", "verilog")
}

/// Whether the format that is named is one.
fn is_format_known(given: &Given<'_>) -> bool
    ensures { result ≡ is_format (format_word given.now) }
{
    let word = format_word(given);
    word == "verilog" || word == "aiger"
}

/// Whether what is named for unknown inputs, if something is, is 0.
fn is_zero_word(given: &Given<'_>) -> bool
    ensures { result ≡ is_zero_word given.now }
{
    match given.value("x-inputs") {
        Some(word) => word == "0",
        None => true,
    }
}

/// Whether texts can be read as the words say: the format is one, and what is named for unknown inputs, if something is, is 0.
pub fn is_reading_known(given: &Given<'_>) -> bool
    ensures { result ≡ is_reading_known given.now }
{
    is_format_known(given) && is_zero_word(given)
}

/// Whether unknown inputs are to be read as 0.
pub(crate) fn are_zero_inputs(given: &Given<'_>) -> bool
    ensures { result ≡ are_zero_inputs given.now }
{
    given.value("x-inputs").is_some()
}

/// The format that is named; one that isn't known counts as Verilog.
pub(crate) fn format_in(given: &Given<'_>) -> Format
    ensures { result ≡ format_of (format_word given.now) }
{
    if format_word(given) == "aiger" {
        Format::Aiger
    } else {
        Format::Verilog
    }
}
