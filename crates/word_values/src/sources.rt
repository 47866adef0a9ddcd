//! What says which texts are read.
ghost use Rattle.std.specs.Prelude.{◌≡◌, option_map};
ghost use Rattle.word_values.specs.Sources.{are_source_names, sources_in};
ghost use Rattle.word_values.specs.Views.{sources_view};

use crate::formats::{are_zero_inputs, format_in};
use crate::given::Given;
use crate::values::{are_file_names, is_file_name, is_name, is_name_if};
use front_end::Format;

/// The name of the design's text and its format, the names of the module that is the top and of the traces' texts, the path of the scope
/// that is read of these, and whether their unknown inputs are 0.
#[derive(Clone, Copy)]
pub struct Sources<'m, 'a> {
    pub design: &'a str,
    pub format: Format,
    pub top: &'a str,
    pub traces: &'m [&'a str],
    pub scope: Option<&'a str>,
    pub zero_inputs: bool,
}

/// What is given of them; there are all where the words stand as the table of a command that has the three says.
pub fn sources_in<'m, 'a>(given: &'m Given<'a>) -> Option<Sources<'m, 'a>>
    ensures { option_map sources_view result ≡ sources_in given.entry.now }
{
    Some(Sources {
        design: given.value("design")?,
        format: format_in(given),
        top: given.value("top")?,
        traces: given.values("trace")?,
        scope: given.value("scope"),
        zero_inputs: are_zero_inputs(given),
    })
}

/// Whether the names are names, and there are 1 to 256 traces.
pub fn are_source_names(sources: &Sources) -> bool
    ensures { result ≡ are_source_names (sources_view sources.now) }
{
    is_file_name(sources.design)
        && is_name(sources.top)
        && are_file_names(sources.traces)
        && !sources.traces.is_empty()
        && sources.traces.len() <= 256
        && is_name_if(sources.scope)
}
