//! What texts are read by, and what the line of a refused trace names.
ghost use Rattle.std.specs.Prelude.{◌≡◌, ◌+◌, ◌<◌, ◌^◌, Some, length, slice_get};
ghost use Rattle.std.specs.Option.{option_copied};
ghost use Rattle.front_end.specs.By.{by_of as view_of};
ghost use Rattle.requests.specs.Views.{sources_asked};
ghost use Rattle.load_texts.specs.By.{by_of};

use crate::faults::TraceName;
use design_core::Design;
use front_end::ReadBy;
use loc_base::Name;
use requests::Sources;

/// What the design's text is read by.
pub(crate) fn read_by<'a>(sources: &Sources<'a>) -> ReadBy<'a>
    ensures { view_of result ≡ by_of (sources_asked sources.now) }
{
    ReadBy {
        format: sources.texts.format,
        top: &sources.texts.top,
        clock: sources.clock,
    }
}

/// The path of the scope in which the ports stand in each trace's text, where it is named.
pub(crate) fn scope_in<'a>(sources: &Sources<'a>) -> Option<&'a Name>
    ensures { option_copied result ≡ (sources_asked sources.now).texts.scope }
{
    sources.texts.scope.as_ref()
}

/// The name of the text of the trace at a place, from 0.
pub(crate) fn name_at<'a>(sources: &Sources<'a>, place: usize) -> &'a str
    requires { place < length sources.now.texts.now.traces.items }
    ensures { slice_get (sources_asked sources.now).texts.traces place ≡ Some result.now }
{
    sources.texts.traces[place].as_str()
}

/// What the line of a trace that is refused names, by the trace's place, from 0.
pub(crate) fn trace_name<'a>(
    sources: &Sources<'a>,
    design: &'a Design,
    place: usize,
) -> TraceName<'a>
    requires place { place < length sources.now.texts.now.traces.items }
    requires few { length sources.now.texts.now.traces.items < 2 ^ 32 }
    ensures number { result.number ≡ place + 1 }
    ensures name { slice_get (sources_asked sources.now).texts.traces place ≡ Some result.name.now }
    ensures signals { result.signals.now ≡ design.now.signals.items }
{
    TraceName {
        number: place as u32 + 1,
        name: name_at(sources, place),
        signals: &design.signals,
    }
}
