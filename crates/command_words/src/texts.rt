//! The texts that a command reads.
ghost use Rattle.std.specs.Prelude.{◌≡◌, IfOk, true};
ghost use Rattle.requests.specs.Views.{texts_asked};
ghost use Rattle.word_values.specs.Sources.{are_source_names};
ghost use Rattle.word_values.specs.Views.{sources_view};

use loc_base::NoMemory;
use requests::Texts;
use std::alloc::Global;
use word_values::{Sources, copies_of, name_if, name_of};

/// A copy of what is given of them.
pub(crate) fn copied(alloc: Global, texts: &Sources) -> Result<Texts, NoMemory>
    requires { are_source_names (sources_view texts.now) ≡ true }
    ensures { IfOk result (λ copy. texts_asked copy ≡ sources_view texts.now) }
{
    Ok(Texts {
        design: String::from_str(alloc, texts.design)?,
        format: texts.format,
        top: name_of(alloc, texts.top)?,
        traces: copies_of(alloc, texts.traces)?,
        scope: name_if(alloc, texts.scope)?,
        zero_inputs: texts.zero_inputs,
    })
}
