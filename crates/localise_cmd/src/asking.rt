//! What arguments ask for.
ghost use Rattle.std.specs.Prelude.{IfOk, map, string_bytes};
ghost use Rattle.word_values.specs.Answers.{Gives};
ghost use Rattle.requests.specs.Views.{asked_of};
ghost use Rattle.command_words.specs.Asked.{IsAsked};
ghost use Rattle.command_words.specs.Words.{asked};

use crate::kinds::names_of;
use command_words::{WordsErr, request};
use requests::Request;
use std::alloc::Global;
use suspect_map::Granularity;

/// What arguments ask for, where there are these kinds of suspects.
pub(crate) fn request_by(
    alloc: Global,
    words: &[String],
    kinds: &[Box<dyn Granularity>],
) -> Result<Request, WordsErr>
    ensures gives { Gives asked_of (asked (map (λ kind. called kind) kinds.now) (map string_bytes words.now)) result }
    ensures holds { IfOk result (λ request. IsAsked (map (λ kind. called kind) kinds.now) (asked_of request)) }
{
    let known = names_of(alloc, kinds)?;
    request(alloc, words, &known)
}
