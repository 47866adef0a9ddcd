//! What the waves of a listing are of.
ghost use Rattle.std.specs.Prelude.{◌≡◌};
ghost use Rattle.set_waves.specs.Waved.{waved_of};
ghost use Rattle.list_writer.specs.Jobs.{asked_of};
ghost use Rattle.list_writer.specs.Texts.{waved_for};

use crate::job::Job;
use set_waves::Waves;

/// What the waves are of, with a prefix of their names.
pub(crate) fn waves_under<'a>(job: &Job<'a>, prefix: &'a str) -> Waves<'a>
    ensures waved { waved_of result ≡ waved_for (asked_of job.now) }
    ensures order { result.order.now ≡ (asked_of job.now).problem.order }
    ensures prefix { result.prefix.now ≡ prefix.now }
{
    let question = &job.question;
    Waves {
        top: job.top,
        design: question.design,
        order: question.order,
        clock: job.clock,
        traces: question.traces,
        prefix,
    }
}
