//! The listing that is to be done.
ghost use Rattle.std.specs.Prelude.{◌≡◌};
ghost use Rattle.load_problem.specs.Inputs.{problem_in};
ghost use Rattle.list_writer.specs.Asked.{no_session};
ghost use Rattle.list_writer.specs.Jobs.{asked_of as job_asked};
ghost use Rattle.find_cmd.specs.Finding.{listing_of};
ghost use Rattle.find_cmd.specs.Views.{list_asked};

use crate::request::ListRequest;
use list_writer::Job;
use load_problem::Inputs;

/// The listing of what was read.
pub(crate) fn job_of<'a>(inputs: &'a Inputs, request: &'a ListRequest<'_>) -> Job<'a>
    ensures { job_asked result ≡ listing_of (list_asked request.now)
        (problem_in inputs.now request.now.listing.now.size) inputs.now.digest no_session }
{
    let listing = request.listing;
    Job {
        question: inputs.question(listing.size),
        budget: listing.budget,
        sets: listing.sets,
        log: listing.log.as_str(),
        report: listing.report.as_str(),
        waves: request.waves,
        checkpoints: request.checkpoints,
        inputs: inputs.digest,
        top: &request.sources.texts.top,
        clock: request.sources.clock,
        kinds: &listing.suspects,
    }
}
