//! What a report's list is asked of.
ghost use Rattle.std.specs.Prelude.{◌≡◌};
ghost use Rattle.requests.specs.Views.{check_asked, wanted_asked};
ghost use Rattle.check_cmd.specs.Asked.{wanted_by};

use report_doc::types::Report;
use requests::{CheckRequest, Sources, Wanted};

/// What a report's list is asked of: the clock, the kinds of suspects and the size of a set are the report's.
pub(crate) fn wanted<'a>(request: &'a CheckRequest, report: &'a Report) -> Wanted<'a>
    ensures { wanted_asked result ≡ wanted_by (check_asked request.now) report.now }
{
    Wanted {
        sources: Sources {
            texts: &request.texts,
            clock: report.clock.as_ref(),
        },
        suspects: report.kinds.as_slice(),
        size: report.size,
    }
}
