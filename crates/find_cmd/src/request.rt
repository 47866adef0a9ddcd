//! What a list is asked of, wherever its parts are kept.
ghost use Rattle.std.specs.Prelude.{◌≡◌, None};
ghost use Rattle.std.specs.Option.{option_copied};
ghost use Rattle.requests.specs.Asked.{wanted_for};
ghost use Rattle.requests.specs.Views.{find_asked, wanted_asked};
ghost use Rattle.find_cmd.specs.Views.{list_asked, with_resume};

use requests::{FindRequest, Listing, SessionNames, Sources, Wanted};

/// What a list is asked of: what is read, how far it goes, and where it is written.
#[derive(Clone, Copy, Drop)]
pub struct ListRequest<'a> {
    pub sources: Sources<'a>,
    pub listing: &'a Listing,
    /// The prefix of the waves' names, where waves are asked for.
    pub waves: Option<&'a str>,
    /// The prefix of the checkpoints' names, where they are asked for.
    pub checkpoints: Option<&'a str>,
}

/// The same, of a list that goes on from the session of the names.
#[derive(Clone, Copy, Drop)]
pub(crate) struct ResumeRequest<'a> {
    pub(crate) list: ListRequest<'a>,
    pub(crate) names: &'a SessionNames,
}

/// The prefix of the waves' names, where waves are asked for.
fn prefix_of(request: &FindRequest) -> Option<&str>
    ensures { option_copied result ≡ (find_asked request.now).waves }
{
    match &request.waves {
        Some(prefix) => Some(prefix.as_str()),
        None => None,
    }
}

/// The prefix of the checkpoints' names, where they are asked for.
fn checkpoints_of(request: &FindRequest) -> Option<&str>
    ensures { option_copied result ≡ (find_asked request.now).checkpoints }
{
    match &request.checkpoints {
        Some(prefix) => Some(prefix.as_str()),
        None => None,
    }
}

impl<'a> ListRequest<'a> {
    /// What `find` is asked, but for the session.
    pub(crate) fn of(request: &'a FindRequest) -> ListRequest<'a>
        ensures { list_asked result ≡ with_resume None (find_asked request.now) }
    {
        ListRequest {
            sources: request.reading.sources(),
            listing: &request.listing,
            waves: prefix_of(request),
            checkpoints: checkpoints_of(request),
        }
    }

    /// What is read, and which sets are listed.
    pub fn wanted(&self) -> Wanted<'a>
        ensures { wanted_asked result ≡ wanted_for (list_asked self.now) }
    {
        Wanted {
            sources: self.sources,
            suspects: &self.listing.suspects,
            size: self.listing.size,
        }
    }
}
