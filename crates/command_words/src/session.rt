//! The words of a session that `find` goes on from.
ghost use Rattle.std.specs.Prelude.{◌≡◌, IfOk};
ghost use Rattle.std.specs.List.{list_any};
ghost use Rattle.std.specs.Option.{option_map};
ghost use Rattle.requests.specs.Views.{session_names};
ghost use Rattle.word_values.specs.Answers.{Says};
ghost use Rattle.word_values.specs.Paths.{is_path_of_one, path_begins};
ghost use Rattle.word_values.specs.Values.{option_all};
ghost use Rattle.command_words.specs.Session.{are_session_names, session_in, session_texts};
ghost use Rattle.command_words.specs.Views.{session_values};

use loc_base::NoMemory;
use requests::SessionNames;
use std::alloc::Global;
use word_values::{Given, Usage, is_file_name, one_path_begins_with};

/// The names of its report and of its log, as they are given.
#[derive(Clone, Copy)]
pub(crate) struct SessionValues<'a> {
    pub(crate) report: &'a str,
    pub(crate) log: &'a str,
}

/// Both names, or neither.
pub(crate) fn values_in<'a>(given: &Given<'a>) -> Result<Option<SessionValues<'a>>, Usage>
    ensures { Says (option_map session_values) (session_in given.now) result }
{
    match (given.value("resume"), given.value("resume-log")) {
        (Some(report), Some(log)) => Ok(Some(SessionValues { report, log })),
        (None, None) => Ok(None),
        (Some(_), None) | (None, Some(_)) => Err(Usage::Name),
    }
}

/// Whether they are names of files, where there are such.
pub(crate) fn are_names(session: Option<SessionValues>) -> bool
    ensures { result ≡ option_all are_session_names (option_map session_values session.entry) }
{
    match session {
        Some(names) => is_file_name(names.report) && is_file_name(names.log),
        None => true,
    }
}

/// Whether a name is, as a path, that of one of its texts.
pub(crate) fn is_path_of_one(session: Option<SessionValues>, name: &str) -> bool
    ensures { result ≡ is_path_of_one (session_texts (option_map session_values session.entry)) name.now }
{
    match session {
        Some(names) => word_values::is_path_of_one(&[names.report, names.log], name),
        None => false,
    }
}

/// Whether the name of one of its texts begins, as a path, with another.
pub(crate) fn one_begins_with(session: Option<SessionValues>, front: &str) -> bool
    ensures { result ≡ list_any (path_begins front.now) (session_texts (option_map session_values session.entry)) }
{
    match session {
        Some(names) => one_path_begins_with(&[names.report, names.log], front),
        None => false,
    }
}

/// A copy of the names.
pub(crate) fn copied(
    alloc: Global,
    session: Option<SessionValues>,
) -> Result<Option<SessionNames>, NoMemory>
    ensures { IfOk result (λ names. option_map session_names names ≡ option_map session_values session.entry) }
{
    match session {
        Some(names) => Ok(Some(SessionNames {
            report: String::from_str(alloc, names.report)?,
            log: String::from_str(alloc, names.log)?,
        })),
        None => Ok(None),
    }
}
