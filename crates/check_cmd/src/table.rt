//! Whether the top and the suspects of a report are those that it is asked of.
ghost use Rattle.std.specs.Prelude.{◌≡◌, ◌<◌, ◌↔◌, All, IfSome, IsNone, IsTrue, length, map, slice_get};
ghost use Rattle.report_sets.specs.Found.{suspect_of};
ghost use Rattle.report_doc.specs.Lines.{AreWithin};
ghost use Rattle.check_cmd.specs.Table.{DifferFirst};

use design_core::Place;
use loc_base::Name;
use report_doc::line_of;
use report_doc::types::ReportSuspect;
use suspect_map::Group;

/// What of a report's top and suspects isn't as it is asked of.
#[derive(Clone, Copy, Debug)]
pub enum TableFault {
    /// Its top is another one.
    Top,
    /// The suspect of that number, from 1, is another one, is lacking, or is one too many.
    Suspect { number: usize },
}

/// Whether two names are the same.
pub(crate) fn are_same(one: &Name, other: &Name) -> bool
    ensures { IsTrue result ↔ (one.now ≡ other.now) }
{
    one.as_bytes() == other.as_bytes()
}

/// Whether a report says of a suspect what the design says of a group.
fn is_suspect(suspect: &ReportSuspect, group: &Group, places: &[Place]) -> bool
    requires { All (λ place. place < length places.now) group.now.places }
    ensures { IsTrue result ↔ (suspect.now ≡ suspect_of places.now group.now) }
{
    are_same(&suspect.kind, &group.kind)
        && are_same(&suspect.label, &group.label)
        && suspect.line == line_of(places, group.places.as_slice())
}

/// Whether the suspect at a place is the group at that place; both may have an end there.
fn is_same_at(suspects: &[ReportSuspect], groups: &[Group], places: &[Place], place: usize) -> bool
    requires { AreWithin places.now groups.now }
    ensures { IsTrue result ↔ (slice_get suspects.now place ≡ slice_get (map (suspect_of places.now) groups.now) place) }
{
    match suspects.get(place) {
        Some(suspect) => match groups.get(place) {
            Some(group) => is_suspect(suspect, group, places),
            None => false,
        },
        None => place >= groups.len(),
    }
}

/// The first suspect that isn't its group, by its number, from 1.
pub(crate) fn first_other(
    suspects: &[ReportSuspect],
    groups: &[Group],
    places: &[Place],
) -> Option<usize>
    requires { AreWithin places.now groups.now }
    ensures none { IsNone result → suspects.now ≡ map (suspect_of places.now) groups.now }
    ensures first { IfSome result (DifferFirst suspects.now (map (suspect_of places.now) groups.now)) }
{
    for place in 0..suspects.len().max(groups.len()) {
        if !is_same_at(suspects, groups, places, place) {
            return Some(place + 1);
        }
    }
    None
}
