//! Whether names can be the kinds of a report.

ghost use Rattle.std.specs.Prelude.{◌≢◌, ◌↔◌, IsTrue, All, AllPairs};
ghost use Rattle.report_doc.specs.Shape.{AreKinds};

use loc_base::Name;

/// Whether a name is none of some.
fn is_new(name: &Name, names: &[Name]) -> bool
    ensures { IsTrue result ↔ All (λ other. other ≢ name.now) names.now }
{
    names
        .iter()
        .all(|other| other.as_bytes() != name.as_bytes())
}

/// Whether each name stands once.
fn are_once(names: &[Name]) -> bool
    ensures { IsTrue result ↔ AllPairs (λ one other. one ≢ other) names.now }
{
    for place in 0..names.len() {
        if !is_new(&names[place], &names[..place]) {
            return false;
        }
    }
    true
}

/// Whether names can be the kinds of a report: there are some, and each stands once.
pub fn are_kinds(names: &[Name]) -> bool
    ensures { IsTrue result ↔ AreKinds names.now }
{
    !names.is_empty() && are_once(names)
}
