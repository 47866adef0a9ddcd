ghost use Rattle.std.specs.Prelude.{◌≡◌, ◌<◌, ◌↔◌, IsTrue, true, false, length, Contains};
ghost use Rattle.design_core.specs.Works.{IsWithin};
ghost use Rattle.plain_list.specs.Search.{members_of, ContainsOne};

use design_core::SetWithValues;

/// Whether a number is a member of a set.
fn is_member(set: &[u32], member: u32) -> bool
    ensures { IsTrue result ↔ Contains set.now member }
{
    set.contains(&member)
}

/// Whether each member of the one set is one of the other.
fn is_within(inner: &[u32], outer: &[u32]) -> bool
    ensures { IsTrue result ↔ IsWithin inner.now outer.now }
{
    for i in 0..inner.len() {
        if !is_member(outer, inner[i]) {
            return false;
        }
    }
    true
}

/// Whether a set contains one of those found.
pub(crate) fn contains_one(found: &[SetWithValues], set: &[u32]) -> bool
    ensures { IsTrue result ↔ ContainsOne (members_of found.now) set.now }
{
    for listed in found {
        if is_within(listed.members.as_slice(), set) {
            return true;
        }
    }
    false
}
