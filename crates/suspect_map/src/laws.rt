//! Laws of the definitions. Each is the contract of a function that does nothing, over values that no code holds.
ghost use Rattle.std.specs.Prelude.{◌≡◌, ℕ, List};
ghost use Rattle.suspect_map.specs.Groups.{groups_of};
ghost use Rattle.suspect_map.specs.Suspects.{AreSuspects, TestsKeys, TwoGroupings};

/// The suspects by keys are those of the places: each is of one key, whole and with some place, and they stand in the order of
/// their least places.
pub fn groups_are_suspects()
    ghost of: { TwoGroupings ℕ }
    requires { TestsKeys of.grouping }
    ensures { AreSuspects of.grouping of.kind of.places (groups_of of.grouping of.kind of.places) }
{}

/// There is one such list.
pub fn same_suspects()
    ghost of: { TwoGroupings ℕ }
    requires one { AreSuspects of.grouping of.kind of.places of.one }
    requires other { AreSuspects of.grouping of.kind of.places of.other }
    ensures { of.one ≡ of.other }
{}

/// The suspects by names are those of the places, as `groups_are_suspects` says it of numbers.
pub fn groups_by_name_are_suspects()
    ghost of: { TwoGroupings (List ℕ) }
    requires { TestsKeys of.grouping }
    ensures { AreSuspects of.grouping of.kind of.places (groups_of of.grouping of.kind of.places) }
{}

/// There is one such list by names.
pub fn same_suspects_by_name()
    ghost of: { TwoGroupings (List ℕ) }
    requires one { AreSuspects of.grouping of.kind of.places of.one }
    requires other { AreSuspects of.grouping of.kind of.places of.other }
    ensures { of.one ≡ of.other }
{}
