//! The homes of signals: the first word of a signal's array, and the signal itself where it is no word of one.
ghost use Rattle.std.specs.Prelude.{◌≡◌, ◌==◌, ◌<◌, ◌≤◌, ℕ, All, length};
ghost use Rattle.design_rules.specs.Assignments.{home_of, part_of};

use design_core::Part;

/// The homes of signals, and a number that is above all of them and no less than that of the signals.
#[derive(Clone, Copy)]
pub(crate) struct Homes<'a> {
    pub(crate) list: &'a [u32],
    pub(crate) count: usize,
}

/// A number that is no less than one and above another.
fn past(count: usize, home: u32) -> usize
    ensures kept { count ≤ result }
    ensures more { home < result }
{
    if (home as usize) < count {
        count
    } else {
        home as usize + 1
    }
}

/// A number above some others, and no less than a positive one.
fn above(list: &[u32], least: usize) -> usize
    requires { 1 ≤ least }
    ensures all { All (λ h. h < result) list.now }
    ensures least { least ≤ result }
{
    let mut count = least;
    for home in list {
        count = past(count, *home);
    }
    count
}

impl<'a> Homes<'a> {
    /// Those of so many signals.
    pub(crate) fn of(list: &'a [u32], signals: usize) -> Homes<'a>
        ensures list { result.list.now ≡ list.now }
        ensures all { All (λ h. h < result.count) list.now }
        ensures positive { 1 ≤ result.count }
        ensures signals { signals ≤ result.count }
    {
        Homes {
            list,
            count: above(list, signals.max(1)),
        }
    }
}

/// The home of a signal, 0 where the list has none for it.
pub(crate) fn home_of(homes: &[u32], signal: usize) -> u32
    ensures { result ≡ home_of homes.now signal }
{
    if signal < homes.len() {
        homes[signal]
    } else {
        0
    }
}

/// The home of the signal that a part names, of its first word where it names a word of an array.
pub(crate) fn part_home(homes: &[u32], part: &Part) -> u32
    ensures { (h : ℕ) → part_of homes.now h part.now ≡ (result == h) }
{
    match part {
        Part::Whole(signal) => home_of(homes, *signal as usize),
        Part::Slice { signal, .. } => home_of(homes, *signal as usize),
        Part::Pick { signal, .. } => home_of(homes, *signal as usize),
        Part::Word { first, .. } => home_of(homes, *first as usize),
    }
}
