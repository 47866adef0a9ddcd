//! Ranges of declarations (IEEE 1364-2005, 4.3.1).
ghost use Rattle.std.specs.Prelude.{◌≡◌, ◌≤◌};
ghost use Rattle.v_sizes.specs.Selected.{count_between};
ghost use Rattle.v_hierarchy.specs.Constants.{width};
ghost use Rattle.v_hierarchy.specs.Names.{same_bounds, agree};

/// The indexes of the leftmost and of the rightmost bit.
#[derive(Clone, Copy, Debug, PartialEq, Eq)]
pub struct Bounds {
    pub left: i32,
    pub right: i32,
}

/// The number of indexes from one bound to another, at most 2^32.
pub fn count_between(left: i32, right: i32) -> u64
    ensures { result ≡ count_between left right }
{
    let left = i64::from(left);
    let right = i64::from(right);
    let distance = if left < right {
        right - left
    } else {
        left - right
    };
    distance as u64 + 1
}

impl Bounds {
    /// The number of bits.
    pub fn width(self) -> u8
        requires { width self ≤ 128 }
        ensures { result ≡ width self }
    {
        count_between(self.left, self.right) as u8
    }

    /// Whether both ends are the same.
    pub(crate) fn is_same(self, other: Bounds) -> bool
        ensures { result ≡ same_bounds self other }
    {
        self.left == other.left && self.right == other.right
    }
}

/// Whether two ranges, where both are given, are the same.
pub(crate) fn agree(one: Option<Bounds>, other: Option<Bounds>) -> bool
    ensures { result ≡ agree one other }
{
    match (one, other) {
        (Some(one), Some(other)) => one.is_same(other),
        _ => true,
    }
}
