//! Which suspects one clause shows absent.

ghost use Rattle.std.specs.Prelude.{◌≡◌, ◌<◌, ◌&&◌, ◌==◌, ℕ, false, nat_lt};
ghost use Rattle.front_cert.specs.Reaches.{Narrows, covers, is_alone, is_in, is_literal, is_nothing, may_stand, shows_absent};

use clause_base::Lit;

/// What clauses are to show: that there is no smaller set than that of the members, and none with as many before it.
#[derive(Clone, Copy)]
pub(crate) struct Target<'a> {
    pub(crate) members: &'a [u32],
    /// The bound that says that there are as many members.
    pub(crate) least: Option<Lit>,
    /// The bound that says that there are more.
    pub(crate) more: Option<Lit>,
}

/// The suspects that a clause shows absent.
#[derive(Clone, Copy)]
pub(crate) enum Reach {
    /// None.
    Nothing,
    /// `x` alone, where it is above `low`.
    Only { x: u32, low: u32 },
    /// Each above `low`.
    Above { low: u32 },
}

/// Whether there is a bound, and the literal is it.
fn is_literal(bound: Option<Lit>, literal: Lit) -> bool
    ensures { result ≡ is_literal bound literal }
{
    match bound {
        Some(bound) => bound.var == literal.var && bound.negated == literal.negated,
        None => false,
    }
}

/// Whether the clause has no literal but the bound.
pub(crate) fn is_alone(bound: Option<Lit>, clause: &[Lit]) -> bool
    ensures { result ≡ is_alone bound clause.now }
{
    clause.iter().all(|literal| is_literal(bound, *literal))
}

/// Whether the number is one of the members.
pub(crate) fn is_in(members: &[u32], number: u32) -> bool
    ensures { result ≡ is_in members.now number }
{
    members.contains(&number)
}

impl Reach {
    /// Whether there are none.
    fn is_nothing(self) -> bool
        ensures { result ≡ is_nothing self }
    {
        match self {
            Reach::Nothing => true,
            Reach::Only { x: _, low: _ } | Reach::Above { low: _ } => false,
        }
    }

    /// Those above a number.
    fn above(self, number: u32) -> Reach
        ensures { (x : ℕ) → covers result x ≡ (covers self x && nat_lt number x) }
    {
        match self {
            Reach::Nothing => Reach::Nothing,
            Reach::Only { x, low } => Reach::Only {
                x,
                low: low.max(number),
            },
            Reach::Above { low } => Reach::Above {
                low: low.max(number),
            },
        }
    }

    /// A number alone, where it is among them.
    fn only(self, number: u32) -> Reach
        ensures { (x : ℕ) → covers result x ≡ (covers self x && (number == x)) }
    {
        match self {
            Reach::Above { low } => Reach::Only { x: number, low },
            Reach::Only { x, low } if x == number => Reach::Only { x, low },
            Reach::Only { x: _, low: _ } | Reach::Nothing => Reach::Nothing,
        }
    }

    /// Those that a clause with this literal more shows absent.
    fn with(self, target: &Target, literal: Lit) -> Reach
        ensures { Narrows target.now.members.now self (λ x. may_stand target.now.members.now target.now.more x literal) result }
    {
        if is_literal(target.more, literal) {
            return self;
        }
        if !literal.negated {
            return Reach::Nothing;
        }
        if is_in(target.members, literal.var) {
            return self.above(literal.var);
        }
        self.only(literal.var)
    }
}

/// The suspects that the clause shows absent, of those that aren't members.
pub(crate) fn reach_of(target: &Target, clause: &[Lit]) -> Reach
    ensures { (x : ℕ) → 0 < x → is_in target.now.members.now x ≡ false → covers result x ≡ shows_absent target.now.members.now target.now.more x clause.now }
{
    let mut reach = Reach::Above { low: 0 };
    for literal in clause {
        reach = reach.with(target, *literal);
        if reach.is_nothing() {
            return reach;
        }
    }
    reach
}
