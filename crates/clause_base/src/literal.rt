/// A literal: a variable, or its negation.
#[derive(Clone, Copy, Debug, PartialEq, Eq, Default)]
pub struct Lit {
    pub var: u32,
    pub negated: bool,
}

impl Lit {
    ghost use Rattle.std.specs.Prelude.{◌≡◌};
    ghost use Rattle.clause_base.specs.Literal.{opposite};

    /// The literal of the same variable and the other sign.
    pub fn opposite(self) -> Lit
        ensures { result ≡ opposite self }
    {
        Lit {
            var: self.var,
            negated: !self.negated,
        }
    }
}
