ghost use Rattle.std.specs.Prelude.{◌≡◌};
ghost use Rattle.gate_base.specs.Literals.{folded, is_same, opposite};

/// A constant, a node of a circuit, or a negated node.
#[derive(Clone, Copy, Debug, PartialEq, Eq)]
pub enum Literal {
    Known(bool),
    Of { node: u32, negated: bool },
}

impl Literal {
    /// The literal that is true where this one is false.
    #[tactic(auto, unfolding(crate::specs::Literals::opposite))]
    pub fn opposite(self) -> Literal
        ensures { result ≡ opposite self }
    {
        match self {
            Literal::Known(value) => Literal::Known(!value),
            Literal::Of { node, negated } => Literal::Of {
                node,
                negated: !negated,
            },
        }
    }

    /// Whether the two are the same literal.
    #[tactic(auto, unfolding(crate::specs::Literals::is_same))]
    pub fn is_same(self, other: Literal) -> bool
        ensures { result ≡ is_same self other }
    {
        match (self, other) {
            (Literal::Known(left), Literal::Known(right)) => left == right,
            (
                Literal::Of { node, negated },
                Literal::Of {
                    node: other,
                    negated: sign,
                },
            ) => node == other && negated == sign,
            _ => false,
        }
    }

    /// The AND of the two where it needs no node: one is a constant, or both are of one node.
    #[tactic(auto, unfolding(crate::specs::Literals::folded))]
    pub fn folded(self, other: Literal) -> Option<Literal>
        ensures { result ≡ folded self other }
    {
        match (self, other) {
            (Literal::Known(value), literal) | (literal, Literal::Known(value)) => {
                Some(if value {
                    literal
                } else {
                    Literal::Known(false)
                })
            }
            (
                Literal::Of { node, negated },
                Literal::Of {
                    node: other,
                    negated: sign,
                },
            ) => {
                if node != other {
                    None
                } else if negated == sign {
                    Some(self)
                } else {
                    Some(Literal::Known(false))
                }
            }
        }
    }
}
