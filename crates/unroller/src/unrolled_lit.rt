use clause_base::Lit;

/// What a bit is in a cycle: a constant, or a literal of the form.
#[derive(Clone, Copy, Debug, PartialEq, Eq)]
pub enum UnrolledLit {
    Const(bool),
    Of(Lit),
}
