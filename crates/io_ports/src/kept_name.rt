ghost use Rattle.std.specs.Prelude.{◌≡◌, ℕ, List};
ghost use Rattle.std.specs.Borrow.{ftrue};

use std::marker::Model;

/// A name that clauses alone read. It takes no memory, and keeping it does nothing when the program runs.
#[derive(Drop)]
pub(crate) struct KeptName {
    pub ghost bytes: { List ℕ },
}

impl Model for KeptName {
    ghost also_owns = { λ _. ftrue };
}

impl KeptName {
    /// Keeps a name. No code holds its bytes, so this is proved by hand.
    pub(crate) fn of(_name: &[u8]) -> KeptName
        ensures { result.bytes ≡ _name.now }
    {
        KeptName {}
    }
}
