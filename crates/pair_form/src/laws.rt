//! What the clauses of pairs say. Each law is the contract of a function that does nothing, over values that no code holds.

ghost use Rattle.pair_form.specs.Following.{AddsFollowing, CanFollow, OfPairs};

/// The clauses of pairs say that each place follows its operands. Where each does, an assignment that gives all definitions their values
/// goes on to one that satisfies these clauses.
pub fn pairs_mean()
    ghost of: { OfPairs }
    requires { CanFollow of }
    ensures { AddsFollowing of }
{}
