ghost use Rattle.std.specs.Prelude.{◌≡◌, ◌+◌, ◌^◌, ◌<◌, ◌≤◌, length, All};
ghost use Rattle.clause_base.specs.Literal.{IsWithin};
ghost use Rattle.trail_core.specs.TrailState.{IsTrail};
ghost use Rattle.sat_core.specs.Choices.{choice_at, end_of, PassedTo, ChoiceGives};

use clause_base::Lit;
use trail_core::Trail;

/// What is decided next.
#[derive(Clone, Copy)]
pub(crate) enum Choice {
    /// The literal at this place of the order.
    Decide(usize, Lit),
    /// This assumption is false.
    Refuted(Lit),
    /// All assumptions are true, and all preferred variables have values.
    Free,
}

/// The first literal from a place of the order of decisions on that is unassigned, or that is an assumption and false.
pub(crate) fn choose(trail: &Trail, assume: &[Lit], preferred: &[u32], from: usize) -> Choice
    requires trail { IsTrail trail.now }
    requires assume { IsWithin trail.now.vars assume.now }
    requires preferred { All (λ v. (1 ≤ v) × (v ≤ trail.now.vars)) preferred.now }
    requires small { length assume.now + length preferred.now < 2 ^ 63 }
    requires passed { PassedTo trail.now assume.now preferred.now from }
    ensures { ChoiceGives trail.now assume.now preferred.now result }
{
    for place in from..assume.len() + preferred.len() {
        let l = item(assume, preferred, place);
        match trail.value(l.var) {
            None => return Choice::Decide(place, l),
            Some(value) if place < assume.len() && value == l.negated => return Choice::Refuted(l),
            Some(_) => {}
        }
    }
    Choice::Free
}

/// The literal at a place of the order of decisions: the assumptions, and the preferred variables, each true.
fn item(assume: &[Lit], preferred: &[u32], place: usize) -> Lit
    requires small { length assume.now + length preferred.now < 2 ^ 63 }
    requires place { place < end_of assume.now preferred.now }
    ensures { result ≡ choice_at assume.now preferred.now place }
{
    if place < assume.len() {
        assume[place]
    } else {
        Lit {
            var: preferred[place - assume.len()],
            negated: false,
        }
    }
}
