//! Why a literal is true on a trail: a clause of it and opposites of decisions.

ghost use Rattle.std.specs.Prelude.{◌≡◌, IsSome, IfOk, IsTrue, ◌∷◌, []};
ghost use Rattle.clause_base.specs.declared.log.StepKind.TheVariants.{Derived};
ghost use Rattle.clause_base.specs.Literal.{has_distinct_variables};
ghost use Rattle.trail_core.specs.Values.{IsVariable, IsTrueIn};
ghost use Rattle.trail_core.specs.TrailState.{IsTrail, values_of, reason_in};
ghost use Rattle.sat_core.specs.Derivation.{Denies};

use crate::analysis::Analysis;
use clause_base::{Clause, Lit, Step, StepKind};
use loc_base::{Items, NoMemory};
use std::alloc::Global;
use trail_core::Trail;

/// The step that derives a true literal from the decisions before it, by its reason and those of what it rests on.
pub(crate) fn explain(alloc: Global, trail: &Trail, l: Lit) -> Result<Step, NoMemory>
    requires trail { IsTrail trail.now }
    requires variable { IsVariable trail.now.vars l.var }
    requires truth { IsTrueIn (values_of trail.now.entries) l }
    requires reason { IsSome (reason_in trail.now.entries l.var) }
    ensures kind { IfOk result (λ step. step.kind ≡ Derived) }
    ensures denies { IfOk result (λ step. Denies trail.now (l ∷ []) step.clause step.chain) }
{
    let reason = trail.reason(l.var).unwrap();
    let mut analysis = Analysis::new(alloc, trail.vars())?;
    analysis.contradict(trail, l, reason)?;
    derived(alloc, analysis)
}

/// The step of an analysis' clause and chain.
fn derived(alloc: Global, analysis: Analysis) -> Result<Step, NoMemory>
    requires { IsTrue (has_distinct_variables analysis.literals.items) }
    ensures kind { IfOk result (λ step. step.kind ≡ Derived) }
    ensures clause { IfOk result (λ step. step.clause ≡ analysis.literals.items) }
    ensures chain { IfOk result (λ step. step.chain ≡ analysis.chain.items) }
{
    let clause = Clause::new(alloc, &analysis.literals)?;
    let chain = Items::copy_of(alloc, &analysis.chain)?;
    Ok(Step {
        kind: StepKind::Derived,
        clause,
        chain,
    })
}
