//! The form of a problem: from the design to a net of words, from this to a circuit, and from this, unrolled over the traces, to
//! clauses.

ghost use Rattle.std.specs.Prelude.{◌≡◌, ◌≤◌, ◌<◌, ◌^◌, All, IfErr, IfOk, length};
ghost use Rattle.clause_base.specs.Literal.{IsWithin};
ghost use Rattle.debug_core.specs.Problems.{IsFormFor, IsProblem, IsRefused, problem_of, suspect_count};
ghost use Rattle.debug_core.specs.Standing.{ExplainModels, IsEncoding, IsUnrollingFor, problem_in};

use crate::error::DebugErr;
use crate::question::Question;
use crate::supposed::supposed;
use bit_circuit::{Circuit, blast};
use clause_base::{Form, Lit};
use clause_form::{FormPlan, form};
use design_core::{SetWithValues, Values};
use form_values::values;
use loc_base::{Items, NoMemory};
use std::alloc::Global;
use unroller::{Unrolled, unroll};
use v_synth::word_net;

/// A problem with its form, and the literals of the bits of places.
pub(crate) struct Encoding<'a> {
    pub(crate) question: Question<'a>,
    pub(crate) form: Form,
    unrolled: Unrolled,
}

impl Drop for Encoding<'_> {
    fn drop(self) {
        let Encoding {
            question: _,
            form: _,
            unrolled: _,
        } = self;
    }
}

/// The circuit of the design, unrolled over the traces.
fn unrolled(alloc: Global, question: &Question<'_>) -> Result<Unrolled, DebugErr>
    requires { IsProblem (problem_of question.now) }
    ensures ok { IfOk result (IsUnrollingFor (problem_of question.now)) }
    ensures err { IfErr result (IsRefused (problem_of question.now)) }
{
    let net = word_net(alloc, question.design, question.order)?;
    let _nodes = net.nodes();
    let circuit = blast(alloc, &net)?;
    let unrolled = unroll(
        alloc,
        &circuit,
        question.traces,
        question.groups,
        question.k,
    )?;
    let _variables = unrolled.variables();
    Ok(unrolled)
}

impl<'a> Encoding<'a> {
    /// The form of what is asked.
    pub(crate) fn new(alloc: Global, question: &Question<'a>) -> Result<Encoding<'a>, DebugErr>
        requires { IsProblem (problem_of question.now) }
        ensures question { IfOk result (λ e. problem_in e ≡ problem_of question.now) }
        ensures encoding { IfOk result IsEncoding }
        ensures err { IfErr result (IsRefused (problem_of question.now)) }
    {
        let unrolled = unrolled(alloc, question)?;
        let form = form(alloc, &unrolled, question.groups, question.k)?;
        Ok(Encoding {
            question: *question,
            form,
            unrolled,
        })
    }

    /// The values that a model of the form gives to the places of a set.
    pub(crate) fn values(
        &self,
        alloc: Global,
        model: &[bool],
        members: &[u32],
    ) -> Result<Values, NoMemory>
        requires encoding { IsEncoding self.now }
        requires members { All (λ m. (1 ≤ m) × (m ≤ suspect_count (problem_in self.now))) members.now }
        ensures { IfOk result (ExplainModels self.now model.now members.now) }
    {
        values(alloc, model, &self.unrolled, self.question.groups, members)
    }

    /// The literals that are true where a set's suspects are chosen and its places have its values.
    pub(crate) fn supposed(
        &self,
        alloc: Global,
        set: &SetWithValues,
    ) -> Result<Items<Lit>, NoMemory>
        requires encoding { IsEncoding self.now }
        ensures { IfOk result (IsWithin self.now.form.vars) }
    {
        supposed(
            alloc,
            &self.unrolled,
            self.question.groups.len() as u32,
            set,
        )
    }
}

/// The plan of the form of what is asked, in which a debugger searches: no clause is made, and no solver. It is refused where
/// `Debugger::new` refuses: exactly where, in this order, the circuit of the design would have more than 4,000,000 AND and free nodes,
/// the form more than 4,000,000 variables, or its clauses more than 64,000,000 literals.
pub fn plan_of(alloc: Global, question: &Question<'_>) -> Result<FormPlan, DebugErr>
    requires { IsProblem (problem_of question.now) }
    ensures form { IfOk result (λ plan. IsFormFor (problem_of question.now) plan.vars plan.clauses) }
    ensures err { IfErr result (IsRefused (problem_of question.now)) }
{
    let unrolled = unrolled(alloc, question)?;
    Ok(FormPlan::new(alloc, unrolled, question.groups, question.k)?)
}
