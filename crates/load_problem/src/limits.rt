//! The plan of a problem's form; which limit a problem passes that has none, and the line that says so.
ghost use Rattle.std.specs.Prelude.{◌≡◌, IfErr, IfOk};
ghost use Rattle.debug_core.specs.declared.error.DebugErr.{DebugErr as SomeErr};
ghost use Rattle.debug_core.specs.declared.error.DebugErr.TheVariants.{NoMemory as WantOfMemory};
ghost use Rattle.debug_core.specs.Problems.{IsFormFor, IsProblem, IsRefused, problem_of};
ghost use Rattle.refusal.specs.Codes.{code_line, code_status};
ghost use Rattle.refusal.specs.Ends.{HasCause, HasStatus, IsMemory, Says};
ghost use Rattle.load_problem.specs.Refusals.{FormRefused, problem_line, problem_status};

use debug_core::{DebugErr, FormPlan, Question, plan_of};
use refusal::{Code, LastLine, Note, Notes, Refusal};
use std::alloc::Global;

/// The line that ends a run which passes a limit, that is told; or which wants memory.
pub(crate) fn limited<N: Notes>(alloc: Global, refusal: &Refusal, notes: &mut N) -> LastLine
    ensures says { Says result (code_status refusal.now.code) (code_line refusal.now.code) }
    ensures status { HasStatus result }
{
    if let Code::Limit(_) = refusal.code {
        notes.note(&Note::Limited { refusal });
    }
    refusal.last_line(alloc)
}

/// The code of a limit of the form.
fn problem_code(fault: DebugErr) -> Code
    ensures line { code_line result ≡ problem_line fault }
    ensures status { code_status result ≡ problem_status fault }
{
    match fault {
        DebugErr::Nodes => Code::Limit("Z2"),
        DebugErr::Vars => Code::Limit("Z5"),
        DebugErr::Literals => Code::Limit("Z6"),
        DebugErr::NoMemory => Code::Memory,
    }
}

/// The line that ends a run whose problem has no form. The limit that it passes is told.
pub fn problem_line<N: Notes>(alloc: Global, fault: DebugErr, notes: &mut N) -> LastLine
    ensures says { Says result (problem_status fault) (problem_line fault) }
    ensures status { HasStatus result }
{
    limited(alloc, &Refusal::of(problem_code(fault), &fault), notes)
}

/// The plan of the form of what is asked, or the line that ends a run whose problem has none. No clause is made.
pub fn form_plan<N: Notes>(
    alloc: Global,
    question: &Question<'_>,
    notes: &mut N,
) -> Result<FormPlan, LastLine>
    requires { IsProblem (problem_of question.now) }
    ensures form { IfOk result (λ plan. IsFormFor (problem_of question.now) plan.vars plan.clauses) }
    ensures refused { IfErr result (HasCause (FormRefused (problem_of question.now))) }
    ensures only { ((fault : SomeErr) → IsRefused (problem_of question.now) fault → fault ≡ WantOfMemory)
        → IfErr result IsMemory }
{
    match plan_of(alloc, question) {
        Ok(plan) => Ok(plan),
        Err(fault) => Err(problem_line(alloc, fault, notes)),
    }
}
