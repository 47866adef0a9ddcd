//! Conditional statements of their parts, and the arms of a case so far (IEEE 1364-2005, 9.4 and 9.5).
ghost use Rattle.std.specs.Prelude.{◌≡◌, IfOk};
ghost use Rattle.design_core.specs.declared.statement.Stmt.TheVariants as stmt;
ghost use Rattle.v_binding.specs.Cases as case;
ghost use Rattle.v_binding.specs.Statements as written;
ghost use Rattle.bind_statements.specs.Arms.{chosen_of, is_nothing, chosen_with};

use design_core::{CaseItem, Stmt, Typed};
use loc_base::{Boxed, Items, NoMemory};
use std::alloc::Global;
use v_syntax::CaseKind;

/// What an arm of a case is.
#[derive(Drop)]
pub(crate) enum BoundArm {
    Item(CaseItem),
    /// The statement for all other values.
    Other(Stmt),
}

/// The items so far, and the statement that stands for all other values.
#[derive(Drop)]
pub(crate) struct Chosen {
    pub items: Items<CaseItem>,
    pub other: Stmt,
}

/// No arm. It takes no memory.
pub(crate) fn nothing_chosen(alloc: Global) -> Chosen
    ensures { chosen_of result ≡ written.nothing_chosen }
{
    Chosen {
        items: Items::new(alloc),
        other: Stmt::Nothing,
    }
}

/// Whether a statement is none.
fn is_nothing(s: &Stmt) -> bool
    ensures { result ≡ is_nothing s.now }
{
    match s {
        Stmt::Nothing => true,
        Stmt::Block(_) | Stmt::If { .. } | Stmt::Case { .. } | Stmt::Set { .. } => false,
    }
}

/// A default without a statement is one that is there. It takes no memory.
#[tactic(auto, using(crate::proofs::ArmSteps::default_laws))]
fn as_default(alloc: Global, s: Stmt) -> Stmt
    ensures { result ≡ written.as_default s }
{
    if is_nothing(&s) {
        Stmt::Block(Items::new(alloc))
    } else {
        s
    }
}

/// One arm more.
pub(crate) fn chosen_with(alloc: Global, chosen: Chosen, arm: BoundArm) -> Result<Chosen, NoMemory>
    ensures { IfOk result (λ x. chosen_of x ≡ chosen_with (chosen_of chosen) arm) }
{
    match arm {
        BoundArm::Item(item) => {
            let mut items = chosen.items;
            items.push(item)?;
            Ok(Chosen {
                items,
                other: chosen.other,
            })
        }
        BoundArm::Other(s) => Ok(Chosen {
            items: chosen.items,
            other: as_default(alloc, s),
        }),
    }
}

/// `if (cond) yes else no`
pub(crate) fn if_statement(
    alloc: Global,
    cond: Typed,
    yes: Stmt,
    no: Stmt,
) -> Result<Stmt, NoMemory>
    ensures { IfOk result (λ s. s ≡ stmt.If cond yes no) }
{
    let yes = Boxed::new(alloc, yes)?;
    let no = Boxed::new(alloc, no)?;
    Ok(Stmt::If { cond, yes, no })
}

/// A case of its arms; `wild` for `casez`.
pub(crate) fn case_statement(
    alloc: Global,
    subject: Typed,
    chosen: Chosen,
    wild: bool,
) -> Result<Stmt, NoMemory>
    ensures { IfOk result (λ s. s ≡ stmt.Case subject (chosen_of chosen).items (chosen_of chosen).other wild) }
{
    let other = Boxed::new(alloc, chosen.other)?;
    Ok(Stmt::Case {
        subject,
        items: chosen.items,
        other,
        wild,
    })
}

/// Whether the wild bits of labels are not compared.
pub(crate) fn is_wild_case(kind: CaseKind) -> bool
    ensures { result ≡ case.is_wild_case kind }
{
    match kind {
        CaseKind::Case => false,
        CaseKind::Casez => true,
    }
}
