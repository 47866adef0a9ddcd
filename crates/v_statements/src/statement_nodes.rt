//! The nodes of statements, once what nests in them is read.
ghost use Rattle.std.specs.Prelude.{◌≡◌, ◌||◌, map, option_map, IfOk};
ghost use Rattle.v_syntax.specs.Tree.{tree_of};
ghost use Rattle.v_syntax.specs.PartTree.{delay_of, left_of};
ghost use Rattle.v_syntax.specs.StatementTree as tree;
ghost use Rattle.v_syntax.specs.StatementTree.{statement_of, case_item_of, statements_of, case_items_of, head_of, is_default};

use loc_base::NoMemory;
use std::alloc::Global;
use v_syntax::{
    AssignKind, CaseItem, CaseKind, Delay, Expr, Identifier, Left, LoopHead, Site, Statement,
};

pub fn empty(site: Site) -> Statement
    ensures { statement_of result ≡ tree.empty site }
{
    Statement::Empty { site }
}

pub fn block(site: Site, label: Option<Identifier>, body: Vec<Statement>) -> Statement
    ensures { statement_of result ≡ tree.block site label (statements_of (map statement_of body.items)) }
{
    Statement::Block { site, label, body }
}

pub fn delayed(
    alloc: Global,
    site: Site,
    delay: Delay,
    body: Statement,
) -> Result<Statement, NoMemory>
    ensures { IfOk result (λ s. statement_of s ≡ tree.delayed site (delay_of delay) (statement_of body)) }
{
    let body = Box::new(alloc, body)?;
    Ok(Statement::Delayed { site, delay, body })
}

pub fn if_then(
    alloc: Global,
    site: Site,
    condition: Expr,
    first: Statement,
) -> Result<Statement, NoMemory>
    ensures { IfOk result (λ s. statement_of s ≡ tree.if_then site (tree_of condition) (statement_of first)) }
{
    let then = Box::new(alloc, first)?;
    Ok(Statement::If {
        site,
        condition,
        then,
        other: None,
    })
}

pub fn if_else(
    alloc: Global,
    site: Site,
    condition: Expr,
    first: Statement,
    other: Statement,
) -> Result<Statement, NoMemory>
    ensures { IfOk result (λ s. statement_of s ≡ tree.if_else site (tree_of condition) (statement_of first) (statement_of other)) }
{
    let then = Box::new(alloc, first)?;
    let other = Box::new(alloc, other)?;
    Ok(Statement::If {
        site,
        condition,
        then,
        other: Some(other),
    })
}

pub fn choice(site: Site, kind: CaseKind, subject: Expr, items: Vec<CaseItem>) -> Statement
    ensures { statement_of result ≡ tree.choice site kind (tree_of subject) (case_items_of (map case_item_of items.items)) }
{
    Statement::Case {
        site,
        kind,
        subject,
        items,
    }
}

pub fn repeated(
    alloc: Global,
    site: Site,
    head: LoopHead,
    body: Statement,
) -> Result<Statement, NoMemory>
    ensures { IfOk result (λ s. statement_of s ≡ tree.loop site (head_of head) (statement_of body)) }
{
    let body = Box::new(alloc, body)?;
    Ok(Statement::For { site, head, body })
}

pub fn assignment(
    site: Site,
    target: Left,
    kind: AssignKind,
    delay: Option<Delay>,
    value: Expr,
) -> Statement
    ensures { statement_of result ≡ tree.assignment site (left_of target) kind (option_map delay_of delay) (tree_of value) }
{
    Statement::Assign {
        site,
        target,
        kind,
        delay,
        value,
    }
}

pub fn labelled(site: Site, labels: Vec<Expr>, body: Statement) -> CaseItem
    ensures { case_item_of result ≡ tree.labelled site (map tree_of labels.items) (statement_of body) }
{
    CaseItem::Labels { site, labels, body }
}

pub fn otherwise(site: Site, body: Statement) -> CaseItem
    ensures { case_item_of result ≡ tree.otherwise site (statement_of body) }
{
    CaseItem::Default { site, body }
}

/// Whether it is a default.
pub fn is_default(item: &CaseItem) -> bool
    ensures { result ≡ is_default (case_item_of item.now) }
{
    matches!(item, CaseItem::Default { .. })
}

/// Whether a default stands among the items up to this one.
pub fn has_default(had: bool, item: &CaseItem) -> bool
    ensures { result ≡ (had || is_default (case_item_of item.now)) }
{
    had || is_default(item)
}
