ghost use Rattle.std.specs.Prelude.{◌≡◌, IfOk, map};
ghost use Rattle.v_syntax.specs.Tree as tree;
ghost use Rattle.v_syntax.specs.Tree.{tree_of, selection_of, selections_of, trees_of};

use loc_base::{Name, NoMemory};
use std::alloc::Global;
use v_syntax::{Binary, Expr, Number, PartKind, Select, Site, SystemFunction, Unary, WildNumber};

pub fn number(site: Site, number: Number) -> Expr
    ensures { tree_of result ≡ tree.number site number }
{
    Expr::Number { site, number }
}

pub fn wild(site: Site, number: WildNumber) -> Expr
    ensures { tree_of result ≡ tree.wild site number }
{
    Expr::Wild { site, number }
}

pub fn name(site: Site, name: Name, selects: Vec<Select>) -> Expr
    ensures { tree_of result ≡ tree.name site name (selections_of (map selection_of selects.items)) }
{
    Expr::Name {
        site,
        name,
        selects,
    }
}

pub fn parens(alloc: Global, site: Site, inner: Expr) -> Result<Expr, NoMemory>
    ensures { IfOk result (λ e. tree_of e ≡ tree.parens site (tree_of inner)) }
{
    let inner = Box::new(alloc, inner)?;
    Ok(Expr::Parens { site, inner })
}

pub fn concat(site: Site, parts: Vec<Expr>) -> Expr
    ensures { tree_of result ≡ tree.concat site (trees_of (map tree_of parts.items)) }
{
    Expr::Concat { site, parts }
}

pub fn repeat(alloc: Global, site: Site, count: Expr, parts: Vec<Expr>) -> Result<Expr, NoMemory>
    ensures { IfOk result (λ e. tree_of e ≡ tree.repeat site (tree_of count) (trees_of (map tree_of parts.items))) }
{
    let count = Box::new(alloc, count)?;
    Ok(Expr::Repeat { site, count, parts })
}

pub fn system(
    alloc: Global,
    site: Site,
    function: SystemFunction,
    argument: Expr,
) -> Result<Expr, NoMemory>
    ensures { IfOk result (λ e. tree_of e ≡ tree.system site function (tree_of argument)) }
{
    let argument = Box::new(alloc, argument)?;
    Ok(Expr::System {
        site,
        function,
        argument,
    })
}

pub fn unary(alloc: Global, site: Site, operator: Unary, operand: Expr) -> Result<Expr, NoMemory>
    ensures { IfOk result (λ e. tree_of e ≡ tree.unary site operator (tree_of operand)) }
{
    let operand = Box::new(alloc, operand)?;
    Ok(Expr::Unary {
        site,
        operator,
        operand,
    })
}

pub fn binary(
    alloc: Global,
    site: Site,
    operator: Binary,
    left: Expr,
    right: Expr,
) -> Result<Expr, NoMemory>
    ensures { IfOk result (λ e. tree_of e ≡ tree.binary site operator (tree_of left) (tree_of right)) }
{
    let left = Box::new(alloc, left)?;
    let right = Box::new(alloc, right)?;
    Ok(Expr::Binary {
        site,
        operator,
        left,
        right,
    })
}

pub fn conditional(
    alloc: Global,
    site: Site,
    condition: Expr,
    then: Expr,
    other: Expr,
) -> Result<Expr, NoMemory>
    ensures { IfOk result (λ e. tree_of e ≡ tree.conditional site (tree_of condition) (tree_of then) (tree_of other)) }
{
    let condition = Box::new(alloc, condition)?;
    let then = Box::new(alloc, then)?;
    let other = Box::new(alloc, other)?;
    Ok(Expr::Conditional {
        site,
        condition,
        then,
        other,
    })
}

pub fn bit(site: Site, index: Expr) -> Select
    ensures { selection_of result ≡ tree.bit site (tree_of index) }
{
    Select::Bit { site, index }
}

pub fn part(site: Site, kind: PartKind, left: Expr, right: Expr) -> Select
    ensures { selection_of result ≡ tree.part site kind (tree_of left) (tree_of right) }
{
    Select::Part {
        site,
        kind,
        left,
        right,
    }
}
