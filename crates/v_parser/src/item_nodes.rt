//! The nodes of generate items, once what nests in them is read.
ghost use Rattle.std.specs.Prelude.{◌≡◌, map, IfOk};
ghost use Rattle.v_syntax.specs.Tree.{tree_of};
ghost use Rattle.v_syntax.specs.StatementTree.{head_of};
ghost use Rattle.v_syntax.specs.ItemTree.{item_of, block_of, items_of, generate_item, loop_item, if_item, if_else_item, single, several};

use loc_base::NoMemory;
use std::alloc::Global;
use v_syntax::{Expr, GenerateBlock, Identifier, Item, LoopHead, Site};

pub fn generate(site: Site, items: Vec<Item>) -> Item
    ensures { item_of result ≡ generate_item site (items_of (map item_of items.items)) }
{
    Item::Generate { site, items }
}

pub fn repeated(site: Site, head: LoopHead, body: GenerateBlock) -> Item
    ensures { item_of result ≡ loop_item site (head_of head) (block_of body) }
{
    Item::GenerateFor { site, head, body }
}

pub fn if_then(site: Site, condition: Expr, then: GenerateBlock) -> Item
    ensures { item_of result ≡ if_item site (tree_of condition) (block_of then) }
{
    Item::GenerateIf {
        site,
        condition,
        then,
        other: None,
    }
}

pub fn if_else(site: Site, condition: Expr, then: GenerateBlock, other: GenerateBlock) -> Item
    ensures { item_of result ≡ if_else_item site (tree_of condition) (block_of then) (block_of other) }
{
    Item::GenerateIf {
        site,
        condition,
        then,
        other: Some(other),
    }
}

pub fn one(alloc: Global, site: Site, item: Item) -> Result<GenerateBlock, NoMemory>
    ensures { IfOk result (λ b. block_of b ≡ single site (item_of item)) }
{
    let item = Box::new(alloc, item)?;
    Ok(GenerateBlock::Item { site, item })
}

pub fn block(site: Site, label: Option<Identifier>, items: Vec<Item>) -> GenerateBlock
    ensures { block_of result ≡ several site label (items_of (map item_of items.items)) }
{
    GenerateBlock::Block { site, label, items }
}
