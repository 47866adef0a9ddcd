//! The paths of scopes and instances (IEEE 1364-2005, 12.5): parts joined by dots.
ghost use Rattle.std.specs.Prelude.{◌≡◌, IfOk};
ghost use Rattle.loc_base.specs.Name.{IsName};
ghost use Rattle.v_syntax.specs.ItemTree.{block_of};
ghost use Rattle.v_hierarchy.specs.Paths.{below, line_part, block_part, turn_part};

use itoa::Buffer;
use loc_base::{Bytes, Name, NoMemory};
use std::alloc::Global;
use v_syntax::{GenerateBlock, Site};

/// The name of these bytes.
fn name_of(alloc: Global, text: &[u8]) -> Result<Name, NoMemory>
    requires { IsName text.now }
    ensures { IfOk result (λ n. n ≡ text.now) }
{
    let name = Name::new(alloc, text)?;
    Ok(name.unwrap())
}

/// `path.part`
#[tactic(auto, using(crate::proofs::PathNames::joined_name))]
pub fn below(alloc: Global, path: &Name, part: &Name) -> Result<Name, NoMemory>
    ensures { IfOk result (λ n. n ≡ below path.now part.now) }
{
    let mut text = Bytes::copy_of(alloc, path.as_bytes())?;
    text.push(b'.')?;
    text.append(part.as_bytes())?;
    name_of(alloc, text.as_slice())
}

/// `@line`
#[tactic(auto, using(crate::proofs::PathNames::line_name))]
fn line_part(alloc: Global, site: Site) -> Result<Name, NoMemory>
    ensures { IfOk result (λ n. n ≡ line_part site) }
{
    let mut buffer = Buffer::new();
    let mut text = Bytes::new(alloc);
    text.push(b'@')?;
    text.append(buffer.format(site.line).as_bytes())?;
    name_of(alloc, text.as_slice())
}

/// The part of a path that a generate block is: its label, else its line.
#[tactic(auto, using(crate::proofs::ItemSteps::block_steps))]
pub fn block_part(alloc: Global, block: &GenerateBlock) -> Result<Name, NoMemory>
    ensures { IfOk result (λ n. n ≡ block_part (block_of block.now)) }
{
    match block {
        GenerateBlock::Item { site, item: _ } => line_part(alloc, *site),
        GenerateBlock::Block {
            site,
            label,
            items: _,
        } => match label {
            Some(label) => label.name.copied(alloc),
            None => line_part(alloc, *site),
        },
    }
}

/// `part[turn]`
#[tactic(auto, using(crate::proofs::PathNames::turn_name))]
pub fn turn_part(alloc: Global, block: &GenerateBlock, turn: i32) -> Result<Name, NoMemory>
    ensures { IfOk result (λ n. n ≡ turn_part (block_of block.now) turn) }
{
    let part = block_part(alloc, block)?;
    let mut buffer = Buffer::new();
    let mut text = Bytes::copy_of(alloc, part.as_bytes())?;
    text.push(b'[')?;
    text.append(buffer.format(turn).as_bytes())?;
    text.push(b']')?;
    name_of(alloc, text.as_slice())
}
