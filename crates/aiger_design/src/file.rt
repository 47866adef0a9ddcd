//! The rows of a file, with what makes a design of them.
ghost use Rattle.std.specs.Prelude.{◌≡◌, IfOk};
ghost use Rattle.loc_base.specs.Name.{IsName};

use crate::numbering::Numbering;
use aiger_rules::Firsts;
use aiger_text::Row;
use loc_base::{Name, NoMemory};
use std::alloc::Global;

/// The rows of a file, the row that defines each literal, and how signals and places are numbered.
#[derive(Clone, Copy)]
pub(crate) struct File<'a> {
    pub alloc: Global,
    pub rows: &'a [Row],
    pub definers: &'a Firsts,
    pub numbering: Numbering,
}

/// The name of these bytes.
pub(crate) fn name_of(alloc: Global, text: &[u8]) -> Result<Name, NoMemory>
    requires { IsName text.now }
    ensures { IfOk result (λ name. name ≡ text.now) }
{
    let name = Name::new(alloc, text)?;
    Ok(name.unwrap())
}
