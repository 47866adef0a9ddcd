//! A shelf of the made texts.
ghost use Rattle.std.specs.Prelude.{◌≡◌, Option};
ghost use Rattle.std.specs.Option.{option_copied};

use io_ports::{LoadErr, PutErr, Shelf};
use loc_base::Bytes;
use std::alloc::Global;

/// The made texts under their names, which stand on it as they were written. Nothing more is written to it, and none of its calls
/// fails.
#[derive(Drop)]
pub(crate) struct MadeShelf<'a> {
    pub design_name: &'a str,
    pub design: Bytes,
    pub trace_name: &'a str,
    pub trace: Bytes,
}

impl MadeShelf<'_> {
    ghost use Rattle.make_cmd.specs.Shelves.{texts_of};

    /// The text under a name.
    fn text(&self, name: &str) -> Option<&Bytes>
        ensures { option_copied result ≡ texts_of self.now name.now }
    {
        if name == self.design_name {
            Some(&self.design)
        } else if name == self.trace_name {
            Some(&self.trace)
        } else {
            None
        }
    }
}

impl Shelf for MadeShelf<'_> {
    ghost use Rattle.std.specs.Prelude.{[], true};
    ghost use Rattle.io_ports.specs.Faults.{fault_counts};
    ghost use Rattle.make_cmd.specs.Shelves.{texts_of};

    ghost tells = { λ _. true };

    ghost texts = { texts_of };

    ghost written = { texts_of };

    ghost faults = { λ _. fault_counts 0 0 [] };

    /// The text under a name. There are only two: of another there is no memory.
    fn load(&mut self, alloc: Global, name: &str, limit: u64) -> Result<Bytes, LoadErr> {
        let Some(text) = self.text(name) else {
            return Err(LoadErr::NoMemory);
        };
        if text.len() as u64 > limit {
            return Err(LoadErr::TooBig);
        }
        let copy = Bytes::copy_of(alloc, text.as_slice())?;
        Ok(copy)
    }

    fn can_begin(&mut self, name: &str) -> Result<(), PutErr> {
        Err(PutErr::NoMemory)
    }

    fn begin(&mut self, name: &str) -> Result<(), PutErr> {
        Err(PutErr::NoMemory)
    }

    fn put(&mut self, name: &str, piece: &[u8]) -> Result<(), PutErr> {
        Err(PutErr::NoMemory)
    }
}
