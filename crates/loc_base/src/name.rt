ghost use Rattle.std.specs.Prelude.{◌≡◌, ◌≤◌, ◌↔◌, All, IfOk, IsSome, IfSome, IsTrue, List, ℕ};
ghost use Rattle.loc_base.specs.Name.{IsName, IsNameByte};

use crate::memory::NoMemory;
use std::alloc::Global;
use std::marker::Model;

/// The name of a signal, a module, an instance, a file or a kind of suspect: at least one byte, each printable
/// ASCII other than the space (33 to 126). Contracts see it as the list of its bytes.
#[derive(Debug)]
pub struct Name {
    bytes: Vec<u8>,
}

// A `drop` is written out, so that it is proved once, here: a derived one is proved again by each crate that lets a value go.
impl Drop for Name {
    fn drop(self) {
        let Name { bytes: _ } = self;
    }
}

impl Model for Name {
    ghost Value = { List ℕ };

    ghost view = { λ n. n.bytes.items };

    ghost invariant = { λ n. IsName n.bytes.items };
}

fn is_name_byte(byte: u8) -> bool
    ensures { IsTrue result ↔ IsNameByte byte }
{
    33 <= byte && byte <= 126
}

impl Name {
    /// The name with these bytes, and `None` exactly where they are no name: there is none of them, or one is not
    /// printable or is a space.
    pub fn new(alloc: Global, bytes: &[u8]) -> Result<Option<Name>, NoMemory>
        ensures some { IfOk result (λ name. IsSome name ↔ IsName bytes.now) }
        ensures same { IfOk result (λ name. IfSome name (λ n. n ≡ bytes.now)) }
    {
        if bytes.is_empty() || !bytes.iter().all(|&byte| is_name_byte(byte)) {
            return Ok(None);
        }
        let bytes = bytes.to_vec(alloc)?;
        Ok(Some(Name { bytes }))
    }

    /// The bytes of the name.
    pub fn as_bytes(&self) -> &[u8]
        ensures same { result.now ≡ self.now }
        ensures name { IsName self.now }
    {
        self.bytes.as_slice()
    }

    /// A copy of the name.
    pub fn copied(&self, alloc: Global) -> Result<Name, NoMemory>
        ensures { IfOk result (λ copy. copy ≡ self.now) }
    {
        let bytes = self.bytes.as_slice().to_vec(alloc)?;
        Ok(Name { bytes })
    }
}
