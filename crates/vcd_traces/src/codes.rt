//! The identifier codes that a header declares, and what they are to the ports (IEEE 1364-2005, 18.2.3).
ghost use Rattle.std.specs.Prelude.{◌≡◌, ◌<◌, ℕ, List, None, OnOk, IfOk, IfSome, length};
ghost use Rattle.vcd_traces.specs.Table.{near_place as place_near, role_of, with_role};

use indexmap::IndexMap;
use loc_base::NoMemory;
use std::alloc::Global;
use vcd_words::code_place;

/// What a declared code is to the ports.
#[derive(Clone, Copy)]
pub enum Role {
    /// No port's variable has it.
    Other,
    /// It is the code of a cell, and the least width of its ports is a limit of its digits.
    Port { cell: usize, limit: u8 },
}

/// The roles of declared codes: one for each code.
///
/// Simulators number codes densely from the first one on. So the codes with the least places stand in a list, by these
/// places, and all others in a map.
#[derive(Drop)]
pub struct Codes<'a> {
    near: Vec<Option<Role>>,
    far: IndexMap<&'a [u8], Role>,
}

/// How many codes stand in the list, by the number of variables: all, where these are numbered densely.
fn near_count(variables: usize) -> usize {
    if variables < 250_000 {
        4 * variables + 1024
    } else {
        1_000_000
    }
}

impl<'a> Codes<'a> {
    /// No declared code, with room for those of so many variables.
    #[tactic(auto, using(crate::proofs::NearLaws::near_steps))]
    pub fn new(alloc: Global, variables: usize) -> Result<Codes<'a>, NoMemory>
        ensures { IfOk result (λ codes. (code : List ℕ) → role_of codes code ≡ None) }
    {
        let count = near_count(variables);
        let mut near = Vec::new(alloc);
        while near.len() < count {
            near.push(None)?;
        }
        Ok(Codes {
            near,
            far: IndexMap::new(alloc),
        })
    }

    /// The place of a code in the list, where it stands there.
    fn near_place(&self, code: &[u8]) -> Option<usize>
        ensures place { result ≡ place_near (length self.now.near.items) code.now }
        ensures within { IfSome result (λ place. place < length self.now.near.items) }
    {
        let place = code_place(code)?;
        if place < self.near.len() as u64 {
            Some(place as usize)
        } else {
            None
        }
    }

    /// The role of a code, where it is declared.
    #[tactic(auto, unfolding(crate::specs::Table::role_of))]
    pub fn find(&self, code: &[u8]) -> Option<Role>
        ensures { result ≡ role_of self.now code.now }
    {
        match self.near_place(code) {
            Some(place) => self.near[place],
            None => self.far.get(code).copied(),
        }
    }

    /// Gives a code a role, in place of the one that it has.
    pub fn set(&mut self, code: &'a [u8], role: Role) -> Result<(), NoMemory>
        ensures { OnOk result ((other : List ℕ) → role_of self.new other ≡ with_role code.now role (role_of self.old) other) }
    {
        match self.near_place(code) {
            Some(place) => self.near[place] = Some(role),
            None => {
                self.far.insert(code, role)?;
            }
        }
        Ok(())
    }
}
