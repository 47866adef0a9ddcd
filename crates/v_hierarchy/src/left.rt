//! How many turns of loops and module instances a design may still have.
ghost use Rattle.std.specs.Prelude.{◌≡◌};
ghost use Rattle.v_hierarchy.specs.Steps.{less_of, turned, placed};

use crate::error::ElabErr;
use loc_base::Span;

/// How many turns of loops and how many module instances may still be met.
#[derive(Clone, Copy, Debug, PartialEq, Eq)]
pub struct Left {
    pub turns: u32,
    pub instances: u32,
}

/// One less, where one is left.
fn less_of(left: u32, span: Span) -> Result<u32, ElabErr>
    ensures { result ≡ less_of left span }
{
    if left == 0 {
        return Err(ElabErr::Turns(span));
    }
    Ok(left - 1)
}

impl Left {
    /// What is left behind one turn more.
    pub fn turned(self, span: Span) -> Result<Left, ElabErr>
        ensures { result ≡ turned span self }
    {
        let turns = less_of(self.turns, span)?;
        Ok(Left {
            turns,
            instances: self.instances,
        })
    }

    /// What is left behind one instance more.
    pub fn placed(self, span: Span) -> Result<Left, ElabErr>
        ensures { result ≡ placed span self }
    {
        let instances = less_of(self.instances, span)?;
        Ok(Left {
            turns: self.turns,
            instances,
        })
    }
}
