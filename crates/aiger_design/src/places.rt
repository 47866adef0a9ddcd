//! The places.
ghost use Rattle.std.specs.Prelude.{◌≡◌, ◌<◌, ◌≤◌, ◌++◌, IfOk, OnOk};
ghost use Rattle.aiger_text.specs.Rows.{first_latch, first_output, first_and, row_count};
ghost use Rattle.aiger_design.specs.Drivers.{place, and_place, latch_place, and_places, latch_places, places_of};
ghost use Rattle.aiger_design.specs.Stands.{Stands};

use crate::file::File;
use design_core::{Place, PlaceKind};
use loc_base::{Name, NoMemory};

/// Where a place stands: its kind, its line, and the signal that it assigns.
#[derive(Clone, Copy)]
struct Standing {
    kind: PlaceKind,
    line: u32,
    signal: u32,
}

/// A place on a line.
fn place(standing: Standing, module: Name, path: Name) -> Place
    ensures { result ≡ place standing.kind «module» path standing.line standing.signal }
{
    let Standing { kind, line, signal } = standing;
    Place {
        kind,
        width: 1,
        site: line,
        home: line,
        copy: 0,
        line,
        module,
        path,
        signal,
    }
}

impl File<'_> {
    /// The place of an AND's row.
    fn and_place(&self, top: &Name, row: u64) -> Result<Place, NoMemory>
        requires stands { Stands self.now }
        requires first { first_and self.now.numbering.counts ≤ row }
        requires within { row < row_count self.now.numbering.counts }
        ensures { IfOk result (λ p. p ≡ and_place self.now.rows.now self.now.numbering top.now row) }
    {
        let standing = Standing {
            kind: PlaceKind::And,
            line: self.numbering.line(row),
            signal: self.numbering.and_signal(row),
        };
        let path = self.row_path(b'a', row)?;
        Ok(place(standing, top.copied(self.alloc)?, path))
    }

    /// The place of a latch's row.
    fn latch_place(&self, top: &Name, row: u64) -> Result<Place, NoMemory>
        requires stands { Stands self.now }
        requires first { first_latch self.now.numbering.counts ≤ row }
        requires within { row < first_output self.now.numbering.counts }
        ensures { IfOk result (λ p. p ≡ latch_place self.now.numbering top.now row) }
    {
        let standing = Standing {
            kind: PlaceKind::Step,
            line: self.numbering.line(row),
            signal: self.numbering.latch_signal(row),
        };
        let path = top.copied(self.alloc)?;
        Ok(place(standing, top.copied(self.alloc)?, path))
    }

    /// Appends the places of the ANDs.
    #[tactic(auto, using(crate::proofs::Ranges::range_steps))]
    fn push_and_places(&self, top: &Name, places: &mut Vec<Place>) -> Result<(), NoMemory>
        requires { Stands self.now }
        ensures { OnOk result (places.new.items ≡ places.old.items ++ and_places self.now.rows.now self.now.numbering top.now) }
    {
        let counts = self.numbering.counts;
        for row in counts.first_and()..counts.rows() {
            places.push(self.and_place(top, row)?)?;
        }
        Ok(())
    }

    /// Appends the places of the latches.
    #[tactic(auto, using(crate::proofs::Ranges::range_steps))]
    fn push_latch_places(&self, top: &Name, places: &mut Vec<Place>) -> Result<(), NoMemory>
        requires { Stands self.now }
        ensures { OnOk result (places.new.items ≡ places.old.items ++ latch_places self.now.numbering top.now) }
    {
        let counts = self.numbering.counts;
        for row in u64::from(counts.inputs)..counts.first_output() {
            places.push(self.latch_place(top, row)?)?;
        }
        Ok(())
    }

    /// The places, by the top's name.
    pub(crate) fn places(&self, top: &Name) -> Result<Vec<Place>, NoMemory>
        requires { Stands self.now }
        ensures { IfOk result (λ places. places.items ≡ places_of self.now.rows.now self.now.numbering top.now) }
    {
        let mut places = Vec::new(self.alloc);
        self.push_and_places(top, &mut places)?;
        self.push_latch_places(top, &mut places)?;
        Ok(places)
    }
}
