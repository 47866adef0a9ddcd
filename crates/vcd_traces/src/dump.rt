//! A dump whose header is read: its changes are read, and the trace of a design's ports is answered.
ghost use Rattle.std.specs.Prelude.{◌≡◌, ◌+◌, ◌≤◌, IsTrue, None, length};
ghost use Rattle.std.specs.List.{list_all};
ghost use Rattle.design_core.specs.declared.design.Design.{Design as TheDesign};
ghost use Rattle.vcd_reading.specs.Scopes.{Sought, ports_of, scope_of};
ghost use Rattle.vcd_reading.specs.PortView.{ports_in};
ghost use Rattle.vcd_traces.specs.Samples.{Manner, Watches, sought_of};
ghost use Rattle.vcd_traces.specs.Moment.{has_width};
ghost use Rattle.vcd_traces.specs.Plan.{IsPlan};
ghost use Rattle.vcd_traces.specs.Ports.{fits};
ghost use Rattle.vcd_traces.specs.Sites.{site_fits};
ghost use Rattle.vcd_traces.specs.Dump.{dump_header, IsFront, AreFound, Comes};
ghost use Rattle.vcd_traces.specs.Manner.{manner_of};
ghost use Rattle.vcd_traces.specs.Answers.{Answers};

use crate::reader::{Plan, Reading};
use crate::rows::{Rows, Watched};
use crate::sampling::SampleBy;
use crate::sites::{Site, least_unfit, port_sites};
use crate::table::port_table;
use crate::watches::watched;
use design_core::Trace;
use std::alloc::Global;
use vcd_reading::{Front, Port, Scope, Sought as WithPath, VcdErr, index, scope_of};

/// The text of a dump and its header.
#[derive(Drop)]
pub struct Dump<'a> {
    pub text: &'a [u8],
    pub front: Front<'a>,
}

impl<'a> Dump<'a> {
    /// Reads the changes behind the header.
    fn read(&self, alloc: Global, plan: &Plan<'_>) -> Result<Rows, VcdErr>
        requires inputs { IsTrue (list_all has_width plan.now.watched.inputs.items) }
        requires outputs { IsTrue (list_all has_width plan.now.watched.outputs.items) }
        ensures { (sought : Sought) (w : Watches) → IsPlan (dump_header self.now) sought w plan.now → IsFront sought self.now
            → Comes sought w self.now.text.now (dump_header self.now) result }
    {
        let mut reading = Reading::new(alloc, plan.table.cells.as_slice().len())?;
        reading.read(plan, self.text, self.front.stop)?;
        Ok(reading.rows)
    }

    /// Reads a dump in which the ports have no scope.
    fn without_scope(&self, alloc: Global) -> Result<Trace, VcdErr>
        ensures { (d : TheDesign) (by : Manner) → IsFront (sought_of d by) self.now → scope_of (dump_header self.now) (sought_of d by) ≡ None
            → Answers self.now.text.now d by result }
    {
        let plan = Plan {
            table: port_table(alloc, self.front.header.variables.as_slice(), &[])?,
            watched: Watched {
                clock: None,
                inputs: Vec::new(alloc),
                outputs: Vec::new(alloc),
                zero_inputs: false,
            },
        };
        self.read(alloc, &plan)?;
        Err(VcdErr::MissingPort)
    }

    /// Reads a dump by the places of a design's ports.
    fn sampled(&self, alloc: Global, by: &SampleBy<'_>, sites: &[Site<'a>]) -> Result<Trace, VcdErr>
        requires count { length by.now.design.now.inputs.items + length by.now.design.now.outputs.items ≤ length sites.now }
        requires widths { IsTrue (list_all site_fits sites.now) }
        ensures { AreFound by.now.design.now (manner_of by.now) self.now sites.now → Answers self.now.text.now by.now.design.now (manner_of by.now) result }
    {
        let table = port_table(alloc, self.front.header.variables.as_slice(), sites)?;
        let watched = watched(alloc, &table, by, sites)?;
        let rows = self.read(alloc, &Plan { table, watched })?;
        match least_unfit(sites) {
            Some(port) => Err(VcdErr::PortWidth { port }),
            None => rows.finish(),
        }
    }

    /// Reads a dump as one of a design whose ports are given.
    pub fn trace<'x>(
        &self,
        alloc: Global,
        by: &'x SampleBy<'_>,
        ports: &'x [Port<'a>],
    ) -> Result<Trace, VcdErr>
        requires count { length by.now.design.now.inputs.items + length by.now.design.now.outputs.items ≤ length ports.now }
        requires widths { IsTrue (list_all fits (ports_in ports.now)) }
        ensures { ports_in ports.now ≡ ports_of by.now.design.now (manner_of by.now).clock → IsFront (sought_of by.now.design.now (manner_of by.now)) self.now
            → Answers self.now.text.now by.now.design.now (manner_of by.now) result }
    {
        let header = &self.front.header;
        let variables = header.variables.as_slice();
        let table = index(alloc, variables)?;
        let names = &table;
        let scope = by.path();
        let sought = WithPath { scope, ports };
        let found = scope_of(alloc, header, names, &sought)?;
        match found {
            None => self.without_scope(alloc),
            Some(number) => {
                let scope = Scope {
                    variables,
                    names,
                    number,
                };
                let sites = port_sites(alloc, &scope, &sought)?;
                self.sampled(alloc, by, sites.as_slice())
            }
        }
    }
}
