//! The ports that are sampled, by the cells of their codes.
ghost use Rattle.std.specs.Prelude.{◌≡◌, ◌+◌, ◌≤◌, ◌<◌, List, All, IsTrue, IfOk, IfSome, length, map, slice_get};
ghost use Rattle.std.specs.List.{list_all};
ghost use Rattle.std.specs.Option.{option_map};
ghost use Rattle.vcd_reading.specs.Header.{Header as TheHeader};
ghost use Rattle.vcd_reading.specs.Scopes.{Sought, code_of};
ghost use Rattle.vcd_traces.specs.Samples.{watch_of};
ghost use Rattle.vcd_traces.specs.Moment.{has_width};
ghost use Rattle.vcd_traces.specs.Table.{IsTable, cell_codes};
ghost use Rattle.vcd_traces.specs.Plan.{cell_code, watch_in, has_cell, IsWatched};
ghost use Rattle.vcd_traces.specs.Sites.{site_port, site_fits, watches_from, IsSite};

use crate::moment::Watch;
use crate::rows::Watched;
use crate::sampling::SampleBy;
use crate::sites::Site;
use crate::table::Table;
use loc_base::NoMemory;
use std::alloc::Global;

/// What is sampled of a port.
fn watch(table: &Table<'_>, site: &Site<'_>) -> Watch
    ensures watch { (h : TheHeader) (sought : Sought) → IsTable h sought table.now → IsSite h sought site.now
        → watch_in (cell_codes table.now) result ≡ watch_of h sought (site_port site.now) }
    ensures cell { (h : TheHeader) (sought : Sought) → IsTable h sought table.now → IsSite h sought site.now → IsTrue (has_cell (cell_codes table.now) result) }
    ensures width { result.width ≡ site.now.port.width }
{
    Watch {
        signal: site.port.signal,
        width: site.port.width,
        cell: table.cell(site.place.variable.code),
        part: site.place.part,
    }
}

/// What is sampled of some ports.
fn watches(alloc: Global, table: &Table<'_>, sites: &[Site<'_>]) -> Result<Vec<Watch>, NoMemory>
    requires { IsTrue (list_all site_fits sites.now) }
    ensures watches { IfOk result (λ watches. (h : TheHeader) (sought : Sought) → IsTable h sought table.now → All (IsSite h sought) sites.now
        → map (watch_in (cell_codes table.now)) watches.items ≡ map (watch_of h sought) (map site_port sites.now)) }
    ensures cells { IfOk result (λ watches. (h : TheHeader) (sought : Sought) → IsTable h sought table.now → All (IsSite h sought) sites.now
        → IsTrue (list_all (has_cell (cell_codes table.now)) watches.items)) }
    ensures widths { IfOk result (λ watches. IsTrue (list_all has_width watches.items)) }
{
    let mut watches = Vec::new(alloc);
    for site in sites {
        watches.push(watch(table, site))?;
    }
    Ok(watches)
}

/// The cell of the first of some ports, if there is one.
fn first_cell(table: &Table<'_>, sites: &[Site<'_>]) -> Option<usize>
    ensures code { (h : TheHeader) (sought : Sought) → IsTable h sought table.now → All (IsSite h sought) sites.now
        → option_map (code_of h sought) (slice_get (map site_port sites.now) 0) ≡ option_map (cell_code (cell_codes table.now)) result }
    ensures within { (h : TheHeader) (sought : Sought) → IsTable h sought table.now → All (IsSite h sought) sites.now
        → IfSome result (λ cell. cell < length (cell_codes table.now)) }
{
    match sites.first() {
        None => None,
        Some(site) => Some(table.cell(site.place.variable.code)),
    }
}

/// What is sampled of a design, of whose ports the inputs come first, then the outputs, and then the clock, if there is
/// one.
pub fn watched(
    alloc: Global,
    table: &Table<'_>,
    by: &SampleBy<'_>,
    sites: &[Site<'_>],
) -> Result<Watched, NoMemory>
    requires count { length by.now.design.now.inputs.items + length by.now.design.now.outputs.items ≤ length sites.now }
    requires widths { IsTrue (list_all site_fits sites.now) }
    ensures watched { IfOk result (λ watched. (h : TheHeader) (sought : Sought) → IsTable h sought table.now → All (IsSite h sought) sites.now
        → IsWatched (watches_from h sought by.now.zero_inputs (length by.now.design.now.inputs.items) (length by.now.design.now.outputs.items) (map site_port sites.now)) (cell_codes table.now) watched) }
    ensures inputs { IfOk result (λ watched. IsTrue (list_all has_width watched.inputs.items)) }
    ensures outputs { IfOk result (λ watched. IsTrue (list_all has_width watched.outputs.items)) }
{
    let (inputs, rest) = sites.split_at(by.design.inputs.as_slice().len());
    let (outputs, last) = rest.split_at(by.design.outputs.as_slice().len());
    Ok(Watched {
        clock: first_cell(table, last),
        inputs: watches(alloc, table, inputs)?,
        outputs: watches(alloc, table, outputs)?,
        zero_inputs: by.zero_inputs,
    })
}
