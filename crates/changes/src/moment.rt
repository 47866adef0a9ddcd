//! A cycle of a run, and what a place computes in it.

ghost use Rattle.std.specs.Prelude.{◌≡◌, ◌<◌, Contains, IfOk, IsTrue, Some, length};
ghost use Rattle.loc_base.specs.Bits.{value_of, width_of};
ghost use Rattle.design_core.specs.Explained.{place_width};
ghost use Rattle.design_core.specs.WellFormed.{clocked_fits, statement_fits};
ghost use Rattle.changes.specs.Reached.{begun, reached};
ghost use Rattle.changes.specs.Execution.{computes_at, executed, executed_clocked, executed_cont, executed_driver, executed_in, first_executed};
ghost use Rattle.changes.specs.Moments.{Executes, IsComputed, IsExecuted, IsMoment, IsSide, choice_in, execution_of, values_in};

use crate::places::fitted;
use crate::stands::has_place;
use crate::walk::{Seek, walk};
use design_core::{Clocked, Design, Driver, Stmt, Typed};
use loc_base::{Bits, NoMemory};
use plain_sim::is_active;
use plain_values::value;
use std::alloc::Global;

/// A cycle of a run of a design: the word of each signal, and for each place whether it is freed and the word that it then takes.
#[derive(Clone, Copy)]
pub struct Moment<'a> {
    pub design: &'a Design,
    pub words: &'a [Bits],
    pub freed: &'a [bool],
    pub chosen: &'a [Bits],
}

/// How a cycle executes the assignment of a place: its right side, and the words of the signals as this reads them.
#[derive(Drop)]
pub struct Executed<'a> {
    pub side: &'a Typed,
    pub words: Vec<Bits>,
}

impl Executed<'_> {
    /// What the place computes, in its width.
    pub fn computes(&self, design: &Design, place: u32) -> Bits
        requires { IsExecuted design.now place self.now }
        ensures width { width_of result ≡ place_width design.now place }
        ensures value { value_of result ≡ computes_at design.now place (execution_of self.now) }
    {
        let word = value(&design.signals, &self.words, self.side);
        fitted(design, place, word)
    }
}

/// How a place is executed in a statement that is begun with the words of the cycle.
fn in_statement<'a>(
    alloc: Global,
    moment: &Moment<'_>,
    place: u32,
    statement: &'a Stmt,
) -> Result<Option<Executed<'a>>, NoMemory>
    requires moment { IsMoment moment.now }
    requires fits { IsTrue (statement_fits moment.now.design.now.signals.items moment.now.design.now.places.items statement.now) }
    ensures { IfOk result (Executes moment.now.design.now place
        (executed_in moment.now.design.now.signals.items (choice_in moment.now) place statement.now (begun (values_in moment.now)))) }
{
    if !has_place(place, statement) {
        return Ok(None);
    }
    let mut words = moment.words.to_vec(alloc)?;
    let mut later = moment.words.to_vec(alloc)?;
    let seek = Seek {
        moment: *moment,
        place,
    };
    match walk(&seek, statement, &mut words, &mut later) {
        Some(side) => Ok(Some(Executed { side, words })),
        None => Ok(None),
    }
}

/// How a place is executed in a continuous assignment, which may have a place.
fn in_assignment<'a>(
    alloc: Global,
    moment: &Moment<'_>,
    place: u32,
    own: Option<u32>,
    side: &'a Typed,
) -> Result<Option<Executed<'a>>, NoMemory>
    requires moment { IsMoment moment.now }
    requires side { own ≡ Some place → IsSide moment.now.design.now place side.now }
    ensures { IfOk result (Executes moment.now.design.now place (executed_cont own place side.now (values_in moment.now))) }
{
    let Some(own) = own else {
        return Ok(None);
    };
    if own != place {
        return Ok(None);
    }
    let words = moment.words.to_vec(alloc)?;
    Ok(Some(Executed { side, words }))
}

/// How a place is executed in a driver of the design.
fn in_driver<'a>(
    alloc: Global,
    moment: &Moment<'a>,
    place: u32,
    driver: &'a Driver,
) -> Result<Option<Executed<'a>>, NoMemory>
    requires moment { IsMoment moment.now }
    requires driver { Contains moment.now.design.now.drivers.items driver.now }
    ensures { IfOk result (Executes moment.now.design.now place
        (executed_driver moment.now.design.now.signals.items (choice_in moment.now) (values_in moment.now) place driver.now)) }
{
    match driver {
        Driver::Cont {
            value: side,
            place: own,
            ..
        } => in_assignment(alloc, moment, place, *own, side),
        Driver::Comb { body, .. } => in_statement(alloc, moment, place, body),
    }
}

/// How a place is executed in a clocked block of the design.
fn in_block<'a>(
    alloc: Global,
    moment: &Moment<'a>,
    place: u32,
    block: &'a Clocked,
) -> Result<Option<Executed<'a>>, NoMemory>
    requires moment { IsMoment moment.now }
    requires fits { IsTrue (clocked_fits moment.now.design.now block.now) }
    ensures { IfOk result (Executes moment.now.design.now place
        (executed_clocked moment.now.design.now.signals.items (choice_in moment.now) (values_in moment.now) place block.now)) }
{
    if !is_active(moment.words, block) {
        return in_statement(alloc, moment, place, &block.body);
    }
    match &block.reset {
        Some(reset) => in_statement(alloc, moment, place, &reset.values),
        None => Ok(None),
    }
}

/// How a place is executed in the first driver that executes it.
fn in_drivers<'a>(
    alloc: Global,
    moment: &Moment<'a>,
    place: u32,
) -> Result<Option<Executed<'a>>, NoMemory>
    requires moment { IsMoment moment.now }
    ensures { IfOk result (Executes moment.now.design.now place
        (first_executed (executed_driver moment.now.design.now.signals.items (choice_in moment.now) (values_in moment.now) place)
        moment.now.design.now.drivers.items)) }
{
    for driver in &moment.design.drivers {
        if let Some(executed) = in_driver(alloc, moment, place, driver)? {
            return Ok(Some(executed));
        }
    }
    Ok(None)
}

/// How a place is executed in the first clocked block that executes it.
fn in_blocks<'a>(
    alloc: Global,
    moment: &Moment<'a>,
    place: u32,
) -> Result<Option<Executed<'a>>, NoMemory>
    requires moment { IsMoment moment.now }
    ensures { IfOk result (Executes moment.now.design.now place
        (first_executed (executed_clocked moment.now.design.now.signals.items (choice_in moment.now) (values_in moment.now) place)
        moment.now.design.now.clocked.items)) }
{
    for block in &moment.design.clocked {
        if let Some(executed) = in_block(alloc, moment, place, block)? {
            return Ok(Some(executed));
        }
    }
    Ok(None)
}

/// How the cycle executes the assignment of a place, whatever the place is made to take; none where it doesn't.
pub fn executed_at<'a>(
    alloc: Global,
    moment: &Moment<'a>,
    place: u32,
) -> Result<Option<Executed<'a>>, NoMemory>
    requires { IsMoment moment.now }
    ensures { IfOk result (Executes moment.now.design.now place
        (executed moment.now.design.now (choice_in moment.now) (values_in moment.now) place)) }
{
    match in_drivers(alloc, moment, place)? {
        Some(executed) => Ok(Some(executed)),
        None => in_blocks(alloc, moment, place),
    }
}

/// What a place computes in a cycle, in its width: the right side of its assignment where the cycle carries this out, whatever the place is
/// made to take. The design is well formed and its drivers stand in an order, so what a place computes doesn't depend on the bits that its
/// own driver gives.
pub fn computed_in(alloc: Global, moment: &Moment<'_>, place: u32) -> Result<Option<Bits>, NoMemory>
    requires { IsMoment moment.now }
    ensures { IfOk result (IsComputed moment.now.design.now place
        (reached moment.now.design.now (choice_in moment.now) (values_in moment.now) place)) }
{
    match executed_at(alloc, moment, place)? {
        Some(executed) => Ok(Some(executed.computes(moment.design, place))),
        None => Ok(None),
    }
}
