ghost use Rattle.std.specs.Prelude.{◌≡◌, ◌<◌, ℕ, IsTrue, IfOk, length, slice_get, Some};
ghost use Rattle.loc_base.specs.Bits.{value_of};
ghost use Rattle.design_core.specs.declared.driver.Driver.{Driver};
ghost use Rattle.design_core.specs.declared.driver.Clocked.{Clocked};
ghost use Rattle.design_core.specs.Words.{valuation_of, AreWordsOf, choice_of};
ghost use Rattle.design_core.specs.Constant.{zeros as zeros_of};
ghost use Rattle.design_core.specs.WellFormed.{driver_fits, statement_fits};
ghost use Rattle.design_core.specs.Cycle.{cont_assigned, driven, left_from};
ghost use Rattle.plain_sim.specs.EvaluateCycle.{driven_from};
ghost use Rattle.design_core.specs.Given.{AreChosen, CanRun};

use crate::cycle::copies::{copy_of, zeros_like};
use crate::cycle::region::Region;
use crate::cycle::take::take;
use design_core::{Design, Driver, Stmt};
use loc_base::{Bits, NoMemory};
use plain_values::{assign, assigned, run_statement, value};
use std::alloc::Global;

/// What a continuous assignment assigns: the value chosen for its place where it has one that is freed.
fn placed(freed: &[bool], chosen: &[Bits], place: Option<u32>, computed: Bits) -> Bits
    requires freed { (p : ℕ) → place ≡ Some p → p < length freed.now }
    requires chosen { (p : ℕ) → place ≡ Some p → p < length chosen.now }
    ensures { value_of result ≡ cont_assigned (choice_of freed.now chosen.now) place (value_of computed) }
{
    match place {
        Some(place) => assigned(freed, chosen, place, computed),
        None => computed,
    }
}

/// Carries out a driver on words in which its own bits are 0, and on those of later updates, which are alike. `words`
/// has the bits as they are.
fn run_driver(
    design: &Design,
    freed: &[bool],
    chosen: &[Bits],
    words: &[Bits],
    driver: &Driver,
    rest: &mut [Bits],
    later: &mut [Bits],
)
    requires words { AreWordsOf design.now.signals.items words.now }
    requires rest { AreWordsOf design.now.signals.items rest.old }
    requires later { AreWordsOf design.now.signals.items later.old }
    requires same { valuation_of later.old ≡ valuation_of rest.old }
    requires chosen { AreChosen design.now freed.now chosen.now }
    requires fits { IsTrue (driver_fits design.now.signals.items design.now.places.items driver.now) }
    ensures words { AreWordsOf design.now.signals.items rest.new }
    ensures value { valuation_of rest.new
        ≡ driven_from design.now.signals.items (choice_of freed.now chosen.now) (valuation_of words.now) (valuation_of rest.old) driver.now }
{
    match driver {
        Driver::Cont {
            target,
            value: computed,
            place,
            ..
        } => {
            let computed = value(&design.signals, words, computed);
            let word = placed(freed, chosen, *place, computed);
            assign(&design.signals, rest, later, &target.parts, word, false);
        }
        Driver::Comb { body, .. } => run_statement(design, freed, chosen, rest, later, body),
    }
}

/// Carries out the driver of a number on copies of some words, once its own bits are 0.
fn drive(
    design: &Design,
    freed: &[bool],
    chosen: &[Bits],
    words: &[Bits],
    i: usize,
    zeros: &[Bits],
    rest: &mut [Bits],
    later: &mut [Bits],
)
    requires design { CanRun design.now }
    requires words { AreWordsOf design.now.signals.items words.now }
    requires chosen { AreChosen design.now freed.now chosen.now }
    requires number { i < length design.now.drivers.items }
    requires zeros { AreWordsOf design.now.signals.items zeros.now }
    requires at_zero { valuation_of zeros.now ≡ zeros_of }
    requires rest { rest.old ≡ words.now }
    requires later { later.old ≡ words.now }
    ensures words { AreWordsOf design.now.signals.items rest.new }
    ensures value { (driver : Driver) → slice_get design.now.drivers.items i ≡ Some driver
        → valuation_of rest.new ≡ driven design.now.signals.items (choice_of freed.now chosen.now) (valuation_of words.now) driver }
{
    take(design, &[], Region::Driver(i), rest, zeros);
    take(design, &[], Region::Driver(i), later, zeros);
    run_driver(
        design,
        freed,
        chosen,
        words,
        &design.drivers[i],
        rest,
        later,
    );
}

/// What the driver of a number gives its bits where the bits are as in some words.
pub(crate) fn driven_by(
    alloc: Global,
    design: &Design,
    freed: &[bool],
    chosen: &[Bits],
    words: &[Bits],
    i: usize,
) -> Result<Vec<Bits>, NoMemory>
    requires design { CanRun design.now }
    requires words { AreWordsOf design.now.signals.items words.now }
    requires chosen { AreChosen design.now freed.now chosen.now }
    requires number { i < length design.now.drivers.items }
    ensures words { IfOk result (λ left. AreWordsOf design.now.signals.items left.items) }
    ensures value { IfOk result (λ left. (driver : Driver) → slice_get design.now.drivers.items i ≡ Some driver
        → valuation_of left.items ≡ driven design.now.signals.items (choice_of freed.now chosen.now) (valuation_of words.now) driver) }
{
    let zeros = zeros_like(alloc, design, words)?;
    let mut rest = copy_of(alloc, words)?;
    let mut later = copy_of(alloc, words)?;
    drive(
        design, freed, chosen, words, i, &zeros, &mut rest, &mut later,
    );
    Ok(rest)
}

/// Runs a statement of the clocked block of a number on copies of some words, and keeps the later updates of the signals
/// that the block assigns by `<=`.
fn leave(
    design: &Design,
    freed: &[bool],
    chosen: &[Bits],
    words: &[Bits],
    i: usize,
    statement: &Stmt,
    now: &mut [Bits],
    later: &mut [Bits],
)
    requires words { AreWordsOf design.now.signals.items words.now }
    requires chosen { AreChosen design.now freed.now chosen.now }
    requires fits { IsTrue (statement_fits design.now.signals.items design.now.places.items statement.now) }
    requires now { now.old ≡ words.now }
    requires later { later.old ≡ words.now }
    ensures words { AreWordsOf design.now.signals.items now.new }
    ensures value { (block : Clocked) → slice_get design.now.clocked.items i ≡ Some block
        → valuation_of now.new ≡ left_from design.now.signals.items (choice_of freed.now chosen.now) block (valuation_of words.now) statement.now }
{
    run_statement(design, freed, chosen, now, later, statement);
    take(design, &[], Region::Later(i), now, later);
}

/// What the clocked block of a number leaves for its registers by one of its statements, begun in some words.
pub(crate) fn left_by(
    alloc: Global,
    design: &Design,
    freed: &[bool],
    chosen: &[Bits],
    words: &[Bits],
    i: usize,
    statement: &Stmt,
) -> Result<Vec<Bits>, NoMemory>
    requires words { AreWordsOf design.now.signals.items words.now }
    requires chosen { AreChosen design.now freed.now chosen.now }
    requires fits { IsTrue (statement_fits design.now.signals.items design.now.places.items statement.now) }
    ensures words { IfOk result (λ left. AreWordsOf design.now.signals.items left.items) }
    ensures value { IfOk result (λ left. (block : Clocked) → slice_get design.now.clocked.items i ≡ Some block
        → valuation_of left.items ≡ left_from design.now.signals.items (choice_of freed.now chosen.now) block (valuation_of words.now) statement.now) }
{
    let mut now = copy_of(alloc, words)?;
    let mut later = copy_of(alloc, words)?;
    leave(
        design, freed, chosen, words, i, statement, &mut now, &mut later,
    );
    Ok(now)
}
