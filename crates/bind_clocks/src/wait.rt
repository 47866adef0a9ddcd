//! What a block waits for (IEEE 1364.1-2002, 5.2.2).
ghost use Rattle.std.specs.Prelude.{◌≡◌, [], ◌∷◌, option_map};
ghost use Rattle.v_binding.specs.Clocks.{is_clock, is_clock_edge, resetting, wait_with, wait_for};
ghost use Rattle.bind_clocks.specs.Waits.{waited_of, resetting_of, wait_of};

use loc_base::Name;

/// An edge of a name, and the input of the top that it is or is connected to by plain names.
#[derive(Clone, Copy)]
pub(crate) struct Waited<'t> {
    pub(crate) rising: bool,
    pub(crate) text: &'t Name,
    pub(crate) root: Option<u32>,
}

/// A reset: an input of the top, the level at which it is active, and the name that it has in the block.
#[derive(Clone, Copy)]
pub struct Resetting<'t> {
    pub input: u32,
    pub level: bool,
    pub text: &'t Name,
}

/// What a block waits for.
#[derive(Clone, Copy)]
pub enum Wait<'t> {
    /// The rising edge of the clock.
    Clock,
    /// The rising edge of the clock, and an edge of another input of the top.
    ClockAnd(Resetting<'t>),
    /// Other edges.
    Others,
}

/// Whether an input of the top is the clock.
fn is_clock(clock: Option<u32>, input: u32) -> bool
    ensures { result ≡ is_clock clock input }
{
    match clock {
        Some(number) => number == input,
        None => false,
    }
}

/// Whether an edge is the rising edge of the clock.
fn is_clock_edge(clock: Option<u32>, waited: Waited<'_>) -> bool
    ensures { result ≡ is_clock_edge clock (waited_of waited.entry) }
{
    match waited.root {
        Some(input) => waited.rising && is_clock(clock, input),
        None => false,
    }
}

/// An edge of another input of the top than the clock.
fn other_input<'t>(clock: Option<u32>, waited: Waited<'t>) -> Option<Resetting<'t>>
    ensures { option_map resetting_of result ≡ resetting clock (waited_of waited.entry) }
{
    match waited.root {
        Some(input) => {
            if is_clock(clock, input) {
                None
            } else {
                Some(Resetting {
                    input,
                    level: waited.rising,
                    text: waited.text,
                })
            }
        }
        None => None,
    }
}

/// The clock and a reset, where there is one.
fn wait_with<'t>(reset: Option<Resetting<'t>>) -> Wait<'t>
    ensures { wait_of result ≡ wait_with (option_map resetting_of reset.entry) }
{
    match reset {
        Some(reset) => Wait::ClockAnd(reset),
        None => Wait::Others,
    }
}

/// What a block with one edge waits for.
pub(crate) fn of_one<'t>(clock: Option<u32>, one: Waited<'t>) -> Wait<'t>
    ensures { wait_of result ≡ wait_for clock (waited_of one.entry ∷ []) }
{
    if is_clock_edge(clock, one) {
        Wait::Clock
    } else {
        Wait::Others
    }
}

/// What a block with two edges waits for.
pub(crate) fn of_two<'t>(clock: Option<u32>, one: Waited<'t>, other: Waited<'t>) -> Wait<'t>
    ensures { wait_of result ≡ wait_for clock (waited_of one.entry ∷ waited_of other.entry ∷ []) }
{
    if is_clock_edge(clock, one) {
        wait_with(other_input(clock, other))
    } else if is_clock_edge(clock, other) {
        wait_with(other_input(clock, one))
    } else {
        Wait::Others
    }
}
