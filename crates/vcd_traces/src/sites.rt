//! Where a design's ports stand (IEEE 1364-2005, 18.2.3): in the scope of the ports.
ghost use Rattle.std.specs.Prelude.{◌≡◌, ◌==◌, List, All, IfOk, map};
ghost use Rattle.vcd_words.specs.Times.{time_of};
ghost use Rattle.vcd_reading.specs.Header.{Header as TheHeader};
ghost use Rattle.vcd_reading.specs.HeaderView.{variable_of};
ghost use Rattle.vcd_reading.specs.PortView.{ports_in, sought_of};
ghost use Rattle.vcd_reading.specs.Scopes.{Sought, is_unfit as says_unfit, misfits, most_digits};
ghost use Rattle.vcd_traces.specs.Samples.{lesser as spec_lesser, least_port};
ghost use Rattle.vcd_traces.specs.Sites.{site_port, IsFirst, IsSite, AreSites};

use loc_base::NoMemory;
use std::alloc::Global;
use vcd_reading::{Part, Place, Port, Scope, Sought as WithPath, is_real_type};

/// A port and where it stands.
#[derive(Clone, Copy)]
pub struct Site<'a> {
    pub port: Port<'a>,
    pub place: Place<'a>,
}

impl Site<'_> {
    /// How many digits a value of the port's variable may have.
    pub fn most_digits(&self) -> u8
        ensures { result ≡ most_digits self.now.port.width self.now.place.part }
    {
        match self.place.part {
            Part::Whole => self.port.width,
            Part::Bit { size, .. } => size,
        }
    }
}

/// The ports that are looked for with their places in a scope, which declares every one.
pub fn port_sites<'a>(
    alloc: Global,
    scope: &Scope<'_, 'a>,
    sought: &WithPath<'_, 'a>,
) -> Result<Vec<Site<'a>>, NoMemory>
    ensures { IfOk result (λ sites. (h : TheHeader) → IsFirst h (sought_of sought.now) scope.now → AreSites h (sought_of sought.now) (ports_in sought.now.ports.now) sites.items) }
{
    let mut sites = Vec::new(alloc);
    for port in sought.ports {
        if let Some(place) = scope.place(port) {
            let site = Site { port: *port, place };
            sites.push(site)?;
        }
    }
    Ok(sites)
}

/// Whether decimal digits say a number.
#[tactic(auto, using(crate::proofs::SizeLaws::size_steps))]
fn says(digits: &[u8], number: u8) -> bool
    ensures { result ≡ (time_of digits.now == number) }
{
    let mut said = 0u32;
    for digit in digits {
        said = said * 10 + u32::from(digit.saturating_sub(b'0'));
        if u32::from(number) < said {
            return false;
        }
    }
    said == u32::from(number)
}

/// Whether a port of a width that is a whole variable has a real one or one of another width.
fn misfits(width: u8, place: &Place<'_>) -> bool
    ensures { result ≡ misfits width (variable_of place.now.variable) place.now.part }
{
    match place.part {
        Part::Whole => {
            is_real_type(place.variable.type_word) || !says(place.variable.size, width)
        }
        Part::Bit { .. } => false,
    }
}

/// Whether a port's variable is real or of another width.
fn is_unfit(site: &Site<'_>) -> bool
    ensures { (h : TheHeader) (sought : Sought) → IsSite h sought site.now → result ≡ says_unfit h sought (site_port site.now) }
{
    misfits(site.port.width, &site.place)
}

/// The lesser of a number and another, where there is one.
fn lesser(number: u32, other: Option<u32>) -> u32
    ensures { result ≡ spec_lesser number other }
{
    match other {
        Some(other) if other < number => other,
        _ => number,
    }
}

/// The least number of a port's signal whose variable is real or of another width.
pub fn least_unfit(sites: &[Site<'_>]) -> Option<u32>
    ensures { (h : TheHeader) (sought : Sought) → All (IsSite h sought) sites.now → result ≡ least_port (says_unfit h sought) (map site_port sites.now) }
{
    let mut least = None;
    for site in sites {
        if is_unfit(site) {
            least = Some(lesser(site.port.signal, least));
        }
    }
    least
}
