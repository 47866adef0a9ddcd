//! Where the bits of ports stand in a scope (IEEE 1364-2005, 18.2.3).
ghost use Rattle.std.specs.Prelude.{◌≡◌, ◌<◌};
ghost use Rattle.std.specs.Option.{option_map};
ghost use Rattle.vcd_reading.specs.Header.{Header as TheHeader};
ghost use Rattle.vcd_reading.specs.HeaderView.{variable_of};
ghost use Rattle.vcd_reading.specs.PlaceView.{place_of, IsScope};
ghost use Rattle.vcd_reading.specs.PortView.{bit_of as bit_name_of, port_of, ports_in};
ghost use Rattle.vcd_reading.specs.Scopes.{bit_of, bit_place, declares, place_in, variable_in};

use crate::bits::BitName;
use crate::header::{Variable, is_real_type};
use crate::names::{Key, Names};
use crate::part::Part;
use crate::ports::Port;
use vcd_words::read_time;

/// Where the bits of a port stand: a variable, and which of its bits they are.
#[derive(Clone, Copy)]
pub struct Place<'a> {
    pub variable: Variable<'a>,
    pub part: Part,
}

/// A scope of a header, by its number, with the header's variables.
#[derive(Clone, Copy)]
pub struct Scope<'b, 'a> {
    pub variables: &'b [Variable<'a>],
    pub names: &'b Names<'a>,
    pub number: usize,
}

/// The bit of a variable that has a number, where it has 2 to 128 bits and that one.
fn bit_of(variable: Variable<'_>, number: u8) -> Option<Place<'_>>
    ensures { option_map place_of result ≡ bit_of number (variable_of variable.entry) }
{
    let size = read_time(variable.size)?;
    if u64::from(number) < size && 1 < size && size <= 128 && !is_real_type(variable.type_word) {
        let part = Part::Bit {
            number,
            size: size as u8,
        };
        return Some(Place { variable, part });
    }
    None
}

impl<'a> Scope<'_, 'a> {
    /// The variable of a name in the scope.
    fn variable(&self, name: &[u8]) -> Option<Variable<'a>>
        ensures { (h : TheHeader) → IsScope h self.now → option_map variable_of result ≡ variable_in h self.now.number name.now }
    {
        let key = Key {
            scope: self.number,
            name,
        };
        match self.names.find(key) {
            None => None,
            Some(number) => self.variables.get(number).copied(),
        }
    }

    /// Where a bit stands in the scope.
    fn bit(&self, bit: BitName<'_>) -> Option<Place<'a>>
        ensures { (h : TheHeader) → IsScope h self.now → option_map place_of result ≡ bit_place h self.now.number (bit_name_of bit.entry) }
    {
        match self.variable(bit.name) {
            None => None,
            Some(variable) => bit_of(variable, bit.number),
        }
    }

    /// Where a port stands in the scope, if it does.
    pub fn place(&self, port: &Port<'_>) -> Option<Place<'a>>
        ensures { (h : TheHeader) → IsScope h self.now → option_map place_of result ≡ place_in h self.now.number (port_of port.now) }
    {
        match self.variable(port.name) {
            Some(variable) => Some(Place {
                variable,
                part: Part::Whole,
            }),
            None => match port.bit {
                None => None,
                Some(bit) => self.bit(bit),
            },
        }
    }

    /// Whether the scope declares every port.
    pub fn declares(&self, ports: &[Port<'_>]) -> bool
        ensures { (h : TheHeader) → IsScope h self.now → result ≡ declares h (ports_in ports.now) self.now.number }
    {
        for port in ports {
            if self.place(port).is_none() {
                return false;
            }
        }
        true
    }
}
