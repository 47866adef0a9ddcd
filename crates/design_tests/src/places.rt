//! The places of the designs of the tests.

use design_core::{Place, PlaceKind};
use loc_base::Name;
use std::alloc::Global;
use std::test::Fail;

pub fn name(alloc: Global, text: &str) -> Result<Name, Fail> {
    match Name::new(alloc, text.as_bytes())? {
        Some(name) => Ok(name),
        None => Err(Fail::new("no name")),
    }
}

/// Where a place stands: its site, home and copy.
#[derive(Clone, Copy)]
pub struct Where {
    pub site: u32,
    pub home: u32,
    pub copy: u32,
}

fn place(
    alloc: Global,
    kind: PlaceKind,
    stands: Where,
    names: (&str, &str),
) -> Result<Place, Fail> {
    Ok(Place {
        kind,
        width: 1,
        site: stands.site,
        home: stands.home,
        copy: stands.copy,
        line: 1,
        module: name(alloc, names.0)?,
        path: name(alloc, names.1)?,
        signal: 0,
    })
}

fn at(site: u32, home: u32, copy: u32) -> Where {
    Where { site, home, copy }
}

/// Two copies of a module with one assignment, and the module that connects them:
/// `module inv(input i, output o); assign o = i; endmodule`,
/// `module m(input a, input b, output x, output y); inv u(a, x); inv v(b, y); endmodule`.
pub fn shared_inverter(alloc: Global) -> Result<Vec<Place>, Fail> {
    let mut places = Vec::new(alloc);
    places.push(place(alloc, PlaceKind::PortOut, at(40, 34, 0), ("m", "m.u"))?)?;
    places.push(place(alloc, PlaceKind::PortOut, at(48, 42, 1), ("m", "m.v"))?)?;
    places.push(place(alloc, PlaceKind::Assign, at(10, 9, 0), ("inv", "m.u"))?)?;
    places.push(place(alloc, PlaceKind::Assign, at(10, 9, 0), ("inv", "m.v"))?)?;
    Ok(places)
}

/// Two gates, the second with two outputs: `or g1(n, a, b); buf g2(y, z, n);`.
pub fn two_gates(alloc: Global) -> Result<Vec<Place>, Fail> {
    let mut places = Vec::new(alloc);
    places.push(place(alloc, PlaceKind::Gate, at(20, 18, 0), ("m", "m.g1"))?)?;
    places.push(place(alloc, PlaceKind::Gate, at(30, 28, 1), ("m", "m.g2"))?)?;
    places.push(place(alloc, PlaceKind::Gate, at(32, 28, 1), ("m", "m.g2"))?)?;
    Ok(places)
}

/// `or g1(n, a, b); not g2(y, n);` in `module m(input a, input b, output y); wire n; .. endmodule`.
pub fn or_not(alloc: Global) -> Result<Vec<Place>, Fail> {
    let mut places = Vec::new(alloc);
    places.push(place(alloc, PlaceKind::Gate, at(19, 16, 0), ("m", "m.g1"))?)?;
    places.push(place(alloc, PlaceKind::Gate, at(29, 26, 1), ("m", "m.g2"))?)?;
    Ok(places)
}

/// Two always blocks, of two assignments and of one, in two copies of their module.
pub fn two_blocks(alloc: Global) -> Result<Vec<Place>, Fail> {
    let mut places = Vec::new(alloc);
    for path in ["m.p", "m.q"] {
        places.push(place(alloc, PlaceKind::Step, at(14, 10, 0), ("c", path))?)?;
        places.push(place(alloc, PlaceKind::Step, at(18, 10, 0), ("c", path))?)?;
        places.push(place(alloc, PlaceKind::Step, at(30, 26, 0), ("c", path))?)?;
    }
    Ok(places)
}
