//! Ports of instances (IEEE 1364-2005, 12.3).
ghost use Rattle.std.specs.Prelude.{◌≤◌};

use loc_base::Name;

/// A port of an instance by its signal.
#[derive(Clone, Copy)]
pub struct Socket<'t> {
    pub name: &'t Name,
    pub input: bool,
    pub signal: u32,
    pub width: u8,
    pub signed: bool,
    pub ghost least: { 1 ≤ width },
    pub ghost most: { width ≤ 128 },
}
