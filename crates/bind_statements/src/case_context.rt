//! The context in which the expressions of a case stand (IEEE 1364-2005, 9.5).
ghost use Rattle.std.specs.Prelude.{◌≤◌};

/// The width and the sign of all expressions of a case.
#[derive(Clone, Copy)]
pub(crate) struct CaseContext {
    pub width: u8,
    pub signed: bool,
    pub ghost least: { 1 ≤ width },
    pub ghost most: { width ≤ 128 },
}
