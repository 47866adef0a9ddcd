/// A gate that a worker passes before each of its pieces, by which a test sets the order of the workers. To pass it
/// takes time alone: no caller can see another effect.
pub trait Gate {
    /// Returns where the piece of that number may begin.
    fn enter(&self, piece: u32);
}

/// The gate that lets each piece begin at once.
#[derive(Clone, Copy, Debug, PartialEq, Eq)]
pub struct FreeGate;

impl Gate for FreeGate {
    fn enter(&self, _piece: u32) {}
}

/// So many workers, from 1 to 64, with the runtime that starts them and the gate that each passes.
#[derive(Clone, Copy)]
pub struct Workers<'a, R, G> {
    pub runtime: &'a R,
    pub gate: &'a G,
    pub count: u32,
}
